//! Places of a table by their numbers.

ghost use Rattle.std.specs.Prelude.{◌≡◌, ◌++◌, ◌∷◌, ◌<◌, ◌≤◌, ℕ, [], get_or, length, set, suc, IsTrue, OnErr, OnOk, IfOk};
ghost use Rattle.calculus.specs.Versions.{is_among, numbered};
ghost use Rattle.derivation_text.specs.Listing.{AreApart, first_number};

use cop_base::NoMemory;
use label_table::place_of;
use std::alloc::Global;
use std::marker::Model;

/// Places of a table in the order of their numbers, from 1. A place may be listed more than once, and its first number is known.
#[derive(Drop)]
pub struct PlaceList {
    places: Vec<u32>,
    // For each place of the table its first number, or 0 where it is not listed.
    numbers: Vec<u32>,
}

impl Model for PlaceList {
    ghost use Rattle.std.specs.Prelude.{ℕ, List};
    ghost use Rattle.derivation_text.specs.Listing.{AreNumbers};

    ghost Value = { List ℕ };

    ghost view = { λ s. s.places.items };

    ghost invariant = { λ s. AreNumbers s.places.items s.numbers.items };
}

// Makes room for the number of a place.
fn reach(numbers: &mut Vec<u32>, place: u32) -> Result<(), NoMemory>
    ensures same { (p : ℕ) → get_or numbers.new.items p 0 ≡ get_or numbers.old.items p 0 }
    ensures reached { OnOk result (place < length numbers.new.items) }
{
    while numbers.len() <= place as usize {
        numbers.push(0)?;
    }
    Ok(())
}

// Gives a place its number, unless it has one.
fn set_first(numbers: &mut Vec<u32>, place: u32, number: u32)
    requires { place < length numbers.old.items }
    ensures kept { 0 < get_or numbers.old.items place 0 → numbers.new.items ≡ numbers.old.items }
    ensures put { get_or numbers.old.items place 0 ≡ 0 → numbers.new.items ≡ set numbers.old.items place number }
{
    if numbers[place as usize] == 0 {
        numbers[place as usize] = number;
    }
}

impl PlaceList {
    /// No places.
    pub fn new(alloc: Global) -> PlaceList
        ensures { result ≡ [] }
    {
        PlaceList {
            places: Vec::new(alloc),
            numbers: Vec::new(alloc),
        }
    }

    /// How many places are listed.
    pub fn count(&self) -> u32
        ensures { result ≡ length self.now }
    {
        self.places.len() as u32
    }

    /// The first number of a place, or 0 where it is not listed.
    pub fn number(&self, place: u32) -> u32
        ensures { result ≡ first_number self.now place }
    {
        let numbers = self.numbers.as_slice();
        if (place as usize) < numbers.len() {
            numbers[place as usize]
        } else {
            0
        }
    }

    /// The place of a number.
    pub fn place(&self, number: u32) -> u32
        requires { IsTrue (is_among (length self.now) number) }
        ensures { result ≡ numbered self.now number 0 }
    {
        self.places[number as usize - 1]
    }

    /// Lists a place under the next number, which is the answer.
    pub fn list(&mut self, place: u32) -> Result<u32, NoMemory>
        ensures listed { OnOk result (self.new ≡ self.old ++ place ∷ []) }
        ensures number { IfOk result (λ k. k ≡ suc (length self.old)) }
        ensures err { OnErr result (self.new ≡ self.old) }
    {
        let number = place_of(self.places.len() + 1)?;
        reach(&mut self.numbers, place)?;
        self.places.push(place)?;
        set_first(&mut self.numbers, place, number);
        Ok(number)
    }

    /// Whether no place is listed twice.
    pub fn are_apart(&self) -> bool
        ensures { IsTrue result → AreApart self.now 0 }
    {
        for (i, place) in self.places.iter().enumerate() {
            if self.number(*place) as usize != i + 1 {
                return false;
            }
        }
        true
    }
}
