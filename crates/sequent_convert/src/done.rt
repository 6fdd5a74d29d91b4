//! The turns that are done on a branch.

ghost use Rattle.std.specs.Prelude.{◌≡◌, ◌≢◌, ◌++◌, ◌∷◌, [], ◌<◌, ◌^◌, ◌↔◌, ℕ, IsTrue, OnOk, OnErr, Contains, slice_index, length, take};

use cop_base::NoMemory;
use std::alloc::Global;
use std::marker::Model;

/// The turns that are done on a branch, in the order in which they were done.
#[derive(Drop)]
pub struct Done {
    turns: Vec<usize>,
    // The number of each turn in the list, counted from 1. Truncation leaves the numbers alone, so one may be stale: past the
    // end, or of another turn. `has` checks.
    numbers: Vec<usize>,
}

impl Model for Done {
    ghost use Rattle.std.specs.Prelude.{List, ℕ};
    ghost use Rattle.sequent_convert.specs.Numbers.{KeepsNumbers};

    ghost Value = { List ℕ };

    ghost view = { λ d. d.turns.items };

    ghost invariant = { λ d. KeepsNumbers d.numbers.items d.turns.items };
}

/// The number at a place, or 0 past the end.
pub fn number_at(numbers: &[usize], place: usize) -> usize
    ensures { result ≡ slice_index numbers.now place }
{
    match numbers.get(place) {
        Some(number) => *number,
        None => 0,
    }
}

/// Puts the number at the place, and 0 at the places that are new before it.
pub fn put_number(numbers: &mut Vec<usize>, place: usize, number: usize) -> Result<(), NoMemory>
    ensures here { OnOk result (slice_index numbers.new.items place ≡ number) }
    ensures others { (p : ℕ) → p ≢ place → slice_index numbers.new.items p ≡ slice_index numbers.old.items p }
    ensures err { OnErr result ((p : ℕ) → slice_index numbers.new.items p ≡ slice_index numbers.old.items p) }
{
    while numbers.len() <= place {
        numbers.push(0)?;
    }
    numbers[place] = number;
    Ok(())
}

impl Done {
    /// No turn is done.
    pub fn new(alloc: Global) -> Done
        ensures { result ≡ [] }
    {
        Done {
            turns: Vec::new(alloc),
            numbers: Vec::new(alloc),
        }
    }

    /// How many turns are done.
    pub fn len(&self) -> usize
        ensures { result ≡ length self.now }
    {
        self.turns.len()
    }

    /// Whether the turn is done.
    #[tactic(auto, using(crate::proofs::Numbers::numbering))]
    pub fn has(&self, turn: usize) -> bool
        ensures { IsTrue result ↔ Contains self.now turn }
    {
        let number = number_at(&self.numbers, turn);
        if number == 0 {
            return false;
        }
        if number > self.turns.len() {
            return false;
        }
        self.turns[number - 1] == turn
    }

    /// Adds a turn that is not done.
    #[tactic(auto, using(crate::proofs::Numbers::numbering))]
    pub fn push(&mut self, turn: usize) -> Result<(), NoMemory>
        requires { ¬ (Contains self.old turn) }
        ensures { OnOk result (self.new ≡ self.old ++ turn ∷ []) }
    {
        let number = self.turns.len() + 1;
        put_number(&mut self.numbers, turn, number)?;
        self.turns.push(turn)?;
        Ok(())
    }

    /// Takes off the turns past the first `length` ones.
    #[tactic(auto, using(crate::proofs::Numbers::numbering))]
    pub fn truncate(&mut self, length: usize)
        ensures { self.new ≡ take length self.old }
    {
        self.turns.truncate(length);
    }
}
