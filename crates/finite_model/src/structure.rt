//! Structures in memory.

ghost use Rattle.std.specs.Prelude.{◌≡◌, ◌<◌, ◌≤◌, ◌||◌, not, ℕ, false, length, vec_len, min, slice_get, slice_index, option_copied};
ghost use Rattle.std.specs.Option.{option_map, option_map_or};
ghost use Rattle.calculus.specs.Structures.{domain_of, list_at, successors_of, truth_in, value_in};
ghost use Rattle.finite_model.specs.Conditions.{HasRows, is_kept, is_row_kept};
ghost use Rattle.finite_model.specs.StructureView.{is_one, the_lists, the_meaning, the_structure};

use cop_base::SymbolId;
use std::marker::Model;

/// What a symbol means: an element for each tuple, or at each world a digit 0 or 1 for each tuple. The tuples stand in lexicographic
/// order.
#[derive(Drop)]
pub(crate) enum Meaning {
    Values(Vec<u8>),
    Truths(Vec<Vec<u8>>),
}

/// A finite Kripke structure. Worlds and elements are numbered from 0, and world 0 is the root.
#[derive(Drop)]
pub struct Structure {
    elements: u8,
    successors: Vec<Vec<u8>>,
    domains: Vec<Vec<u8>>,
    meanings: Vec<Meaning>,
}

impl Model for Structure {
    ghost use Rattle.std.specs.Prelude.{◌≤◌, vec_len};
    ghost use Rattle.calculus.specs.Structures as tree;
    ghost use Rattle.finite_model.specs.Codes.{structure_code};
    ghost use Rattle.finite_model.specs.StructureView.{the_structure};

    ghost Value = { tree.Structure };

    ghost coded = { structure_code };

    ghost view = { λ s. the_structure s.elements s.successors.items s.domains.items s.meanings.items };

    ghost invariant = { λ s. vec_len s.successors ≤ 64 };
}

// The entry of a place, or 0 where the table has none.
fn entry_at(table: &[u8], place: usize) -> u8
    ensures { (k : ℕ) → place ≡ min k usize.MAX → result ≡ slice_index table.now k }
{
    if place < table.len() { table[place] } else { 0 }
}

// The list of a number, or the empty one.
fn list_at(lists: &[Vec<u8>], number: u8) -> &[u8]
    ensures { result.now ≡ list_at (the_lists lists.now) number }
{
    let place = number as usize;
    if place < lists.len() {
        lists[place].as_slice()
    } else {
        b""
    }
}

// Whether the digit of a place is 1.
fn is_one_at(rows: &[Vec<u8>], world: u8, place: usize) -> bool
    ensures { (k : ℕ) → place ≡ min k usize.MAX
        → result ≡ is_one (slice_index (list_at (the_lists rows.now) world) k) }
{
    entry_at(list_at(rows, world), place) == b'1'
}

fn is_digit_kept(digit: u8, other: u8) -> bool
    ensures { result ≡ (not (is_one digit) || is_one other) }
{
    digit != b'1' || other == b'1'
}

// Whether each digit 1 of a row is one in the other row, which is as long. No digit ends the loop, so
// that it goes over many at once: rows of a million digits are compared for each pair of worlds.
fn is_row_kept(row: &[u8], others: &[u8]) -> bool
    requires { length row.now ≡ length others.now }
    ensures { result ≡ is_row_kept row.now others.now }
{
    let mut kept = true;
    for place in 0..row.len() {
        kept &= is_digit_kept(row[place], others[place]);
    }
    kept
}

impl Structure {
    /// The structure of these parts.
    pub(crate) fn new(
        elements: u8,
        successors: Vec<Vec<u8>>,
        domains: Vec<Vec<u8>>,
        meanings: Vec<Meaning>,
    ) -> Structure
        requires { vec_len successors ≤ 64 }
        ensures { result ≡ the_structure elements successors.items domains.items meanings.items }
    {
        Structure {
            elements,
            successors,
            domains,
            meanings,
        }
    }

    /// How many worlds there are.
    pub(crate) fn worlds(&self) -> u8
        ensures count { result ≡ length self.now.successors }
        ensures few { result ≤ 64 }
    {
        self.successors.len() as u8
    }

    /// How many elements there are.
    pub(crate) fn elements(&self) -> u8
        ensures { result ≡ self.now.elements }
    {
        self.elements
    }

    /// The worlds that a world reaches.
    pub(crate) fn successors_of(&self, world: u8) -> &[u8]
        ensures { result.now ≡ successors_of self.now world }
    {
        list_at(self.successors.as_slice(), world)
    }

    /// The elements that exist at a world.
    pub(crate) fn domain_of(&self, world: u8) -> &[u8]
        ensures { result.now ≡ domain_of self.now world }
    {
        list_at(self.domains.as_slice(), world)
    }

    // What a symbol means.
    fn meaning(&self, symbol: SymbolId) -> Option<&Meaning>
        ensures { slice_get self.now.meanings symbol.0 ≡ option_map the_meaning (option_copied result) }
    {
        let place = symbol.0 as usize;
        if place < self.meanings.len() {
            Some(&self.meanings[place])
        } else {
            None
        }
    }

    /// The value of a function at the tuple of a place. A place past all numbers is past the table.
    pub(crate) fn value_at(&self, function: SymbolId, place: usize) -> u8
        ensures { (k : ℕ) → place ≡ min k usize.MAX
            → result ≡ option_map_or (value_in k) (slice_get self.now.meanings function.0) 0 }
    {
        match self.meaning(function) {
            Some(Meaning::Values(values)) => entry_at(values.as_slice(), place),
            Some(Meaning::Truths(_)) | None => 0,
        }
    }

    /// Whether a predicate is true at a world of the tuple of a place. A place past all numbers is past the table.
    pub(crate) fn is_true_at(&self, predicate: SymbolId, world: u8, place: usize) -> bool
        ensures { (k : ℕ) → place ≡ min k usize.MAX
            → result ≡ option_map_or (truth_in world k) (slice_get self.now.meanings predicate.0) false }
    {
        match self.meaning(predicate) {
            Some(Meaning::Truths(rows)) => is_one_at(rows.as_slice(), world, place),
            Some(Meaning::Values(_)) | None => false,
        }
    }

    /// Whether what is true of a predicate, which has an arity, at a world is true at another one.
    pub(crate) fn is_kept(&self, predicate: SymbolId, arity: u32, world: u8, other: u8) -> bool
        requires rows { HasRows self.now predicate.0 arity }
        requires world { world < length self.now.successors }
        requires other { other < length self.now.successors }
        ensures { result ≡ is_kept self.now predicate.0 arity world other }
    {
        match self.meaning(predicate) {
            Some(Meaning::Truths(rows)) => {
                let row = list_at(rows.as_slice(), world);
                let others = list_at(rows.as_slice(), other);
                is_row_kept(row, others)
            }
            Some(Meaning::Values(_)) => true,
            None => true,
        }
    }
}
