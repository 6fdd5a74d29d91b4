//! Sets of numbers that grow along a branch and are cut back with it.

ghost use Rattle.std.specs.List.Sorted.{IsNonDecreasing, IsPartitionPoint};
ghost use Rattle.std.specs.Prelude.{◌≡◌, ◌==◌, ◌||◌, ◌++◌, ◌∷◌, [], ℕ, List, false, true, length, ltb, take, IfOk, OnErr, OnOk};
ghost use Rattle.label_table.specs.Longer.{IsLonger};
ghost use Rattle.derivation_branch.specs.Occurring.{holds};

use cop_base::NoMemory;
use indexmap::IndexSet;
use label_table::place_of;
use std::alloc::Global;
use std::marker::Model;

/// Numbers in the order in which they were first added.
#[derive(Drop)]
pub struct NumberSet {
    // The first ones, so long as they rise. They need no hash.
    rising: Vec<u32>,
    others: IndexSet<u32>,
}

impl Model for NumberSet {
    ghost use Rattle.std.specs.List.Sorted.{IsNonDecreasing};
    ghost use Rattle.std.specs.Prelude.{◌++◌, List, ℕ};

    ghost Value = { List ℕ };

    ghost view = { λ s. s.rising.items ++ s.others.keys };

    ghost invariant = { λ s. IsNonDecreasing s.rising.items };
}

// Whether the number is above the last one, and so above all.
fn is_above(items: &[u32], number: u32) -> bool
    ensures rises { result ≡ true → IsNonDecreasing items.now
        → IsNonDecreasing (items.now ++ number ∷ []) }
    ensures absent { result ≡ true → IsNonDecreasing items.now
        → holds items.now number ≡ false }
{
    match items.last() {
        Some(last) => *last < number,
        None => true,
    }
}

// How many of the numbers are smaller.
fn smaller(items: &[u32], number: u32) -> usize
    requires { IsNonDecreasing items.now }
    ensures { IsPartitionPoint (λ x. ltb x number ≡ true) (λ x. ltb x number ≡ false) items.now
        result }
{
    items.partition_point(|item| *item < number)
}

fn is_among(items: &[u32], number: u32) -> bool
    requires { IsNonDecreasing items.now }
    ensures { result ≡ holds items.now number }
{
    if is_above(items, number) {
        return false;
    }
    let place = smaller(items, number);
    if place >= items.len() {
        return false;
    }
    items[place] == number
}

impl NumberSet {
    /// The empty set.
    pub fn new(alloc: Global) -> NumberSet
        ensures { result ≡ [] }
    {
        NumberSet {
            rising: Vec::new(alloc),
            others: IndexSet::new(alloc),
        }
    }

    /// How many numbers there are.
    pub fn count(&self) -> Result<u32, NoMemory>
        ensures { IfOk result (λ n. n ≡ length self.now) }
    {
        place_of(self.rising.as_slice().len() + self.others.len())
    }

    /// Whether the number was added and not cut off.
    pub fn holds(&self, number: u32) -> bool
        ensures { result ≡ holds self.now number }
    {
        is_among(self.rising.as_slice(), number) || self.others.contains(&number)
    }

    /// Adds a number at the end, where it is new.
    pub fn add(&mut self, number: u32) -> Result<(), NoMemory>
        ensures held { OnOk result
            ((n : ℕ) → holds self.new n ≡ (holds self.old n || n == number)) }
        ensures kept { OnOk result (IsLonger self.old self.new) }
        ensures err { OnErr result (self.new ≡ self.old) }
    {
        if self.others.is_empty() && is_above(self.rising.as_slice(), number) {
            self.rising.push(number)?;
            return Ok(());
        }
        if is_among(self.rising.as_slice(), number) {
            return Ok(());
        }
        self.others.insert(number)?;
        Ok(())
    }

    /// Keeps the first numbers, so many.
    pub fn cut(&mut self, count: u32)
        ensures { self.new ≡ take count self.old }
    {
        let count = count as usize;
        let rising = self.rising.as_slice().len();
        self.others.truncate(count.saturating_sub(rising));
        self.rising.truncate(count);
    }
}
