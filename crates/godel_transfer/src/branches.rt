//! The branches that are open, as a transfer keeps them.

ghost use Rattle.std.specs.Prelude.{◌≡◌, ◌<◌, ◌≤◌, ◌∷◌, ◌++◌, [], true, get_or, length, map};
ghost use Rattle.std.specs.Prelude.{IfOk, IfSome, OnOk};
ghost use Rattle.std.specs.Option.{option_map, option_map_or};
ghost use Rattle.calculus.specs.Calculus.{entry_of};
ghost use Rattle.calculus.specs.Derivations as derivation;
ghost use Rattle.formula_core.specs.FormulaView.{the_formula};
ghost use Rattle.godel_transfer.specs.BranchView.{IsKept, branches_of, the_branch, the_entry, waiting_in};
ghost use Rattle.godel_transfer.specs.Sketch.{first_sketch};
ghost use Rattle.godel_transfer.specs.Transfer.{place_of};

use crate::images::Images;
use cop_base::NoMemory;
use formula_core::{Formula, Sign};
use label_table::Labels;
use std::alloc::{AllocError, Global};

/// An entry of a branch: a signed part of the problem's formula, the place of its label in S4 in
/// the table of labels, and the number of the entry that stands for it in S4.
#[derive(Clone, Copy)]
pub struct Entry<'a> {
    pub sign: Sign,
    pub formula: &'a Formula,
    pub label: u32,
    pub place: u32,
}

/// A branch that waits: how long the branch and the lists of images were at the fork, and the entry
/// that it adds, which is its last one in S4.
#[derive(Clone, Copy)]
pub struct Fork<'a> {
    pub entries: usize,
    pub characters: usize,
    pub eigens: usize,
    pub second: Entry<'a>,
}

/// The open branches, the current one first. They share one branch: one that waits is its beginning
/// up to a fork, with one entry more.
#[derive(Drop)]
pub struct Branches<'a> {
    pub is_open: bool,
    pub entries: Vec<Entry<'a>>,
    /// How many entries the current branch has in S4.
    pub count: u32,
    pub characters: Images,
    pub eigens: Images,
    pub forks: Vec<Fork<'a>>,
    /// The labels of S4.
    pub labels: Labels,
}

impl<'a> Branches<'a> {
    /// The branch of the formula, to be shown at the root.
    pub fn new(alloc: Global, formula: &'a Formula) -> Result<Branches<'a>, NoMemory>
        ensures first { IfOk result (λ b. branches_of b ≡ first_sketch (the_formula formula.now) ∷ []) }
        ensures kept { IfOk result IsKept }
    {
        let labels = Labels::new(alloc);
        let mut entries = Vec::new(alloc);
        entries.push(Entry {
            sign: Sign::F,
            formula,
            label: labels.root(),
            place: 1,
        })?;
        Ok(Branches {
            is_open: true,
            entries,
            count: 1,
            characters: Images::new(alloc),
            eigens: Images::new(alloc),
            forks: Vec::new(alloc),
            labels,
        })
    }

    /// The entry of a number on the current branch.
    pub fn entry(&self, number: u32) -> Option<Entry<'a>>
        requires kept { IsKept self.now }
        ensures within { IfSome result (λ e. e.label < length self.now.labels) }
        ensures entry { option_map (the_entry self.now.labels) result
            ≡ entry_of (the_branch self.now).sequent number }
        ensures placed { option_map_or (λ e. e.place) result 0
            ≡ place_of (the_branch self.now).places number }
    {
        if number == 0 {
            return None;
        }
        let place = number as usize - 1;
        if place >= self.entries.len() {
            return None;
        }
        Some(self.entries[place])
    }

    /// The number of the entry that stands in S4 for the entry of a number, or 0.
    pub fn place(&self, number: u32) -> u32
        requires kept { IsKept self.now }
        ensures { result ≡ place_of (the_branch self.now).places number }
    {
        match self.entry(number) {
            Some(entry) => entry.place,
            None => 0,
        }
    }

    /// Closes the current branch, and goes on with the one that waited last.
    pub fn close(&mut self) -> Result<(), NoMemory>
        requires is_open { self.old.is_open ≡ true }
        requires kept { IsKept self.old }
        ensures closed { OnOk result (branches_of self.new ≡ waiting_in self.old) }
        ensures kept { OnOk result (IsKept self.new) }
    {
        match self.forks.pop() {
            Some(fork) => {
                self.entries.truncate(fork.entries);
                self.entries.push(fork.second)?;
                self.count = fork.second.place;
                self.characters.cut(fork.characters)?;
                self.eigens.cut(fork.eigens)?;
                Ok(())
            }
            None => {
                self.is_open = false;
                Ok(())
            }
        }
    }
}
