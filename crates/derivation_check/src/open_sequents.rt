//! The sequents that are open, on one branch.

ghost use Rattle.std.specs.Prelude.{◌≡◌, ◌∷◌, ◌++◌, [], true, IfOk, OnOk};
ghost use Rattle.derivation_check.specs.OpenSequents.{IsLastOf, IsNested, after_added};
ghost use Rattle.derivation_check.specs.OpenSequents.{placed, sequents_of, waiting_in};

use cop_base::NoMemory;
use derivation_branch::{Added, SharedEntry};
use std::alloc::{AllocError, AllocFailed, Global};

/// An entry of a branch, with how many eigenvariables and marks had occurred when it came.
#[derive(Clone, Copy)]
pub struct BranchEntry<'a> {
    pub shared: SharedEntry<'a>,
    pub eigens: u32,
    pub marks: u32,
}

fn placed<'a>(shared: SharedEntry<'a>, eigens: u32, marks: u32) -> BranchEntry<'a>
    ensures { result ≡ placed eigens marks shared.entry }
{
    BranchEntry {
        shared,
        eigens,
        marks,
    }
}

/// The open sequents, the current one first. They share one branch: a sequent that waits is the
/// beginning of the branch up to a fork, with one entry more.
#[derive(Drop)]
pub struct OpenSequents<'a> {
    pub is_open: bool,
    pub branch: Vec<BranchEntry<'a>>,
    pub forks: Vec<(usize, BranchEntry<'a>)>,
}

impl<'a> OpenSequents<'a> {
    /// One open sequent.
    pub fn new(alloc: Global, first: BranchEntry<'a>) -> Result<OpenSequents<'a>, NoMemory>
        ensures sequents { IfOk result (λ b. sequents_of b ≡ (first.entry ∷ []) ∷ []) }
        ensures nested { IfOk result (λ b. IsNested b) }
    {
        let mut branch = Vec::new(alloc);
        branch.push(first)?;
        Ok(OpenSequents {
            is_open: true,
            branch,
            forks: Vec::new(alloc),
        })
    }

    /// Closes the current sequent, and goes on with the one that waited last, whose last entry is
    /// the answer.
    pub fn close(&mut self) -> Result<Option<BranchEntry<'a>>, NoMemory>
        requires is_open { self.old.is_open ≡ true }
        requires nested { IsNested self.old }
        ensures closed { OnOk result (sequents_of self.new ≡ waiting_in self.old) }
        ensures last { IfOk result (λ last. IsLastOf (waiting_in self.old) last) }
        ensures nested { OnOk result (IsNested self.new) }
    {
        match self.forks.pop() {
            Some((length, second)) => {
                self.branch.truncate(length);
                self.branch.push(second)?;
                Ok(Some(second))
            }
            None => {
                self.is_open = false;
                Ok(None)
            }
        }
    }

    // Adds an entry to the current sequent.
    fn add(&mut self, item: BranchEntry<'a>) -> Result<(), NoMemory>
        requires is_open { self.old.is_open ≡ true }
        requires nested { IsNested self.old }
        ensures added { OnOk result (sequents_of self.new
            ≡ (self.old.branch.items ++ item.entry ∷ []) ∷ waiting_in self.old) }
        ensures nested { OnOk result (IsNested self.new) }
    {
        self.branch.push(item)?;
        Ok(())
    }

    // Adds two entries to the current sequent.
    fn add_both(&mut self, a: BranchEntry<'a>, b: BranchEntry<'a>) -> Result<(), NoMemory>
        requires is_open { self.old.is_open ≡ true }
        requires nested { IsNested self.old }
        ensures added { OnOk result (sequents_of self.new
            ≡ (self.old.branch.items ++ a.entry ∷ b.entry ∷ []) ∷ waiting_in self.old) }
        ensures nested { OnOk result (IsNested self.new) }
    {
        self.branch.push(a)?;
        self.branch.push(b)?;
        Ok(())
    }

    // Splits the current sequent into two, each with one of the entries more.
    fn fork(&mut self, first: BranchEntry<'a>, second: BranchEntry<'a>) -> Result<(), NoMemory>
        requires is_open { self.old.is_open ≡ true }
        requires nested { IsNested self.old }
        ensures forked { OnOk result (sequents_of self.new
            ≡ (self.old.branch.items ++ first.entry ∷ [])
            ∷ (self.old.branch.items ++ second.entry ∷ []) ∷ waiting_in self.old) }
        ensures nested { OnOk result (IsNested self.new) }
    {
        self.forks.push((self.branch.len(), second))?;
        self.branch.push(first)?;
        Ok(())
    }

    /// Replaces the current sequent by those that a use step leads to, where so many eigenvariables
    /// and marks occur.
    pub fn advance(&mut self, added: Added<'a>, eigens: u32, marks: u32) -> Result<(), NoMemory>
        requires is_open { self.old.is_open ≡ true }
        requires nested { IsNested self.old }
        ensures advanced { OnOk result (sequents_of self.new
            ≡ after_added eigens marks added.entry self.old.branch.items (waiting_in self.old)) }
        ensures nested { OnOk result (IsNested self.new) }
    {
        match added {
            Added::One(a) => self.add(placed(a, eigens, marks)),
            Added::Both(a, b) => self.add_both(placed(a, eigens, marks), placed(b, eigens, marks)),
            Added::Fork(a, b) => self.fork(placed(a, eigens, marks), placed(b, eigens, marks)),
        }
    }
}
