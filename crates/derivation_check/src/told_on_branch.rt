//! Labels whose marks a set of marks has.

ghost use Rattle.std.specs.Prelude.{◌≡◌, ◌++◌, ◌∷◌, [], false, take, OnOk};
ghost use Rattle.label_table.specs.Longer.{IsLonger};
ghost use Rattle.derivation_check.specs.ToldView.{AreCounted, is_told};

use cop_base::NoMemory;
use indexmap::IndexMap;
use std::alloc::Global;
use std::marker::Model;

/// Places of labels, of steps and of homes, each with how many of the first marks of a set have all
/// marks of the label. They are cut back with the set, so a label is gone through once on a branch.
#[derive(Drop)]
pub struct ToldOnBranch {
    labels: IndexMap<u32, u32>,
}

impl Model for ToldOnBranch {
    ghost use Rattle.std.specs.Prelude.{List, ℕ};
    ghost use Rattle.derivation_check.specs.ToldView.{AreRising};

    ghost Value = { List (ℕ × ℕ) };

    ghost view = { λ s. s.labels.entries };

    ghost invariant = { λ s. AreRising 0 s.labels.entries };
}

impl ToldOnBranch {
    /// No labels.
    pub fn new(alloc: Global) -> ToldOnBranch
        ensures { result ≡ [] }
    {
        ToldOnBranch {
            labels: IndexMap::new(alloc),
        }
    }

    /// Whether the label at a place is among them.
    pub fn has(&self, place: u32) -> bool
        ensures { result ≡ is_told place self.now }
    {
        self.labels.contains_key(&place)
    }

    /// Adds a label that is not among them, at the end.
    pub fn add(&mut self, place: u32, count: u32) -> Result<(), NoMemory>
        requires new { is_told place self.old ≡ false }
        requires counted { AreCounted count self.old }
        ensures { OnOk result (self.new ≡ self.old ++ (place, count) ∷ []) }
    {
        self.labels.insert(place, count)?;
        Ok(())
    }

    // How many need no more marks.
    fn kept(&self, count: u32) -> usize
        ensures { AreCounted count (take result self.now) }
    {
        let mut left = self.labels.len();
        while left > 0 {
            if self.labels[left - 1] <= count {
                return left;
            }
            left -= 1;
        }
        0
    }

    /// Keeps those that need no more marks.
    pub fn cut(&mut self, count: u32)
        ensures begins { IsLonger self.new self.old }
        ensures counted { AreCounted count self.new }
    {
        let kept = self.kept(count);
        self.labels.truncate(kept);
    }
}
