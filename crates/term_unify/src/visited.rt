//! What was looked at already, once there is much to look at.

ghost use Rattle.std.specs.Prelude.{◌≡◌, ◌⊎◌, ℕ, IfOk, false, true};
ghost use Rattle.term_unify.specs.Visits.{was_seen};

use cop_base::NoMemory;
use std::alloc::Global;
use std::collections::HashSet;

// How many visits are not noted: terms are small for the most part, and looking at them again costs less than a note.
const FREE_VISITS: u32 = 200;

// The pairs of cells that were visited, but for the first visits.
#[derive(Drop)]
pub(crate) struct Visited {
    pairs: HashSet<(u32, u32)>,
    visits: u32,
}

impl Visited {
    pub(crate) fn new(alloc: Global) -> Visited {
        Visited {
            pairs: HashSet::new(alloc),
            visits: 0,
        }
    }

    // Forgets all visits. Emptying a set goes over the room that it keeps, so an empty one is left.
    pub(crate) fn clear(&mut self)
        ensures { (x : ℕ) (y : ℕ) → was_seen self.new.pairs.keys x y ≡ false }
    {
        self.visits = 0;
        if !self.pairs.is_empty() {
            self.pairs.clear();
        }
    }

    // Whether the pair is to be visited: it is not known that it was.
    pub(crate) fn visit(&mut self, a: u32, b: u32) -> Result<bool, NoMemory>
        ensures again { IfOk result (λ first. first ≡ false → was_seen self.old.pairs.keys a b ≡ true) }
        ensures noted { (x : ℕ) (y : ℕ) → was_seen self.new.pairs.keys x y ≡ true → (was_seen self.old.pairs.keys x y ≡ true) ⊎ ((x ≡ a) × (y ≡ b)) }
    {
        if self.visits < FREE_VISITS {
            self.visits += 1;
            return Ok(true);
        }
        let first = self.pairs.insert((a, b))?;
        Ok(first)
    }
}
