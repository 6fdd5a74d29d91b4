ghost use Rattle.std.specs.Prelude.{◌≡◌, ◌+◌, ◌<◌, ◌≤◌, ◌↔◌, IsTrue, if◌then◌else◌, nat_lt};

/// How many steps may be taken, and how many were. Who spends a step takes it first.
#[derive(Drop)]
pub struct Ledger {
    pub budget: u64,
    pub used: u64,
    pub ghost in_budget: { used ≤ budget },
}

impl Ledger {
    /// A budget of which nothing is used.
    pub fn new(budget: u64) -> Ledger
        ensures budget { result.budget ≡ budget }
        ensures used { result.used ≡ 0 }
    {
        Ledger { budget, used: 0 }
    }

    /// Takes one step, if one is left.
    pub fn take(&mut self) -> bool
        ensures taken { IsTrue result ↔ self.old.used < self.old.budget }
        ensures used { self.new.used ≡ (if result then self.old.used + 1 else self.old.used) }
        ensures budget { self.new.budget ≡ self.old.budget }
    {
        if self.used == self.budget {
            return false;
        }
        self.used += 1;
        true
    }
}
