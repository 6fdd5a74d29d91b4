//! Why a step cannot be applied.

ghost use Rattle.std.specs.Prelude.{◌≡◌};

use calculus::fault::StepFault;
use cop_base::NoMemory;

/// Why a step leads to no children: the first demand of the rules that it does not meet, or want of
/// memory.
#[derive(Clone, Copy, Debug, PartialEq, Eq)]
pub enum ApplyFault {
    Fault(StepFault),
    NoMemory,
}

impl From<NoMemory> for ApplyFault {
    ghost use Rattle.std.specs.Prelude.{◌≡◌};
    ghost use Rattle.sequent_calc.specs.declared.apply_fault.ApplyFault.TheVariants as fault;

    ghost from_gives = { λ _ r. r ≡ fault.NoMemory };

    fn from(_error: NoMemory) -> ApplyFault {
        ApplyFault::NoMemory
    }
}
