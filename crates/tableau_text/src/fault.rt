//! Faults of texts.

ghost use Rattle.std.specs.Prelude.{◌≡◌};
ghost use Rattle.tableau_text.specs.declared.fault.ReadFault.TheVariants as answer;

use calculus::fault::TableauFault;
use cop_base::NoMemory;
use std::alloc::AllocFailed;

/// Why bytes are not read as the text of a tableau: the number, counted from 1, and the fault of the first wrong line, or want of memory.
#[derive(Clone, Copy, Debug, PartialEq, Eq)]
pub enum ReadFault {
    Wrong { line: u64, fault: TableauFault },
    NoMemory,
}

impl From<NoMemory> for ReadFault {
    ghost from_gives = { λ _ r. r ≡ answer.NoMemory };

    fn from(_error: NoMemory) -> ReadFault {
        ReadFault::NoMemory
    }
}

impl<T: Drop> From<AllocFailed<T>> for ReadFault {
    ghost from_gives = { λ _ r. r ≡ answer.NoMemory };

    fn from(_error: AllocFailed<T>) -> ReadFault {
        ReadFault::NoMemory
    }
}
