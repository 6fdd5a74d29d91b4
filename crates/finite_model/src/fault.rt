//! Faults of structures.

ghost use Rattle.std.specs.Prelude.{◌≡◌};
ghost use Rattle.finite_model.specs.declared.fault.StructureRead.TheVariants as answer;

use calculus::fault::StructureCause;
use cop_base::NoMemory;
use std::alloc::{AllocError, AllocFailed};

/// Why bytes are no structure of the problem's setting: the number and the cause of the line at which they are rejected, or want of memory.
#[derive(Clone, Copy, Debug, PartialEq, Eq)]
pub enum StructureRead {
    Bad { line: u64, cause: StructureCause },
    NoMemory,
}

impl From<NoMemory> for StructureRead {
    ghost from_gives = { λ _ r. r ≡ answer.NoMemory };

    fn from(_error: NoMemory) -> StructureRead {
        StructureRead::NoMemory
    }
}

impl From<AllocError> for StructureRead {
    ghost from_gives = { λ _ r. r ≡ answer.NoMemory };

    fn from(_error: AllocError) -> StructureRead {
        StructureRead::NoMemory
    }
}

impl<T: Drop> From<AllocFailed<T>> for StructureRead {
    ghost from_gives = { λ _ r. r ≡ answer.NoMemory };

    fn from(_error: AllocFailed<T>) -> StructureRead {
        StructureRead::NoMemory
    }
}
