//! Why no problem comes of the files.

use cop_base::{NoMemory, Text};
use std::alloc::{AllocError, AllocFailed};

/// What is wrong in a file.
#[derive(Clone, Copy, Debug, PartialEq, Eq)]
pub enum Cause {
    Syntax,
    Unsupported,
    Reserved,
    WrongLanguage,
    SecondConjecture,
    UnknownRole,
    IncludeTooDeep,
    IncludeNameAbsent,
    NoFormula,
}

/// Why no problem comes of the files. A file's name is the one by which it was fetched; offsets count bytes from 0.
#[derive(Drop)]
pub enum BuildFault {
    Missing {
        name: Text,
    },
    Failed {
        name: Text,
    },
    InputTooLarge,
    NestingTooDeep,
    FormulaTooLarge,
    TooManySymbols,
    Bad {
        file: Text,
        offset: u64,
        cause: Cause,
    },
    NoMemory,
}

impl From<NoMemory> for BuildFault {
    ghost use Rattle.std.specs.Prelude.{◌≡◌};
    ghost use Rattle.problem_build.specs.declared.fault.BuildFault.TheVariants as fault;

    ghost from_gives = { λ _ r. r ≡ fault.NoMemory };

    fn from(_error: NoMemory) -> BuildFault {
        BuildFault::NoMemory
    }
}

impl From<AllocError> for BuildFault {
    ghost use Rattle.std.specs.Prelude.{◌≡◌};
    ghost use Rattle.problem_build.specs.declared.fault.BuildFault.TheVariants as fault;

    ghost from_gives = { λ _ r. r ≡ fault.NoMemory };

    fn from(_error: AllocError) -> BuildFault {
        BuildFault::NoMemory
    }
}

impl<T: Drop> From<AllocFailed<T>> for BuildFault {
    ghost use Rattle.std.specs.Prelude.{◌≡◌};
    ghost use Rattle.problem_build.specs.declared.fault.BuildFault.TheVariants as fault;

    ghost from_gives = { λ _ r. r ≡ fault.NoMemory };

    fn from(_error: AllocFailed<T>) -> BuildFault {
        BuildFault::NoMemory
    }
}
