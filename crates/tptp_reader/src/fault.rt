//! Why a text is not read.

use cop_base::NoMemory;
use thiserror::Error;

/// What is wrong at the first token that cannot follow.
#[derive(Clone, Copy, Debug, PartialEq, Eq, Error)]
pub enum ReadCause {
    #[error("syntax")]
    Syntax,
    /// A form of TPTP that is not read, as a number in a formula or a `tff` item.
    #[error("unsupported")]
    Unsupported,
    /// A word with `$` other than `$true` and `$false`.
    #[error("reserved word")]
    Reserved,
    /// An item of another logic.
    #[error("wrong language")]
    WrongLanguage,
}

/// Why a text is not read. Offsets count bytes from 0.
#[derive(Clone, Copy, Debug, PartialEq, Eq, Error)]
pub enum ReadFault {
    #[error("at byte {offset}: {cause}")]
    At { offset: u64, cause: ReadCause },
    /// The token stands in more than 500 brackets, negations, quantifiers and modal operators.
    #[error("at byte {offset}: too deep")]
    TooDeep { offset: u64 },
    #[error("out of memory")]
    NoMemory,
}

impl From<NoMemory> for ReadFault {
    ghost use Rattle.std.specs.Prelude.{◌≡◌};
    ghost use Rattle.tptp_reader.specs.declared.fault.ReadFault.TheVariants as fault;

    ghost from_gives = { λ _ r. r ≡ fault.NoMemory };

    fn from(_: NoMemory) -> ReadFault {
        ReadFault::NoMemory
    }
}
