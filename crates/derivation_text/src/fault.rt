//! Faults of texts.

ghost use Rattle.std.specs.Prelude.{◌≡◌};
ghost use Rattle.derivation_text.specs.declared.fault.ParseFault.TheVariants as answer;

use calculus::fault::TextCause;
use cop_base::NoMemory;

/// Why bytes are not read as a derivation: the number and the cause of the first wrong line, or want of memory.
#[derive(Clone, Copy, Debug, PartialEq, Eq)]
pub enum ParseFault {
    Text { line: u64, cause: TextCause },
    NoMemory,
}

impl From<NoMemory> for ParseFault {
    ghost from_gives = { λ _ r. r ≡ answer.NoMemory };

    fn from(_error: NoMemory) -> ParseFault {
        ParseFault::NoMemory
    }
}
