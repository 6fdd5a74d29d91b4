//! What a reader answers where it gives no value.

ghost use Rattle.std.specs.Prelude.{◌≡◌};
ghost use Rattle.formula_text.specs.declared.read.TextRead.TheVariants as answer;

use cop_base::NoMemory;
use std::alloc::AllocFailed;

/// Why a reader gives no value: none stands there, or there is no memory left.
#[derive(Clone, Copy, Debug, PartialEq, Eq)]
pub enum TextRead {
    None,
    NoMemory,
}

impl From<NoMemory> for TextRead {
    ghost from_gives = { λ _ r. r ≡ answer.NoMemory };

    fn from(_error: NoMemory) -> TextRead {
        TextRead::NoMemory
    }
}

impl<T: Drop> From<AllocFailed<T>> for TextRead {
    ghost from_gives = { λ _ r. r ≡ answer.NoMemory };

    fn from(_error: AllocFailed<T>) -> TextRead {
        TextRead::NoMemory
    }
}
