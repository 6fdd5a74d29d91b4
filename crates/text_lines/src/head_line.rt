//! The lines of a head, and why a text has none.

ghost use Rattle.std.specs.Prelude.{◌≡◌};
ghost use Rattle.text_lines.specs.declared.head_line.HeadFault.TheVariants as answer;

use cop_base::NoMemory;

/// The lines of a head in their order.
#[derive(Clone, Copy, Debug, PartialEq, Eq)]
pub enum HeadLine {
    First,
    Setting,
    Formula,
    Limit,
}

/// Why no head is read: the first line that is wrong, or want of memory.
#[derive(Clone, Copy, Debug, PartialEq, Eq)]
pub enum HeadFault {
    Wrong(HeadLine),
    NoMemory,
}

impl From<NoMemory> for HeadFault {
    ghost from_gives = { λ _ r. r ≡ answer.NoMemory };

    fn from(_error: NoMemory) -> HeadFault {
        HeadFault::NoMemory
    }
}
