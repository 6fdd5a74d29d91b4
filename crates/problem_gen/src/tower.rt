//! Boxes before an atom, from one box before it.

ghost use Rattle.std.specs.Prelude.{◌≡◌, ◌++◌, OnOk};
ghost use Rattle.calculus.specs.Families.{tower_text};

use crate::item::{append_bytes, append_item, append_repeated};
use cop_base::NoMemory;

/// Appends the tower of this number of boxes. It is a text of QMLTP alone.
pub fn append_tower(out: &mut Vec<u8>, word: &[u8], boxes: u32) -> Result<(), NoMemory>
    ensures { OnOk result (out.new.items ≡ out.old.items ++ tower_text word.now boxes) }
{
    append_item(out, word, b"(c,conjecture,(#box:p => ")?;
    append_repeated(out, boxes, b"#box:")?;
    append_bytes(out, b"p)).\n")?;
    Ok(())
}
