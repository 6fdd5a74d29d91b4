//! A fact of one term, moved from each term to the next one by a function.

ghost use Rattle.std.specs.Prelude.{◌≡◌, ◌++◌, codes, OnOk};
ghost use Rattle.calculus.specs.Families.{item_line, shift_text, shifted};

use crate::item::{append_bytes, append_item, append_repeated};
use cop_base::NoMemory;

// The fact of the term with so many applications of the function is to be proved.
fn append_goal(out: &mut Vec<u8>, word: &[u8], applications: u32) -> Result<(), NoMemory>
    ensures { OnOk result (out.new.items ≡ out.old.items
        ++ item_line word.now (codes "c") (codes "conjecture")
        (codes "p(" ++ shifted applications ++ codes ")")) }
{
    append_item(out, word, b"(c,conjecture,p(")?;
    append_repeated(out, applications, b"f(")?;
    append_bytes(out, b"a")?;
    append_repeated(out, applications, b")")?;
    append_bytes(out, b")).\n")?;
    Ok(())
}

/// Appends the shift by this number of applications.
pub fn append_shift(out: &mut Vec<u8>, word: &[u8], applications: u32) -> Result<(), NoMemory>
    ensures { OnOk result (out.new.items ≡ out.old.items ++ shift_text word.now applications) }
{
    append_item(out, word, b"(s,axiom,p(a)).\n")?;
    append_item(out, word, b"(n,axiom,![X]:(p(X) => p(f(X)))).\n")?;
    append_goal(out, word, applications)?;
    Ok(())
}
