//! Labels.

ghost use Rattle.std.specs.Prelude.{◌≡◌, ◌++◌, ◌∷◌, [], true, IsTrue, OnOk, OnErr};
ghost use Rattle.calculus.specs.DerivationText.{label_is_written};
ghost use Rattle.calculus.specs.Text.{label_text, mark_text};
ghost use Rattle.formula_text.specs.Extends.{Extends};
ghost use Rattle.formula_text.specs.Rests.{marks_text};
ghost use Rattle.formula_text.specs.Single.{LabelTextsDiffer};
ghost use Rattle.logic_rules.specs.MarkView.{the_character};

use crate::append::{append_byte, append_bytes, append_number, undo_if_failed};
use cop_base::NoMemory;
use logic_rules::{Label, Mark};

fn append_mark(out: &mut Vec<u8>, mark: Mark) -> Result<(), NoMemory>
    ensures ok { OnOk result (out.new.items ≡ out.old.items ++ mark_text (the_character mark)) }
    ensures extends { Extends out.old.items out.new.items }
{
    match mark {
        Mark::New(n) => {
            append_bytes(out, b"$$c")?;
            append_number(out, u64::from(n))
        }
        Mark::Spare(n) => {
            append_bytes(out, b"$$d")?;
            append_number(out, u64::from(n))
        }
    }
}

// A comma stands before each character but the first.
fn append_next_mark(out: &mut Vec<u8>, first: bool, mark: Mark) -> Result<(), NoMemory>
    ensures ok { OnOk result (out.new.items ≡ out.old.items ++ marks_text (the_character mark ∷ []) first) }
    ensures extends { Extends out.old.items out.new.items }
{
    if first {
        return append_mark(out, mark);
    }
    append_byte(out, b',')?;
    append_mark(out, mark)
}

// The characters with commas between them.
#[tactic(auto, using(crate::proofs::Extending::extending, crate::proofs::Rests::joining))]
fn append_marks(out: &mut Vec<u8>, label: &Label) -> Result<(), NoMemory>
    ensures ok { OnOk result (out.new.items ≡ out.old.items ++ marks_text label.now true) }
    ensures extends { Extends out.old.items out.new.items }
{
    let mut first = true;
    for mark in label.items() {
        append_next_mark(out, first, *mark)?;
        first = false;
    }
    Ok(())
}

#[tactic(auto, using(crate::proofs::Extending::extending, crate::proofs::Rests::joining))]
fn append_label(out: &mut Vec<u8>, label: &Label) -> Result<(), NoMemory>
    ensures ok { OnOk result (out.new.items ≡ out.old.items ++ label_text label.now) }
    ensures extends { Extends out.old.items out.new.items }
{
    append_byte(out, b'[')?;
    append_marks(out, label)?;
    append_byte(out, b']')?;
    Ok(())
}

/// Appends `[`, the characters with commas between them, and `]`. The root is `[]`.
pub fn write_label(out: &mut Vec<u8>, label: &Label) -> Result<(), NoMemory>
    requires { IsTrue (label_is_written label.now) }
    ensures ok { OnOk result (out.new.items ≡ out.old.items ++ label_text label.now) }
    ensures err { OnErr result (out.new.items ≡ out.old.items) }
    ensures apart { LabelTextsDiffer }
{
    let kept = out.len();
    let appended = append_label(out, label);
    undo_if_failed(out, kept, appended)
}
