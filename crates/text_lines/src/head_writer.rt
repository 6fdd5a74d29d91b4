//! Writing the head.

ghost use Rattle.std.specs.Prelude.{◌≡◌, ◌++◌, OnErr, OnOk};
ghost use Rattle.std.specs.List.{flat_map};
ghost use Rattle.calculus.specs.FirstWrong.{line_bytes};
ghost use Rattle.formula_text.specs.Extends.{Extends};
ghost use Rattle.text_lines.specs.Head.{head_of};

use cop_base::NoMemory;
use formula_text::{write_bytes, write_formula, write_number, write_setting};
use logic_rules::Problem;

// Where memory ends a part of it may be left.
#[tactic(auto, using(formula_text::proofs::Extending::extending))]
fn append_head(
    out: &mut Vec<u8>,
    problem: &Problem,
    first: &[u8],
    limit: u8,
) -> Result<(), NoMemory>
    ensures ok { OnOk result (out.new.items
        ≡ out.old.items ++ flat_map line_bytes (head_of first.now problem.now limit)) }
    ensures extends { Extends out.old.items out.new.items }
{
    write_bytes(out, first)?;
    write_bytes(out, b"\nlogic ")?;
    write_setting(out, problem.setting())?;
    write_bytes(out, b"\nformula ")?;
    write_formula(out, problem.symbols(), problem.formula())?;
    write_bytes(out, b"\nlimit ")?;
    write_number(out, u64::from(limit))?;
    write_bytes(out, b"\n")?;
    Ok(())
}

/// Appends a head with this first line. Want of memory leaves `out` as it was.
#[tactic(auto, using(formula_text::proofs::Extending::extending))]
pub fn write_head(
    out: &mut Vec<u8>,
    problem: &Problem,
    first: &[u8],
    limit: u8,
) -> Result<(), NoMemory>
    ensures ok { OnOk result (out.new.items
        ≡ out.old.items ++ flat_map line_bytes (head_of first.now problem.now limit)) }
    ensures err { OnErr result (out.new.items ≡ out.old.items) }
{
    let kept = out.len();
    let appended = append_head(out, problem, first, limit);
    if appended.is_err() {
        out.truncate(kept);
    }
    appended
}
