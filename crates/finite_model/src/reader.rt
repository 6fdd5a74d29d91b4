//! Reading structures.

ghost use Rattle.std.specs.Prelude.{◌≡◌, ◌≤◌, ◌+◌, Err, IfOk, IsTrue, OnOk, length, ℕ};
ghost use Rattle.std.specs.List.{list_all};
ghost use Rattle.calculus.specs.Problems.{symbol_fits};
ghost use Rattle.calculus.specs.StructureText.{IsStructureJudgement, IsStructureText, StructureVerdict, bad_structure, truth_verdict};
ghost use Rattle.calculus.specs.Structures.{is_structure, is_true};
ghost use Rattle.calculus.specs.declared.fault.StructureCause.{StructureCause};
ghost use Rattle.finite_model.specs.Reading.{AreEntriesRead, IsFaultOf, IsHeadRead};
ghost use Rattle.finite_model.specs.Slots.{lines_of};
ghost use Rattle.finite_model.specs.StructureView.{the_lists};
ghost use Rattle.text_lines.specs.Lines.{AreRead};

use crate::conditions::check_conditions;
use crate::entries::read_entries;
use crate::fault::StructureRead;
use crate::head::{Head, read_head};
use crate::making::structure_of;
use crate::structure::Structure;
use calculus::fault::StructureCause;
use logic_rules::Problem;
use std::alloc::{AllocFailed, Global};
use text_lines::after_line;

// The line `end`, behind which nothing may stand.
fn read_end(
    problem: &Problem,
    bytes: &[u8],
    head: &Head,
    entries: &[Vec<u8>],
    from: usize,
) -> Result<(), StructureRead>
    requires names { IsTrue (list_all symbol_fits problem.now.symbols) }
    requires head { IsHeadRead problem.now bytes.now head.now }
    requires read { AreEntriesRead problem.now bytes.now head.now.worlds head.now.elements (the_lists entries.now) from }
    ensures ok { OnOk result (AreRead bytes.now (lines_of problem.now head.now.worlds head.now.elements (the_lists entries.now)) (length bytes.now)) }
    ensures fault { (line : ℕ) (why : StructureCause) → result ≡ Err (StructureRead.Bad line why)
        → IsFaultOf problem.now bytes.now line why }
{
    let number = entries.len() as u64 + 5;
    let Some(end) = after_line(bytes, from, b"end") else {
        return Err(StructureRead::Bad {
            line: number,
            cause: StructureCause::Line,
        });
    };
    if end == bytes.len() {
        Ok(())
    } else {
        Err(StructureRead::Bad {
            line: number + 1,
            cause: StructureCause::TextAfterEnd,
        })
    }
}

// The structure that the bytes state, which need not be one of the problem's setting.
fn read_text(alloc: Global, problem: &Problem, bytes: &[u8]) -> Result<Structure, StructureRead>
    ensures text { IfOk result (λ s. IsStructureText problem.now s bytes.now) }
    ensures fault { (line : ℕ) (why : StructureCause) → result ≡ Err (StructureRead.Bad line why)
        → IsFaultOf problem.now bytes.now line why }
{
    let symbols = problem.symbols();
    let head = read_head(alloc, problem, bytes)?;
    let entries = read_entries(alloc, problem, bytes, &head)?;
    read_end(
        problem,
        bytes,
        &head,
        entries.lists.as_slice(),
        entries.place,
    )?;
    let structure = structure_of(alloc, symbols, &head, entries.lists)?;
    Ok(structure)
}

/// The structure of the problem's setting whose text the bytes are, or else the line at which they are rejected: the first wrong one, or
/// else the first one that breaks a condition, the conditions being judged in their order. The bytes are gone through once; each
/// condition is looked at once for each world, and a table once for each domain and each pair of related worlds.
pub fn read_structure(
    alloc: Global,
    problem: &Problem,
    bytes: &[u8],
) -> Result<Structure, StructureRead>
    ensures text { IfOk result (λ s. IsStructureText problem.now s bytes.now) }
    ensures fits { IfOk result (λ s. IsTrue (is_structure problem.now s)) }
    ensures judged { IfOk result (λ s. IsStructureJudgement problem.now bytes.now (truth_verdict (is_true problem.now s))) }
    ensures bad { (line : ℕ) (why : StructureCause) → result ≡ Err (StructureRead.Bad line why)
        → IsStructureJudgement problem.now bytes.now (bad_structure line why) }

    // Bytes have at most one judgement as a structure of the problem.
    ensures one { (v w : StructureVerdict) → IsStructureJudgement problem.now bytes.now v
        → IsStructureJudgement problem.now bytes.now w → v ≡ w }
{
    let structure = read_text(alloc, problem, bytes)?;
    check_conditions(alloc, problem, &structure)?;
    Ok(structure)
}
