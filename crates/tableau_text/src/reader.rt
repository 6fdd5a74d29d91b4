//! Reading texts.

ghost use Rattle.std.specs.Prelude.{◌≡◌, ◌+◌, ◌≤◌, ◌++◌, ◌∷◌, [], ℕ, List, length, true, false, Err, IfOk, IsTrue, codes};
ghost use Rattle.std.specs.List.{list_all};
ghost use Rattle.calculus.specs.Problems.{are_distinct, is_problem, symbol_fits};
ghost use Rattle.calculus.specs.Syntax as syntax;
ghost use Rattle.calculus.specs.FirstWrong.{IsFirstWrong};
ghost use Rattle.calculus.specs.TableauText.{IsMovesText, moves_texts, tableau_causes};
ghost use Rattle.calculus.specs.declared.fault.TableauFault.TheVariants as fault;
ghost use Rattle.formula_core.specs.GroundLists.{AreNormalValues, IsGrown};
ghost use Rattle.tableau_text.specs.MoveLines.{IsReadTo, fault_at};
ghost use Rattle.tableau_text.specs.MovesView.{the_moves};
ghost use Rattle.tableau_text.specs.Reading.{IsLineRead, NoLine, moves_by};
ghost use Rattle.tableau_text.specs.declared.fault.ReadFault.TheVariants as answer;
ghost use Rattle.text_lines.specs.Head.{IsHeadFault, IsHeadRead};

use crate::fault::ReadFault;
use crate::line_reader::{read_chosen, read_move};
use crate::moves::{Chosen, Move, Moves};
use calculus::fault::TableauFault;
use formula_core::{GroundTable, Symbols};
use formula_text::TextRead;
use logic_rules::Problem;
use std::alloc::Global;
use text_lines::{HeadFault, HeadLine, line_at, read_head, rest_after};

// What is told of a wrong line of the head.
fn head_fault(line: HeadLine) -> (u64, TableauFault)
    ensures { (P : syntax.Problem) (bytes : List ℕ) → IsTrue (is_problem P) → IsHeadFault (codes "leancop tableau 1") P bytes line
        → IsFirstWrong (moves_texts P) tableau_causes bytes result.0 result.1 }
{
    match line {
        HeadLine::First => (1, TableauFault::Version),
        HeadLine::Setting => (2, TableauFault::Setting),
        HeadLine::Formula => (3, TableauFault::Formula),
        HeadLine::Limit => (4, TableauFault::Limit),
    }
}

// The limit and the place after the head.
fn read_limit(alloc: Global, problem: &Problem, bytes: &[u8]) -> Result<(u8, usize), ReadFault>
    ensures ok { IfOk result (λ r. IsHeadRead (codes "leancop tableau 1") problem.now bytes.now r.1 r.0) }
    ensures fault { (line : ℕ) (cause : TableauFault) → result ≡ Err (ReadFault.Wrong line cause)
        → IsFirstWrong (moves_texts problem.now) tableau_causes bytes.now line cause }
    ensures well { IsTrue (is_problem problem.now) }
{
    match read_head(alloc, problem, b"leancop tableau 1", bytes) {
        Ok((limit, end)) => Ok((limit, end)),
        Err(HeadFault::Wrong(wrong)) => {
            let (line, fault) = head_fault(wrong);
            Err(ReadFault::Wrong { line, fault })
        }
        Err(HeadFault::NoMemory) => Err(ReadFault::NoMemory),
    }
}

// A line behind the head that is in no form, or want of memory.
fn fault_of(line: u64, read: TextRead) -> ReadFault
    ensures { (n : ℕ) (cause : TableauFault) → result ≡ answer.Wrong n cause
        → (read ≡ TextRead.None) × (n ≡ line) × (cause ≡ fault.Line) }
{
    match read {
        TextRead::None => ReadFault::Wrong {
            line,
            fault: TableauFault::Line,
        },
        TextRead::NoMemory => ReadFault::NoMemory,
    }
}

// The instance of the fifth line, which stands at a place, and the place after the line.
fn read_start(
    alloc: Global,
    problem: &Problem,
    table: &mut GroundTable,
    bytes: &[u8],
    limit: u8,
    from: usize,
) -> Result<(Chosen, usize), TextRead>
    requires well { IsTrue (is_problem problem.now) }
    requires head { IsHeadRead (codes "leancop tableau 1") problem.now bytes.now from limit }
    ensures ok { IfOk result (λ r. IsReadTo problem.now bytes.now r.1 (moves_by limit table.new r.0 []) false) }
    ensures normal { IfOk result (λ r. AreNormalValues table.new r.0.values) }
    ensures none { result ≡ Err TextRead.None → IsFirstWrong (moves_texts problem.now) tableau_causes bytes.now 5 fault.Line }
{
    let symbols = problem.symbols();
    let Some((line, to)) = line_at(bytes, from) else {
        return Err(TextRead::None);
    };
    let Some(rest) = rest_after(line, b"start ") else {
        return Err(TextRead::None);
    };
    let start = read_chosen(alloc, symbols, table, rest)?;
    Ok((start, to))
}

// Reads a line behind the fifth, and tells whether it is the last.
fn read_line(
    alloc: Global,
    symbols: &Symbols,
    table: &mut GroundTable,
    moves: &mut Vec<Move>,
    line: &[u8],
) -> Result<bool, TextRead>
    requires distinct { IsTrue (are_distinct symbols.now) }
    requires fits { IsTrue (list_all symbol_fits symbols.now) }
    ensures ok { IfOk result (λ done. IsLineRead symbols.now table.new moves.old.items moves.new.items line.now done) }
    ensures grown { IfOk result (λ _. IsGrown table.old table.new) }
    ensures none { result ≡ Err TextRead.None → NoLine symbols.now line.now }
{
    let _called_for_its_bound = table.len();
    if line == b"end".as_slice() {
        return Ok(true);
    }
    let found = read_move(alloc, symbols, table, line)?;
    moves.push(found)?;
    Ok(false)
}

// The fault where the next line is the first wrong one.
fn fault_behind(ended: bool) -> TableauFault
    ensures { result ≡ fault_at ended }
{
    if ended {
        TableauFault::TextAfterEnd
    } else {
        TableauFault::Line
    }
}

fn has_ended(ended: bool, place: usize, length: usize) -> bool
    ensures yes { IsTrue result → (ended ≡ true) × (place ≡ length) }
    ensures no { result ≡ false → ended ≡ true → ¬ (place ≡ length) }
{
    ended && place == length
}

// The moves of the lines from a place on, the sixth line being there, as far as the end of the text.
fn read_moves(
    alloc: Global,
    problem: &Problem,
    table: &mut GroundTable,
    bytes: &[u8],
    limit: u8,
    start: &Chosen,
    from: usize,
) -> Result<Vec<Move>, ReadFault>
    requires well { IsTrue (is_problem problem.now) }
    requires begun { IsReadTo problem.now bytes.now from (moves_by limit table.old start.now []) false }
    requires normal { AreNormalValues table.old start.now.values }
    ensures text { IfOk result (λ ms. IsMovesText problem.now (moves_by limit table.new start.now ms.items) bytes.now) }
    ensures fault { (line : ℕ) (cause : TableauFault) → result ≡ Err (ReadFault.Wrong line cause)
        → IsFirstWrong (moves_texts problem.now) tableau_causes bytes.now line cause }
{
    let symbols = problem.symbols();
    let length = bytes.len();
    let mut moves = Vec::new(alloc);
    let mut ended = false;
    let mut place = from;
    let mut count = 5;
    while let Some((line, next)) = line_at(bytes, place) {
        if ended {
            return Err(ReadFault::Wrong {
                line: count + 1,
                fault: TableauFault::TextAfterEnd,
            });
        }
        match read_line(alloc, symbols, table, &mut moves, line) {
            Ok(done) => ended = done,
            Err(read) => return Err(fault_of(count + 1, read)),
        }
        place = next;
        count += 1;
    }
    if has_ended(ended, place, length) {
        Ok(moves)
    } else {
        Err(ReadFault::Wrong {
            line: count + 1,
            fault: fault_behind(ended),
        })
    }
}

/// What the text of a tableau of the problem states, or else the number and the fault of the first wrong line.
pub fn read(alloc: Global, problem: &Problem, bytes: &[u8]) -> Result<Moves, ReadFault>
    ensures text { IfOk result (λ x. IsMovesText problem.now (the_moves x) bytes.now) }
    ensures fault { (line : ℕ) (cause : TableauFault) → result ≡ Err (ReadFault.Wrong line cause)
        → IsFirstWrong (moves_texts problem.now) tableau_causes bytes.now line cause }
    ensures well { IsTrue (is_problem problem.now) }
{
    let (limit, from) = read_limit(alloc, problem, bytes)?;
    let mut table = GroundTable::new(alloc);
    let (start, next) = match read_start(alloc, problem, &mut table, bytes, limit, from) {
        Ok(found) => found,
        Err(read) => return Err(fault_of(5, read)),
    };
    let moves = read_moves(alloc, problem, &mut table, bytes, limit, &start, next)?;
    Ok(Moves {
        limit,
        table,
        start,
        moves,
    })
}
