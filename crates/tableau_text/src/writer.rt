//! Writing texts.

ghost use Rattle.std.specs.Prelude.{◌≡◌, ◌++◌, map, IsTrue, IfOk, OnOk};
ghost use Rattle.std.specs.List.{flat_map, list_all};
ghost use Rattle.calculus.specs.FirstWrong.{line_bytes};
ghost use Rattle.calculus.specs.TableauText.{IsMovesText, are_written, move_is_written, move_line};
ghost use Rattle.tableau_text.specs.MovesView.{the_move, the_moves};

use crate::line_writer::{write_chosen, write_move};
use crate::moves::{Move, Moves};
use cop_base::NoMemory;
use formula_core::{GroundTable, Symbols};
use formula_text::write_bytes;
use logic_rules::Problem;
use std::alloc::Global;
use text_lines::write_head;

// The lines of the moves.
fn write_moves(
    alloc: Global,
    out: &mut Vec<u8>,
    symbols: &Symbols,
    table: &GroundTable,
    moves: &[Move],
) -> Result<(), NoMemory>
    requires { IsTrue (list_all (move_is_written symbols.now) (map (the_move table.now) moves.now)) }
    ensures { OnOk result (out.new.items ≡ out.old.items ++ flat_map line_bytes (map (move_line symbols.now) (map (the_move table.now) moves.now))) }
{
    for step in moves {
        write_move(alloc, out, symbols, table, step)?;
        write_bytes(out, b"\n")?;
    }
    Ok(())
}

/// The text that states these moves of a tableau of the problem.
pub fn write(alloc: Global, problem: &Problem, moves: &Moves) -> Result<Vec<u8>, NoMemory>
    requires { IsTrue (are_written problem.now (the_moves moves.now)) }
    ensures { IfOk result (λ bytes. IsMovesText problem.now (the_moves moves.now) bytes.items) }
{
    let symbols = problem.symbols();
    let mut out = Vec::new(alloc);
    write_head(&mut out, problem, b"leancop tableau 1", moves.limit)?;
    write_bytes(&mut out, b"start ")?;
    write_chosen(alloc, &mut out, symbols, &moves.table, &moves.start)?;
    write_bytes(&mut out, b"\n")?;
    write_moves(
        alloc,
        &mut out,
        symbols,
        &moves.table,
        moves.moves.as_slice(),
    )?;
    write_bytes(&mut out, b"end\n")?;
    Ok(out)
}
