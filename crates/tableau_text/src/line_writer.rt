//! Writing the lines behind the head.

ghost use Rattle.std.specs.Prelude.{◌≡◌, ◌++◌, map, codes, decimal, IsTrue, OnOk};
ghost use Rattle.calculus.specs.TableauText.{chosen_is_written, chosen_text, move_is_written, move_line, side_text, sides_text};
ghost use Rattle.tableau_text.specs.MovesView.{the_chosen, the_move};

use crate::moves::{Chosen, Move};
use crate::values_writer::write_values;
use calculus::sign::Side;
use cop_base::NoMemory;
use formula_core::{GroundTable, Symbols};
use formula_text::{write_bytes, write_number};
use std::alloc::Global;

fn letter_of(side: Side) -> u8
    ensures { result ≡ side_text side }
{
    match side {
        Side::Left => b'l',
        Side::Right => b'r',
    }
}

fn write_letters(out: &mut Vec<u8>, sides: &[Side]) -> Result<(), NoMemory>
    ensures { OnOk result (out.new.items ≡ out.old.items ++ map side_text sides.now) }
{
    for side in sides {
        out.push(letter_of(*side))?;
    }
    Ok(())
}

// One letter for each side, or `-` where there is none.
fn write_sides(out: &mut Vec<u8>, sides: &[Side]) -> Result<(), NoMemory>
    ensures { OnOk result (out.new.items ≡ out.old.items ++ sides_text sides.now) }
{
    if sides.is_empty() {
        return write_bytes(out, b"-");
    }
    write_letters(out, sides)
}

/// Appends the sides and the values of an instance. Where memory ends a part may be left.
pub fn write_chosen(
    alloc: Global,
    out: &mut Vec<u8>,
    symbols: &Symbols,
    table: &GroundTable,
    chosen: &Chosen,
) -> Result<(), NoMemory>
    requires { IsTrue (chosen_is_written symbols.now (the_chosen table.now chosen.now)) }
    ensures { OnOk result (out.new.items ≡ out.old.items ++ chosen_text symbols.now (the_chosen table.now chosen.now)) }
{
    write_sides(out, chosen.selection.items())?;
    write_bytes(out, b" ")?;
    write_values(alloc, out, symbols, table, chosen.values)?;
    Ok(())
}

fn write_reduction(out: &mut Vec<u8>, up: u32) -> Result<(), NoMemory>
    ensures { OnOk result (out.new.items ≡ out.old.items ++ (codes "reduce " ++ decimal up)) }
{
    write_bytes(out, b"reduce ")?;
    write_number(out, u64::from(up))?;
    Ok(())
}

fn write_extension(
    alloc: Global,
    out: &mut Vec<u8>,
    symbols: &Symbols,
    table: &GroundTable,
    place: u32,
    chosen: &Chosen,
) -> Result<(), NoMemory>
    requires { IsTrue (chosen_is_written symbols.now (the_chosen table.now chosen.now)) }
    ensures { OnOk result (out.new.items ≡ out.old.items
        ++ (codes "extend " ++ decimal place ++ codes " " ++ chosen_text symbols.now (the_chosen table.now chosen.now))) }
{
    write_bytes(out, b"extend ")?;
    write_number(out, u64::from(place))?;
    write_bytes(out, b" ")?;
    write_chosen(alloc, out, symbols, table, chosen)?;
    Ok(())
}

/// Appends the line of a move, without its line feed. Where memory ends a part may be left.
pub fn write_move(
    alloc: Global,
    out: &mut Vec<u8>,
    symbols: &Symbols,
    table: &GroundTable,
    step: &Move,
) -> Result<(), NoMemory>
    requires { IsTrue (move_is_written symbols.now (the_move table.now step.now)) }
    ensures { OnOk result (out.new.items ≡ out.old.items ++ move_line symbols.now (the_move table.now step.now)) }
{
    match step {
        Move::Reduction(up) => write_reduction(out, *up),
        Move::Extension { place, chosen } => write_extension(
            alloc, out, symbols, table, *place, chosen,
        ),
    }
}
