//! The text of what was found.

use crate::cells::Cells;
use crate::domain::Demands;
use crate::flat::Flat;
use crate::found::Line;
use crate::term::{HOME, Made, Name, Shape, Term, cell, meaning_of};
use crate::words::Words;
use cop_base::{NoMemory, SymbolId};
use formula_core::{SymbolClass, Symbols};
use formula_text::{write_bytes, write_name, write_number};
use logic_rules::Problem;
use std::alloc::Global;
use text_lines::write_head;

// The most pieces of a line.
const MAX_PIECES: u32 = 1 << 22;

// What is still to be written.
#[derive(Clone, Copy)]
enum Piece {
    Byte(u8),
    Item(Term),
}

/// Writes the lines of a tableau.
#[derive(Drop)]
pub(crate) struct Writer {
    out: Vec<u8>,
    pieces: Vec<Piece>,
    has_own_spares: bool,
}

fn write_symbol(out: &mut Vec<u8>, symbols: &Symbols, number: u32) -> Result<(), NoMemory> {
    if number as usize >= symbols.len() {
        return Ok(());
    }
    let id = SymbolId(number);
    match symbols.get(id).class {
        SymbolClass::Function => write_name(out, symbols, id),
        SymbolClass::Predicate => Ok(()),
        SymbolClass::Equality => Ok(()),
        SymbolClass::Truth => Ok(()),
    }
}

// `$$`, a letter and a number.
fn write_numbered(out: &mut Vec<u8>, front: &[u8], number: u32) -> Result<(), NoMemory> {
    write_bytes(out, front)?;
    write_number(out, u64::from(number))
}

impl Writer {
    pub fn new(alloc: Global, has_own_spares: bool) -> Writer {
        Writer {
            out: Vec::new(alloc),
            pieces: Vec::new(alloc),
            has_own_spares,
        }
    }

    /// The text of the lines.
    pub fn text(
        mut self,
        problem: &Problem,
        flat: &Flat,
        cells: &mut Cells,
        words: &mut Words,
        demands: &Demands,
        lines: &[Line],
        limit: u8,
    ) -> Result<Vec<u8>, NoMemory> {
        write_head(&mut self.out, problem, b"leancop tableau 1", limit)?;
        write_bytes(&mut self.out, b"start ")?;
        for (number, line) in lines.iter().enumerate() {
            self.write_line(flat, *line, number == 0)?;
            self.write_pieces(problem.symbols(), &flat.code, cells, words, demands)?;
            write_bytes(&mut self.out, b"\n")?;
        }
        write_bytes(&mut self.out, b"end\n")?;
        Ok(self.out)
    }

    // What stands before the values of a line, which are left as pieces.
    fn write_line(&mut self, flat: &Flat, line: Line, is_start: bool) -> Result<(), NoMemory> {
        self.pieces.clear();
        match line {
            Line::Reduce(up) => write_numbered(&mut self.out, b"reduce ", up),
            Line::Extend {
                place,
                clause,
                base,
            } => {
                if !is_start {
                    write_numbered(&mut self.out, b"extend ", place)?;
                    write_bytes(&mut self.out, b" ")?;
                }
                self.write_sides(flat, clause)?;
                self.push_values(flat, clause, base)
            }
        }
    }

    fn write_sides(&mut self, flat: &Flat, clause: u32) -> Result<(), NoMemory> {
        let of = flat.clause(clause);
        if of.sides == 0 {
            write_bytes(&mut self.out, b"-")?;
        }
        for number in 0..of.sides {
            self.out
                .push(flat.side(of.first_side.wrapping_add(number)))?;
        }
        write_bytes(&mut self.out, b" ")
    }

    fn push_values(&mut self, flat: &Flat, clause: u32, base: u32) -> Result<(), NoMemory> {
        let of = flat.clause(clause);
        self.pieces.push(Piece::Byte(b'}'))?;
        for number in 0..of.variables {
            let last = of.variables.wrapping_sub(number).wrapping_sub(1);
            self.pieces
                .push(Piece::Item(cell(base.wrapping_add(last))))?;
            if last > 0 {
                self.pieces.push(Piece::Byte(b','))?;
            }
        }
        self.pieces.push(Piece::Byte(b'{'))?;
        Ok(())
    }

    fn write_pieces(
        &mut self,
        symbols: &Symbols,
        code: &[u32],
        cells: &mut Cells,
        words: &mut Words,
        demands: &Demands,
    ) -> Result<(), NoMemory> {
        for _i in 0..MAX_PIECES {
            cells.look();
            match self.pieces.pop() {
                None => return Ok(()),
                Some(Piece::Byte(byte)) => self.out.push(byte)?,
                Some(Piece::Item(term)) => match cells.shape(code, term) {
                    Shape::Free(variable) => self.write_spare(demands, variable)?,
                    Shape::Made(made) => {
                        self.write_made(symbols, code, cells, words, term, made)?
                    }
                },
            }
        }
        Ok(())
    }

    // The spare constant of a variable.
    fn write_spare(&mut self, demands: &Demands, variable: u32) -> Result<(), NoMemory> {
        write_numbered(&mut self.out, b"$$s", variable)?;
        if self.has_own_spares {
            write_bytes(&mut self.out, b"@")?;
            match demands.label_of(variable) {
                None => write_bytes(&mut self.out, b"[]")?,
                Some(label) => self.pieces.push(Piece::Item(label))?,
            }
        }
        Ok(())
    }

    fn write_made(
        &mut self,
        symbols: &Symbols,
        code: &[u32],
        cells: &mut Cells,
        words: &mut Words,
        term: Term,
        made: Made,
    ) -> Result<(), NoMemory> {
        match meaning_of(made.name) {
            Name::Function(f) => {
                write_symbol(&mut self.out, symbols, f)?;
                if made.parts == 0 {
                    return Ok(());
                }
                self.push_parts(code, cells, made, b'(', b')')
            }
            Name::Eigenvariable(p) => {
                write_numbered(&mut self.out, b"$$e", p)?;
                self.push_parts(code, cells, made, b'{', b'}')
            }
            Name::Mark(p) => {
                write_numbered(&mut self.out, b"$$c", p)?;
                self.push_parts(code, cells, made, b'{', b'}')
            }
            Name::SpareMark(m) => write_numbered(&mut self.out, b"$$d", m),
            Name::String | Name::Home => {
                let items = words.items(cells, code, term)?;
                self.push_marks(code, cells, items)
            }
        }
    }

    // The parts in brackets, without the home.
    fn push_parts(
        &mut self,
        code: &[u32],
        cells: &Cells,
        made: Made,
        open: u8,
        close: u8,
    ) -> Result<(), NoMemory> {
        self.pieces.push(Piece::Byte(close))?;
        let mut is_last = true;
        for number in 0..made.parts {
            let last = made.parts.wrapping_sub(number).wrapping_sub(1);
            let part = cells.part(code, made, last);
            if is_home(code, cells, part) {
                continue;
            }
            if !is_last {
                self.pieces.push(Piece::Byte(b','))?;
            }
            self.pieces.push(Piece::Item(part))?;
            is_last = false;
        }
        self.pieces.push(Piece::Byte(open))?;
        Ok(())
    }

    // The marks in brackets. Strings that are left have none.
    fn push_marks(&mut self, code: &[u32], cells: &Cells, items: &[Term]) -> Result<(), NoMemory> {
        self.pieces.push(Piece::Byte(b']'))?;
        let mut is_last = true;
        for number in 0..items.len() {
            let last = items.len().saturating_sub(number).saturating_sub(1);
            if let Some(mark) = items.get(last) {
                if let Shape::Made(_) = cells.shape(code, *mark) {
                    if !is_last {
                        self.pieces.push(Piece::Byte(b','))?;
                    }
                    self.pieces.push(Piece::Item(*mark))?;
                    is_last = false;
                }
            }
        }
        self.pieces.push(Piece::Byte(b'['))?;
        Ok(())
    }
}

fn is_home(code: &[u32], cells: &Cells, term: Term) -> bool {
    match cells.shape(code, term) {
        Shape::Free(_) => false,
        Shape::Made(made) => made.name == HOME,
    }
}
