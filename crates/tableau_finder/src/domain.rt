//! What domains ask of the gamma terms of a tableau.

use crate::cells::Cells;
use crate::flat::Flat;
use crate::found::Line;
use crate::state::Search;
use crate::term::{Name, Shape, Term, cell, meaning_of, spare_mark_name};
use crate::words::Words;
use cop_base::NoMemory;
use logic_rules::Domains;
use std::alloc::Global;

// The most parts of a term that are looked at.
const MAX_PARTS: u32 = 1 << 16;

/// The label at which the spare constant of a variable stands.
#[derive(Clone, Copy)]
struct Spare {
    variable: u32,
    label: Term,
}

/// What is known of the gamma terms.
#[derive(Drop)]
pub(crate) struct Demands {
    domains: Domains,
    spares: Vec<Spare>,
    waiting: Vec<Term>,
    items: Vec<Term>,
}

impl Demands {
    pub fn new(alloc: Global, domains: Domains) -> Demands {
        Demands {
            domains,
            spares: Vec::new(alloc),
            waiting: Vec::new(alloc),
            items: Vec::new(alloc),
        }
    }

    /// Adds what the domains ask of labels; false where there is no room.
    pub fn add_all(
        &mut self,
        search: &mut Search,
        flat: &Flat,
        lines: &[Line],
    ) -> Result<bool, NoMemory> {
        self.spares.clear();
        for line in lines {
            match *line {
                Line::Reduce(_) => {}
                Line::Extend { clause, base, .. } => {
                    if !self.add_clause(search, flat, clause, base)? {
                        return Ok(false);
                    }
                }
            }
        }
        Ok(true)
    }

    fn add_clause(
        &mut self,
        search: &mut Search,
        flat: &Flat,
        clause: u32,
        base: u32,
    ) -> Result<bool, NoMemory> {
        let of = flat.clause(clause);
        for number in 0..of.gammas {
            let gamma = flat.gamma(of.first_gamma.wrapping_add(number));
            let term = cell(base.wrapping_add(gamma.variable));
            let label = Term {
                handle: gamma.label,
                base,
            };
            if !self.add_gamma(search, flat, term, label)? {
                return Ok(false);
            }
        }
        Ok(true)
    }

    fn add_gamma(
        &mut self,
        search: &mut Search,
        flat: &Flat,
        term: Term,
        label: Term,
    ) -> Result<bool, NoMemory> {
        self.waiting.clear();
        self.waiting.push(term)?;
        for _i in 0..MAX_PARTS {
            search.cells.look();
            let next = match self.waiting.pop() {
                None => return Ok(true),
                Some(next) => next,
            };
            match search.cells.shape(&flat.code, next) {
                Shape::Free(variable) => self.spares.push(Spare { variable, label })?,
                Shape::Made(made) => {
                    let last = search
                        .cells
                        .part(&flat.code, made, made.parts.wrapping_sub(1));
                    match meaning_of(made.name) {
                        Name::Function(_) => self.wait(&search.cells, &flat.code, next)?,
                        Name::Eigenvariable(_) => {
                            let cells = &mut search.cells;
                            let words = &mut search.words;
                            if !self.add_home(cells, words, &flat.code, last, label)? {
                                return Ok(false);
                            }
                        }
                        Name::Mark(_) => {}
                        Name::SpareMark(_) => {}
                        Name::String => {}
                        Name::Home => {}
                    }
                }
            }
        }
        Ok(false)
    }

    // The parts wait.
    fn wait(&mut self, cells: &Cells, code: &[u32], term: Term) -> Result<(), NoMemory> {
        if let Shape::Made(made) = cells.shape(code, term) {
            for number in 0..made.parts {
                self.waiting.push(cells.part(code, made, number))?;
            }
        }
        Ok(())
    }

    // The home begins the label, or is the label.
    fn add_home(
        &mut self,
        cells: &mut Cells,
        words: &mut Words,
        code: &[u32],
        home: Term,
        label: Term,
    ) -> Result<bool, NoMemory> {
        match self.domains {
            Domains::Constant => return Ok(true),
            Domains::Varying => {
                cells.equate(home, label)?;
                return Ok(true);
            }
            Domains::Cumulative => {}
        }
        let rest = match cells.variables(1)? {
            None => return Ok(false),
            Some(rest) => rest,
        };
        self.items.clear();
        for part in words.items(cells, code, home)? {
            self.items.push(*part)?;
        }
        self.items.push(cell(rest))?;
        match cells.string_of(code, &self.items)? {
            None => Ok(false),
            Some(place) => {
                cells.equate(cell(place), label)?;
                Ok(true)
            }
        }
    }

    /// The label of the first gamma term that has the variable.
    pub fn label_of(&self, variable: u32) -> Option<Term> {
        for spare in &self.spares {
            if spare.variable == variable {
                return Some(spare.label);
            }
        }
        None
    }
}

/// Gives each string that is left no mark, or one where each string has one; false where there is no room.
pub(crate) fn close_strings(
    search: &mut Search,
    flat: &Flat,
    lines: &[Line],
    least_one: bool,
) -> Result<bool, NoMemory> {
    for line in lines {
        match *line {
            Line::Reduce(_) => {}
            Line::Extend { clause, base, .. } => {
                if !close_clause(&mut search.cells, flat, clause, base, least_one)? {
                    return Ok(false);
                }
            }
        }
    }
    Ok(true)
}

fn close_clause(
    cells: &mut Cells,
    flat: &Flat,
    clause: u32,
    base: u32,
    least_one: bool,
) -> Result<bool, NoMemory> {
    let of = flat.clause(clause);
    for number in 0..of.variables {
        if flat.is_string(of, number) {
            if let Shape::Free(variable) = cells.shape(
                &flat.code,
                cell(base.wrapping_add(number)),
            ) {
                if !close_string(cells, variable, least_one)? {
                    return Ok(false);
                }
            }
        }
    }
    Ok(true)
}

fn close_string(cells: &mut Cells, variable: u32, least_one: bool) -> Result<bool, NoMemory> {
    let string = if least_one {
        let mark = [spare_mark_name(variable), 0];
        cells.string_of(&mark, &[Term { handle: 1, base: 0 }])?
    } else {
        cells.string_of(&[], &[])?
    };
    match string {
        None => Ok(false),
        Some(place) => {
            cells.bind(variable, place)?;
            Ok(true)
        }
    }
}
