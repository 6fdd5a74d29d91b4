//! The clauses of a matrix as numbers.

use crate::numbers::{NONE, count, item, set};
use crate::term::{HOME, STRING, code, eigenvariable_name, function_name, mark_name, variable};
use calculus::sign::Side;
use calculus::sort::Sort;
use cop_base::{ClauseId, NoMemory, SymbolId};
use matrix_build::Matrix;
use std::alloc::Global;
use term_store::{Pattern, PatternAtom, PatternGamma, Sign, Template};

// The longest clauses that are told apart by their lengths.
const LONG: u32 = 16;

// The most parts of a literal.
const MAX_PARTS: u32 = 1 << 26;

/// A literal: its row (twice its symbol, and one more for sign T), its arguments as handles from a place of the
/// code on, the handle of its label, and where it stands.
#[derive(Clone, Copy)]
pub(crate) struct Literal {
    pub row: u32,
    pub arguments: u32,
    pub arity: u32,
    pub label: u32,
    pub clause: u32,
    pub place: u32,
}

/// A gamma term: its variable, and the handle of its label.
#[derive(Clone, Copy)]
pub(crate) struct Gamma {
    pub variable: u32,
    pub label: u32,
}

/// A clause: its literals and gamma terms from these numbers on, its sides and the sorts of its variables.
#[derive(Clone, Copy)]
pub(crate) struct Clause {
    pub first: u32,
    pub literals: u32,
    pub first_gamma: u32,
    pub gammas: u32,
    pub first_side: u32,
    pub sides: u32,
    pub first_sort: u32,
    pub variables: u32,
}

#[derive(Drop)]
struct Row {
    items: Vec<u32>,
}

// The rows, as bits, of which an extension by the literal needs a goal above its other literals: at the last level
// for each of them, elsewhere for those that no clause closes.
#[derive(Clone, Copy)]
struct Needs {
    last: u64,
    elsewhere: u64,
}

// A place of the code at which the pattern is still to stand.
#[derive(Clone, Copy)]
struct Slot<'a> {
    place: u32,
    pattern: &'a Pattern,
}

/// The clauses, and the literals of each row, in order and with those of short clauses first.
#[derive(Drop)]
pub(crate) struct Flat {
    pub(crate) code: Vec<u32>,
    literals: Vec<Literal>,
    gammas: Vec<Gamma>,
    // `l` or `r`
    sides: Vec<u8>,
    // whether they stand for strings
    sorts: Vec<bool>,
    needs: Vec<Needs>,
    clauses: Vec<Clause>,
    pub(crate) starts: Vec<u32>,
    in_order: Vec<Row>,
    by_length: Vec<Row>,
    has_homes: bool,
}

fn row_of(symbol: SymbolId, sign: Sign) -> u32 {
    let twice = symbol.0.wrapping_mul(2);
    match sign {
        Sign::F => twice,
        Sign::T => twice.wrapping_add(1),
    }
}

/// A bit for the row.
pub(crate) fn bit_of(row: u32) -> u64 {
    1 << (row % 64)
}

/// The row of the same symbol and the other sign.
pub(crate) fn other_row(row: u32) -> u32 {
    if row % 2 == 0 {
        row.wrapping_add(1)
    } else {
        row.wrapping_sub(1)
    }
}

fn reach(alloc: Global, rows: &mut Vec<Row>, row: u32) -> Result<(), NoMemory> {
    for _i in rows.len()..=row as usize {
        rows.push(Row {
            items: Vec::new(alloc),
        })?;
    }
    Ok(())
}

fn put_in_row(alloc: Global, rows: &mut Vec<Row>, row: u32, literal: u32) -> Result<(), NoMemory> {
    reach(alloc, rows, row)?;
    if let Some(of_row) = rows.get_mut(row as usize) {
        of_row.items.push(literal)?;
    }
    Ok(())
}

// Whether the variable is one of the parts.
fn has_variable(parts: &[Pattern], number: u32) -> bool {
    for part in parts {
        if let Pattern::Var(other) = part {
            if *other == number {
                return true;
            }
        }
    }
    false
}

// How many items of the label are those of the home of the eigenvariable of this position with these parts.
fn home_length(label: &[Pattern], position: u32, parts: &[Pattern]) -> u32 {
    let mut length: u32 = 0;
    for mark in label {
        let is_before = match mark {
            Pattern::Var(number) => has_variable(parts, *number),
            Pattern::New(at, _) => at.0 <= position,
            Pattern::Fun(_, _) => false,
            Pattern::Eigen(_, _) => false,
        };
        if !is_before {
            return length;
        }
        length = length.saturating_add(1);
    }
    length
}

fn letter_of(side: Side) -> u8 {
    match side {
        Side::Left => b'l',
        Side::Right => b'r',
    }
}

impl Flat {
    /// The clauses of the matrix. Eigenvariables have homes where that is asked for.
    pub fn new(alloc: Global, matrix: &Matrix, has_homes: bool) -> Result<Flat, NoMemory> {
        let mut flat = Flat {
            code: Vec::new(alloc),
            literals: Vec::new(alloc),
            gammas: Vec::new(alloc),
            sides: Vec::new(alloc),
            sorts: Vec::new(alloc),
            needs: Vec::new(alloc),
            clauses: Vec::new(alloc),
            starts: Vec::new(alloc),
            in_order: Vec::new(alloc),
            by_length: Vec::new(alloc),
            has_homes,
        };
        flat.add_clauses(alloc, matrix)?;
        flat.add_rows(alloc)?;
        flat.add_needs()?;
        Ok(flat)
    }

    fn add_clauses(&mut self, alloc: Global, matrix: &Matrix) -> Result<(), NoMemory> {
        for number in 0..matrix.len() {
            self.add_clause(alloc, matrix, count(number))?;
        }
        Ok(())
    }

    fn add_needs(&mut self) -> Result<(), NoMemory> {
        for number in 0..count(self.literals.len()) {
            let needs = self.needs_of(number);
            self.needs.push(needs)?;
        }
        Ok(())
    }

    fn needs_of(&self, number: u32) -> Needs {
        let clause = self.clause(self.literal(number).clause);
        let mut needs = Needs {
            last: 0,
            elsewhere: 0,
        };
        for place in 0..clause.literals {
            let other = clause.first.wrapping_add(place);
            if other != number {
                let row = other_row(self.literal(other).row);
                needs.last |= bit_of(row);
                if self.row(row, false).len() == 0 {
                    needs.elsewhere |= bit_of(row);
                }
            }
        }
        needs
    }

    /// The rows of which an extension by the literal needs a goal above its other literals, as bits.
    pub(crate) fn needed(&self, number: u32, is_last: bool) -> u64 {
        match self.needs.get(number as usize) {
            None => 0,
            Some(needs) => { if is_last { needs.last } else { needs.elsewhere } }
        }
    }

    fn add_clause(&mut self, alloc: Global, matrix: &Matrix, number: u32) -> Result<(), NoMemory> {
        if number as usize >= matrix.len() {
            return Ok(());
        }
        let id = ClauseId(number);
        let first_side = count(self.sides.len());
        for side in matrix.selection(id).items() {
            self.sides.push(letter_of(*side))?;
        }
        let sides = count(self.sides.len()).wrapping_sub(first_side);
        self.add_template(alloc, matrix.template(id), number, first_side, sides)?;
        if matrix.is_start(id) {
            self.starts.push(number)?;
        }
        Ok(())
    }

    fn add_template(
        &mut self,
        alloc: Global,
        template: &Template,
        number: u32,
        first_side: u32,
        sides: u32,
    ) -> Result<(), NoMemory> {
        let first = count(self.literals.len());
        for (place, literal) in template.literals.items().iter().enumerate() {
            self.add_literal(alloc, literal, number, count(place))?;
        }
        let first_gamma = count(self.gammas.len());
        for gamma in template.gammas.items() {
            self.add_gamma(alloc, gamma)?;
        }
        let first_sort = count(self.sorts.len());
        for sort in template.sorts.items() {
            self.sorts.push(*sort == Sort::StringSort)?;
        }
        self.clauses.push(Clause {
            first,
            literals: count(template.literals.items().len()),
            first_gamma,
            gammas: count(template.gammas.items().len()),
            first_side,
            sides,
            first_sort,
            variables: count(template.sorts.items().len()),
        })?;
        Ok(())
    }

    fn add_gamma(&mut self, alloc: Global, gamma: &PatternGamma) -> Result<(), NoMemory> {
        let label = self.put_label(alloc, gamma.label.items())?;
        let variable = match gamma.term {
            Pattern::Var(number) => number,
            Pattern::Fun(_, _) => NONE,
            Pattern::Eigen(_, _) => NONE,
            Pattern::New(_, _) => NONE,
        };
        self.gammas.push(Gamma { variable, label })?;
        Ok(())
    }

    fn add_literal(
        &mut self,
        alloc: Global,
        literal: &PatternAtom,
        clause: u32,
        place: u32,
    ) -> Result<(), NoMemory> {
        let marks = literal.label.items();
        let label = self.put_label(alloc, marks)?;
        let arguments = self.put_arguments(alloc, literal.args.items(), marks, label)?;
        self.literals.push(Literal {
            row: row_of(literal.symbol, literal.sign),
            arguments,
            arity: count(literal.args.items().len()),
            label,
            clause,
            place,
        })?;
        Ok(())
    }

    // The handle of a label.
    fn put_label(&mut self, alloc: Global, marks: &[Pattern]) -> Result<u32, NoMemory> {
        let place = count(self.code.len());
        self.code.push(STRING)?;
        self.code.push(count(marks.len()))?;
        let mut waiting = Vec::new(alloc);
        self.put_places(marks, &mut waiting)?;
        self.fill(&mut waiting, marks, code(place))?;
        Ok(code(place))
    }

    // The place of the first argument of a literal with this label.
    fn put_arguments(
        &mut self,
        alloc: Global,
        arguments: &[Pattern],
        marks: &[Pattern],
        label: u32,
    ) -> Result<u32, NoMemory> {
        let place = count(self.code.len());
        let mut waiting = Vec::new(alloc);
        self.put_places(arguments, &mut waiting)?;
        self.fill(&mut waiting, marks, label)?;
        Ok(place)
    }

    // A place for each of the parts.
    fn put_places<'a>(
        &mut self,
        parts: &'a [Pattern],
        waiting: &mut Vec<Slot<'a>>,
    ) -> Result<(), NoMemory> {
        for part in parts {
            let place = count(self.code.len());
            self.code.push(0)?;
            waiting.push(Slot {
                place,
                pattern: part,
            })?;
        }
        Ok(())
    }

    // Fills the places that wait. The label is that of their literal.
    fn fill<'a>(
        &mut self,
        waiting: &mut Vec<Slot<'a>>,
        marks: &[Pattern],
        label: u32,
    ) -> Result<(), NoMemory> {
        for _i in 0..MAX_PARTS {
            match waiting.pop() {
                None => return Ok(()),
                Some(slot) => {
                    let handle = self.put_head(slot.pattern, waiting, marks, label)?;
                    set(&mut self.code, slot.place, handle);
                }
            }
        }
        Ok(())
    }

    // The handle of a pattern, whose parts wait.
    fn put_head<'a>(
        &mut self,
        pattern: &'a Pattern,
        waiting: &mut Vec<Slot<'a>>,
        marks: &[Pattern],
        label: u32,
    ) -> Result<u32, NoMemory> {
        match pattern {
            Pattern::Var(number) => Ok(variable(*number)),
            Pattern::Fun(f, parts) => self.put_made(function_name(f.0), parts.items(), waiting),
            Pattern::New(p, parts) => self.put_made(mark_name(p.0), parts.items(), waiting),
            Pattern::Eigen(p, parts) => {
                let length = home_length(marks, p.0, parts.items());
                self.put_eigenvariable(p.0, parts.items(), waiting, label, length)
            }
        }
    }

    fn put_made<'a>(
        &mut self,
        name: u32,
        parts: &'a [Pattern],
        waiting: &mut Vec<Slot<'a>>,
    ) -> Result<u32, NoMemory> {
        let place = count(self.code.len());
        self.code.push(name)?;
        self.code.push(count(parts.len()))?;
        self.put_places(parts, waiting)?;
        Ok(code(place))
    }

    // The home is so much of the label.
    fn put_eigenvariable<'a>(
        &mut self,
        position: u32,
        parts: &'a [Pattern],
        waiting: &mut Vec<Slot<'a>>,
        label: u32,
        length: u32,
    ) -> Result<u32, NoMemory> {
        if !self.has_homes {
            return self.put_made(eigenvariable_name(position), parts, waiting);
        }
        let home = count(self.code.len());
        self.code.push(HOME)?;
        self.code.push(length)?;
        for number in 0..length {
            let part = item(&self.code, (label / 4).wrapping_add(2).wrapping_add(number));
            self.code.push(part)?;
        }
        let place = count(self.code.len());
        self.code.push(eigenvariable_name(position))?;
        self.code.push(count(parts.len()).wrapping_add(1))?;
        self.put_places(parts, waiting)?;
        self.code.push(code(home))?;
        Ok(code(place))
    }

    fn add_rows(&mut self, alloc: Global) -> Result<(), NoMemory> {
        for number in 0..count(self.literals.len()) {
            let row = self.literal(number).row;
            put_in_row(alloc, &mut self.in_order, row, number)?;
        }
        for length in 1..=LONG {
            self.add_rows_of(alloc, length)?;
        }
        Ok(())
    }

    fn add_rows_of(&mut self, alloc: Global, length: u32) -> Result<(), NoMemory> {
        for number in 0..count(self.literals.len()) {
            let literal = self.literal(number);
            if self.clause(literal.clause).literals.min(LONG) == length {
                put_in_row(alloc, &mut self.by_length, literal.row, number)?;
            }
        }
        Ok(())
    }

    pub(crate) fn literal(&self, number: u32) -> Literal {
        match self.literals.get(number as usize) {
            Some(literal) => *literal,
            None => Literal {
                row: NONE,
                arguments: 0,
                arity: 0,
                label: 0,
                clause: 0,
                place: 0,
            },
        }
    }

    pub(crate) fn clause(&self, number: u32) -> Clause {
        match self.clauses.get(number as usize) {
            Some(clause) => *clause,
            None => Clause {
                first: 0,
                literals: 0,
                first_gamma: 0,
                gammas: 0,
                first_side: 0,
                sides: 0,
                first_sort: 0,
                variables: 0,
            },
        }
    }

    pub(crate) fn gamma(&self, number: u32) -> Gamma {
        match self.gammas.get(number as usize) {
            Some(gamma) => *gamma,
            None => Gamma {
                variable: NONE,
                label: 0,
            },
        }
    }

    /// The letter of a side.
    pub(crate) fn side(&self, number: u32) -> u8 {
        match self.sides.get(number as usize) {
            Some(side) => *side,
            None => b'l',
        }
    }

    /// Whether this variable of the clause stands for a string.
    pub(crate) fn is_string(&self, clause: Clause, number: u32) -> bool {
        match self
            .sorts
            .get(clause.first_sort.wrapping_add(number) as usize)
        {
            Some(is_string) => *is_string,
            None => false,
        }
    }

    /// The literals of the row.
    pub(crate) fn row(&self, row: u32, shortest: bool) -> &[u32] {
        let rows = if shortest {
            &self.by_length
        } else {
            &self.in_order
        };
        match rows.get(row as usize) {
            Some(of_row) => &of_row.items,
            None => &[],
        }
    }

    /// The handle of an argument of the literal.
    pub(crate) fn argument(&self, literal: Literal, number: u32) -> u32 {
        item(&self.code, literal.arguments.wrapping_add(number))
    }
}
