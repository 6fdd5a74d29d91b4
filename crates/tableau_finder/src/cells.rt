//! Cells of variables and terms, with bindings that are taken back.

use crate::numbers::{count, item, set};
use crate::term::{
    Made, Named, Pair, STRING, Shape, Term, UNCOPIED, cell, code as code_handle, name_of,
};
use cop_base::NoMemory;
use std::alloc::Global;

// A cell at or above this begins a term: this and its name. Behind it stand the number of its parts, and a
// cell for each part. Any other cell is a variable, bound to the cell that it names, or unbound where it names
// itself.
pub(crate) const HEAD: u32 = 1 << 31;

// The most cells.
const MAX_CELLS: usize = 1 << 26;

// The most pairs that one comparison looks at.
const MAX_LOOKS: u32 = 1 << 20;

// A cell that is to hold what the term is.
#[derive(Clone, Copy)]
struct Slot {
    place: u32,
    term: Term,
}

/// The cells, the variables that were bound, in order, the pairs of labels that are to be equal, and room for work.
#[derive(Drop)]
pub(crate) struct Cells {
    cells: Vec<u32>,
    trail: Vec<u32>,
    pub(crate) equations: Vec<Pair>,
    // how many terms were looked at
    looks: u64,
    pairs: Vec<Pair>,
    others: Vec<Pair>,
    terms: Vec<Term>,
    slots: Vec<Slot>,
}

/// A moment of the cells.
#[derive(Clone, Copy)]
pub(crate) struct Moment {
    pub cells: u32,
    pub trail: u32,
    pub equations: u32,
}

fn is_term(x: Term, y: Term) -> bool {
    x.handle == y.handle && x.base == y.base
}

// The term of a shape.
pub(crate) fn whole(made: Made) -> Term {
    let place = made.first.wrapping_sub(2);
    if made.in_code {
        Term {
            handle: code_handle(place),
            base: made.base,
        }
    } else {
        cell(place)
    }
}

impl Cells {
    pub fn new(alloc: Global) -> Cells {
        Cells {
            cells: Vec::new(alloc),
            trail: Vec::new(alloc),
            equations: Vec::new(alloc),
            looks: 0,
            pairs: Vec::new(alloc),
            others: Vec::new(alloc),
            terms: Vec::new(alloc),
            slots: Vec::new(alloc),
        }
    }

    pub fn moment(&self) -> Moment {
        Moment {
            cells: count(self.cells.len()),
            trail: count(self.trail.len()),
            equations: count(self.equations.len()),
        }
    }

    /// How many terms were looked at.
    pub fn looks(&self) -> u64 {
        self.looks
    }

    /// One term more was looked at.
    pub fn look(&mut self) {
        self.looks = self.looks.saturating_add(1);
    }

    /// The labels are to be equal.
    pub fn equate(&mut self, left: Term, right: Term) -> Result<(), NoMemory> {
        self.equations.push(Pair { left, right })?;
        Ok(())
    }

    // The same, where it is not said yet.
    fn equate_once(&mut self, left: Term, right: Term) -> Result<(), NoMemory> {
        for pair in &self.equations {
            if is_term(pair.left, left) && is_term(pair.right, right) {
                return Ok(());
            }
        }
        self.equate(left, right)
    }

    /// Back to the moment.
    pub fn undo(&mut self, moment: Moment) {
        for _i in moment.trail as usize..self.trail.len() {
            if let Some(bound) = self.trail.pop() {
                set(&mut self.cells, bound, bound);
            }
        }
        self.cells.truncate(moment.cells as usize);
        self.equations.truncate(moment.equations as usize);
    }

    /// The variables that were bound since the moment.
    pub fn bound_since(&self, moment: Moment) -> &[u32] {
        match self.trail.get(moment.trail as usize..) {
            Some(bound) => bound,
            None => &[],
        }
    }

    /// So many new variables, and the first of them; nothing where there is no room.
    pub fn variables(&mut self, number: u32) -> Result<Option<u32>, NoMemory> {
        if self.cells.len() >= MAX_CELLS {
            return Ok(None);
        }
        let base = count(self.cells.len());
        for _i in 0..number {
            let place = count(self.cells.len());
            self.cells.push(place)?;
        }
        Ok(Some(base))
    }

    // The cell at which the bindings of this one end.
    fn end_of(&self, place: u32) -> u32 {
        let mut at = place;
        for _i in 0..self.cells.len() {
            let next = item(&self.cells, at);
            if next >= HEAD || next == at {
                return at;
            }
            at = next;
        }
        at
    }

    fn cell_shape(&self, place: u32) -> Shape {
        let end = self.end_of(place);
        let content = item(&self.cells, end);
        if content < HEAD {
            return Shape::Free(end);
        }
        Shape::Made(Made {
            name: content.wrapping_sub(HEAD),
            parts: item(&self.cells, end.wrapping_add(1)),
            first: end.wrapping_add(2),
            base: end,
            in_code: false,
        })
    }

    /// What stands at the end of the term's bindings. A variable of a clause that is not copied is unbound.
    pub fn shape(&self, code: &[u32], term: Term) -> Shape {
        match name_of(term.handle) {
            Named::Variable(number) => {
                if term.base == UNCOPIED {
                    return Shape::Free(UNCOPIED);
                }
                self.cell_shape(term.base.wrapping_add(number))
            }
            Named::Cell(place) => self.cell_shape(place),
            Named::Code(place) => Shape::Made(Made {
                name: item(code, place),
                parts: item(code, place.wrapping_add(1)),
                first: place.wrapping_add(2),
                base: term.base,
                in_code: true,
            }),
        }
    }

    /// A part of a term.
    pub fn part(&self, code: &[u32], made: Made, number: u32) -> Term {
        let place = made.first.wrapping_add(number);
        if made.in_code {
            Term {
                handle: item(code, place),
                base: made.base,
            }
        } else {
            cell(place)
        }
    }

    pub fn bind(&mut self, variable: u32, place: u32) -> Result<(), NoMemory> {
        set(&mut self.cells, variable, place);
        self.trail.push(variable)?;
        Ok(())
    }

    // The head of a term, whose parts are still to be put into their cells.
    fn put_head(&mut self, code: &[u32], made: Made) -> Result<u32, NoMemory> {
        let place = count(self.cells.len());
        self.cells.push(made.name | HEAD)?;
        self.cells.push(made.parts)?;
        for number in 0..made.parts {
            let at = count(self.cells.len());
            self.cells.push(at)?;
            let term = self.part(code, made, number);
            self.slots.push(Slot { place: at, term })?;
        }
        Ok(place)
    }

    // The cell of a term of the code; nothing where there is no room.
    fn build(&mut self, code: &[u32], made: Made) -> Result<Option<u32>, NoMemory> {
        self.slots.clear();
        let top = self.put_head(code, made)?;
        if self.fill(code)? {
            return Ok(Some(top));
        }
        Ok(None)
    }

    /// A string of these items; nothing where there is no room.
    pub fn string_of(&mut self, code: &[u32], items: &[Term]) -> Result<Option<u32>, NoMemory> {
        self.slots.clear();
        let place = count(self.cells.len());
        self.cells.push(STRING | HEAD)?;
        self.cells.push(count(items.len()))?;
        for term in items {
            let at = count(self.cells.len());
            self.cells.push(at)?;
            self.slots.push(Slot {
                place: at,
                term: *term,
            })?;
        }
        if self.fill(code)? {
            return Ok(Some(place));
        }
        Ok(None)
    }

    // Fills the cells that are to hold terms, as far as there is room.
    fn fill(&mut self, code: &[u32]) -> Result<bool, NoMemory> {
        for _i in 0..MAX_LOOKS {
            self.look();
            match self.slots.pop() {
                None => return Ok(true),
                Some(slot) => {
                    if self.cells.len() >= MAX_CELLS {
                        return Ok(false);
                    }
                    let place = match self.shape(code, slot.term) {
                        Shape::Free(place) => place,
                        Shape::Made(part) => {
                            if part.in_code {
                                self.put_head(code, part)?
                            } else {
                                part.base
                            }
                        }
                    };
                    set(&mut self.cells, slot.place, place);
                }
            }
        }
        Ok(false)
    }

    /// Whether the variable stands in the term.
    pub fn occurs(&mut self, code: &[u32], variable: u32, made: Made) -> Result<bool, NoMemory> {
        self.terms.clear();
        for number in 0..made.parts {
            let part = self.part(code, made, number);
            self.terms.push(part)?;
        }
        for _i in 0..MAX_LOOKS {
            self.look();
            match self.terms.pop() {
                None => return Ok(false),
                Some(term) => match self.shape(code, term) {
                    Shape::Free(place) => {
                        if place == variable {
                            return Ok(true);
                        }
                    }
                    Shape::Made(inner) => {
                        for number in 0..inner.parts {
                            let part = self.part(code, inner, number);
                            self.terms.push(part)?;
                        }
                    }
                },
            }
        }
        Ok(true)
    }

    // Binds the variable to the term, where it can be.
    fn bind_made(&mut self, code: &[u32], variable: u32, made: Made) -> Result<bool, NoMemory> {
        if self.occurs(code, variable, made)? {
            return Ok(false);
        }
        if !made.in_code {
            self.bind(variable, made.base)?;
            return Ok(true);
        }
        match self.build(code, made)? {
            None => Ok(false),
            Some(place) => {
                self.bind(variable, place)?;
                Ok(true)
            }
        }
    }

    // Makes two shapes equal, as far as their names tell; their parts are still to be made equal.
    fn meet(&mut self, code: &[u32], left: Shape, right: Shape) -> Result<bool, NoMemory> {
        match (left, right) {
            (Shape::Free(x), Shape::Free(y)) => {
                if x < y {
                    self.bind(y, x)?;
                } else if y < x {
                    self.bind(x, y)?;
                }
                Ok(true)
            }
            (Shape::Free(x), Shape::Made(made)) | (Shape::Made(made), Shape::Free(x)) => {
                self.bind_made(code, x, made)
            }
            (Shape::Made(x), Shape::Made(y)) => self.meet_made(code, x, y),
        }
    }

    // Strings may be equal where their items are not, so they are to be.
    fn meet_made(&mut self, code: &[u32], x: Made, y: Made) -> Result<bool, NoMemory> {
        if x.name != y.name {
            return Ok(false);
        }
        if x.in_code == y.in_code && x.first == y.first && x.base == y.base {
            return Ok(true);
        }
        if x.name == STRING {
            self.equate_once(whole(x), whole(y))?;
            return Ok(true);
        }
        if x.parts != y.parts {
            return Ok(false);
        }
        for number in 0..x.parts {
            let last = x.parts.wrapping_sub(number).wrapping_sub(1);
            let left = self.part(code, x, last);
            let right = self.part(code, y, last);
            self.pairs.push(Pair { left, right })?;
        }
        Ok(true)
    }

    /// Binds so that the terms are equal; where that cannot be, some bindings stay.
    pub fn unify(&mut self, code: &[u32], left: Term, right: Term) -> Result<bool, NoMemory> {
        self.pairs.clear();
        self.pairs.push(Pair { left, right })?;
        for _i in 0..MAX_LOOKS {
            self.look();
            match self.pairs.pop() {
                None => return Ok(true),
                Some(pair) => {
                    let x = self.shape(code, pair.left);
                    let y = self.shape(code, pair.right);
                    if !self.meet(code, x, y)? {
                        return Ok(false);
                    }
                }
            }
        }
        Ok(false)
    }

    // Compares two terms by names. Where `exact`, a variable is the same as itself alone, else any term may be
    // put for it.
    fn compare(
        &mut self,
        code: &[u32],
        left: Term,
        right: Term,
        exact: bool,
    ) -> Result<bool, NoMemory> {
        self.others.clear();
        self.others.push(Pair { left, right })?;
        for _i in 0..MAX_LOOKS {
            self.look();
            match self.others.pop() {
                None => return Ok(true),
                Some(pair) => {
                    let x = self.shape(code, pair.left);
                    let y = self.shape(code, pair.right);
                    if !self.compare_shapes(code, x, y, exact)? {
                        return Ok(false);
                    }
                }
            }
        }
        Ok(!exact)
    }

    fn compare_shapes(
        &mut self,
        code: &[u32],
        left: Shape,
        right: Shape,
        exact: bool,
    ) -> Result<bool, NoMemory> {
        match (left, right) {
            (Shape::Free(x), Shape::Free(y)) => Ok(!exact || x == y),
            (Shape::Free(_), Shape::Made(_)) | (Shape::Made(_), Shape::Free(_)) => Ok(!exact),
            (Shape::Made(x), Shape::Made(y)) => {
                if !exact && x.name == STRING && y.name == STRING {
                    return Ok(true);
                }
                if x.name != y.name || x.parts != y.parts {
                    return Ok(false);
                }
                if x.in_code == y.in_code && x.first == y.first && x.base == y.base {
                    return Ok(true);
                }
                for number in 0..x.parts {
                    let left = self.part(code, x, number);
                    let right = self.part(code, y, number);
                    self.others.push(Pair { left, right })?;
                }
                Ok(true)
            }
        }
    }

    /// Whether the terms are the same.
    pub fn are_same(&mut self, code: &[u32], left: Term, right: Term) -> Result<bool, NoMemory> {
        self.compare(code, left, right, true)
    }

    /// Whether the names of the terms do not clash.
    pub fn may_meet(&mut self, code: &[u32], left: Term, right: Term) -> Result<bool, NoMemory> {
        self.compare(code, left, right, false)
    }
}
