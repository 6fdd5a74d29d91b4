//! Labels as words of marks and strings: two that are to be equal.

use crate::cells::{Cells, whole};
use crate::numbers::count;
use crate::term::{HOME, Pair, STRING, Shape, Term, cell};
use cop_base::NoMemory;
use std::alloc::Global;

// The most items of a word that are looked at.
const MAX_ITEMS: u32 = 1 << 14;

// The most rounds over all equations.
const MAX_ROUNDS: u32 = 1 << 10;

/// How many marks a string may have: at least one, or none; at most one, or any number. And whether long strings are
/// tried first: then what comes first in a label takes as much as it can.
#[derive(Clone, Copy)]
pub(crate) struct Lengths {
    pub least_one: bool,
    pub most_one: bool,
    pub long_first: bool,
}

/// What is seen of an equation.
#[derive(Clone, Copy, PartialEq, Eq)]
pub(crate) enum Seen {
    /// It has no solution.
    Fails,
    /// Its words are the same.
    Solved,
    /// Something was bound, for which there was one way alone.
    Bound,
    /// It is open, and the empty string for each string solves it.
    Strings,
    /// It is open.
    Open,
}

/// The two words of an equation, without what they begin and end with together.
#[derive(Drop)]
pub(crate) struct Words {
    left: Vec<Term>,
    right: Vec<Term>,
    // the items before these are the same
    begin: usize,
    waiting: Vec<Term>,
}

fn term_at(list: &[Term], place: usize) -> Term {
    match list.get(place) {
        Some(term) => *term,
        None => cell(0),
    }
}

// The items of the term, strings taken apart.
fn flatten(
    cells: &mut Cells,
    code: &[u32],
    term: Term,
    waiting: &mut Vec<Term>,
    items: &mut Vec<Term>,
) -> Result<(), NoMemory> {
    items.clear();
    waiting.clear();
    waiting.push(term)?;
    for _i in 0..MAX_ITEMS {
        cells.look();
        match waiting.pop() {
            None => return Ok(()),
            Some(next) => match cells.shape(code, next) {
                Shape::Free(place) => items.push(cell(place))?,
                Shape::Made(made) => {
                    if made.name == STRING || made.name == HOME {
                        for number in 0..made.parts {
                            let last = made.parts.wrapping_sub(number).wrapping_sub(1);
                            waiting.push(cells.part(code, made, last))?;
                        }
                    } else {
                        items.push(whole(made))?;
                    }
                }
            },
        }
    }
    Ok(())
}

impl Words {
    pub fn new(alloc: Global) -> Words {
        Words {
            left: Vec::new(alloc),
            right: Vec::new(alloc),
            begin: 0,
            waiting: Vec::new(alloc),
        }
    }

    /// The items of a label.
    pub fn items(
        &mut self,
        cells: &mut Cells,
        code: &[u32],
        term: Term,
    ) -> Result<&[Term], NoMemory> {
        flatten(cells, code, term, &mut self.waiting, &mut self.left)?;
        Ok(&self.left)
    }

    fn left_len(&self) -> usize {
        self.left.len().saturating_sub(self.begin)
    }

    fn right_len(&self) -> usize {
        self.right.len().saturating_sub(self.begin)
    }

    /// Whether the labels are the same.
    pub fn are_same(
        &mut self,
        cells: &mut Cells,
        code: &[u32],
        left: Term,
        right: Term,
    ) -> Result<bool, NoMemory> {
        flatten(cells, code, left, &mut self.waiting, &mut self.left)?;
        flatten(cells, code, right, &mut self.waiting, &mut self.right)?;
        if self.left.len() != self.right.len() {
            return Ok(false);
        }
        for place in 0..self.left.len() {
            let x = term_at(&self.left, place);
            let y = term_at(&self.right, place);
            if !cells.are_same(code, x, y)? {
                return Ok(false);
            }
        }
        Ok(true)
    }

    // Makes two marks equal, or tells that they are, as far as no other pair says so.
    fn meet(cells: &mut Cells, code: &[u32], x: Term, y: Term) -> Result<Seen, NoMemory> {
        match (cells.shape(code, x), cells.shape(code, y)) {
            (Shape::Made(_), Shape::Made(_)) => {
                let before = cells.moment();
                if !cells.unify(code, x, y)? {
                    return Ok(Seen::Fails);
                }
                let after = cells.moment();
                if after.trail == before.trail && after.equations == before.equations {
                    Ok(Seen::Solved)
                } else {
                    Ok(Seen::Bound)
                }
            }
            (Shape::Free(x), Shape::Free(y)) => {
                if x == y {
                    Ok(Seen::Solved)
                } else {
                    Ok(Seen::Open)
                }
            }
            (Shape::Free(_), Shape::Made(_)) => Ok(Seen::Open),
            (Shape::Made(_), Shape::Free(_)) => Ok(Seen::Open),
        }
    }

    // Leaves out what the words begin with together.
    fn trim_begin(&mut self, cells: &mut Cells, code: &[u32]) -> Result<Seen, NoMemory> {
        self.begin = 0;
        for place in 0..self.left.len().min(self.right.len()) {
            let x = term_at(&self.left, place);
            let y = term_at(&self.right, place);
            match Words::meet(cells, code, x, y)? {
                Seen::Solved => self.begin = place.saturating_add(1),
                other => return Ok(other),
            }
        }
        Ok(Seen::Open)
    }

    // Leaves out what the words end with together.
    fn trim_end(&mut self, cells: &mut Cells, code: &[u32]) -> Result<Seen, NoMemory> {
        for _i in 0..self.left_len().min(self.right_len()) {
            let x = term_at(&self.left, self.left.len().saturating_sub(1));
            let y = term_at(&self.right, self.right.len().saturating_sub(1));
            match Words::meet(cells, code, x, y)? {
                Seen::Solved => {
                    self.left.truncate(self.left.len().saturating_sub(1));
                    self.right.truncate(self.right.len().saturating_sub(1));
                }
                other => return Ok(other),
            }
        }
        Ok(Seen::Open)
    }

    // Reads the equation.
    fn read(&mut self, cells: &mut Cells, code: &[u32], pair: Pair) -> Result<Seen, NoMemory> {
        flatten(cells, code, pair.left, &mut self.waiting, &mut self.left)?;
        flatten(cells, code, pair.right, &mut self.waiting, &mut self.right)?;
        let seen = self.trim_begin(cells, code)?;
        if seen != Seen::Open {
            return Ok(seen);
        }
        self.trim_end(cells, code)
    }

    /// Makes the words equal, as far as there is one way alone.
    pub fn simplify(
        &mut self,
        cells: &mut Cells,
        code: &[u32],
        lengths: Lengths,
        pair: Pair,
    ) -> Result<Seen, NoMemory> {
        let seen = self.read(cells, code, pair)?;
        if seen != Seen::Open {
            return Ok(seen);
        }
        let left = self.left_len();
        let right = self.right_len();
        if left == 0 && right == 0 {
            return Ok(Seen::Solved);
        }
        if left == 0 || right == 0 {
            return self.empty_all(cells, code, lengths);
        }
        if lengths.least_one && lengths.most_one {
            if left != right {
                return Ok(Seen::Fails);
            }
            return self.bind_head(cells, code);
        }
        if !lengths.most_one {
            if left == 1
                && let Shape::Free(x) = self.head(cells, code, false)
            {
                return bind_word(cells, code, x, rest(&self.right, self.begin));
            }
            if right == 1
                && let Shape::Free(x) = self.head(cells, code, true)
            {
                return bind_word(cells, code, x, rest(&self.left, self.begin));
            }
        }
        Ok(self.look(cells, code))
    }

    fn head(&self, cells: &Cells, code: &[u32], of_right: bool) -> Shape {
        let list = if of_right { &self.right } else { &self.left };
        cells.shape(code, term_at(list, self.begin))
    }

    // Whether strings alone are left.
    fn look(&self, cells: &Cells, code: &[u32]) -> Seen {
        if has_mark(cells, code, &self.left, self.begin)
            || has_mark(cells, code, &self.right, self.begin)
        {
            Seen::Open
        } else {
            Seen::Strings
        }
    }

    // One word is empty, so is the other.
    fn empty_all(
        &mut self,
        cells: &mut Cells,
        code: &[u32],
        lengths: Lengths,
    ) -> Result<Seen, NoMemory> {
        if lengths.least_one || self.look(cells, code) == Seen::Open {
            return Ok(Seen::Fails);
        }
        for place in self.begin..self.left.len() {
            if !bind_items(cells, code, term_at(&self.left, place), &[])? {
                return Ok(Seen::Fails);
            }
        }
        for place in self.begin..self.right.len() {
            if !bind_items(cells, code, term_at(&self.right, place), &[])? {
                return Ok(Seen::Fails);
            }
        }
        Ok(Seen::Bound)
    }

    // Each string is one mark, so the first items are equal.
    fn bind_head(&mut self, cells: &mut Cells, code: &[u32]) -> Result<Seen, NoMemory> {
        let x = term_at(&self.left, self.begin);
        let y = term_at(&self.right, self.begin);
        let done = match (cells.shape(code, x), cells.shape(code, y)) {
            (Shape::Free(_), _) => bind_items(cells, code, x, &[y])?,
            (Shape::Made(_), Shape::Free(_)) => bind_items(cells, code, y, &[x])?,
            (Shape::Made(_), Shape::Made(_)) => false,
        };
        if done {
            Ok(Seen::Bound)
        } else {
            Ok(Seen::Fails)
        }
    }

    /// Takes a way to go on with an open equation, by its number; false where it leads to nothing, nothing where there
    /// are no more.
    pub fn try_way(
        &mut self,
        cells: &mut Cells,
        code: &[u32],
        lengths: Lengths,
        pair: Pair,
        way: u32,
    ) -> Result<Option<bool>, NoMemory> {
        if way > 2 {
            return Ok(None);
        }
        let seen = self.read(cells, code, pair)?;
        if seen != Seen::Open || self.left_len() == 0 || self.right_len() == 0 {
            return Ok(None);
        }
        let x = term_at(&self.left, self.begin);
        let y = term_at(&self.right, self.begin);
        match (cells.shape(code, x), cells.shape(code, y)) {
            (Shape::Made(_), Shape::Made(_)) => Ok(None),
            (Shape::Free(_), Shape::Made(_)) => Words::meet_mark(cells, code, lengths, x, y, way),
            (Shape::Made(_), Shape::Free(_)) => Words::meet_mark(cells, code, lengths, y, x, way),
            (Shape::Free(_), Shape::Free(_)) => {
                if lengths.long_first && has_mark(cells, code, &self.left, self.begin) {
                    Words::meet_string(cells, code, lengths, y, x, way)
                } else {
                    Words::meet_string(cells, code, lengths, x, y, way)
                }
            }
        }
    }

    // The string begins with the mark, or is empty.
    fn meet_mark(
        cells: &mut Cells,
        code: &[u32],
        lengths: Lengths,
        string: Term,
        mark: Term,
        way: u32,
    ) -> Result<Option<bool>, NoMemory> {
        if way > 1 {
            return Ok(None);
        }
        if (way == 0) != lengths.long_first {
            return Ok(Some(bind_items(cells, code, string, &[])?));
        }
        if lengths.most_one {
            return Ok(Some(bind_items(cells, code, string, &[mark])?));
        }
        Ok(Some(bind_begin(cells, code, string, mark)?))
    }

    // One string begins with the other, x with y first.
    fn meet_string(
        cells: &mut Cells,
        code: &[u32],
        lengths: Lengths,
        x: Term,
        y: Term,
        way: u32,
    ) -> Result<Option<bool>, NoMemory> {
        if lengths.most_one {
            return match way {
                0 => Ok(Some(bind_items(cells, code, x, &[y])?)),
                1 => Ok(Some(bind_items(cells, code, x, &[])?)),
                _ => Ok(Some(bind_items(cells, code, y, &[])?)),
            };
        }
        match way {
            0 => Ok(Some(bind_begin(cells, code, x, y)?)),
            1 => Ok(Some(bind_begin(cells, code, y, x)?)),
            _ => Ok(None),
        }
    }

    /// Makes all pairs equal, as far as there is one way alone; false where one cannot be.
    pub fn propagate(
        &mut self,
        cells: &mut Cells,
        code: &[u32],
        lengths: Lengths,
    ) -> Result<bool, NoMemory> {
        for _round in 0..MAX_ROUNDS {
            match self.pass(cells, code, lengths)? {
                Seen::Fails => return Ok(false),
                Seen::Bound => {}
                Seen::Solved => return Ok(true),
                Seen::Strings => return Ok(true),
                Seen::Open => return Ok(true),
            }
        }
        Ok(true)
    }

    // One round over all pairs.
    fn pass(
        &mut self,
        cells: &mut Cells,
        code: &[u32],
        lengths: Lengths,
    ) -> Result<Seen, NoMemory> {
        let mut seen = Seen::Solved;
        for number in 0..cells.equations.len() {
            let pair = match cells.equations.get(number) {
                Some(pair) => *pair,
                None => return Ok(seen),
            };
            match self.simplify(cells, code, lengths, pair)? {
                Seen::Fails => return Ok(Seen::Fails),
                Seen::Bound => seen = Seen::Bound,
                Seen::Solved => {}
                Seen::Strings => {}
                Seen::Open => {}
            }
        }
        Ok(seen)
    }

    /// The number of an open pair that the empty string does not solve, the first that begins with a mark.
    pub fn open(
        &mut self,
        cells: &mut Cells,
        code: &[u32],
        lengths: Lengths,
    ) -> Result<Option<u32>, NoMemory> {
        let mut found = None;
        for number in 0..cells.equations.len() {
            let pair = match cells.equations.get(number) {
                Some(pair) => *pair,
                None => return Ok(found),
            };
            let seen = self.simplify(cells, code, lengths, pair)?;
            if seen == Seen::Open {
                if self.begins_with_mark(cells, code) {
                    return Ok(Some(count(number)));
                }
                if found.is_none() {
                    found = Some(count(number));
                }
            }
        }
        Ok(found)
    }

    fn begins_with_mark(&self, cells: &Cells, code: &[u32]) -> bool {
        match (self.head(cells, code, false), self.head(cells, code, true)) {
            (Shape::Free(_), Shape::Free(_)) => false,
            (Shape::Free(_), Shape::Made(_)) => true,
            (Shape::Made(_), Shape::Free(_)) => true,
            (Shape::Made(_), Shape::Made(_)) => true,
        }
    }
}

// The items from a place on.
fn rest(list: &[Term], begin: usize) -> &[Term] {
    match list.get(begin..) {
        Some(items) => items,
        None => &[],
    }
}

// One word is this string, so the string is the other word, unless it stands in it.
fn bind_word(
    cells: &mut Cells,
    code: &[u32],
    variable: u32,
    items: &[Term],
) -> Result<Seen, NoMemory> {
    if has_string(cells, code, variable, items) {
        if has_mark(cells, code, items, 0) {
            return Ok(Seen::Fails);
        }
        return Ok(Seen::Strings);
    }
    if bind_items(cells, code, cell(variable), items)? {
        Ok(Seen::Bound)
    } else {
        Ok(Seen::Fails)
    }
}

fn has_string(cells: &Cells, code: &[u32], variable: u32, items: &[Term]) -> bool {
    for term in items {
        if let Shape::Free(other) = cells.shape(code, *term) {
            if other == variable {
                return true;
            }
        }
    }
    false
}

fn has_mark(cells: &Cells, code: &[u32], list: &[Term], begin: usize) -> bool {
    for place in begin..list.len() {
        if let Shape::Made(_) = cells.shape(code, term_at(list, place)) {
            return true;
        }
    }
    false
}

// Binds the string to these items, where it stands in none of them.
fn bind_items(
    cells: &mut Cells,
    code: &[u32],
    string: Term,
    items: &[Term],
) -> Result<bool, NoMemory> {
    let variable = match cells.shape(code, string) {
        Shape::Free(variable) => variable,
        Shape::Made(made) => return Ok(made.name == STRING && made.parts == 0 && items.is_empty()),
    };
    for term in items {
        if let Shape::Made(made) = cells.shape(code, *term) {
            if cells.occurs(code, variable, made)? {
                return Ok(false);
            }
        }
    }
    match cells.string_of(code, items)? {
        None => Ok(false),
        Some(place) => {
            cells.bind(variable, place)?;
            Ok(true)
        }
    }
}

// Binds the string to the item and a new string behind it.
fn bind_begin(cells: &mut Cells, code: &[u32], string: Term, item: Term) -> Result<bool, NoMemory> {
    match cells.variables(1)? {
        None => Ok(false),
        Some(rest) => bind_items(cells, code, string, &[item, cell(rest)]),
    }
}
