//! Solutions of a goal after which the goals behind it failed: what they bound of the variables that were there
//! before the goal was taken up.

use crate::cells::{Cells, HEAD, Moment};
use crate::numbers::{NONE, count, item};
use crate::term::{Shape, Term, cell};
use cop_base::NoMemory;
use std::alloc::Global;

// The most words of all records, of one record, and variables of its own.
const MAX_WORDS: usize = 1 << 22;

const LONGEST: usize = 400;

const MAX_OWN: usize = 64;

/// The records of a goal: the last one, where the generation is the one at work.
#[derive(Clone, Copy)]
pub(crate) struct Chain {
    pub generation: u32,
    pub last: u32,
}

// The words of a record, and the record before it of the same goal.
#[derive(Clone, Copy)]
struct Entry {
    start: u32,
    end: u32,
    before: u32,
}

/// All records. A record is a list of older variables, each with its term in preorder: a name with the number of
/// its parts, twice an older cell, or twice the number of a variable of its own and one more.
#[derive(Drop)]
pub(crate) struct Records {
    words: Vec<u32>,
    entries: Vec<Entry>,
    generation: u32,
    own: Vec<u32>,
    waiting: Vec<u32>,
}

impl Records {
    pub fn new(alloc: Global) -> Records {
        Records {
            words: Vec::new(alloc),
            entries: Vec::new(alloc),
            generation: 0,
            own: Vec::new(alloc),
            waiting: Vec::new(alloc),
        }
    }

    /// Forgets all.
    pub fn clear(&mut self) {
        self.words.clear();
        self.entries.clear();
        self.generation = self.generation.wrapping_add(1);
    }

    /// No record.
    pub fn none(&self) -> Chain {
        Chain {
            generation: self.generation,
            last: NONE,
        }
    }

    /// A record of what was bound since the moment of the variables that are older; nothing where it is too long.
    pub fn make(&mut self, cells: &Cells, moment: Moment) -> Result<Option<u32>, NoMemory> {
        if self.words.len() >= MAX_WORDS {
            self.clear();
        }
        let start = self.words.len();
        self.own.clear();
        for bound in cells.bound_since(moment) {
            if *bound < moment.cells {
                self.words.push(*bound)?;
                self.write(cells, *bound, moment)?;
                if self.words.len().saturating_sub(start) > LONGEST || self.own.len() > MAX_OWN {
                    self.words.truncate(start);
                    return Ok(None);
                }
            }
        }
        let number = count(self.entries.len());
        self.entries.push(Entry {
            start: count(start),
            end: count(self.words.len()),
            before: NONE,
        })?;
        Ok(Some(number))
    }

    // The number of a variable of the record's own.
    fn own_number(&mut self, place: u32) -> Result<u32, NoMemory> {
        for (number, own) in self.own.iter().enumerate() {
            if *own == place {
                return Ok(count(number));
            }
        }
        let number = count(self.own.len());
        self.own.push(place)?;
        Ok(number)
    }

    // Writes what stands for a cell.
    fn write(&mut self, cells: &Cells, place: u32, moment: Moment) -> Result<(), NoMemory> {
        self.waiting.clear();
        self.waiting.push(place)?;
        for _i in 0..LONGEST {
            match self.waiting.pop() {
                None => return Ok(()),
                Some(next) => match cells.shape(&[], cell(next)) {
                    Shape::Free(end) => {
                        let word = if end < moment.cells {
                            end.wrapping_mul(2)
                        } else {
                            let number = self.own_number(end)?;
                            number.wrapping_mul(2).wrapping_add(1)
                        };
                        self.words.push(word)?;
                    }
                    Shape::Made(made) => {
                        self.words.push(made.name | HEAD)?;
                        self.words.push(made.parts)?;
                        self.wait(made.first, made.parts)?;
                    }
                },
            }
        }
        // What is left makes it too long.
        for _i in 0..LONGEST {
            self.words.push(HEAD)?;
        }
        Ok(())
    }

    // The parts wait, the first one on top.
    fn wait(&mut self, first: u32, parts: u32) -> Result<(), NoMemory> {
        for number in 0..parts {
            let last = parts.wrapping_sub(number).wrapping_sub(1);
            self.waiting.push(first.wrapping_add(last))?;
        }
        Ok(())
    }

    /// Adds a record that was made to the chain.
    pub fn add(&mut self, chain: Chain, record: u32) -> Chain {
        let last = if chain.generation == self.generation {
            chain.last
        } else {
            NONE
        };
        match self.entries.get_mut(record as usize) {
            None => self.none(),
            Some(entry) => {
                entry.before = last;
                Chain {
                    generation: self.generation,
                    last: record,
                }
            }
        }
    }

    /// Whether what is bound now is an instance of a record of the chain.
    pub fn is_ruled_out(
        &mut self,
        cells: &mut Cells,
        code: &[u32],
        chain: Chain,
    ) -> Result<bool, NoMemory> {
        if chain.generation != self.generation {
            return Ok(false);
        }
        let mut record = chain.last;
        for _i in 0..self.entries.len() {
            let entry = match self.entries.get(record as usize) {
                Some(entry) => *entry,
                None => return Ok(false),
            };
            if self.is_instance(cells, code, entry)? {
                return Ok(true);
            }
            record = entry.before;
        }
        Ok(false)
    }

    fn is_instance(
        &mut self,
        cells: &mut Cells,
        code: &[u32],
        entry: Entry,
    ) -> Result<bool, NoMemory> {
        self.own.clear();
        for _i in 0..=MAX_OWN {
            self.own.push(NONE)?;
        }
        self.waiting.clear();
        let mut at = entry.start;
        for _i in entry.start..entry.end {
            let word = item(&self.words, at);
            at = at.wrapping_add(1);
            match self.waiting.pop() {
                None => self.waiting.push(word)?,
                Some(place) => {
                    if word >= HEAD {
                        let parts = item(&self.words, at);
                        at = at.wrapping_add(1);
                        if !self.takes_parts(cells, place, word, parts)? {
                            return Ok(false);
                        }
                    } else if !self.is_same(cells, code, place, word)? {
                        return Ok(false);
                    }
                }
            }
            if at >= entry.end {
                return Ok(true);
            }
        }
        Ok(true)
    }

    // Whether the cell has this name and so many parts, which wait then.
    fn takes_parts(
        &mut self,
        cells: &Cells,
        place: u32,
        word: u32,
        parts: u32,
    ) -> Result<bool, NoMemory> {
        match cells.shape(&[], cell(place)) {
            Shape::Free(_) => Ok(false),
            Shape::Made(made) => {
                if made.name | HEAD != word || made.parts != parts {
                    return Ok(false);
                }
                self.wait(made.first, parts)?;
                Ok(true)
            }
        }
    }

    // Whether the cell is what the word names: an older cell, or what an own variable has become.
    fn is_same(
        &mut self,
        cells: &mut Cells,
        code: &[u32],
        place: u32,
        word: u32,
    ) -> Result<bool, NoMemory> {
        let here: Term = cell(place);
        if word % 2 == 0 {
            return cells.are_same(code, cell(word / 2), here);
        }
        match self.own.get_mut((word / 2) as usize) {
            None => Ok(false),
            Some(own) => {
                if *own == NONE {
                    *own = place;
                    return Ok(true);
                }
                cells.are_same(code, cell(*own), here)
            }
        }
    }
}
