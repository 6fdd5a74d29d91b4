//! Solving what the labels of a tableau ask.

use crate::cells::{Cells, Moment};
use crate::term::Pair;
use crate::words::{Lengths, Words};
use cop_base::NoMemory;
use std::alloc::Global;

// The most ways that are tried, and the most terms that are looked at.
const MAX_WAYS: u32 = 1_000;

const MAX_LOOKS: u64 = 400_000;

/// A pair of labels for which several ways are tried.
#[derive(Clone, Copy)]
struct Fork {
    moment: Moment,
    pair: Pair,
    way: u32,
}

/// The pairs for which other ways are left.
#[derive(Drop)]
pub(crate) struct Solver {
    forks: Vec<Fork>,
}

impl Solver {
    pub fn new(alloc: Global) -> Solver {
        Solver {
            forks: Vec::new(alloc),
        }
    }

    /// Makes all pairs equal but for strings that may be empty; false where that is not done.
    pub fn solve(
        &mut self,
        cells: &mut Cells,
        words: &mut Words,
        code: &[u32],
        lengths: Lengths,
    ) -> Result<bool, NoMemory> {
        let began = cells.looks();
        self.forks.clear();
        let mut goes_on = words.propagate(cells, code, lengths)?;
        for _i in 0..MAX_WAYS {
            if cells.looks().saturating_sub(began) > MAX_LOOKS {
                return Ok(false);
            }
            if goes_on {
                match words.open(cells, code, lengths)? {
                    None => return Ok(true),
                    Some(number) => self.fork(cells, number)?,
                }
            }
            goes_on = match self.next(cells, words, code, lengths)? {
                None => return Ok(false),
                Some(done) => done && words.propagate(cells, code, lengths)?,
            };
        }
        Ok(false)
    }

    fn fork(&mut self, cells: &Cells, number: u32) -> Result<(), NoMemory> {
        let pair = match cells.equations.get(number as usize) {
            Some(pair) => *pair,
            None => return Ok(()),
        };
        self.forks.push(Fork {
            moment: cells.moment(),
            pair,
            way: 0,
        })?;
        Ok(())
    }

    // The next way of the last fork that has one; nothing where none has.
    fn next(
        &mut self,
        cells: &mut Cells,
        words: &mut Words,
        code: &[u32],
        lengths: Lengths,
    ) -> Result<Option<bool>, NoMemory> {
        for _i in 0..self.forks.len() {
            let fork = match self.forks.pop() {
                Some(fork) => fork,
                None => return Ok(None),
            };
            cells.undo(fork.moment);
            let tried = words.try_way(cells, code, lengths, fork.pair, fork.way)?;
            if let Some(done) = tried {
                self.forks.push(Fork {
                    moment: fork.moment,
                    pair: fork.pair,
                    way: fork.way.wrapping_add(1),
                })?;
                return Ok(Some(done));
            }
        }
        Ok(None)
    }
}
