//! Where a search stands: goals that are open, points at which choices are left, and what they are read by.

use crate::cells::{Cells, Moment};
use crate::flat::{Flat, Literal};
use crate::numbers::{NONE, count};
use crate::record::{Chain, Records};
use crate::solving::Solver;
use crate::strategy::Strategy;
use crate::term::Term;
use crate::words::{Lengths, Words};
use cop_base::{NoMemory, PathLimit};
use std::alloc::Global;

/// A choice is a literal, or the number of an ancestor and this.
pub(crate) const ANCESTOR: u32 = 1 << 31;

/// A goal: a literal of a clause whose variables are the cells from `base` on; the goal above it and how many there
/// are; the rows of these and its own as bits; its point while it is worked at; the choice that closes it, the first
/// of the goals that this gave, and the first variable of their clause.
#[derive(Clone, Copy)]
pub(crate) struct Goal {
    pub(crate) literal: u32,
    pub(crate) base: u32,
    pub(crate) above: u32,
    pub(crate) depth: u32,
    pub(crate) rows: u64,
    pub(crate) point: u32,
    pub(crate) how: u32,
    pub(crate) first: u32,
    pub(crate) copy: u32,
}

/// What is open, in a list.
#[derive(Clone, Copy)]
pub(crate) enum Link {
    /// The goal of this point is solved.
    Solved {
        point: u32,
        next: u32,
    },
    /// So many goals from `first` on, but those that were taken.
    Goals {
        first: u32,
        goals: u32,
        taken: u64,
        next: u32,
    },
}

/// A goal that is worked at, with the tries that are left; or, where there is a record, a moment after which this
/// is known of the point `goal`.
#[derive(Clone, Copy)]
pub(crate) struct Point {
    pub(crate) goal: u32,
    pub(crate) moment: Moment,
    pub(crate) goals: u32,
    pub(crate) links: u32,
    pub(crate) solved: u32,
    pub(crate) tries: u32,
    pub(crate) next: u32,
    pub(crate) end: u32,
    pub(crate) chain: Chain,
    pub(crate) record: u32,
}

// Where the search stands: before the first start, with this list open, or back at the last point.
#[derive(Clone, Copy)]
pub(crate) enum State {
    Open(u32),
    Back,
}

/// A search by a strategy.
#[derive(Drop)]
pub(crate) struct Search {
    pub(crate) alloc: Global,
    pub(crate) strategy: Strategy,
    pub(crate) limit: u32,
    pub(crate) max_limit: u32,
    pub(crate) lengths: Option<Lengths>,
    pub(crate) next_start: u32,
    pub(crate) start: u32,
    pub(crate) start_base: u32,
    pub(crate) start_goals: u32,
    pub(crate) left: bool,
    // the looks of the cells when it last went on
    pub(crate) began: u64,
    pub(crate) state: State,
    pub(crate) cells: Cells,
    pub(crate) words: Words,
    pub(crate) solver: Solver,
    pub(crate) records: Records,
    pub(crate) goals: Vec<Goal>,
    pub(crate) links: Vec<Link>,
    pub(crate) points: Vec<Point>,
    pub(crate) tries: Vec<u32>,
}

impl Search {
    /// A search of the limits from 1 to `max_limit`. The lengths are those of strings, where there are labels.
    pub fn new(
        alloc: Global,
        strategy: Strategy,
        max_limit: PathLimit,
        lengths: Option<Lengths>,
    ) -> Search {
        Search {
            alloc,
            strategy,
            limit: 1,
            max_limit: u32::from(max_limit.number),
            lengths,
            next_start: 0,
            start: 0,
            start_base: 0,
            start_goals: 0,
            left: false,
            began: 0,
            state: State::Back,
            cells: Cells::new(alloc),
            words: Words::new(alloc),
            solver: Solver::new(alloc),
            records: Records::new(alloc),
            goals: Vec::new(alloc),
            links: Vec::new(alloc),
            points: Vec::new(alloc),
            tries: Vec::new(alloc),
        }
    }

    /// How many steps it went since it last went on.
    pub fn looks(&self) -> u64 {
        self.cells.looks().saturating_sub(self.began)
    }

    /// The path limit at work.
    pub fn limit(&self) -> u8 {
        match u8::try_from(self.limit) {
            Ok(number) => number,
            Err(_) => u8::MAX,
        }
    }

    pub(crate) fn goal(&self, number: u32) -> Goal {
        match self.goals.get(number as usize) {
            Some(goal) => *goal,
            None => Goal {
                literal: NONE,
                base: 0,
                above: NONE,
                depth: 0,
                rows: 0,
                point: NONE,
                how: ANCESTOR,
                first: NONE,
                copy: 0,
            },
        }
    }

    pub(crate) fn link(&mut self, link: Link) -> Result<u32, NoMemory> {
        let number = count(self.links.len());
        self.links.push(link)?;
        Ok(number)
    }

    pub(crate) fn argument(&self, flat: &Flat, goal: Goal, literal: Literal, number: u32) -> Term {
        Term {
            handle: flat.argument(literal, number),
            base: goal.base,
        }
    }

    // Two labels are to be equal; false where that cannot be.
    pub(crate) fn equate(
        &mut self,
        flat: &Flat,
        left: Term,
        right: Term,
    ) -> Result<bool, NoMemory> {
        let lengths = match self.lengths {
            None => return Ok(true),
            Some(lengths) => lengths,
        };
        self.cells.equate(left, right)?;
        if !self.strategy.labels {
            return Ok(true);
        }
        self.words.propagate(&mut self.cells, &flat.code, lengths)
    }
}

// The label of the literal in a clause whose variables are the cells from `base` on.
pub(crate) fn label_of(literal: Literal, base: u32) -> Term {
    Term {
        handle: literal.label,
        base,
    }
}
