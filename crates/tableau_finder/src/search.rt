//! The search, one step at a time: starts and limits, reductions and extensions, and back to the last point.

use crate::cells::Moment;
use crate::flat::{Flat, bit_of};
use crate::numbers::{NONE, count, item};
use crate::state::{ANCESTOR, Goal, Link, Point, Search, State, label_of};
use crate::term::Term;
use cop_base::NoMemory;

// The most goals.
const MAX_GOALS: usize = 1 << 20;

/// How a search ended for now.
#[derive(Clone, Copy, Debug, PartialEq, Eq)]
pub(crate) enum Ending {
    /// It has found choices; where it goes on it looks for others.
    Found,
    /// It has no choices left, within the greatest limit.
    Nothing,
    /// It may go on.
    Steps,
}

// What one step came to.
enum Went {
    On,
    Found,
    Failed,
}

impl Search {
    /// Goes on, by no more than about so many steps. A term that is looked at is a step.
    pub fn run(&mut self, flat: &Flat, steps: u64) -> Result<Ending, NoMemory> {
        self.began = self.cells.looks();
        for _i in 0..steps {
            if self.looks() >= steps {
                return Ok(Ending::Steps);
            }
            self.cells.look();
            match self.advance(flat)? {
                Went::On => {}
                Went::Found => return Ok(Ending::Found),
                Went::Failed => {
                    if !self.begin(flat)? {
                        return Ok(Ending::Nothing);
                    }
                }
            }
        }
        Ok(Ending::Steps)
    }

    // Begins with the next start, or with the next limit; `false` where there is none.
    fn begin(&mut self, flat: &Flat) -> Result<bool, NoMemory> {
        if self.next_start as usize >= flat.starts.len() {
            if !self.left || self.limit >= self.max_limit || flat.starts.len() == 0 {
                return Ok(false);
            }
            self.limit = self.limit.wrapping_add(1);
            self.left = false;
            self.next_start = 0;
        }
        self.start = item(&flat.starts, self.next_start);
        self.next_start = self.next_start.wrapping_add(1);
        self.cells.undo(Moment {
            cells: 0,
            trail: 0,
            equations: 0,
        });
        self.records.clear();
        self.goals.clear();
        self.links.clear();
        self.points.clear();
        self.tries.clear();
        let clause = flat.clause(self.start);
        self.start_goals = clause.literals;
        self.state = State::Back;
        if let Some(base) = self.cells.variables(clause.variables)? {
            self.start_base = base;
            let open = self.add_goals(flat, self.start, NONE, base, NONE, NONE)?;
            self.state = State::Open(open);
        }
        Ok(true)
    }

    // Adds the clause's goals below the goal `above`, all but its literal `but`, and opens them before the list.
    fn add_goals(
        &mut self,
        flat: &Flat,
        clause: u32,
        but: u32,
        base: u32,
        above: u32,
        next: u32,
    ) -> Result<u32, NoMemory> {
        let first = count(self.goals.len());
        let of = flat.clause(clause);
        let (depth, rows) = if above == NONE {
            (0, 0)
        } else {
            let goal = self.goal(above);
            (goal.depth.wrapping_add(1), goal.rows)
        };
        for place in 0..of.literals {
            let literal = of.first.wrapping_add(place);
            if literal != but {
                self.goals.push(Goal {
                    literal,
                    base,
                    above,
                    depth,
                    rows: rows | bit_of(flat.literal(literal).row),
                    point: NONE,
                    how: NONE,
                    first: NONE,
                    copy: 0,
                })?;
            }
        }
        let goals = count(self.goals.len()).wrapping_sub(first);
        if goals == 0 {
            return Ok(next);
        }
        self.link(Link::Goals {
            first,
            goals,
            taken: 0,
            next,
        })
    }

    // One step.
    fn advance(&mut self, flat: &Flat) -> Result<Went, NoMemory> {
        match self.state {
            State::Back => self.back(flat),
            State::Open(open) => {
                self.state = State::Back;
                match self.links.get(open as usize) {
                    None => Ok(Went::Found),
                    Some(link) => {
                        match *link {
                            Link::Solved { point, next } => self.solved(flat, point, next)?,
                            Link::Goals {
                                first,
                                goals,
                                taken,
                                next,
                            } => self.take(flat, first, goals, taken, next)?,
                        }
                        Ok(Went::On)
                    }
                }
            }
        }
    }

    // The goal of the point is solved, and the list is open.
    fn solved(&mut self, flat: &Flat, number: u32, next: u32) -> Result<(), NoMemory> {
        let point = match self.points.get(number as usize) {
            Some(point) => *point,
            None => return Ok(()),
        };
        if self.strategy.cut || (self.strategy.remember && self.is_free(point.moment)) {
            self.points.truncate(number as usize);
            self.state = State::Open(next);
            return Ok(());
        }
        if self.strategy.remember {
            if self
                .records
                .is_ruled_out(&mut self.cells, &flat.code, point.chain)?
            {
                return Ok(());
            }
            if let Some(record) = self.records.make(&self.cells, point.moment)? {
                let mut after = point;
                after.goal = number;
                after.record = record;
                after.chain = self.records.none();
                self.points.push(after)?;
            }
        }
        self.state = State::Open(next);
        Ok(())
    }

    // Whether nothing older was bound since the moment.
    fn is_free(&self, moment: Moment) -> bool {
        for bound in self.cells.bound_since(moment) {
            if *bound < moment.cells {
                return false;
            }
        }
        true
    }

    // Back to the last point, and its next try.
    fn back(&mut self, flat: &Flat) -> Result<Went, NoMemory> {
        let number = match self.points.len().checked_sub(1) {
            Some(number) => number,
            None => return Ok(Went::Failed),
        };
        let point = match self.points.get(number) {
            Some(point) => *point,
            None => return Ok(Went::Failed),
        };
        if point.record != NONE {
            self.points.truncate(number);
            if let Some(of) = self.points.get_mut(point.goal as usize) {
                of.chain = self.records.add(of.chain, point.record);
            }
            return Ok(Went::On);
        }
        self.cells.undo(point.moment);
        self.goals.truncate(point.goals as usize);
        self.links.truncate(point.links as usize);
        if point.next >= point.end {
            self.points.truncate(number);
            self.tries.truncate(point.tries as usize);
            return Ok(Went::On);
        }
        let choice = item(&self.tries, point.next);
        if let Some(here) = self.points.get_mut(number) {
            here.next = point.next.wrapping_add(1);
        }
        if choice >= ANCESTOR {
            self.reduce(flat, point, choice)?;
        } else {
            self.extend(flat, point, choice)?;
        }
        Ok(Went::On)
    }

    fn reduce(&mut self, flat: &Flat, point: Point, choice: u32) -> Result<(), NoMemory> {
        let goal = self.goal(point.goal);
        let above = self.goal(choice.wrapping_sub(ANCESTOR));
        let x = flat.literal(goal.literal);
        let y = flat.literal(above.literal);
        for number in 0..x.arity {
            let left = self.argument(flat, goal, x, number);
            let right = self.argument(flat, above, y, number);
            if !self.cells.unify(&flat.code, left, right)? {
                return Ok(());
            }
        }
        if !self.equate(flat, label_of(x, goal.base), label_of(y, above.base))? {
            return Ok(());
        }
        if self.is_ruled_out_above(flat, point.goal)? {
            return Ok(());
        }
        if let Some(here) = self.goals.get_mut(point.goal as usize) {
            here.how = choice;
        }
        self.state = State::Open(point.solved);
        Ok(())
    }

    fn extend(&mut self, flat: &Flat, point: Point, choice: u32) -> Result<(), NoMemory> {
        let goal = self.goal(point.goal);
        let x = flat.literal(goal.literal);
        let y = flat.literal(choice);
        let base = match self.cells.variables(flat.clause(y.clause).variables)? {
            Some(base) => base,
            None => return Ok(()),
        };
        for number in 0..x.arity {
            let left = Term {
                handle: flat.argument(y, number),
                base,
            };
            let right = self.argument(flat, goal, x, number);
            if !self.cells.unify(&flat.code, left, right)? {
                return Ok(());
            }
        }
        if self.goals.len() >= MAX_GOALS {
            return Ok(());
        }
        if !self.equate(flat, label_of(x, goal.base), label_of(y, base))? {
            return Ok(());
        }
        let first = count(self.goals.len());
        let open = self.add_goals(flat, y.clause, choice, base, point.goal, point.solved)?;
        for new in first..count(self.goals.len()) {
            if !self.is_new(flat, new)? {
                return Ok(());
            }
        }
        if self.is_ruled_out_above(flat, point.goal)? {
            return Ok(());
        }
        if let Some(here) = self.goals.get_mut(point.goal as usize) {
            here.how = choice;
            here.first = first;
            here.copy = base;
        }
        self.state = State::Open(open);
        Ok(())
    }

    // Whether what a goal that is worked at has bound so far is an instance of a solution that failed.
    fn is_ruled_out_above(&mut self, flat: &Flat, number: u32) -> Result<bool, NoMemory> {
        if !self.strategy.remember {
            return Ok(false);
        }
        let mut at = number;
        for _i in 0..=self.limit {
            if at == NONE {
                return Ok(false);
            }
            let goal = self.goal(at);
            if let Some(point) = self.points.get(goal.point as usize) {
                let chain = point.chain;
                if self
                    .records
                    .is_ruled_out(&mut self.cells, &flat.code, chain)?
                {
                    return Ok(true);
                }
            }
            at = goal.above;
        }
        Ok(false)
    }
}
