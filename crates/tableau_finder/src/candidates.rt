//! The goals of a clause in the order of their candidates, and the candidates of a goal.

use crate::flat::{Flat, Literal, bit_of, other_row};
use crate::numbers::{NONE, count};
use crate::state::{ANCESTOR, Goal, Link, Point, Search, label_of};
use crate::term::{Named, Term, UNCOPIED, name_of};
use cop_base::NoMemory;

// Clauses with more literals are taken in order: whether a goal was taken is a bit.
const MOST_BITS: u32 = 64;

impl Search {
    // Takes one of the goals that are left.
    pub(crate) fn take(
        &mut self,
        flat: &Flat,
        first: u32,
        goals: u32,
        taken: u64,
        next: u32,
    ) -> Result<(), NoMemory> {
        if goals > MOST_BITS {
            // In order; the bits count how many were taken.
            let place = count(taken as usize);
            let rest = if place.wrapping_add(1) >= goals {
                next
            } else {
                self.link(Link::Goals {
                    first,
                    goals,
                    taken: taken.wrapping_add(1),
                    next,
                })?
            };
            return self.open(flat, first.wrapping_add(place), rest);
        }
        let mut best = NONE;
        let mut fewest = NONE;
        let mut others: u32 = 0;
        for place in 0..goals {
            if taken & bit_of(place) == 0 {
                if best == NONE {
                    best = place;
                } else {
                    others = others.wrapping_add(1);
                }
            }
        }
        if self.strategy.fewest && others > 0 {
            for place in best..goals {
                if taken & bit_of(place) == 0 && fewest > 0 {
                    let found = self.candidates(flat, first.wrapping_add(place), fewest, false)?;
                    if found < fewest {
                        fewest = found;
                        best = place;
                    }
                }
            }
            if fewest == 0 {
                return Ok(());
            }
        }
        let rest = if others == 0 {
            next
        } else {
            self.link(Link::Goals {
                first,
                goals,
                taken: taken | bit_of(best),
                next,
            })?
        };
        self.open(flat, first.wrapping_add(best), rest)
    }

    // Makes a point of the goal, with all its candidates.
    fn open(&mut self, flat: &Flat, number: u32, rest: u32) -> Result<(), NoMemory> {
        if !self.is_path_new(flat, number)? {
            return Ok(());
        }
        let tries = count(self.tries.len());
        let _found = self.candidates(flat, number, NONE, true)?;
        let point = count(self.points.len());
        let solved = self.link(Link::Solved { point, next: rest })?;
        if let Some(goal) = self.goals.get_mut(number as usize) {
            goal.point = point;
        }
        self.points.push(Point {
            goal: number,
            moment: self.cells.moment(),
            goals: count(self.goals.len()),
            links: count(self.links.len()),
            solved,
            tries,
            next: tries,
            end: count(self.tries.len()),
            chain: self.records.none(),
            record: NONE,
        })?;
        Ok(())
    }

    // The number of candidates of the goal, as far as `most`. Where `put`, they become tries.
    fn candidates(
        &mut self,
        flat: &Flat,
        number: u32,
        most: u32,
        put: bool,
    ) -> Result<u32, NoMemory> {
        let goal = self.goal(number);
        let x = flat.literal(goal.literal);
        let row = other_row(x.row);
        let mut found: u32 = 0;
        let mut at = goal.above;
        if at != NONE && self.goal(at).rows & bit_of(row) != 0 {
            for _i in 0..goal.depth {
                let above = self.goal(at);
                let y = flat.literal(above.literal);
                if y.row == row && self.may_meet(flat, goal, x, y, above.base)? {
                    found = found.wrapping_add(1);
                    if put {
                        self.tries.push(at | ANCESTOR)?;
                    }
                    if found >= most {
                        return Ok(found);
                    }
                }
                at = above.above;
            }
        }
        let deep = goal.depth >= self.limit;
        if deep && self.left {
            return Ok(found);
        }
        let is_last = goal.depth.saturating_add(1) >= self.limit;
        for literal in flat.row(row, self.strategy.shortest) {
            if !deep && flat.needed(*literal, is_last) & !goal.rows != 0 {
                self.cells.look();
                self.left |= is_last;
                continue;
            }
            let y = flat.literal(*literal);
            if self.may_meet(flat, goal, x, y, UNCOPIED)? {
                if deep {
                    self.left = true;
                    return Ok(found);
                }
                found = found.wrapping_add(1);
                if put {
                    self.tries.push(*literal)?;
                }
                if found >= most {
                    return Ok(found);
                }
            }
        }
        Ok(found)
    }

    // Whether the goal's arguments may be those of the literal, whose variables stand from `base` on.
    fn may_meet(
        &mut self,
        flat: &Flat,
        goal: Goal,
        x: Literal,
        y: Literal,
        base: u32,
    ) -> Result<bool, NoMemory> {
        self.cells.look();
        for number in 0..x.arity {
            let handle = flat.argument(y, number);
            if base == UNCOPIED
                && let Named::Variable(_) = name_of(handle)
            {
                continue;
            }
            let left = Term { handle, base };
            let right = self.argument(flat, goal, x, number);
            if !self.cells.may_meet(&flat.code, left, right)? {
                return Ok(false);
            }
        }
        Ok(true)
    }

    // Whether the goal and those above it are all different.
    fn is_path_new(&mut self, flat: &Flat, number: u32) -> Result<bool, NoMemory> {
        let mut at = number;
        for _i in 0..=self.limit {
            if at == NONE {
                return Ok(true);
            }
            if !self.is_new(flat, at)? {
                return Ok(false);
            }
            at = self.goal(at).above;
        }
        Ok(true)
    }

    // Whether the goal is the same as none above it.
    pub(crate) fn is_new(&mut self, flat: &Flat, number: u32) -> Result<bool, NoMemory> {
        let goal = self.goal(number);
        let x = flat.literal(goal.literal);
        let mut at = goal.above;
        if at == NONE || self.goal(at).rows & bit_of(x.row) == 0 {
            return Ok(true);
        }
        for _i in 0..goal.depth {
            let above = self.goal(at);
            let y = flat.literal(above.literal);
            if x.row == y.row && self.are_same(flat, goal, x, above, y)? {
                return Ok(false);
            }
            at = above.above;
        }
        Ok(true)
    }

    fn are_same(
        &mut self,
        flat: &Flat,
        goal: Goal,
        x: Literal,
        above: Goal,
        y: Literal,
    ) -> Result<bool, NoMemory> {
        for number in 0..x.arity {
            let left = self.argument(flat, goal, x, number);
            let right = self.argument(flat, above, y, number);
            if !self.cells.are_same(&flat.code, left, right)? {
                return Ok(false);
            }
        }
        if !self.strategy.labels {
            return Ok(true);
        }
        let left = label_of(x, goal.base);
        let right = label_of(y, above.base);
        self.words
            .are_same(&mut self.cells, &flat.code, left, right)
    }
}
