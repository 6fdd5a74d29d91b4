//! What a search found: its lines, and what its labels ask, solved.

use crate::flat::Flat;
use crate::numbers::NONE;
use crate::state::{ANCESTOR, Goal, Search};
use crate::words::Lengths;
use cop_base::NoMemory;

/// A line of the tableau: a reduction by so many goals up, or a clause, by the place of its literal, whose variables
/// are the cells from `base` on.
#[derive(Clone, Copy)]
pub(crate) enum Line {
    Reduce(u32),
    Extend { place: u32, clause: u32, base: u32 },
}

impl Search {
    /// The lines of what was found: the start clause, and what closes the goals, as they stand in their clauses, from
    /// left to right.
    pub fn lines(&self, flat: &Flat) -> Result<Vec<Line>, NoMemory> {
        let mut lines = Vec::new(self.alloc);
        let mut waiting = Vec::new(self.alloc);
        lines.push(Line::Extend {
            place: NONE,
            clause: self.start,
            base: self.start_base,
        })?;
        push_goals(&mut waiting, 0, self.start_goals)?;
        for _i in 0..=self.goals.len() {
            match waiting.pop() {
                None => return Ok(lines),
                Some(number) => {
                    let goal = self.goal(number);
                    lines.push(self.line(flat, goal))?;
                    if goal.how < ANCESTOR {
                        let clause = flat.literal(goal.how).clause;
                        let others = flat.clause(clause).literals.saturating_sub(1);
                        push_goals(&mut waiting, goal.first, others)?;
                    }
                }
            }
        }
        Ok(lines)
    }

    // What closes the goal.
    fn line(&self, flat: &Flat, goal: Goal) -> Line {
        if goal.how >= ANCESTOR {
            let above = self.goal(goal.how.wrapping_sub(ANCESTOR));
            return Line::Reduce(goal.depth.wrapping_sub(above.depth));
        }
        let literal = flat.literal(goal.how);
        Line::Extend {
            place: literal.place,
            clause: literal.clause,
            base: goal.copy,
        }
    }

    /// Solves what the labels ask; false where that is not done. Strings that are left may be empty.
    pub fn solve(&mut self, flat: &Flat) -> Result<bool, NoMemory> {
        match self.lengths {
            None => Ok(true),
            Some(lengths) => {
                let moment = self.cells.moment();
                if self.solve_by(flat, lengths)? {
                    return Ok(true);
                }
                self.cells.undo(moment);
                let mut others = lengths;
                others.long_first = !lengths.long_first;
                self.solve_by(flat, others)
            }
        }
    }

    fn solve_by(&mut self, flat: &Flat, lengths: Lengths) -> Result<bool, NoMemory> {
        self.solver
            .solve(&mut self.cells, &mut self.words, &flat.code, lengths)
    }
}

// The goals from `first` on, the first one on top.
fn push_goals(waiting: &mut Vec<u32>, first: u32, goals: u32) -> Result<(), NoMemory> {
    for number in 0..goals {
        let last = goals.wrapping_sub(number).wrapping_sub(1);
        waiting.push(first.wrapping_add(last))?;
    }
    Ok(())
}
