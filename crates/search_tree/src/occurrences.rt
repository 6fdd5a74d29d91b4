//! Which variables the literals of clauses have. Of the goals of an extension, one with a variable
//! that the connected literal lacks is the same as no goal above it: the variable is new and not
//! bound, and no goal above has it.

ghost use Rattle.std.specs.Prelude.{◌≡◌, ◌≤◌, OnOk, length};
ghost use Rattle.store_theory.specs.Patterns.{pattern_list_size, pattern_size, patterns_tree};
ghost use Rattle.term_store.specs.PatternView.{the_pattern};

use cop_base::{ClauseId, NoMemory};
use std::alloc::Global;
use term_store::{Pattern, PatternAtom, Patterns, Template};

// How many variables of a clause have a bit.
const BITS: u32 = 64;

// The bit of the variable, if it has one.
fn bit_of(variable: u32) -> u64 {
    if variable < BITS {
        return 1 << variable;
    }
    0
}

// The bits of the variables that occur in the pattern.
#[cycle(bits)]
fn bits_in(pattern: &Pattern) -> u64 {
    match pattern {
        Pattern::Var(k) => bit_of(*k),
        Pattern::Fun(_, parts) => bits_in_all(parts),
        Pattern::Eigen(_, parts) => bits_in_all(parts),
        Pattern::New(_, parts) => bits_in_all(parts),
    }
}

// The bits of the variables that occur in the patterns.
#[cycle(bits)]
#[tactic(auto, using(term_store::specs::PatternFalls::falling))]
fn bits_in_all(patterns: &Patterns) -> u64 {
    let mut bits = 0;
    for pattern in patterns.items() {
        bits |= bits_in(pattern);
    }
    bits
}

/// The bits of the literals of the clauses that were extended by.
#[derive(Drop)]
pub(crate) struct Occurrences {
    // Where the bits of the literals of each clause begin, once they are there.
    starts: Vec<Option<usize>>,
    bits: Vec<u64>,
}

impl Occurrences {
    /// None are there.
    pub fn new(alloc: Global) -> Occurrences {
        Occurrences {
            starts: Vec::new(alloc),
            bits: Vec::new(alloc),
        }
    }

    // Makes places for so many clauses.
    fn grow(&mut self, count: usize) -> Result<(), NoMemory>
        ensures { OnOk result (count ≤ length self.new.starts.items) }
    {
        while self.starts.len() < count {
            self.starts.push(None)?;
        }
        Ok(())
    }

    // Appends the bits of the literals. They begin at the answer.
    fn add(&mut self, literals: &[PatternAtom]) -> Result<usize, NoMemory>
        ensures { self.new.starts ≡ self.old.starts }
    {
        let start = self.bits.len();
        for literal in literals {
            self.bits.push(bits_in_all(&literal.args))?;
        }
        Ok(start)
    }

    /// The literals of the template, which is that of the clause, beside the connected one.
    pub(crate) fn others(
        &mut self,
        clause: ClauseId,
        template: &Template,
        connected: u32,
    ) -> Result<Others<'_>, NoMemory> {
        let number = clause.0 as usize;
        self.grow(number + 1)?;
        let start = match self.starts[number] {
            Some(start) => start,
            None => {
                let start = self.add(template.literals.items())?;
                self.starts[number] = Some(start);
                start
            }
        };
        Ok(Others {
            bits: self.bits.as_slice(),
            start,
            connected: connected as usize,
        })
    }
}

/// The literals of a clause beside the connected one.
#[derive(Clone, Copy)]
pub(crate) struct Others<'a> {
    bits: &'a [u64],
    // Where the bits of the clause begin.
    start: usize,
    connected: usize,
}

impl Others<'_> {
    // The bits of the literal of this number of the clause.
    fn bits_at(&self, literal: usize) -> u64 {
        let place = self.start.saturating_add(literal);
        if place < self.bits.len() {
            return self.bits[place];
        }
        0
    }

    /// Whether the literal of this number may give a goal that is the same as one above it, since it
    /// has no variable of its own.
    pub(crate) fn may_repeat(&self, literal: usize) -> bool {
        let connected = self.bits_at(self.connected);
        self.bits_at(literal) | connected == connected
    }
}
