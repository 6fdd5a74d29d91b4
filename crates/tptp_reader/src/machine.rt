//! Where a text can go on: its tokens one by one, against a stack of what is expected.

ghost use Rattle.std.specs.Prelude.{◌≡◌, ◌++◌, ◌∷◌, ◌≤◌, [], IfOk, IfSome, OnOk, false, true, not, length};
ghost use Rattle.tptp_reader.specs.Expecting as way;
ghost use Rattle.tptp_reader.specs.ExpectedView.{the_expected, the_parts, the_rest};
ghost use Rattle.tptp_reader.specs.Following.{AreWithin, found, closing, is_open, stack_after, stack_now, stack_of, the_bracket, told};
ghost use Rattle.tptp_reader.specs.TerminalView.{the_terminal};

use crate::expected::{Expected, Fixed, Move, Parts, Rest};
use crate::moves::next_move;
use crate::terminal::Terminal;
use cop_base::NoMemory;
use std::alloc::{AllocFailed, Global};

/// What a token does.
#[derive(Clone, Copy)]
pub enum Step {
    Onward,
    /// It stands in more than 500 brackets, negations, quantifiers and modal operators.
    TooDeep,
    /// It cannot stand here.
    Stuck,
}

/// What is expected.
#[derive(Drop)]
pub struct Machine {
    // The first is expected last.
    expected: Vec<Expected>,
    // Whether notes are expected before all else.
    in_notes: bool,
    // The brackets of the notes that wait to be closed, the last one last; whether they are round.
    waiting: Vec<bool>,
}

// What the token begins, in the place of the last part that may not be left out or of one behind it, and how many parts
// stay below.
fn find_move(modal: bool, expected: &[Expected], x: Terminal) -> Option<(usize, Move)>
    requires { AreWithin 501 (stack_of expected.now) }
    ensures found { found expected.now result ≡ way.step modal (stack_of expected.now) (the_terminal x.entry) }
    ensures within { IfSome result (λ r. r.0 ≤ length expected.now) }
{
    let mut depth = expected.len();
    while depth > 0 {
        let part = expected[depth - 1];
        if let Some(next) = next_move(modal, part, x) {
            return Some((depth - 1, next));
        }
        if !part.is_optional() {
            return None;
        }
        depth -= 1;
    }
    None
}

impl Machine {
    pub fn new(alloc: Global) -> Machine
        ensures no_notes { result.in_notes ≡ false }
        ensures empty { result.expected.items ≡ [] }
    {
        Machine {
            expected: Vec::new(alloc),
            in_notes: false,
            waiting: Vec::new(alloc),
        }
    }

    /// A part that is expected before all others.
    #[tactic(auto, using(crate::proofs::StackViews::stacking))]
    pub fn push(&mut self, part: Expected) -> Result<(), NoMemory>
        ensures pushed { OnOk result (stack_of self.new.expected.items ≡ the_expected part ∷ stack_of self.old.expected.items) }
        ensures notes { self.new.in_notes ≡ self.old.in_notes }
    {
        self.expected.push(part)?;
        Ok(())
    }

    // This part, the dot behind it, and further items.
    fn push_end(&mut self, last: Expected) -> Result<(), NoMemory>
        ensures pushed { OnOk result (stack_of self.new.expected.items
            ≡ the_expected last ∷ way.this way.a_dot 0 ∷ way.items
            ∷ stack_of self.old.expected.items) }
        ensures notes { self.new.in_notes ≡ self.old.in_notes }
    {
        self.push(Expected::Items)?;
        self.push(Expected::This(Fixed::Dot, 0))?;
        self.push(last)
    }

    // An item from behind its first word on.
    fn push_head(&mut self, body: Expected) -> Result<(), NoMemory>
        ensures pushed { OnOk result (stack_of self.new.expected.items ≡ way.head_of (the_expected body) ++ stack_of self.old.expected.items) }
        ensures notes { self.new.in_notes ≡ self.old.in_notes }
    {
        self.push_end(Expected::AfterBody)?;
        self.push(body)?;
        self.push(Expected::This(Fixed::Comma, 0))?;
        self.push(Expected::This(Fixed::Lower, 0))?;
        self.push(Expected::This(Fixed::Comma, 0))?;
        self.push(Expected::Name)?;
        self.push(Expected::This(Fixed::Opening, 0))
    }

    // An include from behind its first word on.
    fn push_include(&mut self) -> Result<(), NoMemory>
        ensures pushed { OnOk result (stack_of self.new.expected.items ≡ the_parts Parts.Include ++ stack_of self.old.expected.items) }
        ensures notes { self.new.in_notes ≡ self.old.in_notes }
    {
        self.push_end(Expected::IncludeRest)?;
        self.push(Expected::This(Fixed::Quoted, 0))?;
        self.push(Expected::This(Fixed::Opening, 0))
    }

    // Notes, with these brackets open.
    fn begin_notes(&mut self, round: Option<bool>) -> Result<(), NoMemory>
        ensures begun { OnOk result (stack_now self.new ≡ way.notes (the_bracket round) ∷ stack_of self.old.expected.items) }
    {
        self.in_notes = true;
        self.waiting.clear();
        if let Some(round) = round {
            self.waiting.push(round)?;
        }
        Ok(())
    }

    // What is expected behind the parts of a move.
    fn push_rest(&mut self, nesting: u32, rest: Rest) -> Result<(), NoMemory>
        ensures pushed { OnOk result (stack_of self.new.expected.items ≡ the_rest nesting rest ++ stack_of self.old.expected.items) }
        ensures notes { self.new.in_notes ≡ self.old.in_notes }
    {
        match rest {
            Rest::Nothing => Ok(()),
            Rest::Formula => self.push(Expected::FormulaRest(nesting)),
            Rest::Literals => self.push(Expected::LiteralsRest(nesting)),
            Rest::Clause => self.push(Expected::ClauseRest),
        }
    }

    fn push_parts(&mut self, parts: Parts) -> Result<(), NoMemory>
        requires { self.old.in_notes ≡ false }
        ensures { OnOk result (stack_now self.new ≡ the_parts parts ++ stack_of self.old.expected.items) }
    {
        match parts {
            Parts::Nothing => Ok(()),
            Parts::One(a) => self.push(a),
            Parts::Two(a, b) => {
                self.push(b)?;
                self.push(a)
            }
            Parts::Three(a, b, c) => {
                self.push(c)?;
                self.push(b)?;
                self.push(a)
            }
            Parts::Four(a, b, c, d) => {
                self.push(d)?;
                self.push(c)?;
                self.push(b)?;
                self.push(a)
            }
            Parts::Head(body) => self.push_head(body),
            Parts::Include => self.push_include(),
            Parts::Notes => self.begin_notes(None),
            Parts::NotesIn(round) => self.begin_notes(Some(round)),
        }
    }

    // A bracket that closes within notes.
    fn close(&mut self, round: bool) -> Result<Step, NoMemory>
        requires { self.old.in_notes ≡ true }
        ensures told { IfOk result (λ s. s ≡ told (way.step false (stack_now self.old) (closing round))) }
        ensures after { IfOk result (λ s. stack_now self.new ≡ stack_after (way.step false (stack_now self.old) (closing round)) (stack_now self.old)) }
    {
        match self.waiting.pop() {
            Some(open) => {
                if open == round {
                    return Ok(Step::Onward);
                }
                self.waiting.push(open)?;
                Ok(Step::Stuck)
            }
            None => {
                if !round {
                    return Ok(Step::Stuck);
                }
                self.in_notes = false;
                Ok(Step::Onward)
            }
        }
    }

    // A token within notes.
    fn step_in_notes(&mut self, modal: bool, x: Terminal) -> Result<Step, NoMemory>
        requires { self.old.in_notes ≡ true }
        ensures told { IfOk result (λ s. s ≡ told (way.step modal (stack_now self.old) (the_terminal x.entry))) }
        ensures after { IfOk result (λ s. stack_now self.new ≡ stack_after (way.step modal (stack_now self.old) (the_terminal x.entry)) (stack_now self.old)) }
    {
        match x {
            Terminal::OpenRound => self.waiting.push(true)?,
            Terminal::OpenSquare => self.waiting.push(false)?,
            Terminal::CloseRound => return self.close(true),
            Terminal::CloseSquare => return self.close(false),
            _ => {}
        }
        Ok(Step::Onward)
    }

    /// Takes the token, where it can stand here and is not too deep; else nothing changes.
    pub fn step(&mut self, modal: bool, x: Terminal) -> Result<Step, NoMemory>
        requires { AreWithin 501 (stack_now self.old) }
        ensures told { IfOk result (λ s. s ≡ told (way.step modal (stack_now self.old) (the_terminal x.entry))) }
        ensures after { IfOk result (λ s. stack_now self.new ≡ stack_after (way.step modal (stack_now self.old) (the_terminal x.entry)) (stack_now self.old)) }
    {
        if self.in_notes {
            return self.step_in_notes(modal, x);
        }
        let Some((kept, next)) = find_move(modal, self.expected.as_slice(), x) else {
            return Ok(Step::Stuck);
        };
        if next.nesting > 500 {
            return Ok(Step::TooDeep);
        }
        self.expected.truncate(kept);
        self.push_rest(next.nesting, next.rest)?;
        self.push_parts(next.parts)?;
        Ok(Step::Onward)
    }

    /// Nothing is expected.
    pub fn is_empty(&self) -> bool
        ensures { result ≡ not (is_open (stack_now self.now)) }
    {
        !self.in_notes && self.expected.as_slice().is_empty()
    }

    /// An item may begin, and nothing else is expected.
    pub fn is_at_item(&self) -> bool
        ensures { result ≡ way.is_at_item (stack_now self.now) }
    {
        if self.in_notes {
            return false;
        }
        is_item_alone(self.expected.as_slice())
    }

    /// The next token stands in a formula, or right behind it.
    pub fn is_in_body(&self) -> bool
        ensures { result ≡ way.is_in_body (stack_now self.now) }
    {
        if self.in_notes {
            return false;
        }
        is_body(self.expected.as_slice())
    }
}

fn is_item_alone(expected: &[Expected]) -> bool
    ensures { result ≡ way.is_at_item (stack_of expected.now) }
{
    if expected.len() == 1 {
        return expected[0].is_items();
    }
    false
}

// Parts of a formula, and then what follows it.
fn is_body(expected: &[Expected]) -> bool
    ensures { result ≡ way.is_in_body (stack_of expected.now) }
{
    let mut depth = expected.len();
    while depth > 0 {
        let part = expected[depth - 1];
        if part.is_after_body() {
            return true;
        }
        if !part.is_part() {
            return false;
        }
        depth -= 1;
    }
    false
}
