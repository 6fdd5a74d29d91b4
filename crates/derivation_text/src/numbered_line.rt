//! The lines after the head of a text of version 2, and their order.

ghost use Rattle.std.specs.Prelude.{◌≡◌, ◌-◌, ◌^◌, ◌<◌, suc};
ghost use Rattle.calculus.specs.Derivations as derivation;
ghost use Rattle.calculus.specs.Syntax as tree;
ghost use Rattle.calculus.specs.Versions.{is_among, numbered_home_is_written};
ghost use Rattle.derivation_text.specs.Listed.{are_listed, is_arg_listed, is_modal_listed};
ghost use Rattle.derivation_text.specs.NumberedBody.{at_part, goes_on, is_behind};
ghost use Rattle.derivation_text.specs.NumberedBody.{label_of, last_eigen, last_line, last_spare, numbered_stage_after};
ghost use Rattle.derivation_text.specs.NumberedBody.{takes_labels, takes_terms, term_of, the_numbered_line};
ghost use Rattle.derivation_text.specs.NumbersView.{the_numbered_arg, the_numbered_modal, the_numbered_step};

use crate::numbers::{NumberedModal, NumberedStep, NumberedTerm};
use formula_text::TermRow;
use logic_rules::Label;

/// A line after the head.
#[derive(Drop)]
pub enum NumberedLine {
    Label(u32, Label),
    Eigen(u32, u32),
    Spare(u32, Option<u32>),
    Term(u32, TermRow),
    Step(NumberedStep),
    End,
}

/// Which lines may follow. Names carry their number, since numbers rise; reading starts at `Labels`.
#[derive(Clone, Copy, Debug, PartialEq, Eq)]
pub enum Part {
    Labels,
    Eigens(u32),
    Spares(u32),
    Terms,
    Steps,
    Ended,
}

/// What was read: how many labels and terms are stated, and what the last line was.
#[derive(Clone, Copy, Debug, PartialEq, Eq)]
pub struct NumberedStage {
    pub labels: u32,
    pub terms: u32,
    pub part: Part,
}

// One number more.
fn one_more(n: u32) -> u32
    requires { n < 2 ^ 32 - 1 }
    ensures { result ≡ suc n }
{
    n + 1
}

// Whether the number is one of so many things.
fn is_among(count: u32, number: u32) -> bool
    ensures { result ≡ is_among count number }
{
    1 <= number && number <= count
}

fn is_home_stated(labels: u32, home: Option<u32>) -> bool
    ensures { result ≡ numbered_home_is_written labels home }
{
    match home {
        Some(number) => is_among(labels, number),
        None => true,
    }
}

fn is_modal_stated(labels: u32, modal: NumberedModal) -> bool
    ensures { result ≡ is_modal_listed labels (the_numbered_modal modal) }
{
    match modal {
        NumberedModal::To(number) => is_among(labels, number),
        NumberedModal::None | NumberedModal::New(_) => true,
    }
}

fn is_term_stated(terms: u32, term: NumberedTerm) -> bool
    ensures { result ≡ is_arg_listed terms (the_numbered_arg term) }
{
    match term {
        NumberedTerm::Term(number) => is_among(terms, number),
        NumberedTerm::None | NumberedTerm::Name(_) => true,
    }
}

fn is_step_stated(labels: u32, terms: u32, step: NumberedStep) -> bool
    ensures { result ≡ are_listed labels terms (the_numbered_step step) }
{
    match step {
        NumberedStep::Use {
            entry: _,
            modal,
            term,
        } => is_modal_stated(labels, modal) && is_term_stated(terms, term),
        NumberedStep::Axiom { given: _, shown: _ } => true,
    }
}

// The number after which that of an eigenvariable comes, where one may stand.
fn last_eigen(part: Part) -> Option<u32>
    ensures { result ≡ last_eigen part }
{
    match part {
        Part::Labels => Some(0),
        Part::Eigens(last) => Some(last),
        Part::Spares(_) | Part::Terms | Part::Steps | Part::Ended => None,
    }
}

// The same of a spare constant.
fn last_spare(part: Part) -> Option<u32>
    ensures { result ≡ last_spare part }
{
    match part {
        Part::Labels | Part::Eigens(_) => Some(0),
        Part::Spares(last) => Some(last),
        Part::Terms | Part::Steps | Part::Ended => None,
    }
}

// Whether a number comes after the last one, where any may stand.
fn is_behind(last: Option<u32>, number: u32) -> bool
    ensures { result ≡ is_behind last number }
{
    match last {
        Some(last) => last < number,
        None => false,
    }
}

/// Whether a line of a label may stand next.
pub fn takes_labels(part: Part) -> bool
    ensures { result ≡ takes_labels part }
{
    match part {
        Part::Labels => true,
        Part::Eigens(_) | Part::Spares(_) | Part::Terms | Part::Steps | Part::Ended => false,
    }
}

/// Whether a line of a term may.
pub fn takes_terms(part: Part) -> bool
    ensures { result ≡ takes_terms part }
{
    match part {
        Part::Labels | Part::Eigens(_) | Part::Spares(_) | Part::Terms => true,
        Part::Steps | Part::Ended => false,
    }
}

// Whether the text goes on.
fn goes_on(part: Part) -> bool
    ensures { result ≡ goes_on part }
{
    match part {
        Part::Labels | Part::Eigens(_) | Part::Spares(_) | Part::Terms | Part::Steps => true,
        Part::Ended => false,
    }
}

// The stage at a part, where a line may stand there.
fn at_part(stage: NumberedStage, stands: bool, part: Part) -> Option<NumberedStage>
    ensures { result ≡ at_part stage stands part }
{
    if stands {
        Some(NumberedStage {
            labels: stage.labels,
            terms: stage.terms,
            part,
        })
    } else {
        None
    }
}

fn after_label(stage: NumberedStage, number: u32) -> Option<NumberedStage>
    requires { stage.labels < 2 ^ 32 - 1 }
    ensures { (w : derivation.Label) → result ≡ numbered_stage_after stage (label_of number w) }
{
    let next = one_more(stage.labels);
    if takes_labels(stage.part) && number == next {
        Some(NumberedStage {
            labels: next,
            terms: stage.terms,
            part: Part::Labels,
        })
    } else {
        None
    }
}

fn after_term(stage: NumberedStage, number: u32) -> Option<NumberedStage>
    requires { stage.terms < 2 ^ 32 - 1 }
    ensures { (t : tree.Term) → result ≡ numbered_stage_after stage (term_of number t) }
{
    let next = one_more(stage.terms);
    if takes_terms(stage.part) && number == next {
        Some(NumberedStage {
            labels: stage.labels,
            terms: next,
            part: Part::Terms,
        })
    } else {
        None
    }
}

fn after_end(stage: NumberedStage) -> Option<NumberedStage>
    ensures { result ≡ numbered_stage_after stage last_line }
{
    if goes_on(stage.part) {
        Some(NumberedStage {
            labels: 0,
            terms: 0,
            part: Part::Ended,
        })
    } else {
        None
    }
}

/// The stage after one line more, if it may stand there. There are fewer than 2^32 - 1 labels and terms so far.
pub fn numbered_stage_after(stage: NumberedStage, line: &NumberedLine) -> Option<NumberedStage>
    requires labels { stage.labels < 2 ^ 32 - 1 }
    requires terms { stage.terms < 2 ^ 32 - 1 }
    ensures { result ≡ numbered_stage_after stage (the_numbered_line line.now) }
{
    match line {
        NumberedLine::Label(number, _) => after_label(stage, *number),
        NumberedLine::Eigen(number, home) => at_part(
            stage,
            is_behind(last_eigen(stage.part), *number) && is_among(stage.labels, *home),
            Part::Eigens(*number),
        ),
        NumberedLine::Spare(number, home) => at_part(
            stage,
            is_behind(last_spare(stage.part), *number) && is_home_stated(stage.labels, *home),
            Part::Spares(*number),
        ),
        NumberedLine::Term(number, _) => after_term(stage, *number),
        NumberedLine::Step(step) => at_part(
            stage,
            goes_on(stage.part) && is_step_stated(stage.labels, stage.terms, *step),
            Part::Steps,
        ),
        NumberedLine::End => after_end(stage),
    }
}
