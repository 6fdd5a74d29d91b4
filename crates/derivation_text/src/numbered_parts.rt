//! Reading the parts of lines of a text of version 2.

ghost use Rattle.std.specs.Prelude.{◌≡◌, ℕ, Err, IfOk, IfSome, IsNone, Option};
ghost use Rattle.calculus.specs.Syntax as tree;
ghost use Rattle.calculus.specs.Versions as numbers;
ghost use Rattle.derivation_text.specs.NumberedBody.{IsNewAndArg, IsNumberAndArg, IsNumberedArgs, IsNumberedHome, IsNumberedSpare, IsNumberedStep, IsNumberedTerm, IsNumberedUse, IsTermEntry};
ghost use Rattle.derivation_text.specs.NumbersView.{the_numbered_arg, the_numbered_modal, the_numbered_step};

use crate::numbers::{NumberedModal, NumberedStep, NumberedTerm};
use crate::step_reader::{read_number_pair, read_whole_row};
use formula_text::{TermRow, TextRead};
use logic_rules::Problem;
use std::alloc::Global;
use text_lines::{read_front_number, read_name_number, read_whole_number, rest_after};

// The home of a spare constant that is the whole text.
fn read_numbered_home(text: &[u8]) -> Option<Option<u32>>
    ensures some { IfSome result (λ h. IsNumberedHome text.now h) }
    ensures none { IsNone result → (h : Option ℕ) → ¬ IsNumberedHome text.now h }
{
    if text == b"any".as_slice() {
        return Some(None);
    }
    let number = read_whole_number(text)?;
    Some(Some(number))
}

/// The number and the home of a spare constant after `name $$s`.
pub fn read_numbered_spare(text: &[u8]) -> Option<(u32, Option<u32>)>
    ensures some { IfSome result (λ r. IsNumberedSpare text.now r.0 r.1) }
    ensures none { IsNone result → (n : ℕ) (h : Option ℕ) → ¬ IsNumberedSpare text.now n h }
{
    let (number, rest) = read_front_number(text)?;
    let rest = rest_after(rest, b" ")?;
    let home = read_numbered_home(rest)?;
    Some((number, home))
}

/// The number and the row of a term after `term `.
pub fn read_term_entry(
    alloc: Global,
    problem: &Problem,
    text: &[u8],
) -> Result<(u32, TermRow), TextRead>
    ensures ok { IfOk result (λ r. IsTermEntry problem.now.symbols text.now r.0 r.1) }
    ensures none { result ≡ Err TextRead.None → (k : ℕ) (t : tree.Term) → ¬ IsTermEntry problem.now.symbols text.now k t }
{
    let Some((number, rest)) = read_front_number(text) else {
        return Err(TextRead::None);
    };
    let Some(rest) = rest_after(rest, b" ") else {
        return Err(TextRead::None);
    };
    let row = read_whole_row(alloc, problem, rest)?;
    Ok((number, row))
}

// The argument for a variable that is the whole text.
fn read_numbered_term(text: &[u8]) -> Option<NumberedTerm>
    ensures some { IfSome result (λ t. IsNumberedTerm text.now (the_numbered_arg t)) }
    ensures none { IsNone result → (t : numbers.NumberedTerm) → ¬ IsNumberedTerm text.now t }
{
    if text.is_empty() {
        return Some(NumberedTerm::None);
    }
    if let Some(rest) = rest_after(text, b" term ") {
        let number = read_whole_number(rest)?;
        return Some(NumberedTerm::Term(number));
    }
    let rest = rest_after(text, b" name $$e")?;
    let number = read_name_number(rest)?;
    Some(NumberedTerm::Name(number))
}

// The number of a step's label and its argument for a variable.
fn read_number_and_arg(text: &[u8]) -> Option<(u32, NumberedTerm)>
    ensures some { IfSome result (λ r. IsNumberAndArg text.now r.0 (the_numbered_arg r.1)) }
    ensures none { IsNone result → (k : ℕ) (t : numbers.NumberedTerm) → ¬ IsNumberAndArg text.now k t }
{
    let (number, rest) = read_front_number(text)?;
    let arg = read_numbered_term(rest)?;
    Some((number, arg))
}

// The number of a step's new mark and its argument for a variable.
fn read_new_and_arg(text: &[u8]) -> Option<(u32, NumberedTerm)>
    ensures some { IfSome result (λ r. IsNewAndArg text.now r.0 (the_numbered_arg r.1)) }
    ensures none { IsNone result → (n : ℕ) (t : numbers.NumberedTerm) → ¬ IsNewAndArg text.now n t }
{
    let (number, rest) = read_front_number(text)?;
    if number == 0 {
        return None;
    }
    let arg = read_numbered_term(rest)?;
    Some((number, arg))
}

// The arguments of a use step.
fn read_numbered_args(text: &[u8]) -> Option<(NumberedModal, NumberedTerm)>
    ensures some { IfSome result (λ r. IsNumberedArgs text.now (the_numbered_modal r.0) (the_numbered_arg r.1)) }
    ensures none { IsNone result → (m : numbers.NumberedModal) (t : numbers.NumberedTerm) → ¬ IsNumberedArgs text.now m t }
{
    if let Some(rest) = rest_after(text, b" to ") {
        let (number, arg) = read_number_and_arg(rest)?;
        return Some((NumberedModal::To(number), arg));
    }
    if let Some(rest) = rest_after(text, b" new $$c") {
        let (number, arg) = read_new_and_arg(rest)?;
        return Some((NumberedModal::New(number), arg));
    }
    let arg = read_numbered_term(text)?;
    Some((NumberedModal::None, arg))
}

// A use step after its first word.
fn read_numbered_use(text: &[u8]) -> Option<(u32, NumberedModal, NumberedTerm)>
    ensures some { IfSome result (λ r. IsNumberedUse text.now r.0 (the_numbered_modal r.1) (the_numbered_arg r.2)) }
    ensures none { IsNone result → (n : ℕ) (m : numbers.NumberedModal) (t : numbers.NumberedTerm) → ¬ IsNumberedUse text.now n m t }
{
    let (entry, rest) = read_front_number(text)?;
    let (modal, term) = read_numbered_args(rest)?;
    Some((entry, modal, term))
}

/// The step whose line is the text.
pub fn read_numbered_step(text: &[u8]) -> Option<NumberedStep>
    ensures some { IfSome result (λ x. IsNumberedStep text.now (the_numbered_step x)) }
    ensures none { IsNone result → (x : numbers.NumberedStep) → ¬ IsNumberedStep text.now x }
{
    if let Some(rest) = rest_after(text, b"use ") {
        let (entry, modal, term) = read_numbered_use(rest)?;
        return Some(NumberedStep::Use { entry, modal, term });
    }
    let rest = rest_after(text, b"axiom ")?;
    let (given, shown) = read_number_pair(rest)?;
    Some(NumberedStep::Axiom { given, shown })
}
