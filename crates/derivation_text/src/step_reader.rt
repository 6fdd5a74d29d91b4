//! Reading steps.

ghost use Rattle.std.specs.Prelude.{◌≡◌, ◌++◌, ◌∷◌, [], ℕ, List, Err, IsTrue, IsNone, IfSome, IfOk};
ghost use Rattle.calculus.specs.Derivations as derivation;
ghost use Rattle.calculus.specs.Syntax as tree;
ghost use Rattle.derivation_text.specs.Spelling.{AreArgs, IsLabelAndArg, IsNameNumberAndArg, IsNumberPair, IsStep, IsTerm, IsTermArg, IsUse};
ghost use Rattle.derivation_text.specs.RowView.{the_row_step};
ghost use Rattle.sequent_calc.specs.StepView.{the_modal, the_row_arg};

use crate::row_step::RowStep;
use formula_text::{TermRow, TextRead, read_term};
use logic_rules::{Label, Problem};
use sequent_calc::{ModalArg, RowArg};
use std::alloc::Global;
use text_lines::{
    read_front_label, read_front_number, read_name_number, read_whole_number, rest_after,
};

/// The row of the term that is the whole text.
pub fn read_whole_row(alloc: Global, problem: &Problem, text: &[u8]) -> Result<TermRow, TextRead>
    ensures ok { IfOk result (λ t. IsTerm problem.now.symbols text.now t) }
    ensures none { result ≡ Err TextRead.None → (t : tree.Term) → ¬ IsTerm problem.now.symbols text.now t }
{
    let (row, to) = read_term(alloc, problem.symbols(), text, 0)?;
    if to == text.len() {
        Ok(row)
    } else {
        Err(TextRead::None)
    }
}

// The argument for a variable that is the whole text.
fn read_term_arg(alloc: Global, problem: &Problem, text: &[u8]) -> Result<RowArg, TextRead>
    ensures ok { IfOk result (λ t. IsTermArg problem.now.symbols text.now (the_row_arg t)) }
    ensures none { result ≡ Err TextRead.None → (t : derivation.TermArg) → ¬ IsTermArg problem.now.symbols text.now t }
{
    if text.is_empty() {
        return Ok(RowArg::None);
    }
    if let Some(rest) = rest_after(text, b" term ") {
        let row = read_whole_row(alloc, problem, rest)?;
        return Ok(RowArg::Term(row));
    }
    let Some(rest) = rest_after(text, b" name $$e") else {
        return Err(TextRead::None);
    };
    match read_name_number(rest) {
        Some(n) => Ok(RowArg::Name(n)),
        None => Err(TextRead::None),
    }
}

// The label of a step and its argument for a variable.
fn read_label_and_arg(
    alloc: Global,
    problem: &Problem,
    text: &[u8],
) -> Result<(Label, RowArg), TextRead>
    ensures ok { IfOk result (λ r. IsLabelAndArg problem.now.symbols text.now r.0 (the_row_arg r.1)) }
    ensures none { result ≡ Err TextRead.None → (w : derivation.Label) (t : derivation.TermArg) → ¬ IsLabelAndArg problem.now.symbols text.now w t }
{
    let (label, rest) = read_front_label(alloc, text)?;
    let arg = read_term_arg(alloc, problem, rest)?;
    Ok((label, arg))
}

// The number of a step's new character and its argument for a variable.
fn read_new_and_arg(
    alloc: Global,
    problem: &Problem,
    text: &[u8],
) -> Result<(u32, RowArg), TextRead>
    ensures ok { IfOk result (λ r. IsNameNumberAndArg problem.now.symbols text.now r.0 (the_row_arg r.1)) }
    ensures none { result ≡ Err TextRead.None → (n : ℕ) (t : derivation.TermArg) → ¬ IsNameNumberAndArg problem.now.symbols text.now n t }
{
    let Some((n, rest)) = read_front_number(text) else {
        return Err(TextRead::None);
    };
    if n == 0 {
        return Err(TextRead::None);
    }
    let arg = read_term_arg(alloc, problem, rest)?;
    Ok((n, arg))
}

// The arguments of a use step.
fn read_args(alloc: Global, problem: &Problem, text: &[u8]) -> Result<(ModalArg, RowArg), TextRead>
    ensures ok { IfOk result (λ r. AreArgs problem.now.symbols text.now (the_modal r.0) (the_row_arg r.1)) }
    ensures none { result ≡ Err TextRead.None → (m : derivation.ModalArg) (t : derivation.TermArg) → ¬ AreArgs problem.now.symbols text.now m t }
{
    if let Some(rest) = rest_after(text, b" to ") {
        let (label, arg) = read_label_and_arg(alloc, problem, rest)?;
        let modal = ModalArg::to(alloc, label)?;
        return Ok((modal, arg));
    }
    if let Some(rest) = rest_after(text, b" new $$c") {
        let (n, arg) = read_new_and_arg(alloc, problem, rest)?;
        return Ok((ModalArg::New(n), arg));
    }
    let arg = read_term_arg(alloc, problem, text)?;
    Ok((ModalArg::None, arg))
}

// A use step after its first word.
fn read_use(
    alloc: Global,
    problem: &Problem,
    text: &[u8],
) -> Result<(u32, ModalArg, RowArg), TextRead>
    ensures ok { IfOk result (λ r. IsUse problem.now.symbols text.now r.0 (the_modal r.1) (the_row_arg r.2)) }
    ensures none { result ≡ Err TextRead.None → (n : ℕ) (m : derivation.ModalArg) (t : derivation.TermArg) → ¬ IsUse problem.now.symbols text.now n m t }
{
    let Some((entry, rest)) = read_front_number(text) else {
        return Err(TextRead::None);
    };
    let (modal, term) = read_args(alloc, problem, rest)?;
    Ok((entry, modal, term))
}

/// Two numbers with a space between them.
pub fn read_number_pair(text: &[u8]) -> Option<(u32, u32)>
    ensures some { IfSome result (λ r. IsNumberPair text.now r.0 r.1) }
    ensures none { IsNone result → (n k : ℕ) → ¬ IsNumberPair text.now n k }
{
    let (given, rest) = read_front_number(text)?;
    let rest = rest_after(rest, b" ")?;
    let shown = read_whole_number(rest)?;
    Some((given, shown))
}

/// The step whose line is the text.
pub fn read_step(alloc: Global, problem: &Problem, text: &[u8]) -> Result<RowStep, TextRead>
    ensures ok { IfOk result (λ x. IsStep problem.now.symbols text.now (the_row_step x)) }
    ensures none { result ≡ Err TextRead.None → (x : derivation.Step) → ¬ IsStep problem.now.symbols text.now x }
{
    if let Some(rest) = rest_after(text, b"use ") {
        let (entry, modal, term) = read_use(alloc, problem, rest)?;
        return Ok(RowStep::Use { entry, modal, term });
    }
    let Some(rest) = rest_after(text, b"axiom ") else {
        return Err(TextRead::None);
    };
    match read_number_pair(rest) {
        Some((given, shown)) => Ok(RowStep::Axiom { given, shown }),
        None => Err(TextRead::None),
    }
}
