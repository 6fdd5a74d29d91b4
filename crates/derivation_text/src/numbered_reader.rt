//! Reading the lines after the head of a text of version 2.

ghost use Rattle.std.specs.Prelude.{◌≡◌, ◌<◌, ◌^◌, ◌-◌, Err, IfOk, IsTrue, None, Some};
ghost use Rattle.calculus.specs.Problems.{is_problem};
ghost use Rattle.derivation_text.specs.NumberedBody as body;
ghost use Rattle.derivation_text.specs.NumberedBody.{IsNumberedLine, IsSmallLine, numbered_stage_after, the_numbered_line};

use crate::name_line_reader::read_eigen;
use crate::numbered_line::{NumberedLine, NumberedStage, numbered_stage_after};
use crate::numbered_parts::{read_numbered_spare, read_numbered_step, read_term_entry};
use crate::step_reader::read_number_pair;
use formula_text::TextRead;
use logic_rules::Problem;
use std::alloc::Global;
use text_lines::rest_after;

fn read_line(alloc: Global, problem: &Problem, text: &[u8]) -> Result<NumberedLine, TextRead>
    ensures ok { IfOk result (λ x. IsSmallLine problem.now.symbols text.now (the_numbered_line x)) }
    ensures none { result ≡ Err TextRead.None → (x : body.NumberedLine) → ¬ IsSmallLine problem.now.symbols text.now x }
{
    if text == b"end".as_slice() {
        return Ok(NumberedLine::End);
    }
    // A label stands behind its number as a home behind that of an eigenvariable.
    if let Some(rest) = rest_after(text, b"label ") {
        let (number, label) = read_eigen(alloc, rest)?;
        return Ok(NumberedLine::Label(number, label));
    }
    if let Some(rest) = rest_after(text, b"name $$e") {
        return match read_number_pair(rest) {
            Some((number, home)) => Ok(NumberedLine::Eigen(number, home)),
            None => Err(TextRead::None),
        };
    }
    if let Some(rest) = rest_after(text, b"name $$s") {
        return match read_numbered_spare(rest) {
            Some((number, home)) => Ok(NumberedLine::Spare(number, home)),
            None => Err(TextRead::None),
        };
    }
    if let Some(rest) = rest_after(text, b"term ") {
        let (number, row) = read_term_entry(alloc, problem, rest)?;
        return Ok(NumberedLine::Term(number, row));
    }
    match read_numbered_step(text) {
        Some(step) => Ok(NumberedLine::Step(step)),
        None => Err(TextRead::None),
    }
}

// The stage after a line that is read, where fewer than 2^32 - 1 labels and terms are stated.
fn read_at(
    alloc: Global,
    problem: &Problem,
    stage: NumberedStage,
    text: &[u8],
) -> Result<(NumberedLine, NumberedStage), TextRead>
    requires well { IsTrue (is_problem problem.now) }
    requires labels { stage.labels < 2 ^ 32 - 1 }
    requires terms { stage.terms < 2 ^ 32 - 1 }
    ensures ok { IfOk result (λ r. IsNumberedLine problem.now.symbols text.now (the_numbered_line r.0)) }
    ensures stage { IfOk result (λ r. numbered_stage_after stage (the_numbered_line r.0) ≡ Some r.1) }
    ensures none { result ≡ Err TextRead.None → (x : body.NumberedLine) → IsNumberedLine problem.now.symbols text.now x → numbered_stage_after stage x ≡ None }
{
    let line = read_line(alloc, problem, text)?;
    match numbered_stage_after(stage, &line) {
        Some(next) => Ok((line, next)),
        None => Err(TextRead::None),
    }
}

/// The line that the text is, if it may stand at a stage, and the stage after it.
pub fn read_next(
    alloc: Global,
    problem: &Problem,
    stage: NumberedStage,
    text: &[u8],
) -> Result<(NumberedLine, NumberedStage), TextRead>
    requires { IsTrue (is_problem problem.now) }
    ensures ok { IfOk result (λ r. IsNumberedLine problem.now.symbols text.now (the_numbered_line r.0)) }
    ensures stage { IfOk result (λ r. numbered_stage_after stage (the_numbered_line r.0) ≡ Some r.1) }
    ensures none { result ≡ Err TextRead.None → (x : body.NumberedLine) → IsNumberedLine problem.now.symbols text.now x → numbered_stage_after stage x ≡ None }
{
    // 2^32 - 1 labels or terms fit no memory.
    if stage.labels == u32::MAX {
        return Err(TextRead::NoMemory);
    }
    if stage.terms == u32::MAX {
        return Err(TextRead::NoMemory);
    }
    read_at(alloc, problem, stage, text)
}
