//! Reading the lines after the head.

ghost use Rattle.std.specs.Prelude.{◌≡◌, Err, IfOk, IsTrue, None, Some};
ghost use Rattle.calculus.specs.Problems.{is_problem};
ghost use Rattle.derivation_text.specs.Body as body;
ghost use Rattle.derivation_text.specs.Body.{IsBodyLine, stage_after};
ghost use Rattle.derivation_text.specs.BodyView.{the_body_line};

use crate::body_line::{BodyLine, Stage, stage_after};
use crate::name_line_reader::{read_eigen, read_spare};
use crate::step_reader::read_step;
use formula_text::TextRead;
use logic_rules::Problem;
use std::alloc::Global;
use text_lines::rest_after;

fn read_body_line(alloc: Global, problem: &Problem, text: &[u8]) -> Result<BodyLine, TextRead>
    ensures ok { IfOk result (λ x. IsBodyLine problem.now.symbols text.now (the_body_line x)) }
    ensures none { result ≡ Err TextRead.None → (x : body.BodyLine) → ¬ IsBodyLine problem.now.symbols text.now x }
{
    if text == b"end".as_slice() {
        return Ok(BodyLine::End);
    }
    if let Some(rest) = rest_after(text, b"name $$e") {
        let (number, home) = read_eigen(alloc, rest)?;
        return Ok(BodyLine::Eigen(number, home));
    }
    if let Some(rest) = rest_after(text, b"name $$s") {
        let (number, home) = read_spare(alloc, rest)?;
        return Ok(BodyLine::Spare(number, home));
    }
    let step = read_step(alloc, problem, text)?;
    Ok(BodyLine::Step(step))
}

/// The line that the text is, if it may stand at a stage, and the stage after it.
pub fn read_next(
    alloc: Global,
    problem: &Problem,
    stage: Stage,
    text: &[u8],
) -> Result<(BodyLine, Stage), TextRead>
    requires { IsTrue (is_problem problem.now) }
    ensures ok { IfOk result (λ r. IsBodyLine problem.now.symbols text.now (the_body_line r.0)) }
    ensures stage { IfOk result (λ r. stage_after stage (the_body_line r.0) ≡ Some r.1) }
    ensures none { result ≡ Err TextRead.None → (x : body.BodyLine) → IsBodyLine problem.now.symbols text.now x → stage_after stage x ≡ None }
{
    let line = read_body_line(alloc, problem, text)?;
    match stage_after(stage, &line) {
        Some(next) => Ok((line, next)),
        None => Err(TextRead::None),
    }
}
