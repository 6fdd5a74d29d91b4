//! Parsing.

ghost use Rattle.std.specs.Prelude.{◌≡◌, ◌≢◌, ℕ, false, true, Err, IfOk, IsTrue, OnOk};
ghost use Rattle.calculus.specs.Problems.{is_problem};
ghost use Rattle.calculus.specs.VersionJudgement.{IsTextFault, IsWrongForm, is_version_one};
ghost use Rattle.calculus.specs.Versions.{IsTextIn, numbering, stated};
ghost use Rattle.calculus.specs.declared.fault.TextCause.{TextCause};
ghost use Rattle.derivation_text.specs.BodyView.{the_body_line};
ghost use Rattle.derivation_text.specs.Entering.{empty_of, put_line, put_step};
ghost use Rattle.derivation_text.specs.RowView.{the_row_step};
ghost use Rattle.derivation_text.specs.Reading.{IsHeadRead};
ghost use Rattle.derivation_text.specs.Single.{AtMostOneInVersion, AtMostOneTextFault};
ghost use Rattle.sequent_calc.specs.DerivationView.{the_derivation};

use crate::body_line::{BodyLine, Stage};
use crate::conversion::derivation_of;
use crate::fault::ParseFault;
use crate::head_reader::read_head;
use crate::numbered_parser::read_two;
use crate::row_step::RowStep;
use crate::text_derivation::TextDerivation;
use crate::{body_reader, causes};
use calculus::version::Version;
use cop_base::NoMemory;
use formula_text::TextRead;
use logic_rules::Problem;
use sequent_calc::Derivation;
use std::alloc::Global;
use text_lines::line_at;

// Puts a step of a text of version 1 after those of a derivation.
fn enter_step(d: &mut TextDerivation, step: RowStep) -> Result<(), NoMemory>
    ensures { OnOk result (d.new ≡ put_step d.old (the_row_step step)) }
{
    match step {
        RowStep::Use { entry, modal, term } => {
            d.enter_use(entry, &modal, term)?;
            Ok(())
        }
        RowStep::Axiom { given, shown } => {
            d.enter_axiom(given, shown)?;
            Ok(())
        }
    }
}

// Puts a line of a text of version 1 after those of a derivation.
fn enter_line(d: &mut TextDerivation, line: BodyLine) -> Result<(), NoMemory>
    ensures { OnOk result (d.new ≡ put_line d.old (the_body_line line)) }
{
    match line {
        BodyLine::Eigen(number, home) => {
            d.enter_eigen(number, &home)?;
            Ok(())
        }
        BodyLine::Spare(number, home) => {
            d.enter_spare(number, &home)?;
            Ok(())
        }
        BodyLine::Step(step) => enter_step(d, step),
        BodyLine::End => Ok(()),
    }
}

fn has_ended(stage: Stage, place: usize, length: usize) -> bool
    ensures yes { IsTrue result → (stage ≡ Stage.Ended) × (place ≡ length) }
    ensures no { result ≡ false → stage ≡ Stage.Ended → place ≢ length }
{
    stage == Stage::Ended && place == length
}

// The lines after the head of a text of version 1, which are put into an empty derivation.
fn read_lines(
    alloc: Global,
    problem: &Problem,
    bytes: &[u8],
    from: usize,
    d: &mut TextDerivation,
) -> Result<(), ParseFault>
    requires well { IsTrue (is_problem problem.now) }
    requires head { IsHeadRead Version.One problem.now bytes.now from d.old.limit }
    requires empty { d.old ≡ empty_of d.old.limit }
    ensures text { OnOk result (IsTextIn Version.One problem.now (stated d.new) bytes.now) }
    ensures numbers { OnOk result (d.new ≡ numbering (stated d.new)) }
    ensures fault { (line : ℕ) (cause : TextCause) → result ≡ Err (ParseFault.Text line cause) → IsWrongForm Version.One problem.now bytes.now line cause }
{
    let length = bytes.len();
    let mut stage = Stage::Eigens(0);
    let mut place = from;
    let mut count = 4;
    while let Some((text, next)) = line_at(bytes, place) {
        let (line, after) = match body_reader::read_next(alloc, problem, stage, text) {
            Ok(found) => found,
            Err(TextRead::None) => return Err(ParseFault::Text {
                line: count + 1,
                cause: causes::cause_at_line(stage, text),
            }),
            Err(TextRead::NoMemory) => return Err(ParseFault::NoMemory),
        };
        enter_line(d, line)?;
        stage = after;
        place = next;
        count += 1;
    }
    if has_ended(stage, place, length) {
        Ok(())
    } else {
        Err(ParseFault::Text {
            line: count + 1,
            cause: causes::cause_at_end(stage),
        })
    }
}

fn is_version_one(bytes: &[u8]) -> bool
    ensures { result ≡ is_version_one bytes.now }
{
    bytes.starts_with(b"leancop derivation 1\n")
}

// A text that begins with the first line of version 1.
fn read_one(alloc: Global, problem: &Problem, bytes: &[u8]) -> Result<TextDerivation, ParseFault>
    requires one { is_version_one bytes.now ≡ true }
    ensures text { IfOk result (λ d. IsTextIn Version.One problem.now (stated d) bytes.now) }
    ensures numbers { IfOk result (λ d. d ≡ numbering (stated d)) }
    ensures fault { (line : ℕ) (cause : TextCause) → result ≡ Err (ParseFault.Text line cause) → IsTextFault problem.now bytes.now line cause }
    ensures well { IsTrue (is_problem problem.now) }
{
    let (limit, from) = read_head(alloc, problem, Version::One, bytes)?;
    let mut d = TextDerivation::new(alloc, limit);
    read_lines(alloc, problem, bytes, from, &mut d)?;
    Ok(d)
}

/// The version of a text and the derivation of a problem whose text in this version the bytes are, or else the number and the cause of
/// the first wrong line. Bytes that do not begin with the first line of version 1 have the faults of version 2.
pub fn read(
    alloc: Global,
    problem: &Problem,
    bytes: &[u8],
) -> Result<(Version, TextDerivation), ParseFault>
    ensures text { IfOk result (λ r. IsTextIn r.0 problem.now (stated r.1) bytes.now) }
    ensures numbers { IfOk result (λ r. r.1 ≡ numbering (stated r.1)) }
    ensures fault { (line : ℕ) (cause : TextCause) → result ≡ Err (ParseFault.Text line cause)
        → IsTextFault problem.now bytes.now line cause }

    // Laws: bytes are the text of one derivation at most, and have one first fault at most.
    ensures derivation { AtMostOneInVersion problem.now bytes.now }
    ensures first { AtMostOneTextFault problem.now bytes.now }
    ensures well { IsTrue (is_problem problem.now) }
{
    if is_version_one(bytes) {
        let d = read_one(alloc, problem, bytes)?;
        return Ok((Version::One, d));
    }
    let d = read_two(alloc, problem, bytes)?;
    Ok((Version::Two, d))
}

/// The same, the derivation as the calculus has it.
pub fn parse(
    alloc: Global,
    problem: &Problem,
    bytes: &[u8],
) -> Result<(Version, Derivation), ParseFault>
    ensures text { IfOk result (λ r. IsTextIn r.0 problem.now (the_derivation r.1) bytes.now) }
    ensures fault { (line : ℕ) (cause : TextCause) → result ≡ Err (ParseFault.Text line cause)
        → IsTextFault problem.now bytes.now line cause }

    // Laws: bytes are the text of one derivation at most, and have one first fault at most.
    ensures derivation { AtMostOneInVersion problem.now bytes.now }
    ensures first { AtMostOneTextFault problem.now bytes.now }
    ensures well { IsTrue (is_problem problem.now) }
{
    let (version, numbered) = read(alloc, problem, bytes)?;
    let d = derivation_of(alloc, &numbered)?;
    Ok((version, d))
}
