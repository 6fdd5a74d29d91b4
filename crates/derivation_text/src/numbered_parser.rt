//! Parsing texts of version 2.

ghost use Rattle.std.specs.Prelude.{◌≡◌, ◌≢◌, ℕ, false, length, Err, IfOk, IsTrue, OnOk};
ghost use Rattle.calculus.specs.DerivationText.{is_printable};
ghost use Rattle.calculus.specs.Problems.{is_problem};
ghost use Rattle.calculus.specs.VersionJudgement.{IsTextFault, IsWrongForm, IsWrongTable, is_version_one};
ghost use Rattle.calculus.specs.Versions.{IsTextIn, numbering, stated, IsNumberedText};
ghost use Rattle.calculus.specs.declared.fault.TextCause.{TextCause};
ghost use Rattle.derivation_text.specs.Entering.{empty_of};
ghost use Rattle.derivation_text.specs.NumberedBody.{is_line_listed, the_numbered_line, with_numbered_line};
ghost use Rattle.derivation_text.specs.Reading.{IsHeadRead};

use crate::difference::first_difference;
use crate::fault::ParseFault;
use crate::head_reader::read_head;
use crate::in_order::is_in_order;
use crate::numbered_line::{NumberedLine, NumberedStage, Part};
use crate::renumbering::renumber;
use crate::text_derivation::TextDerivation;
use crate::writer::write;
use crate::{numbered_causes, numbered_reader};
use calculus::fault::TextCause;
use calculus::version::Version;
use cop_base::NoMemory;
use formula_text::TextRead;
use logic_rules::Problem;
use std::alloc::Global;
use text_lines::line_at;

// Puts a line of a text of version 2 after those of a derivation.
fn put_line(d: &mut TextDerivation, line: NumberedLine) -> Result<(), NoMemory>
    requires { IsTrue (is_line_listed (length d.old.labels) (length d.old.terms) (the_numbered_line line)) }
    ensures { OnOk result (d.new ≡ with_numbered_line d.old (the_numbered_line line)) }
{
    match line {
        NumberedLine::Label(_, label) => {
            d.put_label(&label)?;
            Ok(())
        }
        NumberedLine::Eigen(number, home) => {
            d.put_eigen(number, home)?;
            Ok(())
        }
        NumberedLine::Spare(number, home) => {
            d.put_spare(number, home)?;
            Ok(())
        }
        NumberedLine::Term(_, row) => {
            d.put_term(row)?;
            Ok(())
        }
        NumberedLine::Step(step) => {
            d.put_step(step)?;
            Ok(())
        }
        NumberedLine::End => Ok(()),
    }
}

fn has_ended(part: Part, place: usize, length: usize) -> bool
    ensures yes { IsTrue result → (part ≡ Part.Ended) × (place ≡ length) }
    ensures no { result ≡ false → part ≡ Part.Ended → place ≢ length }
{
    part == Part::Ended && place == length
}

// The lines after the head of a text in the form of version 2, which are put into an empty derivation.
fn read_lines(
    alloc: Global,
    problem: &Problem,
    bytes: &[u8],
    from: usize,
    d: &mut TextDerivation,
) -> Result<(), ParseFault>
    requires well { IsTrue (is_problem problem.now) }
    requires head { IsHeadRead Version.Two problem.now bytes.now from d.old.limit }
    requires empty { d.old ≡ empty_of d.old.limit }
    ensures text { OnOk result (IsNumberedText problem.now d.new bytes.now) }
    ensures fault { (line : ℕ) (cause : TextCause) → result ≡ Err (ParseFault.Text line cause) → IsWrongForm Version.Two problem.now bytes.now line cause }
{
    let length = bytes.len();
    let mut stage = NumberedStage {
        labels: 0,
        terms: 0,
        part: Part::Labels,
    };
    let mut place = from;
    let mut count = 4;
    while let Some((text, next)) = line_at(bytes, place) {
        let (line, after) = match numbered_reader::read_next(alloc, problem, stage, text) {
            Ok(found) => found,
            Err(TextRead::None) => return Err(ParseFault::Text {
                line: count + 1,
                cause: numbered_causes::cause_at_line(stage.part, text),
            }),
            Err(TextRead::NoMemory) => return Err(ParseFault::NoMemory),
        };
        put_line(d, line)?;
        stage = after;
        place = next;
        count += 1;
    }
    if has_ended(stage.part, place, length) {
        Ok(())
    } else {
        Err(ParseFault::Text {
            line: count + 1,
            cause: numbered_causes::cause_at_end(stage.part),
        })
    }
}

// The text of version 2 of the derivation that numbers state.
fn text_of_stated(alloc: Global, problem: &Problem, d: &TextDerivation) -> Result<Vec<u8>, NoMemory>
    requires { IsTrue (is_printable problem.now (stated d.now)) }
    ensures { IfOk result (λ text. IsTextIn Version.Two problem.now (stated d.now) text.items) }
{
    let numbered = renumber(alloc, d)?;
    let text = write(alloc, problem, &numbered, Version::Two)?;
    Ok(text)
}

// Whether the numbers of a text in the form of version 2 are in order; else where they are not.
fn check_order(
    alloc: Global,
    problem: &Problem,
    d: &TextDerivation,
    bytes: &[u8],
) -> Result<(), ParseFault>
    requires well { IsTrue (is_problem problem.now) }
    requires form { IsNumberedText problem.now d.now bytes.now }
    ensures numbers { OnOk result (d.now ≡ numbering (stated d.now)) }
    ensures fault { (line : ℕ) (cause : TextCause) → result ≡ Err (ParseFault.Text line cause) → IsWrongTable problem.now bytes.now line cause }
{
    if is_in_order(d) {
        return Ok(());
    }
    let text = text_of_stated(alloc, problem, d)?;
    match first_difference(bytes, text.as_slice()) {
        None => Ok(()),
        Some(line) => Err(ParseFault::Text {
            line,
            cause: TextCause::Table,
        }),
    }
}

/// The derivation whose text the bytes are, which do not begin with the first line of version 1.
pub fn read_two(
    alloc: Global,
    problem: &Problem,
    bytes: &[u8],
) -> Result<TextDerivation, ParseFault>
    requires two { is_version_one bytes.now ≡ false }
    ensures text { IfOk result (λ d. IsTextIn Version.Two problem.now (stated d) bytes.now) }
    ensures numbers { IfOk result (λ d. d ≡ numbering (stated d)) }
    ensures fault { (line : ℕ) (cause : TextCause) → result ≡ Err (ParseFault.Text line cause) → IsTextFault problem.now bytes.now line cause }
    ensures well { IsTrue (is_problem problem.now) }
{
    let (limit, from) = read_head(alloc, problem, Version::Two, bytes)?;
    let mut d = TextDerivation::new(alloc, limit);
    read_lines(alloc, problem, bytes, from, &mut d)?;
    check_order(alloc, problem, &d, bytes)?;
    Ok(d)
}
