//! Reading the head, the first four lines.

ghost use Rattle.std.specs.Prelude.{◌≡◌, ℕ, Err, IfOk, IsTrue};
ghost use Rattle.calculus.specs.Problems.{is_problem};
ghost use Rattle.calculus.specs.declared.fault.TextCause.{TextCause};
ghost use Rattle.calculus.specs.Versions.{first_line};
ghost use Rattle.calculus.specs.VersionJudgement.{IsWrongForm};
ghost use Rattle.derivation_text.specs.Reading.{IsHeadRead, head_cause, head_number};
ghost use Rattle.derivation_text.specs.declared.fault.ParseFault.TheVariants as answer;

use crate::fault::ParseFault;
use calculus::fault::TextCause;
use calculus::version::Version;
use logic_rules::Problem;
use std::alloc::Global;
use text_lines::{HeadFault, HeadLine};

// What is told of a wrong line of the head.
fn fault_at(line: HeadLine) -> ParseFault
    ensures { result ≡ answer.Text (head_number line) (head_cause line) }
{
    match line {
        HeadLine::First => ParseFault::Text {
            line: 1,
            cause: TextCause::Version,
        },
        HeadLine::Setting => ParseFault::Text {
            line: 2,
            cause: TextCause::Setting,
        },
        HeadLine::Formula => ParseFault::Text {
            line: 3,
            cause: TextCause::Formula,
        },
        HeadLine::Limit => ParseFault::Text {
            line: 4,
            cause: TextCause::Limit,
        },
    }
}

/// The first line of a text of a version.
pub fn first_line(version: Version) -> &'static [u8]
    ensures { result.now ≡ first_line version }
{
    match version {
        Version::One => b"leancop derivation 1",
        Version::Two => b"leancop derivation 2",
    }
}

/// The limit and the place after the head.
pub fn read_head(
    alloc: Global,
    problem: &Problem,
    version: Version,
    bytes: &[u8],
) -> Result<(u8, usize), ParseFault>
    ensures ok { IfOk result (λ r. IsHeadRead version problem.now bytes.now r.1 r.0) }
    ensures fault { (line : ℕ) (cause : TextCause) → result ≡ Err (ParseFault.Text line cause) → IsWrongForm version problem.now bytes.now line cause }
    ensures well { IsTrue (is_problem problem.now) }
{
    match text_lines::read_head(alloc, problem, first_line(version), bytes) {
        Ok((limit, end)) => Ok((limit, end)),
        Err(HeadFault::Wrong(line)) => Err(fault_at(line)),
        Err(HeadFault::NoMemory) => Err(ParseFault::NoMemory),
    }
}
