//! The causes of faults after the head.

ghost use Rattle.std.specs.Prelude.{◌≡◌, None, Some};
ghost use Rattle.calculus.specs.VersionJudgement.{is_name_line};
ghost use Rattle.derivation_text.specs.Reading.{cause_at_stage};

use crate::body_line::Stage;
use calculus::fault::TextCause;

fn is_name_line(line: &[u8]) -> bool
    ensures { result ≡ is_name_line line.now }
{
    line.starts_with(b"name ")
}

/// The cause where a whole line may not stand at a stage.
pub fn cause_at_line(stage: Stage, line: &[u8]) -> TextCause
    ensures { result ≡ cause_at_stage stage (Some line.now) }
{
    match stage {
        Stage::Eigens(_) | Stage::Spares(_) => if is_name_line(line) {
            TextCause::Name
        } else {
            TextCause::Line
        },
        Stage::Steps => TextCause::Line,
        Stage::Ended => TextCause::TextAfterEnd,
    }
}

/// The cause where no whole line follows.
pub fn cause_at_end(stage: Stage) -> TextCause
    ensures { result ≡ cause_at_stage stage None }
{
    match stage {
        Stage::Eigens(_) | Stage::Spares(_) | Stage::Steps => TextCause::Line,
        Stage::Ended => TextCause::TextAfterEnd,
    }
}
