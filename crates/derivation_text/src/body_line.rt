//! The lines after the head of a derivation's text, and their order.

ghost use Rattle.std.specs.Prelude.{◌≡◌};
ghost use Rattle.derivation_text.specs.Body.{stage_after};
ghost use Rattle.derivation_text.specs.BodyView.{the_body_line};

use crate::row_step::RowStep;
use logic_rules::Label;
use sequent_calc::Home;

/// A line after the head.
#[derive(Drop)]
pub enum BodyLine {
    Eigen(u32, Label),
    Spare(u32, Home),
    Step(RowStep),
    End,
}

/// What the last line was, which decides what may follow. Names carry their number, since numbers rise; reading starts
/// at `Eigens(0)`.
#[derive(Clone, Copy, Debug, PartialEq, Eq)]
pub enum Stage {
    Eigens(u32),
    Spares(u32),
    Steps,
    Ended,
}

/// The stage after one line more, if it may stand there.
pub fn stage_after(stage: Stage, line: &BodyLine) -> Option<Stage>
    ensures { result ≡ stage_after stage (the_body_line line.now) }
{
    match (stage, line) {
        (Stage::Eigens(last), BodyLine::Eigen(number, _)) if last < *number => Some(Stage::Eigens(
            *number,
        )),
        (Stage::Eigens(_), BodyLine::Spare(number, _)) if 0 < *number => Some(Stage::Spares(
            *number,
        )),
        (Stage::Spares(last), BodyLine::Spare(number, _)) if last < *number => Some(Stage::Spares(
            *number,
        )),
        (Stage::Eigens(_) | Stage::Spares(_) | Stage::Steps, BodyLine::Step(_)) => Some(
            Stage::Steps,
        ),
        (Stage::Eigens(_) | Stage::Spares(_) | Stage::Steps, BodyLine::End) => Some(Stage::Ended),
        _ => None,
    }
}
