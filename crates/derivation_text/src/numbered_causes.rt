//! The causes of faults after the head of a text of version 2.

ghost use Rattle.std.specs.Prelude.{◌≡◌, None, Some};
ghost use Rattle.derivation_text.specs.NumberedReading.{numbered_cause_at_stage, takes_names};

use crate::numbered_line::{Part, takes_labels, takes_terms};
use calculus::fault::TextCause;

// Whether a line of a name may stand next.
fn takes_names(part: Part) -> bool
    ensures { result ≡ takes_names part }
{
    match part {
        Part::Labels | Part::Eigens(_) | Part::Spares(_) => true,
        Part::Terms | Part::Steps | Part::Ended => false,
    }
}

/// The cause where a whole line may not stand.
pub fn cause_at_line(part: Part, line: &[u8]) -> TextCause
    ensures { result ≡ numbered_cause_at_stage part (Some line.now) }
{
    if part == Part::Ended {
        return TextCause::TextAfterEnd;
    }
    if line.starts_with(b"label ") && takes_labels(part) {
        return TextCause::Label;
    }
    if line.starts_with(b"name ") && takes_names(part) {
        return TextCause::Name;
    }
    if line.starts_with(b"term ") && takes_terms(part) {
        return TextCause::Term;
    }
    TextCause::Line
}

/// The cause where no whole line follows.
pub fn cause_at_end(part: Part) -> TextCause
    ensures { result ≡ numbered_cause_at_stage part None }
{
    match part {
        Part::Labels | Part::Eigens(_) | Part::Spares(_) | Part::Terms | Part::Steps =>
            TextCause::Line,
        Part::Ended => TextCause::TextAfterEnd,
    }
}
