//! What texts of ground values consist of.

use formula_core::{GroundLabel, GroundMark, GroundTerm, Values};

/// What has a text of its own: a term, a character of a label, the string of a value, or a whole list of values.
#[derive(Clone, Copy)]
pub enum TableItem {
    Term(GroundTerm),
    Mark(GroundMark),
    Steps(GroundLabel),
    Values(Values),
}
