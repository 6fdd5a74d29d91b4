//! The verdict on a tableau's text.

use calculus::fault::TableauFault;

/// Whether a text is that of a closed tableau.
#[derive(Clone, Copy, Debug, PartialEq, Eq)]
pub enum TableauVerdict {
    Accepted,
    /// What is wrong at the first line, counted from 1, at which the text is rejected.
    Rejected { line: u64, fault: TableauFault },
}
