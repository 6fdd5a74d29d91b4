//! What is judged of a derivation.

use calculus::fault::CheckFault;

/// Whether bytes are the text of a derivation that derives the problem's formula.
#[derive(Clone, Copy, Debug, PartialEq, Eq)]
pub enum Verdict {
    Accepted,
    /// The fault stands at this line, counted from 1.
    Rejected { line: u64, fault: CheckFault },
}
