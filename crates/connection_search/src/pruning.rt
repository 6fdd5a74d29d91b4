//! By what a search drops lists of choices.

/// By what a search drops lists of choices with which no closed tableau begins, once it is known
/// that the limit is left. What the search answers is the same with each of them and without, but
/// for the steps: a list that is dropped takes none.
#[derive(Clone, Copy, Debug, PartialEq, Eq)]
pub struct Pruning {
    /// A goal with as many goals above it as the limit is closed by a reduction, or not at all.
    pub ahead: bool,
    /// The labels of the connections made so far cannot be equal.
    pub labels: bool,
    /// A goal that none of its choices closes is as it was before choices that came after it, or
    /// comes again below the same goals.
    pub jumps: bool,
}

impl Pruning {
    /// By all.
    pub fn all() -> Pruning {
        Pruning {
            ahead: true,
            labels: true,
            jumps: true,
        }
    }
}
