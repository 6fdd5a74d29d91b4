//! Beginnings of labels.

use term_store::Ref;

// How a beginning of a label goes on from the one before: by a mark, by a string of at most one
// mark, or by a string of any length. The root is the empty label.
#[derive(Clone, Copy)]
pub(crate) enum Step {
    Root,
    Mark(Ref),
    Short(Ref),
    Long(Ref),
}

// A beginning of labels, by its last step and the number of the beginning before that. The root is
// its own parent.
#[derive(Clone, Copy)]
pub(crate) struct Node {
    pub(crate) parent: usize,
    pub(crate) step: Step,
}
