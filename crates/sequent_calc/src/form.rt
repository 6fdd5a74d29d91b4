//! Of which form the arguments of a step are.

/// Whether a step has a label, the number of a new mark, or none of them.
#[derive(Clone, Copy, Debug, PartialEq, Eq)]
pub enum ModalForm {
    None,
    To,
    New,
}

/// Whether a step has a term, the number of an eigenvariable, or none of them.
#[derive(Clone, Copy, Debug, PartialEq, Eq)]
pub enum TermForm {
    None,
    Term,
    Name,
}
