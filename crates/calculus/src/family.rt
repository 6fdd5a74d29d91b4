/// A family of generated problems.
#[derive(Clone, Copy, Debug, PartialEq, Eq)]
pub enum Family {
    /// A chain of implications.
    Chain,
    /// A term that a function shifts.
    Shift,
    /// A tower of boxes, for modal logics.
    Tower,
}
