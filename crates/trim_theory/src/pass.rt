/// How a step goes on, with the numbers of the entries to which it refers.
#[derive(Clone, Copy)]
pub enum Way {
    /// An axiom on two entries.
    Ends(u32, u32),
    /// A step on an entry that adds so many.
    Adds(u32, u32),
    /// A step on an entry that splits the branch.
    Forks(u32),
}

/// What a walk over the steps has to know of one: how many entries the branch has before it, how it
/// goes on, and whether it is the first one of a fork's right side.
#[derive(Clone, Copy)]
pub struct Pass {
    pub before: u32,
    pub way: Way,
    pub starts_right: bool,
}

/// A step that was passed, and whether it is left.
#[derive(Clone, Copy)]
pub struct Mark {
    pub pass: Pass,
    pub is_left: bool,
}
