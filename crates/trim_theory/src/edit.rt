/// What becomes of the next step of a derivation that is edited, or what comes in before it.
#[derive(Clone, Copy)]
pub enum Edit {
    /// The next step is made, by its new numbers.
    Keep,
    /// The next step goes: what it adds stands on the branch, from the entry of this number on.
    Skip(u32),
    /// A step on the entry of this number comes in.
    Insert(u32),
}
