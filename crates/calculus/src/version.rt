/// The version of a derivation's text.
#[derive(Clone, Copy, Debug, PartialEq, Eq)]
pub enum Version {
    /// Labels and terms stand where they are used.
    One,
    /// Each label and each term is stated once, and referred to by its number.
    Two,
}
