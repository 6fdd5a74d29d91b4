//! What the walk over the files finds.

use tptp_reader::Source;

/// A formula that passes, and whether it is the conjecture.
#[derive(Drop)]
pub struct Passed {
    pub is_conjecture: bool,
    pub body: Source,
}

/// The length of the main file in bytes, and the formulas that pass, in order.
#[derive(Drop)]
pub struct WalkedFiles {
    pub main_length: u64,
    pub passed: Vec<Passed>,
}
