//! Turns: the positions that the instances of a tableau reach, each with the values taken on the way to it.

use cop_base::PosId;
use formula_core::Values;

/// A position with the values taken on the way to it, its own included.
#[derive(Clone, Copy, PartialEq, Eq)]
pub struct Turn {
    pub position: PosId,
    pub values: Values,
}
