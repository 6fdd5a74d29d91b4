//! The bounds of a search.

use cop_base::PathLimit;

/// How far a search goes: the greatest path limit, the budget of steps and, where a search that does
/// not return to solved goals is to come first, the greatest limit of that one.
#[derive(Clone, Copy)]
pub struct Bounds {
    pub limit: PathLimit,
    pub steps: u64,
    pub cut: Option<PathLimit>,
}
