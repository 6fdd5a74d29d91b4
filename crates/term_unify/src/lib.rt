//! Unification of terms, marks and strings over a store.
#![tactic(auto)]

mod check;
mod compare;
mod flat;
mod matched;
mod matching;
mod same;
mod solve;
mod visited;

pub use flat::flat_label;
pub use same::{are_same_cells, are_same_labels};
pub use solve::{Unifier, unify};
