//! The connection search with a budget, and deepening on the path limit.
#![tactic(auto)]

mod ahead;
mod cutting;
mod deciding;
mod deepening;
mod dropping;
mod exploring;
mod jumping;
mod limit_search;
mod passing;
mod pruning;
mod searching;
mod seeing;
mod visit;

pub use cutting::{CutAnswer, deepen_cut};
pub use deepening::{Answer, deepen};
pub use pruning::Pruning;
pub use searching::{Outcome, search, search_in, search_with};
