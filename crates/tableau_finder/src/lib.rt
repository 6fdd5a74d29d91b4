//! A search for closed tableaux by any strategy: it may miss one, and what it gives is the text of a closed one.
//!
//! It goes over the clauses as numbers, by strategies that are not proved to find anything, and writes the text of
//! what they find. That text is judged as `tcheck` judges one, and given where it is accepted.
#![tactic(auto)]

mod candidates;
mod cells;
mod domain;
mod finding;
mod flat;
mod found;
mod numbers;
mod record;
mod search;
mod solving;
mod state;
mod strategy;
mod term;
mod words;
mod writing;

pub use finding::{Bounds, FindFault, find};
pub use strategy::Strategy;
