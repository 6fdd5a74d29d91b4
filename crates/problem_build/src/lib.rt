//! The problem that files hold: the walk over the files and their includes, the equality axioms, and the one formula.
#![tactic(auto)]

mod axioms;
mod building;
mod chain;
mod counts;
mod expansion;
mod fault;
mod faults;
mod items;
mod name_set;
mod names;
mod passed;
mod progress;
mod selection;
mod symbols;
mod variables;
mod walk;

pub use building::build;
pub use fault::{BuildFault, Cause};
