//! The judgement of derivations by the rules of the calculus alone.
#![tactic(auto)]

mod acceptance;
mod allowed;
mod argument;
mod demands;
mod homes;
mod judgement;
mod label_places;
mod occurring;
mod open_sequents;
mod state;
mod steps;
mod term_names;
mod term_places;
mod told_on_branch;
mod using;
mod verdict;

pub use acceptance::{AcceptFault, accept};
pub use calculus::fault::CheckFault;
pub use judgement::check;
pub use verdict::Verdict;
