//! What the words of a run ask for.
#![tactic(auto)]

mod bounds;
mod given;
mod good_words;
mod request;
mod table;
mod value;

pub use bounds::Bounds;
pub use request::{Command, GeneratedProblem, IntuitionisticFile, ProblemFile, command_of};
