//! The commands of the prover.
#![tactic(auto)]

mod commands;
mod fault_text;
mod inputs;
mod made_lines;
mod performing;
mod problem;
mod program;
mod reply;
mod second_file;
mod status;
mod status_line;
mod tableau_search;
mod task;
mod text_library;
mod translation;
mod writing;

pub use program::run;
pub use status::{Cause, Status, exit_code};
