//! What a command does once its files are read.

use crate::status::Status;
use command_line::{Bounds, GeneratedProblem};
use derivation_text::Version;
use logic_rules::Problem;

/// What is done with a problem alone.
#[derive(Clone, Copy)]
pub enum ProblemTask {
    Prove { bounds: Bounds, version: Version },
    Tableau { bounds: Bounds },
}

/// What is done with a problem and the bytes of a second file.
#[derive(Clone, Copy)]
pub enum FileTask {
    Check,
    Transfer,
    Migrate,
    Model { steps: u64 },
    Tcheck,
    Convert,
}

/// A command with what it works on in place of names of files.
#[derive(Drop)]
pub enum Task {
    /// The words are bad or a file was not read, so nothing but a line is written.
    Tell(Status),
    Make {
        problem: GeneratedProblem,
        bounds: Bounds,
    },
    OnProblem {
        task: ProblemTask,
        problem: Problem,
    },
    OnFile {
        task: FileTask,
        problem: Problem,
        bytes: Vec<u8>,
    },
}
