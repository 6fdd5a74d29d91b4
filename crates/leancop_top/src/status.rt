//! How a run ends.

ghost use Rattle.std.specs.Prelude.{◌≡◌};
ghost use Rattle.leancop_top.specs.Statuses.{exit_of};

use calculus::fault::{StructureCause, TableauFault};
use cop_base::Text;
use derivation_check::CheckFault;

/// What is wrong in a problem file.
pub use problem_build::Cause;

/// How a run ended.
#[derive(Drop)]
pub enum Status {
    /// A derivation was printed, whose tableau is closed within the path limit; within no smaller
    /// one, but where a search that does not return to solved goals found it.
    Derived {
        limit: u8,
    },
    /// No tableau is closed within the path limit, the greatest that was asked for.
    Exhausted {
        limit: u8,
    },
    /// No tableau is closed within any path limit, which was seen at this one.
    NoTableau {
        limit: u8,
    },
    /// The budget of steps was used up; this is the last path limit that was searched whole, or 0,
    /// which it is where a structure is looked at.
    StepsEnded {
        limit: u8,
        steps: u64,
    },
    /// A tableau was printed, which is closed within the path limit. The limit is as for `Derived`.
    TableauFound {
        limit: u8,
    },
    /// The bytes are the text of a derivation that derives the problem's formula, or of a tableau that
    /// is closed within the limit that it states.
    Accepted,
    /// A derivation of the problem's translation into S4 was printed.
    Transferred,
    /// The derivation of the bytes was printed in version 2.
    Migrated,
    /// The derivation to which the tableau of the bytes leads was printed.
    Converted,
    /// The bytes are no text of a derivation that derives; the fault stands at this line, counted from
    /// 1.
    Rejected {
        line: u64,
        fault: CheckFault,
    },
    /// The bytes are no text of a closed tableau; the fault stands at this line, counted from 1.
    TableauRejected {
        line: u64,
        fault: TableauFault,
    },
    /// The formula is true at the root of the structure.
    TrueAtRoot,
    /// The formula is false at the root of the structure, so no derivation derives it.
    FalseAtRoot,
    /// The bytes state no structure of the problem's setting; the fault stands at this line, counted
    /// from 1.
    BadStructure {
        line: u64,
        cause: StructureCause,
    },
    /// The word at this place, counted from 1, is bad, or it is missing.
    BadWords {
        place: u64,
    },
    /// There is no file of this name.
    Missing {
        name: Text,
    },
    /// A file could not be read.
    ReadFault {
        name: Text,
    },
    /// The output could not be written.
    WriteFault,
    /// A file of the problem is wrong at this offset, which counts bytes from 0.
    BadProblem {
        file: Text,
        offset: u64,
        cause: Cause,
    },
    /// The problem's files have more than 16,777,216 bytes together.
    InputTooLarge,
    /// A token is nested deeper than 500, or a formula or axiom of equality deeper than 1,000.
    NestingTooDeep,
    /// The problem's formula has more than 4,000,000 nodes.
    FormulaTooLarge,
    /// There are more than 65,536 symbols.
    TooManySymbols,
    /// The matrix has more than 100,000 clauses or 1,000,000 literals.
    MatrixTooLarge,
    NoMemory,
}

/// The exit status of the process.
pub fn exit_code(status: &Status) -> u8
    ensures { result ≡ exit_of status.now }
{
    match status {
        Status::Derived { .. }
        | Status::TableauFound { .. }
        | Status::Accepted
        | Status::Transferred
        | Status::Migrated
        | Status::Converted
        | Status::TrueAtRoot => 0,
        Status::Exhausted { .. } => 1,
        Status::NoTableau { .. } => 2,
        Status::StepsEnded { .. } => 3,
        Status::BadProblem { .. }
        | Status::InputTooLarge
        | Status::NestingTooDeep
        | Status::FormulaTooLarge
        | Status::TooManySymbols
        | Status::MatrixTooLarge => 4,
        Status::BadWords { .. } => 5,
        Status::Missing { .. } | Status::ReadFault { .. } | Status::WriteFault => 6,
        Status::NoMemory => 7,
        Status::Rejected { .. } | Status::TableauRejected { .. } => 8,
        Status::FalseAtRoot => 9,
        Status::BadStructure { .. } => 10,
    }
}
