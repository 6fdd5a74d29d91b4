//! What every crate of the prover uses of the outside: where files are read, byte texts, typed
//! numbers, counts, and the limit and the budget of a search.
#![tactic(auto)]

use std::alloc::{AllocError, AllocFailed};

mod edge;
mod ledger;
mod library;
mod mem_library;
mod path_limit;
mod record;
mod text;

pub use edge::{FileLibrary, Open, read_whole};
pub use ledger::Ledger;
pub use library::{FetchFault, Library, count_up};
pub use mem_library::MemLibrary;
pub use path_limit::PathLimit;
pub use record::ReadRecord;
pub use text::Text;

/// There is no memory left.
#[derive(Clone, Copy, Debug, PartialEq, Eq)]
pub struct NoMemory;

impl From<AllocError> for NoMemory {
    ghost from_gives = { λ _ r. Unit {0} };

    fn from(_error: AllocError) -> NoMemory {
        NoMemory
    }
}

impl<T: Drop> From<AllocFailed<T>> for NoMemory {
    ghost from_gives = { λ _ r. Unit {0} };

    fn from(_error: AllocFailed<T>) -> NoMemory {
        NoMemory
    }
}

/// The place of a symbol in the list of a problem's symbols, from 0.
#[derive(Clone, Copy, Debug, PartialEq, Eq)]
pub struct SymbolId(pub u32);

/// The number of a node of a formula in preorder, from 0. Terms are not counted.
#[derive(Clone, Copy, Debug, PartialEq, Eq)]
pub struct PosId(pub u32);

/// The place of a clause in a matrix, from 0.
#[derive(Clone, Copy, Debug, PartialEq, Eq)]
pub struct ClauseId(pub u32);
