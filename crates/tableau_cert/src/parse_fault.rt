//! Why bytes are no text of a closed tableau.

ghost use Rattle.std.specs.Prelude.{◌≡◌};
ghost use Rattle.tableau_cert.specs.declared.parse_fault.TableauParse.TheVariants as answer;

use calculus::fault::TableauFault;
use cop_base::NoMemory;
use std::alloc::AllocFailed;

/// The first line, counted from 1, that is wrong or at which the tableau is rejected, with the fault;
/// or want of memory.
#[derive(Clone, Copy, Debug, PartialEq, Eq)]
pub enum TableauParse {
    Bad { line: u64, fault: TableauFault },
    NoMemory,
}

impl From<NoMemory> for TableauParse {
    ghost from_gives = { λ _ r. r ≡ answer.NoMemory };

    fn from(_error: NoMemory) -> TableauParse {
        TableauParse::NoMemory
    }
}

impl<T: Drop> From<AllocFailed<T>> for TableauParse {
    ghost from_gives = { λ _ r. r ≡ answer.NoMemory };

    fn from(_error: AllocFailed<T>) -> TableauParse {
        TableauParse::NoMemory
    }
}
