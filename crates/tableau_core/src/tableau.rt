//! Tableaux as trees.

use crate::closing::ClosingList;
use crate::instance::ClauseInstance;
use formula_core::GroundTable;

/// A connection tableau: the instance of a start clause, with a closing for each of its literals. The
/// ground values of its instances are numbers of the table.
#[derive(Drop)]
pub struct Tableau {
    pub table: GroundTable,
    pub start: ClauseInstance,
    pub goals: ClosingList,
}
