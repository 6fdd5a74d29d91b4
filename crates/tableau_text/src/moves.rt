//! What the lines of a tableau's text state.

use formula_core::{GroundTable, Values};
use tableau_core::Selection;

/// A clause instance by the sides of its clause and the number of the list of its values.
#[derive(Drop)]
pub struct Chosen {
    pub selection: Selection,
    pub values: Values,
}

/// How a goal is closed, without what closes the goals below it.
#[derive(Drop)]
pub enum Move {
    /// By the literal of an ancestor goal, the nearest having number 1.
    Reduction(u32),
    /// By the literal at a place of an instance, counted from 0; its other literals are the goals below.
    Extension { place: u32, chosen: Chosen },
}

/// The limit of the paths, the start clause's instance, and the moves that close the goals, in preorder. The values of the instances are
/// numbers of the table.
#[derive(Drop)]
pub struct Moves {
    pub limit: u8,
    pub table: GroundTable,
    pub start: Chosen,
    pub moves: Vec<Move>,
}
