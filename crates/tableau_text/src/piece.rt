//! What is left to be written of a list of values.

use crate::item::TableItem;
use formula_core::{GroundLabel, GroundTerms, Values};

/// An item, or the rest of a list from a place on, each item behind a comma, with the closing bracket.
#[derive(Clone, Copy)]
pub enum Piece {
    Item(TableItem),
    Args(GroundTerms, usize),
    Marks(GroundLabel, usize),
    Values(Values, usize),
}
