//! The limits that this project sets. Definitions, contracts and code cite them here.

/// The most symbols of a problem, those of equality and truth included.
pub const MAX_SYMBOLS: usize = 65_536;
/// The most nodes of a problem's formula, terms included.
pub const MAX_NODES: u64 = 4_000_000;
/// The most nodes from the root of a problem's formula to a leaf.
pub const MAX_NESTING: u64 = 1_100;
/// The most nodes from the root to a leaf of a formula that is read, or of an axiom of equality. The
/// premises of a problem are joined evenly, so a problem's formula is not much deeper.
pub const MAX_ITEM_NESTING: u64 = 1_000;
/// The most clauses of a matrix.
pub const MAX_CLAUSES: u64 = 100_000;
/// The most literals of a matrix.
pub const MAX_LITERALS: u64 = 1_000_000;
/// The greatest path limit. The least is 1.
pub const MAX_PATH_LIMIT: u8 = 200;
/// The most entries of a symbol's table in a structure.
pub const MAX_TABLE_ENTRIES: u64 = 1_000_000;
