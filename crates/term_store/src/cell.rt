//! Cells and what names them.

ghost use Rattle.std.specs.Prelude.{◌≡◌, ◌<◌, ◌+◌, ◌-◌};

use calculus::sort::Sort;
use cop_base::{PosId, SymbolId};

/// Names a cell of a store by its place.
#[derive(Clone, Copy, Debug, PartialEq, Eq)]
pub struct Ref(pub u32);

/// A moment in the life of a store, to which it can be brought back: how many cells and how many entries of the trail it
/// had.
#[derive(Clone, Copy, Debug)]
pub struct TrailMark {
    pub(crate) cells: usize,
    pub(crate) entries: usize,
}

/// Variables that stand side by side: the cell `first` and those behind it, up to `end`. Both are places, so each of them
/// has one.
#[derive(Clone, Copy, Debug)]
pub struct Variables {
    pub first: Ref,
    pub end: Ref,
}

impl Variables {
    /// How many there are.
    pub fn count(self) -> u32
        ensures { result ≡ self.end.0 - self.first.0 }
    {
        self.end.0.saturating_sub(self.first.0)
    }

    /// The one of this number.
    pub fn at(self, k: u32) -> Ref
        requires { self.first.0 + k < self.end.0 }
        ensures { result.0 ≡ self.first.0 + k }
    {
        Ref(self.first.0 + k)
    }
}

/// What stands at the end of a cell's bindings: an unbound variable, a term or mark of this name, or a string.
#[derive(Clone, Copy, Debug)]
pub enum Head {
    Open(Sort),
    Fun(SymbolId),
    Eigen(PosId),
    New(PosId),
    Marks,
}

/// A cell at which bindings end, and what it holds.
#[derive(Clone, Copy, Debug)]
pub struct End {
    pub place: Ref,
    pub content: Content,
}

// The kind and the name of a built cell.
#[derive(Clone, Copy, Debug)]
pub(crate) enum Name {
    Fun(SymbolId),
    Eigen(PosId),
    New(PosId),
    Marks,
}

/// What a cell holds: an unbound variable, one that is bound to this cell, or a built cell of this name with so many
/// parts.
#[derive(Clone, Copy, Debug)]
pub enum Content {
    Open(Sort),
    Bound(Sort, Ref),
    Fun(SymbolId, u32),
    Eigen(PosId, u32),
    New(PosId, u32),
    Marks(u32),
}

// A cell, and where its parts begin in the list of all parts. A variable has no parts, and its start tells how long that
// list was when the cell was made, so that the list can be cut back with the cells.
#[derive(Clone, Copy, Debug)]
pub(crate) struct Slot {
    pub(crate) content: Content,
    pub(crate) start: u32,
}
