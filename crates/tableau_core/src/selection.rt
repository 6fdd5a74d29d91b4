//! Selections, which name the clauses of a matrix.

ghost use Rattle.std.specs.Prelude.{◌≡◌, ◌++◌, ◌∷◌, [], OnOk, OnErr};

use calculus::sign::Side;
use cop_base::NoMemory;
use std::alloc::Global;
use std::marker::Model;

/// The sides that a clause takes at the alpha positions with two components, the outer position first. The clauses of
/// a matrix are named by their selections.
#[derive(Debug, Drop)]
pub struct Selection {
    sides: Vec<Side>,
}

impl Model for Selection {
    ghost use Rattle.std.specs.Prelude.{List};
    ghost use Rattle.calculus.specs.declared.sign.Side.{Side};

    ghost Value = { List Side };

    ghost view = { λ s. s.sides.items };
}

impl Selection {
    /// The empty list.
    pub fn new(alloc: Global) -> Selection
        ensures { result ≡ [] }
    {
        Selection {
            sides: Vec::new(alloc),
        }
    }

    /// Appends the item. Want of memory leaves the list as it was.
    pub fn push(&mut self, item: Side) -> Result<(), NoMemory>
        ensures ok { OnOk result (self.new ≡ self.old ++ item ∷ []) }
        ensures err { OnErr result (self.new ≡ self.old) }
    {
        self.sides.push(item)?;
        Ok(())
    }

    /// The items in order.
    pub fn items(&self) -> &[Side]
        ensures { result.now ≡ self.now }
    {
        self.sides.as_slice()
    }
}
