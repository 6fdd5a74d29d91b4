//! Signed ground atoms at labels.

ghost use Rattle.std.specs.Prelude.{◌≡◌, ◌++◌, ◌∷◌, [], OnOk, OnErr};

use cop_base::{NoMemory, SymbolId};
use formula_core::{GroundLabel, GroundTerms, Sign};
use std::alloc::Global;
use std::marker::Model;

/// A signed ground atom at the label of its world. Sign F marks what is to be shown.
#[derive(Clone, Copy)]
pub struct GroundLiteral {
    pub sign: Sign,
    pub symbol: SymbolId,
    pub args: GroundTerms,
    pub label: GroundLabel,
}

/// The literals of a clause, in order.
#[derive(Drop)]
pub struct LiteralList {
    items: Vec<GroundLiteral>,
}

impl Model for LiteralList {
    ghost use Rattle.std.specs.Prelude.{List};
    ghost use Rattle.tableau_core.specs.declared.literal.GroundLiteral.{GroundLiteral as Literal};

    ghost Value = { List Literal };

    ghost view = { λ a. a.items.items };
}

impl LiteralList {
    /// The empty list.
    pub fn new(alloc: Global) -> LiteralList
        ensures { result ≡ [] }
    {
        LiteralList {
            items: Vec::new(alloc),
        }
    }

    /// Appends the item. Want of memory leaves the list as it was.
    pub fn push(&mut self, item: GroundLiteral) -> Result<(), NoMemory>
        ensures ok { OnOk result (self.new ≡ self.old ++ item ∷ []) }
        ensures err { OnErr result (self.new ≡ self.old) }
    {
        self.items.push(item)?;
        Ok(())
    }

    /// The items in order.
    pub fn items(&self) -> &[GroundLiteral]
        ensures { result.now ≡ self.now }
    {
        self.items.as_slice()
    }
}
