//! Terms in rows: each symbol stands before its arguments, so that a large term is one block of
//! memory and is walked from its beginning to its end.

ghost use Rattle.std.specs.Prelude.{◌≡◌, IfOk};
ghost use Rattle.std.proofs.Common.{rules};
ghost use Rattle.calculus.specs.Syntax as tree;
ghost use Rattle.formula_text.specs.Rows.{row_of};
ghost use Rattle.formula_text.specs.ItemHash.{item_hashed};

use cop_base::{NoMemory, SymbolId};
use std::alloc::Global;
use std::hash::{Hash, Hasher};
use std::marker::Model;

/// What stands in a row: a leaf, or a function symbol before so many arguments.
#[derive(Clone, Copy, Debug, PartialEq, Eq)]
pub enum RowItem {
    Var(u32),
    Fun(SymbolId, u32),
    Eigen(u32),
    Spare(u32),
}

// The kinds of leaves and the numbers of arguments are left to `==`, which makes hashing faster.
impl Hash for RowItem {
    ghost hash_input = { item_hashed };

    ghost respects_eq = { Prim.search rules };

    fn hash<H: Hasher>(&self, state: &mut H) {
        match self {
            RowItem::Fun(f, _) => state.write_u32(f.0),
            RowItem::Var(n) | RowItem::Eigen(n) | RowItem::Spare(n) => state.write_u32(*n),
        }
    }
}

/// A term in a row.
#[derive(Drop)]
pub struct TermRow {
    items: Vec<RowItem>,
}

impl Model for TermRow {
    ghost use Rattle.std.specs.Prelude.{◌≡◌};
    ghost use Rattle.calculus.specs.Syntax as tree;
    ghost use Rattle.calculus.specs.Codes.{term_code};
    ghost use Rattle.formula_text.specs.Rows.{root_of, row_of};

    ghost Value = { tree.Term };

    ghost coded = { term_code };

    ghost view = { λ s. root_of s.items.items };

    ghost invariant = { λ s. s.items.items ≡ row_of (root_of s.items.items) };
}

impl TermRow {
    /// The term of a row.
    pub fn new(items: Vec<RowItem>) -> TermRow
        requires { (t : tree.Term) × (items.items ≡ row_of t) }
        ensures { (t : tree.Term) → items.items ≡ row_of t → result ≡ t }
    {
        TermRow { items }
    }

    /// The same term in another row.
    pub fn copy(&self, alloc: Global) -> Result<TermRow, NoMemory>
        ensures { IfOk result (λ row. row ≡ self.now) }
    {
        let mut items = Vec::new(alloc);
        items.extend_from_slice(self.items())?;
        Ok(TermRow::new(items))
    }

    /// The row of the term.
    pub fn items(&self) -> &[RowItem]
        ensures { result.now ≡ row_of self.now }
    {
        self.items.as_slice()
    }
}
