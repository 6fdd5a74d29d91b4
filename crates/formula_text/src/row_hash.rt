//! Rows told apart and hashed by their items, so that they can be kept once in a set.

ghost use Rattle.std.specs.Cmp.{on_equiv, on_per};
ghost use Rattle.std.specs.Cmp.Lexicographic.{lists_equiv, lists_per};
ghost use Rattle.std.specs.Hash.{items_Alike, on_Alike};
ghost use Rattle.formula_text.specs.RowHash.{row_hashed, same_row};
ghost use Rattle.formula_text.specs.Rows.{row_of};
ghost use Rattle.formula_text.specs.contracts.term_row.RowItemEq.TheImpl.Laws as equality;
ghost use Rattle.formula_text.specs.contracts.term_row.RowItemHash.TheImpl.Laws as hashing;
ghost use Rattle.formula_text.specs.contracts.term_row.RowItemPartialEq.TheImpl.Laws as comparison;

use crate::term_row::TermRow;
use std::hash::{Hash, Hasher};

impl PartialEq for TermRow {
    ghost eq = { same_row };

    ghost laws = { on_per row_of (lists_per comparison.laws-law) };

    fn eq(&self, other: &TermRow) -> bool {
        self.items() == other.items()
    }
}

impl Eq for TermRow {
    ghost laws = { on_equiv row_of (lists_equiv equality.laws-law) };
}

impl Hash for TermRow {
    ghost hash_input = { row_hashed };

    ghost respects_eq = { (on_Alike row_of (items_Alike (record { fed = hashing.respects_eq-law }))).fed };

    fn hash<H: Hasher>(&self, state: &mut H) {
        self.items().hash(state);
    }
}
