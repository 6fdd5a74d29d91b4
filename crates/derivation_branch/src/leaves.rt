//! The names that stand in a term.

ghost use Rattle.std.specs.Prelude.{◌≡◌, ◌||◌, ℕ, OnErr, OnOk};
ghost use Rattle.calculus.specs.Calculus.{is_eigen};
ghost use Rattle.calculus.specs.Substitution.{any_leaf};
ghost use Rattle.label_table.specs.Longer.{IsLonger};
ghost use Rattle.derivation_branch.specs.Occurring.{holds};

use crate::number_set::NumberSet;
use cop_base::NoMemory;
use formula_text::{RowItem, TermRow};

// Adds the eigenvariables of a term one by one. Some stay where memory ends.
fn add_each_eigen(set: &mut NumberSet, t: &TermRow) -> Result<(), NoMemory>
    ensures held { OnOk result ((n : ℕ) → holds set.new n
        ≡ (holds set.old n || any_leaf (is_eigen n) t.now)) }
    ensures kept { IsLonger set.old set.new }
{
    for item in t.items() {
        match item {
            RowItem::Eigen(number) => set.add(*number)?,
            RowItem::Fun(_, _) | RowItem::Var(_) | RowItem::Spare(_) => {}
        }
    }
    Ok(())
}

/// Adds the eigenvariables of a term to a set.
pub fn add_eigens(set: &mut NumberSet, t: &TermRow) -> Result<(), NoMemory>
    ensures held { OnOk result ((n : ℕ) → holds set.new n
        ≡ (holds set.old n || any_leaf (is_eigen n) t.now)) }
    ensures kept { OnOk result (IsLonger set.old set.new) }
    ensures err { OnErr result (set.new ≡ set.old) }
{
    let count = set.count()?;
    match add_each_eigen(set, t) {
        Ok(()) => Ok(()),
        Err(error) => {
            set.cut(count);
            Err(error)
        }
    }
}
