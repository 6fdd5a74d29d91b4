//! The two entries of an axiom.

ghost use Rattle.std.specs.Prelude.{◌≡◌, List, IfOk, OnOk};
ghost use Rattle.calculus.specs.Calculus.{connects};
ghost use Rattle.calculus.specs.Syntax as tree;
ghost use Rattle.derivation_branch.specs.EntryView.{IsWithin, the_shared};
ghost use Rattle.derivation_branch.specs.OutlineView.{IsNodeOf};
ghost use Rattle.derivation_branch.specs.SameView.{AreSame};

use crate::entry::SharedEntry;
use crate::same_atoms::SameAtoms;
use crate::substitution::Substitutions;
use cop_base::NoMemory;
use formula_core::Sign;
use label_table::Labels;

/// Whether the entries are T and F of one atom at one label.
pub fn connects<'a>(
    substitutions: &Substitutions<'a>,
    labels: &Labels,
    same: &mut SameAtoms,
    given: SharedEntry<'a>,
    shown: SharedEntry<'a>,
) -> Result<bool, NoMemory>
    requires given { IsWithin substitutions.now labels.now given }
    requires shown { IsWithin substitutions.now labels.now shown }
    requires same { (parts : List tree.Formula) × AreSame substitutions.now parts same.old
        × IsNodeOf parts given × IsNodeOf parts shown }
    ensures told { IfOk result (λ told. told
        ≡ connects (the_shared substitutions.now labels.now given.entry)
        (the_shared substitutions.now labels.now shown.entry)) }
    ensures same { OnOk result ((parts : List tree.Formula)
        → AreSame substitutions.now parts same.old → IsNodeOf parts given.entry
        → IsNodeOf parts shown.entry → AreSame substitutions.now parts same.new) }
{
    if given.sign != Sign::T {
        return Ok(false);
    }
    if shown.sign != Sign::F {
        return Ok(false);
    }
    if !labels.are_equal(given.label, shown.label) {
        return Ok(false);
    }
    let told = same.are_same(substitutions, given, shown)?;
    Ok(told)
}
