//! Pairs of entries of one atom, which are compared once.

ghost use Rattle.std.specs.Prelude.{◌≡◌, ◌&&◌, ◌<◌, [], List, length, true, IfOk, OnOk};
ghost use Rattle.calculus.specs.Calculus.{is_atom};
ghost use Rattle.calculus.specs.Equality.{formula_eq};
ghost use Rattle.calculus.specs.Syntax as tree;
ghost use Rattle.derivation_branch.specs.EntryView.{formula_under};
ghost use Rattle.derivation_branch.specs.OutlineView.{IsNodeOf};
ghost use Rattle.derivation_branch.specs.SameView.{AreSame, IsSame};
ghost use Rattle.formula_core.specs.FormulaView.{the_formula};

use crate::comparison::are_same_atom;
use crate::entry::SharedEntry;
use crate::substitution::Substitutions;
use cop_base::NoMemory;
use indexmap::IndexSet;
use std::alloc::Global;
use std::marker::Model;

/// Two parts of the problem's formula by their places in its outline, each under the substitution
/// at a place of the table.
#[derive(Clone, Copy, PartialEq, Eq, Hash)]
pub struct Pair {
    given: u32,
    given_under: u32,
    shown: u32,
    shown_under: u32,
}

/// Pairs of parts that are the same atom. A pair comes again in each branch behind the two entries,
/// and its terms may be large.
#[derive(Drop)]
pub struct SameAtoms {
    pairs: IndexSet<Pair>,
}

impl Model for SameAtoms {
    ghost use Rattle.std.specs.Prelude.{List};
    ghost use Rattle.derivation_branch.specs.declared.same_atoms.Pair.{Pair};

    ghost Value = { List Pair };

    ghost view = { λ s. s.pairs.keys };
}

fn pair_of<'a>(given: SharedEntry<'a>, shown: SharedEntry<'a>) -> Pair
    ensures given { (result.given ≡ given.entry.node)
        × (result.given_under ≡ given.entry.substitution) }
    ensures shown { (result.shown ≡ shown.entry.node)
        × (result.shown_under ≡ shown.entry.substitution) }
{
    Pair {
        given: given.node,
        given_under: given.substitution,
        shown: shown.node,
        shown_under: shown.substitution,
    }
}

impl SameAtoms {
    /// No pairs.
    pub fn new(alloc: Global) -> SameAtoms
        ensures { result ≡ [] }
    {
        SameAtoms {
            pairs: IndexSet::new(alloc),
        }
    }

    // Whether a pair is among these.
    fn has(&self, pair: Pair) -> bool
        ensures { result ≡ true → (table : List (List tree.Term)) → (parts : List tree.Formula)
            → AreSame table parts self.now → IsSame table parts pair }
    {
        self.pairs.contains(&pair)
    }

    // Adds a pair.
    fn add(&mut self, pair: Pair) -> Result<(), NoMemory>
        ensures { OnOk result ((table : List (List tree.Term)) → (parts : List tree.Formula)
            → AreSame table parts self.old → IsSame table parts pair → AreSame table parts self.new) }
    {
        self.pairs.insert(pair)?;
        Ok(())
    }

    /// Whether two entries are of one atom.
    pub fn are_same<'a>(
        &mut self,
        substitutions: &Substitutions<'a>,
        given: SharedEntry<'a>,
        shown: SharedEntry<'a>,
    ) -> Result<bool, NoMemory>
        requires given { given.substitution < length substitutions.now }
        requires shown { shown.substitution < length substitutions.now }
        requires same { (parts : List tree.Formula) × AreSame substitutions.now parts self.old
            × IsNodeOf parts given × IsNodeOf parts shown }
        ensures told { IfOk result (λ told. told ≡ (is_atom (formula_under substitutions.now
            given.entry.substitution (the_formula given.entry.formula.now))
            && formula_eq (formula_under substitutions.now given.entry.substitution
            (the_formula given.entry.formula.now)) (formula_under substitutions.now
            shown.entry.substitution (the_formula shown.entry.formula.now)))) }
        ensures same { OnOk result ((parts : List tree.Formula)
            → AreSame substitutions.now parts self.old → IsNodeOf parts given.entry
            → IsNodeOf parts shown.entry → AreSame substitutions.now parts self.new) }
    {
        let pair = pair_of(given, shown);
        if self.has(pair) {
            return Ok(true);
        }
        let told = are_same_atom(
            substitutions,
            given.formula,
            given.substitution,
            shown.formula,
            shown.substitution,
        );
        if !told {
            return Ok(false);
        }
        self.add(pair)?;
        Ok(true)
    }
}
