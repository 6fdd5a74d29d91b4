//! Terms of the problem under the terms put for their variables.

ghost use Rattle.std.specs.Prelude.{◌≡◌, ◌≤◌, List, length, IfOk};
ghost use Rattle.std.specs.List.{AllByRecursion};
ghost use Rattle.calculus.specs.Instances.{ground_of, grounds_of};
ghost use Rattle.calculus.specs.Lists.{terms_tree};
ghost use Rattle.calculus.specs.Syntax as tree;
ghost use Rattle.formula_core.specs.GroundLists.{GroundList, IsNormalTerm, no_list, the_g_term};
ghost use Rattle.formula_core.specs.TermView.{the_term};
ghost use Rattle.tableau_cert.specs.Made.{AreArgsMade, IsTermMade};
ghost use Rattle.tableau_cert.specs.WayView.{bound_terms};

use cop_base::NoMemory;
use formula_core::{GroundTable, GroundTerm, GroundTerms, Term, Terms};
use std::alloc::Global;

// What is put for the variable. A problem binds each of its variables.
fn bound(bindings: &[GroundTerm], k: u32) -> GroundTerm
    ensures term { (ls : List GroundList) → the_g_term ls result ≡ ground_of (bound_terms ls bindings.now) (tree.var k) }
    ensures normal { (ls : List GroundList) → AllByRecursion (IsNormalTerm ls) bindings.now → IsNormalTerm ls result }
{
    let place = k as usize;
    if place >= bindings.len() {
        return GroundTerm::Common(0);
    }
    bindings[bindings.len() - 1 - place]
}

/// The term with the bindings for its variables.
#[cycle(grounding)]
pub fn ground_term(
    alloc: Global,
    table: &mut GroundTable,
    bindings: &[GroundTerm],
    term: &Term,
) -> Result<GroundTerm, NoMemory>
    requires bindings { AllByRecursion (IsNormalTerm table.old) bindings.now }
    requires most { length table.old ≤ no_list }
    ensures { IfOk result (λ t. IsTermMade table.old table.new (ground_of (bound_terms table.old bindings.now) (the_term term.now)) t) }
{
    match term {
        Term::Var(k) => Ok(bound(bindings, *k)),
        Term::Fun(f, args) => {
            let args = ground_terms(alloc, table, bindings, args)?;
            Ok(GroundTerm::Fun(*f, args))
        }
        Term::Eigen(_) | Term::Spare(_) => Ok(GroundTerm::Common(0)),
    }
}

/// The terms with the bindings for their variables. Calls nest as the terms do.
#[cycle(grounding)]
#[tactic(auto, using(formula_core::specs::TermFalls::falling))]
pub fn ground_terms(
    alloc: Global,
    table: &mut GroundTable,
    bindings: &[GroundTerm],
    terms: &Terms,
) -> Result<GroundTerms, NoMemory>
    requires bindings { AllByRecursion (IsNormalTerm table.old) bindings.now }
    requires most { length table.old ≤ no_list }
    ensures { IfOk result (λ n. AreArgsMade table.old table.new (grounds_of (bound_terms table.old bindings.now) (terms_tree terms.now)) n) }
{
    let items = terms.items();
    let mut all = Vec::new(alloc);
    for i in 0..items.len() {
        let item = &items[i];
        let made = ground_term(alloc, table, bindings, item)?;
        all.push(made)?;
    }
    let list = table.add_terms(&all)?;
    Ok(list)
}
