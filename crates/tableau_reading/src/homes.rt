//! Homes of spare constants, where domains vary and no constant exists: the spare of a variable
//! stands at the label of the first gamma term that holds the variable, or else at the root.

ghost use Rattle.std.specs.Prelude.{◌≡◌, IfOk, IsTrue, List, length, map, option_map, slice_get};
ghost use Rattle.std.specs.List.{list_all};
ghost use Rattle.store_theory.specs.Stores as cells;
ghost use Rattle.store_theory.specs.Stores.{AreOwnSpares};
ghost use Rattle.term_store.specs.ClauseView.{the_gamma};
ghost use Rattle.term_store.specs.RefView.{the_place};
ghost use Rattle.tableau_reading.specs.Grounds.{AreSparesAt, home_of, label_numbered, number_in};
ghost use Rattle.tableau_reading.specs.Held.{AreFirst, mark_all, mark_at};
ghost use Rattle.tableau_reading.specs.Readable.{AreHomesBelow, is_gamma_below};

use cop_base::NoMemory;
use domain_cond::leaves;
use search_tree::reference_at;
use std::alloc::Global;
use term_store::{GammaList, GammaUse, Ref, Store};

/// Where the spare constants of variables stand.
#[derive(Drop)]
pub struct Homes {
    common: bool,
    gammas: GammaList,
    // For each leaf the number of the first gamma term that holds it, if one does.
    first: Vec<Option<usize>>,
}

// No gamma term holds any cell.
fn none_held(alloc: Global, store: &Store) -> Result<Vec<Option<usize>>, NoMemory>
    ensures { IfOk result (λ v. (gs : List cells.GammaCell) → AreFirst store.now.store gs 0 v.items) }
{
    let mut first = Vec::new(alloc);
    for _cell in 0..store.size() - store.spare() {
        first.push(None)?;
    }
    Ok(first)
}

// Gives the cell the number, unless it has one.
fn mark_cell(first: &mut Vec<Option<usize>>, place: usize, number: usize)
    ensures { first.new.items ≡ mark_at first.old.items place number }
{
    if place < first.len() {
        match first[place] {
            Some(_) => {}
            None => first[place] = Some(number),
        }
    }
}

// Gives these cells the number, unless they have one.
fn mark_cells(first: &mut Vec<Option<usize>>, refs: &[Ref], number: usize)
    ensures { first.new.items ≡ mark_all first.old.items (map the_place refs.now) number }
{
    for i in 0..refs.len() {
        mark_cell(first, reference_at(refs, i).0 as usize, number);
    }
}

// For each leaf the number of the first of the gamma terms that hold it.
fn first_held(
    alloc: Global,
    store: &Store,
    gammas: &[GammaUse],
) -> Result<Vec<Option<usize>>, NoMemory>
    requires { IsTrue (list_all (is_gamma_below (length store.now.store.cells)) (map the_gamma gammas.now)) }
    ensures { IfOk result (λ v. AreFirst store.now.store (map the_gamma gammas.now)
        (length gammas.now) v.items) }
{
    let mut first = none_held(alloc, store)?;
    for i in 0..gammas.len() {
        let held = leaves(alloc, store, gammas[i].term)?;
        mark_cells(&mut first, &held, i);
    }
    Ok(first)
}

/// The homes of the variables that these gamma terms hold. Spares of every domain have none.
pub fn homes_of(
    alloc: Global,
    store: &Store,
    gammas: GammaList,
    common: bool,
) -> Result<Homes, NoMemory>
    requires { IsTrue (list_all (is_gamma_below (length store.now.store.cells)) gammas) }
    ensures below { IfOk result (λ h. AreHomesBelow store.now.store h) }
    ensures spares { IfOk result (λ h. (σ : cells.Solution)
        → AreOwnSpares common store.now.store gammas σ (λ v. v) → AreSparesAt store.now.store h σ) }
{
    if common {
        return Ok(Homes {
            common,
            gammas,
            first: Vec::new(alloc),
        });
    }
    let first = first_held(alloc, store, gammas.items())?;
    Ok(Homes {
        common,
        gammas,
        first,
    })
}

// The items of the label of the gamma term of this number, or none at the root.
fn label_numbered(gammas: &[GammaUse], number: Option<usize>) -> &[Ref]
    ensures { map the_place result.now ≡ label_numbered (map the_gamma gammas.now) number }
{
    if let Some(i) = number {
        if i < gammas.len() {
            return gammas[i].label.items();
        }
    }
    &[]
}

impl Homes {
    /// Whether spares of every domain stand for all variables.
    pub(crate) fn is_common(&self) -> bool
        ensures { result ≡ self.now.common }
    {
        self.common
    }

    // The number of the first gamma term that holds the variable.
    fn first_with(&self, variable: Ref) -> Option<usize>
        ensures { result ≡ number_in (slice_get self.now.first.items variable.0) }
    {
        let place = variable.0 as usize;
        if place < self.first.len() {
            return self.first[place];
        }
        None
    }

    /// The items of the label at which the variable's spare stands, or none where it is one of every
    /// domain.
    pub(crate) fn label_of(&self, variable: Ref) -> Option<&[Ref]>
        ensures { option_map (λ x. map the_place x.now) result ≡ home_of self.now variable.0 }
    {
        if self.common {
            return None;
        }
        let number = self.first_with(variable);
        Some(label_numbered(self.gammas.items(), number))
    }
}
