//! Literals and instances of a tree without open goals, by own spares.

ghost use Rattle.std.specs.Prelude.{◌≡◌, ◌≤◌, ◌-◌, ◌++◌, IfOk, IsTrue, List, OnOk, length, map, slice_get};
ghost use Rattle.std.specs.List.{list_all};
ghost use Rattle.calculus.specs.Ground as tree;
ghost use Rattle.formula_core.specs.GroundLists.{IsGrown};
ghost use Rattle.store_theory.specs.Stores.{Solution, names_below};
ghost use Rattle.store_theory.specs.Systems as cells;
ghost use Rattle.search_theory.specs.OrderedChoices.{selection_of};
ghost use Rattle.search_theory.specs.States.{atom_is_below, clause_at, label_by, literal_by, terms_by};
ghost use Rattle.search_theory.specs.States.{values_by};
ghost use Rattle.term_store.specs.ClauseView.{the_atom};
ghost use Rattle.term_store.specs.RefView.{the_place, the_places};
ghost use Rattle.tableau_reading.specs.Grounds.{AreSparesAt, HasSparesAt, IsReading};
ghost use Rattle.tableau_reading.specs.Readable.{AreHomesBelow, IsReadable};
ghost use Rattle.tableau_reading.specs.Waiting.{AreAllMade};
ghost use Rattle.tableau_reading.specs.Reading.{AreLiteralsOf, AreMarksOf, AreTermsOf, AreValuesOf};
ghost use Rattle.tableau_reading.specs.Reading.{IsInstanceOf, IsLiteralOf};
ghost use Rattle.search_tree.specs.Trees.{clause_with, inserted};

use crate::grounds::Grounds;
use crate::homes::Homes;
use calculus::sign::Side;
use cop_base::NoMemory;
use formula_core::{GroundLabel, GroundTerms, Values};
use matrix_build::Matrix;
use search_tree::{Copied, reference_at};
use std::alloc::Global;
use tableau_core::{ClauseInstance, GroundLiteral, LiteralList, Selection};
use term_store::{CellAtom, Ref, Store, Variables};

/// What is read off: cells of the store, with the homes of their spares, and clauses of the matrix.
#[derive(Clone, Copy)]
pub struct Source<'a> {
    pub alloc: Global,
    pub store: &'a Store,
    pub homes: &'a Homes,
    pub matrix: &'a Matrix,
}

// The sides, as a list of their own.
fn copy_selection(alloc: Global, sides: &[Side]) -> Result<Selection, NoMemory>
    ensures { IfOk result (λ s. s ≡ sides.now) }
{
    let mut selection = Selection::new(alloc);
    for side in sides {
        selection.push(*side)?;
    }
    Ok(selection)
}

// Makes what stands for these cells.
fn make_all(from: &Source<'_>, grounds: &mut Grounds, refs: &[Ref]) -> Result<(), NoMemory>
    requires homes { AreHomesBelow from.now.store.now.store from.now.homes.now }
    requires spares { HasSparesAt from.now.store.now.store from.now.homes.now }
    requires reading { IsReading from.now.store.now.store from.now.homes.now grounds.old }
    requires below { IsTrue (names_below (length from.now.store.now.store.cells) (map the_place refs.now)) }
    ensures reading { OnOk result (IsReading from.now.store.now.store from.now.homes.now grounds.new) }
    ensures grown { OnOk result (IsGrown grounds.old.table grounds.new.table) }
    ensures made { OnOk result (AreAllMade from.now.store.now.store grounds.new.made.items
        (map the_place refs.now)) }
{
    for i in 0..refs.len() {
        let _made = grounds.ground_of(from.alloc, from.store, from.homes, reference_at(refs, i))?;
    }
    Ok(())
}

// The terms of the cells.
fn terms_of(from: &Source<'_>, grounds: &mut Grounds, refs: &[Ref]) -> Result<GroundTerms, NoMemory>
    requires homes { AreHomesBelow from.now.store.now.store from.now.homes.now }
    requires spares { HasSparesAt from.now.store.now.store from.now.homes.now }
    requires reading { IsReading from.now.store.now.store from.now.homes.now grounds.old }
    requires below { IsTrue (names_below (length from.now.store.now.store.cells) (map the_place refs.now)) }
    ensures terms { IfOk result (λ n. (σ : Solution) → AreSparesAt from.now.store.now.store from.now.homes.now σ
        → AreTermsOf grounds.new.table n (terms_by σ (map the_place refs.now))) }
    ensures reading { IfOk result (λ n. IsReading from.now.store.now.store from.now.homes.now grounds.new) }
    ensures grown { IfOk result (λ n. IsGrown grounds.old.table grounds.new.table) }
{
    make_all(from, grounds, refs)?;
    let items = grounds.terms(from.alloc, from.store, refs)?;
    let terms = grounds.table.add_terms(&items)?;
    Ok(terms)
}

// The label of the cells.
fn label_of(from: &Source<'_>, grounds: &mut Grounds, refs: &[Ref]) -> Result<GroundLabel, NoMemory>
    requires homes { AreHomesBelow from.now.store.now.store from.now.homes.now }
    requires spares { HasSparesAt from.now.store.now.store from.now.homes.now }
    requires reading { IsReading from.now.store.now.store from.now.homes.now grounds.old }
    requires below { IsTrue (names_below (length from.now.store.now.store.cells) (map the_place refs.now)) }
    ensures label { IfOk result (λ n. (σ : Solution) → AreSparesAt from.now.store.now.store from.now.homes.now σ
        → AreMarksOf grounds.new.table n (label_by σ (map the_place refs.now))) }
    ensures reading { IfOk result (λ n. IsReading from.now.store.now.store from.now.homes.now grounds.new) }
    ensures grown { IfOk result (λ n. IsGrown grounds.old.table grounds.new.table) }
{
    make_all(from, grounds, refs)?;
    let items = grounds.marks(from.alloc, from.store, refs)?;
    let label = grounds.table.add_marks(&items)?;
    Ok(label)
}

// The variables one by one.
fn all_variables(alloc: Global, variables: Variables) -> Result<Vec<Ref>, NoMemory>
    ensures { IfOk result (λ v. map the_place v.items ≡ the_places variables) }
{
    let mut refs = Vec::new(alloc);
    for k in 0..variables.count() {
        refs.push(variables.at(k))?;
    }
    Ok(refs)
}

// The values of the cells.
fn values_at(from: &Source<'_>, grounds: &mut Grounds, refs: &[Ref]) -> Result<Values, NoMemory>
    requires homes { AreHomesBelow from.now.store.now.store from.now.homes.now }
    requires spares { HasSparesAt from.now.store.now.store from.now.homes.now }
    requires reading { IsReading from.now.store.now.store from.now.homes.now grounds.old }
    requires below { IsTrue (names_below (length from.now.store.now.store.cells) (map the_place refs.now)) }
    ensures values { IfOk result (λ n. (σ : Solution) → AreSparesAt from.now.store.now.store from.now.homes.now σ
        → AreValuesOf grounds.new.table n (values_by σ (map the_place refs.now))) }
    ensures reading { IfOk result (λ n. IsReading from.now.store.now.store from.now.homes.now grounds.new) }
    ensures grown { IfOk result (λ n. IsGrown grounds.old.table grounds.new.table) }
{
    make_all(from, grounds, refs)?;
    let items = grounds.values(from.alloc, from.store, refs)?;
    let values = grounds.table.add_values(&items)?;
    Ok(values)
}

// The values of the variables.
fn values_of(
    from: &Source<'_>,
    grounds: &mut Grounds,
    variables: Variables,
) -> Result<Values, NoMemory>
    requires homes { AreHomesBelow from.now.store.now.store from.now.homes.now }
    requires spares { HasSparesAt from.now.store.now.store from.now.homes.now }
    requires reading { IsReading from.now.store.now.store from.now.homes.now grounds.old }
    requires below { IsTrue (names_below (length from.now.store.now.store.cells) (the_places variables)) }
    ensures values { IfOk result (λ n. (σ : Solution) → AreSparesAt from.now.store.now.store from.now.homes.now σ
        → AreValuesOf grounds.new.table n (values_by σ (the_places variables))) }
    ensures reading { IfOk result (λ n. IsReading from.now.store.now.store from.now.homes.now grounds.new) }
    ensures grown { IfOk result (λ n. IsGrown grounds.old.table grounds.new.table) }
{
    let refs = all_variables(from.alloc, variables)?;
    let values = values_at(from, grounds, &refs)?;
    Ok(values)
}

// The ground literal of an atom.
fn literal_of(
    from: &Source<'_>,
    grounds: &mut Grounds,
    atom: &CellAtom,
) -> Result<GroundLiteral, NoMemory>
    requires homes { AreHomesBelow from.now.store.now.store from.now.homes.now }
    requires spares { HasSparesAt from.now.store.now.store from.now.homes.now }
    requires reading { IsReading from.now.store.now.store from.now.homes.now grounds.old }
    requires below { IsTrue (atom_is_below (length from.now.store.now.store.cells) (the_atom atom.now)) }
    ensures literal { IfOk result (λ x. (σ : Solution) → AreSparesAt from.now.store.now.store from.now.homes.now σ
        → IsLiteralOf grounds.new.table x (literal_by σ (the_atom atom.now))) }
    ensures reading { IfOk result (λ n. IsReading from.now.store.now.store from.now.homes.now grounds.new) }
    ensures grown { IfOk result (λ n. IsGrown grounds.old.table grounds.new.table) }
{
    let args = terms_of(from, grounds, atom.args.items())?;
    let label = label_of(from, grounds, atom.label.items())?;
    Ok(GroundLiteral {
        sign: atom.sign,
        symbol: atom.symbol,
        args,
        label,
    })
}

// Appends the ground literals of the atoms.
fn add_literals(
    from: &Source<'_>,
    grounds: &mut Grounds,
    atoms: &[CellAtom],
    literals: &mut LiteralList,
) -> Result<(), NoMemory>
    requires homes { AreHomesBelow from.now.store.now.store from.now.homes.now }
    requires spares { HasSparesAt from.now.store.now.store from.now.homes.now }
    requires reading { IsReading from.now.store.now.store from.now.homes.now grounds.old }
    requires below { IsTrue (list_all (atom_is_below (length from.now.store.now.store.cells))
        (map the_atom atoms.now)) }
    ensures literals { OnOk result ((σ : Solution) → AreSparesAt from.now.store.now.store from.now.homes.now σ
        → (ys : List tree.GroundLiteral) → AreLiteralsOf grounds.old.table literals.old ys
        → AreLiteralsOf grounds.new.table literals.new (ys ++ map (literal_by σ) (map the_atom atoms.now))) }
    ensures reading { OnOk result (IsReading from.now.store.now.store from.now.homes.now grounds.new) }
    ensures grown { OnOk result (IsGrown grounds.old.table grounds.new.table) }
{
    for i in 0..atoms.len() {
        let literal = literal_of(from, grounds, &atoms[i])?;
        literals.push(literal)?;
    }
    Ok(())
}

// The instance of the copied clause with these literals.
fn instance_of(
    from: &Source<'_>,
    grounds: &mut Grounds,
    copied: &Copied,
    literals: LiteralList,
) -> Result<ClauseInstance, NoMemory>
    requires homes { AreHomesBelow from.now.store.now.store from.now.homes.now }
    requires spares { HasSparesAt from.now.store.now.store from.now.homes.now }
    requires reading { IsReading from.now.store.now.store from.now.homes.now grounds.old }
    requires readable { IsReadable from.now.store.now.store from.now.matrix.now copied.now }
    ensures selection { IfOk result (λ i. i.selection ≡ selection_of (slice_get from.now.matrix.now copied.now.clause.0)) }
    ensures is_instance { IfOk result (λ i. (σ : Solution) → AreSparesAt from.now.store.now.store from.now.homes.now σ
        → (atoms : List cells.CellAtom) → AreLiteralsOf grounds.old.table literals (map (literal_by σ) atoms)
        → IsInstanceOf grounds.new.table i (clause_at σ (clause_with from.now.matrix.now copied.now atoms))) }
    ensures reading { IfOk result (λ n. IsReading from.now.store.now.store from.now.homes.now grounds.new) }
    ensures grown { IfOk result (λ n. IsGrown grounds.old.table grounds.new.table) }
{
    let selection = copy_selection(from.alloc, from.matrix.selection(copied.clause).items())?;
    let values = values_of(from, grounds, copied.copy.variables)?;
    Ok(ClauseInstance {
        selection,
        values,
        literals,
    })
}

/// The instance of a start clause, all of whose literals are goals.
pub(crate) fn start_instance(
    from: &Source<'_>,
    grounds: &mut Grounds,
    copied: &Copied,
) -> Result<ClauseInstance, NoMemory>
    requires homes { AreHomesBelow from.now.store.now.store from.now.homes.now }
    requires spares { HasSparesAt from.now.store.now.store from.now.homes.now }
    requires reading { IsReading from.now.store.now.store from.now.homes.now grounds.old }
    requires readable { IsReadable from.now.store.now.store from.now.matrix.now copied.now }
    ensures selection { IfOk result (λ i. i.selection ≡ selection_of (slice_get from.now.matrix.now copied.now.clause.0)) }
    ensures is_instance { IfOk result (λ i. (σ : Solution) → AreSparesAt from.now.store.now.store from.now.homes.now σ
        → IsInstanceOf grounds.new.table i
        (clause_at σ (clause_with from.now.matrix.now copied.now copied.now.copy.literals))) }
    ensures reading { IfOk result (λ n. IsReading from.now.store.now.store from.now.homes.now grounds.new) }
    ensures grown { IfOk result (λ n. IsGrown grounds.old.table grounds.new.table) }
{
    let mut literals = LiteralList::new(from.alloc);
    add_literals(from, grounds, copied.copy.literals.items(), &mut literals)?;
    instance_of(from, grounds, copied, literals)
}

/// The instance of a clause with the connected literal put back at its place.
pub(crate) fn connected_instance(
    from: &Source<'_>,
    grounds: &mut Grounds,
    copied: &Copied,
    place: usize,
    atom: &CellAtom,
) -> Result<ClauseInstance, NoMemory>
    requires homes { AreHomesBelow from.now.store.now.store from.now.homes.now }
    requires spares { HasSparesAt from.now.store.now.store from.now.homes.now }
    requires reading { IsReading from.now.store.now.store from.now.homes.now grounds.old }
    requires readable { IsReadable from.now.store.now.store from.now.matrix.now copied.now }
    requires place { place ≤ length copied.now.copy.literals }
    requires atom { IsTrue (atom_is_below (length from.now.store.now.store.cells) (the_atom atom.now)) }
    ensures selection { IfOk result (λ i. i.selection ≡ selection_of (slice_get from.now.matrix.now copied.now.clause.0)) }
    ensures is_instance { IfOk result (λ i. (σ : Solution) → AreSparesAt from.now.store.now.store from.now.homes.now σ
        → IsInstanceOf grounds.new.table i (clause_at σ
        (clause_with from.now.matrix.now copied.now (inserted place (the_atom atom.now) copied.now.copy.literals)))) }
    ensures reading { IfOk result (λ n. IsReading from.now.store.now.store from.now.homes.now grounds.new) }
    ensures grown { IfOk result (λ n. IsGrown grounds.old.table grounds.new.table) }
{
    let goals = copied.copy.literals.items();
    let mut literals = LiteralList::new(from.alloc);
    add_literals(from, grounds, &goals[..place], &mut literals)?;
    let connected = literal_of(from, grounds, atom)?;
    literals.push(connected)?;
    add_literals(from, grounds, &goals[place..], &mut literals)?;
    instance_of(from, grounds, copied, literals)
}
