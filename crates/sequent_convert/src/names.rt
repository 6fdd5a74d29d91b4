//! The name lines of a derivation.

ghost use Rattle.std.specs.Prelude.{◌≡◌, ◌↔◌, IsTrue, ◌++◌, ◌<◌, ◌^◌, ◌∷◌, [], IfOk, OnOk, length, map};
ghost use Rattle.calculus.specs.Ground.{g_new_mark, marks_list, marks_tree, values_tree};
ghost use Rattle.conversion_theory.specs.Numbering.{eigen_home, eigen_names, name_lines_of, number_of, numbered_label, numbered_mark, spare_names};
ghost use Rattle.conversion_theory.specs.Turns.{mark_name};
ghost use Rattle.formula_core.specs.GroundLists.{the_marks, the_value, the_values};
ghost use Rattle.name_order.specs.ByNumber.NameView.{the_name};
ghost use Rattle.sequent_calc.specs.DerivationView.{the_names};
ghost use Rattle.logic_rules.specs.MarkView.{the_character};
ghost use Rattle.tableau_core.specs.Numbered.SpotView.{the_mark_at};

use crate::numbered::{label_of, mark_of};
use cop_base::{NoMemory, PosId};
use formula_core::{GroundLabel, GroundMark, GroundTable, GroundTerm, Value, Values};
use logic_rules::{Label, Mark};
use name_order::{Name, Named};
use sequent_calc::{Home, Names};
use std::alloc::Global;
use tableau_core::{MarkAt, SizedProblem, eigen_home};

// Whether both lists have the same values.
#[tactic(auto, using(formula_core::specs::GroundEq::tree_equality, tableau_core::proofs::Places::values_equality))]
fn are_same_values(table: &GroundTable, a: &[Value], b: &[Value]) -> bool
    ensures { IsTrue result ↔ (map (the_value table.now) a.now ≡ map (the_value table.now) b.now) }
{
    if a.len() != b.len() {
        return false;
    }
    for i in 0..a.len() {
        let x = &a[i];
        let y = &b[i];
        if !table.is_same_value(*x, *y) {
            return false;
        }
    }
    true
}

// Whether this is the character of the pi position by the values taken on the way to it.
fn is_made(table: &GroundTable, name: Name, position: PosId, taken: &[Value]) -> bool
    ensures { IsTrue result ↔ (the_name table.now name ≡ mark_name (g_new_mark position.0 (values_tree (map (the_value table.now) taken.now)))) }
{
    match name {
        Name::Mark(GroundMark::New(p, list)) => {
            p == position && are_same_values(table, table.values(list), taken)
        }
        Name::Mark(GroundMark::Spare(_)) => false,
        Name::Term(_) => false,
    }
}

// The number of a character that is a name.
fn number_by(named: &Named, name: Name) -> u32
    ensures { result ≡ number_of named.now.names (the_name named.now.lists name) }
{
    match name {
        Name::Mark(GroundMark::New(p, list)) => named.mark(p, list).unwrap_or(0),
        Name::Mark(GroundMark::Spare(k)) => named.spare_mark(k).unwrap_or(0),
        Name::Term(term) => named.spare(term).unwrap_or(0),
    }
}

// The same, by looking at all names.
#[tactic(auto, using(crate::proofs::ByNumber::MadeNames::made))]
fn number_among(named: &Named, position: PosId, taken: &[Value]) -> u32
    ensures { result ≡ number_of named.now.names (mark_name (g_new_mark position.0 (values_tree (map (the_value named.now.lists) taken.now)))) }
{
    let table = named.table();
    for name in named.names() {
        if is_made(table, *name, position, taken) {
            return number_by(named, *name);
        }
    }
    0
}

// The number of the character of a pi position by the values taken on the way to it, 0 where the tableau does not mention it. The
// finder begins with the table of the names, and leads to the list of the values there.
fn made_number(
    named: &Named,
    finder: &mut GroundTable,
    position: PosId,
    taken: &[Value],
) -> Result<u32, NoMemory>
    ensures { IfOk result (λ n. n ≡ number_of named.now.names (mark_name (g_new_mark position.0 (values_tree (map (the_value named.now.lists) taken.now))))) }
{
    let list = finder.add_values(taken)?;
    let table = named.table();
    if are_same_values(table, table.values(list), taken) {
        return Ok(named.mark(position, list).unwrap_or(0));
    }
    Ok(number_among(named, position, taken))
}

fn character(named: &Named, finder: &mut GroundTable, mark: &MarkAt) -> Result<Mark, NoMemory>
    ensures { IfOk result (λ m. the_character m ≡ numbered_mark (number_of named.now.names) (the_mark_at named.now.lists mark.now)) }
{
    match mark {
        MarkAt::Given(mark) => Ok(mark_of(named, *mark)),
        MarkAt::Made(position, taken) => Ok(Mark::New(made_number(
            named, finder, *position, *taken,
        )?)),
    }
}

fn label_at(
    alloc: Global,
    named: &Named,
    finder: &mut GroundTable,
    marks: &[MarkAt],
) -> Result<Label, NoMemory>
    ensures { IfOk result (λ w. w ≡ numbered_label (number_of named.now.names) (map (the_mark_at named.now.lists) marks.now)) }
{
    let mut label = Label::new(alloc);
    for mark in marks {
        label.push(character(named, finder, mark)?)?;
    }
    Ok(label)
}

// The home of an eigenvariable.
fn home_of(
    alloc: Global,
    problem: &SizedProblem,
    named: &Named,
    finder: &mut GroundTable,
    position: PosId,
    values: Values,
) -> Result<Label, NoMemory>
    ensures { IfOk result (λ w. w ≡ eigen_home (number_of named.now.names) problem.now position.0 (values_tree (the_values named.now.lists values))) }
{
    let table = named.table();
    let values = table.values(values);
    let marks = eigen_home(alloc, problem, table, position, values)?;
    let home = label_at(alloc, named, finder, &marks)?;
    Ok(home)
}

// The home of a spare constant at a label.
fn own_home(alloc: Global, named: &Named, label: GroundLabel) -> Result<Label, NoMemory>
    ensures { IfOk result (λ w. w ≡ numbered_label (number_of named.now.names) (marks_list (marks_tree (the_marks named.now.lists label)))) }
{
    let home = label_of(alloc, named, named.table().marks(label))?;
    Ok(home)
}

#[tactic(auto, using(crate::proofs::ByNumber::NameLines::lines))]
fn add_name(
    alloc: Global,
    problem: &SizedProblem,
    named: &Named,
    finder: &mut GroundTable,
    name: Name,
    names: &mut Names,
) -> Result<(), NoMemory>
    ensures eigens { OnOk result (names.new.eigens ≡ names.old.eigens ++ eigen_names (number_of named.now.names) problem.now (the_name named.now.lists name ∷ [])) }
    ensures spares { OnOk result (names.new.spares ≡ names.old.spares ++ spare_names (number_of named.now.names) (the_name named.now.lists name ∷ [])) }
{
    match name {
        Name::Term(GroundTerm::Eigen(position, values)) => {
            let home = home_of(alloc, problem, named, finder, position, values)?;
            let number = named.eigen(position, values).unwrap_or(0);
            names.eigens.push((number, home))?;
        }
        Name::Term(GroundTerm::Common(k)) => {
            let number = named.spare(GroundTerm::Common(k)).unwrap_or(0);
            names.spares.push((number, Home::Anywhere))?;
        }
        Name::Term(GroundTerm::Own(k, label)) => {
            let home = own_home(alloc, named, label)?;
            let number = named.spare(GroundTerm::Own(k, label)).unwrap_or(0);
            names.spares.push((number, Home::At(home)))?;
        }
        Name::Term(GroundTerm::Fun(_, _)) | Name::Mark(_) => {}
    }
    Ok(())
}

/// The names of a tableau by their numbers, the eigenvariables and the spare constants with their homes. The finder begins with the
/// table of the names.
#[tactic(auto, using(crate::proofs::ByNumber::NameLines::lines))]
pub fn name_lines(
    alloc: Global,
    problem: &SizedProblem,
    named: &Named,
    finder: &mut GroundTable,
) -> Result<Names, NoMemory>
    ensures lines { IfOk result (λ n. the_names n ≡ name_lines_of (number_of named.now.names) problem.now named.now.names) }
    ensures few { length named.now.names < 2 ^ 32 }
{
    let mut names = Names::new(alloc);
    for name in named.names() {
        add_name(alloc, problem, named, finder, *name, &mut names)?;
    }
    Ok(names)
}
