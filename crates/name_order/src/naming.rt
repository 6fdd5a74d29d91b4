//! The names of a tableau and its turns by the numbers of a table that grows from the tableau's.

ghost use Rattle.std.specs.Prelude.{◌≡◌, ◌++◌, ◌∷◌, [], map, IfOk};
ghost use Rattle.std.specs.List.{AllByRecursion, flat_map};
ghost use Rattle.calculus.specs.Ground.{g_eigen, g_new_mark, values_tree};
ghost use Rattle.conversion_theory.specs.Numbering.{name_eq};
ghost use Rattle.conversion_theory.specs.Turns.{mark_name, term_name};
ghost use Rattle.formula_core.specs.GroundLists.{the_value, the_values, AreNormalValues};
ghost use Rattle.name_order.specs.ByNumber.Inside.{all_with_marks, home_marks, with_marks, AreNormalNames};
ghost use Rattle.name_order.specs.ByNumber.Naming.{IsNaming, Keeps, the_names, the_turns, AreGathered};
ghost use Rattle.name_order.specs.ByNumber.NameView.{the_name};
ghost use Rattle.name_order.specs.ByNumber.ReachedView.{the_all, the_reached};
ghost use Rattle.name_order.specs.ByNumber.TurnView.{the_turn};
ghost use Rattle.name_order.specs.Keeping.{keep, keep_all};
ghost use Rattle.name_order.specs.Mentioned.{character_in, eigen_in, introduced_in};
ghost use Rattle.name_order.specs.PlaceView.{the_places};
ghost use Rattle.tableau_core.specs.Numbered.SpotView.{the_mark_at};

use crate::inside::names_in_turns;
use crate::names::{Name, keep_name, normal_name};
use crate::place::{Place, is_delta, is_pi};
use crate::reached::Reached;
use crate::turn::Turn;
use cop_base::{NoMemory, PosId};
use formula_core::{GroundMark, GroundTable, GroundTerm, Value, Values};
use indexmap::IndexSet;
use std::alloc::Global;
use tableau_core::{MarkAt, SizedProblem, eigen_home};

/// The names once each and the turns in order, by the numbers of a table that begins with the lists
/// of the tableau's.
#[derive(Drop)]
pub struct Naming {
    pub table: GroundTable,
    pub names: IndexSet<Name>,
    pub turns: Vec<Turn>,
}

// The number of the list of these values of the tableau's table.
fn list_of(
    alloc: Global,
    source: &GroundTable,
    values: &[Value],
    naming: &mut Naming,
) -> Result<Values, NoMemory>
    requires good { IsNaming source.now naming.now }
    ensures list { IfOk result (λ n. the_values naming.new.table n ≡ map (the_value source.now) values.now) }
    ensures normal { IfOk result (λ n. AreNormalValues naming.new.table n) }
    ensures kept { IfOk result (λ _. Keeps source.now naming.old naming.new) }
{
    let mut normal = Vec::new(alloc);
    for value in values {
        normal.push(source.normal_value(*value))?;
    }
    let list = naming.table.add_values(&normal)?;
    Ok(list)
}

// Adds a name of the tableau's table.
fn add_name(source: &GroundTable, name: Name, naming: &mut Naming) -> Result<(), NoMemory>
    requires good { IsNaming source.now naming.now }
    ensures good { IfOk result (λ _. IsNaming source.now naming.new) }
    ensures names { IfOk result (λ _. the_names naming.new ≡ keep name_eq (the_names naming.old) (the_name source.now name)) }
    ensures turns { IfOk result (λ _. the_turns naming.new ≡ the_turns naming.old) }
{
    let name = normal_name(source, name);
    keep_name(&naming.table, name, &mut naming.names)?;
    Ok(())
}

// Adds the character of a position by values of the tableau's table.
fn add_made(
    alloc: Global,
    source: &GroundTable,
    position: PosId,
    values: &[Value],
    naming: &mut Naming,
) -> Result<(), NoMemory>
    requires good { IsNaming source.now naming.now }
    ensures good { IfOk result (λ _. IsNaming source.now naming.new) }
    ensures names { IfOk result (λ _. the_names naming.new ≡ keep name_eq (the_names naming.old)
        (mark_name (g_new_mark position.0 (values_tree (map (the_value source.now) values.now))))) }
    ensures turns { IfOk result (λ _. the_turns naming.new ≡ the_turns naming.old) }
{
    let list = list_of(alloc, source, values, naming)?;
    let name = Name::Mark(GroundMark::New(position, list));
    keep_name(&naming.table, name, &mut naming.names)?;
    Ok(())
}

fn add_mark_at(
    alloc: Global,
    source: &GroundTable,
    mark: MarkAt,
    naming: &mut Naming,
) -> Result<(), NoMemory>
    requires good { IsNaming source.now naming.now }
    ensures good { IfOk result (λ _. IsNaming source.now naming.new) }
    ensures names { IfOk result (λ _. the_names naming.new ≡ keep name_eq (the_names naming.old) (mark_name (the_mark_at source.now mark.entry))) }
    ensures turns { IfOk result (λ _. the_turns naming.new ≡ the_turns naming.old) }
{
    match mark {
        MarkAt::Given(mark) => {
            add_name(source, Name::Mark(mark), naming)?;
            Ok(())
        }
        MarkAt::Made(position, values) => {
            add_made(alloc, source, position, values, naming)?;
            Ok(())
        }
    }
}

// Adds the characters of the eigenvariable's home.
fn add_home(
    alloc: Global,
    problem: &SizedProblem,
    source: &GroundTable,
    position: PosId,
    values: Values,
    naming: &mut Naming,
) -> Result<(), NoMemory>
    requires good { IsNaming source.now naming.now }
    ensures good { IfOk result (λ _. IsNaming source.now naming.new) }
    ensures names { IfOk result (λ _. the_names naming.new ≡ keep_all name_eq (the_names naming.old)
        (home_marks problem.now (term_name (g_eigen position.0 (values_tree (the_values source.now values)))))) }
    ensures turns { IfOk result (λ _. the_turns naming.new ≡ the_turns naming.old) }
{
    let list = source.values(values);
    let home = eigen_home(alloc, problem, source, position, list)?;
    let marks = home.as_slice();
    for mark in marks {
        add_mark_at(alloc, source, *mark, naming)?;
    }
    Ok(())
}

// Adds the name and the characters of its home.
fn add_with_home(
    alloc: Global,
    problem: &SizedProblem,
    source: &GroundTable,
    name: Name,
    naming: &mut Naming,
) -> Result<(), NoMemory>
    requires good { IsNaming source.now naming.now }
    ensures good { IfOk result (λ _. IsNaming source.now naming.new) }
    ensures names { IfOk result (λ _. the_names naming.new ≡ keep_all name_eq (the_names naming.old) (with_marks problem.now (the_name source.now name))) }
    ensures turns { IfOk result (λ _. the_turns naming.new ≡ the_turns naming.old) }
{
    add_name(source, name, naming)?;
    match name {
        Name::Term(GroundTerm::Eigen(position, values)) => {
            add_home(alloc, problem, source, position, values, naming)?;
            Ok(())
        }
        Name::Term(GroundTerm::Fun(_, _)) => Ok(()),
        Name::Term(GroundTerm::Common(_)) => Ok(()),
        Name::Term(GroundTerm::Own(_, _)) => Ok(()),
        Name::Mark(_) => Ok(()),
    }
}

// Adds the names and the characters of their homes.
fn add_with_homes(
    alloc: Global,
    problem: &SizedProblem,
    source: &GroundTable,
    names: &[Name],
    naming: &mut Naming,
) -> Result<(), NoMemory>
    requires good { IsNaming source.now naming.now }
    ensures good { IfOk result (λ _. IsNaming source.now naming.new) }
    ensures names { IfOk result (λ _. the_names naming.new ≡ keep_all name_eq (the_names naming.old)
        (all_with_marks problem.now (map (the_name source.now) names.now))) }
    ensures turns { IfOk result (λ _. the_turns naming.new ≡ the_turns naming.old) }
{
    for name in names {
        add_with_home(alloc, problem, source, *name, naming)?;
    }
    Ok(())
}

// Adds the eigenvariable of the turn, where its position introduces one.
fn add_eigen(places: &[Place], turn: Turn, naming: &mut Naming) -> Result<(), NoMemory>
    requires names { AreNormalNames naming.now.table naming.now.names.keys }
    ensures normal { IfOk result (λ _. AreNormalNames naming.new.table naming.new.names.keys) }
    ensures names { IfOk result (λ _. the_names naming.new ≡ keep_all name_eq (the_names naming.old) (eigen_in (the_places places.now) (the_turn naming.old.table turn))) }
    ensures table { naming.new.table ≡ naming.old.table }
    ensures turns { naming.new.turns ≡ naming.old.turns }
{
    if is_delta(places, turn.position.0) {
        let term = GroundTerm::Eigen(turn.position, turn.values);
        keep_name(&naming.table, Name::Term(term), &mut naming.names)?;
    }
    Ok(())
}

// Adds the character of the turn, where its position introduces one.
fn add_character(places: &[Place], turn: Turn, naming: &mut Naming) -> Result<(), NoMemory>
    requires names { AreNormalNames naming.now.table naming.now.names.keys }
    ensures normal { IfOk result (λ _. AreNormalNames naming.new.table naming.new.names.keys) }
    ensures names { IfOk result (λ _. the_names naming.new ≡ keep_all name_eq (the_names naming.old) (character_in (the_places places.now) (the_turn naming.old.table turn))) }
    ensures table { naming.new.table ≡ naming.old.table }
    ensures turns { naming.new.turns ≡ naming.old.turns }
{
    if is_pi(places, turn.position.0) {
        let mark = GroundMark::New(turn.position, turn.values);
        keep_name(&naming.table, Name::Mark(mark), &mut naming.names)?;
    }
    Ok(())
}

// Adds the turn and the names that it introduces.
fn add_turn(
    alloc: Global,
    places: &[Place],
    source: &GroundTable,
    turn: &Reached,
    naming: &mut Naming,
) -> Result<(), NoMemory>
    requires good { IsNaming source.now naming.now }
    ensures good { IfOk result (λ _. IsNaming source.now naming.new) }
    ensures names { IfOk result (λ _. the_names naming.new ≡ keep_all name_eq (the_names naming.old)
        (introduced_in (the_places places.now) (the_reached source.now turn.now))) }
    ensures turns { IfOk result (λ _. the_turns naming.new ≡ the_turns naming.old ++ the_reached source.now turn.now ∷ []) }
{
    let values = list_of(alloc, source, &turn.values, naming)?;
    let turn = Turn {
        position: PosId(turn.position),
        values,
    };
    add_eigen(places, turn, naming)?;
    add_character(places, turn, naming)?;
    naming.turns.push(turn)?;
    Ok(())
}

// Adds the turns and the names that they introduce.
fn add_turns(
    alloc: Global,
    places: &[Place],
    source: &GroundTable,
    turns: &[Reached],
    naming: &mut Naming,
) -> Result<(), NoMemory>
    requires good { IsNaming source.now naming.now }
    ensures good { IfOk result (λ _. IsNaming source.now naming.new) }
    ensures names { IfOk result (λ _. the_names naming.new ≡ keep_all name_eq (the_names naming.old)
        (flat_map (introduced_in (the_places places.now)) (the_all source.now turns.now))) }
    ensures turns { IfOk result (λ _. the_turns naming.new ≡ the_turns naming.old ++ the_all source.now turns.now) }
{
    for turn in turns {
        add_turn(alloc, places, source, turn, naming)?;
    }
    Ok(())
}

fn start(alloc: Global, source: &GroundTable) -> Result<Naming, NoMemory>
    ensures good { IfOk result (λ n. IsNaming source.now n) }
    ensures names { IfOk result (λ n. the_names n ≡ []) }
    ensures turns { IfOk result (λ n. the_turns n ≡ []) }
{
    let _read_for_its_invariant = source.len();
    let table = source.copy(alloc)?;
    let names = IndexSet::new(alloc);
    let turns = Vec::new(alloc);
    Ok(Naming {
        table,
        names,
        turns,
    })
}

/// The names that the turns mention or introduce, and the turns.
pub fn name_all(
    alloc: Global,
    problem: &SizedProblem,
    source: &GroundTable,
    places: &[Place],
    agenda: &[Reached],
) -> Result<Naming, NoMemory>
    ensures good { IfOk result (λ n. IsNaming source.now n) }
    ensures names { IfOk result (λ n. AreGathered problem.now (the_places places.now) (the_all source.now agenda.now) (the_names n)) }
    ensures turns { IfOk result (λ n. the_turns n ≡ the_all source.now agenda.now) }
{
    let inside = names_in_turns(alloc, source, agenda)?;
    let mut naming = start(alloc, source)?;
    add_with_homes(alloc, problem, source, inside.as_slice(), &mut naming)?;
    add_turns(alloc, places, source, agenda, &mut naming)?;
    Ok(naming)
}
