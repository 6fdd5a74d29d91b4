//! The names of a tableau by their numbers, with its agenda and what leads a conversion.

ghost use Rattle.std.specs.Prelude.{◌≡◌, ◌<◌, ◌^◌, ℕ, [], Some, IfOk, IsSome, IsTrue, length, map};
ghost use Rattle.std.specs.Prelude.{slice_get};
ghost use Rattle.std.specs.List.{AllByRecursion, AllZip};
ghost use Rattle.calculus.specs.Ground.{g_eigen, g_new_mark, g_spare_mark, values_tree};
ghost use Rattle.calculus.specs.Tableaux.{is_closed};
ghost use Rattle.conversion_theory.specs.Numbering.{IsNumbering, NumbersTell, number_in, number_of, numbered_term};
ghost use Rattle.conversion_theory.specs.Turns.{IsAgenda, term_name, mark_name};
ghost use Rattle.formula_core.specs.GroundLists.{the_g_term, the_values, IsGrown};
ghost use Rattle.name_order.specs.ByNumber.Collected.{the_lists};
ghost use Rattle.name_order.specs.ByNumber.Naming.{AreGathered, the_names as the_names_of, the_turns as the_turns_of, IsNaming};
ghost use Rattle.name_order.specs.ByNumber.Inside.{AreNormalNames};
ghost use Rattle.name_order.specs.ByNumber.NameView.{the_name, IsNormalName};
ghost use Rattle.name_order.specs.ByNumber.Numbered.{AreNumbered};
ghost use Rattle.name_order.specs.ByNumber.Order.{AreOrdered, IsOnce};
ghost use Rattle.name_order.specs.ByNumber.ReachedView.{the_all, the_keys, AreNormalReached};
ghost use Rattle.name_order.specs.ByNumber.TurnView.{the_turn, IsNormalTurn};
ghost use Rattle.name_order.specs.ByNumber.Waiting.{WaitFor};
ghost use Rattle.name_order.specs.Found.{find_in, parent_in};
ghost use Rattle.name_order.specs.Mentioned.{gathered};
ghost use Rattle.name_order.specs.PlaceView.{the_places};
ghost use Rattle.name_order.specs.Prerequisites.{IsOrder, ParentsTell, WaitsTell};
ghost use Rattle.tableau_core.specs.Numbered.TableauView.{the_tableau};
ghost use Rattle.term_table.specs.SharedTerm.{the_shared_term};

use crate::agenda::{Turns, all_turns};
use crate::guide::{Guide, guide_by};
use crate::names::Name;
use crate::naming::{Naming, name_all};
use crate::numbering::number_names;
use crate::numbers::Numbers;
use crate::place::{Place, all_places};
use crate::terms::{number_in, numbered, numbered_lists};
use crate::turn::Turn;
use cop_base::{NoMemory, PosId};
use formula_core::{GroundMark, GroundTable, GroundTerm, Values};
use indexmap::IndexSet;
use logic_rules::Problem;
use std::alloc::Global;
use std::marker::Model;
use std::rc::Rc;
use tableau_core::{SizedProblem, Tableau};
use term_table::{SharedTerm, TermTable};

/// The names of a tableau, numbered from 1 in their order, and its turns in the order in which they
/// are made, by the numbers of a table of its own that begins with the tableau's. Turns are told by
/// their places in this order, from 0.
#[derive(Drop)]
pub struct Named {
    table: GroundTable,
    names: IndexSet<Name>,
    terms: Rc<TermTable>,
    agenda: Vec<Turn>,
    order: Vec<Numbers>,
    parents: Vec<Option<usize>>,
    waits: Vec<Numbers>,
}

impl Model for Named {
    ghost use Rattle.std.specs.Prelude.{map, length, ◌<◌, ◌^◌};
    ghost use Rattle.conversion_theory.specs.Numbering.{number_of};
    ghost use Rattle.name_order.specs.ByNumber.Numbered.{AreNumbered};
    ghost use Rattle.std.specs.List.{AllByRecursion};
    ghost use Rattle.calculus.specs.Codes.{g_term_code, mark_code, value_code};
    ghost use Rattle.formula_core.specs.GroundListCodes.{ground_lists_code};
    ghost use Rattle.std.specs.Coded.{codes};
    ghost use Rattle.name_order.specs.ByNumber.NamedView.{NamedValue};
    ghost use Rattle.name_order.specs.ByNumber.NameView.{the_name, IsNormalName};
    ghost use Rattle.name_order.specs.ByNumber.TurnView.{the_turn, IsNormalTurn};

    ghost Value = { NamedValue };

    ghost coded = { Prim.hlevel (codes, g_term_code, mark_code, value_code, ground_lists_code) };

    ghost view = { λ n. record {
      lists = n.table;
      names = map (the_name n.table) n.names.keys;
      agenda = map (the_turn n.table) n.agenda.items;
      order = n.order.items;
      parents = n.parents.items;
      waits = n.waits.items;
    } };

    ghost invariant = { λ n. (length n.names.keys < 2 ^ 32) × (length n.agenda.items < 2 ^ 32)
        × AllByRecursion (IsNormalName n.table) n.names.keys × AllByRecursion (IsNormalTurn n.table) n.agenda.items
        × AreNumbered (number_of (map (the_name n.table) n.names.keys)) n.table (length n.table) n.terms.value };
}

impl Named {
    /// The table of the lists that the names and turns name.
    pub fn table(&self) -> &GroundTable
        ensures { result.now ≡ self.now.lists }
    {
        &self.table
    }

    // The number of a name of the table.
    fn number(&self, name: Name) -> Option<u32>
        ensures { result ≡ number_in self.now.names (the_name self.now.lists name) }
    {
        number_in(&self.table, &self.names, name)
    }

    /// The number of the eigenvariable of a delta position by the values taken on the way to it.
    pub fn eigen(&self, p: PosId, v: Values) -> Option<u32>
        ensures { result ≡ number_in self.now.names (term_name (g_eigen p.0 (values_tree (the_values self.now.lists v)))) }
    {
        self.number(Name::Term(GroundTerm::Eigen(p, v)))
    }

    /// The number of the character of a pi position by the values taken on the way to it.
    pub fn mark(&self, p: PosId, v: Values) -> Option<u32>
        ensures { result ≡ number_in self.now.names (mark_name (g_new_mark p.0 (values_tree (the_values self.now.lists v)))) }
    {
        self.number(Name::Mark(GroundMark::New(p, v)))
    }

    /// The number of the character of a pi position by values of a table that has grown from this one.
    pub fn mark_in(&self, table: &GroundTable, p: PosId, v: Values) -> Option<u32>
        requires grown { IsGrown self.now.lists table.now }
        ensures { result ≡ number_in self.now.names (mark_name (g_new_mark p.0 (values_tree (the_values table.now v)))) }
    {
        let list = table.normal_values(v);
        let number = list.0 as usize;
        let count = self.table.len();
        if number < count {
            return self.mark(p, list);
        }
        if table.values(list).is_empty() {
            return self.mark(p, list);
        }
        None
    }

    /// The number of a spare constant.
    pub fn spare(&self, t: GroundTerm) -> Option<u32>
        ensures { result ≡ number_in self.now.names (term_name (the_g_term self.now.lists t)) }
    {
        self.number(Name::Term(t))
    }

    /// The number of a spare character.
    pub fn spare_mark(&self, k: u32) -> Option<u32>
        ensures { result ≡ number_in self.now.names (mark_name (g_spare_mark k)) }
    {
        self.number(Name::Mark(GroundMark::Spare(k)))
    }

    /// A term by the numbers of its names, over a table that these terms share.
    pub fn term(&self, t: GroundTerm) -> Result<SharedTerm, NoMemory>
        ensures { IfOk result (λ term. the_shared_term term ≡ numbered_term (number_of self.now.names) (the_g_term self.now.lists t)) }
    {
        let term = numbered(&self.table, &self.names, self.table.len(), t);
        let terms = self.terms.clone()?;
        Ok(SharedTerm::Table(terms, term))
    }

    /// The names, that of number 1 first.
    pub fn names(&self) -> &[Name]
        ensures names { map (the_name self.now.lists) result.now ≡ self.now.names }
        ensures normal { AllByRecursion (IsNormalName self.now.lists) result.now }
        ensures few { length self.now.names < 2 ^ 32 }
    {
        self.names.as_slice()
    }

    /// The turns in the order in which they are made.
    pub fn agenda(&self) -> &[Turn]
        ensures turns { map (the_turn self.now.lists) result.now ≡ self.now.agenda }
        ensures normal { AllByRecursion (IsNormalTurn self.now.lists) result.now }
        ensures few { length self.now.agenda < 2 ^ 32 }
    {
        self.agenda.as_slice()
    }

    /// How many instances the tableau has.
    pub fn instances(&self) -> usize
        ensures { result ≡ length self.now.order }
    {
        self.order.len()
    }

    /// The turns of an instance of the tableau in preorder, the instances being counted in preorder
    /// from 0.
    pub fn order(&self, instance: usize) -> &[usize]
        requires { instance < length self.now.order }
        ensures { slice_get self.now.order instance ≡ Some result.now }
    {
        self.order[instance].items()
    }

    /// The turn of which this one is a component. The root's has none.
    pub fn parent(&self, turn: usize) -> Option<usize>
        requires { turn < length self.now.parents }
        ensures { slice_get self.now.parents turn ≡ Some result }
    {
        self.parents[turn]
    }

    /// The turns that introduce what this one mentions by its own values. Its parent waits for those
    /// that introduce the rest.
    pub fn waits(&self, turn: usize) -> &[usize]
        requires { turn < length self.now.waits }
        ensures { slice_get self.now.waits turn ≡ Some result.now }
    {
        self.waits[turn].items()
    }
}

// The lists of terms of the table by the numbers of their names.
fn shared_lists(
    alloc: Global,
    table: &GroundTable,
    names: &IndexSet<Name>,
) -> Result<Rc<TermTable>, NoMemory>
    requires normal { AreNormalNames table.now names.now.keys }
    requires few { length names.now.keys < 2 ^ 32 }
    ensures { IfOk result (λ terms. AreNumbered (number_of (map (the_name table.now) names.now.keys)) table.now (length table.now) terms.value) }
{
    let lists = numbered_lists(alloc, table, names)?;
    let terms = Rc::new(alloc, lists)?;
    Ok(terms)
}

// The names in order and the turns, with what leads a conversion by them.
fn with_guide(alloc: Global, naming: Naming, guide: Guide) -> Result<Named, NoMemory>
    requires names { AllByRecursion (IsNormalName naming.table) naming.names.keys }
    requires turns { AllByRecursion (IsNormalTurn naming.table) naming.turns.items }
    requires once { IsOnce (the_names_of naming) }
    requires few { length naming.turns.items < 2 ^ 32 }
    ensures lists { IfOk result (λ n. n.lists ≡ naming.table) }
    ensures names { IfOk result (λ n. AreOrdered (the_names_of naming) n.names) }
    ensures agenda { IfOk result (λ n. n.agenda ≡ the_turns_of naming) }
    ensures order { IfOk result (λ n. n.order ≡ guide.order.items) }
    ensures parents { IfOk result (λ n. n.parents ≡ guide.parents.items) }
    ensures waits { IfOk result (λ n. n.waits ≡ guide.waits.items) }
{
    let names = number_names(alloc, &naming.table, naming.names.as_slice())?;
    let terms = shared_lists(alloc, &naming.table, &names)?;
    Ok(Named {
        table: naming.table,
        names,
        terms,
        agenda: naming.turns,
        order: guide.order,
        parents: guide.parents,
        waits: guide.waits,
    })
}

// The names of the turns, with what leads a conversion by them.
fn by_turns(
    alloc: Global,
    problem: &SizedProblem,
    table: &GroundTable,
    places: &[Place],
    turns: &Turns,
) -> Result<Named, NoMemory>
    requires normal { AreNormalReached table.now turns.now.agenda.keys }
    requires few { length turns.now.agenda.keys < 2 ^ 32 }
    requires known { AllByRecursion (λ ts. AllByRecursion (λ x. IsSome (find_in (the_keys table.now turns.now.agenda.keys) x)) ts)
        (the_lists table.now turns.now.lists.items) }
    ensures grown { IfOk result (λ n. IsGrown table.now n.lists) }
    ensures names { IfOk result (λ n. AreOrdered (gathered problem.now (the_places places.now) (the_all table.now turns.now.agenda.keys)) n.names) }
    ensures agenda { IfOk result (λ n. n.agenda ≡ the_all table.now turns.now.agenda.keys) }
    ensures order { IfOk result (λ n. map (map (find_in (the_keys table.now turns.now.agenda.keys))) (the_lists table.now turns.now.lists.items)
        ≡ map (map Some) n.order) }
    ensures parents { IfOk result (λ n. n.parents
        ≡ map (parent_in (the_places places.now) (the_keys table.now turns.now.agenda.keys)) (the_all table.now turns.now.agenda.keys)) }
    ensures waits { IfOk result (λ n. AllZip (WaitFor problem.now (the_places places.now) (the_keys table.now turns.now.agenda.keys))
        (the_all table.now turns.now.agenda.keys) n.waits) }
{
    let guide = guide_by(alloc, problem, table, places, turns)?;
    let naming = name_all(alloc, problem, table, places, turns.agenda.as_slice())?;
    let named = with_guide(alloc, naming, guide)?;
    Ok(named)
}

/// The numbers of the names of a tableau, and its agenda.
pub fn name(alloc: Global, problem: &Problem, t: &Tableau) -> Result<Named, NoMemory>
    requires closed { (d : ℕ) × IsTrue (is_closed problem.now d (the_tableau t.now)) }
    ensures grown { IfOk result (λ n. IsGrown t.now.table n.lists) }
    ensures numbering { IfOk result (λ n. IsNumbering problem.now (the_tableau t.now) n.names) }
    ensures tells { IfOk result (λ n. NumbersTell problem.now (the_tableau t.now) n.names) }
    ensures agenda { IfOk result (λ n. IsAgenda problem.now (the_tableau t.now) n.agenda) }
    ensures order { IfOk result (λ n. IsOrder problem.now (the_tableau t.now) n.agenda n.order) }
    ensures parents { IfOk result (λ n. ParentsTell problem.now n.agenda n.parents) }
    ensures waits { IfOk result (λ n. WaitsTell problem.now n.agenda n.parents n.waits) }
{
    let sized = SizedProblem::new(alloc, problem)?;
    let places = all_places(alloc, problem)?;
    let turns = all_turns(alloc, &sized, t)?;
    let named = by_turns(alloc, &sized, &t.table, &places, &turns)?;
    Ok(named)
}
