//! A table of ground lists that tells which of its lists of terms hold no name.

ghost use Rattle.std.specs.Prelude.{◌≡◌, ◌<◌, [], false, length, map, IfOk, IsTrue};
ghost use Rattle.std.specs.List.{AllByRecursion};
ghost use Rattle.calculus.specs.Lists.{g_terms_tree};
ghost use Rattle.conversion_theory.specs.Turns.{names_of_term, names_of_terms};
ghost use Rattle.formula_core.specs.GroundLists.{the_g_term, the_mark, the_marks, the_terms, the_value, the_values};
ghost use Rattle.formula_core.specs.GroundLists.{IsLowerTerm, IsLowerMark, IsLowerValue, IsNormalTerm, IsNormalMark, IsNormalValue};
ghost use Rattle.name_order.specs.ByNumber.Holding.{AreTold};

use cop_base::NoMemory;
use formula_core::{GroundLabel, GroundMark, GroundTable, GroundTerm, GroundTerms, Value, Values};
use std::alloc::Global;
use std::marker::Model;

/// The table, and for each number whether its list of terms may hold a name.
#[derive(Drop)]
pub struct HoldingTable<'a> {
    table: &'a GroundTable,
    holds: Vec<bool>,
}

impl<'a> Model for HoldingTable<'a> {
    ghost use Rattle.std.specs.Prelude.{List};
    ghost use Rattle.formula_core.specs.GroundLists.{GroundList};
    ghost use Rattle.formula_core.specs.GroundListCodes.{ground_lists_code};
    ghost use Rattle.name_order.specs.ByNumber.Holding.{AreTold};

    ghost Value = { List GroundList };

    ghost coded = { ground_lists_code };

    ghost view = { λ t. t.table.now };

    ghost invariant = { λ t. AreTold t.table.now t.holds.items };
}

// Whether the term may hold a name, where this is known of lists before that of the term.
fn term_holds(table: &GroundTable, holds: &[bool], term: GroundTerm) -> bool
    requires { AreTold table.now holds.now }
    ensures { result ≡ false → names_of_term (the_g_term table.now term) ≡ [] }
{
    match term {
        GroundTerm::Fun(_, list) => list_holds(table, holds, list),
        GroundTerm::Eigen(_, _) | GroundTerm::Common(_) | GroundTerm::Own(_, _) => true,
    }
}

fn list_holds(table: &GroundTable, holds: &[bool], list: GroundTerms) -> bool
    requires { AreTold table.now holds.now }
    ensures { result ≡ false → names_of_terms (g_terms_tree (the_terms table.now list)) ≡ [] }
{
    let place = list.0 as usize;
    if place < holds.len() {
        return holds[place];
    }
    !table.terms(list).is_empty()
}

// Whether the next list may hold a name.
fn next_holds(table: &GroundTable, holds: &[bool], list: GroundTerms) -> bool
    requires { AreTold table.now holds.now }
    ensures { result ≡ false → names_of_terms (g_terms_tree (the_terms table.now list)) ≡ [] }
{
    let terms = table.terms(list);
    for term in terms {
        if term_holds(table, holds, *term) {
            return true;
        }
    }
    false
}

fn all_holds(alloc: Global, table: &GroundTable) -> Result<Vec<bool>, NoMemory>
    ensures { IfOk result (λ holds. AreTold table.now holds.items) }
{
    let mut holds = Vec::new(alloc);
    for number in 0..table.len() {
        let next = next_holds(table, &holds, GroundTerms(number as u32));
        holds.push(next)?;
    }
    Ok(holds)
}

impl<'a> HoldingTable<'a> {
    /// A table with what is told of its lists.
    pub fn new(alloc: Global, table: &'a GroundTable) -> Result<HoldingTable<'a>, NoMemory>
        ensures { IfOk result (λ t. t ≡ table.now) }
    {
        let holds = all_holds(alloc, table)?;
        Ok(HoldingTable { table, holds })
    }

    /// The table itself.
    pub fn table(&self) -> &GroundTable
        ensures { result.now ≡ self.now }
    {
        self.table
    }

    /// Whether the terms of a list are known to hold no name.
    pub fn is_bare(&self, list: GroundTerms) -> bool
        ensures { IsTrue result → names_of_terms (g_terms_tree (the_terms self.now list)) ≡ [] }
    {
        !list_holds(self.table, &self.holds, list)
    }

    /// The terms of a list.
    pub fn terms(&self, list: GroundTerms) -> &[GroundTerm]
        ensures list { map (the_g_term self.now) result.now ≡ the_terms self.now list }
        ensures normal { AllByRecursion (IsNormalTerm self.now) result.now }
        ensures lower { AllByRecursion (IsLowerTerm self.now list.0) result.now }
    {
        self.table.terms(list)
    }

    /// The characters of a label.
    pub fn marks(&self, list: GroundLabel) -> &[GroundMark]
        ensures list { map (the_mark self.now) result.now ≡ the_marks self.now list }
        ensures normal { AllByRecursion (IsNormalMark self.now) result.now }
        ensures lower { AllByRecursion (IsLowerMark self.now list.0) result.now }
    {
        self.table.marks(list)
    }

    /// The values of a list.
    pub fn values(&self, list: Values) -> &[Value]
        ensures list { map (the_value self.now) result.now ≡ the_values self.now list }
        ensures normal { AllByRecursion (IsNormalValue self.now) result.now }
        ensures lower { AllByRecursion (IsLowerValue self.now list.0) result.now }
    {
        self.table.values(list)
    }
}
