//! The terms of a table by the numbers of their names, each list once.

ghost use Rattle.std.specs.Prelude.{◌≡◌, ◌<◌, ◌^◌, List, length, map, IfOk};
ghost use Rattle.std.specs.List.{AllByRecursion};
ghost use Rattle.calculus.specs.Syntax as tree;
ghost use Rattle.conversion_theory.specs.Numbering.{number_in, number_of, numbered_term};
ghost use Rattle.conversion_theory.specs.Turns.{term_name};
ghost use Rattle.formula_core.specs.GroundLists.{IsLowerTerm, the_g_term, the_terms};
ghost use Rattle.name_order.specs.ByNumber.Inside.{AreNormalNames, the_names};
ghost use Rattle.name_order.specs.ByNumber.NameView.{the_name};
ghost use Rattle.name_order.specs.ByNumber.Numbered.{AreNumbered};
ghost use Rattle.term_table.specs.Table.{IsBelow, the_table_term};

use crate::names::{Name, normal_name};
use cop_base::NoMemory;
use formula_core::{GroundTable, GroundTerm, GroundTerms};
use indexmap::IndexSet;
use std::alloc::Global;
use term_table::{TableTerm, TermTable};

/// The number of a name, if it is one of these.
pub fn number_in(table: &GroundTable, names: &IndexSet<Name>, name: Name) -> Option<u32>
    requires normal { AreNormalNames table.now names.now.keys }
    requires few { length names.now.keys < 2 ^ 32 }
    ensures { result ≡ number_in (the_names table.now names.now.keys) (the_name table.now name) }
{
    let name = normal_name(table, name);
    match names.get_index_of(&name) {
        Some(place) => Some(place as u32 + 1),
        None => None,
    }
}

// The number of a term's name, 0 where it has none.
fn number_of(table: &GroundTable, names: &IndexSet<Name>, term: GroundTerm) -> u32
    requires normal { AreNormalNames table.now names.now.keys }
    requires few { length names.now.keys < 2 ^ 32 }
    ensures { result ≡ number_of (the_names table.now names.now.keys) (term_name (the_g_term table.now term)) }
{
    number_in(table, names, Name::Term(term)).unwrap_or(0)
}

/// A term that names lists below a number, over the lists by the numbers of names.
#[tactic(auto, using(crate::proofs::ByNumber::TermLaws::numbered))]
pub fn numbered(
    table: &GroundTable,
    names: &IndexSet<Name>,
    below: usize,
    term: GroundTerm,
) -> TableTerm
    requires normal { AreNormalNames table.now names.now.keys }
    requires few { length names.now.keys < 2 ^ 32 }
    requires lower { IsLowerTerm table.now below term }
    ensures below { IsBelow below result }
    ensures term { (lists : List (List tree.Term)) → AreNumbered (number_of (the_names table.now names.now.keys)) table.now below lists
        → the_table_term lists result ≡ numbered_term (number_of (the_names table.now names.now.keys)) (the_g_term table.now term) }
{
    match term {
        GroundTerm::Fun(symbol, list) => {
            if (list.0 as usize) < below {
                TableTerm::Fun(symbol, list.0)
            } else {
                TableTerm::Constant(symbol)
            }
        }
        GroundTerm::Eigen(_, _) => TableTerm::Eigen(number_of(table, names, term)),
        GroundTerm::Common(_) | GroundTerm::Own(_, _) => {
            TableTerm::Spare(number_of(table, names, term))
        }
    }
}

// The terms of a list.
fn numbered_list(
    alloc: Global,
    table: &GroundTable,
    names: &IndexSet<Name>,
    list: GroundTerms,
) -> Result<Vec<TableTerm>, NoMemory>
    requires normal { AreNormalNames table.now names.now.keys }
    requires few { length names.now.keys < 2 ^ 32 }
    ensures below { IfOk result (λ terms. AllByRecursion (IsBelow list.0) terms.items) }
    ensures terms { (lists : List (List tree.Term)) → AreNumbered (number_of (the_names table.now names.now.keys)) table.now list.0 lists
        → IfOk result (λ terms. map (the_table_term lists) terms.items ≡ map (numbered_term (number_of (the_names table.now names.now.keys))) (the_terms table.now list)) }
{
    let below = list.0 as usize;
    let given = table.terms(list);
    let mut terms = Vec::new(alloc);
    for term in given {
        terms.push(numbered(table, names, below, *term))?;
    }
    Ok(terms)
}

/// The lists of terms under the numbers that they have in the table.
pub fn numbered_lists(
    alloc: Global,
    table: &GroundTable,
    names: &IndexSet<Name>,
) -> Result<TermTable, NoMemory>
    requires normal { AreNormalNames table.now names.now.keys }
    requires few { length names.now.keys < 2 ^ 32 }
    ensures { IfOk result (AreNumbered (number_of (the_names table.now names.now.keys)) table.now (length table.now)) }
{
    let mut lists = TermTable::new(alloc);
    for number in 0..table.len() {
        let list = numbered_list(alloc, table, names, GroundTerms(number as u32))?;
        lists.push(list)?;
    }
    Ok(lists)
}
