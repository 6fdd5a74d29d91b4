//! Which ground values an instance admits: all names inside are proper, and function symbols have
//! as many arguments as their arity. Each list of the table is looked at once.

ghost use Rattle.std.specs.Prelude.{◌≡◌, ◌≤◌, length, IfOk};
ghost use Rattle.calculus.specs.Ground.{marks_tree, values_tree};
ghost use Rattle.calculus.specs.Lists.{g_terms_tree};
ghost use Rattle.calculus.specs.Skolem.{are_admitted, are_admitted_marks, are_admitted_values, is_admitted, is_admitted_mark, is_admitted_value};
ghost use Rattle.calculus.specs.Syntax.{Problem};
ghost use Rattle.formula_core.specs.GroundLists.{list_at, the_terms, the_marks, the_values, the_g_term, the_mark, the_value};
ghost use Rattle.formula_core.specs.GroundLists.{IsLower, IsLowerTerm, IsLowerMark, IsLowerValue};
ghost use Rattle.tableau_core.specs.Numbered.Known.{AreAllAdmitted, KnowsAdmitted, admitted_in};

use crate::sized::SizedProblem;
use crate::way::{Maker, is_made};
use cop_base::NoMemory;
use formula_core::{GroundLabel, GroundMark, GroundTable, GroundTerm, GroundTerms, Value, Values};
use logic_rules::has_function;
use std::alloc::Global;

// Whether the terms of a list are admitted, which is known of each list that is not empty.
#[tactic(auto, using(crate::proofs::Numbered::KnownLaws::known))]
fn are_known_terms(table: &GroundTable, known: &[bool], list: GroundTerms) -> bool
    requires { IsLower (the_terms table.now list) list.0 (length known.now) }
    ensures { (P : Problem) → KnowsAdmitted P table.now known.now
        → result ≡ are_admitted P (g_terms_tree (the_terms table.now list)) }
{
    let place = list.0 as usize;
    if place >= known.len() {
        return true;
    }
    let told = known[place];
    let items = table.terms(list);
    told || items.is_empty()
}

#[tactic(auto, using(crate::proofs::Numbered::KnownLaws::known))]
fn are_known_marks(table: &GroundTable, known: &[bool], list: GroundLabel) -> bool
    requires { IsLower (the_marks table.now list) list.0 (length known.now) }
    ensures { (P : Problem) → KnowsAdmitted P table.now known.now
        → result ≡ are_admitted_marks P (marks_tree (the_marks table.now list)) }
{
    let place = list.0 as usize;
    if place >= known.len() {
        return true;
    }
    let told = known[place];
    let items = table.marks(list);
    told || items.is_empty()
}

/// Whether the values of a list are admitted, which is known of each list that is not empty.
#[tactic(auto, using(crate::proofs::Numbered::KnownLaws::known))]
pub fn are_known_values(table: &GroundTable, known: &[bool], list: Values) -> bool
    requires { IsLower (the_values table.now list) list.0 (length known.now) }
    ensures { (P : Problem) → KnowsAdmitted P table.now known.now
        → result ≡ are_admitted_values P (values_tree (the_values table.now list)) }
{
    let place = list.0 as usize;
    if place >= known.len() {
        return true;
    }
    let told = known[place];
    let items = table.values(list);
    told || items.is_empty()
}

fn is_admitted(
    problem: &SizedProblem,
    table: &GroundTable,
    known: &[bool],
    term: GroundTerm,
) -> bool
    requires lower { IsLowerTerm table.now (length known.now) term }
    requires known { KnowsAdmitted problem.now table.now known.now }
    ensures { result ≡ is_admitted problem.now (the_g_term table.now term) }
{
    match term {
        GroundTerm::Fun(f, args) => {
            has_function(problem.symbols(), f, table.terms(args).len())
                && are_known_terms(table, known, args)
        }
        GroundTerm::Eigen(p, values) => {
            is_made(problem, table, Maker::Delta, p, table.values(values))
                && are_known_values(table, known, values)
        }
        GroundTerm::Common(_) => true,
        GroundTerm::Own(_, label) => are_known_marks(table, known, label),
    }
}

fn is_admitted_mark(
    problem: &SizedProblem,
    table: &GroundTable,
    known: &[bool],
    mark: GroundMark,
) -> bool
    requires lower { IsLowerMark table.now (length known.now) mark }
    requires known { KnowsAdmitted problem.now table.now known.now }
    ensures { result ≡ is_admitted_mark problem.now (the_mark table.now mark) }
{
    match mark {
        GroundMark::New(p, values) => {
            is_made(problem, table, Maker::Pi, p, table.values(values))
                && are_known_values(table, known, values)
        }
        GroundMark::Spare(_) => true,
    }
}

fn is_admitted_value(
    problem: &SizedProblem,
    table: &GroundTable,
    known: &[bool],
    value: Value,
) -> bool
    requires lower { IsLowerValue table.now (length known.now) value }
    requires known { KnowsAdmitted problem.now table.now known.now }
    ensures { result ≡ is_admitted_value problem.now (the_value table.now value) }
{
    match value {
        Value::Term(term) => is_admitted(problem, table, known, term),
        Value::Steps(label) => are_known_marks(table, known, label),
    }
}

// Whether the terms of the list are admitted that comes after those that are known.
fn are_admitted(
    problem: &SizedProblem,
    table: &GroundTable,
    known: &[bool],
    list: GroundTerms,
) -> bool
    requires next { list.0 ≡ length known.now }
    requires known { KnowsAdmitted problem.now table.now known.now }
    ensures { result ≡ are_admitted problem.now (g_terms_tree (the_terms table.now list)) }
{
    let terms = table.terms(list);
    for term in terms {
        if !is_admitted(problem, table, known, *term) {
            return false;
        }
    }
    true
}

fn are_admitted_marks(
    problem: &SizedProblem,
    table: &GroundTable,
    known: &[bool],
    list: GroundLabel,
) -> bool
    requires next { list.0 ≡ length known.now }
    requires known { KnowsAdmitted problem.now table.now known.now }
    ensures { result ≡ are_admitted_marks problem.now (marks_tree (the_marks table.now list)) }
{
    let marks = table.marks(list);
    for mark in marks {
        if !is_admitted_mark(problem, table, known, *mark) {
            return false;
        }
    }
    true
}

fn are_admitted_items(
    problem: &SizedProblem,
    table: &GroundTable,
    known: &[bool],
    list: Values,
) -> bool
    requires next { list.0 ≡ length known.now }
    requires known { KnowsAdmitted problem.now table.now known.now }
    ensures { result ≡ are_admitted_values problem.now (values_tree (the_values table.now list)) }
{
    let values = table.values(list);
    for value in values {
        if !is_admitted_value(problem, table, known, *value) {
            return false;
        }
    }
    true
}

// Whether the list of a number has items that are admitted, of whatever kind it is.
fn is_admitted_list(
    problem: &SizedProblem,
    table: &GroundTable,
    known: &[bool],
    number: u32,
) -> bool
    requires next { number ≡ length known.now }
    requires known { KnowsAdmitted problem.now table.now known.now }
    ensures { result ≡ admitted_in problem.now (list_at table.now number) }
{
    are_admitted(problem, table, known, GroundTerms(number))
        && are_admitted_marks(problem, table, known, GroundLabel(number))
        && are_admitted_items(problem, table, known, Values(number))
}

/// Of each list of the table whether its items are admitted.
pub fn admitted_lists(
    alloc: Global,
    problem: &SizedProblem,
    table: &GroundTable,
) -> Result<Vec<bool>, NoMemory>
    ensures { IfOk result (λ v. AreAllAdmitted problem.now table.now v.items) }
{
    let mut known = Vec::new(alloc);
    for number in 0..table.len() {
        let admitted = is_admitted_list(problem, table, &known, number as u32);
        known.push(admitted)?;
    }
    Ok(known)
}
