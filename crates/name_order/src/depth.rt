//! How deep the lists of a table stand inside one another.

ghost use Rattle.std.specs.Prelude.{◌≡◌, ◌≤◌, ◌<◌, ◌+◌, length, map, IfOk};
ghost use Rattle.calculus.specs.Ground.{marks_tree, values_tree};
ghost use Rattle.calculus.specs.Lists.{g_terms_tree};
ghost use Rattle.conversion_theory.specs.Depths as depth;
ghost use Rattle.conversion_theory.specs.Depths.{value_list_depth};
ghost use Rattle.formula_core.specs.GroundLists.{list_at, no_list, the_terms, the_marks, the_values, the_g_term, the_mark, the_value};
ghost use Rattle.formula_core.specs.GroundLists.{IsLowerTerm, IsLowerMark, IsLowerValue, IsNormalTerm, IsNormalMark, IsNormalValue};
ghost use Rattle.name_order.specs.ByNumber.Depths.{AreDepths, KnowsDepths, list_depth, known_depth};

use cop_base::NoMemory;
use formula_core::{GroundLabel, GroundMark, GroundTable, GroundTerm, GroundTerms, Value, Values};
use std::alloc::Global;

// The depth of a list that is known, or of the empty one.
fn known_depth(table: &GroundTable, known: &[u32], number: u32) -> u32
    requires { KnowsDepths table.now known.now }
    ensures depth { result ≡ known_depth known.now number }
    ensures most { result ≤ length known.now }
{
    let place = number as usize;
    if place >= known.len() {
        return 0;
    }
    known[place]
}

#[tactic(auto, using(crate::proofs::ByNumber::DepthLaws::told))]
pub fn term_depth(table: &GroundTable, known: &[u32], term: GroundTerm) -> u32
    requires lower { IsLowerTerm table.now (length known.now) term }
    requires normal { IsNormalTerm table.now term }
    requires known { KnowsDepths table.now known.now }
    ensures depth { result ≡ depth.term_depth (the_g_term table.now term) }
    ensures most { result ≤ length known.now }
{
    match term {
        GroundTerm::Fun(_, args) => known_depth(table, known, args.0),
        GroundTerm::Eigen(_, values) => known_depth(table, known, values.0),
        GroundTerm::Common(_) => 0,
        GroundTerm::Own(_, label) => known_depth(table, known, label.0),
    }
}

#[tactic(auto, using(crate::proofs::ByNumber::DepthLaws::told))]
pub fn mark_depth(table: &GroundTable, known: &[u32], mark: GroundMark) -> u32
    requires lower { IsLowerMark table.now (length known.now) mark }
    requires normal { IsNormalMark table.now mark }
    requires known { KnowsDepths table.now known.now }
    ensures depth { result ≡ depth.mark_depth (the_mark table.now mark) }
    ensures most { result ≤ length known.now }
{
    match mark {
        GroundMark::New(_, values) => known_depth(table, known, values.0),
        GroundMark::Spare(_) => 0,
    }
}

#[tactic(auto, using(crate::proofs::ByNumber::DepthLaws::told))]
fn value_depth(table: &GroundTable, known: &[u32], value: Value) -> u32
    requires lower { IsLowerValue table.now (length known.now) value }
    requires normal { IsNormalValue table.now value }
    requires known { KnowsDepths table.now known.now }
    ensures depth { result ≡ depth.value_depth (the_value table.now value) }
    ensures most { result ≤ length known.now }
{
    match value {
        Value::Term(term) => term_depth(table, known, term),
        Value::Steps(label) => known_depth(table, known, label.0),
    }
}

// The depth of the list that comes after those that are known.
fn terms_list_depth(table: &GroundTable, known: &[u32], list: GroundTerms) -> u32
    requires next { list.0 ≡ length known.now }
    requires few { length known.now < no_list }
    requires known { KnowsDepths table.now known.now }
    ensures depth { result ≡ depth.terms_depth (g_terms_tree (the_terms table.now list)) }
    ensures most { result ≤ length known.now + 1 }
{
    let terms = table.terms(list);
    let mut depth = 0;
    for term in terms {
        depth = depth.max(term_depth(table, known, *term) + 1);
    }
    depth
}

fn marks_list_depth(table: &GroundTable, known: &[u32], list: GroundLabel) -> u32
    requires next { list.0 ≡ length known.now }
    requires few { length known.now < no_list }
    requires known { KnowsDepths table.now known.now }
    ensures depth { result ≡ depth.marks_depth (marks_tree (the_marks table.now list)) }
    ensures most { result ≤ length known.now + 1 }
{
    let marks = table.marks(list);
    let mut depth = 0;
    for mark in marks {
        depth = depth.max(mark_depth(table, known, *mark) + 1);
    }
    depth
}

fn values_list_depth(table: &GroundTable, known: &[u32], list: Values) -> u32
    requires next { list.0 ≡ length known.now }
    requires few { length known.now < no_list }
    requires known { KnowsDepths table.now known.now }
    ensures depth { result ≡ depth.values_depth (values_tree (the_values table.now list)) }
    ensures most { result ≤ length known.now + 1 }
{
    let values = table.values(list);
    let mut depth = 0;
    for value in values {
        depth = depth.max(value_depth(table, known, *value) + 1);
    }
    depth
}

// The depth of the list of a number, of whatever kind it is.
#[tactic(auto, using(crate::proofs::ByNumber::DepthLaws::kinds))]
fn list_depth(table: &GroundTable, known: &[u32], number: u32) -> u32
    requires next { number ≡ length known.now }
    requires few { length known.now < no_list }
    requires known { KnowsDepths table.now known.now }
    ensures depth { result ≡ list_depth (list_at table.now number) }
    ensures most { result ≤ length known.now + 1 }
{
    let terms = terms_list_depth(table, known, GroundTerms(number));
    let marks = marks_list_depth(table, known, GroundLabel(number));
    let values = values_list_depth(table, known, Values(number));
    terms.max(marks).max(values)
}

/// The depth of each list of the table: a list is one deeper than the deepest list that its items
/// name.
pub fn depths(alloc: Global, table: &GroundTable) -> Result<Vec<u32>, NoMemory>
    ensures { IfOk result (λ v. AreDepths table.now v.items) }
{
    let mut known = Vec::new(alloc);
    for number in 0..table.len() {
        let depth = list_depth(table, &known, number as u32);
        known.push(depth)?;
    }
    Ok(known)
}

/// How deep the values are: one deeper than the deepest list that they name.
pub fn values_depth(table: &GroundTable, depths: &[u32], values: &[Value]) -> u64
    requires { AreDepths table.now depths.now }
    ensures { result ≡ value_list_depth (map (the_value table.now) values.now) }
{
    let mut depth: u64 = 0;
    for value in values {
        let value = table.normal_value(*value);
        depth = depth.max(value_depth(table, depths, value) as u64 + 1);
    }
    depth
}
