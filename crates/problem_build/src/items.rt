//! The formulas of the items that pass: their symbols, how large they are, and what they expand to.

ghost use Rattle.std.specs.Prelude.{◌≡◌, ◌++◌, ◌∷◌, [], ◌<◌, List, Err, length, map, option_map, IfOk, IsTrue, OnOk};
ghost use Rattle.std.specs.List.{list_all};
ghost use Rattle.calculus.specs.Syntax as tree;
ghost use Rattle.formula_core.specs.FormulaView.{the_formula};
ghost use Rattle.problem_build.specs.Building.{conjectures, premises, symbols_of};
ghost use Rattle.problem_build.specs.Expansion.{closed};
ghost use Rattle.problem_build.specs.Measuring.{bodies, first_measured, first_of, flat_nodes, measured};
ghost use Rattle.problem_build.specs.NameCount.{is_short};
ghost use Rattle.problem_build.specs.Passing.{the_passed};
ghost use Rattle.problem_build.specs.Walk as definition;
ghost use Rattle.tptp_reader.specs.SourceView.{the_source};

use crate::counts::{nesting_of, nodes_of, sum};
use crate::expansion::closed;
use crate::passed::Passed;
use crate::symbols::add_symbols;
use crate::variables::free_variables;
use calculus::limits::MAX_ITEM_NESTING;
use cop_base::NoMemory;
use formula_core::{AddFault, Formula, Symbols};
use std::alloc::{AllocError, Global};
use tptp_reader::Source;

/// The symbols of the formulas, in the order in which they first stand there.
pub fn symbols_of(alloc: Global, passed: &[Passed]) -> Result<Symbols, AddFault>
    requires { IsTrue (list_all (λ (p : definition.Passed). is_short p.body) (map the_passed passed.now)) }
    ensures all { IfOk result (λ ss. ss ≡ symbols_of (map the_passed passed.now)) }
    ensures full { result ≡ Err AddFault.Full → 65536 < length (symbols_of (map the_passed passed.now)) }
{
    let mut symbols = Symbols::new(alloc);
    for item in passed {
        if let Err(fault) = add_symbols(alloc, &mut symbols, &item.body) {
            return Err(fault);
        }
    }
    Ok(symbols)
}

/// The formulas that pass, those of the premises and of the conjecture apart.
#[derive(Drop)]
pub struct Parts {
    pub premises: Vec<Source>,
    pub conjectures: Vec<Source>,
}

// Appends the formula to the premises or to the conjectures.
fn add_part(parts: &mut Parts, item: Passed) -> Result<(), NoMemory>
    ensures premises { OnOk result (map the_source parts.new.premises.items
        ≡ map the_source parts.old.premises.items ++ bodies (premises (the_passed item ∷ []))) }
    ensures conjectures { OnOk result (map the_source parts.new.conjectures.items
        ≡ map the_source parts.old.conjectures.items ++ bodies (conjectures (the_passed item ∷ []))) }
{
    if item.is_conjecture {
        parts.conjectures.push(item.body)?;
        return Ok(());
    }
    parts.premises.push(item.body)?;
    Ok(())
}

/// Takes premises and conjectures apart.
pub fn parts_of(alloc: Global, passed: Vec<Passed>) -> Result<Parts, NoMemory>
    ensures premises { IfOk result (λ p. map the_source p.premises.items ≡ bodies (premises (map the_passed passed.items))) }
    ensures conjectures { IfOk result (λ p. map the_source p.conjectures.items
        ≡ bodies (conjectures (map the_passed passed.items))) }
{
    let mut passed = passed;
    passed.reverse();
    let mut parts = Parts {
        premises: Vec::new(alloc),
        conjectures: Vec::new(alloc),
    };
    while let Some(item) = passed.pop() {
        add_part(&mut parts, item)?;
    }
    Ok(parts)
}

// The nodes of the item's formula, where it is not too deep.
fn closed_nodes(alloc: Global, body: &Source) -> Result<Option<u64>, NoMemory>
    ensures { IfOk result (λ n. (symbols : List tree.Symbol) → n ≡ flat_nodes (closed symbols (the_source body.now))) }
{
    let inner = nesting_of(alloc, body)?;
    if inner > MAX_ITEM_NESTING {
        return Ok(None);
    }
    let free = free_variables(alloc, body)?;
    let count = free.len() as u64;
    if inner.saturating_add(count) > MAX_ITEM_NESTING {
        return Ok(None);
    }
    Ok(Some(sum(count, nodes_of(body))))
}

/// The nodes of the formulas together, each with the connective that joins it, up to one more than
/// a problem may have; `None` where one of them is nested too deep.
pub fn items_nodes(alloc: Global, items: &[Source]) -> Result<Option<u64>, NoMemory>
    ensures { IfOk result (λ n. (symbols : List tree.Symbol) → n ≡ measured (map (closed symbols) (map the_source items.now))) }
{
    let mut total = 0;
    for body in items {
        let measured = closed_nodes(alloc, body)?;
        let Some(nodes) = measured else {
            return Ok(None);
        };
        total = sum(total, sum(1, nodes));
    }
    Ok(Some(total))
}

/// The nodes of the conjecture, which is the first; `None` where one of them is nested too deep.
#[tactic(auto, using(crate::proofs::ItemLaws::firsts))]
pub fn conjecture_nodes(alloc: Global, conjectures: &[Source]) -> Result<Option<u64>, NoMemory>
    ensures { IfOk result (λ n. (symbols : List tree.Symbol)
        → n ≡ first_measured (map (closed symbols) (map the_source conjectures.now))) }
{
    let Some((first, rest)) = conjectures.split_first() else {
        return Ok(Some(0));
    };
    let others = items_nodes(alloc, rest)?;
    let Some(_) = others else {
        return Ok(None);
    };
    let nodes = closed_nodes(alloc, first)?;
    Ok(nodes)
}

/// Appends the formulas of the items.
pub fn push_closed(
    alloc: Global,
    symbols: &Symbols,
    items: &[Source],
    formulas: &mut Vec<Formula>,
) -> Result<(), NoMemory>
    requires { IsTrue (list_all is_short (map the_source items.now)) }
    ensures { OnOk result (map the_formula formulas.new.items
        ≡ map the_formula formulas.old.items ++ map (closed symbols.now) (map the_source items.now)) }
{
    for body in items {
        let formula = closed(alloc, symbols, body)?;
        formulas.push(formula)?;
    }
    Ok(())
}

/// The formula of the conjecture, if there is one.
pub fn conjecture(
    alloc: Global,
    symbols: &Symbols,
    conjectures: &[Source],
) -> Result<Option<Formula>, NoMemory>
    requires { IsTrue (list_all is_short (map the_source conjectures.now)) }
    ensures { IfOk result (λ f. option_map the_formula f
        ≡ first_of (map (closed symbols.now) (map the_source conjectures.now))) }
{
    let Some((first, _)) = conjectures.split_first() else {
        return Ok(None);
    };
    let formula = closed(alloc, symbols, first)?;
    Ok(Some(formula))
}
