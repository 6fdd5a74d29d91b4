//! The axioms of equality.

ghost use Rattle.std.specs.Prelude.{◌≡◌, ◌+◌, ◌<◌, ◌≤◌, ◌++◌, ◌∷◌, [], ℕ, List, None, true, length, map, option_map, IfOk, IsTrue, OnOk};
ghost use Rattle.std.specs.List.{list_all};
ghost use Rattle.calculus.specs.Lists.{terms_tree};
ghost use Rattle.calculus.specs.Syntax as tree;
ghost use Rattle.formula_core.specs.FormulaView.{the_formula};
ghost use Rattle.formula_core.specs.TermView.{the_term};
ghost use Rattle.problem_build.specs.Measuring.{congruence_of, flat_nodes, listed_axiom, measured};
ghost use Rattle.problem_build.specs.NameCount.{is_narrow};
ghost use Rattle.problem_build.specs.Expansion.{equality_atom};
ghost use Rattle.problem_build.specs.EqualityAxioms.{congruence_of_function, congruence_of_predicate, equal_arguments, equality_axioms, equations, for_all_times, for_each, function_axiom, left_variables, predicate_axiom, reflexivity, right_variables, symmetry, transitivity, variables};

use crate::counts::sum;
use crate::expansion::{all_times, equality_atom, joined_chain};
use calculus::limits::{MAX_ITEM_NESTING, MAX_NODES};
use cop_base::{NoMemory, SymbolId};
use formula_core::{Formula, Symbol, SymbolClass, Symbols, Term, Terms, nesting, node_count};
use std::alloc::{AllocError, Global};
use tptp_reader::ChainKind;

/// Which symbols an axiom of congruence is for.
#[derive(Clone, Copy)]
pub enum Sort {
    Functions,
    Predicates,
}

// The nodes of the first three axioms, each with its connective.
const FIRST_NODES: u64 = 5 + 10 + 15;

pub fn reflexivity(alloc: Global, symbols: &Symbols) -> Result<Formula, NoMemory>
    ensures { IfOk result (λ f. the_formula f ≡ reflexivity symbols.now) }
{
    let atom = equality_atom(alloc, symbols, Term::Var(0), Term::Var(0))?;
    let formula = all_times(alloc, 1, atom)?;
    Ok(formula)
}

pub fn symmetry(alloc: Global, symbols: &Symbols) -> Result<Formula, NoMemory>
    ensures { IfOk result (λ f. the_formula f ≡ symmetry symbols.now) }
{
    let given = equality_atom(alloc, symbols, Term::Var(1), Term::Var(0))?;
    let turned = equality_atom(alloc, symbols, Term::Var(0), Term::Var(1))?;
    let body = Formula::imp(alloc, given, turned)?;
    let formula = all_times(alloc, 2, body)?;
    Ok(formula)
}

pub fn transitivity(alloc: Global, symbols: &Symbols) -> Result<Formula, NoMemory>
    ensures { IfOk result (λ f. the_formula f ≡ transitivity symbols.now) }
{
    let first = equality_atom(alloc, symbols, Term::Var(2), Term::Var(1))?;
    let second = equality_atom(alloc, symbols, Term::Var(1), Term::Var(0))?;
    let both = Formula::and(alloc, first, second)?;
    let whole = equality_atom(alloc, symbols, Term::Var(2), Term::Var(0))?;
    let body = Formula::imp(alloc, both, whole)?;
    let formula = all_times(alloc, 3, body)?;
    Ok(formula)
}

// So many variables, from the outermost on; `inside` quantifiers stand inside of theirs.
fn variables(alloc: Global, inside: u32, count: u32) -> Result<Terms, NoMemory>
    requires { inside + count ≤ 4294967295 }
    ensures { IfOk result (λ ts. ts ≡ variables inside count) }
{
    let mut terms = Terms::new(alloc);
    let mut left = count;
    while left > 0 {
        left -= 1;
        terms.push(Term::Var(inside + left))?;
    }
    Ok(terms)
}

// The conjunction of the equations of so many arguments.
fn equal_arguments(alloc: Global, symbols: &Symbols, count: u32) -> Result<Formula, NoMemory>
    requires some { 1 ≤ count }
    requires within { count + count ≤ 4294967295 }
    ensures { IfOk result (λ f. the_formula f ≡ equal_arguments symbols.now count) }
{
    let equations = equations(alloc, symbols, count)?;
    let formula = joined_chain(alloc, symbols, ChainKind::And, equations)?;
    Ok(formula)
}

// The equations of so many arguments.
fn equations(alloc: Global, symbols: &Symbols, count: u32) -> Result<Vec<Formula>, NoMemory>
    requires { count + count ≤ 4294967295 }
    ensures { IfOk result (λ fs. map the_formula fs.items
        ≡ equations symbols.now (left_variables count) (right_variables count)) }
{
    let mut made = Vec::new(alloc);
    let mut left = count;
    while left > 0 {
        left -= 1;
        let equation = equality_atom(alloc, symbols, Term::Var(count + left), Term::Var(left))?;
        made.push(equation)?;
    }
    Ok(made)
}

// What is given and what follows from it, for all arguments on both sides.
fn congruent(alloc: Global, count: u32, given: Formula, shown: Formula) -> Result<Formula, NoMemory>
    requires { count + count ≤ 4294967295 }
    ensures { IfOk result (λ a. the_formula a
        ≡ for_all_times (count + count) (tree.imp (the_formula given) (the_formula shown))) }
{
    let body = Formula::imp(alloc, given, shown)?;
    all_times(alloc, (count + count) as usize, body)
}

// The function of so many variables; `inside` quantifiers stand inside of theirs.
fn value(alloc: Global, f: SymbolId, inside: u32, count: u32) -> Result<Term, NoMemory>
    requires { inside + count ≤ 4294967295 }
    ensures { IfOk result (λ t. the_term t ≡ tree.fun f.0 (terms_tree (variables inside count))) }
{
    let args = variables(alloc, inside, count)?;
    Ok(Term::Fun(f, args))
}

// The equation of the function's values on both sides.
fn equal_values(
    alloc: Global,
    symbols: &Symbols,
    f: SymbolId,
    count: u32,
) -> Result<Formula, NoMemory>
    requires { count + count ≤ 4294967295 }
    ensures { IfOk result (λ a. the_formula a ≡ equality_atom symbols.now
        (tree.fun f.0 (terms_tree (left_variables count))) (tree.fun f.0 (terms_tree (right_variables count)))) }
{
    let left = value(alloc, f, count, count)?;
    let right = value(alloc, f, 0, count)?;
    equality_atom(alloc, symbols, left, right)
}

// The predicate of so many variables; `inside` quantifiers stand inside of theirs.
fn held(alloc: Global, p: SymbolId, inside: u32, count: u32) -> Result<Formula, NoMemory>
    requires { inside + count ≤ 4294967295 }
    ensures { IfOk result (λ a. the_formula a ≡ tree.atom p.0 (terms_tree (variables inside count))) }
{
    let args = variables(alloc, inside, count)?;
    Ok(Formula::Atom(p, args))
}

// The arguments are equal, and the predicate holds of those on the left.
fn held_of_equal(
    alloc: Global,
    symbols: &Symbols,
    p: SymbolId,
    count: u32,
) -> Result<Formula, NoMemory>
    requires some { 1 ≤ count }
    requires within { count + count ≤ 4294967295 }
    ensures { IfOk result (λ a. the_formula a ≡ tree.conj (equal_arguments symbols.now count)
        (tree.atom p.0 (terms_tree (left_variables count)))) }
{
    let equal = equal_arguments(alloc, symbols, count)?;
    let held = held(alloc, p, count, count)?;
    Formula::and(alloc, equal, held)
}

pub fn function_axiom(
    alloc: Global,
    symbols: &Symbols,
    f: SymbolId,
    count: u32,
) -> Result<Formula, NoMemory>
    requires some { 1 ≤ count }
    requires within { count + count ≤ 4294967295 }
    ensures { IfOk result (λ a. the_formula a ≡ function_axiom symbols.now f.0 count) }
{
    let equal = equal_arguments(alloc, symbols, count)?;
    let values = equal_values(alloc, symbols, f, count)?;
    congruent(alloc, count, equal, values)
}

pub fn predicate_axiom(
    alloc: Global,
    symbols: &Symbols,
    p: SymbolId,
    count: u32,
) -> Result<Formula, NoMemory>
    requires some { 1 ≤ count }
    requires within { count + count ≤ 4294967295 }
    ensures { IfOk result (λ a. the_formula a ≡ predicate_axiom symbols.now p.0 count) }
{
    let given = held_of_equal(alloc, symbols, p, count)?;
    let held = held(alloc, p, 0, count)?;
    congruent(alloc, count, given, held)
}

// The axiom for the symbol of this number, where it is a function symbol with arguments.
#[tactic(auto, using(crate::proofs::MeasuringLaws::congruent))]
fn congruence_of_function(
    alloc: Global,
    symbols: &Symbols,
    id: SymbolId,
    symbol: &Symbol,
) -> Result<Option<Formula>, NoMemory>
    requires { symbol.now.arity ≤ 2147483647 }
    ensures { IfOk result (λ a. listed_axiom (option_map the_formula a)
        ≡ congruence_of_function symbols.now id.0 symbol.now.class symbol.now.arity) }
{
    match symbol.class {
        SymbolClass::Function => {}
        SymbolClass::Predicate | SymbolClass::Equality | SymbolClass::Truth => return Ok(None),
    }
    if symbol.arity == 0 {
        return Ok(None);
    }
    let formula = function_axiom(alloc, symbols, id, symbol.arity)?;
    Ok(Some(formula))
}

// The same for a predicate symbol.
#[tactic(auto, using(crate::proofs::MeasuringLaws::congruent))]
fn congruence_of_predicate(
    alloc: Global,
    symbols: &Symbols,
    id: SymbolId,
    symbol: &Symbol,
) -> Result<Option<Formula>, NoMemory>
    requires { symbol.now.arity ≤ 2147483647 }
    ensures { IfOk result (λ a. listed_axiom (option_map the_formula a)
        ≡ congruence_of_predicate symbols.now id.0 symbol.now.class symbol.now.arity) }
{
    match symbol.class {
        SymbolClass::Predicate => {}
        SymbolClass::Function | SymbolClass::Equality | SymbolClass::Truth => return Ok(None),
    }
    if symbol.arity == 0 {
        return Ok(None);
    }
    let formula = predicate_axiom(alloc, symbols, id, symbol.arity)?;
    Ok(Some(formula))
}

// The axiom for the symbol of this number, where it is one of this sort with arguments.
fn congruence(
    alloc: Global,
    symbols: &Symbols,
    sort: Sort,
    id: SymbolId,
    symbol: &Symbol,
) -> Result<Option<Formula>, NoMemory>
    requires { symbol.now.arity ≤ 2147483647 }
    ensures { IfOk result (λ a. listed_axiom (option_map the_formula a)
        ≡ congruence_of sort symbols.now id.0 symbol.now.class symbol.now.arity) }
{
    match sort {
        Sort::Functions => congruence_of_function(alloc, symbols, id, symbol),
        Sort::Predicates => congruence_of_predicate(alloc, symbols, id, symbol),
    }
}

// Appends the axiom, if there is one.
fn push_listed(axioms: &mut Vec<Formula>, listed: Option<Formula>) -> Result<(), NoMemory>
    ensures { OnOk result (map the_formula axioms.new.items
        ≡ map the_formula axioms.old.items ++ listed_axiom (option_map the_formula listed)) }
{
    if let Some(formula) = listed {
        axioms.push(formula)?;
        return Ok(());
    }
    Ok(())
}

fn push_congruences(
    alloc: Global,
    symbols: &Symbols,
    sort: Sort,
    axioms: &mut Vec<Formula>,
) -> Result<(), NoMemory>
    requires { IsTrue (list_all is_narrow symbols.now) }
    ensures { OnOk result (map the_formula axioms.new.items
        ≡ map the_formula axioms.old.items ++ for_each (congruence_of sort symbols.now) 0 symbols.now) }
{
    for number in 0..symbols.len() {
        let id = SymbolId(number as u32);
        let symbol = symbols.get(id);
        let listed = congruence(alloc, symbols, sort, id, symbol)?;
        push_listed(axioms, listed)?;
    }
    Ok(())
}

// The axioms that speak of equality alone.
fn first_axioms(alloc: Global, symbols: &Symbols) -> Result<Vec<Formula>, NoMemory>
    ensures { IfOk result (λ fs. map the_formula fs.items
        ≡ reflexivity symbols.now ∷ symmetry symbols.now ∷ transitivity symbols.now ∷ []) }
{
    let mut axioms = Vec::new(alloc);
    let first = reflexivity(alloc, symbols)?;
    axioms.push(first)?;
    let second = symmetry(alloc, symbols)?;
    axioms.push(second)?;
    let third = transitivity(alloc, symbols)?;
    axioms.push(third)?;
    Ok(axioms)
}

/// The axioms of equality over the symbols.
pub fn equality_axioms(alloc: Global, symbols: &Symbols) -> Result<Vec<Formula>, NoMemory>
    requires { IsTrue (list_all is_narrow symbols.now) }
    ensures { IfOk result (λ fs. map the_formula fs.items ≡ equality_axioms symbols.now) }
{
    let mut axioms = first_axioms(alloc, symbols)?;
    push_congruences(alloc, symbols, Sort::Functions, &mut axioms)?;
    push_congruences(alloc, symbols, Sort::Predicates, &mut axioms)?;
    Ok(axioms)
}

#[tactic(auto, using(crate::proofs::MeasuringLaws::flat))]
fn flat_nodes(formula: &Formula) -> Option<u64>
    ensures { result ≡ flat_nodes (the_formula formula.now) }
{
    if nesting(formula) > MAX_ITEM_NESTING {
        None
    } else {
        Some(node_count(formula, MAX_NODES))
    }
}

// The nodes of a formula with its connective, if there is one.
#[tactic(auto, using(crate::proofs::MeasuringLaws::single))]
fn listed_nodes(formula: Option<Formula>) -> Option<u64>
    ensures { result ≡ measured (listed_axiom (option_map the_formula formula)) }
{
    match formula {
        None => Some(0),
        Some(formula) => match flat_nodes(&formula) {
            None => None,
            Some(nodes) => Some(sum(1, nodes)),
        },
    }
}

/// The greatest arity of a symbol whose axiom can keep to the greatest nesting.
const MAX_ARITY: u32 = 500;

// Whether the symbol's axiom is too deep by its quantifiers alone.
#[tactic(auto, using(crate::proofs::MeasuringLaws::wide))]
fn is_too_wide(sort: Sort, symbol: &Symbol) -> bool
    ensures { (symbols : List tree.Symbol) (k : ℕ) → result ≡ true
        → None ≡ measured (congruence_of sort symbols k symbol.now.class symbol.now.arity) }
{
    if symbol.arity <= MAX_ARITY {
        return false;
    }
    match sort {
        Sort::Functions => match symbol.class {
            SymbolClass::Function => true,
            SymbolClass::Predicate | SymbolClass::Equality | SymbolClass::Truth => false,
        },
        Sort::Predicates => match symbol.class {
            SymbolClass::Predicate => true,
            SymbolClass::Function | SymbolClass::Equality | SymbolClass::Truth => false,
        },
    }
}

// The nodes of the axiom for the symbol of this number with its connective, or none.
fn congruence_nodes(
    alloc: Global,
    symbols: &Symbols,
    sort: Sort,
    id: SymbolId,
    symbol: &Symbol,
) -> Result<Option<u64>, NoMemory>
    requires { symbol.now.arity ≤ 2147483647 }
    ensures { IfOk result (λ n. n ≡ measured (congruence_of sort symbols.now id.0 symbol.now.class symbol.now.arity)) }
{
    if is_too_wide(sort, symbol) {
        return Ok(None);
    }
    let listed = congruence(alloc, symbols, sort, id, symbol)?;
    Ok(listed_nodes(listed))
}

fn congruences_nodes(alloc: Global, symbols: &Symbols, sort: Sort) -> Result<Option<u64>, NoMemory>
    requires { IsTrue (list_all is_narrow symbols.now) }
    ensures { IfOk result (λ n. n ≡ measured (for_each (congruence_of sort symbols.now) 0 symbols.now)) }
{
    let mut total = 0;
    for number in 0..symbols.len() {
        let id = SymbolId(number as u32);
        let symbol = symbols.get(id);
        let measured = congruence_nodes(alloc, symbols, sort, id, symbol)?;
        let Some(nodes) = measured else {
            return Ok(None);
        };
        total = sum(total, nodes);
    }
    Ok(Some(total))
}

/// The nodes of the axioms of equality together, each with the connective that joins it, up to one
/// more than a problem may have; `None` where one of them is nested too deep. An axiom of a symbol
/// is built to be measured and dropped again.
#[tactic(auto, using(crate::proofs::MeasuringLaws::whole))]
pub fn axioms_nodes(alloc: Global, symbols: &Symbols) -> Result<Option<u64>, NoMemory>
    requires { IsTrue (list_all is_narrow symbols.now) }
    ensures { IfOk result (λ n. n ≡ measured (equality_axioms symbols.now)) }
{
    let of_functions = congruences_nodes(alloc, symbols, Sort::Functions)?;
    let Some(functions) = of_functions else {
        return Ok(None);
    };
    let of_predicates = congruences_nodes(alloc, symbols, Sort::Predicates)?;
    let Some(predicates) = of_predicates else {
        return Ok(None);
    };
    let total = sum(functions, predicates);
    Ok(Some(sum(FIRST_NODES, total)))
}
