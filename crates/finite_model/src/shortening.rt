//! Formulas with variables in place of their closed terms: these name the elements that the terms do, which are told once, and not at each
//! visit of an atom again.

ghost use Rattle.std.specs.Prelude.{◌≡◌, ◌+◌, ◌<◌, ◌≤◌, ◌^◌, ◌++◌, ◌∷◌, [], List, ℕ, IfOk, OnOk, map};
ghost use Rattle.calculus.specs.Lists.{terms_tree};
ghost use Rattle.calculus.specs.Measures.{nesting};
ghost use Rattle.calculus.specs.Syntax as tree;
ghost use Rattle.calculus.specs.Structures.{Structure as TheStructure};
ghost use Rattle.formula_core.specs.FormulaView.{the_formula};
ghost use Rattle.formula_core.specs.TermView.{the_term};
ghost use Rattle.finite_model.specs.Shortened.{AreShort, IsShort, IsShortFormula};

use crate::structure::Structure;
use crate::value::place_with;
use cop_base::{NoMemory, SymbolId};
use formula_core::{Formula, Term, Terms};
use std::alloc::Global;

/// The element that a closed term names, or a term with variables in place of its closed parts.
#[derive(Drop)]
pub enum Short {
    Known(u8),
    Open(Term),
}

/// Arguments with variables in place of closed terms, whether all are such variables, and then the place of their tuple.
#[derive(Drop)]
pub struct ShortArgs {
    pub terms: Terms,
    pub is_known: bool,
    pub place: usize,
}

// A variable that no quantifier binds names the element 0.
fn short_variable(between: u32, depth: u32) -> Short
    ensures { (S : TheStructure) → IsShort S depth (tree.var between) result }
{
    if between < depth {
        Short::Open(Term::Var(between))
    } else {
        Short::Known(0)
    }
}

// The function at these arguments.
fn applied(structure: &Structure, function: SymbolId, args: ShortArgs) -> Short
    ensures { (d : ℕ) (ts : List tree.Term) → AreShort structure.now d ts args
        → IsShort structure.now d (tree.fun function.0 (terms_tree ts)) result }
{
    if args.is_known {
        Short::Known(structure.value_at(function, args.place))
    } else {
        Short::Open(Term::Fun(function, args.terms))
    }
}

// One argument more. An element is a variable behind all that are bound, by its number.
fn put(
    structure: &Structure,
    depth: u32,
    args: &mut ShortArgs,
    short: Short,
) -> Result<(), NoMemory>
    requires { depth + 256 < 2 ^ 32 }
    ensures { OnOk result ((ts : List tree.Term) (t : tree.Term) → AreShort structure.now depth ts args.old
        → IsShort structure.now depth t short → AreShort structure.now depth (ts ++ t ∷ []) args.new) }
{
    match short {
        Short::Known(element) => {
            args.terms.push(Term::Var(depth + u32::from(element)))?;
            args.place = place_with(args.place, structure.elements(), element);
            Ok(())
        }
        Short::Open(term) => {
            args.terms.push(term)?;
            args.is_known = false;
            Ok(())
        }
    }
}

fn no_args(alloc: Global) -> ShortArgs
    ensures { (S : TheStructure) (d : ℕ) → AreShort S d [] result }
{
    ShortArgs {
        terms: Terms::new(alloc),
        is_known: true,
        place: 0,
    }
}

// The term inside so many quantifiers.
#[cycle(shortening)]
fn short_term(
    alloc: Global,
    structure: &Structure,
    depth: u32,
    term: &Term,
) -> Result<Short, NoMemory>
    requires { depth + 256 < 2 ^ 32 }
    ensures { IfOk result (λ s. IsShort structure.now depth (the_term term.now) s) }
{
    match term {
        Term::Var(between) => Ok(short_variable(*between, depth)),
        Term::Fun(function, args) => {
            let short = short_args(alloc, structure, depth, args)?;
            Ok(applied(structure, *function, short))
        }
        Term::Eigen(_) | Term::Spare(_) => Ok(Short::Known(0)),
    }
}

#[cycle(shortening)]
#[tactic(auto, using(formula_core::specs::TermFalls::falling))]
fn short_args(
    alloc: Global,
    structure: &Structure,
    depth: u32,
    args: &Terms,
) -> Result<ShortArgs, NoMemory>
    requires { depth + 256 < 2 ^ 32 }
    ensures { IfOk result (λ a. AreShort structure.now depth args.now a) }
{
    let mut all = no_args(alloc);
    for arg in args.items() {
        let short = short_term(alloc, structure, depth, arg)?;
        put(structure, depth, &mut all, short)?;
    }
    Ok(all)
}

fn short_atom(
    alloc: Global,
    structure: &Structure,
    depth: u32,
    predicate: SymbolId,
    args: &Terms,
) -> Result<Formula, NoMemory>
    requires { depth + 256 < 2 ^ 32 }
    ensures { IfOk result (λ g. IsShortFormula structure.now depth (tree.atom predicate.0 (terms_tree args.now)) (the_formula g)) }
{
    let short = short_args(alloc, structure, depth, args)?;
    Ok(Formula::Atom(predicate, short.terms))
}

/// The formula inside so many quantifiers. It is as true as the formula, at each way, where the elements in their order stand behind
/// those that are bound.
pub fn short_formula(
    alloc: Global,
    structure: &Structure,
    depth: u32,
    formula: &Formula,
) -> Result<Formula, NoMemory>
    requires { depth + nesting (the_formula formula.now) + 256 < 2 ^ 32 }
    ensures { IfOk result (λ g. IsShortFormula structure.now depth (the_formula formula.now) (the_formula g)) }
{
    match formula {
        Formula::Atom(predicate, args) => {
            let atom = short_atom(alloc, structure, depth, *predicate, args)?;
            Ok(atom)
        }
        Formula::Not(a) => {
            let part = short_formula(alloc, structure, depth, a)?;
            let whole = Formula::not(alloc, part)?;
            Ok(whole)
        }
        Formula::And(a, b) => {
            let left = short_formula(alloc, structure, depth, a)?;
            let right = short_formula(alloc, structure, depth, b)?;
            let whole = Formula::and(alloc, left, right)?;
            Ok(whole)
        }
        Formula::Or(a, b) => {
            let left = short_formula(alloc, structure, depth, a)?;
            let right = short_formula(alloc, structure, depth, b)?;
            let whole = Formula::or(alloc, left, right)?;
            Ok(whole)
        }
        Formula::Imp(a, b) => {
            let left = short_formula(alloc, structure, depth, a)?;
            let right = short_formula(alloc, structure, depth, b)?;
            let whole = Formula::imp(alloc, left, right)?;
            Ok(whole)
        }
        Formula::All(a) => {
            let part = short_formula(alloc, structure, depth + 1, a)?;
            let whole = Formula::all(alloc, part)?;
            Ok(whole)
        }
        Formula::Ex(a) => {
            let part = short_formula(alloc, structure, depth + 1, a)?;
            let whole = Formula::ex(alloc, part)?;
            Ok(whole)
        }
        Formula::Nec(a) => {
            let part = short_formula(alloc, structure, depth, a)?;
            let whole = Formula::nec(alloc, part)?;
            Ok(whole)
        }
        Formula::Poss(a) => {
            let part = short_formula(alloc, structure, depth, a)?;
            let whole = Formula::poss(alloc, part)?;
            Ok(whole)
        }
    }
}
