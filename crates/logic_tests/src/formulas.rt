//! Small formulas and symbols, worked out by hand.

ghost use Rattle.std.specs.Prelude.{◌≤◌, ◌^◌};

use cop_base::{NoMemory, PosId, SymbolId, Text};
use formula_core::{
    Formula, Shape, Sign, Symbol, SymbolClass, Symbols, Term, Terms, clause_count, literal_count,
    nesting, node_count,
};
use logic_rules::{Domains, Logic, Problem};
use std::alloc::Global;
use std::test::Fail;
use test_problems::proving;

// Whether there are so many clauses, literals and nodes.
fn counts(f: &Formula, sign: Sign, limit: u64, clauses: u64, literals: u64, nodes: u64) -> bool
    requires { limit ≤ 2 ^ 40 }
{
    clause_count(f, sign, limit) == clauses
        && literal_count(f, sign, limit) == literals
        && node_count(f, limit) == nodes
}

// A clause of `p | q`, three times joined by `&`, has under F one literal of each part.
fn counts_of_three(f: &Formula) -> bool {
    counts(f, Sign::F, 100, 8, 24, 11)
        && counts(f, Sign::F, 10, 8, 11, 11)
        && counts(f, Sign::F, 5, 6, 6, 6)
        && counts(f, Sign::T, 1099511627776, 3, 6, 11)
        && nesting(f) == 4
}

#[test]
fn counts_clauses(rt: HostRuntime) -> Result<(), Fail> {
    let formula = b"((p | q) & (p | q)) & (p | q)";
    let problem = proving(rt.alloc(), Logic::T, Domains::Constant, formula)?;
    assert!(rt; counts_of_three(problem.formula()));
    Ok(())
}

// What the two inner quantifiers bind, with an eigenvariable for E.
fn body_of(alloc: Global, problem: &Problem) -> Result<Option<Formula>, NoMemory> {
    let Some(inner) = problem.formula().at(PosId(1)) else {
        return Ok(None);
    };
    let inner = inner.instance(alloc, &Term::Eigen(1))?;
    match inner.at(PosId(2)) {
        Some(body) => Ok(Some(body.copy(alloc)?)),
        None => Ok(None),
    }
}

fn is_atom_at(f: &Formula, position: u32, symbol: u32) -> bool {
    let Some(part) = f.at(PosId(position)) else {
        return false;
    };
    match part.as_atom() {
        Some((found, _)) => found.0 == symbol,
        None => false,
    }
}

// The last position, 11, is that of q, which is the third symbol.
fn parts_of_body(f: &Formula) -> bool {
    is_atom_at(f, 9, 0)
        && !is_atom_at(f, 10, 2)
        && is_atom_at(f, 11, 2)
        && f.at(PosId(12)).is_none()
        && f.components(Sign::T).shape() == Shape::Beta
}

// How many nodes there are with f(s2,e3) for U, which stands there three times.
fn nodes_with_term(alloc: Global, body: &Formula) -> Result<u64, NoMemory> {
    let mut terms = Terms::new(alloc);
    terms.push(Term::Spare(2))?;
    terms.push(Term::Eigen(3))?;
    let instance = body.instance(alloc, &Term::Fun(SymbolId(1), terms))?;
    Ok(node_count(&instance, 100))
}

fn counts_of_body(f: &Formula) -> bool {
    counts(f, Sign::F, 100, 4, 4, 20) && nesting(f) == 7
}

// Whether the problem's body has the counts, the parts and the nodes that were worked out for it.
fn has_body(alloc: Global, problem: &Problem) -> Result<bool, NoMemory> {
    match body_of(alloc, problem)? {
        Some(body) => Ok(
            counts_of_body(&body) && parts_of_body(&body) && nodes_with_term(alloc, &body)? == 26,
        ),
        None => Ok(false),
    }
}

#[test]
fn takes_apart_and_puts_terms(rt: HostRuntime) -> Result<(), Fail> {
    let alloc = rt.alloc();
    let formula = b"![E]:![V]:![U]:((p(U,V) & ~#box:p(U,E)) => (![Y]:?[Z]:p(U,f(Y,V)) | #dia:q))";
    let problem = proving(alloc, Logic::T, Domains::Constant, formula)?;
    assert!(rt; has_body(alloc, &problem)?);
    Ok(())
}

// The symbol `p` of this class with one argument.
fn symbol(alloc: Global, class: SymbolClass) -> Result<Symbol, NoMemory> {
    let name = Text::new(alloc, b"p")?;
    Ok(Symbol {
        name,
        class,
        arity: 1,
    })
}

// Whether adding the symbol of this class gives the place.
fn adds(alloc: Global, symbols: &mut Symbols, class: SymbolClass, place: u32) -> bool {
    let Ok(symbol) = symbol(alloc, class) else {
        return false;
    };
    match symbols.add(symbol) {
        Ok(id) => id.0 == place,
        Err(_) => false,
    }
}

fn finds(alloc: Global, symbols: &Symbols, class: SymbolClass, place: u32) -> bool {
    let Ok(symbol) = symbol(alloc, class) else {
        return false;
    };
    match symbols.find(&symbol) {
        Some(id) => id.0 == place && symbols.get(id).arity == 1,
        None => false,
    }
}

// A predicate and a function of one name are two symbols.
fn numbers_two(alloc: Global, symbols: &mut Symbols) -> bool {
    adds(alloc, symbols, SymbolClass::Predicate, 0)
        && adds(alloc, symbols, SymbolClass::Function, 1)
        && adds(alloc, symbols, SymbolClass::Predicate, 0)
        && symbols.len() == 2
        && symbols.items().len() == 2
        && finds(alloc, symbols, SymbolClass::Function, 1)
}

#[test]
fn numbers_symbols(rt: HostRuntime) -> Result<(), Fail> {
    let mut symbols = Symbols::new(rt.alloc());
    assert!(rt; numbers_two(rt.alloc(), &mut symbols));
    Ok(())
}
