//! Terms that double at each level, f(x, x) with x = f(y, y) and so on: as trees they are too large to be walked.

ghost use Rattle.std.specs.Prelude.{◌≡◌, ◌<◌, ◌≤◌, IfOk, length};
ghost use Rattle.store_theory.specs.Patterns.{more_patterns, no_patterns, p_fun, p_var};
ghost use Rattle.term_store.specs.PatternView.{the_pattern};

use crate::stores::variable;
use cop_base::{NoMemory, SymbolId};
use std::alloc::Global;
use std::test::Fail;
use term_store::{Pattern, Patterns, Ref, Store, Variables};
use term_unify::Unifier;

// f(Y, Y).
fn doubled(alloc: Global) -> Result<Pattern, NoMemory>
    ensures { IfOk result (λ p. the_pattern p ≡ p_fun 1 (more_patterns (p_var 0) (more_patterns (p_var 0) no_patterns))) }
{
    let mut parts = Patterns::new(alloc);
    parts.push(Pattern::Var(0))?;
    parts.push(Pattern::Var(0))?;
    Ok(Pattern::Fun(SymbolId(1), parts))
}

// Binds x to a new f(y, y), and gives y.
fn double(
    alloc: Global,
    unifier: &mut Unifier,
    store: &mut Store,
    pattern: &Pattern,
    x: Ref,
) -> Result<Ref, NoMemory>
    requires pattern { the_pattern pattern.now ≡ p_fun 1 (more_patterns (p_var 0) (more_patterns (p_var 0) no_patterns)) }
    requires cell { x.0 < length store.old.store.cells }
    ensures cell { IfOk result (λ y. y.0 < length store.new.store.cells) }
    ensures longer { length store.old.store.cells ≤ length store.new.store.cells }
{
    let y = variable(store)?;
    let end = variable(store)?;
    let over = Variables { first: y, end };
    let mut places = Vec::new(alloc);
    let term = store.copy_pattern(pattern, over, &mut places)?;
    let _bound = unifier.unify(store, x, term)?;
    Ok(y)
}

// The variable x bound to a term that doubles so many times, and the last variable in it.
fn tower(
    alloc: Global,
    unifier: &mut Unifier,
    store: &mut Store,
    pattern: &Pattern,
    depth: u32,
) -> Result<(Ref, Ref), NoMemory>
    requires { the_pattern pattern.now ≡ p_fun 1 (more_patterns (p_var 0) (more_patterns (p_var 0) no_patterns)) }
    ensures root { IfOk result (λ r. r.0.0 < length store.new.store.cells) }
    ensures last { IfOk result (λ r. r.1.0 < length store.new.store.cells) }
    ensures longer { length store.old.store.cells ≤ length store.new.store.cells }
{
    let root = variable(store)?;
    let mut last = root;
    for _i in 0..depth {
        last = double(alloc, unifier, store, pattern, last)?;
    }
    Ok((root, last))
}

// Whether two such terms are unified, and their last variable does not go for the whole.
fn are_unified(alloc: Global, depth: u32) -> Result<bool, NoMemory> {
    let pattern = doubled(alloc)?;
    let mut store = Store::new(alloc)?;
    let mut unifier = Unifier::new(alloc);
    let (a, last) = tower(alloc, &mut unifier, &mut store, &pattern, depth)?;
    let (b, _) = tower(alloc, &mut unifier, &mut store, &pattern, depth)?;
    let equal = unifier.unify(&mut store, a, b)?;
    let cyclic = unifier.unify(&mut store, last, a)?;
    Ok(equal && !cyclic)
}

#[test]
fn terms_that_double(rt: HostRuntime) -> Result<(), Fail> {
    assert!(rt; are_unified(rt.alloc(), 10000)?);
    Ok(())
}
