//! The clause p(f(X, X), X), copied, and new variables.

ghost use Rattle.std.specs.Prelude.{◌≡◌, IfOk, IsTrue, length};
ghost use Rattle.calculus.specs.declared.sort.Sort.TheVariants.{TermSort};
ghost use Rattle.store_theory.specs.Patterns.{Grows, template_fits};
ghost use Rattle.store_theory.specs.Stores.{has_sort_at};
ghost use Rattle.term_store.specs.TemplateView.{the_template};

use cop_base::{NoMemory, SymbolId};
use std::alloc::Global;
use std::test::Fail;
use term_store::{
    Pattern, PatternAtom, PatternAtomList, PatternGammaList, Patterns, Ref, Sign, Sort, SortList,
    Store, Template,
};

/// A new variable.
pub fn variable(store: &mut Store) -> Result<Ref, NoMemory>
    ensures term { IfOk result (λ r. IsTrue (has_sort_at store.new.store TermSort r.0)) }
    ensures place { IfOk result (λ r. r.0 ≡ length store.old.store.cells) }
    ensures grows { Grows store.old.store store.new.store }
{
    store.reserve(1)?;
    let fresh = store.fresh(Sort::TermSort);
    Ok(fresh)
}

// The clause p(f(X, X), X).
fn doubled(alloc: Global) -> Result<Template, NoMemory>
    ensures { IfOk result (λ t. IsTrue (template_fits (the_template t))) }
{
    let mut inner = Patterns::new(alloc);
    inner.push(Pattern::Var(0))?;
    inner.push(Pattern::Var(0))?;
    let mut args = Patterns::new(alloc);
    args.push(Pattern::Fun(SymbolId(1), inner))?;
    args.push(Pattern::Var(0))?;
    let mut literals = PatternAtomList::new(alloc);
    literals.push(PatternAtom {
        sign: Sign::F,
        symbol: SymbolId(0),
        args,
        label: Patterns::new(alloc),
    })?;
    let mut sorts = SortList::new(alloc);
    sorts.push(Sort::TermSort)?;
    Ok(Template {
        literals,
        strings: Patterns::new(alloc),
        pis: 0,
        gammas: PatternGammaList::new(alloc),
        sorts,
    })
}

#[test]
fn copies_a_clause(rt: HostRuntime) -> Result<(), Fail> {
    let alloc = rt.alloc();
    let t = doubled(alloc)?;
    let mut store = Store::new(alloc)?;
    let first = store.copy_clause(&t)?;
    let second = store.copy_clause(&t)?;
    assert!(rt; first.literals.items().len() == 1);
    assert!(rt; second.literals.items().len() == 1);
    for atom in second.literals.items() {
        assert!(rt; atom.args.items().len() == 2);
    }
    store.reserve(8)?;
    assert!(rt; store.size() >= 12);
    Ok(())
}
