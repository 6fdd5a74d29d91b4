//! The arguments of p(X, f(X), Y), matched with cells.

ghost use Rattle.std.specs.Prelude.{◌≡◌, ◌∷◌, ◌<◌, ◌≤◌, [], ℕ, List, IfOk, IsTrue, OnOk, length, map};
ghost use Rattle.std.specs.List.{list_all};
ghost use Rattle.calculus.specs.declared.sort.Sort.TheVariants.{TermSort};
ghost use Rattle.store_theory.specs.Patterns.{Grows, more_patterns, no_patterns, p_fun, template_fits};
ghost use Rattle.store_theory.specs.Stores.{Store as TreeStore, has_sort_at};
ghost use Rattle.term_store.specs.Fitting.{fits_in};
ghost use Rattle.term_store.specs.PatternView.{the_pattern};
ghost use Rattle.term_store.specs.RefView.{the_place};
ghost use Rattle.term_store.specs.TemplateView.{the_template};

use crate::stores::variable;
use cop_base::{NoMemory, SymbolId};
use std::alloc::Global;
use std::test::Fail;
use term_store::{
    Head, Pattern, PatternAtom, PatternAtomList, PatternGammaList, Patterns, Ref, Sign, Sort,
    SortList, Store, Template, Variables,
};
use term_unify::Unifier;

// ---- patterns

fn constant(alloc: Global, name: u32) -> Pattern
    ensures { the_pattern result ≡ p_fun name no_patterns }
{
    Pattern::Fun(SymbolId(name), Patterns::new(alloc))
}

fn applied(alloc: Global, name: u32, part: Pattern) -> Result<Pattern, NoMemory>
    ensures { IfOk result (λ p. the_pattern p ≡ p_fun name (more_patterns (the_pattern part) no_patterns)) }
{
    let mut parts = Patterns::new(alloc);
    parts.push(part)?;
    Ok(Pattern::Fun(SymbolId(name), parts))
}

// The clause p(X, f(X), Y).
fn clause(alloc: Global) -> Result<Template, NoMemory>
    ensures fits { IfOk result (λ t. IsTrue (template_fits (the_template t))) }
    ensures literal { IfOk result (λ t. 0 < length t.literals) }
    ensures sorts { IfOk result (λ t. t.sorts ≡ TermSort ∷ TermSort ∷ []) }
{
    let mut args = Patterns::new(alloc);
    args.push(Pattern::Var(0))?;
    args.push(applied(alloc, 1, Pattern::Var(0))?)?;
    args.push(Pattern::Var(1))?;
    let mut literals = PatternAtomList::new(alloc);
    literals.push(PatternAtom {
        sign: Sign::F,
        symbol: SymbolId(0),
        args,
        label: Patterns::new(alloc),
    })?;
    let mut sorts = SortList::new(alloc);
    sorts.push(Sort::TermSort)?;
    sorts.push(Sort::TermSort)?;
    Ok(Template {
        literals,
        strings: Patterns::new(alloc),
        pis: 0,
        gammas: PatternGammaList::new(alloc),
        sorts,
    })
}

// ---- cells

// A copy of the pattern, which has no variables.
fn built(alloc: Global, store: &mut Store, pattern: &Pattern) -> Result<Ref, NoMemory>
    requires { (s : TreeStore) (vs : List ℕ) → IsTrue (fits_in s vs TermSort (the_pattern pattern.now)) }
    ensures term { IfOk result (λ r. IsTrue (has_sort_at store.new.store TermSort r.0)) }
    ensures grows { Grows store.old.store store.new.store }
{
    let none = Variables {
        first: Ref(0),
        end: Ref(0),
    };
    let mut places = Vec::new(alloc);
    let copied = store.copy_pattern(pattern, none, &mut places)?;
    Ok(copied)
}

// Whether the arguments of the clause's literal, over new variables, are matched with these cells.
fn are_matched(
    store: &mut Store,
    unifier: &mut Unifier,
    t: &Template,
    cells: &[Ref],
) -> Result<bool, NoMemory>
    requires fits { IsTrue (template_fits (the_template t.now)) }
    requires literal { 0 < length t.now.literals }
    requires sorts { t.now.sorts ≡ TermSort ∷ TermSort ∷ [] }
    requires cells { IsTrue (list_all (has_sort_at store.old.store TermSort) (map the_place cells.now)) }
    ensures longer { OnOk result (length store.old.store.cells ≤ length store.new.store.cells) }
{
    let before = store.size() - store.spare();
    let variables = store.new_variables(&t.sorts)?;
    let literal = &t.literals.items()[0];
    let equal = unifier.match_all(store, before, cells, &literal.args, variables)?;
    Ok(equal)
}

// ---- what comes of it

// Whether they are matched with a, this term and a variable.
fn is_met(alloc: Global, term: &Pattern) -> Result<bool, NoMemory>
    requires { (s : TreeStore) (vs : List ℕ) → IsTrue (fits_in s vs TermSort (the_pattern term.now)) }
{
    let t = clause(alloc)?;
    let mut store = Store::new(alloc)?;
    let mut unifier = Unifier::new(alloc);
    let a = built(alloc, &mut store, &constant(alloc, 2))?;
    let second = built(alloc, &mut store, term)?;
    let z = variable(&mut store)?;
    let met = are_matched(&mut store, &mut unifier, &t, &[a, second, z])?;
    Ok(met)
}

// Whether they are matched with one variable three times.
fn is_cyclic_met(alloc: Global) -> Result<bool, NoMemory> {
    let t = clause(alloc)?;
    let mut store = Store::new(alloc)?;
    let mut unifier = Unifier::new(alloc);
    let z = variable(&mut store)?;
    let met = are_matched(&mut store, &mut unifier, &t, &[z, z, z])?;
    Ok(met)
}

// Whether a variable that meets f(X) is f(a) afterwards, where a met X.
fn is_variable_bound(alloc: Global) -> Result<bool, NoMemory> {
    let t = clause(alloc)?;
    let mut store = Store::new(alloc)?;
    let mut unifier = Unifier::new(alloc);
    let a = built(alloc, &mut store, &constant(alloc, 2))?;
    let w = variable(&mut store)?;
    let z = variable(&mut store)?;
    if !are_matched(&mut store, &mut unifier, &t, &[a, w, z])? {
        return Ok(false);
    }
    Ok(is_applied_to(&store, w, a))
}

// Whether the cell is f of this one.
fn is_applied_to(store: &Store, r: Ref, part: Ref) -> bool
    requires { r.0 < length store.now.store.cells }
{
    let Head::Fun(f) = store.head(r) else {
        return false;
    };
    if store.parts(r) != 1 {
        return false;
    }
    f.0 == 1 && store.walk(store.part(r, 0)).0 == part.0
}

#[test]
fn variables_that_meet_patterns(rt: HostRuntime) -> Result<(), Fail> {
    assert!(rt; is_variable_bound(rt.alloc())?);
    assert!(rt; !is_cyclic_met(rt.alloc())?);
    Ok(())
}

#[test]
fn built_cells_that_meet_patterns(rt: HostRuntime) -> Result<(), Fail> {
    let alloc = rt.alloc();
    let inner = constant(alloc, 2);
    let same = applied(alloc, 1, inner)?;
    assert!(rt; is_met(alloc, &same)?);
    assert!(rt; !is_met(alloc, &constant(alloc, 2))?);
    Ok(())
}
