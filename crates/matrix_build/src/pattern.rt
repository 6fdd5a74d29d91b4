//! Patterns of terms, and copies of patterns.

ghost use Rattle.std.specs.Prelude.{◌≡◌, ◌∷◌, ◌++◌, [], IfOk, slice_index_or};
ghost use Rattle.calculus.specs.Lists.{terms_tree};
ghost use Rattle.store_theory.specs.Patterns.{no_patterns, p_new};
ghost use Rattle.search_theory.specs.TemplateOf.{pattern_of, patterns_of};
ghost use Rattle.formula_core.specs.TermView.{the_term};
ghost use Rattle.term_store.specs.PatternView.{the_pattern};

use cop_base::{NoMemory, PosId};
use formula_core::{Term, Terms};
use std::alloc::Global;
use term_store::{Pattern, Patterns};

/// The list with this pattern behind it.
pub(crate) fn followed(
    alloc: Global,
    patterns: &Patterns,
    last: Pattern,
) -> Result<Patterns, NoMemory>
    ensures { IfOk result (λ ps. ps ≡ patterns.now ++ the_pattern last ∷ []) }
{
    let mut all = Patterns::with_capacity(alloc, patterns.items().len() + 1)?;
    append(&mut all, patterns)?;
    all.push(last)?;
    Ok(all)
}

/// The list with this pattern before it.
pub(crate) fn led(alloc: Global, first: Pattern, patterns: &Patterns) -> Result<Patterns, NoMemory>
    ensures { IfOk result (λ ps. ps ≡ the_pattern first ∷ patterns.now) }
{
    let mut all = Patterns::with_capacity(alloc, patterns.items().len() + 1)?;
    all.push(first)?;
    append(&mut all, patterns)?;
    Ok(all)
}

fn append(all: &mut Patterns, patterns: &Patterns) -> Result<(), NoMemory>
    ensures { IfOk result (λ _. all.new ≡ all.old ++ patterns.now) }
{
    for item in patterns.items() {
        all.push(item.shared()?)?;
    }
    Ok(())
}

// What stands for terms that no problem has.
fn stray(alloc: Global) -> Pattern
    ensures { the_pattern result ≡ p_new 0 no_patterns }
{
    Pattern::New(PosId(0), Patterns::new(alloc))
}

// The pattern of a bound variable.
fn bound(alloc: Global, env: &Patterns, k: u32) -> Result<Pattern, NoMemory>
    ensures { IfOk result (λ p. the_pattern p ≡ slice_index_or env.now k (p_new 0 no_patterns)) }
{
    let items = env.items();
    let place = k as usize;
    if place < items.len() {
        return Ok(items[place].shared()?);
    }
    Ok(stray(alloc))
}

/// The pattern of a term; `env` has the patterns of the bound variables, the innermost first.
#[cycle(pattern_of)]
#[tactic(auto, using(formula_core::specs::TermFalls::falling))]
pub(crate) fn pattern_of(alloc: Global, env: &Patterns, term: &Term) -> Result<Pattern, NoMemory>
    ensures { IfOk result (λ p. the_pattern p ≡ pattern_of env.now (the_term term.now)) }
{
    match term {
        Term::Var(k) => bound(alloc, env, *k),
        Term::Fun(f, args) => Ok(Pattern::Fun(*f, patterns_of(alloc, env, args)?)),
        Term::Eigen(_) | Term::Spare(_) => Ok(stray(alloc)),
    }
}

/// The patterns of terms.
#[cycle(pattern_of)]
#[tactic(auto, using(formula_core::specs::TermFalls::falling))]
pub(crate) fn patterns_of(
    alloc: Global,
    env: &Patterns,
    terms: &Terms,
) -> Result<Patterns, NoMemory>
    ensures { IfOk result (λ ps. ps ≡ patterns_of env.now (terms_tree terms.now)) }
{
    let mut all = Patterns::with_capacity(alloc, terms.items().len())?;
    for term in terms.items() {
        all.push(pattern_of(alloc, env, term)?)?;
    }
    Ok(all)
}
