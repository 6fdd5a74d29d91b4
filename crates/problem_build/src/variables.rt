//! The free variables of formulas.

ghost use Rattle.std.specs.Prelude.{◌≡◌, ◌++◌, ◌∷◌, [], IfOk, OnOk};
ghost use Rattle.problem_build.specs.Adding.{with_new};
ghost use Rattle.problem_build.specs.Expansion.{free_in, free_variables, same_name, unbound, variables_in, variables_in_all};
ghost use Rattle.tptp_reader.specs.Lists.{terms_tree};
ghost use Rattle.tptp_reader.specs.SourceView.{the_source};
ghost use Rattle.tptp_reader.specs.TermView.{the_source_term};

use crate::name_set::{NameSet, is_among, push_names};
use cop_base::{NoMemory, Text};
use std::alloc::Global;
use tptp_reader::{Source, SourceTerm, SourceTerms};

fn add_variable(
    alloc: Global,
    bound: &[Text],
    found: &mut NameSet,
    name: &Text,
) -> Result<(), NoMemory>
    ensures { OnOk result (found.new ≡ with_new same_name found.old (unbound bound.now (name.now ∷ []))) }
{
    if is_among(name, bound) {
        return Ok(());
    }
    found.add(alloc, name)?;
    Ok(())
}

#[cycle(add_of_term)]
fn add_of_term(
    alloc: Global,
    bound: &[Text],
    found: &mut NameSet,
    term: &SourceTerm,
) -> Result<(), NoMemory>
    ensures { OnOk result (found.new
        ≡ with_new same_name found.old (unbound bound.now (variables_in (the_source_term term.now)))) }
{
    match term {
        SourceTerm::Var(x) => add_variable(alloc, bound, found, x),
        SourceTerm::Fun(_, args) => add_of_terms(alloc, bound, found, args),
    }
}

#[cycle(add_of_term)]
#[tactic(auto, using(crate::proofs::FallingLaws::falling))]
fn add_of_terms(
    alloc: Global,
    bound: &[Text],
    found: &mut NameSet,
    terms: &SourceTerms,
) -> Result<(), NoMemory>
    ensures { OnOk result (found.new
        ≡ with_new same_name found.old (unbound bound.now (variables_in_all (terms_tree terms.now)))) }
{
    for term in terms.items() {
        add_of_term(alloc, bound, found, term)?;
    }
    Ok(())
}

fn add_of_equation(
    alloc: Global,
    bound: &[Text],
    found: &mut NameSet,
    left: &SourceTerm,
    right: &SourceTerm,
) -> Result<(), NoMemory>
    ensures { OnOk result (found.new ≡ with_new same_name found.old (unbound bound.now
        (variables_in (the_source_term left.now) ++ variables_in (the_source_term right.now)))) }
{
    add_of_term(alloc, bound, found, left)?;
    add_of_term(alloc, bound, found, right)?;
    Ok(())
}

// Appends the variables that are neither bound nor found yet.
#[tactic(auto, using(crate::proofs::FallingLaws::falling))]
fn add_free(
    alloc: Global,
    bound: &mut Vec<Text>,
    found: &mut NameSet,
    source: &Source,
) -> Result<(), NoMemory>
    ensures bound { OnOk result (bound.new.items ≡ bound.old.items) }
    ensures found { OnOk result (found.new
        ≡ with_new same_name found.old (free_in bound.old.items (the_source source.now))) }
{
    match source {
        Source::Atom(_, args) => add_of_terms(alloc, bound, found, args),
        Source::True | Source::False => Ok(()),
        Source::Equal(s, t) => add_of_equation(alloc, bound, found, s, t),
        Source::Unequal(s, t) => add_of_equation(alloc, bound, found, s, t),
        Source::Not(a) | Source::Nec(a) | Source::Poss(a) => add_free(alloc, bound, found, a.get()),
        Source::Binary(_, a, b) => {
            add_free(alloc, bound, found, a.get())?;
            add_free(alloc, bound, found, b.get())?;
            Ok(())
        }
        Source::All(xs, a) | Source::Ex(xs, a) => {
            let outer = bound.len();
            push_names(alloc, bound, xs.items())?;
            add_free(alloc, bound, found, a.get())?;
            bound.truncate(outer);
            Ok(())
        }
        Source::Chain(_, units) => {
            for unit in units.items() {
                add_free(alloc, bound, found, unit)?;
            }
            Ok(())
        }
    }
}

/// The free variables of the formula, each once, in the order of their first free places.
pub fn free_variables(alloc: Global, source: &Source) -> Result<NameSet, NoMemory>
    ensures { IfOk result (λ xs. xs ≡ free_variables (the_source source.now)) }
{
    let mut bound = Vec::new(alloc);
    let mut found = NameSet::new(alloc);
    add_free(alloc, &mut bound, &mut found, source)?;
    Ok(found)
}
