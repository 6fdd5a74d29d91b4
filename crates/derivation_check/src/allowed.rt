//! Where a name may stand, by the places of homes.

ghost use Rattle.std.specs.Prelude.{◌≡◌, ◌<◌, [], List, get_or, length, not};
ghost use Rattle.std.specs.List.{AllByRecursion, list_any};
ghost use Rattle.calculus.specs.Calculus.{home_is, is_known, term_allowed};
ghost use Rattle.calculus.specs.Derivations as derivation;
ghost use Rattle.calculus.specs.Derivations.{character_eq};
ghost use Rattle.calculus.specs.Labels.{home_allows};
ghost use Rattle.derivation_check.specs.HomesView.{AreHomes, is_known_at};
ghost use Rattle.derivation_check.specs.NamesTold.{IsNamed, any_told, forbids};
ghost use Rattle.derivation_check.specs.declared.homes.Homes.{Homes};
ghost use Rattle.derivation_check.specs.ArgumentView.{the_argument};

use crate::argument::Argument;
use crate::homes::Homes;
use crate::term_names::TermNames;
use label_table::{Labels, is_home_at};
use logic_rules::{Domains, Problem};

/// Whether the home of the eigenvariable is the label of the component.
pub fn home_is(labels: &Labels, homes: &Homes, at: u32, term: Argument<'_>) -> bool
    requires at { at < length labels.now }
    requires homes { (names : derivation.Names) × AreHomes names labels.now homes.now }
    ensures { (names : derivation.Names) → AreHomes names labels.now homes.now
        → result ≡ home_is names (get_or labels.now at []) (the_argument term.entry) }
{
    match term {
        Argument::Name(number) => match homes.eigen(number) {
            Some(home) => labels.are_equal(home, at),
            None => false,
        },
        Argument::None | Argument::Term(_, _, _) => true,
    }
}

// Whether the label at a place is not in the domain of one of the places of homes.
fn is_out_of_any(labels: &Labels, domains: Domains, homes: &[u32], at: u32) -> bool
    requires at { at < length labels.now }
    requires homes { AllByRecursion (λ k. k < length labels.now) homes.now }
    ensures { result ≡ list_any (λ k. not (home_allows character_eq domains (get_or labels.now k []) (get_or labels.now at []))) homes.now }
{
    for home in homes {
        if !is_home_at(labels, domains, *home, at) {
            return true;
        }
    }
    false
}

// Whether a leaf of the term must not stand there.
fn is_forbidden_in(problem: &Problem, labels: &Labels, names: &TermNames, at: u32) -> bool
    requires at { at < length labels.now }
    requires homes { AllByRecursion (λ k. k < length labels.now) names.now.places.items }
    ensures { result ≡ any_told (forbids problem.now labels.now (get_or labels.now at [])) names.now }
{
    if names.has_variable {
        return true;
    }
    if names.has_unknown {
        return true;
    }
    if names.has_anywhere && !problem.common_spares() {
        return true;
    }
    is_out_of_any(
        labels,
        problem.setting().domains(),
        names.places.as_slice(),
        at,
    )
}

fn is_allowed(problem: &Problem, labels: &Labels, names: &TermNames, at: u32) -> bool
    requires at { at < length labels.now }
    requires homes { AllByRecursion (λ k. k < length labels.now) names.now.places.items }
    ensures { result
        ≡ not (any_told (forbids problem.now labels.now (get_or labels.now at [])) names.now) }
{
    !is_forbidden_in(problem, labels, names, at)
}

/// Whether the term of a gamma step may stand at the label of the component.
pub fn term_allowed(
    problem: &Problem,
    labels: &Labels,
    named: &[TermNames],
    at: u32,
    term: Argument<'_>,
) -> bool
    requires at { at < length labels.now }
    requires named { (names : derivation.Names) × (homes : Homes)
        × AreHomes names labels.now homes × IsNamed homes named.now term }
    ensures { (names : derivation.Names) → (homes : Homes) → AreHomes names labels.now homes
        → IsNamed homes named.now term.entry → result
        ≡ term_allowed problem.now names (get_or labels.now at []) (the_argument term.entry) }
{
    match term {
        Argument::Term(_, place, _) => is_allowed(problem, labels, &named[place], at),
        Argument::None | Argument::Name(_) => true,
    }
}

fn is_known_at(homes: &Homes, named: &[TermNames], term: Argument<'_>) -> bool
    requires { IsNamed homes.now named.now term }
    ensures { result ≡ is_known_at homes.now (the_argument term.entry) }
{
    match term {
        Argument::None => true,
        Argument::Term(_, place, _) => !named[place].has_unknown,
        Argument::Name(number) => homes.eigen(number).is_some(),
    }
}

/// Whether each name of the argument is listed.
pub fn is_known(homes: &Homes, named: &[TermNames], term: Argument<'_>) -> bool
    requires { IsNamed homes.now named.now term }
    ensures { (names : derivation.Names) → (table : List derivation.Label)
        → AreHomes names table homes.now → result ≡ is_known names (the_argument term.entry) }
{
    is_known_at(homes, named, term)
}
