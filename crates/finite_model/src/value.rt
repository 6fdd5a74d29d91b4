//! The elements that terms name, and the truth of atoms.

ghost use Rattle.std.specs.Prelude.{◌≡◌, ◌+◌, ◌*◌, ℕ, min, reverse, slice_index};
ghost use Rattle.std.specs.List.{list_all};
ghost use Rattle.calculus.specs.Lists.{terms_tree};
ghost use Rattle.calculus.specs.Structures.{place_of, predicate_value, term_value, term_values};
ghost use Rattle.formula_core.specs.TermView.{the_term};

use crate::structure::Structure;
use cop_base::SymbolId;
use formula_core::{Term, Terms};

// The element of the variable with so many quantifiers between.
fn element_of(env: &[u8], between: u32) -> u8
    ensures { result ≡ slice_index (reverse env.now) between }
{
    let back = between as usize;
    if back < env.len() {
        env[env.len() - 1 - back]
    } else {
        0
    }
}

/// The place of the tuple with one element more. A place past all numbers is past each table.
pub fn place_with(place: usize, elements: u8, element: u8) -> usize
    ensures { (p : ℕ) → place ≡ min p usize.MAX → result ≡ min (p * elements + element) usize.MAX }
{
    place
        .saturating_mul(elements as usize)
        .saturating_add(element as usize)
}

// The element of a term. Those of the variables stand in order, the innermost quantifier's last.
#[cycle(element_at)]
fn element_at(structure: &Structure, env: &[u8], term: &Term) -> u8
    ensures { result ≡ term_value structure.now (reverse env.now) (the_term term.now) }
{
    match term {
        Term::Var(between) => element_of(env, *between),
        Term::Fun(function, args) => structure.value_at(*function, place_at(structure, env, args)),
        Term::Eigen(_) | Term::Spare(_) => 0,
    }
}

// The place of the tuple of these terms.
#[cycle(element_at)]
#[tactic(auto, using(formula_core::specs::TermFalls::falling))]
fn place_at(structure: &Structure, env: &[u8], args: &Terms) -> usize
    ensures { result ≡ min (place_of structure.now
        (term_values structure.now (reverse env.now) (terms_tree args.now))) usize.MAX }
{
    let mut place = 0;
    for arg in args.items() {
        let element = element_at(structure, env, arg);
        place = place_with(place, structure.elements(), element);
    }
    place
}

/// Whether an atom is true at all these worlds.
pub fn is_atom_true(
    structure: &Structure,
    env: &[u8],
    predicate: SymbolId,
    args: &Terms,
    worlds: &[u8],
) -> bool
    ensures { result ≡ list_all (λ v. predicate_value structure.now predicate.0 v
        (term_values structure.now (reverse env.now) (terms_tree args.now))) worlds.now }
{
    let place = place_at(structure, env, args);
    for world in worlds {
        if !structure.is_true_at(predicate, *world, place) {
            return false;
        }
    }
    true
}
