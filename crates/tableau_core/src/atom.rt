//! Comparing ground literals.

ghost use Rattle.std.specs.Prelude.{◌≡◌, map, slice_get};
ghost use Rattle.calculus.specs.Equality.{grounds_eq, label_eq, literal_eq, same_atom, sign_eq};
ghost use Rattle.calculus.specs.Lists.{g_terms_tree};
ghost use Rattle.formula_core.specs.GroundLists.{the_marks, the_terms};
ghost use Rattle.calculus.specs.Tableaux.{ancestor, are_complementary, is_complement, is_new_on};
ghost use Rattle.tableau_core.specs.Numbered.LiteralView.{the_literal};

use crate::literal::GroundLiteral;
use formula_core::{GroundLabel, GroundTable, GroundTerms, Sign};

/// Whether both signs are the same.
pub fn is_same_sign(a: Sign, b: Sign) -> bool
    ensures { result ≡ sign_eq a b }
{
    match (a, b) {
        (Sign::F, Sign::F) | (Sign::T, Sign::T) => true,
        (Sign::F, Sign::T) | (Sign::T, Sign::F) => false,
    }
}

#[tactic(auto, using(crate::proofs::Numbered::LabelLaws::told))]
fn are_same_terms(table: &GroundTable, a: GroundTerms, b: GroundTerms) -> bool
    ensures { result ≡ grounds_eq (g_terms_tree (the_terms table.now a)) (g_terms_tree (the_terms table.now b)) }
{
    table.are_same_terms(a, b)
}

#[tactic(auto, using(crate::proofs::Numbered::LabelLaws::told))]
fn is_same_label(table: &GroundTable, a: GroundLabel, b: GroundLabel) -> bool
    ensures { result ≡ label_eq (the_marks table.now a) (the_marks table.now b) }
{
    table.are_same_marks(a, b)
}

// The same atom at the same label.
fn is_same_atom(table: &GroundTable, a: GroundLiteral, b: GroundLiteral) -> bool
    ensures { result ≡ same_atom (the_literal table.now a) (the_literal table.now b) }
{
    a.symbol.0 == b.symbol.0
        && are_same_terms(table, a.args, b.args)
        && is_same_label(table, a.label, b.label)
}

fn is_same(table: &GroundTable, a: GroundLiteral, b: GroundLiteral) -> bool
    ensures { result ≡ literal_eq (the_literal table.now a) (the_literal table.now b) }
{
    is_same_sign(a.sign, b.sign) && is_same_atom(table, a, b)
}

/// Whether both have the same atom at the same label, with opposite signs.
pub fn are_complementary(table: &GroundTable, a: GroundLiteral, b: GroundLiteral) -> bool
    ensures { result ≡ are_complementary (the_literal table.now a) (the_literal table.now b) }
{
    !is_same_sign(a.sign, b.sign) && is_same_atom(table, a, b)
}

/// Whether the goal does not stand on the path: its atom, its label and its sign together.
pub fn is_new_on(table: &GroundTable, path: &[GroundLiteral], goal: GroundLiteral) -> bool
    ensures { result ≡ is_new_on (map (the_literal table.now) path.now) (the_literal table.now goal) }
{
    for other in path {
        if is_same(table, goal, *other) {
            return false;
        }
    }
    true
}

/// Whether the ancestor of this number, the nearest having number 1, is the goal's complement.
pub fn is_reduced(table: &GroundTable, path: &[GroundLiteral], goal: GroundLiteral, up: u32) -> bool
    ensures { result ≡ is_complement (the_literal table.now goal) (ancestor (map (the_literal table.now) path.now) up) }
{
    if up == 0 {
        return false;
    }
    let place = up as usize - 1;
    if place >= path.len() {
        return false;
    }
    let other = &path[place];
    are_complementary(table, goal, *other)
}

/// Whether the literal at a place is the goal's complement.
pub fn is_connected(
    table: &GroundTable,
    literals: &[GroundLiteral],
    goal: GroundLiteral,
    place: u32,
) -> bool
    ensures { result ≡ is_complement (the_literal table.now goal) (slice_get (map (the_literal table.now) literals.now) place) }
{
    if place as usize >= literals.len() {
        return false;
    }
    let other = &literals[place as usize];
    are_complementary(table, goal, *other)
}
