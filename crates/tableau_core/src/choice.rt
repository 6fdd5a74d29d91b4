//! The choices by which a tableau is built at its leftmost open goal, and their order.

ghost use Rattle.std.specs.Prelude.{◌≡◌, map};
ghost use Rattle.calculus.specs.Choices.{choice_cmp, choices_cmp, selection_cmp, side_cmp};
ghost use Rattle.tableau_core.specs.ChoiceView.{the_choice};

use crate::selection::Selection;
use calculus::sign::Side;
use std::cmp::Ordering;

/// A choice of leanCoP's search. Clauses are named by their selections.
#[derive(Drop)]
pub enum Choice {
    Start(Selection),
    /// By the ancestor goal of this number, the nearest having number 1.
    Reduce(u32),
    /// By the literal at this place of the clause, counted from 0.
    Extend(Selection, u32),
}

// Left before right.
fn compare_side(a: Side, b: Side) -> Ordering
    ensures { result ≡ side_cmp a b }
{
    match (a, b) {
        (Side::Left, Side::Left) | (Side::Right, Side::Right) => Ordering::Equal,
        (Side::Left, Side::Right) => Ordering::Less,
        (Side::Right, Side::Left) => Ordering::Greater,
    }
}

fn compare_sides(s: &[Side], t: &[Side]) -> Ordering
    ensures { result ≡ selection_cmp s.now t.now }
{
    for i in 0..s.len().min(t.len()) {
        let order = compare_side(s[i], t[i]);
        if order != Ordering::Equal {
            return order;
        }
    }
    s.len().cmp(&t.len())
}

// A start before reductions, these before extensions; the nearest ancestor first.
fn compare_choice(a: &Choice, b: &Choice) -> Ordering
    ensures { result ≡ choice_cmp (the_choice a.now) (the_choice b.now) }
{
    match (a, b) {
        (Choice::Start(s), Choice::Start(t)) => compare_sides(s.items(), t.items()),
        (Choice::Reduce(j), Choice::Reduce(k)) => j.cmp(k),
        (Choice::Extend(s, j), Choice::Extend(t, k)) => {
            compare_sides(s.items(), t.items()).then(j.cmp(k))
        }
        (Choice::Start(_), _) | (Choice::Reduce(_), Choice::Extend(_, _)) => Ordering::Less,
        (_, Choice::Start(_)) | (Choice::Extend(_, _), Choice::Reduce(_)) => Ordering::Greater,
    }
}

/// The order of choice lists: lexicographic, a proper prefix first. A search that backtracks visits
/// the lists in this order.
pub fn compare(a: &[Choice], b: &[Choice]) -> Ordering
    ensures { result ≡ choices_cmp (map the_choice a.now) (map the_choice b.now) }
{
    for i in 0..a.len().min(b.len()) {
        let order = compare_choice(&a[i], &b[i]);
        if order != Ordering::Equal {
            return order;
        }
    }
    a.len().cmp(&b.len())
}
