//! Whether numbers come in the order of their first occurrence.

ghost use Rattle.std.specs.Prelude.{◌≡◌, ◌++◌, ℕ, List, map, IsTrue, Some};
ghost use Rattle.std.specs.List.{flat_map};
ghost use Rattle.calculus.specs.Versions.{numbering, stated};
ghost use Rattle.derivation_text.specs.InOrder.{eigen_numbers, greatest_from, greatest_in_order, home_numbers, label_numbers, spare_numbers};
ghost use Rattle.derivation_text.specs.InOrder.{step_label_numbers, step_term_numbers, term_numbers};
ghost use Rattle.derivation_text.specs.NumbersView.{the_numbered_eigen, the_numbered_spare, the_numbered_step};

use crate::numbers::{NumberedModal, NumberedStep, NumberedTerm};
use crate::text_derivation::TextDerivation;

// The greatest number that came, with one number more, if there is one, that is one of these or the next.
fn after(seen: u32, number: Option<u32>) -> Option<u32>
    ensures { (rest : List ℕ) → greatest_in_order seen (home_numbers number ++ rest) ≡ greatest_from result rest }
{
    let Some(number) = number else {
        return Some(seen);
    };
    if number <= seen {
        return Some(seen);
    }
    if number - seen == 1 {
        Some(number)
    } else {
        None
    }
}

fn seen_in_eigens(eigens: &[(u32, u32)]) -> Option<u32>
    ensures { result ≡ greatest_in_order 0 (eigen_numbers (map the_numbered_eigen eigens.now)) }
{
    let mut seen = 0;
    for name in eigens {
        seen = after(seen, Some(name.1))?;
    }
    Some(seen)
}

fn seen_in_spares(before: u32, spares: &[(u32, Option<u32>)]) -> Option<u32>
    ensures { result ≡ greatest_in_order before (spare_numbers (map the_numbered_spare spares.now)) }
{
    let mut seen = before;
    for name in spares {
        seen = after(seen, name.1)?;
    }
    Some(seen)
}

fn label_of_step(step: NumberedStep) -> Option<u32>
    ensures { home_numbers result ≡ step_label_numbers (the_numbered_step step) }
{
    match step {
        NumberedStep::Use {
            entry: _,
            modal: NumberedModal::To(number),
            term: _,
        } => Some(number),
        NumberedStep::Use {
            entry: _,
            modal: NumberedModal::None | NumberedModal::New(_),
            term: _,
        } => None,
        NumberedStep::Axiom { given: _, shown: _ } => None,
    }
}

fn term_of_step(step: NumberedStep) -> Option<u32>
    ensures { home_numbers result ≡ step_term_numbers (the_numbered_step step) }
{
    match step {
        NumberedStep::Use {
            entry: _,
            modal: _,
            term: NumberedTerm::Term(number),
        } => Some(number),
        NumberedStep::Use {
            entry: _,
            modal: _,
            term: NumberedTerm::None | NumberedTerm::Name(_),
        } => None,
        NumberedStep::Axiom { given: _, shown: _ } => None,
    }
}

fn seen_in_modals(before: u32, steps: &[NumberedStep]) -> Option<u32>
    ensures { result ≡ greatest_in_order before (flat_map step_label_numbers (map the_numbered_step steps.now)) }
{
    let mut seen = before;
    for step in steps {
        seen = after(seen, label_of_step(*step))?;
    }
    Some(seen)
}

fn seen_in_terms(steps: &[NumberedStep]) -> Option<u32>
    ensures { result ≡ greatest_in_order 0 (flat_map step_term_numbers (map the_numbered_step steps.now)) }
{
    let mut seen = 0;
    for step in steps {
        seen = after(seen, term_of_step(*step))?;
    }
    Some(seen)
}

fn seen_in_names(d: &TextDerivation) -> Option<u32>
    ensures { result ≡ greatest_in_order 0 (eigen_numbers d.now.eigens ++ spare_numbers d.now.spares) }
{
    match seen_in_eigens(d.eigens()) {
        Some(seen) => seen_in_spares(seen, d.spares()),
        None => None,
    }
}

fn seen_labels(d: &TextDerivation) -> Option<u32>
    ensures { result ≡ greatest_in_order 0 (label_numbers d.now) }
{
    match seen_in_names(d) {
        Some(seen) => seen_in_modals(seen, d.steps()),
        None => None,
    }
}

fn seen_terms(d: &TextDerivation) -> Option<u32>
    ensures { result ≡ greatest_in_order 0 (term_numbers d.now) }
{
    seen_in_terms(d.steps())
}

// Whether the greatest number that came in order is that of the last one of so many.
fn are_all(last: Option<u32>, count: u32) -> bool
    ensures { IsTrue result → last ≡ Some count }
{
    match last {
        Some(number) => number == count,
        None => false,
    }
}

/// Whether labels and terms are numbered in the order of their first occurrence, each is listed once, and none but those that occur.
pub fn is_in_order(d: &TextDerivation) -> bool
    ensures { IsTrue result → d.now ≡ numbering (stated d.now) }
{
    let labels = d.labels();
    let terms = d.terms();
    if !labels.are_apart() {
        return false;
    }
    if !terms.are_apart() {
        return false;
    }
    if !are_all(seen_labels(d), labels.count()) {
        return false;
    }
    are_all(seen_terms(d), terms.count())
}
