//! Labelled signed formulas that own nothing.

use formula_core::{Formula, Sign};

/// A signed formula at a label, over tables of substitutions and labels: a part of the problem's
/// formula under the substitution at a place. `node` is its place in the outline of the formula.
#[derive(Clone, Copy)]
pub struct SharedEntry<'a> {
    pub sign: Sign,
    pub node: u32,
    pub formula: &'a Formula,
    pub substitution: u32,
    pub label: u32,
}
