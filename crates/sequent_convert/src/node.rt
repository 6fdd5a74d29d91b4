//! Nodes of a branch.

ghost use Rattle.std.specs.Prelude.{◌≤◌, ◌+◌};
ghost use Rattle.calculus.specs.Positions.{size};
ghost use Rattle.formula_core.specs.FormulaView.{the_formula};

use crate::spot::Spot;
use tableau_core::Part;

/// A signed formula of the problem at a spot, or an atom that is past its modal part. Its positions have numbers of 32 bits.
#[derive(Drop)]
pub struct Node<'a> {
    pub spot: Spot,
    pub part: Part<'a>,
    pub past: bool,
    pub ghost within: { spot.position + size (the_formula part.formula.now) ≤ 4294967295 },
}
