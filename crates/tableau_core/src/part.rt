//! Parts of the problem's formula with their sizes.

ghost use Rattle.std.specs.Prelude.{◌≡◌};
ghost use Rattle.calculus.specs.Positions.{size};
ghost use Rattle.formula_core.specs.FormulaView.{the_formula};
ghost use Rattle.tableau_core.specs.Sizes.{BeginsWithSizes};

use formula_core::{Formula, Sign};

/// A signed part of the problem's formula; `sizes` begin with its size and those of its own parts
/// in preorder.
#[derive(Clone, Copy)]
pub struct Part<'a> {
    pub sign: Sign,
    pub formula: &'a Formula,
    pub sizes: &'a [u32],
    pub ghost sized: { BeginsWithSizes sizes.now (the_formula formula.now) },
}

impl Part<'_> {
    /// The number of positions, without counting them.
    #[tactic(auto, using(crate::proofs::SizeLaws::sized))]
    pub fn size(&self) -> u32
        ensures { result ≡ size (the_formula self.now.formula.now) }
    {
        self.sizes[0]
    }
}
