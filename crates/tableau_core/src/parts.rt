//! The components of a part of the problem's formula.

ghost use Rattle.std.specs.Prelude.{◌≡◌, drop, suc};
ghost use Rattle.calculus.specs.Kinds.{components, shape_of};
ghost use Rattle.calculus.specs.Positions.{size};
ghost use Rattle.formula_core.specs.FormulaView.{the_formula};
ghost use Rattle.tableau_core.specs.PartView.{size_by, the_parts, the_shape};
ghost use Rattle.tableau_core.specs.Sizes.{BeginsWithSizes};

use crate::part::Part;
use cop_base::SymbolId;
use formula_core::{Components, Signed, Terms};

/// What a part is made of, as in `Components` of `formula_core`.
#[derive(Clone, Copy)]
pub enum Parts<'a> {
    Literal(SymbolId, &'a Terms),
    One(Part<'a>),
    Alpha(Part<'a>, Part<'a>),
    Beta(Part<'a>, Part<'a>),
    Gamma(Part<'a>),
    Delta(Part<'a>),
}

// The first component, or the only one.
#[tactic(auto, using(crate::proofs::SizeLaws::sized))]
fn first<'a>(sizes: &'a [u32], a: Signed<'a>) -> Part<'a>
    requires { BeginsWithSizes (drop 1 sizes.now) (the_formula a.formula.now) }
    ensures sign { result.sign ≡ a.entry.sign }
    ensures formula { the_formula result.formula.now ≡ the_formula a.entry.formula.now }
{
    Part {
        sign: a.sign,
        formula: a.formula,
        sizes: &sizes[1..],
    }
}

// The component behind the first one.
#[tactic(auto, using(crate::proofs::SizeLaws::sized))]
fn second<'a>(sizes: &'a [u32], a: Signed<'a>, b: Signed<'a>) -> Part<'a>
    requires first { BeginsWithSizes (drop 1 sizes.now) (the_formula a.formula.now) }
    requires second { BeginsWithSizes (drop (suc (size (the_formula a.formula.now))) sizes.now)
        (the_formula b.formula.now) }
    ensures sign { result.sign ≡ b.entry.sign }
    ensures formula { the_formula result.formula.now ≡ the_formula b.entry.formula.now }
{
    let place = 1 + sizes[1] as usize;
    Part {
        sign: b.sign,
        formula: b.formula,
        sizes: &sizes[place..],
    }
}

/// The components of a part.
pub fn components_of(a: Part) -> Parts
    ensures components { the_parts a.entry.sign result
        ≡ components a.entry.sign (the_formula a.entry.formula.now) }
    ensures shape { the_shape result ≡ shape_of a.entry.sign (the_formula a.entry.formula.now) }
    ensures size { size_by result ≡ size (the_formula a.entry.formula.now) }
{
    match a.formula.components(a.sign) {
        Components::Literal(p, args) => Parts::Literal(p, args),
        Components::One(b) => Parts::One(first(a.sizes, b)),
        Components::Alpha(b, c) => Parts::Alpha(first(a.sizes, b), second(a.sizes, b, c)),
        Components::Beta(b, c) => Parts::Beta(first(a.sizes, b), second(a.sizes, b, c)),
        Components::Gamma(b) => Parts::Gamma(first(a.sizes, b)),
        Components::Delta(b) => Parts::Delta(first(a.sizes, b)),
    }
}
