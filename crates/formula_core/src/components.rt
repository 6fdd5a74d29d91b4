//! Signed formulas and their components, in the uniform notation of Smullyan and Fitting.

ghost use Rattle.std.specs.Prelude.{◌≡◌, IfSome};
ghost use Rattle.calculus.specs.Kinds.{components, shape_of, signed};
ghost use Rattle.calculus.specs.Positions.{size};
ghost use Rattle.formula_core.specs.ComponentsView.{atom_in, size_by, the_components, the_shape};
ghost use Rattle.formula_core.specs.ComponentsView.{the_signed};
ghost use Rattle.formula_core.specs.FormulaView.{the_formula};

use crate::formula::Formula;
use crate::term::Terms;
use calculus::kind::Shape;
use calculus::sign::Sign;
use cop_base::SymbolId;

/// A formula with its sign, by reference.
#[derive(Clone, Copy)]
pub struct Signed<'a> {
    pub sign: Sign,
    pub formula: &'a Formula,
}

/// What a signed formula is made of: the symbol and the arguments of a literal, or the components
/// in order. `One` is an alpha formula of one component: a negation, a box or a diamond. The
/// component of a gamma or a delta formula still has the variable of its quantifier.
#[derive(Clone, Copy)]
pub enum Components<'a> {
    Literal(SymbolId, &'a Terms),
    One(Signed<'a>),
    Alpha(Signed<'a>, Signed<'a>),
    Beta(Signed<'a>, Signed<'a>),
    Gamma(Signed<'a>),
    Delta(Signed<'a>),
}

impl<'a> Signed<'a> {
    fn new(sign: Sign, formula: &'a Formula) -> Signed<'a>
        ensures { the_signed result ≡ signed sign (the_formula formula.now) }
    {
        Signed { sign, formula }
    }
}

impl Components<'_> {
    /// The shape of the whole.
    pub fn shape(&self) -> Shape
        ensures { result ≡ the_shape self.now }
    {
        match self {
            Components::Literal(_, _) => Shape::Literal,
            Components::One(_) | Components::Alpha(_, _) => Shape::Alpha,
            Components::Beta(_, _) => Shape::Beta,
            Components::Gamma(_) => Shape::Gamma,
            Components::Delta(_) => Shape::Delta,
        }
    }
}

impl Formula {
    /// The components of this formula under a sign. The clause `size` gives the measure of a
    /// recursion from a formula to its components.
    pub fn components(&self, sign: Sign) -> Components<'_>
        ensures components { the_components sign result ≡ components sign (the_formula self.now) }
        ensures shape { the_shape result ≡ shape_of sign (the_formula self.now) }
        ensures atom { IfSome (atom_in result) (λ a. the_formula self.now ≡ a) }
        ensures size { size_by result ≡ size (the_formula self.now) }
    {
        match (self, sign) {
            (Formula::Atom(p, args), _) => Components::Literal(*p, args),
            (Formula::Not(a), _) => Components::One(Signed::new(sign.other(), a)),
            (Formula::Nec(a) | Formula::Poss(a), _) => Components::One(Signed::new(sign, a)),
            (Formula::And(a, b), Sign::T) | (Formula::Or(a, b), Sign::F) => {
                Components::Alpha(Signed::new(sign, a), Signed::new(sign, b))
            }
            (Formula::And(a, b), Sign::F) | (Formula::Or(a, b), Sign::T) => {
                Components::Beta(Signed::new(sign, a), Signed::new(sign, b))
            }
            (Formula::Imp(a, b), Sign::T) => {
                Components::Beta(Signed::new(Sign::F, a), Signed::new(Sign::T, b))
            }
            (Formula::Imp(a, b), Sign::F) => {
                Components::Alpha(Signed::new(Sign::T, a), Signed::new(Sign::F, b))
            }
            (Formula::All(a), Sign::T) | (Formula::Ex(a), Sign::F) => {
                Components::Gamma(Signed::new(sign, a))
            }
            (Formula::All(a), Sign::F) | (Formula::Ex(a), Sign::T) => {
                Components::Delta(Signed::new(sign, a))
            }
        }
    }
}
