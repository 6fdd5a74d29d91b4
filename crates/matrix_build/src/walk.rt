//! The walk over the formula that builds the clause of a selection.

ghost use Rattle.std.specs.Prelude.{◌≡◌, ◌<◌, ◌≤◌, ◌+◌, IfOk, length, suc};
ghost use Rattle.calculus.specs.Kinds.{components, shape_of};
ghost use Rattle.calculus.specs.Positions.{size};
ghost use Rattle.calculus.specs.declared.kind.Shape.TheVariants.{Alpha, Beta, Delta, Gamma};
ghost use Rattle.search_theory.specs.TemplateOf.{pattern_part, pattern_quantifier, pattern_two};
ghost use Rattle.formula_core.specs.ComponentsView.{the_signed};
ghost use Rattle.formula_core.specs.FormulaView.{the_formula};
ghost use Rattle.matrix_build.specs.PartView.{the_part};
ghost use Rattle.matrix_build.specs.Parts.{Adds, IsFewAt, IsFewBefore, body_by, signed_part};
ghost use Rattle.matrix_build.specs.SizedParts.{HasTwo};
ghost use Rattle.matrix_build.specs.Sizes.{HasSizes};
ghost use Rattle.matrix_build.specs.WayView.{spot_at};

use crate::part::Part;
use crate::way::Way;
use calculus::sign::Side;
use cop_base::NoMemory;
use formula_core::{Components, Formula, Sign, Signed};
use logic_rules::{Logic, ModalPart, kind_of};
use std::alloc::Global;
use term_store::Sort;

/// What stays the same on a walk: the logic, and the size of the part at each position.
#[derive(Drop)]
pub(crate) struct Plan {
    pub alloc: Global,
    pub logic: Logic,
    pub sizes: Vec<usize>,
    ghost few: { length sizes.items ≤ 4000000 },
}

impl Plan {
    /// Adds what the signed formula at this position gives by the sides of the part. Where these
    /// are no sides of its clauses nothing is said. Each position adds at most two that have numbers.
    #[cycle(add_part)]
    pub fn add_part(
        &self,
        f: &Formula,
        sign: Sign,
        position: usize,
        way: &Way,
        part: &mut Part,
    ) -> Result<(), NoMemory>
        requires few { IsFewBefore position (the_part part.old) }
        requires sizes { HasSizes self.now.sizes.items position (the_formula f.now) }
        ensures adds { IfOk result (λ _. Adds (pattern_part self.now.logic (the_formula f.now) sign)
            (spot_at position way.now) (the_part part.old) (the_part part.new)) }
        ensures few { IfOk result (λ _. IsFewBefore (position + size (the_formula f.now)) (the_part part.new)) }
    {
        match kind_of(self.logic, sign, f).modal {
            ModalPart::Plain => self.add_body(f, sign, position, way, part),
            ModalPart::Nu => {
                let n = part.add_variable(Sort::StringSort)?;
                let after = way.after_nu(self.alloc, self.logic, n)?;
                self.add_body(f, sign, position, &after, part)
            }
            ModalPart::Pi => {
                part.add_pi();
                let at = self.number_of(position);
                let after = way.after_pi(self.alloc, self.logic, at)?;
                self.add_body(f, sign, position, &after, part)
            }
        }
    }

    // The position as names have it.
    fn number_of(&self, position: usize) -> u32
        requires { position < length self.now.sizes.items }
        ensures { result ≡ position }
    {
        position as u32
    }

    // The same without the modal part.
    #[cycle(add_part)]
    fn add_body(
        &self,
        f: &Formula,
        sign: Sign,
        position: usize,
        way: &Way,
        part: &mut Part,
    ) -> Result<(), NoMemory>
        requires few { IsFewAt position (the_part part.old) }
        requires sizes { HasSizes self.now.sizes.items position (the_formula f.now) }
        ensures adds { IfOk result (λ _. Adds (body_by self.now.logic (shape_of sign (the_formula f.now))
            (components sign (the_formula f.now)))
            (spot_at position way.now) (the_part part.old) (the_part part.new)) }
        ensures few { IfOk result (λ _. IsFewBefore (position + size (the_formula f.now)) (the_part part.new)) }
    {
        match f.components(sign) {
            Components::Literal(p, args) => part.add_literal(self.alloc, sign, p, args, way),
            Components::One(a) => self.add_part(a.formula, a.sign, position + 1, way, part),
            Components::Alpha(a, b) => self.add_alpha(a, b, position, way, part),
            Components::Beta(a, b) => self.add_beta(a, b, position, way, part),
            Components::Gamma(a) => self.add_gamma(a, position, way, part),
            Components::Delta(a) => self.add_delta(a, position, way, part),
        }
    }

    // The component that the next side picks.
    #[cycle(add_part)]
    fn add_alpha(
        &self,
        a: Signed,
        b: Signed,
        position: usize,
        way: &Way,
        part: &mut Part,
    ) -> Result<(), NoMemory>
        requires few { IsFewAt position (the_part part.old) }
        requires sizes { HasTwo self.now.sizes.items position (the_signed a) (the_signed b) }
        ensures adds { IfOk result (λ _. Adds (pattern_two Alpha (size (the_formula a.entry.formula.now))
            (signed_part self.now.logic (the_signed a.entry))
            (signed_part self.now.logic (the_signed b.entry)))
            (spot_at position way.now) (the_part part.old) (the_part part.new)) }
        ensures few { IfOk result (λ _. IsFewBefore (position + suc (size (the_formula a.entry.formula.now) + size (the_formula b.entry.formula.now))) (the_part part.new)) }
    {
        match part.next_side() {
            None => Ok(()),
            Some(Side::Left) => self.add_part(a.formula, a.sign, position + 1, way, part),
            Some(Side::Right) => {
                let second = self.second(position, a, b);
                self.add_part(b.formula, b.sign, second, way, part)
            }
        }
    }

    // Both components.
    #[cycle(add_part)]
    fn add_beta(
        &self,
        a: Signed,
        b: Signed,
        position: usize,
        way: &Way,
        part: &mut Part,
    ) -> Result<(), NoMemory>
        requires few { IsFewAt position (the_part part.old) }
        requires sizes { HasTwo self.now.sizes.items position (the_signed a) (the_signed b) }
        ensures adds { IfOk result (λ _. Adds (pattern_two Beta (size (the_formula a.entry.formula.now))
            (signed_part self.now.logic (the_signed a.entry))
            (signed_part self.now.logic (the_signed b.entry)))
            (spot_at position way.now) (the_part part.old) (the_part part.new)) }
        ensures few { IfOk result (λ _. IsFewBefore (position + suc (size (the_formula a.entry.formula.now) + size (the_formula b.entry.formula.now))) (the_part part.new)) }
    {
        self.add_part(a.formula, a.sign, position + 1, way, part)?;
        let second = self.second(position, a, b);
        self.add_part(b.formula, b.sign, second, way, part)?;
        Ok(())
    }

    // The position of the second component.
    fn second(&self, position: usize, a: Signed, b: Signed) -> usize
        requires { HasTwo self.now.sizes.items position (the_signed a) (the_signed b) }
        ensures { result ≡ position + suc (size (the_formula a.entry.formula.now)) }
    {
        let first = position + 1;
        first + self.sizes[first]
    }

    // The component with a new variable.
    #[cycle(add_part)]
    fn add_gamma(
        &self,
        a: Signed,
        position: usize,
        way: &Way,
        part: &mut Part,
    ) -> Result<(), NoMemory>
        requires few { IsFewAt position (the_part part.old) }
        requires sizes { HasSizes self.now.sizes.items (position + 1) (the_formula a.formula.now) }
        ensures adds { IfOk result (λ _. Adds
            (pattern_quantifier Gamma (signed_part self.now.logic (the_signed a.entry)))
            (spot_at position way.now) (the_part part.old) (the_part part.new)) }
        ensures few { IfOk result (λ _. IsFewBefore (position + suc (size (the_formula a.entry.formula.now))) (the_part part.new)) }
    {
        let n = part.add_variable(Sort::TermSort)?;
        part.add_gamma(n, way)?;
        let inside = way.inside_gamma(self.alloc, n)?;
        self.add_part(a.formula, a.sign, position + 1, &inside, part)?;
        Ok(())
    }

    // The component with the eigenvariable of this position.
    #[cycle(add_part)]
    fn add_delta(
        &self,
        a: Signed,
        position: usize,
        way: &Way,
        part: &mut Part,
    ) -> Result<(), NoMemory>
        requires few { IsFewAt position (the_part part.old) }
        requires sizes { HasSizes self.now.sizes.items (position + 1) (the_formula a.formula.now) }
        ensures adds { IfOk result (λ _. Adds
            (pattern_quantifier Delta (signed_part self.now.logic (the_signed a.entry)))
            (spot_at position way.now) (the_part part.old) (the_part part.new)) }
        ensures few { IfOk result (λ _. IsFewBefore (position + suc (size (the_formula a.entry.formula.now))) (the_part part.new)) }
    {
        let at = self.number_of(position);
        let inside = way.inside_delta(self.alloc, at)?;
        self.add_part(a.formula, a.sign, position + 1, &inside, part)?;
        Ok(())
    }
}
