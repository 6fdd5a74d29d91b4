//! A clause as far as it is built.

ghost use Rattle.std.specs.Prelude.{◌≡◌, ◌<◌, ◌≤◌, ◌∷◌, ◌++◌, ◌+◌, [], OnOk, IfOk, MatchOption, length};
ghost use Rattle.calculus.specs.Lists.{terms_tree};
ghost use Rattle.store_theory.specs.Patterns.{p_var};
ghost use Rattle.search_theory.specs.TemplateOf.{patterns_of};
ghost use Rattle.matrix_build.specs.PartView.{the_part};
ghost use Rattle.matrix_build.specs.Parts.{numbered, with_gamma, with_literal, with_pi, with_side, with_sort};

use crate::pattern::patterns_of;
use crate::way::Way;
use calculus::sign::Side;
use cop_base::{NoMemory, SymbolId};
use formula_core::{Sign, Terms};
use std::alloc::Global;
use term_store::{
    Pattern, PatternAtom, PatternAtomList, PatternGamma, PatternGammaList, Sort, SortList,
};

/// The literals, the gamma terms, the number of pi steps and the sorts of the variables so far,
/// and the sides that are still to be used.
#[derive(Drop)]
pub(crate) struct Part<'a> {
    pub literals: PatternAtomList,
    pub gammas: PatternGammaList,
    pub pis: u32,
    pub sorts: SortList,
    pub sides: &'a [Side],
}

// The first side and those after it.
fn first_side(sides: &[Side]) -> Option<(Side, &[Side])>
    ensures { MatchOption result (sides.now ≡ []) (λ next. sides.now ≡ next.0 ∷ next.1.now) }
{
    match sides.split_first() {
        None => None,
        Some((side, rest)) => Some((*side, rest)),
    }
}

impl Part<'_> {
    /// A variable of this sort, and its number.
    pub fn add_variable(&mut self, sort: Sort) -> Result<u32, NoMemory>
        requires { numbered (the_part self.old) ≤ 4294967295 }
        ensures number { IfOk result (λ n. n ≡ length (the_part self.old).sorts) }
        ensures part { OnOk result (the_part self.new ≡ with_sort sort (the_part self.old)) }
        ensures count { OnOk result (numbered (the_part self.new) ≡ numbered (the_part self.old) + 1) }
    {
        let n = self.sorts.items().len() as u32;
        self.sorts.push(sort)?;
        Ok(n)
    }

    /// One pi step more.
    pub fn add_pi(&mut self)
        requires { numbered (the_part self.old) < 4294967295 }
        ensures part { the_part self.new ≡ with_pi (the_part self.old) }
        ensures count { numbered (the_part self.new) ≡ numbered (the_part self.old) + 1 }
    {
        self.pis += 1;
    }

    /// The variable `n` as a gamma term at the label that is reached.
    pub fn add_gamma(&mut self, n: u32, way: &Way) -> Result<(), NoMemory>
        ensures part { OnOk result (the_part self.new
            ≡ with_gamma (record { term = p_var n; label = way.now.label }) (the_part self.old)) }
        ensures count { OnOk result (numbered (the_part self.new) ≡ numbered (the_part self.old)) }
    {
        let label = way.label.shared()?;
        let term = Pattern::Var(n);
        self.gammas.push(PatternGamma { term, label })?;
        Ok(())
    }

    /// A literal at the label that is reached.
    pub fn add_literal(
        &mut self,
        alloc: Global,
        sign: Sign,
        symbol: SymbolId,
        args: &Terms,
        way: &Way,
    ) -> Result<(), NoMemory>
        ensures part { OnOk result (the_part self.new ≡ with_literal (record {
          sign = sign;
          symbol = symbol.0;
          args = patterns_of way.now.env (terms_tree args.now);
          label = way.now.label;
        }) (the_part self.old)) }
        ensures count { OnOk result (numbered (the_part self.new) ≡ numbered (the_part self.old) + 1) }
    {
        let args = patterns_of(alloc, &way.env, args)?;
        let label = way.label.shared()?;
        self.literals.push(PatternAtom {
            sign,
            symbol,
            args,
            label,
        })?;
        Ok(())
    }

    /// Gives back the room that no literal and no gamma term has.
    pub fn shrink_to_fit(&mut self)
        ensures { the_part self.new ≡ the_part self.old }
    {
        self.literals.shrink_to_fit();
        self.gammas.shrink_to_fit();
    }

    /// Uses the next side.
    pub fn next_side(&mut self) -> Option<Side>
        ensures side { MatchOption result ((the_part self.old).sides ≡ [])
            (λ side. the_part self.old ≡ with_side side (the_part self.new)) }
        ensures count { numbered (the_part self.new) ≡ numbered (the_part self.old) }
    {
        match first_side(self.sides) {
            None => None,
            Some((side, rest)) => {
                self.sides = rest;
                Some(side)
            }
        }
    }
}
