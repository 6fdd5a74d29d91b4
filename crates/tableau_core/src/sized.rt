//! A problem with the sizes of the parts of its formula.

ghost use Rattle.std.specs.Prelude.{◌≡◌, ◌<◌, ◌^◌, IfOk, IsTrue};
ghost use Rattle.calculus.specs.Positions.{size};
ghost use Rattle.calculus.specs.Problems.{is_problem};
ghost use Rattle.calculus.specs.Skolem.{common_spares};
ghost use Rattle.calculus.specs.declared.sign.Sign.TheVariants as sign;
ghost use Rattle.formula_core.specs.FormulaView.{the_formula};
ghost use Rattle.logic_rules.specs.SettingView.{the_setting};
ghost use Rattle.tableau_core.specs.Sizes.{sizes_of};

use crate::part::Part;
use crate::sizes::sizes_of;
use cop_base::NoMemory;
use formula_core::{Sign, Symbols};
use logic_rules::{Problem, Setting};
use std::alloc::Global;
use std::marker::Model;

/// A problem, and the sizes of the parts of its formula in preorder, made once.
#[derive(Drop)]
pub struct SizedProblem<'a> {
    problem: &'a Problem,
    sizes: Vec<u32>,
}

impl<'a> Model for SizedProblem<'a> {
    ghost use Rattle.std.specs.Prelude.{◌≡◌};
    ghost use Rattle.std.specs.Coded.{codes};
    ghost use Rattle.calculus.specs.Codes.{formula_code};
    ghost use Rattle.calculus.specs.Syntax as tree;
    ghost use Rattle.tableau_core.specs.Sizes.{sizes_of};

    ghost Value = { tree.Problem };

    ghost coded = { Prim.hlevel (codes, formula_code) };

    ghost view = { λ p. p.problem.now };

    ghost invariant = { λ p. p.sizes.items ≡ sizes_of p.problem.now.formula };
}

impl<'a> SizedProblem<'a> {
    /// Makes the sizes, which takes time linear in the formula.
    pub fn new(alloc: Global, problem: &'a Problem) -> Result<SizedProblem<'a>, NoMemory>
        ensures { IfOk result (λ p. p ≡ problem.now) }
    {
        let sizes = sizes_of(alloc, problem.formula())?;
        Ok(SizedProblem { problem, sizes })
    }

    pub fn problem(&self) -> &Problem
        ensures { result.now ≡ self.now }
    {
        self.problem
    }

    pub fn setting(&self) -> Setting
        ensures setting { the_setting result ≡ self.now.setting }
    {
        self.problem.setting()
    }

    pub fn symbols(&self) -> &Symbols
        ensures symbols { result.now ≡ self.now.symbols }
    {
        self.problem.symbols()
    }

    pub fn common_spares(&self) -> bool
        ensures { result ≡ common_spares self.now }
    {
        self.problem.common_spares()
    }

    /// The formula that is to be proved, as F.
    #[tactic(auto, using(crate::proofs::SizeLaws::whole, crate::proofs::FittingLaws::positions))]
    pub fn whole(&self) -> Part<'_>
        ensures sign { result.sign ≡ sign.F }
        ensures formula { the_formula result.formula.now ≡ self.now.formula }
        ensures small { size (the_formula result.formula.now) < 2 ^ 32 }
    {
        Part {
            sign: Sign::F,
            formula: self.problem.formula(),
            sizes: self.sizes.as_slice(),
        }
    }
}
