//! The matrix of a problem.

ghost use Rattle.std.specs.Prelude.{◌≡◌, ◌<◌, ◌≤◌, Some, IfOk, IsOk, length, map, option_map, slice_get};
ghost use Rattle.std.specs.List.{AllByRecursion};
ghost use Rattle.calculus.specs.Positions.{size};
ghost use Rattle.calculus.specs.ComputedInstances.{ComputesInstances};
ghost use Rattle.search_theory.specs.Matrix.{IsTemplateMatrix, MatrixClause, all_shown, places};
ghost use Rattle.formula_core.specs.FormulaView.{the_formula};
ghost use Rattle.matrix_build.specs.Fits.{AreTemplatesIfAny, FitsMatrix};
ghost use Rattle.matrix_build.specs.MatrixView.{HasFewLiterals, the_clause, the_place};
ghost use Rattle.matrix_build.specs.Needs.{AreNeeds};
ghost use Rattle.matrix_build.specs.Sizes.{sizes_of};
ghost use Rattle.matrix_build.specs.declared.matrix.MatrixFault.TheVariants as fault;
ghost use Rattle.term_store.specs.TemplateView.{the_template};

use crate::clause::{Clause, all_shown};
use crate::index::{Index, Place};
use crate::needs::needs_of_all;
use crate::selections::selections;
use crate::sizes::add_sizes;
use crate::walk::Plan;
use cop_base::{ClauseId, NoMemory, SymbolId};
use formula_core::{Formula, Sign, clause_count, literal_count};
use logic_rules::{Logic, Problem};
use std::alloc::Global;
use std::marker::Model;
use tableau_core::Selection;
use term_store::Template;

/// The clauses of a problem in the order of their selections, with the places of their literals, and
/// marks of what these need above them.
#[derive(Drop)]
pub struct Matrix {
    clauses: Vec<Clause>,
    index: Index,
    needs: Vec<u64>,
}

impl Model for Matrix {
    ghost use Rattle.std.specs.Prelude.{List, map};
    ghost use Rattle.std.specs.Coded.{codes};
    ghost use Rattle.store_theory.specs.Patterns.{pattern_code};
    ghost use Rattle.search_theory.specs.Matrix.{MatrixClause};

    ghost Value = { List MatrixClause };

    ghost coded = { Prim.hlevel (codes, pattern_code) };

    ghost use Rattle.matrix_build.specs.MatrixView.{IsIndex, the_clause};
    ghost use Rattle.matrix_build.specs.Needs.{AreAllNeeds};

    ghost view = { λ m. map the_clause m.clauses.items };

    ghost invariant = { λ m. IsIndex m.index.rows.items (map the_clause m.clauses.items)
        × AreAllNeeds m.needs.items (map the_clause m.clauses.items) };
}

/// Why there is no matrix.
#[derive(Clone, Copy, Debug, PartialEq, Eq)]
pub enum MatrixFault {
    /// It has more clauses or literals than are allowed.
    TooLarge,
    NoMemory,
}

impl From<NoMemory> for MatrixFault {
    ghost from_gives = { λ _ r. r ≡ fault.NoMemory };

    fn from(_error: NoMemory) -> MatrixFault {
        MatrixFault::NoMemory
    }
}

const MAX_CLAUSES: u64 = 100000;

const MAX_LITERALS: u64 = 1000000;

/// The matrix of a problem (leanCoP's, with Otten's prefixes). A matrix of more than 100,000
/// clauses or 1,000,000 literals is too large, which is judged before anything is built.
#[tactic(auto, using(calculus::proofs::CasesLaws::computes_instances))]
pub fn build_matrix(alloc: Global, problem: &Problem) -> Result<Matrix, MatrixFault>
    ensures matrix { IfOk result (λ m. IsTemplateMatrix problem.now m) }
    ensures too_large { result ≡ Err MatrixFault.TooLarge → ¬ FitsMatrix problem.now }
    ensures fits { IsOk result → FitsMatrix problem.now }

    // The instances of the templates are those that the rules define by cases.
    ensures instances { ComputesInstances problem.now }
{
    let formula = problem.formula();
    if clause_count(formula, Sign::F, MAX_CLAUSES) > MAX_CLAUSES {
        return Err(MatrixFault::TooLarge);
    }
    if literal_count(formula, Sign::F, MAX_LITERALS) > MAX_LITERALS {
        return Err(MatrixFault::TooLarge);
    }
    let clauses = clauses_of(alloc, problem.setting().logic(), formula)?;
    let index = Index::new(alloc, &clauses)?;
    let needs = needs_of_all(alloc, &clauses)?;
    Ok(Matrix {
        clauses,
        index,
        needs,
    })
}

// What a walk over the formula goes by.
fn plan_of(alloc: Global, logic: Logic, formula: &Formula) -> Result<Plan, NoMemory>
    requires { size (the_formula formula.now) ≤ 4000000 }
    ensures logic { IfOk result (λ p. p.logic ≡ logic) }
    ensures sizes { IfOk result (λ p. p.sizes.items ≡ sizes_of (the_formula formula.now)) }
{
    let mut sizes = Vec::new(alloc);
    add_sizes(&mut sizes, formula)?;
    Ok(Plan {
        alloc,
        logic,
        sizes,
    })
}

// A template for each selection.
fn clauses_of(alloc: Global, logic: Logic, formula: &Formula) -> Result<Vec<Clause>, NoMemory>
    requires { size (the_formula formula.now) ≤ 4000000 }
    ensures templates { IfOk result (λ cs. AreTemplatesIfAny logic (the_formula formula.now)
        (map the_clause cs.items)) }
    ensures few { IfOk result (λ cs. AllByRecursion HasFewLiterals (map the_clause cs.items)) }
{
    let plan = plan_of(alloc, logic, formula)?;
    let selections = selections(alloc, formula, Sign::F)?;
    let mut clauses = Vec::with_capacity(alloc, selections.len())?;
    for selection in selections {
        let template = plan.template_of(formula, selection.items())?;
        clauses.push(Clause {
            selection,
            template,
        })?;
    }
    Ok(clauses)
}

impl Matrix {
    /// How many clauses it has.
    pub fn len(&self) -> usize
        ensures { result ≡ length self.now }
    {
        self.clauses.len()
    }

    /// The template of a clause.
    pub fn template(&self, c: ClauseId) -> &Template
        requires { c.0 < length self.now }
        ensures { option_map (λ (x : MatrixClause). x.template) (slice_get self.now c.0)
            ≡ Some (the_template result.now) }
    {
        &self.clauses[c.0 as usize].template
    }

    /// The selection of a clause.
    pub fn selection(&self, c: ClauseId) -> &Selection
        requires { c.0 < length self.now }
        ensures { option_map (λ (x : MatrixClause). x.selection) (slice_get self.now c.0)
            ≡ Some result.now }
    {
        &self.clauses[c.0 as usize].selection
    }

    /// Whether a clause may start a tableau: all its literals have sign F.
    pub fn is_start(&self, c: ClauseId) -> bool
        requires { c.0 < length self.now }
        ensures { option_map (λ (x : MatrixClause). all_shown x.template) (slice_get self.now c.0)
            ≡ Some result }
    {
        all_shown(&self.clauses[c.0 as usize].template)
    }

    /// The places of all literals with this symbol and sign, by clause and then by literal.
    pub fn places(&self, symbol: SymbolId, sign: Sign) -> &[Place]
        ensures { map the_place result.now ≡ places self.now symbol.0 sign }
    {
        self.index.places(symbol, sign)
    }

    /// The marks of what the literals of a clause need above them, where no extension closes them.
    pub fn needs(&self, c: ClauseId) -> u64
        requires { c.0 < length self.now }
        ensures { (x : MatrixClause) → slice_get self.now c.0 ≡ Some x
            → AreNeeds x.template.literals result }
    {
        self.needs[c.0 as usize]
    }
}
