//! Judging a formula at the root.

ghost use Rattle.std.specs.Prelude.{◌≡◌, ◌+◌, ◌<◌, ◌≤◌, ◌^◌, [], Bool, IfOk, IsTrue, length, reverse, take};
ghost use Rattle.calculus.specs.Measures.{nesting};
ghost use Rattle.calculus.specs.Soundness.{HasNoDerivation, IsNeverAccepted};
ghost use Rattle.calculus.specs.StructureTruth.{told_at, ways};
ghost use Rattle.calculus.specs.Structures.{is_structure, is_true};
ghost use Rattle.calculus.specs.Syntax as tree;
ghost use Rattle.finite_model.specs.Judging.{IsAnswer, judged_of, truth_of};
ghost use Rattle.finite_model.specs.Seeking.{IsTold, left};
ghost use Rattle.finite_model.specs.Shortened.{AreElements, IsShortFormula};
ghost use Rattle.formula_core.specs.FormulaView.{the_formula};

use crate::shortening::short_formula;
use crate::structure::Structure;
use crate::truth::{StepsEnded, truth_at};
use calculus::setting::Logic;
use cop_base::{Ledger, NoMemory};
use formula_core::{Formula, nesting};
use logic_rules::Problem;
use std::alloc::{AllocError, Global};

// As many as a byte has values.
const ELEMENTS: usize = 256;

/// The truth of a problem's formula at the root of a structure, or that the steps ended before it was told.
#[derive(Clone, Copy, Debug, PartialEq, Eq)]
pub enum Judged {
    True,
    False,
    Steps,
}

fn judged_of(told: Result<bool, StepsEnded>) -> Judged
    ensures { result ≡ judged_of told }
{
    match told {
        Ok(true) => Judged::True,
        Ok(false) => Judged::False,
        Err(StepsEnded) => Judged::Steps,
    }
}

// The elements from the last one down, behind which those of bound variables stand.
fn put_elements(all: &mut [u8])
    requires { 256 ≤ length all.old }
    ensures length { length all.new ≡ length all.old }
    ensures elements { AreElements (reverse (take 256 all.new)) }
{
    let mut element = u8::MAX;
    for i in 0..ELEMENTS {
        all[i] = element;
        element = element.saturating_sub(1);
    }
}

// The elements, with room for so many that are bound.
fn elements_before(alloc: Global, depth: usize) -> Result<Vec<u8>, NoMemory>
    requires { depth + 256 < 2 ^ 64 }
    ensures length { IfOk result (λ v. length v.items ≡ 256 + depth) }
    ensures elements { IfOk result (λ v. AreElements (reverse (take 256 v.items))) }
{
    let mut all = vec![in alloc; 0; ELEMENTS + depth]?;
    put_elements(all.as_mut_slice());
    Ok(all)
}

// The truth at the root of a formula that is given with variables in place of its closed terms.
fn told_at_root(
    structure: &Structure,
    logic: Logic,
    short: &Formula,
    env: &mut [u8],
    ledger: &mut Ledger,
) -> Result<bool, StepsEnded>
    requires room { 256 + nesting (the_formula short.now) ≤ length env.old }
    requires elements { AreElements (reverse (take 256 env.old)) }
    ensures told { (f : tree.Formula) → IsShortFormula structure.now 0 f (the_formula short.now)
        → IsTold result ledger.new (told_at logic structure.now f [] 0 (left ledger.old)) }
    ensures budget { ledger.new.budget ≡ ledger.old.budget }
{
    truth_at(structure, logic, short, env, ELEMENTS, 0, ledger)
}

/// Whether the problem's formula is true at the root, after Kripke. One step is taken for each way that is visited: a position of the
/// formula with the worlds and elements that were chosen on the way to it. What a formula's first part decides alone is told without a
/// visit of the second one, and what one world or element decides without the later ones. A formula that is false at the root of a
/// structure of the problem's setting has no derivation, and no bytes are accepted as one.
///
/// The elements of closed terms are told once, before the first step. The calls go as deep as the formula nests, at most 1,100 levels; the
/// elements of bound variables stand on the heap.
pub fn judge(
    alloc: Global,
    problem: &Problem,
    structure: &Structure,
    ledger: &mut Ledger,
) -> Result<Judged, NoMemory>
    requires fits { IsTrue (is_structure problem.now structure.now) }
    ensures truth { (b : Bool) → IfOk result (λ j. truth_of j ≡ Some b → is_true problem.now structure.now ≡ b) }
    ensures counted { IfOk result (λ j. IsAnswer j ledger.new
        (told_at problem.now.setting.logic structure.now problem.now.formula [] 0 (left ledger.old))) }
    ensures budget { ledger.new.budget ≡ ledger.old.budget }
    ensures used { ledger.old.used ≤ ledger.new.used }
    ensures cost { ledger.new.used ≤ ledger.old.used + ways problem.now structure.now }
    ensures spent { result ≡ Ok Judged.Steps → ledger.new.used ≡ ledger.new.budget }
    ensures steps { result ≡ Ok Judged.Steps → ledger.old.budget < ledger.old.used + ways problem.now structure.now }
    ensures underived { result ≡ Ok Judged.False → HasNoDerivation problem.now }
    ensures never_accepted { result ≡ Ok Judged.False → IsNeverAccepted problem.now }
{
    let formula = problem.formula();
    let depth = nesting(formula) as usize;
    let short = short_formula(alloc, structure, 0, formula)?;
    let mut env = elements_before(alloc, depth)?;
    let logic = problem.setting().logic();
    let told = told_at_root(structure, logic, &short, env.as_mut_slice(), ledger);
    Ok(judged_of(told))
}
