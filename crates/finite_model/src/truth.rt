//! Truth at a world, after Kripke. One step is taken for each way that is visited, which is a position of the formula with the worlds and
//! elements that were chosen on the way to it. The calls go as deep as the formula nests.

ghost use Rattle.std.specs.Prelude.{◌≡◌, ◌+◌, ◌≤◌, ◌∷◌, [], ℕ, Bool, false, length, not, reverse, suc, take, true};
ghost use Rattle.calculus.specs.Measures.{nesting};
ghost use Rattle.calculus.specs.StructureTruth.{Told, after_told, chosen_worlds, each_told, not_told, told, told_at};
ghost use Rattle.calculus.specs.Structures.{domain_of};
ghost use Rattle.cop_base.specs.declared.ledger.Ledger as steps;
ghost use Rattle.finite_model.specs.Seeking.{IsTold, decide_told, left, seek_told};
ghost use Rattle.formula_core.specs.FormulaView.{the_formula};

use crate::structure::Structure;
use crate::value::is_atom_true;
use calculus::setting::Logic;
use cop_base::Ledger;
use formula_core::Formula;

/// No step is left.
#[derive(Clone, Copy, Debug, PartialEq, Eq)]
pub struct StepsEnded;

// The worlds of which atoms, negations, implications and universal quantifiers speak: in
// intuitionistic logic all that the world reaches, else the world alone.
fn chosen_worlds<'a>(logic: Logic, structure: &'a Structure, world: u8, alone: &'a [u8]) -> &'a [u8]
    requires { alone.now ≡ world ∷ [] }
    ensures { result.now ≡ chosen_worlds logic structure.now world }
{
    match logic {
        Logic::Intuitionistic => structure.successors_of(world),
        Logic::Classical | Logic::D | Logic::T | Logic::S4 | Logic::S5 => alone,
    }
}

fn negated(answer: Result<bool, StepsEnded>) -> Result<bool, StepsEnded>
    ensures { (after : steps.Ledger) (t : Told) → IsTold answer after t
        → IsTold result after (after_told t (λ b n. told (not b) n)) }
{
    match answer {
        Ok(value) => Ok(!value),
        Err(StepsEnded) => Err(StepsEnded),
    }
}

// Whether the formula has this value at some of the worlds.
#[cycle(truth_at)]
fn seek_worlds(
    structure: &Structure,
    logic: Logic,
    formula: &Formula,
    env: &mut [u8],
    bound: usize,
    worlds: &[u8],
    value: bool,
    ledger: &mut Ledger,
) -> Result<bool, StepsEnded>
    requires room { bound + nesting (the_formula formula.now) ≤ length env.old }
    ensures told { IsTold result ledger.new (seek_told value
        (told_at logic structure.now (the_formula formula.now) (reverse (take bound env.old)))
        worlds.now (left ledger.old)) }
    ensures env { take bound env.new ≡ take bound env.old }
    ensures budget { ledger.new.budget ≡ ledger.old.budget }
{
    for world in worlds {
        let found = truth_at(structure, logic, formula, env, bound, *world, ledger)?;
        if found == value {
            return Ok(true);
        }
    }
    Ok(false)
}

// Whether the formula has this value at the world for some element that exists there.
#[cycle(truth_at)]
fn seek_elements(
    structure: &Structure,
    logic: Logic,
    formula: &Formula,
    env: &mut [u8],
    bound: usize,
    world: u8,
    value: bool,
    ledger: &mut Ledger,
) -> Result<bool, StepsEnded>
    requires room { bound + 1 + nesting (the_formula formula.now) ≤ length env.old }
    ensures told { IsTold result ledger.new (seek_told value
        (λ x. told_at logic structure.now (the_formula formula.now) (x ∷ reverse (take bound env.old)) world)
        (domain_of structure.now world) (left ledger.old)) }
    ensures env { take bound env.new ≡ take bound env.old }
    ensures budget { ledger.new.budget ≡ ledger.old.budget }
{
    for element in structure.domain_of(world) {
        env[bound] = *element;
        let found = truth_at(structure, logic, formula, env, bound + 1, world, ledger)?;
        if found == value {
            return Ok(true);
        }
    }
    Ok(false)
}

// The answer where the first formula has the decisive value, else the truth of the second one.
#[cycle(truth_at)]
fn decided(
    structure: &Structure,
    logic: Logic,
    first: &Formula,
    decisive: bool,
    answer: bool,
    second: &Formula,
    env: &mut [u8],
    bound: usize,
    world: u8,
    ledger: &mut Ledger,
) -> Result<bool, StepsEnded>
    requires first_room { bound + nesting (the_formula first.now) ≤ length env.old }
    requires second_room { bound + nesting (the_formula second.now) ≤ length env.old }
    ensures told { IsTold result ledger.new (decide_told decisive answer
        (told_at logic structure.now (the_formula first.now) (reverse (take bound env.old)) world)
        (told_at logic structure.now (the_formula second.now) (reverse (take bound env.old)) world)
        (left ledger.old)) }
    ensures env { take bound env.new ≡ take bound env.old }
    ensures budget { ledger.new.budget ≡ ledger.old.budget }
{
    let found = truth_at(structure, logic, first, env, bound, world, ledger)?;
    if found == decisive {
        return Ok(answer);
    }
    truth_at(structure, logic, second, env, bound, world, ledger)
}

// Whether at each of the worlds the first formula is false or the second one true.
#[cycle(truth_at)]
fn implied_at_all(
    structure: &Structure,
    logic: Logic,
    first: &Formula,
    second: &Formula,
    env: &mut [u8],
    bound: usize,
    worlds: &[u8],
    ledger: &mut Ledger,
) -> Result<bool, StepsEnded>
    requires first_room { bound + nesting (the_formula first.now) ≤ length env.old }
    requires second_room { bound + nesting (the_formula second.now) ≤ length env.old }
    ensures told { IsTold result ledger.new (each_told (λ v. decide_told false true
        (told_at logic structure.now (the_formula first.now) (reverse (take bound env.old)) v)
        (told_at logic structure.now (the_formula second.now) (reverse (take bound env.old)) v))
        worlds.now (left ledger.old)) }
    ensures env { take bound env.new ≡ take bound env.old }
    ensures budget { ledger.new.budget ≡ ledger.old.budget }
{
    for world in worlds {
        let implied = decided(
            structure, logic, first, false, true, second, env, bound, *world, ledger,
        )?;
        if !implied {
            return Ok(false);
        }
    }
    Ok(true)
}

// Whether at each of the worlds the formula is true for each element that exists there.
#[cycle(truth_at)]
fn true_for_all(
    structure: &Structure,
    logic: Logic,
    formula: &Formula,
    env: &mut [u8],
    bound: usize,
    worlds: &[u8],
    ledger: &mut Ledger,
) -> Result<bool, StepsEnded>
    requires room { bound + 1 + nesting (the_formula formula.now) ≤ length env.old }
    ensures told { IsTold result ledger.new (each_told (λ v. not_told (seek_told false
        (λ x. told_at logic structure.now (the_formula formula.now) (x ∷ reverse (take bound env.old)) v)
        (domain_of structure.now v))) worlds.now (left ledger.old)) }
    ensures env { take bound env.new ≡ take bound env.old }
    ensures budget { ledger.new.budget ≡ ledger.old.budget }
{
    for world in worlds {
        let found = seek_elements(structure, logic, formula, env, bound, *world, false, ledger)?;
        if found {
            return Ok(false);
        }
    }
    Ok(true)
}

// The truth of a formula at a world, where the step for it was taken.
#[cycle(truth_at)]
fn truth_by_parts(
    structure: &Structure,
    logic: Logic,
    formula: &Formula,
    env: &mut [u8],
    bound: usize,
    world: u8,
    ledger: &mut Ledger,
) -> Result<bool, StepsEnded>
    requires room { bound + nesting (the_formula formula.now) ≤ length env.old }
    ensures told { (n : ℕ) → n ≡ suc (left ledger.old) → IsTold result ledger.new (told_at logic structure.now (the_formula formula.now)
        (reverse (take bound env.old)) world n) }
    ensures env { take bound env.new ≡ take bound env.old }
    ensures budget { ledger.new.budget ≡ ledger.old.budget }
{
    let alone = [world];
    let worlds = chosen_worlds(logic, structure, world, &alone);
    let reached = structure.successors_of(world);
    match formula {
        Formula::Atom(predicate, args) => Ok(is_atom_true(
            structure,
            &env[..bound],
            *predicate,
            args,
            worlds,
        )),
        Formula::Not(a) => negated(seek_worlds(
            structure, logic, a, env, bound, worlds, true, ledger,
        )),
        Formula::And(a, b) => decided(
            structure, logic, a, false, false, b, env, bound, world, ledger,
        ),
        Formula::Or(a, b) => decided(
            structure, logic, a, true, true, b, env, bound, world, ledger,
        ),
        Formula::Imp(a, b) => implied_at_all(structure, logic, a, b, env, bound, worlds, ledger),
        Formula::All(a) => true_for_all(structure, logic, a, env, bound, worlds, ledger),
        Formula::Ex(a) => seek_elements(structure, logic, a, env, bound, world, true, ledger),
        Formula::Nec(a) => negated(seek_worlds(
            structure, logic, a, env, bound, reached, false, ledger,
        )),
        Formula::Poss(a) => seek_worlds(structure, logic, a, env, bound, reached, true, ledger),
    }
}

/// The truth of a formula at a world. The elements of its variables stand in order, the innermost quantifier's last.
#[cycle(truth_at)]
pub fn truth_at(
    structure: &Structure,
    logic: Logic,
    formula: &Formula,
    env: &mut [u8],
    bound: usize,
    world: u8,
    ledger: &mut Ledger,
) -> Result<bool, StepsEnded>
    requires room { bound + nesting (the_formula formula.now) ≤ length env.old }
    ensures told { IsTold result ledger.new (told_at logic structure.now (the_formula formula.now)
        (reverse (take bound env.old)) world (left ledger.old)) }
    ensures env { take bound env.new ≡ take bound env.old }
    ensures budget { ledger.new.budget ≡ ledger.old.budget }
{
    if !ledger.take() {
        return Err(StepsEnded);
    }
    truth_by_parts(structure, logic, formula, env, bound, world, ledger)
}
