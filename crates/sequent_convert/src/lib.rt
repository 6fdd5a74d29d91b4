//! The conversion of closed tableaux to derivations, in every logic.
#![tactic(auto)]

mod ahead;
mod alike;
mod axiom;
mod branch;
mod closing;
mod component;
mod done;
mod expansion;
mod following;
mod literals;
mod make;
mod names;
mod node;
mod nodes;
mod numbered;
mod parts;
mod past;
mod run;
mod sizes;
mod source;
mod spot;
mod turns;

ghost use Rattle.std.specs.Prelude.{◌≡◌, ◌≤◌, ◌++◌, IfOk, OnOk, false, IsTrue};
ghost use Rattle.formula_core.specs.FormulaView.{the_formula};
ghost use Rattle.sequent_convert.specs.Atoms.{atoms_of};
ghost use Rattle.calculus.specs.DerivationText.{is_limit};
ghost use Rattle.calculus.specs.Derivations.{axiom_count};
ghost use Rattle.calculus.specs.Tableaux.{is_closed};
ghost use Rattle.conversion_theory.specs.Turns.{closings_count, has_introduced_names};
ghost use Rattle.sequent_calc.specs.DerivationView.{the_derivation, the_names};
ghost use Rattle.sequent_convert.specs.Conversion.{IsConverted};
ghost use Rattle.sequent_convert.specs.ByNumber.RunView.{the_named, the_source};
ghost use Rattle.sequent_convert.specs.State.{IsBasis};
ghost use Rattle.tableau_core.specs.Numbered.TableauView.{the_tableau};

use cop_base::NoMemory;
use formula_core::{Formula, GroundTable};
use logic_rules::Problem;
use name_order::{Named, name};
use names::name_lines;
use run::Run;
use sequent_calc::{Derivation, Names, StepList};
use sizes::sizes_of;
use source::Source;
use std::alloc::Global;
use tableau_core::{SizedProblem, Tableau};

// Whether there is an atom at each position, in preorder.
fn put_atoms(f: &Formula, atoms: &mut Vec<bool>) -> Result<(), NoMemory>
    ensures { OnOk result (atoms.new.items ≡ atoms.old.items ++ atoms_of (the_formula f.now)) }
{
    match f {
        Formula::Atom(_, _) => atoms.push(true)?,
        Formula::Not(a) | Formula::All(a) | Formula::Ex(a) | Formula::Nec(a) | Formula::Poss(a) => {
            atoms.push(false)?;
            put_atoms(a, atoms)?;
        }
        Formula::And(a, b) | Formula::Or(a, b) | Formula::Imp(a, b) => {
            atoms.push(false)?;
            put_atoms(a, atoms)?;
            put_atoms(b, atoms)?;
        }
    }
    Ok(())
}

fn atoms_in(alloc: Global, f: &Formula) -> Result<Vec<bool>, NoMemory>
    ensures { IfOk result (λ atoms. atoms.items ≡ atoms_of (the_formula f.now)) }
{
    let mut atoms = Vec::new(alloc);
    put_atoms(f, &mut atoms)?;
    Ok(atoms)
}

// The steps that close all branches.
#[tactic(auto, using(crate::proofs::Loop::running))]
fn steps_by(source: &Source, finder: GroundTable) -> Result<StepList, NoMemory>
    requires basis { IsBasis (the_source source.now) }
    requires limit { IsTrue (is_limit source.now.limit) }
    ensures converted { IfOk result (λ s. IsConverted source.now.problem.now source.now.limit (record { limit = source.now.limit; names = the_names source.now.names.now; steps = s })) }
    ensures short { IfOk result (λ s. has_introduced_names (the_tableau source.now.tableau.now) ≡ false
        → axiom_count s ≤ closings_count (the_tableau source.now.tableau.now).goals) }
{
    let mut run = Run::new(source, finder)?;
    while run.is_open {
        run.advance(source)?;
    }
    Ok(run.steps)
}

// The derivation by the names of the tableau and by the lines that tell them.
fn derivation_by(
    alloc: Global,
    problem: &SizedProblem,
    t: &Tableau,
    limit: u8,
    named: &Named,
    names: Names,
    atoms: &[bool],
    sizes: &[usize],
    finder: GroundTable,
) -> Result<Derivation, NoMemory>
    requires basis { IsBasis (record {
      problem = problem.now;
      tableau = the_tableau t.now;
      limit = limit;
      named = the_named named.now;
      lines = the_names names;
      atoms = atoms.now;
      sizes = sizes.now;
    }) }
    requires limit { IsTrue (is_limit limit) }
    ensures converted { IfOk result (λ d. IsConverted problem.now limit (the_derivation d)) }
    ensures short { IfOk result (λ d. has_introduced_names (the_tableau t.now) ≡ false
        → axiom_count d.steps ≤ closings_count (the_tableau t.now).goals) }
{
    let source = Source {
        alloc,
        problem,
        tableau: t,
        limit,
        named,
        names: &names,
        atoms,
        sizes,
    };
    let steps = steps_by(&source, finder)?;
    Ok(Derivation {
        limit,
        names,
        steps,
    })
}

/// A derivation of the problem from a tableau that is closed within the limit, which the derivation
/// notes (after Kreitz and Schmitt, who convert matrix proofs). The tableau leads: a branch makes the
/// turns of the instance at hand, each after those that it waits for, and goes on to the instance
/// that closes the literal at its end. A branch is closed once an axiom is seen on it.
pub fn convert(
    alloc: Global,
    problem: &Problem,
    t: &Tableau,
    limit: u8,
) -> Result<Derivation, NoMemory>
    requires closed { IsTrue (is_closed problem.now limit (the_tableau t.now)) }
    requires limit { IsTrue (is_limit limit) }
    ensures converted { IfOk result (λ d. IsConverted problem.now limit (the_derivation d)) }
    ensures short { IfOk result (λ d. has_introduced_names (the_tableau t.now) ≡ false
        → axiom_count d.steps ≤ closings_count (the_tableau t.now).goals) }
{
    let sized = SizedProblem::new(alloc, problem)?;
    let atoms = atoms_in(alloc, problem.formula())?;
    let sizes = sizes_of(alloc, t)?;
    let named = name(alloc, problem, t)?;
    let mut finder = named.table().copy(alloc)?;
    let names = name_lines(alloc, &sized, &named, &mut finder)?;
    let derivation = derivation_by(
        alloc,
        &sized,
        t,
        limit,
        &named,
        names,
        atoms.as_slice(),
        sizes.as_slice(),
        finder,
    )?;
    Ok(derivation)
}
