ghost use Rattle.std.specs.Prelude.{◌≡◌, ◌∷◌, [], ◌++◌, IfOk, OnOk, Ok, Err, map};
ghost use Rattle.calculus.specs.Calculus.{apply};
ghost use Rattle.calculus.specs.StepFacts.{ChildrenExtend, IsFresh};
ghost use Rattle.calculus.specs.declared.fault.StepFault.{StepFault};
ghost use Rattle.sequent_calc.specs.ChildrenView.{the_children};
ghost use Rattle.sequent_calc.specs.DerivationView.{the_names};
ghost use Rattle.sequent_calc.specs.EntryView.{the_entry};
ghost use Rattle.sequent_calc.specs.StepView.{the_step};

use crate::addition::{Addition, addition_of};
use crate::apply_fault::ApplyFault;
use crate::entry::{Entry, Sequent};
use crate::names::Names;
use crate::step::Step;
pub use calculus::fault::StepFault;
use cop_base::NoMemory;
use logic_rules::Problem;
use std::alloc::Global;

/// The open sequents that a step leads to.
#[derive(Drop)]
pub enum Children {
    /// The step closes the branch.
    Closed,
    One(Sequent),
    /// The branch splits, the first component before the second.
    Two(Sequent, Sequent),
}

fn copy_entry(alloc: Global, entry: &Entry) -> Result<Entry, NoMemory>
    ensures { IfOk result (λ e. the_entry e ≡ the_entry entry.now) }
{
    let formula = entry.formula.copy(alloc)?;
    let label = entry.label.copy(alloc)?;
    Ok(Entry {
        sign: entry.sign,
        formula,
        label,
    })
}

fn append(alloc: Global, sequent: &mut Sequent, entries: &[Entry]) -> Result<(), NoMemory>
    ensures { OnOk result (sequent.new ≡ sequent.old ++ map the_entry entries.now) }
{
    for entry in entries {
        sequent.push(copy_entry(alloc, entry)?)?;
    }
    Ok(())
}

// The entries of both, copied.
fn joined(alloc: Global, front: &[Entry], back: &[Entry]) -> Result<Sequent, NoMemory>
    ensures { IfOk result (λ s. s ≡ map the_entry front.now ++ map the_entry back.now) }
{
    let mut sequent = Sequent::new(alloc);
    append(alloc, &mut sequent, front)?;
    append(alloc, &mut sequent, back)?;
    Ok(sequent)
}

// The entries with one more at the end.
fn with_entry(alloc: Global, entries: &[Entry], last: Entry) -> Result<Sequent, NoMemory>
    ensures { IfOk result (λ s. s ≡ map the_entry entries.now ++ the_entry last ∷ []) }
{
    let mut sequent = Sequent::new(alloc);
    append(alloc, &mut sequent, entries)?;
    sequent.push(last)?;
    Ok(sequent)
}

/// The open sequents that a step of a derivation leads to, or the first demand of the rules that it
/// does not meet. The children have the entries of the sequent and those that the step adds, which
/// stand at the end. The definition gives either children or a fault, so no step has both. For
/// callers that want whole sequents; `addition_of` serves those that grow a branch in place.
pub fn apply(
    alloc: Global,
    problem: &Problem,
    names: &Names,
    s: &Sequent,
    step: &Step,
) -> Result<Children, ApplyFault>
    ensures children { IfOk result
        (λ c. apply problem.now (the_names names.now) s.now (the_step step.now)
        ≡ Ok (the_children c)) }
    ensures fault { (f : StepFault) → result ≡ Err (ApplyFault.Fault f)
        → apply problem.now (the_names names.now) s.now (the_step step.now) ≡ Err f }

    // Laws that follow from the definition: branches grow at their ends, and what a step brings is
    // new.
    ensures extends { IfOk result (λ c. ChildrenExtend s.now (the_children c)) }
    ensures fresh { IfOk result (λ _. IsFresh (the_names names.now) s.now (the_step step.now)) }
{
    let entries = s.items();
    match addition_of(alloc, problem, names, entries, step)? {
        Addition::Close => Ok(Children::Closed),
        Addition::Extend(more) => Ok(Children::One(joined(alloc, entries, more.items())?)),
        Addition::Fork(first, second) => {
            let first = with_entry(alloc, entries, first)?;
            let second = with_entry(alloc, entries, second)?;
            Ok(Children::Two(first, second))
        }
    }
}
