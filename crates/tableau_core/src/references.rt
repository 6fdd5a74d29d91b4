//! Lists that go on by one step.

ghost use Rattle.std.specs.Prelude.{◌≡◌, ◌++◌, ◌∷◌, [], List, map, IfOk};
ghost use Rattle.calculus.specs.Labels.{nu_label, pi_label};
ghost use Rattle.formula_core.specs.GroundLists.{GroundList, the_mark};
ghost use Rattle.tableau_core.specs.Numbered.SpotView.{the_bound, the_mark_at, start_marks};

use crate::spot::{Bound, MarkAt};
use cop_base::NoMemory;
use formula_core::{GroundMark, Value};
use logic_rules::Logic;
use std::alloc::Global;

/// The characters of a string or a home.
pub fn given<'a>(alloc: Global, marks: &[GroundMark]) -> Result<Vec<MarkAt<'a>>, NoMemory>
    ensures { IfOk result (λ v. (ls : List GroundList) → map (the_mark_at ls) v.items ≡ map (the_mark ls) marks.now) }
{
    let mut all = Vec::new(alloc);
    for mark in marks {
        all.push(MarkAt::Given(*mark))?;
    }
    Ok(all)
}

/// These values and one more.
pub fn with_value(alloc: Global, taken: &[Value], value: Value) -> Result<Vec<Value>, NoMemory>
    ensures { IfOk result (λ v. v.items ≡ taken.now ++ value ∷ []) }
{
    let mut all = Vec::new(alloc);
    all.extend_from_slice(taken)?;
    all.push(value)?;
    Ok(all)
}

/// The terms put for variables, the innermost first, inside one more quantifier.
pub fn with_bound<'a>(
    alloc: Global,
    bound: Bound<'a>,
    env: &[Bound<'a>],
) -> Result<Vec<Bound<'a>>, NoMemory>
    ensures { IfOk result (λ v. v.items ≡ bound.entry ∷ env.now) }
{
    let mut all = Vec::new(alloc);
    all.push(bound)?;
    all.extend_from_slice(env)?;
    Ok(all)
}

/// A label with the same characters.
pub fn copy_label<'a>(alloc: Global, label: &[MarkAt<'a>]) -> Result<Vec<MarkAt<'a>>, NoMemory>
    ensures { IfOk result (λ v. v.items ≡ label.now) }
{
    let mut all = Vec::new(alloc);
    all.extend_from_slice(label)?;
    Ok(all)
}

// The label from which a step of the logic goes on: in S5 that is the root.
fn start<'a>(alloc: Global, logic: Logic, label: &[MarkAt<'a>]) -> Result<Vec<MarkAt<'a>>, NoMemory>
    ensures { IfOk result (λ v. v.items ≡ start_marks logic label.now) }
{
    if !logic.keeps_prefix() {
        return Ok(Vec::new(alloc));
    }
    let all = copy_label(alloc, label)?;
    Ok(all)
}

/// The label of a pi step.
#[tactic(auto, using(crate::proofs::Numbered::LabelLaws::labels))]
pub fn with_mark<'a>(
    alloc: Global,
    logic: Logic,
    label: &[MarkAt<'a>],
    mark: MarkAt<'a>,
) -> Result<Vec<MarkAt<'a>>, NoMemory>
    ensures { IfOk result (λ v. (ls : List GroundList) → map (the_mark_at ls) v.items
        ≡ pi_label logic (map (the_mark_at ls) label.now) (the_mark_at ls mark.entry)) }
{
    let mut all = start(alloc, logic, label)?;
    all.push(mark)?;
    Ok(all)
}

/// The label of a nu step.
#[tactic(auto, using(crate::proofs::Numbered::LabelLaws::labels))]
pub fn with_string<'a>(
    alloc: Global,
    logic: Logic,
    label: &[MarkAt<'a>],
    string: &[GroundMark],
) -> Result<Vec<MarkAt<'a>>, NoMemory>
    ensures { IfOk result (λ v. (ls : List GroundList) → map (the_mark_at ls) v.items
        ≡ nu_label logic (map (the_mark_at ls) label.now) (map (the_mark ls) string.now)) }
{
    let mut all = start(alloc, logic, label)?;
    for mark in string {
        all.push(MarkAt::Given(*mark))?;
    }
    Ok(all)
}
