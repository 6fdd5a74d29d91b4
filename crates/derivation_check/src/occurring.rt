//! What a use step brings to a branch: eigenvariables, and marks in labels and in homes of names.

ghost use Rattle.std.specs.Prelude.{◌≡◌, ◌<◌, ◌||◌, ◌&&◌, [], ℕ, false, get_or, length, OnOk};
ghost use Rattle.std.specs.List.{AllByRecursion, list_any};
ghost use Rattle.calculus.specs.Calculus.{holds_character, is_eigen, label_after};
ghost use Rattle.calculus.specs.Derivations as derivation;
ghost use Rattle.calculus.specs.Derivations.{character_eq, new_mark};
ghost use Rattle.calculus.specs.declared.setting.Logic.{Logic};
ghost use Rattle.calculus.specs.Syntax as tree;
ghost use Rattle.label_table.specs.Longer.{IsLonger};
ghost use Rattle.derivation_branch.specs.Occurring.{holds, in_argument, in_modal};
ghost use Rattle.label_table.specs.LabelTable.{IsLabelAt};
ghost use Rattle.derivation_check.specs.HomesView.{AreHomes, is_in_home_at};
ghost use Rattle.derivation_check.specs.NamesTold.{IsNamed};
ghost use Rattle.derivation_check.specs.declared.homes.Homes.{Homes};
ghost use Rattle.derivation_check.specs.ToldView.{AreThere, AreTold};
ghost use Rattle.logic_rules.specs.MarkView.{the_character};
ghost use Rattle.derivation_check.specs.ArgumentView.{the_argument, the_label_argument};

use crate::argument::{Argument, LabelArgument};
use crate::homes::Homes;
use crate::term_names::TermNames;
use crate::told_on_branch::ToldOnBranch;
use cop_base::NoMemory;
use derivation_branch::NumberSet;
use label_table::Labels;
use logic_rules::Mark;

fn add_mark(set: &mut NumberSet, mark: Mark) -> Result<(), NoMemory>
    ensures held { OnOk result ((n : ℕ) → holds set.new n
        ≡ (holds set.old n || character_eq (new_mark n) (the_character mark))) }
    ensures kept { OnOk result (IsLonger set.old set.new) }
{
    match mark {
        Mark::New(number) => set.add(number),
        Mark::Spare(_) => Ok(()),
    }
}

// Adds the marks of the label at a place.
fn add_marks(labels: &Labels, marks: &mut NumberSet, place: u32) -> Result<(), NoMemory>
    requires { place < length labels.now }
    ensures held { OnOk result ((n : ℕ) → holds marks.new n
        ≡ (holds marks.old n || holds_character (new_mark n) (get_or labels.now place []))) }
    ensures kept { OnOk result (IsLonger marks.old marks.new) }
{
    let mut at = place;
    while let Some((front, mark)) = labels.last(at) {
        add_mark(marks, mark)?;
        at = front;
    }
    Ok(())
}

// Adds the marks of the label at a place, unless it is told that they are there.
fn add_label(
    labels: &Labels,
    told: &mut ToldOnBranch,
    marks: &mut NumberSet,
    place: u32,
) -> Result<(), NoMemory>
    requires within { place < length labels.now }
    requires told { AreTold labels.now marks.old told.old }
    ensures held { OnOk result ((n : ℕ) → holds marks.new n
        ≡ (holds marks.old n || holds_character (new_mark n) (get_or labels.now place []))) }
    ensures kept { OnOk result (IsLonger marks.old marks.new) }
    ensures told { OnOk result (AreTold labels.now marks.new told.new) }
{
    if told.has(place) {
        return Ok(());
    }
    add_marks(labels, marks, place)?;
    let count = marks.count()?;
    told.add(place, count)?;
    Ok(())
}

// Adds the marks of the home at a place. Those of the label at the place `at` are there.
fn add_home(
    labels: &Labels,
    told: &mut ToldOnBranch,
    marks: &mut NumberSet,
    at: u32,
    home: u32,
) -> Result<(), NoMemory>
    requires home { home < length labels.now }
    requires there { AreThere labels.now at marks.old told.old }
    ensures held { OnOk result ((n : ℕ) → holds marks.new n
        ≡ (holds marks.old n || holds_character (new_mark n) (get_or labels.now home []))) }
    ensures kept { OnOk result (IsLonger marks.old marks.new) }
    ensures there { OnOk result (AreThere labels.now at marks.new told.new) }
{
    if labels.begins(home, at) {
        return Ok(());
    }
    add_label(labels, told, marks, home)?;
    Ok(())
}

// Adds the marks in the home of an eigenvariable.
fn add_home_of_eigen(
    labels: &Labels,
    homes: &Homes,
    told: &mut ToldOnBranch,
    marks: &mut NumberSet,
    at: u32,
    number: u32,
) -> Result<(), NoMemory>
    requires homes { (names : derivation.Names) × AreHomes names labels.now homes.now }
    requires there { AreThere labels.now at marks.old told.old }
    ensures held { OnOk result ((n : ℕ) → holds marks.new n
        ≡ (holds marks.old n
        || is_in_home_at labels.now homes.now (new_mark n) (tree.eigen number))) }
    ensures kept { OnOk result (IsLonger marks.old marks.new) }
    ensures there { OnOk result (AreThere labels.now at marks.new told.new) }
{
    match homes.eigen(number) {
        Some(home) => add_home(labels, told, marks, at, home),
        None => Ok(()),
    }
}

// Adds the marks in the homes at these places.
fn add_homes(
    labels: &Labels,
    told: &mut ToldOnBranch,
    marks: &mut NumberSet,
    at: u32,
    homes: &[u32],
) -> Result<(), NoMemory>
    requires homes { AllByRecursion (λ k. k < length labels.now) homes.now }
    requires there { AreThere labels.now at marks.old told.old }
    ensures held { OnOk result ((n : ℕ) → holds marks.new n ≡ (holds marks.old n
        || list_any (λ k. holds_character (new_mark n) (get_or labels.now k [])) homes.now)) }
    ensures kept { OnOk result (IsLonger marks.old marks.new) }
    ensures there { OnOk result (AreThere labels.now at marks.new told.new) }
{
    for home in homes {
        add_home(labels, told, marks, at, *home)?;
    }
    Ok(())
}

/// Adds the marks in the argument of a step with a modal part, which leads to the label at a place.
pub fn add_modal(
    labels: &Labels,
    told: &mut ToldOnBranch,
    marks: &mut NumberSet,
    at: u32,
    modal: LabelArgument,
) -> Result<(), NoMemory>
    requires label { (from : derivation.Label) × (logic : Logic)
        × IsLabelAt labels.now at (label_after logic from (the_label_argument labels.now modal)) }
    requires told { AreTold labels.now marks.old told.old }
    ensures held { OnOk result ((n : ℕ) → holds marks.new n
        ≡ (holds marks.old n || in_modal (new_mark n) (the_label_argument labels.now modal))) }
    ensures kept { OnOk result (IsLonger marks.old marks.new) }
    ensures told { OnOk result (AreTold labels.now marks.new told.new) }
{
    match modal {
        LabelArgument::None => Ok(()),
        LabelArgument::To(_) => add_label(labels, told, marks, at),
        LabelArgument::New(number) => {
            marks.add(number)?;
            Ok(())
        }
    }
}

fn add_all(set: &mut NumberSet, numbers: &[u32]) -> Result<(), NoMemory>
    ensures held { OnOk result
        ((n : ℕ) → holds set.new n ≡ (holds set.old n || holds numbers.now n)) }
    ensures kept { OnOk result (IsLonger set.old set.new) }
{
    for number in numbers {
        set.add(*number)?;
    }
    Ok(())
}

fn add_argument_eigens(
    eigens: &mut NumberSet,
    named: &[TermNames],
    term: Argument<'_>,
) -> Result<(), NoMemory>
    requires { (homes : Homes) × IsNamed homes named.now term }
    ensures held { OnOk result ((n : ℕ) → holds eigens.new n
        ≡ (holds eigens.old n || in_argument (is_eigen n) (the_argument term.entry))) }
    ensures kept { OnOk result (IsLonger eigens.old eigens.new) }
{
    match term {
        Argument::None => Ok(()),
        Argument::Term(_, place, _) => {
            add_all(eigens, named[place].eigens.as_slice())?;
            Ok(())
        }
        Argument::Name(number) => {
            eigens.add(number)?;
            Ok(())
        }
    }
}

fn add_argument_homes(
    labels: &Labels,
    homes: &Homes,
    named: &[TermNames],
    told: &mut ToldOnBranch,
    marks: &mut NumberSet,
    at: u32,
    term: Argument<'_>,
) -> Result<(), NoMemory>
    requires homes { (names : derivation.Names) × AreHomes names labels.now homes.now }
    requires named { IsNamed homes.now named.now term }
    requires there { AreThere labels.now at marks.old told.old }
    ensures held { OnOk result ((n : ℕ) → holds marks.new n
        ≡ (holds marks.old n || in_argument (is_in_home_at labels.now homes.now (new_mark n))
        (the_argument term.entry))) }
    ensures kept { OnOk result (IsLonger marks.old marks.new) }
    ensures there { OnOk result (AreThere labels.now at marks.new told.new) }
{
    match term {
        Argument::None => Ok(()),
        Argument::Term(_, place, _) => {
            add_homes(labels, told, marks, at, named[place].places.as_slice())?;
            Ok(())
        }
        Argument::Name(number) => add_home_of_eigen(labels, homes, told, marks, at, number),
    }
}

/// Adds the eigenvariables that a use step on the formula brings: those of its argument, where the
/// quantifier binds something.
pub fn add_brought_eigens(
    eigens: &mut NumberSet,
    named: &[TermNames],
    binds: bool,
    term: Argument<'_>,
) -> Result<(), NoMemory>
    requires { (homes : Homes) × IsNamed homes named.now term }
    ensures held { OnOk result ((n : ℕ) → holds eigens.new n
        ≡ (holds eigens.old n || (binds
        && in_argument (is_eigen n) (the_argument term.entry)))) }
    ensures kept { OnOk result (IsLonger eigens.old eigens.new) }
{
    if binds {
        add_argument_eigens(eigens, named, term)
    } else {
        Ok(())
    }
}

/// The same of the marks in the homes of names, where the step leads to the label at a place.
pub fn add_brought_homes(
    labels: &Labels,
    homes: &Homes,
    named: &[TermNames],
    told: &mut ToldOnBranch,
    marks: &mut NumberSet,
    at: u32,
    binds: bool,
    term: Argument<'_>,
) -> Result<(), NoMemory>
    requires homes { (names : derivation.Names) × AreHomes names labels.now homes.now }
    requires named { IsNamed homes.now named.now term }
    requires there { AreThere labels.now at marks.old told.old }
    ensures held { OnOk result ((n : ℕ) → holds marks.new n
        ≡ (holds marks.old n || (binds
        && in_argument (is_in_home_at labels.now homes.now (new_mark n)) (the_argument term.entry)))) }
    ensures kept { OnOk result (IsLonger marks.old marks.new) }
    ensures there { OnOk result (AreThere labels.now at marks.new told.new) }
{
    if binds {
        add_argument_homes(labels, homes, named, told, marks, at, term)
    } else {
        Ok(())
    }
}
