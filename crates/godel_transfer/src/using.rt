//! What a use step makes of the current branch.

ghost use Rattle.std.specs.Prelude.{◌≡◌, ◌<◌, ◌++◌, ◌∷◌, [], ℕ, List, false, true, get_or, length};
ghost use Rattle.std.specs.Prelude.{if◌then◌else◌, suc, map, IfOk, OnOk};
ghost use Rattle.calculus.specs.Calculus.{is_atom};
ghost use Rattle.calculus.specs.Derivations as derivation;
ghost use Rattle.calculus.specs.Kinds.{components, shape_of};
ghost use Rattle.label_table.specs.Longer.{IsLonger};
ghost use Rattle.label_table.specs.LabelTable.{IsLabelAt};
ghost use Rattle.formula_core.specs.ComponentsView.{the_signed};
ghost use Rattle.formula_core.specs.FormulaView.{the_formula};
ghost use Rattle.godel_transfer.specs.BranchView.{IsKept, branches_of, entry_by, introduced_by};
ghost use Rattle.godel_transfer.specs.BranchView.{label_then_by, named_by, the_branch, the_characters};
ghost use Rattle.godel_transfer.specs.BranchView.{put_for, put_one, the_entry, waiting_in};
ghost use Rattle.godel_transfer.specs.ImagesView.{AreImages, images_of};
ghost use Rattle.godel_transfer.specs.Sketch.{atom_after, grown};
ghost use Rattle.godel_transfer.specs.Transfer.{has_two_steps, label_image, mark_image};
ghost use Rattle.logic_rules.specs.MarkView.{the_character};
ghost use Rattle.sequent_calc.specs.StepView.{the_modal, the_term_arg};

use crate::branches::{Branches, Entry, Fork};
use crate::images::Images;
use crate::numbers::next;
use cop_base::NoMemory;
use formula_core::{Components, Formula, Signed};
use label_table::Labels;
use logic_rules::{Label, Mark};
use sequent_calc::{ModalArg, TermArg};
use std::alloc::AllocError;

/// Whether a step leads past the box of the translation and a second one on.
pub fn has_two_steps(f: &Formula) -> bool
    ensures { result ≡ has_two_steps (the_formula f.now) }
{
    match f {
        Formula::Not(_) | Formula::Imp(_, _) | Formula::All(_) => true,
        Formula::Atom(_, _)
        | Formula::And(_, _)
        | Formula::Or(_, _)
        | Formula::Ex(_)
        | Formula::Nec(_)
        | Formula::Poss(_) => false,
    }
}

// How many entries there are in S4 before the components come.
fn count_before(f: &Formula, count: u32) -> Result<u32, NoMemory>
    ensures { IfOk result (λ n. n ≡ (if has_two_steps (the_formula f.now) then suc count else count)) }
{
    if has_two_steps(f) {
        next(count)
    } else {
        Ok(count)
    }
}

fn add_mark_image(
    labels: &mut Labels,
    characters: &Images,
    front: u32,
    mark: Mark,
) -> Result<u32, NoMemory>
    requires within { front < length labels.old }
    requires images { AreImages characters.now }
    ensures place { IfOk result (λ k. IsLabelAt labels.new k (get_or labels.old front []
        ++ mark_image (the_characters characters.now) (the_character mark))) }
    ensures grown { OnOk result (IsLonger labels.old labels.new) }
{
    match mark {
        Mark::New(number) => match characters.find(number) {
            Some(image) => labels.extend(front, Mark::New(image)),
            None => Ok(front),
        },
        Mark::Spare(_) => Ok(front),
    }
}

// The place of the image of a label.
fn add_label_image(labels: &mut Labels, characters: &Images, label: &Label) -> Result<u32, NoMemory>
    requires images { AreImages characters.now }
    ensures place { IfOk result (λ k.
        IsLabelAt labels.new k (label_image (the_characters characters.now) label.now)) }
    ensures grown { OnOk result (IsLonger labels.old labels.new) }
{
    let mut place = labels.root();
    for mark in label.items() {
        place = add_mark_image(labels, characters, place, *mark)?;
    }
    Ok(place)
}

// The place of the label of S4 to which a step on an atom leads: its character is left out.
fn label_after_atom(
    labels: &mut Labels,
    characters: &Images,
    from: u32,
    modal: &ModalArg,
) -> Result<u32, NoMemory>
    requires within { from < length labels.old }
    requires images { AreImages characters.now }
    ensures place { IfOk result (λ k. IsLabelAt labels.new k (label_then_by
        (the_characters characters.now) [] (get_or labels.old from []) (the_modal modal.now))) }
    ensures grown { OnOk result (IsLonger labels.old labels.new) }
{
    match modal {
        ModalArg::None | ModalArg::New(_) => Ok(from),
        ModalArg::To(to) => add_label_image(labels, characters, to),
    }
}

/// The place of the label of S4 to which another step leads.
pub fn label_after(
    labels: &mut Labels,
    characters: &Images,
    count: u32,
    from: u32,
    modal: &ModalArg,
) -> Result<u32, NoMemory>
    requires within { from < length labels.old }
    requires images { AreImages characters.now }
    ensures place { IfOk result (λ k. IsLabelAt labels.new k (label_then_by
        (the_characters characters.now) (derivation.new_mark count ∷ [])
        (get_or labels.old from []) (the_modal modal.now))) }
    ensures grown { OnOk result (IsLonger labels.old labels.new) }
{
    match modal {
        ModalArg::None => Ok(from),
        ModalArg::To(to) => add_label_image(labels, characters, to),
        ModalArg::New(_) => labels.extend(from, Mark::New(count)),
    }
}

/// A step on an atom makes no step in S4: the same entry stands for the new one.
pub fn pass_atom<'a>(
    branches: &mut Branches<'a>,
    used: Entry<'a>,
    modal: &ModalArg,
) -> Result<(), NoMemory>
    requires is_open { branches.old.is_open ≡ true }
    requires kept { IsKept branches.old }
    requires within { used.label < length branches.old.labels }
    requires atom { is_atom (the_formula used.formula.now) ≡ true }
    ensures passed { OnOk result (branches_of branches.new ≡ atom_after (the_branch branches.old)
        used.entry.place (the_entry branches.old.labels used.entry) (the_modal modal.now)
        ∷ waiting_in branches.old) }
    ensures kept { OnOk result (IsKept branches.new) }
{
    let label = label_after_atom(
        &mut branches.labels,
        &branches.characters,
        used.label,
        modal,
    )?;
    branches.entries.push(Entry { label, ..used })?;
    Ok(())
}

// What the names that a step introduces become.
fn add_images(
    characters: &mut Images,
    eigens: &mut Images,
    count: u32,
    number: u32,
    modal: &ModalArg,
    term: &TermArg,
) -> Result<(), NoMemory>
    requires characters { AreImages characters.old }
    requires eigens { AreImages eigens.old }
    ensures characters { OnOk result ((images_of characters.new
        ≡ introduced_by (the_modal modal.now) count ++ images_of characters.old)
        × AreImages characters.new) }
    ensures eigens { OnOk result ((images_of eigens.new
        ≡ named_by (the_term_arg term.now) number ++ images_of eigens.old) × AreImages eigens.new) }
{
    if let ModalArg::New(mark) = modal {
        characters.push(*mark, count)?;
    }
    if let TermArg::Name(eigen) = term {
        eigens.push(*eigen, number)?;
    }
    Ok(())
}

// A component at the label of a place, as the entry of S4 of a number.
fn component<'a>(part: Signed<'a>, label: u32, place: u32) -> Entry<'a>
    ensures entry { (labels : List derivation.Label) → the_entry labels result
        ≡ entry_by (get_or labels label []) (the_signed part.entry) }
    ensures label { result.label ≡ label }
    ensures place { result.place ≡ place }
{
    Entry {
        sign: part.sign,
        formula: part.formula,
        label,
        place,
    }
}

// Adds a component at a label, as the next entry of S4.
fn add_component<'a>(
    branches: &mut Branches<'a>,
    part: Signed<'a>,
    label: u32,
) -> Result<(), NoMemory>
    requires is_open { branches.old.is_open ≡ true }
    requires kept { IsKept branches.old }
    requires within { label < length branches.old.labels }
    ensures added { OnOk result (branches_of branches.new ≡ put_one (the_branch branches.old)
        (get_or branches.old.labels label []) (the_signed part.entry) ∷ waiting_in branches.old) }
    ensures kept { OnOk result (IsKept branches.new) }
    ensures others { OnOk result ((branches.new.is_open ≡ true)
        × (branches.new.labels ≡ branches.old.labels)) }
{
    let place = next(branches.count)?;
    branches.entries.push(component(part, label, place))?;
    branches.count = place;
    Ok(())
}

// Splits the current branch into two, each with one of the components more.
fn fork<'a>(
    branches: &mut Branches<'a>,
    first: Signed<'a>,
    second: Signed<'a>,
    label: u32,
) -> Result<(), NoMemory>
    requires is_open { branches.old.is_open ≡ true }
    requires kept { IsKept branches.old }
    requires within { label < length branches.old.labels }
    ensures forked { OnOk result (branches_of branches.new ≡ put_one (the_branch branches.old)
        (get_or branches.old.labels label []) (the_signed first.entry)
        ∷ put_one (the_branch branches.old) (get_or branches.old.labels label [])
        (the_signed second.entry) ∷ waiting_in branches.old) }
    ensures kept { OnOk result (IsKept branches.new) }
{
    let place = next(branches.count)?;
    branches.forks.push(Fork {
        entries: branches.entries.len(),
        characters: branches.characters.items.len(),
        eigens: branches.eigens.items.len(),
        second: component(second, label, place),
    })?;
    add_component(branches, first, label)
}

fn add_components<'a>(
    branches: &mut Branches<'a>,
    used: Entry<'a>,
    label: u32,
) -> Result<(), NoMemory>
    requires is_open { branches.old.is_open ≡ true }
    requires kept { IsKept branches.old }
    requires within { label < length branches.old.labels }
    requires compound { is_atom (the_formula used.formula.now) ≡ false }
    ensures added { OnOk result (branches_of branches.new ≡ put_for
        (shape_of used.entry.sign (the_formula used.entry.formula.now)) (the_branch branches.old)
        (get_or branches.old.labels label [])
        (components used.entry.sign (the_formula used.entry.formula.now))
        ++ waiting_in branches.old) }
    ensures kept { OnOk result (IsKept branches.new) }
{
    match used.formula.components(used.sign) {
        Components::Literal(_, _) => Ok(()),
        Components::One(a) | Components::Gamma(a) | Components::Delta(a) => {
            add_component(branches, a, label)
        }
        Components::Alpha(a, b) => {
            add_component(branches, a, label)?;
            add_component(branches, b, label)
        }
        Components::Beta(a, b) => fork(branches, a, b, label),
    }
}

/// Adds the components of an entry that is no atom, at the label of a place, to the current branch.
pub fn grow<'a>(
    branches: &mut Branches<'a>,
    number: u32,
    used: Entry<'a>,
    label: u32,
    modal: &ModalArg,
    term: &TermArg,
) -> Result<(), NoMemory>
    requires is_open { branches.old.is_open ≡ true }
    requires kept { IsKept branches.old }
    requires within { used.label < length branches.old.labels }
    requires compound { is_atom (the_formula used.formula.now) ≡ false }
    requires label { IsLabelAt branches.old.labels label (label_then_by
        (the_characters branches.old.characters) (derivation.new_mark branches.old.count ∷ [])
        (get_or branches.old.labels used.label []) (the_modal modal.now)) }
    ensures grown { OnOk result (branches_of branches.new ≡ grown (the_branch branches.old) number
        used.entry.place (the_entry branches.old.labels used.entry) (the_modal modal.now)
        (the_term_arg term.now) ++ waiting_in branches.old) }
    ensures kept { OnOk result (IsKept branches.new) }
{
    let count = branches.count;
    let before = count_before(used.formula, count)?;
    add_images(
        &mut branches.characters,
        &mut branches.eigens,
        count,
        number,
        modal,
        term,
    )?;
    branches.count = before;
    add_components(branches, used, label)
}
