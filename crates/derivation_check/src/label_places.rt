//! The labels of a text in the table of a state.

ghost use Rattle.std.specs.Prelude.{◌≡◌, [], List, IfOk, IsTrue, OnOk, length};
ghost use Rattle.calculus.specs.Derivations as derivation;
ghost use Rattle.calculus.specs.Versions.{is_among, numbered, stated_modal};
ghost use Rattle.derivation_check.specs.ArgumentView.{
  ArePlaces,
  IsArgumentWithin,
  the_label_argument,
};
ghost use Rattle.derivation_text.specs.Listed.{is_modal_listed};
ghost use Rattle.derivation_text.specs.NumbersView.{the_numbered_modal};
ghost use Rattle.label_table.specs.LabelTable.{IsLabelAt};
ghost use Rattle.label_table.specs.Longer.{IsLonger};

use crate::argument::LabelArgument;
use cop_base::NoMemory;
use derivation_text::{LabelList, NumberedModal};
use label_table::Labels;
use std::alloc::Global;

/// Adds the labels of a text to a table. The answer is their places by their numbers.
pub fn add_labels(
    alloc: Global,
    table: &mut Labels,
    stated: &LabelList,
) -> Result<Vec<u32>, NoMemory>
    ensures places { IfOk result (λ places. ArePlaces stated.now table.new places.items) }
    ensures grown { OnOk result (IsLonger table.old table.new) }
{
    let mut places = Vec::new(alloc);
    for i in 0..stated.count() {
        let label = stated.label(alloc, i + 1)?;
        let place = table.add(&label)?;
        places.push(place)?;
    }
    Ok(places)
}

/// The place of the label of a number.
pub fn place_at(places: &[u32], number: u32) -> u32
    requires { IsTrue (is_among (length places.now) number) }
    ensures { (labels : List derivation.Label) → (table : List derivation.Label)
        → ArePlaces labels table places.now → IsLabelAt table result (numbered labels number []) }
{
    places[number as usize - 1]
}

/// The argument of a step with a modal part, by the place of its label.
pub fn label_argument(places: &[u32], modal: NumberedModal) -> LabelArgument
    requires { IsTrue (is_modal_listed (length places.now) (the_numbered_modal modal)) }
    ensures same { (labels : List derivation.Label) → (table : List derivation.Label)
        → ArePlaces labels table places.now
        → the_label_argument table result ≡ stated_modal labels (the_numbered_modal modal) }
    ensures within { (labels : List derivation.Label) → (table : List derivation.Label)
        → ArePlaces labels table places.now → IsArgumentWithin table result }
{
    match modal {
        NumberedModal::None => LabelArgument::None,
        NumberedModal::To(number) => LabelArgument::To(place_at(places, number)),
        NumberedModal::New(number) => LabelArgument::New(number),
    }
}
