//! Images of labels.

ghost use Rattle.std.specs.Prelude.{◌≡◌, ◌++◌, IfOk, OnOk};
ghost use Rattle.godel_transfer.specs.BranchView.{the_characters};
ghost use Rattle.godel_transfer.specs.ImagesView.{AreImages};
ghost use Rattle.godel_transfer.specs.Transfer.{label_image, mark_image};
ghost use Rattle.logic_rules.specs.MarkView.{the_character};

use crate::images::Images;
use cop_base::NoMemory;
use logic_rules::{Label, Mark};
use std::alloc::Global;

// Adds the image of a mark to a label: what no step introduced is left out.
fn push_image(characters: &Images, label: &mut Label, mark: Mark) -> Result<(), NoMemory>
    requires images { AreImages characters.now }
    ensures { OnOk result (label.new
        ≡ label.old ++ mark_image (the_characters characters.now) (the_character mark)) }
{
    match mark {
        Mark::New(number) => match characters.find(number) {
            Some(image) => label.push(Mark::New(image)),
            None => Ok(()),
        },
        Mark::Spare(_) => Ok(()),
    }
}

/// The image of a label.
pub fn label_image(alloc: Global, characters: &Images, label: &Label) -> Result<Label, NoMemory>
    requires images { AreImages characters.now }
    ensures { IfOk result (λ image. image ≡ label_image (the_characters characters.now) label.now) }
{
    let mut image = Label::new(alloc);
    for mark in label.items() {
        push_image(characters, &mut image, *mark)?;
    }
    Ok(image)
}
