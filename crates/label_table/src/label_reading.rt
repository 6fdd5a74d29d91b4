//! Labels of a table on their own.

ghost use Rattle.std.specs.Prelude.{◌≡◌, ◌<◌, [], get_or, length, IfOk};

use crate::labels::Labels;
use cop_base::NoMemory;
use logic_rules::Label;
use std::alloc::Global;

/// The label at a place.
pub fn label_at(alloc: Global, labels: &Labels, place: u32) -> Result<Label, NoMemory>
    requires { place < length labels.now }
    ensures { IfOk result (λ label. label ≡ get_or labels.now place []) }
{
    let mut marks = Vec::new(alloc);
    let mut at = place;
    while let Some((front, mark)) = labels.last(at) {
        marks.push(mark)?;
        at = front;
    }
    let mut label = Label::new(alloc);
    while let Some(mark) = marks.pop() {
        label.push(mark)?;
    }
    Ok(label)
}
