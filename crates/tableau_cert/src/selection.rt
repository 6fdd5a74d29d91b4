//! Selections that are copied.

ghost use Rattle.std.specs.Prelude.{◌≡◌, IfOk};

use cop_base::NoMemory;
use std::alloc::Global;
use tableau_core::Selection;

/// The same sides again.
pub fn copied(alloc: Global, selection: &Selection) -> Result<Selection, NoMemory>
    ensures { IfOk result (λ s. s ≡ selection.now) }
{
    let mut all = Selection::new(alloc);
    let items = selection.items();
    for side in items {
        all.push(*side)?;
    }
    Ok(all)
}
