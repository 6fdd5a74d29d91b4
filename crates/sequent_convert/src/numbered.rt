//! Ground labels of a tableau as the labels of its derivation.

ghost use Rattle.std.specs.Prelude.{◌≡◌, IfOk, map};
ghost use Rattle.conversion_theory.specs.Numbering.{number_of, numbered_label, numbered_mark};
ghost use Rattle.formula_core.specs.GroundLists.{the_mark};
ghost use Rattle.logic_rules.specs.MarkView.{the_character};

use cop_base::NoMemory;
use formula_core::GroundMark;
use logic_rules::{Label, Mark};
use name_order::Named;
use std::alloc::Global;

/// The character by its number, 0 where the tableau does not mention it.
pub fn mark_of(named: &Named, mark: GroundMark) -> Mark
    ensures { the_character result ≡ numbered_mark (number_of named.now.names) (the_mark named.now.lists mark) }
{
    match mark {
        GroundMark::New(p, values) => Mark::New(named.mark(p, values).unwrap_or(0)),
        GroundMark::Spare(k) => Mark::Spare(named.spare_mark(k).unwrap_or(0)),
    }
}

/// The label by the numbers of its characters.
pub fn label_of(alloc: Global, named: &Named, label: &[GroundMark]) -> Result<Label, NoMemory>
    ensures { IfOk result (λ w. w ≡ numbered_label (number_of named.now.names) (map (the_mark named.now.lists) label.now)) }
{
    let mut numbered = Label::new(alloc);
    for mark in label {
        numbered.push(mark_of(named, *mark))?;
    }
    Ok(numbered)
}
