//! The labels of a derivation by their numbers.

ghost use Rattle.std.specs.Prelude.{◌≡◌, ◌++◌, ◌∷◌, [], length, IsTrue, IfOk, OnErr, OnOk};
ghost use Rattle.calculus.specs.Versions.{is_among, number_in, numbered, same_label};
ghost use Rattle.derivation_text.specs.Entering.{with_label};
ghost use Rattle.derivation_text.specs.Listing.{AreApart};

use crate::place_list::PlaceList;
use cop_base::NoMemory;
use label_table::{Labels, label_at};
use logic_rules::Label;
use std::alloc::Global;
use std::marker::Model;

/// Labels in the order of their numbers, from 1. Each label is kept once, however often it is listed.
#[derive(Drop)]
pub struct LabelList {
    table: Labels,
    places: PlaceList,
}

impl Model for LabelList {
    ghost use Rattle.std.specs.Prelude.{[], List};
    ghost use Rattle.calculus.specs.Derivations as derivation;
    ghost use Rattle.derivation_text.specs.Listing.{AreApart, AreWithin, labels_at};

    ghost Value = { List derivation.Label };

    ghost view = { λ s. labels_at s.table s.places };

    ghost invariant = { λ s. AreWithin s.table s.places × AreApart s.table [] };
}

impl LabelList {
    /// No labels.
    pub(crate) fn new(alloc: Global) -> LabelList
        ensures { result ≡ [] }
    {
        LabelList {
            table: Labels::new(alloc),
            places: PlaceList::new(alloc),
        }
    }

    /// How many labels are listed.
    pub fn count(&self) -> u32
        ensures { result ≡ length self.now }
    {
        self.places.count()
    }

    /// Lists a label under the next number, also one that is listed.
    pub(crate) fn push(&mut self, label: &Label) -> Result<(), NoMemory>
        ensures ok { OnOk result (self.new ≡ self.old ++ label.now ∷ []) }
        ensures err { OnErr result (self.new ≡ self.old) }
    {
        let place = self.table.add(label)?;
        self.places.list(place)?;
        Ok(())
    }

    /// The number of a label, which is listed under the next one where it is new.
    pub(crate) fn enter(&mut self, label: &Label) -> Result<u32, NoMemory>
        ensures listed { OnOk result (self.new ≡ with_label self.old label.now) }
        ensures number { IfOk result (λ k. k ≡ number_in same_label self.new label.now) }
        ensures err { OnErr result (self.new ≡ self.old) }
    {
        let place = self.table.add(label)?;
        let known = self.places.number(place);
        if known > 0 {
            return Ok(known);
        }
        let number = self.places.list(place)?;
        Ok(number)
    }

    /// Whether no label is listed twice.
    pub(crate) fn are_apart(&self) -> bool
        ensures { IsTrue result → AreApart self.now [] }
    {
        self.places.are_apart()
    }

    /// The label of a number.
    pub fn label(&self, alloc: Global, number: u32) -> Result<Label, NoMemory>
        requires { IsTrue (is_among (length self.now) number) }
        ensures { IfOk result (λ w. w ≡ numbered self.now number []) }
    {
        let label = label_at(alloc, &self.table, self.places.place(number))?;
        Ok(label)
    }
}
