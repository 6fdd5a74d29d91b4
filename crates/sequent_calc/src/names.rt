//! The names of a derivation and where they may stand.

ghost use Rattle.std.specs.Option.{option_map};
ghost use Rattle.std.specs.Prelude.{◌≡◌, ◌==◌, ◌++◌, ◌∷◌, [], find, map, option_copied, OnOk};
ghost use Rattle.std.specs.Prelude.{OnErr};
ghost use Rattle.sequent_calc.specs.NamesView.{the_eigen, the_spare};

use crate::numbered::{found, may_follow};
use cop_base::NoMemory;
use logic_rules::Label;
use std::alloc::Global;
use std::marker::Model;

/// Where a spare constant lies: in every domain, or in that of one label.
#[derive(Drop)]
pub enum Home {
    Anywhere,
    At(Label),
}

/// The eigenvariables of a derivation with their homes, in the order in which they were added. Any
/// numbers may stand here: that they rise is a demand of the text of a derivation.
#[derive(Drop)]
pub struct EigenList {
    items: Vec<(u32, Label)>,
    // Whether the numbers rise, so that a name is soon found.
    rises: bool,
}

impl Model for EigenList {
    ghost use Rattle.std.specs.List.Sorted.{IsNonDecreasingBy};
    ghost use Rattle.std.specs.Prelude.{◌≡◌, List, map, true};
    ghost use Rattle.calculus.specs.Derivations as derivation;
    ghost use Rattle.sequent_calc.specs.NamesView.{the_eigen};

    ghost Value = { List derivation.EigenName };

    ghost view = { λ a. map the_eigen a.items.items };

    ghost invariant = { λ a. a.rises ≡ true → IsNonDecreasingBy (λ x. x.0) a.items.items };
}

impl EigenList {
    /// The list without names.
    pub fn new(alloc: Global) -> EigenList
        ensures { result ≡ [] }
    {
        EigenList {
            items: Vec::new(alloc),
            rises: true,
        }
    }

    /// Adds an eigenvariable and its home at the end. Want of memory leaves the list as it was.
    pub fn push(&mut self, item: (u32, Label)) -> Result<(), NoMemory>
        ensures ok { OnOk result (self.new ≡ self.old ++ the_eigen item ∷ []) }
        ensures err { OnErr result (self.new ≡ self.old) }
    {
        let rises = self.rises && may_follow(self.items.as_slice(), item.0);
        self.items.push(item)?;
        self.rises = rises;
        Ok(())
    }

    /// The first eigenvariable of the number.
    pub fn named(&self, number: u32) -> Option<&(u32, Label)>
        ensures { option_map the_eigen (option_copied result)
            ≡ find (λ x. x.number == number) self.now }
    {
        found(self.items.as_slice(), self.rises, number)
    }

    /// The eigenvariables with their homes, in order.
    pub fn items(&self) -> &[(u32, Label)]
        ensures { map the_eigen result.now ≡ self.now }
    {
        self.items.as_slice()
    }
}

/// The spare constants of a derivation with their homes, in the order in which they were added. Any
/// numbers may stand here: that they rise is a demand of the text of a derivation.
#[derive(Drop)]
pub struct SpareList {
    items: Vec<(u32, Home)>,
    // Whether the numbers rise, so that a name is soon found.
    rises: bool,
}

impl Model for SpareList {
    ghost use Rattle.std.specs.List.Sorted.{IsNonDecreasingBy};
    ghost use Rattle.std.specs.Prelude.{◌≡◌, List, map, true};
    ghost use Rattle.calculus.specs.Derivations as derivation;
    ghost use Rattle.sequent_calc.specs.NamesView.{the_spare};

    ghost Value = { List derivation.SpareName };

    ghost view = { λ a. map the_spare a.items.items };

    ghost invariant = { λ a. a.rises ≡ true → IsNonDecreasingBy (λ x. x.0) a.items.items };
}

impl SpareList {
    /// The list without names.
    pub fn new(alloc: Global) -> SpareList
        ensures { result ≡ [] }
    {
        SpareList {
            items: Vec::new(alloc),
            rises: true,
        }
    }

    /// Adds a spare constant and its home at the end. Want of memory leaves the list as it was.
    pub fn push(&mut self, item: (u32, Home)) -> Result<(), NoMemory>
        ensures ok { OnOk result (self.new ≡ self.old ++ the_spare item ∷ []) }
        ensures err { OnErr result (self.new ≡ self.old) }
    {
        let rises = self.rises && may_follow(self.items.as_slice(), item.0);
        self.items.push(item)?;
        self.rises = rises;
        Ok(())
    }

    /// The first spare constant of the number.
    pub fn named(&self, number: u32) -> Option<&(u32, Home)>
        ensures { option_map the_spare (option_copied result)
            ≡ find (λ x. x.number == number) self.now }
    {
        found(self.items.as_slice(), self.rises, number)
    }

    /// The spare constants with their homes, in order.
    pub fn items(&self) -> &[(u32, Home)]
        ensures { map the_spare result.now ≡ self.now }
    {
        self.items.as_slice()
    }
}

/// The eigenvariables and spare constants that a derivation may use. Of two names of one sort with
/// the same number the first counts.
#[derive(Drop)]
pub struct Names {
    pub eigens: EigenList,
    pub spares: SpareList,
}

impl Names {
    /// No names.
    pub fn new(alloc: Global) -> Names
        ensures eigens { result.eigens ≡ [] }
        ensures spares { result.spares ≡ [] }
    {
        Names {
            eigens: EigenList::new(alloc),
            spares: SpareList::new(alloc),
        }
    }
}
