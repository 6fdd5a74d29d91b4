//! Systems of equations between labels.

ghost use Rattle.std.specs.Prelude.{◌≡◌, ◌++◌, ◌∷◌, [], OnErr, OnOk, map};
ghost use Rattle.term_store.specs.SystemView.{the_equation, the_pair};

use crate::clause::{CellAtom, GammaList, Prefix, RefList};
use cop_base::NoMemory;
use std::alloc::Global;
use std::marker::Model;

/// Two labels that are to be equal.
#[derive(Drop)]
pub struct Equation {
    pub left: Prefix,
    pub right: Prefix,
}

/// Equations in order.
#[derive(Drop)]
pub struct EquationList {
    items: Vec<Equation>,
}

impl Model for EquationList {
    ghost use Rattle.std.specs.Prelude.{List, map};
    ghost use Rattle.store_theory.specs.Systems as tree;

    ghost Value = { List tree.Equation };

    ghost use Rattle.term_store.specs.SystemView.{the_equation};

    ghost view = { λ a. map the_equation a.items.items };
}

impl EquationList {
    /// The empty list.
    pub fn new(alloc: Global) -> EquationList
        ensures { result ≡ [] }
    {
        EquationList {
            items: Vec::new(alloc),
        }
    }

    /// Appends the item. Want of memory leaves the list as it was.
    pub fn push(&mut self, item: Equation) -> Result<(), NoMemory>
        ensures ok { OnOk result (self.new ≡ self.old ++ the_equation item ∷ []) }
        ensures err { OnErr result (self.new ≡ self.old) }
    {
        self.items.push(item)?;
        Ok(())
    }

    /// The items in order.
    pub fn items(&self) -> &[Equation]
        ensures { map the_equation result.now ≡ self.now }
    {
        self.items.as_slice()
    }
}

/// Pairs of goals of one branch, each with the upper goal first.
#[derive(Drop)]
pub struct PairList {
    items: Vec<(CellAtom, CellAtom)>,
}

impl Model for PairList {
    ghost use Rattle.std.specs.Prelude.{List, map};
    ghost use Rattle.store_theory.specs.Systems as tree;

    ghost Value = { List tree.Pair };

    ghost use Rattle.term_store.specs.SystemView.{the_pair};

    ghost view = { λ a. map the_pair a.items.items };
}

impl PairList {
    /// The empty list.
    pub fn new(alloc: Global) -> PairList
        ensures { result ≡ [] }
    {
        PairList {
            items: Vec::new(alloc),
        }
    }

    /// Appends the item. Want of memory leaves the list as it was.
    pub fn push(&mut self, item: (CellAtom, CellAtom)) -> Result<(), NoMemory>
        ensures ok { OnOk result (self.new ≡ self.old ++ the_pair item ∷ []) }
        ensures err { OnErr result (self.new ≡ self.old) }
    {
        self.items.push(item)?;
        Ok(())
    }

    /// The items in order.
    pub fn items(&self) -> &[(CellAtom, CellAtom)]
        ensures { map the_pair result.now ≡ self.now }
    {
        self.items.as_slice()
    }
}

/// What a list of choices asks of labels (Otten's prefix equations): equations, the strings of all
/// nu steps in the order of building, the number of pi steps, the gamma terms with their labels,
/// and the pairs of goals that must differ.
#[derive(Drop)]
pub struct System {
    pub equations: EquationList,
    pub strings: RefList,
    pub pis: u32,
    pub gammas: GammaList,
    pub pairs: PairList,
}
