//! Labelled signed formulas, and lists of them.

ghost use Rattle.std.specs.Prelude.{◌≡◌, ◌++◌, ◌∷◌, [], map, IfOk, OnOk, OnErr};
ghost use Rattle.calculus.specs.Derivations.{first_sequent};
ghost use Rattle.sequent_calc.specs.EntryView.{the_entry};

use cop_base::NoMemory;
use formula_core::{Formula, Sign};
use logic_rules::{Label, Problem};
use std::alloc::{AllocError, Global};
use std::marker::Model;

/// A signed formula at a label. Sign T marks what is given, F what is to be shown.
#[derive(Drop)]
pub struct Entry {
    pub sign: Sign,
    pub formula: Formula,
    /// The prefix in Wallen's sense: the world at which the formula is given or to be shown.
    pub label: Label,
}

impl Entry {
    /// The one entry that a derivation of the problem begins with: its formula, to be shown at the
    /// root.
    pub fn first(alloc: Global, problem: &Problem) -> Result<Entry, NoMemory>
        ensures { IfOk result (λ e. the_entry e ∷ [] ≡ first_sequent problem.now) }
    {
        Ok(Entry {
            sign: Sign::F,
            formula: problem.formula().copy(alloc)?,
            label: Label::new(alloc),
        })
    }
}

/// A list of entries, which steps number from 1.
#[derive(Drop)]
pub struct Sequent {
    items: Vec<Entry>,
}

impl Model for Sequent {
    ghost use Rattle.std.specs.Prelude.{map};
    ghost use Rattle.calculus.specs.Derivations as derivation;
    ghost use Rattle.calculus.specs.Codes.{formula_code};
    ghost use Rattle.std.specs.Coded.{codes};
    ghost use Rattle.sequent_calc.specs.EntryView.{the_entry};

    ghost Value = { derivation.Sequent };

    ghost coded = { Prim.hlevel (codes, formula_code) };

    ghost view = { λ s. map the_entry s.items.items };
}

impl Sequent {
    /// The sequent without entries.
    pub fn new(alloc: Global) -> Sequent
        ensures { result ≡ [] }
    {
        Sequent {
            items: Vec::new(alloc),
        }
    }

    /// Adds an entry at the end, which gets the next number. Want of memory leaves the sequent as
    /// it was.
    pub fn push(&mut self, item: Entry) -> Result<(), NoMemory>
        ensures ok { OnOk result (self.new ≡ self.old ++ the_entry item ∷ []) }
        ensures err { OnErr result (self.new ≡ self.old) }
    {
        self.items.push(item)?;
        Ok(())
    }

    /// The entries in order; the first has number 1.
    pub fn items(&self) -> &[Entry]
        ensures { map the_entry result.now ≡ self.now }
    {
        self.items.as_slice()
    }

    /// The entries, moved out of the sequent.
    pub fn into_items(self) -> Vec<Entry>
        ensures { map the_entry result.items ≡ self }
    {
        self.items
    }
}
