//! The symbols of a problem.

ghost use Rattle.std.specs.Prelude.{◌≡◌, ◌≢◌, ◌<◌, ◌≤◌, ◌↔◌, ◌++◌, ◌∷◌, [], List, Some, length};
ghost use Rattle.std.specs.Prelude.{map, slice_get, Contains, IsTrue, IsNone, IfSome, IfOk, OnOk};
ghost use Rattle.std.specs.Prelude.{OnErr};
ghost use Rattle.calculus.specs.Problems.{are_distinct};
ghost use Rattle.formula_core.specs.SymbolView.{the_symbol};

use calculus::limits::MAX_SYMBOLS;
pub use calculus::symbol::SymbolClass;
use cop_base::{NoMemory, SymbolId, Text};
use indexmap::IndexSet;
use std::alloc::Global;
use std::marker::Model;

/// A symbol. Two are equal where name, class and arity are.
#[derive(PartialEq, Eq, Hash, Drop)]
pub struct Symbol {
    pub name: Text,
    pub class: SymbolClass,
    pub arity: u32,
}

/// Why a symbol is not added.
#[derive(Clone, Copy, PartialEq, Eq)]
pub enum AddFault {
    /// The symbol is new and there are as many as there may be.
    Full,
    NoMemory,
}

/// Distinct symbols in the order in which they were first added.
#[derive(Drop)]
pub struct Symbols {
    set: IndexSet<Symbol>,
}

impl Model for Symbols {
    ghost use Rattle.std.specs.Prelude.{List, ◌≤◌, IsTrue, length, map};
    ghost use Rattle.calculus.specs.declared.limits.TheConstants.{MAX_SYMBOLS};
    ghost use Rattle.calculus.specs.Problems.{are_distinct};
    ghost use Rattle.calculus.specs.Syntax as tree;
    ghost use Rattle.formula_core.specs.SymbolView.{the_symbol};

    ghost Value = { List tree.Symbol };

    ghost view = { λ s. map the_symbol s.set.keys };

    ghost invariant = { λ s. (length s.set.keys ≤ MAX_SYMBOLS)
        × IsTrue (are_distinct (map the_symbol s.set.keys)) };
}

impl Symbols {
    /// No list has more symbols.
    pub const MAX_LEN: usize = MAX_SYMBOLS;

    /// The empty list.
    pub fn new(alloc: Global) -> Symbols
        ensures { result ≡ [] }
    {
        Symbols {
            set: IndexSet::new(alloc),
        }
    }

    /// How many symbols there are.
    pub fn len(&self) -> usize
        ensures len { result ≡ length self.now }
        ensures most { result ≤ Self.MAX_LEN }
        ensures distinct { IsTrue (are_distinct self.now) }
    {
        self.set.len()
    }

    /// The symbols in order.
    pub fn items(&self) -> &[Symbol]
        ensures { map the_symbol result.now ≡ self.now }
    {
        self.set.as_slice()
    }

    /// The symbol at a place of the list.
    pub fn get(&self, id: SymbolId) -> &Symbol
        requires { id.0 < length self.now }
        ensures { slice_get self.now id.0 ≡ Some (the_symbol result.now) }
    {
        &self.set.as_slice()[id.0 as usize]
    }

    /// The place of `s`, where it is one of the list.
    pub fn find(&self, s: &Symbol) -> Option<SymbolId>
        ensures place { IfSome result (λ id. slice_get self.now id.0 ≡ Some (the_symbol s.now)) }
        ensures absent { IsNone result ↔ ¬ (Contains self.now (the_symbol s.now)) }
    {
        match self.set.get_full(s) {
            Some((index, _)) => Some(SymbolId(index as u32)),
            None => None,
        }
    }

    /// The place of `s`, which is appended where it is new.
    #[tactic(auto, using(crate::proofs::SymbolEq::adding))]
    pub fn add(&mut self, s: Symbol) -> Result<SymbolId, AddFault>
        ensures place { IfOk result (λ id. slice_get self.new id.0 ≡ Some (the_symbol s)) }
        ensures known { Contains self.old (the_symbol s) → OnOk result (self.new ≡ self.old) }
        ensures new { ¬ (Contains self.old (the_symbol s))
            → OnOk result (self.new ≡ self.old ++ the_symbol s ∷ []) }

        // `Full` comes exactly where the symbol is new and there is no room for it.
        ensures full { (result ≡ Err AddFault.Full)
            ↔ (¬ (Contains self.old (the_symbol s)) × (length self.old ≡ Self.MAX_LEN)) }
        ensures err { OnErr result (self.new ≡ self.old) }
    {
        if let Some(id) = self.find(&s) {
            return Ok(id);
        }
        if self.len() == Self::MAX_LEN {
            return Err(AddFault::Full);
        }
        let (index, _) = match self.set.insert_full(s) {
            Ok(added) => added,
            Err(_) => return Err(AddFault::NoMemory),
        };
        Ok(SymbolId(index as u32))
    }
}
