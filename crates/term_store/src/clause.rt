//! Clauses as patterns and as cells.

ghost use Rattle.std.specs.Prelude.{◌≡◌, ◌++◌, ◌∷◌, [], IfOk, OnErr, OnOk, map};
ghost use Rattle.term_store.specs.RefView.{the_place};
ghost use Rattle.term_store.specs.ClauseView.{the_atom, the_gamma, the_pattern_atom, the_pattern_gamma};

use crate::cell::{Ref, Variables};
use crate::pattern::{Pattern, Patterns};
use calculus::sign::Sign;
use calculus::sort::Sort;
use cop_base::{NoMemory, SymbolId};
use std::alloc::Global;
use std::marker::Model;

/// References in order.
#[derive(Drop)]
pub struct RefList {
    pub(crate) items: Vec<Ref>,
}

impl Model for RefList {
    ghost use Rattle.std.specs.Prelude.{List, ℕ, map};

    ghost Value = { List ℕ };

    ghost use Rattle.term_store.specs.RefView.{the_place};

    ghost view = { λ a. map the_place a.items.items };
}

impl RefList {
    /// The empty list.
    pub fn new(alloc: Global) -> RefList
        ensures { result ≡ [] }
    {
        RefList {
            items: Vec::new(alloc),
        }
    }

    /// The empty list, with room for so many items.
    pub fn with_capacity(alloc: Global, count: usize) -> Result<RefList, NoMemory>
        ensures { IfOk result (λ list. list ≡ []) }
    {
        let items = Vec::with_capacity(alloc, count)?;
        Ok(RefList { items })
    }

    /// Appends the item. Want of memory leaves the list as it was.
    pub fn push(&mut self, item: Ref) -> Result<(), NoMemory>
        ensures ok { OnOk result (self.new ≡ self.old ++ the_place item ∷ []) }
        ensures err { OnErr result (self.new ≡ self.old) }
    {
        self.items.push(item)?;
        Ok(())
    }

    /// The items in order.
    pub fn items(&self) -> &[Ref]
        ensures { map the_place result.now ≡ self.now }
    {
        self.items.as_slice()
    }
}

/// Marks and strings that join a label.
pub type Prefix = RefList;

/// A signed atom at a label, by cells.
#[derive(Drop)]
pub struct CellAtom {
    pub sign: Sign,
    pub symbol: SymbolId,
    pub args: RefList,
    pub label: Prefix,
}

/// Atoms in order.
#[derive(Drop)]
pub struct CellAtomList {
    pub(crate) items: Vec<CellAtom>,
}

impl Model for CellAtomList {
    ghost use Rattle.std.specs.Prelude.{List, ℕ, map};
    ghost use Rattle.store_theory.specs.Systems as tree;

    ghost Value = { List tree.CellAtom };

    ghost use Rattle.term_store.specs.ClauseView.{the_atom};

    ghost view = { λ a. map the_atom a.items.items };
}

impl CellAtomList {
    /// The empty list.
    pub fn new(alloc: Global) -> CellAtomList
        ensures { result ≡ [] }
    {
        CellAtomList {
            items: Vec::new(alloc),
        }
    }

    /// Appends the item. Want of memory leaves the list as it was.
    pub fn push(&mut self, item: CellAtom) -> Result<(), NoMemory>
        ensures ok { OnOk result (self.new ≡ self.old ++ the_atom item ∷ []) }
        ensures err { OnErr result (self.new ≡ self.old) }
    {
        self.items.push(item)?;
        Ok(())
    }

    /// The items in order.
    pub fn items(&self) -> &[CellAtom]
        ensures { map the_atom result.now ≡ self.now }
    {
        self.items.as_slice()
    }
}

/// A gamma term and its label, by cells.
#[derive(Drop)]
pub struct GammaUse {
    pub term: Ref,
    pub label: Prefix,
}

/// Gamma terms in order.
#[derive(Drop)]
pub struct GammaList {
    pub(crate) items: Vec<GammaUse>,
}

impl Model for GammaList {
    ghost use Rattle.std.specs.Prelude.{List, ℕ, map};
    ghost use Rattle.store_theory.specs.Stores as tree;

    ghost Value = { List tree.GammaCell };

    ghost use Rattle.term_store.specs.ClauseView.{the_gamma};

    ghost view = { λ a. map the_gamma a.items.items };
}

impl GammaList {
    /// The empty list.
    pub fn new(alloc: Global) -> GammaList
        ensures { result ≡ [] }
    {
        GammaList {
            items: Vec::new(alloc),
        }
    }

    /// Appends the item. Want of memory leaves the list as it was.
    pub fn push(&mut self, item: GammaUse) -> Result<(), NoMemory>
        ensures ok { OnOk result (self.new ≡ self.old ++ the_gamma item ∷ []) }
        ensures err { OnErr result (self.new ≡ self.old) }
    {
        self.items.push(item)?;
        Ok(())
    }

    /// The items in order.
    pub fn items(&self) -> &[GammaUse]
        ensures { map the_gamma result.now ≡ self.now }
    {
        self.items.as_slice()
    }
}

/// A signed atom at a label, by patterns.
#[derive(Drop)]
pub struct PatternAtom {
    pub sign: Sign,
    pub symbol: SymbolId,
    pub args: Patterns,
    pub label: Patterns,
}

/// Atoms in order.
#[derive(Drop)]
pub struct PatternAtomList {
    items: Vec<PatternAtom>,
}

impl Model for PatternAtomList {
    ghost use Rattle.std.specs.Prelude.{List, ℕ, map};
    ghost use Rattle.store_theory.specs.Patterns as tree;

    ghost Value = { List tree.PatternAtom };

    ghost use Rattle.std.specs.Coded.{codes};
    ghost use Rattle.store_theory.specs.Patterns.{pattern_code};

    ghost coded = { Prim.hlevel (codes, pattern_code) };

    ghost use Rattle.term_store.specs.ClauseView.{the_pattern_atom};

    ghost view = { λ a. map the_pattern_atom a.items.items };
}

impl PatternAtomList {
    /// The empty list.
    pub fn new(alloc: Global) -> PatternAtomList
        ensures { result ≡ [] }
    {
        PatternAtomList {
            items: Vec::new(alloc),
        }
    }

    /// Appends the item. Want of memory leaves the list as it was.
    pub fn push(&mut self, item: PatternAtom) -> Result<(), NoMemory>
        ensures ok { OnOk result (self.new ≡ self.old ++ the_pattern_atom item ∷ []) }
        ensures err { OnErr result (self.new ≡ self.old) }
    {
        self.items.push(item)?;
        Ok(())
    }

    /// Gives back the room that no item has.
    pub fn shrink_to_fit(&mut self)
        ensures { self.new ≡ self.old }
    {
        self.items.shrink_to_fit();
    }

    /// The items in order.
    pub fn items(&self) -> &[PatternAtom]
        ensures { map the_pattern_atom result.now ≡ self.now }
    {
        self.items.as_slice()
    }
}

/// A gamma term and its label, by patterns.
#[derive(Drop)]
pub struct PatternGamma {
    pub term: Pattern,
    pub label: Patterns,
}

/// Gamma terms in order.
#[derive(Drop)]
pub struct PatternGammaList {
    items: Vec<PatternGamma>,
}

impl Model for PatternGammaList {
    ghost use Rattle.std.specs.Prelude.{List, ℕ, map};
    ghost use Rattle.store_theory.specs.Patterns as tree;

    ghost Value = { List tree.PatternGamma };

    ghost use Rattle.std.specs.Coded.{codes};
    ghost use Rattle.store_theory.specs.Patterns.{pattern_code};

    ghost coded = { Prim.hlevel (codes, pattern_code) };

    ghost use Rattle.term_store.specs.ClauseView.{the_pattern_gamma};

    ghost view = { λ a. map the_pattern_gamma a.items.items };
}

impl PatternGammaList {
    /// The empty list.
    pub fn new(alloc: Global) -> PatternGammaList
        ensures { result ≡ [] }
    {
        PatternGammaList {
            items: Vec::new(alloc),
        }
    }

    /// Appends the item. Want of memory leaves the list as it was.
    pub fn push(&mut self, item: PatternGamma) -> Result<(), NoMemory>
        ensures ok { OnOk result (self.new ≡ self.old ++ the_pattern_gamma item ∷ []) }
        ensures err { OnErr result (self.new ≡ self.old) }
    {
        self.items.push(item)?;
        Ok(())
    }

    /// Gives back the room that no item has.
    pub fn shrink_to_fit(&mut self)
        ensures { self.new ≡ self.old }
    {
        self.items.shrink_to_fit();
    }

    /// The items in order.
    pub fn items(&self) -> &[PatternGamma]
        ensures { map the_pattern_gamma result.now ≡ self.now }
    {
        self.items.as_slice()
    }
}

/// Sorts in order.
#[derive(Drop)]
pub struct SortList {
    items: Vec<Sort>,
}

impl Model for SortList {
    ghost use Rattle.std.specs.Prelude.{List};
    ghost use Rattle.calculus.specs.declared.sort.Sort as declared;

    ghost Value = { List declared.Sort };

    ghost view = { λ a. a.items.items };
}

impl SortList {
    /// The empty list.
    pub fn new(alloc: Global) -> SortList
        ensures { result ≡ [] }
    {
        SortList {
            items: Vec::new(alloc),
        }
    }

    /// Appends the item. Want of memory leaves the list as it was.
    pub fn push(&mut self, item: Sort) -> Result<(), NoMemory>
        ensures ok { OnOk result (self.new ≡ self.old ++ item ∷ []) }
        ensures err { OnErr result (self.new ≡ self.old) }
    {
        self.items.push(item)?;
        Ok(())
    }

    /// The items in order.
    pub fn items(&self) -> &[Sort]
        ensures { result.now ≡ self.now }
    {
        self.items.as_slice()
    }
}

/// A clause by patterns: its literals, the strings of its nu steps, the number of its pi steps, its gamma terms, and the
/// sorts of its variables.
#[derive(Drop)]
pub struct Template {
    pub literals: PatternAtomList,
    pub strings: Patterns,
    pub pis: u32,
    pub gammas: PatternGammaList,
    pub sorts: SortList,
}

/// A clause by cells, over these variables.
#[derive(Drop)]
pub struct CopiedClause {
    pub variables: Variables,
    pub literals: CellAtomList,
    pub strings: RefList,
    pub pis: u32,
    pub gammas: GammaList,
}
