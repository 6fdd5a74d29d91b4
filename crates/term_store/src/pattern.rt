//! Patterns of terms and marks.

ghost use Rattle.std.specs.Prelude.{◌≡◌, ◌++◌, ◌∷◌, [], IfOk, OnErr, OnOk, map};
ghost use Rattle.term_store.specs.PatternItems.{items_of};
ghost use Rattle.term_store.specs.PatternView.{the_pattern};

use cop_base::{NoMemory, PosId, SymbolId};
use std::alloc::Global;
use std::marker::Model;
use std::rc::Rc;

/// A term or mark with numbered variables.
#[derive(Drop)]
#[cycle(pattern)]
pub enum Pattern {
    Var(u32),
    Fun(SymbolId, Patterns),
    Eigen(PosId, Patterns),
    New(PosId, Patterns),
}

/// Patterns in order: parts, arguments, or the marks and strings of a label. Lists share their items where one was made
/// of the other by `shared`, so that a label and the values of a mark are kept once for all literals that have them.
#[derive(Drop)]
#[cycle(pattern)]
pub struct Patterns {
    alloc: Global,
    // There is nothing where the list is empty.
    items: Option<Rc<Vec<Pattern>>>,
}

impl Model for Patterns {
    ghost use Rattle.std.specs.Prelude.{List, map};
    ghost use Rattle.store_theory.specs.Patterns as tree;
    ghost use Rattle.store_theory.specs.Patterns.{pattern_list_code, pattern_list_size};

    ghost Value = { List tree.Pattern };

    ghost coded = { pattern_list_code };

    ghost use Rattle.term_store.specs.PatternView.{the_pattern};
    ghost use Rattle.term_store.specs.PatternItems.{items_of};

    ghost view = { λ a. map the_pattern (items_of a.items) };

    ghost size = { pattern_list_size };

    ghost use Rattle.term_store.specs.PatternFalls.{shared-deep};

    ghost size_decreases = { λ a _. shared-deep a };
}

// The items, with one owner.
fn owned(alloc: Global, items: Vec<Pattern>) -> Result<Option<Rc<Vec<Pattern>>>, NoMemory>
    ensures { IfOk result (λ shared. items_of shared ≡ items.items) }
{
    let items = Rc::new(alloc, items)?;
    Ok(Some(items))
}

// The items in a list of their own, with room for one more.
fn copied(alloc: Global, items: &[Pattern]) -> Result<Vec<Pattern>, NoMemory>
    ensures { IfOk result (λ copied. map the_pattern copied.items ≡ map the_pattern items.now) }
{
    let mut copied = Vec::with_capacity(alloc, items.len() + 1)?;
    for item in items {
        copied.push(item.shared()?)?;
    }
    Ok(copied)
}

// Appends the item: in place, where the items have one owner.
fn push_to(alloc: Global, items: &mut Rc<Vec<Pattern>>, item: Pattern) -> Result<(), NoMemory>
    ensures ok { OnOk result (map the_pattern items.new.value.items ≡ map the_pattern items.old.value.items ++ the_pattern item ∷ []) }
    ensures err { OnErr result (map the_pattern items.new.value.items ≡ map the_pattern items.old.value.items) }
{
    match Rc::get_mut(items) {
        Some(own) => {
            own.push(item)?;
            Ok(())
        }
        None => {
            let mut own = copied(alloc, items.as_slice())?;
            own.push(item)?;
            *items = Rc::new(alloc, own)?;
            Ok(())
        }
    }
}

impl Pattern {
    /// The same pattern, which shares its parts with this one.
    pub fn shared(&self) -> Result<Pattern, NoMemory>
        ensures { IfOk result (λ p. the_pattern p ≡ the_pattern self.now) }
    {
        match self {
            Pattern::Var(k) => Ok(Pattern::Var(*k)),
            Pattern::Fun(f, parts) => Ok(Pattern::Fun(*f, parts.shared()?)),
            Pattern::Eigen(p, parts) => Ok(Pattern::Eigen(*p, parts.shared()?)),
            Pattern::New(p, parts) => Ok(Pattern::New(*p, parts.shared()?)),
        }
    }
}

impl Patterns {
    /// The empty list.
    pub fn new(alloc: Global) -> Patterns
        ensures { result ≡ [] }
    {
        Patterns { alloc, items: None }
    }

    /// The empty list, with room for so many items.
    pub fn with_capacity(alloc: Global, count: usize) -> Result<Patterns, NoMemory>
        ensures { IfOk result (λ list. list ≡ []) }
    {
        if count == 0 {
            return Ok(Patterns::new(alloc));
        }
        let items = owned(alloc, Vec::with_capacity(alloc, count)?)?;
        Ok(Patterns { alloc, items })
    }

    /// The same list, which shares its items with this one.
    pub fn shared(&self) -> Result<Patterns, NoMemory>
        ensures { IfOk result (λ list. list ≡ self.now) }
    {
        match &self.items {
            None => Ok(Patterns::new(self.alloc)),
            Some(items) => {
                let items = Some(items.clone()?);
                Ok(Patterns {
                    alloc: self.alloc,
                    items,
                })
            }
        }
    }

    /// Appends the item. Want of memory leaves the list as it was.
    pub fn push(&mut self, item: Pattern) -> Result<(), NoMemory>
        ensures ok { OnOk result (self.new ≡ self.old ++ the_pattern item ∷ []) }
        ensures err { OnErr result (self.new ≡ self.old) }
    {
        match &mut self.items {
            Some(items) => push_to(self.alloc, items, item),
            None => {
                let mut own = Vec::new(self.alloc);
                own.push(item)?;
                self.items = owned(self.alloc, own)?;
                Ok(())
            }
        }
    }

    /// The items in order.
    pub fn items(&self) -> &[Pattern]
        ensures { map the_pattern result.now ≡ self.now }
    {
        match &self.items {
            None => &[],
            Some(items) => items.as_slice(),
        }
    }
}
