//! Sets of names.

ghost use Rattle.std.specs.Prelude.{◌≡◌, ◌++◌, ◌∷◌, [], List, ℕ, length, IfOk, OnOk};
ghost use Rattle.std.specs.List.{list_any};
ghost use Rattle.problem_build.specs.Adding.{with_new};
ghost use Rattle.problem_build.specs.Expansion.{same_name};
ghost use Rattle.problem_build.specs.Walk.{names_of};

use cop_base::{NoMemory, Text};
use indexmap::IndexSet;
use std::alloc::Global;
use std::marker::Model;

/// So many names are looked through, and those after them are looked up by their hashes: most
/// formulas have few variables.
const FEW: usize = 8;

/// Whether the name is one of these.
pub fn is_among(name: &Text, names: &[Text]) -> bool
    ensures { result ≡ list_any (same_name name.now) names.now }
{
    for item in names {
        if *name == *item {
            return true;
        }
    }
    false
}

// Appends a copy of the name where it is new.
fn add_name(
    alloc: Global,
    few: &mut Vec<Text>,
    more: &mut IndexSet<Text>,
    name: &Text,
) -> Result<(), NoMemory>
    ensures { OnOk result (few.new.items ++ more.new.keys
        ≡ with_new same_name (few.old.items ++ more.old.keys) (name.now ∷ [])) }
{
    if is_among(name, few) {
        return Ok(());
    }
    let copy = Text::new(alloc, name.bytes())?;
    if few.len() < FEW {
        if more.len() == 0 {
            few.push(copy)?;
            return Ok(());
        }
    }
    more.insert(copy)?;
    Ok(())
}

/// Different names in the order in which they were first added.
#[derive(Drop)]
pub struct NameSet {
    few: Vec<Text>,
    more: IndexSet<Text>,
}

impl Model for NameSet {
    ghost use Rattle.std.specs.Prelude.{◌++◌, List, ℕ};

    ghost Value = { List (List ℕ) };

    ghost view = { λ s. s.few.items ++ s.more.keys };
}

impl NameSet {
    /// The empty set.
    pub fn new(alloc: Global) -> NameSet
        ensures { result ≡ [] }
    {
        let few = Vec::new(alloc);
        let more = IndexSet::new(alloc);
        NameSet { few, more }
    }

    /// How many names there are.
    pub fn len(&self) -> usize
        ensures { result ≡ length self.now }
    {
        self.few.len() + self.more.len()
    }

    /// Whether the name is in the set.
    pub fn contains(&self, name: &Text) -> bool
        ensures { result ≡ list_any (same_name name.now) self.now }
    {
        if is_among(name, &self.few) {
            return true;
        }
        self.more.contains(name)
    }

    /// Appends a copy of the name where it is new.
    pub fn add(&mut self, alloc: Global, name: &Text) -> Result<(), NoMemory>
        ensures { OnOk result (self.new ≡ with_new same_name self.old (name.now ∷ [])) }
    {
        add_name(alloc, &mut self.few, &mut self.more, name)
    }

    /// The names in order.
    pub fn into_names(self, alloc: Global) -> Result<Vec<Text>, NoMemory>
        ensures { IfOk result (λ names. names.items ≡ self) }
    {
        let mut names = self.few;
        push_names(alloc, &mut names, self.more.as_slice())?;
        Ok(names)
    }
}

/// Appends copies of the names.
pub fn push_names(alloc: Global, names: &mut Vec<Text>, more: &[Text]) -> Result<(), NoMemory>
    ensures { OnOk result (names.new.items ≡ names.old.items ++ more.now) }
{
    for name in more {
        let name = Text::new(alloc, name.bytes())?;
        names.push(name)?;
    }
    Ok(())
}

/// The names as a set.
pub fn set_of(alloc: Global, names: &[Text]) -> Result<NameSet, NoMemory>
    ensures { IfOk result (λ s. (n : List ℕ) → list_any (same_name n) s ≡ list_any (same_name n) names.now) }
{
    let mut set = NameSet::new(alloc);
    for name in names {
        set.add(alloc, name)?;
    }
    Ok(set)
}

/// The names of an include's list as a set.
pub fn set_of_places(alloc: Global, places: &[(Text, u64)]) -> Result<NameSet, NoMemory>
    ensures { IfOk result (λ s. (n : List ℕ) → list_any (same_name n) s ≡ list_any (same_name n) (names_of places.now)) }
{
    let mut set = NameSet::new(alloc);
    for item in places {
        set.add(alloc, &item.0)?;
    }
    Ok(set)
}
