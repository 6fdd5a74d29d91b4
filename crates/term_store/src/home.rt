//! Labels that a domain condition forces to be beginnings of others.

ghost use Rattle.std.specs.Prelude.{◌≡◌, ◌++◌, ◌∷◌, [], OnErr, OnOk, map};
ghost use Rattle.term_store.specs.HomeView.{the_home};

use crate::clause::Prefix;
use cop_base::NoMemory;
use std::alloc::Global;
use std::marker::Model;

/// A label that is a beginning of another one, as the home of a name in a term is one of the label
/// at which the term stands.
#[derive(Drop)]
pub struct Home {
    pub home: Prefix,
    pub label: Prefix,
    /// Whether the home is the whole label.
    pub is_whole: bool,
}

/// Homes in order.
#[derive(Drop)]
pub struct HomeList {
    items: Vec<Home>,
}

impl Model for HomeList {
    ghost use Rattle.std.specs.Prelude.{List, map};
    ghost use Rattle.term_store.specs.Homes as tree;

    ghost Value = { List tree.Home };

    ghost use Rattle.term_store.specs.HomeView.{the_home};

    ghost view = { λ a. map the_home a.items.items };
}

impl HomeList {
    /// The empty list.
    pub fn new(alloc: Global) -> HomeList
        ensures { result ≡ [] }
    {
        HomeList {
            items: Vec::new(alloc),
        }
    }

    /// Appends the item. Want of memory leaves the list as it was.
    pub fn push(&mut self, item: Home) -> Result<(), NoMemory>
        ensures ok { OnOk result (self.new ≡ self.old ++ the_home item ∷ []) }
        ensures err { OnErr result (self.new ≡ self.old) }
    {
        self.items.push(item)?;
        Ok(())
    }

    /// The items in order.
    pub fn items(&self) -> &[Home]
        ensures { map the_home result.now ≡ self.now }
    {
        self.items.as_slice()
    }
}
