//! The items of a text.

ghost use Rattle.std.specs.Prelude.{◌≡◌, ◌++◌, ◌∷◌, [], OnOk, OnErr, map};
ghost use Rattle.tptp_reader.specs.ItemView.{the_item};

use crate::source::Source;
use cop_base::{NoMemory, Text};
use std::alloc::{AllocError, Global};
use std::marker::Model;

#[derive(Clone, Copy, Debug, PartialEq, Eq)]
pub enum ItemKind {
    Fof,
    Cnf,
    Qmf,
}

/// Names, each with its offset.
#[derive(Drop)]
pub struct NamePlaces {
    items: Vec<(Text, u64)>,
}

impl Model for NamePlaces {
    ghost use Rattle.std.specs.Prelude.{List, ℕ};

    ghost Value = { List (List ℕ × ℕ) };

    ghost view = { λ a. a.items.items };
}

impl NamePlaces {
    pub fn new(alloc: Global) -> NamePlaces
        ensures { result ≡ [] }
    {
        NamePlaces {
            items: Vec::new(alloc),
        }
    }

    pub fn push(&mut self, item: (Text, u64)) -> Result<(), NoMemory>
        ensures ok { OnOk result (self.new ≡ self.old ++ item ∷ []) }
        ensures err { OnErr result (self.new ≡ self.old) }
    {
        self.items.push(item)?;
        Ok(())
    }

    pub fn items(&self) -> &[(Text, u64)]
        ensures { result.now ≡ self.now }
    {
        self.items.as_slice()
    }
}

/// The names that an include selects; `None` where it takes all.
pub type NameList = Option<NamePlaces>;

/// An item of a text. Offsets count bytes from 0: `start` is that of the first token, `role_at` that of the role.
#[derive(Drop)]
pub enum Item {
    Formula {
        kind: ItemKind,
        name: Text,
        role: Text,
        role_at: u64,
        body: Source,
        start: u64,
    },
    Include {
        file: Text,
        names: NameList,
        start: u64,
    },
}

#[derive(Drop)]
pub struct ItemList {
    items: Vec<Item>,
}

impl Model for ItemList {
    ghost use Rattle.std.specs.Prelude.{List, map};
    ghost use Rattle.tptp_reader.specs.Sources as tree;
    ghost use Rattle.tptp_reader.specs.Codes.{item_list_code};
    ghost use Rattle.tptp_reader.specs.ItemView.{the_item};

    ghost Value = { List tree.Item };

    ghost coded = { item_list_code };

    ghost view = { λ a. map the_item a.items.items };
}

impl ItemList {
    pub fn new(alloc: Global) -> ItemList
        ensures { result ≡ [] }
    {
        ItemList {
            items: Vec::new(alloc),
        }
    }

    pub fn push(&mut self, item: Item) -> Result<(), NoMemory>
        ensures ok { OnOk result (self.new ≡ self.old ++ the_item item ∷ []) }
        ensures err { OnErr result (self.new ≡ self.old) }
    {
        self.items.push(item)?;
        Ok(())
    }

    pub fn items(&self) -> &[Item]
        ensures { map the_item result.now ≡ self.now }
    {
        self.items.as_slice()
    }

    /// The items in order, so that their formulas can be kept.
    pub fn into_items(self) -> Vec<Item>
        ensures { map the_item result.items ≡ self }
    {
        self.items
    }
}
