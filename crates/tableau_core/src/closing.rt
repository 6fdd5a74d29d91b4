//! Closed goals and tableaux as trees.

ghost use Rattle.std.specs.Prelude.{◌≡◌, ◌++◌, ◌∷◌, [], map, OnOk, OnErr};
ghost use Rattle.tableau_core.specs.Numbered.ClosingView.{the_closing};

use crate::instance::ClauseInstance;
use cop_base::NoMemory;
use std::alloc::Global;
use std::marker::Model;

/// How a goal is closed.
#[derive(Drop)]
#[cycle(closing)]
pub enum Closing {
    /// By the literal of an ancestor goal, the nearest having number 1.
    Reduce {
        up: u32,
    },
    /// By the literal at a place of an instance, counted from 0; its other literals are the goals below.
    Extend {
        instance: ClauseInstance,
        literal: u32,
        goals: ClosingList,
    },
}

/// The closings of a list of goals, in order.
#[derive(Drop)]
#[cycle(closing)]
pub struct ClosingList {
    items: Vec<Closing>,
}

impl Model for ClosingList {
    ghost use Rattle.std.specs.Prelude.{List, map};
    ghost use Rattle.tableau_core.specs.Numbered.Closings as numbered;
    ghost use Rattle.tableau_core.specs.Numbered.ClosingCodes.{closing_list_code};
    ghost use Rattle.tableau_core.specs.Numbered.Closings.{closing_list_size};

    ghost Value = { List numbered.Closing };

    ghost coded = { closing_list_code };

    ghost use Rattle.tableau_core.specs.Numbered.ClosingView.{the_closing};

    ghost view = { λ a. map the_closing a.items.items };

    ghost size = { closing_list_size };

    ghost use Rattle.tableau_core.specs.Numbered.ClosingFalls.{closing-falls};

    ghost size_decreases = { λ a _. closing-falls a.items.items };
}

impl ClosingList {
    /// The empty list.
    pub fn new(alloc: Global) -> ClosingList
        ensures { result ≡ [] }
    {
        ClosingList {
            items: Vec::new(alloc),
        }
    }

    /// Appends the item. Want of memory leaves the list as it was.
    pub fn push(&mut self, item: Closing) -> Result<(), NoMemory>
        ensures ok { OnOk result (self.new ≡ self.old ++ the_closing item ∷ []) }
        ensures err { OnErr result (self.new ≡ self.old) }
    {
        self.items.push(item)?;
        Ok(())
    }

    /// The items in order.
    pub fn items(&self) -> &[Closing]
        ensures { map the_closing result.now ≡ self.now }
    {
        self.items.as_slice()
    }
}
