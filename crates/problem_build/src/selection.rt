//! The names that an include selects.

ghost use Rattle.std.specs.Prelude.{◌≡◌, IfOk};
ghost use Rattle.problem_build.specs.Walk.{is_among, names_of};

use crate::name_set::{NameSet, set_of_places};
use cop_base::{NoMemory, Text};
use std::alloc::Global;
use std::marker::Model;
use tptp_reader::NamePlaces;

/// The list of an include: its names with their places, and the same names as a set.
#[derive(Drop)]
pub struct Selection {
    places: NamePlaces,
    names: NameSet,
}

impl Model for Selection {
    ghost use Rattle.std.specs.Prelude.{◌≡◌, List, ℕ};
    ghost use Rattle.problem_build.specs.Walk.{is_among, names_of};

    ghost Value = { List (List ℕ × ℕ) };

    ghost view = { λ s. s.places };

    ghost invariant = { λ s. (n : List ℕ) → is_among n s.names ≡ is_among n (names_of s.places) };
}

impl Selection {
    pub fn new(alloc: Global, places: NamePlaces) -> Result<Selection, NoMemory>
        ensures { IfOk result (λ s. s ≡ places) }
    {
        let names = set_of_places(alloc, places.items())?;
        Ok(Selection { places, names })
    }

    /// Whether the name stands in the list.
    pub fn lists(&self, name: &Text) -> bool
        ensures { result ≡ is_among name.now (names_of self.now) }
    {
        self.names.contains(name)
    }

    /// The names in order.
    pub fn places(&self) -> &[(Text, u64)]
        ensures { result.now ≡ self.now }
    {
        self.places.items()
    }
}
