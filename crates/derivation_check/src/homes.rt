//! The homes of names as places of the table of labels.

ghost use Rattle.indexmap.specs.IndexMap.{get};
ghost use Rattle.std.specs.List.{list_all};
ghost use Rattle.std.specs.Prelude.{◌≡◌, [], IfOk, IsTrue, List, OnOk, length, map, nat_eq};
ghost use Rattle.calculus.specs.Derivations as derivation;
ghost use Rattle.calculus.specs.Versions.{
  numbered_home_is_written,
  stated,
  stated_eigen,
  stated_home,
  stated_spare,
};
ghost use Rattle.derivation_check.specs.ArgumentView.{ArePlaces};
ghost use Rattle.derivation_check.specs.HomesView.{
  AreEigenHomes,
  AreHomes,
  AreSpareHomes,
  IsSpareHome,
};
ghost use Rattle.derivation_text.specs.Listed.{has_home_among, may_have_home_among};
ghost use Rattle.derivation_text.specs.NumbersView.{the_numbered_eigen, the_numbered_spare};

use crate::label_places::place_at;
use cop_base::NoMemory;
use derivation_text::TextDerivation;
use indexmap::IndexMap;
use std::alloc::Global;

/// Where a spare constant lies: in every domain, or in that of the label at a place.
#[derive(Clone, Copy)]
pub enum Place {
    Anywhere,
    At(u32),
}

/// The place of the home of each listed name, by its number.
#[derive(Drop)]
pub struct Homes {
    pub eigens: IndexMap<u32, u32>,
    pub spares: IndexMap<u32, Place>,
}

// The homes of the eigenvariables from the end on, so that the first one of a number stays.
fn add_eigens(
    places: &[u32],
    homes: &mut IndexMap<u32, u32>,
    names: &[(u32, u32)],
) -> Result<(), NoMemory>
    requires none { homes.old.entries ≡ [] }
    requires among { IsTrue (list_all (has_home_among (length places.now)) (map the_numbered_eigen names.now)) }
    ensures { OnOk result ((labels : List derivation.Label) → (table : List derivation.Label)
        → ArePlaces labels table places.now → AreEigenHomes table homes.new
        (map (λ x. stated_eigen labels (the_numbered_eigen x)) names.now)) }
{
    let mut left = names.len();
    while left > 0 {
        left -= 1;
        let name = names[left];
        homes.insert(name.0, place_at(places, name.1))?;
    }
    Ok(())
}

fn place_of_home(places: &[u32], home: Option<u32>) -> Place
    requires { IsTrue (numbered_home_is_written (length places.now) home) }
    ensures { (labels : List derivation.Label) → (table : List derivation.Label)
        → ArePlaces labels table places.now → IsSpareHome table result (stated_home labels home) }
{
    match home {
        None => Place::Anywhere,
        Some(number) => Place::At(place_at(places, number)),
    }
}

// The same of the spare constants.
fn add_spares(
    places: &[u32],
    homes: &mut IndexMap<u32, Place>,
    names: &[(u32, Option<u32>)],
) -> Result<(), NoMemory>
    requires none { homes.old.entries ≡ [] }
    requires among { IsTrue (list_all (may_have_home_among (length places.now)) (map the_numbered_spare names.now)) }
    ensures { OnOk result ((labels : List derivation.Label) → (table : List derivation.Label)
        → ArePlaces labels table places.now → AreSpareHomes table homes.new
        (map (λ x. stated_spare labels (the_numbered_spare x)) names.now)) }
{
    let mut left = names.len();
    while left > 0 {
        left -= 1;
        let name = names[left];
        homes.insert(name.0, place_of_home(places, name.1))?;
    }
    Ok(())
}

impl Homes {
    /// The homes of the names of a text, by the places of its labels.
    pub fn new(alloc: Global, places: &[u32], d: &TextDerivation) -> Result<Homes, NoMemory>
        requires { length places.now ≡ length d.now.labels }
        ensures { IfOk result (λ h. (table : List derivation.Label)
            → ArePlaces d.now.labels table places.now
            → AreHomes (stated d.now).names table h) }
    {
        let mut eigen_homes = IndexMap::new(alloc);
        let mut spare_homes = IndexMap::new(alloc);
        add_eigens(places, &mut eigen_homes, d.eigens())?;
        add_spares(places, &mut spare_homes, d.spares())?;
        Ok(Homes {
            eigens: eigen_homes,
            spares: spare_homes,
        })
    }

    /// The place of the home of a listed eigenvariable.
    pub fn eigen(&self, number: u32) -> Option<u32>
        ensures { result ≡ get nat_eq self.now.eigens number }
    {
        // Most texts number their names from 1 on, and the table begins with the last one. So the
        // place of the entry is known, and no hash is needed.
        let place = self.eigens.len().wrapping_sub(number as usize);
        if let Some((key, home)) = self.eigens.get_index(place) {
            if *key == number {
                return Some(*home);
            }
        }
        match self.eigens.get(&number) {
            Some(home) => Some(*home),
            None => None,
        }
    }

    /// The same of a spare constant.
    pub fn spare(&self, number: u32) -> Option<Place>
        ensures { result ≡ get nat_eq self.now.spares number }
    {
        let place = self.spares.len().wrapping_sub(number as usize);
        if let Some((key, home)) = self.spares.get_index(place) {
            if *key == number {
                return Some(*home);
            }
        }
        match self.spares.get(&number) {
            Some(home) => Some(*home),
            None => None,
        }
    }
}
