//! What is told of the names of a term, so that a step need not go through it.

ghost use Rattle.std.specs.Prelude.{◌≡◌, ◌||◌, ◌∷◌, [], ℕ, Bool, IfOk, OnOk};
ghost use Rattle.std.specs.List.{list_any};
ghost use Rattle.calculus.specs.Calculus.{is_eigen};
ghost use Rattle.calculus.specs.Syntax as tree;
ghost use Rattle.formula_text.specs.Rows.{any_item};
ghost use Rattle.derivation_branch.specs.Occurring.{holds};
ghost use Rattle.derivation_check.specs.NamesTold.{AreFoundIn, AreNamed, AreNamesOf, HomeTest, any_found, by_home, by_place};

use crate::homes::{Homes, Place};
use cop_base::NoMemory;
use derivation_text::TermList;
use formula_text::{RowItem, TermRow};
use indexmap::IndexSet;
use std::alloc::Global;

/// The eigenvariables of a term, and the homes of its names, each once.
#[derive(Drop)]
pub struct TermNames {
    pub eigens: Vec<u32>,
    /// The places of homes that are labels.
    pub places: Vec<u32>,
    /// Whether some constant lies in every domain.
    pub has_anywhere: bool,
    /// Whether some name is not listed.
    pub has_unknown: bool,
    pub has_variable: bool,
}

// The same while a term is gone through.
#[derive(Drop)]
struct FoundNames {
    eigens: IndexSet<u32>,
    places: IndexSet<u32>,
    has_anywhere: bool,
    has_unknown: bool,
    has_variable: bool,
}

fn add_number(set: &mut IndexSet<u32>, number: u32) -> Result<(), NoMemory>
    ensures { OnOk result ((test : ℕ → Bool)
        → list_any test set.new.keys ≡ (list_any test set.old.keys || test number)) }
{
    set.insert(number)?;
    Ok(())
}

fn home_of_eigen(homes: &Homes, number: u32) -> Option<Place>
    ensures { (test : HomeTest) → by_place test result ≡ by_home homes.now test (tree.eigen number) }
{
    match homes.eigen(number) {
        Some(home) => Some(Place::At(home)),
        None => None,
    }
}

fn add_home(names: &mut FoundNames, home: Option<Place>) -> Result<(), NoMemory>
    ensures home { OnOk result ((test : HomeTest)
        → any_found test names.new ≡ (any_found test names.old || by_place test home)) }
    ensures eigens { OnOk result (names.new.eigens ≡ names.old.eigens) }
{
    match home {
        Some(Place::At(place)) => {
            add_number(&mut names.places, place)?;
            Ok(())
        }
        Some(Place::Anywhere) => {
            names.has_anywhere = true;
            Ok(())
        }
        None => {
            names.has_unknown = true;
            Ok(())
        }
    }
}

fn add_item(names: &mut FoundNames, homes: &Homes, item: RowItem) -> Result<(), NoMemory>
    ensures home { OnOk result ((test : HomeTest) → any_found test names.new
        ≡ (any_found test names.old || any_item (by_home homes.now test) (item ∷ []))) }
    ensures eigen { OnOk result ((n : ℕ) → holds names.new.eigens.keys n
        ≡ (holds names.old.eigens.keys n || any_item (is_eigen n) (item ∷ []))) }
{
    match item {
        RowItem::Fun(_, _) => Ok(()),
        RowItem::Var(_) => {
            names.has_variable = true;
            Ok(())
        }
        RowItem::Eigen(number) => {
            add_number(&mut names.eigens, number)?;
            add_home(names, home_of_eigen(homes, number))?;
            Ok(())
        }
        RowItem::Spare(number) => {
            add_home(names, homes.spare(number))?;
            Ok(())
        }
    }
}

fn found_in(alloc: Global, homes: &Homes, t: &TermRow) -> Result<FoundNames, NoMemory>
    ensures { IfOk result (λ x. AreFoundIn homes.now t.now x) }
{
    let mut names = FoundNames {
        eigens: IndexSet::new(alloc),
        places: IndexSet::new(alloc),
        has_anywhere: false,
        has_unknown: false,
        has_variable: false,
    };
    for item in t.items() {
        add_item(&mut names, homes, *item)?;
    }
    Ok(names)
}

fn copied(alloc: Global, numbers: &[u32]) -> Result<Vec<u32>, NoMemory>
    ensures { IfOk result (λ v. v.items ≡ numbers.now) }
{
    let mut copy = Vec::new(alloc);
    for number in numbers {
        copy.push(*number)?;
    }
    Ok(copy)
}

fn names_of(alloc: Global, homes: &Homes, t: &TermRow) -> Result<TermNames, NoMemory>
    ensures { IfOk result (λ x. AreNamesOf homes.now t.now x) }
{
    let found = found_in(alloc, homes, t)?;
    let eigens = copied(alloc, found.eigens.as_slice())?;
    let places = copied(alloc, found.places.as_slice())?;
    Ok(TermNames {
        eigens,
        places,
        has_anywhere: found.has_anywhere,
        has_unknown: found.has_unknown,
        has_variable: found.has_variable,
    })
}

/// What is told of each term of a text, by its number less one.
pub fn all_names(alloc: Global, homes: &Homes, terms: &TermList) -> Result<Vec<TermNames>, NoMemory>
    ensures { IfOk result (λ told. AreNamed homes.now terms.now told.items) }
{
    let mut told = Vec::new(alloc);
    for i in 0..terms.count() {
        let names = names_of(alloc, homes, terms.row(i + 1))?;
        told.push(names)?;
    }
    Ok(told)
}
