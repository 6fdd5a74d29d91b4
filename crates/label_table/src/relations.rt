//! How labels of a table stand to each other, by their places.

ghost use Rattle.std.specs.Prelude.{◌≡◌, ◌<◌, [], get_or, length};
ghost use Rattle.calculus.specs.Derivations.{character_eq};
ghost use Rattle.calculus.specs.Labels.{home_allows, steps_to};

use crate::labels::Labels;
use logic_rules::{Domains, Logic};

/// Whether a nu step of the logic goes from the label at one place to that at another.
pub fn reaches(labels: &Labels, logic: Logic, from: u32, to: u32) -> bool
    requires from { from < length labels.now }
    requires to { to < length labels.now }
    ensures { result
        ≡ steps_to character_eq logic (get_or labels.now from []) (get_or labels.now to []) }
{
    let least = u64::from(labels.length(from));
    let length = u64::from(labels.length(to));
    match logic {
        Logic::Classical => labels.are_equal(from, to),
        Logic::Intuitionistic | Logic::S4 => labels.begins(from, to),
        Logic::D => labels.begins(from, to) && length == least + 1,
        Logic::T => labels.begins(from, to) && length <= least + 1,
        Logic::S5 => length <= 1,
    }
}

/// Whether a name whose home is the label at one place may stand at that at another.
pub fn is_home_at(labels: &Labels, domains: Domains, home: u32, at: u32) -> bool
    requires home { home < length labels.now }
    requires at { at < length labels.now }
    ensures { result
        ≡ home_allows character_eq domains (get_or labels.now home []) (get_or labels.now at []) }
{
    match domains {
        Domains::Constant => true,
        Domains::Cumulative => labels.begins(home, at),
        Domains::Varying => labels.are_equal(home, at),
    }
}
