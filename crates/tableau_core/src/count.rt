//! What is counted of the values of instances.

ghost use Rattle.std.specs.Prelude.{◌≡◌, map, max};
ghost use Rattle.formula_core.specs.GroundLists.{the_value};
ghost use Rattle.tableau_core.specs.Counted.{longest_string, string_length, and_more, is_short_count};

use formula_core::{GroundTable, Value};
use logic_rules::Logic;

/// The number of nu and pi steps of instances, or the largest number where there are more, and the
/// length of their longest string.
#[derive(Clone, Copy)]
pub struct Count {
    pub steps: u64,
    pub longest: u64,
}

/// The larger one.
pub fn larger(a: u64, b: u64) -> u64
    ensures { result ≡ max a b }
{
    if a < b { b } else { a }
}

/// The count with so many steps more, and a string of this length.
pub fn and_more(so_far: Count, steps: u64, longest: u64) -> Count
    ensures { result ≡ and_more so_far steps longest }
{
    Count {
        steps: so_far.steps.saturating_add(steps),
        longest: larger(so_far.longest, longest),
    }
}

/// Whether no string is longer than the number of steps, where the logic asks for it.
pub fn is_short(logic: Logic, count: Count) -> bool
    ensures { result ≡ is_short_count logic count }
{
    match logic.greatest_length() {
        Some(_) => true,
        None => count.longest <= count.steps,
    }
}

fn string_length(table: &GroundTable, value: Value) -> u64
    ensures { result ≡ string_length (the_value table.now value) }
{
    match value {
        Value::Term(_) => 0,
        Value::Steps(string) => table.marks(string).len() as u64,
    }
}

/// The length of the longest string among the values.
pub fn longest_string(table: &GroundTable, values: &[Value]) -> u64
    ensures { result ≡ longest_string (map (the_value table.now) values.now) }
{
    let mut longest = 0;
    for value in values {
        longest = larger(longest, string_length(table, *value));
    }
    longest
}
