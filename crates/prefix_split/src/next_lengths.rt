//! The lists of string lengths that are tried, in their order: by the sum, then lexicographically.

ghost use Rattle.std.specs.Prelude.{◌≡◌, ◌⊎◌, ◌+◌, ◌*◌, ◌-◌, ◌<◌, ◌≤◌, ◌++◌, ℕ, IfOk, OnOk};
ghost use Rattle.std.specs.Prelude.{false, length, true};
ghost use Rattle.term_store.specs.SystemView.{the_system};
ghost use Rattle.prefix_split.specs.LengthLists.{AreWithin, IsFirst, IsLast, IsNext};
ghost use Rattle.prefix_split.specs.LengthSearch.{IsRangeOf};
ghost use Rattle.prefix_split.specs.LengthLists.{least_list, least_of, spread_of};

use calculus::setting::Logic;
use cop_base::NoMemory;
use std::alloc::Global;
use term_store::System;

/// The lengths that are tried for a string: from `least` up to `least + spread`.
#[derive(Clone, Copy)]
pub(crate) struct LengthRange {
    least: u32,
    spread: u32,
}

fn range(logic: Logic, steps: u32) -> LengthRange
    ensures least { result.least ≡ least_of logic }
    ensures spread { result.spread ≡ spread_of logic steps }
    ensures fits { result.least + result.spread < 4294967296 }
{
    let (least, spread) = match logic {
        Logic::Classical => (0, 0),
        Logic::D => (1, 0),
        Logic::T | Logic::S5 => (0, 1),
        Logic::Intuitionistic | Logic::S4 => (0, steps),
    };
    LengthRange { least, spread }
}

/// The lengths that are tried for each string of the system. A system with more nu and pi steps
/// than 32 bits count is too large for memory.
pub(crate) fn range_of(logic: Logic, system: &System) -> Result<LengthRange, NoMemory>
    ensures range { IfOk result (λ r. IsRangeOf logic (the_system system.now) r.least r.spread) }
    ensures fits { IfOk result (λ r. r.least + r.spread < 4294967296) }
    ensures few { IfOk result (λ r. length system.now.strings < 4294967296) }
{
    let strings = system.strings.items().len();
    if strings >= 4294967296 {
        return Err(NoMemory);
    }
    match (strings as u32).checked_add(system.pis) {
        Some(steps) => Ok(range(logic, steps)),
        None => Err(NoMemory),
    }
}

// Whether each string has but one length.
pub(crate) fn is_single(range: LengthRange) -> bool {
    range.spread == 0
}

// How much the first of some numbers is above the least length, where they are so much above it in
// all, and so many follow: no more than those that follow leave.
fn first_above(range: LengthRange, following: u32, above: u64) -> u32
    requires { above ≤ (following + 1) * range.spread }
    ensures value { result ≡ above - following * range.spread }
    ensures small { result ≤ range.spread }
{
    let most = u64::from(following) * u64::from(range.spread);
    if above <= most {
        return 0;
    }
    (above - most) as u32
}

// Appends the lexicographically first list of so many numbers that are so much above the least
// length in all.
fn push_least(
    lengths: &mut Vec<u32>,
    range: LengthRange,
    count: u32,
    above: u64,
) -> Result<(), NoMemory>
    requires fits { range.least + range.spread < 4294967296 }
    requires room { above ≤ count * range.spread }
    ensures { OnOk result (lengths.new.items
        ≡ lengths.old.items ++ least_list range.least range.spread count above) }
{
    let mut left = count;
    let mut above = above;
    while left > 0 {
        left -= 1;
        let here = first_above(range, left, above);
        lengths.push(range.least + here)?;
        above -= u64::from(here);
    }
    Ok(())
}

/// The first list of so many lengths.
pub(crate) fn first_lengths(
    alloc: Global,
    range: LengthRange,
    count: u32,
) -> Result<Vec<u32>, NoMemory>
    requires { range.least + range.spread < 4294967296 }
    ensures { IfOk result (λ v. IsFirst range.least range.spread count v.items) }
{
    let mut lengths = Vec::new(alloc);
    push_least(&mut lengths, range, count, 0)?;
    Ok(lengths)
}

// Whether the length can be raised where those behind it are so much above the least one in all.
fn can_rise(range: LengthRange, length: u32, above: u64) -> bool
    requires { range.least + range.spread < 4294967296 }
    ensures some { result ≡ true → 0 < above }
    ensures below { result ≡ true → length < range.least + range.spread }
    ensures cannot { result ≡ false → (above ≡ 0) ⊎ (range.least + range.spread ≤ length) }
{
    if above == 0 {
        return false;
    }
    length < range.least + range.spread
}

/// Makes the list the next one, and answers whether there is one. Otherwise, and for want of
/// memory, the list is of no more use. The last length that can be raised at the cost of those
/// behind it is raised; where there is none, the next sum begins.
pub(crate) fn next_lengths(lengths: &mut Vec<u32>, range: LengthRange) -> Result<bool, NoMemory>
    requires fits { range.least + range.spread < 4294967296 }
    requires few { length lengths.old.items < 4294967296 }
    requires within { AreWithin range.least range.spread lengths.old.items }
    ensures next { IfOk result (λ some. some ≡ true
        → IsNext range.least range.spread lengths.old.items lengths.new.items) }
    ensures last { IfOk result (λ some. some ≡ false
        → IsLast range.least range.spread lengths.old.items) }
{
    let mut count: u32 = 0;
    let mut above: u64 = 0;
    while let Some(length) = lengths.pop() {
        if can_rise(range, length, above) {
            lengths.push(length + 1)?;
            push_least(lengths, range, count, above - 1)?;
            return Ok(true);
        }
        above += u64::from(length - range.least);
        count += 1;
    }
    if above == u64::from(count) * u64::from(range.spread) {
        return Ok(false);
    }
    push_least(lengths, range, count, above + 1)?;
    Ok(true)
}
