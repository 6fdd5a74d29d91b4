//! The occurs check.

ghost use Rattle.std.specs.Prelude.{◌≡◌, IfOk, false, map, true};
ghost use Rattle.store_theory.specs.Bindings.{IsEnd, IsWellFormed};
ghost use Rattle.store_theory.specs.Stores.{OccursIn};
ghost use Rattle.term_store.specs.RefView.{the_place};
ghost use Rattle.term_unify.specs.Closed.{IsClosedBelow};
ghost use Rattle.term_unify.specs.Steps.{AddsInner};

use crate::compare::{count_in, part_in};
use crate::visited::Visited;
use cop_base::NoMemory;
use term_store::{Ref, Store};

// Whether a part of the cell is the variable. If none is, the parts that have parts are appended.
#[inline(always)]
fn push_inner(store: &Store, v: Ref, r: Ref, places: &mut Vec<Ref>) -> Result<bool, NoMemory>
    requires variable { IsEnd store.now.store v.0 }
    requires end { IsEnd store.now.store r.0 }
    ensures well { IsWellFormed store.now.store }
    ensures found { IfOk result (λ found. found ≡ true → OccursIn store.now.store v.0 r.0) }
    ensures added { IfOk result (λ found. found ≡ false → AddsInner store.now.store v.0 r.0
        (map the_place places.old.items) (map the_place places.new.items)) }
{
    let parts = store.parts_at(r);
    for i in 0..parts.len() {
        let part = store.end(part_in(parts, i));
        if part.place.0 == v.0 {
            return Ok(true);
        }
        if count_in(part.content) != 0 {
            places.push(part.place)?;
        }
    }
    Ok(false)
}

// Whether the variable occurs in the other cell, under the bindings; `places` is room for the work, and `visited` for
// the cells that were looked at; a cell without parts needs neither.
pub(crate) fn occurs(
    store: &Store,
    v: Ref,
    r: Ref,
    places: &mut Vec<Ref>,
    visited: &mut Visited,
) -> Result<bool, NoMemory>
    requires variable { IsEnd store.now.store v.0 }
    requires end { IsEnd store.now.store r.0 }
    requires other { ¬ (v.0 ≡ r.0) }
    ensures yes { IfOk result (λ found. found ≡ true → OccursIn store.now.store v.0 r.0) }
    ensures no { IfOk result (λ found. found ≡ false → ¬ OccursIn store.now.store v.0 r.0) }
{
    if store.parts(r) == 0 {
        return Ok(false);
    }
    places.clear();
    visited.clear();
    if push_inner(store, v, r, places)? {
        return Ok(true);
    }
    while let Some(place) = places.pop() {
        if visited.visit(v.0, place.0)? {
            if push_inner(store, v, place, places)? {
                return Ok(true);
            }
        }
    }
    Ok(false)
}

// As `occurs`. Cells whose numbers are below `below` name such cells alone, so a variable whose number is not occurs in
// none of them.
#[inline(always)]
pub(crate) fn occurs_from(
    store: &Store,
    below: usize,
    v: Ref,
    r: Ref,
    places: &mut Vec<Ref>,
    visited: &mut Visited,
) -> Result<bool, NoMemory>
    requires variable { IsEnd store.now.store v.0 }
    requires end { IsEnd store.now.store r.0 }
    requires other { ¬ (v.0 ≡ r.0) }
    requires closed { IsClosedBelow below store.now.store }
    ensures yes { IfOk result (λ found. found ≡ true → OccursIn store.now.store v.0 r.0) }
    ensures no { IfOk result (λ found. found ≡ false → ¬ OccursIn store.now.store v.0 r.0) }
{
    if (r.0 as usize) < below {
        if below <= v.0 as usize {
            return Ok(false);
        }
    }
    let found = occurs(store, v, r, places, visited)?;
    Ok(found)
}
