//! The tuples of the elements of a domain, by their places in a table.

ghost use Rattle.std.specs.Prelude.{◌≡◌, ◌++◌, ◌+◌, ◌*◌, ◌<◌, false, get_or, length, map, min, IfOk, OnOk, ℕ};
ghost use Rattle.calculus.specs.Equality.{contains};
ghost use Rattle.finite_model.specs.Conditions.{longer_places, tuple_places};

use crate::value::place_with;
use cop_base::NoMemory;
use std::alloc::{AllocError, AllocFailed, Global};

/// Which elements are in the domain.
pub fn flags_of(alloc: Global, domain: &[u8]) -> Result<Vec<bool>, NoMemory>
    ensures count { IfOk result (λ f. length f.items ≡ 256) }
    ensures flags { IfOk result (λ f. (x : ℕ) → x < 256 → get_or f.items x false ≡ contains domain.now x) }
{
    let mut flags = vec![in alloc; false; 256]?;
    for element in domain {
        flags[*element as usize] = true;
    }
    Ok(flags)
}

// The places of the tuples that go on from a place with one element of the domain.
fn push_places(
    places: &mut Vec<usize>,
    elements: u8,
    domain: &[u8],
    place: usize,
) -> Result<(), NoMemory>
    ensures { OnOk result (places.new.items ≡ places.old.items
        ++ map (λ x. min (place * elements + x) usize.MAX) domain.now) }
{
    for element in domain {
        places.push(place_with(place, elements, *element))?;
    }
    Ok(())
}

// The places of the tuples with one element of the domain more.
fn places_with(
    alloc: Global,
    elements: u8,
    domain: &[u8],
    places: &[usize],
) -> Result<Vec<usize>, NoMemory>
    ensures { IfOk result (λ v. v.items ≡ longer_places elements domain.now places.now) }
{
    let mut more = Vec::new(alloc);
    for place in places {
        push_places(&mut more, elements, domain, *place)?;
    }
    Ok(more)
}

/// The places of the tuples of so many elements of the domain, in lexicographic order.
pub fn places_of(
    alloc: Global,
    elements: u8,
    domain: &[u8],
    arity: u32,
) -> Result<Vec<usize>, NoMemory>
    ensures { IfOk result (λ v. v.items ≡ tuple_places elements domain.now arity) }
{
    let mut places = Vec::new(alloc);
    places.push(0)?;
    for _argument in 0..arity {
        let more = places_with(alloc, elements, domain, places.as_slice())?;
        // one element with one tuple, or none with none: further arguments change nothing
        if more.as_slice() == places.as_slice() {
            return Ok(more);
        }
        places = more;
    }
    Ok(places)
}
