//! Lists that are asked for any place: beyond their ends they hold 0.

// No place.
pub(crate) const NONE: u32 = u32::MAX;

/// The number at the place, or 0.
pub(crate) fn item(list: &[u32], place: u32) -> u32 {
    match list.get(place as usize) {
        Some(number) => *number,
        None => 0,
    }
}

/// Puts the number at the place, where there is one.
pub(crate) fn set(list: &mut Vec<u32>, place: u32, number: u32) {
    if let Some(here) = list.get_mut(place as usize) {
        *here = number;
    }
}

/// How many there are, as far as 32 bits tell.
pub(crate) fn count(length: usize) -> u32 {
    match u32::try_from(length) {
        Ok(number) => number,
        Err(_) => NONE,
    }
}
