//! Numbers of entries and names, which have 32 bits.

ghost use Rattle.std.specs.Prelude.{◌≡◌, IfOk, suc};

use cop_base::NoMemory;

/// The next number. One beyond 32 bits is beyond memory.
pub fn next(number: u32) -> Result<u32, NoMemory>
    ensures { IfOk result (λ n. n ≡ suc number) }
{
    match number.checked_add(1) {
        Some(next) => Ok(next),
        None => Err(NoMemory),
    }
}

/// A count of 32 bits. One beyond them is beyond memory.
pub fn place_of(count: usize) -> Result<u32, NoMemory>
    ensures { IfOk result (λ n. n ≡ count) }
{
    match u32::try_from(count) {
        Ok(place) => Ok(place),
        Err(_) => Err(NoMemory),
    }
}
