//! Places in tables, which have 32 bits, so that the entries of a branch are small.

ghost use Rattle.std.specs.Prelude.{◌≡◌, IfOk};

use cop_base::NoMemory;

/// Places beyond 32 bits are beyond memory.
pub fn place_of(number: usize) -> Result<u32, NoMemory>
    ensures { IfOk result (λ n. n ≡ number) }
{
    match u32::try_from(number) {
        Ok(n) => Ok(n),
        Err(_) => Err(NoMemory),
    }
}
