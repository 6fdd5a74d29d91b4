//! Why reading stops.

use cop_base::NoMemory;

/// Why nothing is read.
#[derive(Clone, Copy)]
pub enum Stop {
    /// What is looked for does not stand there, or is too deep.
    NotThere,
    NoMemory,
}

impl From<NoMemory> for Stop {
    ghost use Rattle.std.specs.Prelude.{◌≡◌};
    ghost use Rattle.tptp_reader.specs.declared.stop.Stop.TheVariants as stop;

    ghost from_gives = { λ _ r. r ≡ stop.NoMemory };

    fn from(_: NoMemory) -> Stop {
        Stop::NoMemory
    }
}
