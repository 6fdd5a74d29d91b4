//! Why a problem or a derivation is not transferred.

use cop_base::NoMemory;

/// A translation that passes a limit, or want of memory.
#[derive(Clone, Copy, Debug, PartialEq, Eq)]
pub enum TransferFault {
    /// The translation nests more than 1,000 deep.
    NestingTooDeep,
    /// The translation has more than 4,000,000 nodes, and does not nest too deep.
    FormulaTooLarge,
    NoMemory,
}

impl From<NoMemory> for TransferFault {
    ghost use Rattle.std.specs.Prelude.{◌≡◌};
    ghost use Rattle.godel_transfer.specs.declared.fault.TransferFault.TheVariants as fault;

    ghost from_gives = { λ _ r. r ≡ fault.NoMemory };

    fn from(_error: NoMemory) -> TransferFault {
        TransferFault::NoMemory
    }
}
