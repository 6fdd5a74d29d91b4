//! What went out, told to proofs alone: a record takes no memory.

ghost use Rattle.std.specs.Prelude.{◌≡◌, ℕ, List, [], ◌∷◌};
ghost use Rattle.std.specs.Borrow.{ftrue};

use std::marker::{Model, PhantomData};

/// The pieces that went out, the last one first.
#[derive(Drop)]
pub struct PutRecord {
    marker: PhantomData<u8>,
    pub ghost puts: { List (List ℕ) },
}

impl Model for PutRecord {
    ghost also_owns = { λ _. ftrue };
}

impl PutRecord {
    /// Nothing went out.
    pub fn new() -> PutRecord
        ensures { result.puts ≡ [] }
    {
        PutRecord {
            marker: PhantomData,
        }
    }

    /// One piece more.
    pub fn and(&self, _piece: &[u8]) -> PutRecord
        ensures { result.puts ≡ _piece.now ∷ self.now.puts }
    {
        PutRecord {
            marker: PhantomData,
        }
    }
}
