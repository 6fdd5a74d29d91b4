//! What was read, told to proofs alone: a record takes no memory.

ghost use Rattle.std.specs.Prelude.{◌≡◌, List, []};
ghost use Rattle.std.specs.Borrow.{ftrue};
ghost use Rattle.cop_base.specs.Reads.{Read, answered};

use crate::library::FetchFault;
use crate::text::Text;
use std::marker::{Model, PhantomData};

/// What the fetches of a library have answered, the last one first.
#[derive(Drop)]
pub struct ReadRecord {
    marker: PhantomData<u8>,
    pub ghost reads: { List Read },
}

impl Model for ReadRecord {
    ghost also_owns = { λ _. ftrue };
}

impl ReadRecord {
    /// Nothing was read.
    pub fn new() -> ReadRecord
        ensures { result.reads ≡ [] }
    {
        ReadRecord {
            marker: PhantomData,
        }
    }

    /// One answer more.
    pub fn and(
        &self,
        _name: &Text,
        _limit: &u64,
        _answer: &Result<Vec<u8>, FetchFault>,
    ) -> ReadRecord
        ensures { result.reads ≡ answered _name.now _limit.now _answer.now self.now.reads }
    {
        ReadRecord {
            marker: PhantomData,
        }
    }
}
