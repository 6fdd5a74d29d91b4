ghost use Rattle.std.specs.Prelude.{◌≡◌, ◌==◌, ◌≤◌, IfOk, length, take};
ghost use Rattle.std.specs.Cmp.Lexicographic.{pointwise};
ghost use Rattle.std.proofs.Common.{rules};
ghost use Rattle.std.specs.Hash as fed;
ghost use Rattle.std.specs.Cmp.Rules.{comparing, hashing};

use crate::NoMemory;
use std::alloc::{AllocError, Global};
use std::hash::{Hash, Hasher};
use std::marker::Model;

// Texts of so many bytes take no memory but their own.
const SHORT: usize = 23;

// Where the bytes are: the first ones of an array, so many of them, or a list.
#[derive(Drop)]
enum Stored {
    Short([u8; SHORT], u8),
    Long(Vec<u8>),
}

/// A list of bytes that owns its memory. Up to 23 of them need none but its own.
#[derive(Drop)]
pub struct Text {
    stored: Stored,
}

impl Model for Text {
    ghost use Rattle.std.specs.Prelude.{List, ℕ};
    ghost use Rattle.cop_base.specs.TextView.{stored_bytes, has_bytes};

    ghost Value = { List ℕ };

    ghost view = { λ t. stored_bytes t.stored };

    ghost invariant = { λ t. has_bytes t.stored };
}

// These bytes and zeros behind them.
fn padded(bytes: &[u8]) -> [u8; SHORT]
    requires { length bytes.now ≤ 23 }
    ensures { take (length bytes.now) result ≡ bytes.now }
{
    let mut array = [0; SHORT];
    array[..bytes.len()].copy_from_slice(bytes);
    array
}

impl Text {
    /// A copy of these bytes.
    pub fn new(alloc: Global, bytes: &[u8]) -> Result<Text, NoMemory>
        ensures { IfOk result (λ t. t ≡ bytes.now) }
    {
        if bytes.len() <= SHORT {
            let stored = Stored::Short(padded(bytes), bytes.len() as u8);
            return Ok(Text { stored });
        }
        let bytes = Vec::from_slice(alloc, bytes)?;
        Ok(Text {
            stored: Stored::Long(bytes),
        })
    }

    /// The bytes in order.
    pub fn bytes(&self) -> &[u8]
        ensures { result.now ≡ self.now }
    {
        match &self.stored {
            Stored::Short(bytes, len) => &bytes[..*len as usize],
            Stored::Long(bytes) => bytes.as_slice(),
        }
    }
}

impl PartialEq for Text {
    ghost eq = { pointwise ◌==◌ };

    ghost laws = { Prim.search (comparing, rules) };

    fn eq(&self, other: &Text) -> bool {
        self.bytes() == other.bytes()
    }
}

impl Eq for Text {
    ghost laws = { Prim.search (comparing, rules) };
}

impl Hash for Text {
    ghost hash_input = { fed.slice fed.u8 };

    ghost respects_eq = { Prim.search (hashing, rules) };

    fn hash<H: Hasher>(&self, state: &mut H) {
        self.bytes().hash(state);
    }
}
