//! Writing the output.

ghost use Rattle.std.specs.Prelude.{◌≡◌, ◌≤◌, ℕ, take, OnOk, OnErr};
ghost use Rattle.cop_base.specs.Outside.{Rose};
ghost use Rattle.cop_sink.specs.Output.{WentOutInPieces, with_bytes};

use cop_sink::{PutFault, Sink};

// How many bytes are put at once.
const PIECE: usize = 4096;

/// Puts the bytes in pieces of 4,096 bytes, the last one as short as what is left, until one put fails.
pub fn put_all<K: Sink>(out: &mut K, bytes: &[u8]) -> Result<(), PutFault>
    ensures more_faults { K.faults out.old ≤ K.faults out.new }
    ensures ok { OnOk result (K.written out.new ≡ with_bytes (K.written out.old) bytes.now) }
    ensures failed { OnErr result (Rose (K.faults out.old) (K.faults out.new)) }
    ensures part { OnErr result ((n : ℕ) × (K.written out.new ≡ with_bytes (K.written out.old) (take n bytes.now))) }
    ensures pieces { WentOutInPieces 4096 (K.puts out.old) (K.puts out.new) }
{
    let mut rest = bytes;
    while rest.len() > PIECE {
        let (piece, others) = rest.split_at(PIECE);
        out.put(piece)?;
        rest = others;
    }
    out.put(rest)
}
