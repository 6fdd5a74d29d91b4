//! The trusted edge of the output: a sink over a writer of the runtime.

ghost use Rattle.std.specs.Prelude.{◌≡◌, ◌≤◌, ◌+◌, ◌<◌, ◌⊎◌, ◌∷◌, [], ℕ, List, Some, IfSome, OnOk, OnErr, Ok};
ghost use Rattle.std.specs.Prelude.{length, take, unwrap_or};
ghost use Rattle.std.specs.Io.{WritesAtMost};
ghost use Rattle.std.specs.Io.KnownBytes.{Appends, WriteAppends};
ghost use Rattle.cop_base.specs.Outside.{Rose};
ghost use Rattle.cop_sink.specs.Output.{MayRefuse, joined, with_bytes};

use crate::record::PutRecord;
use crate::sink::{PutFault, Sink};
use cop_base::count_up;
use std::io;
use std::io::{ErrorKind, Write};

/// What bytes are written to, one write after another.
pub trait Output: Write {
    // the bytes of which none may be taken, in one write, where that is told
    ghost refuses: { Self → List ℕ → Type 0 };

    /// One write, which takes some of the bytes, from the first one on.
    fn write_some(&mut self, bytes: &[u8]) -> io::Result<usize>
        ensures bound { WritesAtMost result bytes.now }
        ensures passed { WriteAppends (Self.contents self.old) (Self.contents self.new) result bytes.now }
        ensures refused { OnErr result (refuses self.old bytes.now) }
        ensures none { result ≡ Ok 0 → refuses self.old bytes.now };
}

/// The runtime tells nothing of what its writers refuse.
impl<W: Write> Output for W {
    ghost refuses = { λ _ _. Unit {0} };

    fn write_some(&mut self, bytes: &[u8]) -> io::Result<usize> {
        self.write(bytes)
    }
}

// One write, which tells how many bytes went out, none where it was interrupted; `None` where no
// more goes out.
fn write_once<W: Output>(writer: &mut W, rest: &[u8]) -> Option<usize>
    ensures within { IfSome result (λ n. n ≤ length rest.now) }
    ensures passed { Appends (W.contents writer.old) (W.contents writer.new)
        (take (unwrap_or result 0) rest.now) }
    ensures refused { unwrap_or result 0 ≡ 0 → W.refuses writer.old rest.now }
{
    match writer.write_some(rest) {
        Ok(0) => None,
        Ok(n) => Some(n),
        Err(error) => match error.kind() {
            ErrorKind::Interrupted => Some(0),
            _ => None,
        },
    }
}

// Writes the bytes until no more goes out, and tells how many of them did.
fn write_out<W: Output>(writer: &mut W, bytes: &[u8]) -> usize
    ensures within { result ≤ length bytes.now }
    ensures passed { Appends (W.contents writer.old) (W.contents writer.new)
        (take result bytes.now) }
    ensures refused { (result ≡ length bytes.now) ⊎ MayRefuse W.refuses }
{
    let length = bytes.len();
    let mut count = 0;
    for _ in 0..u64::MAX {
        if count == length {
            return count;
        }
        let Some(n) = write_once(writer, &bytes[count..]) else {
            return count;
        };
        count += n;
    }
    prove!(length <= usize::MAX); // so many rounds would have taken all bytes
    count
}

/// A sink over a writer, which tells what its writer took.
#[derive(Drop)]
pub struct WriteSink<W: Output + Drop> {
    writer: W,
    faults: u64,
    history: PutRecord,
}

impl<W: Output + Drop> WriteSink<W> {
    /// A sink that passes each put on to `writer`, without a buffer of its own.
    pub fn new(writer: W) -> WriteSink<W>
        ensures faults { result.faults ≡ 0 }
        ensures puts { result.history.puts ≡ [] }
    {
        WriteSink {
            writer,
            faults: 0,
            history: PutRecord::new(),
        }
    }
}

impl<W: Output + Drop> Sink for WriteSink<W> {
    ghost written = { λ s. Some (joined s.history.puts) };

    ghost faults = { λ s. s.faults };

    ghost puts = { λ s. s.history.puts };

    fn put(&mut self, bytes: &[u8]) -> Result<(), PutFault>
        ensures more_faults { self.old.faults ≤ self.new.faults }
        ensures ok { OnOk result (Some (joined self.new.history.puts)
            ≡ with_bytes (Some (joined self.old.history.puts)) bytes.now) }
        ensures whole { OnOk result
            (self.new.history.puts ≡ bytes.now ∷ self.old.history.puts) }
        ensures failed { OnErr result (Rose self.old.faults self.new.faults) }
        ensures part { OnErr result ((n : ℕ)
            × (Some (joined self.new.history.puts)
            ≡ with_bytes (Some (joined self.old.history.puts)) (take n bytes.now))
            × (self.new.history.puts ≡ take n bytes.now ∷ self.old.history.puts)) }

        // What went out is what the writer took: where it tells its contents, they grow by that.
        ensures passed { (n : ℕ) × (self.new.history.puts ≡ take n bytes.now ∷ self.old.history.puts)
            × Appends (W.contents self.old.writer) (W.contents self.new.writer) (take n bytes.now) }

        // A put fails where a write was refused.
        ensures refused { OnErr result (MayRefuse W.refuses) }
    {
        let count = write_out(&mut self.writer, bytes);
        self.history = self.history.and(&bytes[..count]);
        if count == bytes.len() {
            return Ok(());
        }
        self.faults = count_up(self.faults);
        Err(PutFault::Failed)
    }
}
