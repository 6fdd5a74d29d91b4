//! The output of a run.

ghost use Rattle.std.specs.Prelude.{◌≡◌, ◌<◌, ◌≤◌, ◌∷◌, Some, OnErr, OnOk, take, ℕ};
ghost use Rattle.cop_base.specs.Outside.{Rose};
ghost use Rattle.cop_sink.specs.Output.{with_bytes};

use cop_sink::{PutFault, PutRecord, Sink};

/// All that is written, in memory. A put fails where memory ends.
#[derive(Drop)]
pub struct Output {
    pub bytes: Vec<u8>,
    pub faults: u64,
    pub history: PutRecord,
}

impl Sink for Output {
    ghost written = { λ o. Some o.bytes.items };

    ghost faults = { λ o. o.faults };

    ghost puts = { λ o. o.history.puts };

    fn put(&mut self, bytes: &[u8]) -> Result<(), PutFault>
        ensures more_faults { self.old.faults ≤ self.new.faults }
        ensures ok { OnOk result
            (Some self.new.bytes.items ≡ with_bytes (Some self.old.bytes.items) bytes.now) }
        ensures whole { OnOk result (self.new.history.puts ≡ bytes.now ∷ self.old.history.puts) }
        ensures failed { OnErr result (Rose self.old.faults self.new.faults) }
        ensures part { OnErr result ((n : ℕ) × (Some self.new.bytes.items
            ≡ with_bytes (Some self.old.bytes.items) (take n bytes.now))
            × (self.new.history.puts ≡ take n bytes.now ∷ self.old.history.puts)) }
    {
        match self.bytes.extend_from_slice(bytes) {
            Ok(()) => {
                self.history = self.history.and(bytes);
                Ok(())
            }
            Err(_) => {
                self.history = self.history.and(&bytes[..0]);
                self.faults = self.faults.saturating_add(1);
                Err(PutFault::Failed)
            }
        }
    }
}
