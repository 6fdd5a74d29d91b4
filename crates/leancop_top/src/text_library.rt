//! A library that holds one text.

ghost use Rattle.std.specs.Prelude.{◌≡◌, ◌≢◌, ◌<◌, ◌≤◌, ◌∷◌, [], Err, Some, None};
ghost use Rattle.std.specs.Prelude.{IfOk, IsSomeAnd, length, vec_len};
ghost use Rattle.cop_base.specs.Outside.{Files, Rose, file_in};
ghost use Rattle.cop_base.specs.Reads.{AgreesSince, Answers, ReadsOn, answered};

use cop_base::{FetchFault, Library, ReadRecord, Text};
use std::alloc::Global;

/// A text in memory, as the one file of its name. Fetching never fails.
#[derive(Drop)]
pub struct TextLibrary {
    pub alloc: Global,
    pub name: Text,
    pub text: Vec<u8>,
    pub misses: u64,
    pub history: ReadRecord,
}

impl TextLibrary {
    // What a fetch answers, its misses being counted.
    fn look_up(&mut self, name: &Text, limit: u64) -> Result<Vec<u8>, FetchFault>
        ensures same_name { self.new.name ≡ self.old.name }
        ensures same_text { self.new.text ≡ self.old.text }
        ensures same_history { self.new.history ≡ self.old.history }
        ensures more_misses { self.old.misses ≤ self.new.misses }
        ensures within { IfOk result (λ bytes. vec_len bytes ≤ limit) }
        ensures missing { result ≡ Err FetchFault.Missing → Rose self.old.misses self.new.misses }
        ensures failed { result ≢ Err FetchFault.Failed }
        ensures limited { result ≡ Err FetchFault.TooLarge → limit ≢ u64.MAX }
        ensures of { Answers (file_in ((self.old.name, self.old.text.items) ∷ []) name.now) limit result }
    {
        if self.name != *name {
            self.misses = self.misses.saturating_add(1);
            return Err(FetchFault::Missing);
        }
        if self.text.len() as u64 > limit {
            return Err(FetchFault::TooLarge);
        }
        match Vec::from_slice(self.alloc, self.text.as_slice()) {
            Ok(copy) => Ok(copy),
            Err(_) => Err(FetchFault::NoMemory),
        }
    }
}

impl Library for TextLibrary {
    ghost holds = { λ l. Some ((l.name, l.text.items) ∷ []) };

    ghost faults = { λ l. 0 };

    ghost misses = { λ l. l.misses };

    ghost reads = { λ l. l.history.reads };

    fn fetch(&mut self, name: &Text, limit: u64) -> Result<Vec<u8>, FetchFault>
        ensures same_name { self.new.name ≡ self.old.name }
        ensures same_text { self.new.text ≡ self.old.text }
        ensures more_misses { self.old.misses ≤ self.new.misses }
        ensures within { IfOk result (λ bytes. vec_len bytes ≤ limit) }
        ensures held { IfOk result (λ bytes.
            file_in ((self.old.name, self.old.text.items) ∷ []) name.now ≡ Some bytes.items) }
        ensures missing { result ≡ Err FetchFault.Missing → Rose self.old.misses self.new.misses }
        ensures not_held { result ≡ Err FetchFault.Missing
            → file_in ((self.old.name, self.old.text.items) ∷ []) name.now ≡ None }
        ensures failed { result ≢ Err FetchFault.Failed }
        ensures limited { result ≡ Err FetchFault.TooLarge → limit ≢ u64.MAX }
        ensures too_large { result ≡ Err FetchFault.TooLarge → IsSomeAnd
            (file_in ((self.old.name, self.old.text.items) ∷ []) name.now)
            (λ bytes. limit < length bytes) }
        ensures answered { self.new.history.reads
            ≡ answered name.now limit result self.old.history.reads }
        ensures answers { (files : Files)
            → AgreesSince files self.old.history.reads self.new.history.reads
            → Answers (file_in files name.now) limit result }
        ensures reads_on { ReadsOn (Some ((self.old.name, self.old.text.items) ∷ []))
            self.old.history.reads self.new.history.reads }
    {
        let answer = self.look_up(name, limit);
        self.history = self.history.and(name, &limit, &answer);
        answer
    }
}
