//! The caller's files as a library.

ghost use Rattle.std.specs.Prelude.{◌≡◌, ◌≢◌, ◌<◌, ◌≤◌, Err, Some, None};
ghost use Rattle.std.specs.Prelude.{IfOk, IsSomeAnd, length, vec_len, option_map};
ghost use Rattle.cop_base.specs.Outside.{Files, Rose, file_in};
ghost use Rattle.cop_base.specs.Reads.{AgreesSince, Answers, ReadsOn, answered};
ghost use Rattle.leancop_c.specs.GivenFiles.{files_of};

use crate::LeancopFile;
use cop_base::{FetchFault, Library, ReadRecord, Text};
use std::alloc::Global;

/// Files that stay with the caller. Fetching copies, and never fails to read.
#[derive(Drop)]
pub struct GivenFiles<'a> {
    pub alloc: Global,
    pub files: &'a [LeancopFile<'a>],
    pub misses: u64,
    pub history: ReadRecord,
}

// The bytes of the first file of this name.
fn find_file<'a>(files: &'a [LeancopFile<'a>], name: &Text) -> Option<&'a [u8]>
    ensures { option_map (λ b. b.now) result ≡ file_in (files_of files.now) name.now }
{
    for file in files {
        if file.name.bytes == name.bytes() {
            return Some(file.bytes.bytes);
        }
    }
    None
}

impl<'a> GivenFiles<'a> {
    // What a fetch answers, its misses being counted.
    fn look_up(&mut self, name: &Text, limit: u64) -> Result<Vec<u8>, FetchFault>
        ensures same_files { self.new.files ≡ self.old.files }
        ensures same_history { self.new.history ≡ self.old.history }
        ensures more_misses { self.old.misses ≤ self.new.misses }
        ensures within { IfOk result (λ bytes. vec_len bytes ≤ limit) }
        ensures missing { result ≡ Err FetchFault.Missing → Rose self.old.misses self.new.misses }
        ensures failed { result ≢ Err FetchFault.Failed }
        ensures limited { result ≡ Err FetchFault.TooLarge → limit ≢ u64.MAX }
        ensures of { Answers (file_in (files_of self.old.files.now) name.now) limit result }
    {
        let Some(bytes) = find_file(self.files, name) else {
            self.misses = self.misses.saturating_add(1);
            return Err(FetchFault::Missing);
        };
        if bytes.len() as u64 > limit {
            return Err(FetchFault::TooLarge);
        }
        match Vec::from_slice(self.alloc, bytes) {
            Ok(copy) => Ok(copy),
            Err(_) => Err(FetchFault::NoMemory),
        }
    }
}

impl<'a> Library for GivenFiles<'a> {
    ghost holds = { λ l. Some (files_of l.files.now) };

    ghost faults = { λ l. 0 };

    ghost misses = { λ l. l.misses };

    ghost reads = { λ l. l.history.reads };

    fn fetch(&mut self, name: &Text, limit: u64) -> Result<Vec<u8>, FetchFault>
        ensures same_files { files_of self.new.files.now ≡ files_of self.old.files.now }
        ensures more_faults { 0 ≤ 0 }
        ensures more_misses { self.old.misses ≤ self.new.misses }
        ensures within { IfOk result (λ bytes. vec_len bytes ≤ limit) }
        ensures held { IfOk result (λ bytes.
            file_in (files_of self.old.files.now) name.now ≡ Some bytes.items) }
        ensures missing { result ≡ Err FetchFault.Missing → Rose self.old.misses self.new.misses }
        ensures not_held { result ≡ Err FetchFault.Missing
            → file_in (files_of self.old.files.now) name.now ≡ None }
        ensures failed { result ≡ Err FetchFault.Failed → Rose 0 0 }
        ensures limited { result ≡ Err FetchFault.TooLarge → limit ≢ u64.MAX }
        ensures too_large { result ≡ Err FetchFault.TooLarge → IsSomeAnd
            (file_in (files_of self.old.files.now) name.now) (λ bytes. limit < length bytes) }
        ensures answered { self.new.history.reads
            ≡ answered name.now limit result self.old.history.reads }
        ensures answers { (files : Files)
            → AgreesSince files self.old.history.reads self.new.history.reads
            → Answers (file_in files name.now) limit result }
        ensures reads_on { ReadsOn (Some (files_of self.old.files.now))
            self.old.history.reads self.new.history.reads }
    {
        let answer = self.look_up(name, limit);
        self.history = self.history.and(name, &limit, &answer);
        answer
    }
}
