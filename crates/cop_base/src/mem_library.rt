//! Files in memory, with the fetches that fail.

ghost use Rattle.std.specs.Prelude.{◌≡◌, ◌≢◌, ◌<◌, ◌≤◌, [], None, Some, length};
ghost use Rattle.std.specs.Prelude.{option_copied, IsSomeAnd, IfOk, IsOkAnd, vec_len};
ghost use Rattle.std.specs.Option.{option_map};
ghost use Rattle.cop_base.specs.Outside.{Rose, Files, file_in, files_of};
ghost use Rattle.cop_base.specs.Memory.{IsFetched, after_fetch, answers};
ghost use Rattle.cop_base.specs.Reads.{AgreesSince, Answers, ReadsOn, answered};

use crate::NoMemory;
use crate::library::{FetchFault, Library, count_up, faults_after, misses_after};
use crate::record::ReadRecord;
use crate::text::Text;
use std::alloc::Global;
use std::marker::Model;

/// Files in memory.
#[derive(Drop)]
pub struct MemLibrary {
    alloc: Global,
    files: Vec<(Text, Vec<u8>)>,
    failing: Vec<u64>,
    calls: u64,
    faults: u64,
    misses: u64,
    history: ReadRecord,
}

impl Model for MemLibrary {
    ghost use Rattle.cop_base.specs.Memory.{FilesInMemory};
    ghost use Rattle.cop_base.specs.Outside.{files_of};

    ghost Value = { FilesInMemory };

    ghost view = { λ l. record {
      files = files_of l.files.items;
      failing = l.failing.items;
      calls = l.calls;
      faults = l.faults;
      misses = l.misses;
      reads = l.history.reads;
    } };
}

impl MemLibrary {
    /// A library of these files; of each name the first one counts. The fetches whose numbers, from
    /// 1, stand in `failing` fail.
    pub fn new(
        alloc: Global,
        files: Vec<(Text, Vec<u8>)>,
        failing: Vec<u64>,
    ) -> Result<MemLibrary, NoMemory>
        ensures { IsOkAnd result (λ l. l ≡ record {
          files = files_of files.items;
          failing = failing.items;
          calls = 0;
          faults = 0;
          misses = 0;
          reads = [];
        }) }
    {
        Ok(MemLibrary {
            alloc,
            files,
            failing,
            calls: 0,
            faults: 0,
            misses: 0,
            history: ReadRecord::new(),
        })
    }
}

// The first file of this name.
fn find_file<'a>(files: &'a Vec<(Text, Vec<u8>)>, name: &Text) -> Option<&'a Vec<u8>>
    ensures { option_map (λ bytes. bytes.items) (option_copied result)
        ≡ file_in (files_of files.now.items) name.now }
{
    for file in files.iter() {
        if file.0 == *name {
            return Some(&file.1);
        }
    }
    None
}

// What a fetch answers that does not fail.
fn copy_of(
    alloc: Global,
    files: &Vec<(Text, Vec<u8>)>,
    name: &Text,
    limit: u64,
) -> Result<Vec<u8>, FetchFault>
    ensures answer { answers (file_in (files_of files.now.items) name.now) limit result }
    ensures of { Answers (file_in (files_of files.now.items) name.now) limit result }
    ensures limited { result ≡ Err FetchFault.TooLarge → limit ≢ u64.MAX }
{
    let Some(bytes) = find_file(files, name) else {
        return Err(FetchFault::Missing);
    };
    if bytes.len() as u64 > limit {
        return Err(FetchFault::TooLarge);
    }
    match Vec::from_slice(alloc, bytes.as_slice()) {
        Ok(copy) => Ok(copy),
        Err(_) => Err(FetchFault::NoMemory),
    }
}

impl Library for MemLibrary {
    ghost holds = { λ l. Some l.files };

    ghost faults = { λ l. l.faults };

    ghost misses = { λ l. l.misses };

    ghost reads = { λ l. l.reads };

    fn fetch(&mut self, name: &Text, limit: u64) -> Result<Vec<u8>, FetchFault>
        ensures same_files { self.new.files ≡ self.old.files }
        ensures answer { IsFetched self.old name.now limit result }
        ensures after { self.new ≡ after_fetch self.old name.now limit result }
        ensures more_faults { self.old.faults ≤ self.new.faults }
        ensures more_misses { self.old.misses ≤ self.new.misses }
        ensures within { IfOk result (λ bytes. vec_len bytes ≤ limit) }
        ensures held { IfOk result (λ bytes. file_in self.old.files name.now ≡ Some bytes.items) }
        ensures missing { result ≡ Err FetchFault.Missing → Rose self.old.misses self.new.misses }
        ensures not_held { result ≡ Err FetchFault.Missing
            → file_in self.old.files name.now ≡ None }
        ensures failed { result ≡ Err FetchFault.Failed → Rose self.old.faults self.new.faults }
        ensures limited { result ≡ Err FetchFault.TooLarge → limit ≢ u64.MAX }
        ensures too_large { result ≡ Err FetchFault.TooLarge
            → IsSomeAnd (file_in self.old.files name.now) (λ bytes. limit < length bytes) }
        ensures answered { self.new.reads ≡ answered name.now limit result self.old.reads }
        ensures answers { (files : Files) → AgreesSince files self.old.reads self.new.reads
            → Answers (file_in files name.now) limit result }
        ensures reads_on { ReadsOn (Some self.old.files) self.old.reads self.new.reads }
    {
        self.calls = count_up(self.calls);
        let answer = if self.failing.as_slice().contains(&self.calls) {
            Err(FetchFault::Failed)
        } else {
            copy_of(self.alloc, &self.files, name, limit)
        };
        self.faults = faults_after(&answer, self.faults);
        self.misses = misses_after(&answer, self.misses);
        self.history = self.history.and(name, &limit, &answer);
        answer
    }
}
