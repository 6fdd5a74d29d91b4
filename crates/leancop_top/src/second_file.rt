//! Fetching what is read beside a problem.

ghost use Rattle.std.specs.Prelude.{◌≡◌, ◌≤◌, IfOk, Option};
ghost use Rattle.cop_base.specs.Outside.{Files};
ghost use Rattle.cop_base.specs.Reads.{ReadsOn};
ghost use Rattle.leancop_top.specs.SecondFile.{IsFetching, IsFetchingCounted};
ghost use Rattle.problem_build.specs.Fetching.{ReadsOnly};

use crate::status::Status;
use cop_base::{FetchFault, Library, NoMemory, Text};
use std::alloc::Global;

/// The bytes of a file, or the status that tells why there are none.
#[derive(Drop)]
pub enum SecondFile {
    Fetched(Vec<u8>),
    NotFetched(Status),
}

/// The bytes of the file of this name.
pub fn fetch_second<L: Library>(
    alloc: Global,
    lib: &mut L,
    name: &str,
) -> Result<SecondFile, NoMemory>
    ensures same_files { L.holds lib.new ≡ L.holds lib.old }
    ensures more_faults { L.faults lib.old ≤ L.faults lib.new }
    ensures more_misses { L.misses lib.old ≤ L.misses lib.new }
    ensures reads_on { ReadsOn (L.holds lib.old) (L.reads lib.old) (L.reads lib.new) }
    ensures reads_only { ReadsOnly (λ n. n ≡ name.now) (L.reads lib.old) (L.reads lib.new) }
    ensures fetching { (told : Option Files) → ReadsOn told (L.reads lib.old) (L.reads lib.new)
        → IfOk result (λ f. IsFetching told name.now f) }
    ensures counted { IfOk result (λ f. IsFetchingCounted
        (L.misses lib.old) (L.misses lib.new) (L.faults lib.old) (L.faults lib.new)
        (L.reads lib.new) f) }
{
    let name = Text::new(alloc, name.as_bytes())?;
    match lib.fetch(&name, u64::MAX) {
        Ok(bytes) => Ok(SecondFile::Fetched(bytes)),
        Err(FetchFault::Missing) => Ok(SecondFile::NotFetched(Status::Missing { name })),
        Err(FetchFault::Failed) => Ok(SecondFile::NotFetched(Status::ReadFault { name })),
        Err(FetchFault::TooLarge) => unreachable!(),
        Err(FetchFault::NoMemory) => Err(NoMemory),
    }
}
