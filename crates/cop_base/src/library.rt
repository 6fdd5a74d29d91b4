//! Where problems and derivations are read from.

ghost use Rattle.std.specs.Prelude.{◌≡◌, ◌≢◌, ◌<◌, ◌≤◌, ℕ, List, Option, None, Some, length};
ghost use Rattle.std.specs.Prelude.{IfSome, IsSomeAnd, IfOk, vec_len};
ghost use Rattle.cop_base.specs.Outside.{Rose, Files, file_in};
ghost use Rattle.cop_base.specs.Memory.{answers, counted, faults_after, misses_after};
ghost use Rattle.cop_base.specs.Reads.{AgreesSince, Answers, Read, ReadsOn, answered};

use crate::NoMemory;
use crate::text::Text;

/// Why a file was not fetched.
#[derive(Clone, Copy, PartialEq, Eq)]
pub enum FetchFault {
    /// There is no file of this name.
    Missing,
    /// Reading failed.
    Failed,
    /// The file has more bytes than the limit.
    TooLarge,
    NoMemory,
}

/// Files by name. A count that an implementation keeps in a `u64` stays at its greatest value once
/// it is there.
pub trait Library {
    // the files, where the library tells them
    ghost holds: { Self → Option Files };

    // how many fetches failed, and how many names were missing
    ghost faults: { Self → ℕ };

    ghost misses: { Self → ℕ };

    // what the fetches so far have answered, the last one first
    ghost reads: { Self → List Read };

    /// The bytes of the file of this name. A file with more than `limit` bytes is `TooLarge`.
    fn fetch(&mut self, name: &Text, limit: u64) -> Result<Vec<u8>, FetchFault>
        ensures same_files { holds self.new ≡ holds self.old }
        ensures more_faults { faults self.old ≤ faults self.new }
        ensures more_misses { misses self.old ≤ misses self.new }
        ensures within { IfOk result (λ bytes. vec_len bytes ≤ limit) }
        ensures held { IfOk result (λ bytes. IfSome (holds self.old)
            (λ files. file_in files name.now ≡ Some bytes.items)) }
        ensures missing { result ≡ Err FetchFault.Missing
            → Rose (misses self.old) (misses self.new) }
        ensures not_held { result ≡ Err FetchFault.Missing → IfSome (holds self.old)
            (λ files. file_in files name.now ≡ None) }
        ensures failed { result ≡ Err FetchFault.Failed → Rose (faults self.old) (faults self.new) }
        ensures limited { result ≡ Err FetchFault.TooLarge → limit ≢ u64.MAX }
        ensures too_large { result ≡ Err FetchFault.TooLarge → IfSome (holds self.old)
            (λ files. IsSomeAnd (file_in files name.now) (λ bytes. limit < length bytes)) }

        // What is read is exactly the answer, so the files that agree with it answer so, and the
        // files that are told agree with it.
        ensures answered { reads self.new ≡ answered name.now limit result (reads self.old) }
        ensures answers { (files : Files) → AgreesSince files (reads self.old) (reads self.new)
            → Answers (file_in files name.now) limit result }
        ensures reads_on { ReadsOn (holds self.old) (reads self.old) (reads self.new) };
}

// One more, up to the greatest value.
pub fn count_up(count: u64) -> u64
    ensures { result ≡ counted count }
{
    count.saturating_add(1)
}

// How many fetches failed, once one more has answered so.
pub(crate) fn faults_after(answer: &Result<Vec<u8>, FetchFault>, faults: u64) -> u64
    ensures after { result ≡ faults_after answer.now faults }
    ensures more { faults ≤ result }
    ensures rose { answer.now ≡ Err FetchFault.Failed → Rose faults result }
{
    match answer {
        Err(FetchFault::Failed) => count_up(faults),
        Err(FetchFault::Missing | FetchFault::TooLarge | FetchFault::NoMemory) | Ok(_) => faults,
    }
}

// How many names were missing, once one more fetch has answered so.
pub(crate) fn misses_after(answer: &Result<Vec<u8>, FetchFault>, misses: u64) -> u64
    ensures after { result ≡ misses_after answer.now misses }
    ensures more { misses ≤ result }
    ensures rose { answer.now ≡ Err FetchFault.Missing → Rose misses result }
{
    match answer {
        Err(FetchFault::Missing) => count_up(misses),
        Err(FetchFault::Failed | FetchFault::TooLarge | FetchFault::NoMemory) | Ok(_) => misses,
    }
}
