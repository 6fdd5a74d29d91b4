//! The trusted edge: files of the runtime. What a file holds is told by what is read of it alone,
//! answer by answer.

ghost use Rattle.std.specs.Prelude.{◌≡◌, ◌≢◌, ◌+◌, ◌<◌, ◌≤◌, ℕ, List, [], None, IfOk, IfSome};
ghost use Rattle.std.specs.Prelude.{Option, IfErr, IsSomeAnd, length, vec_len};
ghost use Rattle.std.specs.IoError.{error_kind};
ghost use Rattle.std.specs.declared.io.ErrorKind.{ErrorKind as Kind};
ghost use Rattle.cop_base.specs.Outside as tree;
ghost use Rattle.cop_base.specs.Outside.{Rose};
ghost use Rattle.cop_base.specs.Reads.{AgreesSince, Answers, IsReadFrom, ReadsOn, answered};

use crate::library::{FetchFault, Library, faults_after, misses_after};
use crate::record::ReadRecord;
use crate::text::Text;
use std::alloc::{AllocError, Global};
use std::io::{ErrorKind, Read};
use std::rt::Files;
use std::{fs, io};

/// What opens files by their paths.
pub trait Open {
    type File: Read + Drop;

    // which files may be opened by a path, where the bytes of the path are told
    ghost opens: { Self → List ℕ → Self.File → Type 0 };

    // why the opening of a path may be refused, where that is told
    ghost refuses: { Self → List ℕ → Kind → Type 0 };

    /// Opens the file of this path to read it.
    fn open(&self, path: &str) -> io::Result<Self::File>
        ensures opened { IfOk result (λ file. opens self.now path.now file) }
        ensures refused { IfErr result (λ e. refuses self.now path.now (error_kind e)) };
}

/// The runtime tells nothing of what it opens or refuses.
impl<R: Files> Open for R {
    type File = R::File;

    ghost opens = { λ _ _ _. Unit {0} };

    ghost refuses = { λ _ _ _. Unit {0} };

    fn open(&self, path: &str) -> io::Result<R::File> {
        fs::open(self, path)
    }
}

/// Files by their paths from the current folder.
#[derive(Drop)]
pub struct FileLibrary<'a, R: Open> {
    alloc: Global,
    runtime: &'a R,
    faults: u64,
    misses: u64,
    history: ReadRecord,
}

impl<'a, R: Open> FileLibrary<'a, R> {
    /// The files that `runtime` reaches. No file is opened before it is fetched.
    pub fn new(alloc: Global, runtime: &'a R) -> FileLibrary<'a, R>
        ensures faults { result.faults ≡ 0 }
        ensures misses { result.misses ≡ 0 }
        ensures reads { result.history.reads ≡ [] }
    {
        FileLibrary {
            alloc,
            runtime,
            faults: 0,
            misses: 0,
            history: ReadRecord::new(),
        }
    }
}

fn read_fault(error: &io::Error) -> FetchFault
    ensures limited { result ≢ FetchFault.TooLarge }
    ensures missing { result ≢ FetchFault.Missing }
{
    match error.kind() {
        ErrorKind::OutOfMemory => FetchFault::NoMemory,
        _ => FetchFault::Failed,
    }
}

fn open_fault(error: &io::Error) -> FetchFault
    ensures limited { result ≢ FetchFault.TooLarge }
    ensures missing { result ≡ FetchFault.Missing → error_kind error.now ≡ ErrorKind.NotFound }
    ensures failed { result ≡ FetchFault.Failed → error_kind error.now ≢ ErrorKind.NotFound }
{
    match error.kind() {
        ErrorKind::NotFound => FetchFault::Missing,
        _ => read_fault(error),
    }
}

/// What a reader has left, to its end, or `None` where that is more than `limit` bytes.
pub fn read_whole<F: Read>(alloc: Global, file: &mut F, limit: u64) -> io::Result<Option<Vec<u8>>>
    ensures within { IfOk result (λ read. IfSome read (λ bytes. vec_len bytes ≤ limit)) }
    ensures limited { result ≡ Ok None → limit ≢ u64.MAX }
    ensures whole { IfOk result (λ read. IfSome read (λ bytes.
        IfSome (F.remaining file.old) (λ all. bytes.items ≡ all))) }
    ensures more { result ≡ Ok None → IfSome (F.remaining file.old) (λ all. limit < length all) }
{
    let mut bytes = Vec::new(alloc);
    let mut first = file.take(limit.saturating_add(1));
    first.read_to_end(&mut bytes)?;
    if bytes.len() as u64 > limit {
        return Ok(None);
    }
    Ok(Some(bytes))
}

// The whole file of this name.
fn read_file<R: Open>(
    alloc: Global,
    runtime: &R,
    name: &Text,
    limit: u64,
) -> Result<Vec<u8>, FetchFault>
    ensures within { IfOk result (λ bytes. vec_len bytes ≤ limit) }
    ensures limited { result ≡ Err FetchFault.TooLarge → limit ≢ u64.MAX }
    ensures read { IsReadFrom R.File.remaining (R.opens runtime.now name.now)
        (R.refuses runtime.now name.now) name.now limit result }
{
    let Ok(path) = str::from_utf8(name.bytes()) else {
        return Err(FetchFault::Missing);
    };
    let mut file = match runtime.open(path) {
        Ok(file) => file,
        Err(e) => return Err(open_fault(&e)),
    };
    match read_whole(alloc, &mut file, limit) {
        Ok(Some(bytes)) => Ok(bytes),
        Ok(None) => Err(FetchFault::TooLarge),
        Err(e) => Err(read_fault(&e)),
    }
}

impl<'a, R: Open> Library for FileLibrary<'a, R> {
    ghost holds = { λ _. None };

    ghost faults = { λ l. l.faults };

    ghost misses = { λ l. l.misses };

    ghost reads = { λ l. l.history.reads };

    fn fetch(&mut self, name: &Text, limit: u64) -> Result<Vec<u8>, FetchFault>
        ensures same_files { ◌≡◌ {A = Option tree.Files} None None }
        ensures more_faults { self.old.faults ≤ self.new.faults }
        ensures more_misses { self.old.misses ≤ self.new.misses }
        ensures within { IfOk result (λ bytes. vec_len bytes ≤ limit) }
        ensures held { IfOk result (λ bytes. IfSome None
            (λ files. tree.file_in files name.now ≡ Some bytes.items)) }
        ensures missing { result ≡ Err FetchFault.Missing → Rose self.old.misses self.new.misses }
        ensures not_held { result ≡ Err FetchFault.Missing → IfSome None
            (λ files. tree.file_in files name.now ≡ None) }
        ensures failed { result ≡ Err FetchFault.Failed → Rose self.old.faults self.new.faults }
        ensures limited { result ≡ Err FetchFault.TooLarge → limit ≢ u64.MAX }
        ensures too_large { result ≡ Err FetchFault.TooLarge → IfSome None
            (λ files. IsSomeAnd (tree.file_in files name.now) (λ bytes. limit < length bytes)) }
        ensures answered { self.new.history.reads
            ≡ answered name.now limit result self.old.history.reads }
        ensures answers { (files : tree.Files)
            → AgreesSince files self.old.history.reads self.new.history.reads
            → Answers (tree.file_in files name.now) limit result }
        ensures reads_on { ReadsOn None self.old.history.reads self.new.history.reads }

        // The answer is what a reader had left that was opened by the name, or why there is none.
        ensures read { IsReadFrom R.File.remaining (R.opens self.old.runtime.now name.now)
            (R.refuses self.old.runtime.now name.now) name.now limit result }
    {
        let answer = read_file(self.alloc, self.runtime, name, limit);
        self.faults = faults_after(&answer, self.faults);
        self.misses = misses_after(&answer, self.misses);
        self.history = self.history.and(name, &limit, &answer);
        answer
    }
}
