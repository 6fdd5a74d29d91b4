//! The budget of a search, files and output in memory.

use cop_base::{Ledger, Library, MemLibrary, NoMemory, Text};
use cop_sink::{MemSink, Sink};
use std::alloc::Global;
use std::test::Fail;

#[test]
fn takes_the_budget(rt: HostRuntime) {
    let mut ledger = Ledger::new(1);
    assert!(rt; ledger.take() && !ledger.take());
    assert!(rt; ledger.used == 1);
}

fn file(alloc: Global, name: &[u8], bytes: &[u8]) -> Result<(Text, Vec<u8>), NoMemory> {
    let name = Text::new(alloc, name)?;
    Ok((name, Vec::from_slice(alloc, bytes)?))
}

// Two files of one name; the second fetch fails.
fn library(alloc: Global) -> Result<MemLibrary, NoMemory> {
    let failing = Vec::from_slice(alloc, &[2])?;
    let mut files = Vec::new(alloc);
    files.push(file(alloc, b"a", b"one")?)?;
    files.push(file(alloc, b"a", b"two")?)?;
    MemLibrary::new(alloc, files, failing)
}

// The first file of the name counts, and the second fetch fails.
fn is_fetched_once(library: &mut MemLibrary, name: &Text, bytes: &[u8]) -> bool {
    match library.fetch(name, 3) {
        Ok(fetched) => fetched.as_slice() == bytes && library.fetch(name, 3).is_err(),
        Err(_) => false,
    }
}

#[test]
fn fetches_the_first_file(rt: HostRuntime) -> Result<(), Fail> {
    let mut library = library(rt.alloc())?;
    let name = Text::new(rt.alloc(), b"a")?;
    assert!(rt; is_fetched_once(&mut library, &name, b"one"));
    Ok(())
}

// A sink of nine bytes, of which the second put takes three and fails.
fn sink(alloc: Global) -> Result<MemSink, NoMemory> {
    let failing = Vec::from_slice(alloc, &[(2, 3)])?;
    MemSink::new(alloc, 9, failing)
}

fn is_put(sink: &mut MemSink, bytes: &[u8]) -> bool {
    sink.put(bytes).is_ok()
}

// The fourth put does not fit.
fn takes_what_fits_in(sink: &mut MemSink) -> bool {
    is_put(sink, b"abcd")
        && !is_put(sink, b"efgh")
        && is_put(sink, b"i")
        && !is_put(sink, b"jk")
        && sink.written() == b"abcdefgij".as_slice()
}

#[test]
fn takes_what_fits(rt: HostRuntime) -> Result<(), Fail> {
    let mut sink = sink(rt.alloc())?;
    assert!(rt; takes_what_fits_in(&mut sink));
    Ok(())
}
