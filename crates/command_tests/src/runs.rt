//! Runs over a library and a sink in memory.

use cop_base::{MemLibrary, NoMemory, Text};
use cop_sink::MemSink;
use leancop_top::{exit_code, run};
use std::alloc::Global;

// The files by name and content, where the fetches in `failing` fail.
fn library(
    alloc: Global,
    texts: &[(&str, &[u8])],
    failing: &[u64],
) -> Result<MemLibrary, NoMemory> {
    let mut files = Vec::new(alloc);
    for (name, text) in texts {
        files.push(file(alloc, name, text)?)?;
    }
    let failing = failing.to_vec(alloc)?;
    MemLibrary::new(alloc, files, failing)
}

fn file(alloc: Global, name: &str, text: &[u8]) -> Result<(Text, Vec<u8>), NoMemory> {
    let name = Text::new(alloc, name.as_bytes())?;
    Ok((name, text.to_vec(alloc)?))
}

fn list(alloc: Global, words: &[&str]) -> Result<Vec<String>, NoMemory> {
    let mut list = Vec::new(alloc);
    for word in words {
        list.push(String::from_str(alloc, word)?)?;
    }
    Ok(list)
}

fn written_by(
    alloc: Global,
    words: &Vec<String>,
    mut library: MemLibrary,
    puts: &[(u64, u64)],
) -> Result<(u8, Vec<u8>), NoMemory> {
    let mut sink = MemSink::new(alloc, 1000000, puts.to_vec(alloc)?)?;
    let status = run(alloc, words, &mut library, &mut sink);
    Ok((exit_code(&status), sink.written().to_vec(alloc)?))
}

// The exit status and the bytes written by a run with these words, where these are the files. The
// fetches and puts in `fetches` and `puts` fail.
pub fn outcome(
    alloc: Global,
    words: &[&str],
    texts: &[(&str, &[u8])],
    fetches: &[u64],
    puts: &[(u64, u64)],
) -> Result<(u8, Vec<u8>), NoMemory> {
    let words = list(alloc, words)?;
    let library = library(alloc, texts, fetches)?;
    written_by(alloc, &words, library, puts)
}

// Whether a run ends with this status and writes this line, and no more.
pub fn ends(
    alloc: Global,
    words: &[&str],
    texts: &[(&str, &[u8])],
    fetches: &[u64],
    status: u8,
    line: &[u8],
) -> Result<bool, NoMemory> {
    let (code, output) = outcome(alloc, words, texts, fetches, &[])?;
    Ok(code == status && output.as_slice() == line)
}

// Whether a run ends with this status and first writes this.
pub fn begins(
    alloc: Global,
    words: &[&str],
    texts: &[(&str, &[u8])],
    status: u8,
    head: &[u8],
) -> Result<bool, NoMemory> {
    let (code, output) = outcome(alloc, words, texts, &[], &[])?;
    Ok(code == status && output.as_slice().starts_with(head))
}

// The text of a problem with this conjecture.
pub fn problem(alloc: Global, conjecture: &[u8]) -> Result<Vec<u8>, NoMemory> {
    let mut text = b"fof(c,conjecture,".as_slice().to_vec(alloc)?;
    text.extend_from_slice(conjecture)?;
    text.extend_from_slice(b").\n")?;
    Ok(text)
}

// Whether `prove m.p` on the text ends with this status and writes this line.
pub fn prove_ends(alloc: Global, text: &[u8], status: u8, line: &[u8]) -> Result<bool, NoMemory> {
    ends(
        alloc,
        &["prove", "m.p"],
        &[("m.p", text)],
        &[],
        status,
        line,
    )
}

// The derivation that `prove m.p` writes for the text, or nothing where it ends otherwise.
pub fn derivation(alloc: Global, text: &[u8]) -> Result<Vec<u8>, NoMemory> {
    let (code, output) = outcome(alloc, &["prove", "m.p"], &[("m.p", text)], &[], &[])?;
    if code == 0 {
        Ok(output)
    } else {
        Ok(Vec::new(alloc))
    }
}

// Whether `check m.p d.txt` accepts the derivation.
fn accepts(alloc: Global, text: &[u8], derivation: &[u8]) -> Result<bool, NoMemory> {
    let files = [("m.p", text), ("d.txt", derivation)];
    ends(
        alloc,
        &["check", "m.p", "d.txt"],
        &files,
        &[],
        0,
        b"accepted\n",
    )
}

// Whether `check` accepts what `prove` writes for the text.
pub fn derives(alloc: Global, text: &[u8]) -> Result<bool, NoMemory> {
    let derivation = derivation(alloc, text)?;
    accepts(alloc, text, derivation.as_slice())
}
