//! Where files are looked for, and faults of files.

use crate::runs::ends;
use cop_base::{FetchFault, FileLibrary, Library, NoMemory, Text};
use std::alloc::Global;
use std::test::Fail;

const NEAR: &[u8] = b"include('a.p').\nfof(c,conjecture,p).\n";

const FAR: &[u8] = b"include('/a.p').\n";

// Whether a run where m.p is this text and `lib/a.p` has an axiom ends so.
fn fetches_so(
    alloc: Global,
    words: &[&str],
    main: &[u8],
    failing: &[u64],
    status: u8,
    line: &[u8],
) -> Result<bool, NoMemory> {
    let derivation =
        b"leancop derivation 1\nlogic classical\nformula (p => p)\nlimit 1\nuse 1\naxiom 2 3\nend\n".as_slice();
    let files = [
        ("m.p", main),
        ("lib/a.p", b"fof(a,axiom,p).\n"),
        ("d.txt", derivation),
    ];
    ends(alloc, words, &files, failing, status, line)
}

// The axioms of `lib/a.p` are found behind the root, and the derivation is not looked for there.
const FETCHES: &[(&[&str], &[u8], &[u64], u8, &[u8])] = &[
    (
        &["check", "--root=lib", "m.p", "d.txt"],
        NEAR,
        &[],
        0,
        b"accepted\n",
    ),
    (
        &["prove", "--root=lib", "m.p"],
        NEAR,
        &[2],
        6,
        b"read fault: lib/a.p\n",
    ),
    (
        &["prove", "--root=lib", "m.p"],
        FAR,
        &[],
        6,
        b"missing: /a.p\n",
    ),
    (&["prove", "m.p"], NEAR, &[], 6, b"missing: a.p\n"),
    (
        &["check", "--root=lib", "m.p", "e.txt"],
        NEAR,
        &[],
        6,
        b"missing: e.txt\n",
    ),
];

#[test]
fn fetches_behind_the_root(rt: HostRuntime) -> Result<(), Fail> {
    for (words, main, fetches, status, told) in FETCHES {
        assert!(rt; fetches_so(rt.alloc(), *words, *main, *fetches, *status, *told)?);
    }
    Ok(())
}

// A name that is not UTF-8 is that of no file, a folder is no file that can be read, and the last file has more than
// ten bytes.
#[test]
fn tells_faults_of_files(rt: HostRuntime) -> Result<(), Fail> {
    let mut library = FileLibrary::new(rt.alloc(), &rt);
    for (name, fault) in [
        (b"no such file".as_slice(), FetchFault::Missing),
        (b"\xff", FetchFault::Missing),
        (b"/", FetchFault::Failed),
        (b"/proc/self/status", FetchFault::TooLarge),
    ] {
        let name = Text::new(rt.alloc(), name)?;
        assert!(rt; library.fetch(&name, 10) == Err(fault));
    }
    Ok(())
}

// Each process has this file, and its first bytes are known.
#[test]
fn fetches_a_file(rt: HostRuntime) -> Result<(), Fail> {
    let mut library = FileLibrary::new(rt.alloc(), &rt);
    let name = Text::new(rt.alloc(), b"/proc/self/status")?;
    let bytes = library
        .fetch(&name, 1000000)
        .ok()
        .ok_or("the file is there")?;
    assert!(rt; bytes.as_slice().starts_with(b"Name:"));
    Ok(())
}
