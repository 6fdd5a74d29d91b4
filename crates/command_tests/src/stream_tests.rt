//! Fetches and puts that fail.

use crate::runs::{derivation, outcome, problem};
use cop_base::NoMemory;
use std::alloc::Global;
use std::test::Fail;

const FIRST: &[u8] = b"fof(c,conjecture,p => p).\n";

const DERIVATION: &[u8] =
    b"leancop derivation 1\nlogic classical\nformula (p => p)\nlimit 1\nuse 1\naxiom 2 3\nend\n";

const TWICE: &[u8] = b"include('ax.p',[b]).\ninclude('ax.p').\nfof(c,conjecture,q).\n";

// The files of each run, by the words.
const CHECKED: &[(&str, &[u8])] = &[("m.p", FIRST), ("d.txt", DERIVATION)];

const ALONE: &[(&str, &[u8])] = &[("m.p", FIRST)];

const INCLUDED: &[(&str, &[u8])] = &[
    ("m.p", TWICE),
    ("ax.p", b"fof(a,axiom,p). fof(b,axiom,p => q).\n"),
];

// A failed fetch is not tried again, and nothing is put after a put that failed: the words, the files, the fetches and
// the puts that fail, and what is written by a run that ends with status 6.
const FAULTS: &[(&[&str], &[(&str, &[u8])], &[u64], &[(u64, u64)], &[u8])] = &[
    (&["prove", "m.p"], INCLUDED, &[1], &[], b"read fault: m.p\n"),
    (
        &["prove", "m.p"],
        INCLUDED,
        &[2],
        &[],
        b"read fault: ax.p\n",
    ),
    (
        &["prove", "m.p"],
        INCLUDED,
        &[3],
        &[],
        b"read fault: ax.p\n",
    ),
    (
        &["check", "m.p", "d.txt"],
        CHECKED,
        &[1],
        &[],
        b"read fault: m.p\n",
    ),
    (
        &["check", "m.p", "d.txt"],
        CHECKED,
        &[2],
        &[],
        b"read fault: d.txt\n",
    ),
    (
        &["check", "m.p", "d.txt"],
        ALONE,
        &[],
        &[],
        b"missing: d.txt\n",
    ),
    (&["prove", "m.p"], ALONE, &[], &[(1, 7)], b"leancop"),
    (&["prove", "m.p"], INCLUDED, &[2], &[(1, 4)], b"read"),
];

// Whether a run in which these fetches and puts fail ends with status 6 and writes this.
fn stops(
    alloc: Global,
    words: &[&str],
    files: &[(&str, &[u8])],
    fetches: &[u64],
    puts: &[(u64, u64)],
    told: &[u8],
) -> Result<bool, NoMemory> {
    let (code, output) = outcome(alloc, words, files, fetches, puts)?;
    Ok(code == 6 && output.as_slice() == told)
}

#[test]
fn tells_faults_of_streams(rt: HostRuntime) -> Result<(), Fail> {
    for (words, files, fetches, puts, told) in FAULTS {
        assert!(rt; stops(rt.alloc(), *words, *files, *fetches, *puts, *told)?);
    }
    Ok(())
}

// The puts that fail with a derivation of 6,080 bytes, which has two pieces, and how much is written.
const CUTS: &[(u64, u64, usize)] = &[(1, 0, 0), (1, 100, 100), (2, 0, 4096), (2, 1984, 6080)];

// The problem whose atom is 3,000 letters long.
fn long_problem(alloc: Global) -> Result<Vec<u8>, NoMemory> {
    let mut conjecture = Vec::new(alloc);
    for _ in 0..3000 {
        conjecture.push(b'a')?;
    }
    conjecture.extend_from_slice(b" => ")?;
    for _ in 0..3000 {
        conjecture.push(b'a')?;
    }
    problem(alloc, conjecture.as_slice())
}

// Whether a run whose put fails so writes the first bytes of the derivation, so many.
fn is_cut(
    alloc: Global,
    text: &[u8],
    derivation: &[u8],
    put: (u64, u64),
    length: usize,
) -> Result<bool, NoMemory> {
    let (code, output) = outcome(alloc, &["prove", "m.p"], &[("m.p", text)], &[], &[put])?;
    Ok(code == 6 && output.len() == length && derivation.starts_with(output.as_slice()))
}

#[test]
fn writes_in_pieces(rt: HostRuntime) -> Result<(), Fail> {
    let text = long_problem(rt.alloc())?;
    let derivation = derivation(rt.alloc(), text.as_slice())?;
    assert_eq!(rt; derivation.len(), 6080);
    for (put, taken, length) in CUTS {
        assert!(rt;
            is_cut(
                rt.alloc(),
                text.as_slice(),
                derivation.as_slice(),
                (*put, *taken),
                *length
            )?
        );
    }
    Ok(())
}
