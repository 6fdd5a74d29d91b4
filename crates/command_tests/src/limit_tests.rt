//! Problems at the limits of what is read, and above them.

use crate::runs::{problem, prove_ends};
use crate::transfer_tests::negations;
use cop_base::NoMemory;
use itoa::Buffer;
use std::alloc::Global;
use std::test::Fail;

// Whether so many spaces are no problem, and this is the line that tells it.
fn spaces_end(alloc: Global, count: usize, line: &[u8]) -> Result<bool, NoMemory> {
    let mut text = Vec::new(alloc);
    for _ in 0..count {
        text.push(b' ')?;
    }
    prove_ends(alloc, text.as_slice(), 4, line)
}

#[test]
fn reads_16_mebibytes(rt: HostRuntime) -> Result<(), Fail> {
    assert!(rt; spaces_end(rt.alloc(), 16777216, b"m.p:16777216: no formula\n")?);
    assert!(rt; spaces_end(rt.alloc(), 16777217, b"input too large\n")?);
    Ok(())
}

fn negations_end(alloc: Global, count: usize, status: u8, line: &[u8]) -> Result<bool, NoMemory> {
    let text = negations(alloc, count)?;
    prove_ends(alloc, text.as_slice(), status, line)
}

#[test]
fn reads_500_levels(rt: HostRuntime) -> Result<(), Fail> {
    assert!(rt; negations_end(rt.alloc(), 500, 2, b"no tableau at limit 1\n")?);
    assert!(rt; negations_end(rt.alloc(), 501, 4, b"nesting too deep\n")?);
    Ok(())
}

// A disjunction of so many different atoms, and how `prove` ends with it.
fn atoms_end(alloc: Global, count: usize, status: u8, line: &[u8]) -> Result<bool, NoMemory> {
    let mut numbers = Buffer::new();
    let mut conjecture = b"p".as_slice().to_vec(alloc)?;
    for number in 1..count {
        conjecture.extend_from_slice(b"|p")?;
        conjecture.extend_from_slice(numbers.format(number).as_bytes())?;
    }
    let text = problem(alloc, conjecture.as_slice())?;
    prove_ends(alloc, text.as_slice(), status, line)
}

#[test]
fn reads_65536_symbols(rt: HostRuntime) -> Result<(), Fail> {
    assert!(rt; atoms_end(rt.alloc(), 65536, 2, b"no tableau at limit 1\n")?);
    assert!(rt; atoms_end(rt.alloc(), 65537, 4, b"too many symbols\n")?);
    Ok(())
}

// So many equivalences inside one another, each of which doubles what is in it.
fn equivalences_end(alloc: Global, count: usize, line: &[u8]) -> Result<bool, NoMemory> {
    let mut conjecture = Vec::new(alloc);
    for _ in 0..count {
        conjecture.extend_from_slice(b"(p <=> ")?;
    }
    conjecture.push(b'p')?;
    for _ in 0..count {
        conjecture.push(b')')?;
    }
    let text = problem(alloc, conjecture.as_slice())?;
    prove_ends(alloc, text.as_slice(), 4, line)
}

#[test]
fn expands_up_to_4000000_nodes(rt: HostRuntime) -> Result<(), Fail> {
    assert!(rt; equivalences_end(rt.alloc(), 19, b"matrix too large\n")?);
    assert!(rt; equivalences_end(rt.alloc(), 20, b"formula too large\n")?);
    Ok(())
}
