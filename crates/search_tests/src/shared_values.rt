//! Tableaux whose ground values would be of exponential size as trees.

use crate::ends::{End, deepened};
use cop_base::NoMemory;
use logic_rules::{Domains, Logic};
use std::alloc::Global;
use std::test::Fail;
use test_problems::proving;

// So many pairs of `outer` and `inner` before the atom, which it implies: the values chosen at each
// pair hold those of all pairs outside of it twice.
fn implies_itself(
    alloc: Global,
    outer: &[u8],
    inner: &[u8],
    atom: &[u8],
    count: usize,
) -> Result<Vec<u8>, NoMemory> {
    let mut text = Vec::new(alloc);
    for side in 0..2 {
        for _pair in 0..count {
            text.extend_from_slice(outer)?;
            text.extend_from_slice(inner)?;
        }
        text.extend_from_slice(atom)?;
        if side == 0 {
            text.extend_from_slice(b" => ")?;
        }
    }
    Ok(text)
}

const LABELS: [Logic; 3] = [Logic::D, Logic::T, Logic::S4];

#[test]
fn quantifiers_in_turn(rt: HostRuntime) -> Result<(), Fail> {
    let alloc = rt.alloc();
    let text = implies_itself(alloc, b"![X]:", b"?[Y]:", b"p(X,Y)", 30)?;
    let problem = proving(alloc, Logic::Classical, Domains::Constant, &text)?;
    let found = deepened(alloc, &problem, 1000)?;
    assert!(rt; found == (End::Closed(1), 2), "{found:?}");
    Ok(())
}

#[test]
fn operators_in_turn(rt: HostRuntime) -> Result<(), Fail> {
    let alloc = rt.alloc();
    let text = implies_itself(alloc, b"#box:", b"#dia:", b"p", 30)?;
    for logic in LABELS {
        let problem = proving(alloc, logic, Domains::Constant, &text)?;
        let (end, _) = deepened(alloc, &problem, 1000)?;
        assert!(rt; end == End::Closed(1), "{end:?}");
    }
    Ok(())
}
