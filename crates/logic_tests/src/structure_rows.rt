//! A classical and an intuitionistic structure of the atom `p`.

use crate::structure_helpers::{judged_by, rejected_at, text_with};
use cop_base::NoMemory;
use finite_model::{Judged, StructureCause};
use logic_rules::{Domains, Logic, Problem};
use std::alloc::Global;
use std::test::Fail;
use test_problems::proving;

const CLASSICAL: &[&str] = &[
    "leancop structure 1",
    "logic classical",
    "worlds 1",
    "elements 1",
    "relation 1 1",
    "domain 1 1",
    "predicate p 0 1 0",
    "end",
];

// What a structure of one world says of the problem in so many steps.
fn at_one_world(
    alloc: Global,
    problem: &Problem,
    digit: &str,
    budget: u64,
) -> Result<Option<(Judged, u64)>, NoMemory> {
    let text = text_with(alloc, CLASSICAL, 7, digit)?;
    judged_by(alloc, problem, text.as_slice(), budget)
}

#[test]
fn judges_at_one_world(rt: HostRuntime) -> Result<(), Fail> {
    let alloc = rt.alloc();
    let p = proving(alloc, Logic::Classical, Domains::Constant, b"p")?;
    assert!(rt; at_one_world(alloc, &p, "predicate p 0 1 0", 1)? == Some((Judged::False, 1)));
    assert!(rt; at_one_world(alloc, &p, "predicate p 0 1 1", 1)? == Some((Judged::True, 1)));
    assert!(rt; at_one_world(alloc, &p, "predicate p 0 1 1", 0)? == Some((Judged::Steps, 0)));
    Ok(())
}

const INTUITIONISTIC: &[&str] = &[
    "leancop structure 1",
    "logic intuitionistic",
    "worlds 2",
    "elements 1",
    "relation 1 1 2",
    "relation 2 2",
    "domain 1 1",
    "domain 2 1",
    "predicate p 0 1 0",
    "predicate p 0 2 1",
    "end",
];

const EXCHANGED: &[&str] = &[
    "leancop structure 1",
    "logic intuitionistic",
    "worlds 2",
    "elements 1",
    "relation 1 1 2",
    "relation 2 2",
    "domain 1 1",
    "domain 2 1",
    "predicate p 0 1 1",
    "predicate p 0 2 0",
    "end",
];

#[test]
fn judges_at_two_worlds(rt: HostRuntime) -> Result<(), Fail> {
    let alloc = rt.alloc();
    let middle = proving(alloc, Logic::Intuitionistic, Domains::Cumulative, b"p | ~p")?;
    let text = text_with(alloc, INTUITIONISTIC, 0, "")?;
    // the disjunction, p at the first world, its denial there, and p at the two worlds that it reaches
    assert!(rt; judged_by(alloc, &middle, text.as_slice(), 100)? == Some((Judged::False, 5)));
    let exchanged = text_with(alloc, EXCHANGED, 0, "")?;
    let fault = rejected_at(alloc, &middle, exchanged.as_slice())?;
    assert!(rt; fault == Some((9, StructureCause::Persistence)));
    let unrelated = text_with(alloc, INTUITIONISTIC, 5, "relation 1 2")?;
    let fault = rejected_at(alloc, &middle, unrelated.as_slice())?;
    assert!(rt; fault == Some((5, StructureCause::Reflexive)));
    Ok(())
}
