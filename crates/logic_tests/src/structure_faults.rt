//! One text for each fault and each condition.

use crate::structure_helpers::{judged_by, rejected_at, text_with};
use cop_base::NoMemory;
use finite_model::{Judged, StructureCause};
use logic_rules::{Domains, Logic, Problem};
use std::alloc::Global;
use std::test::Fail;
use test_problems::{NoProblem, proving};

// One function and one predicate, each of one argument.
fn problem_in(alloc: Global, logic: Logic, domains: Domains) -> Result<Box<Problem>, NoProblem> {
    proving(alloc, logic, domains, b"![X]:p(f(X))")
}

const ONE_WORLD: &[&str] = &[
    "leancop structure 1",
    "logic classical",
    "worlds 1",
    "elements 2",
    "relation 1 1",
    "domain 1 1 2",
    "function f 1 2 1",
    "predicate p 1 1 01",
    "end",
];

// Where and why the text is rejected when one line is another.
fn fault_of(
    alloc: Global,
    problem: &Problem,
    lines: &[&str],
    number: usize,
    other: &str,
) -> Result<Option<(u64, StructureCause)>, NoMemory> {
    let text = text_with(alloc, lines, number, other)?;
    rejected_at(alloc, problem, text.as_slice())
}

const TEXT_ROWS: &[(usize, &str, u64, StructureCause)] = &[
    (1, "leancop structure 2", 1, StructureCause::Version),
    (2, "logic s5 constant", 2, StructureCause::Setting),
    (3, "worlds 65", 3, StructureCause::Size),
    (3, "worlds 01", 3, StructureCause::Size),
    (4, "elements 0", 4, StructureCause::Size),
    (5, "relation 1 2", 5, StructureCause::Line),
    (6, "domain 1 2 1", 6, StructureCause::Line),
    (6, "domain 1  1", 6, StructureCause::Line),
    (7, "function f 1 2", 7, StructureCause::Line),
    (7, "function f 1 2 3", 7, StructureCause::Line),
    (8, "predicate p 1 1 101", 8, StructureCause::Line),
    (8, "predicate p 1 1 12", 8, StructureCause::Line),
    (9, "ende", 9, StructureCause::Line),
    (9, "end\n", 10, StructureCause::TextAfterEnd),
    (6, "domain 1", 6, StructureCause::EmptyDomain),
    (5, "relation 1", 5, StructureCause::Reflexive),
    (6, "domain 1 1", 7, StructureCause::Function),
];

#[test]
fn tells_faults_of_the_text(rt: HostRuntime) -> Result<(), Fail> {
    let alloc = rt.alloc();
    let classical = problem_in(alloc, Logic::Classical, Domains::Constant)?;
    for (number, other, line, cause) in TEXT_ROWS {
        let fault = fault_of(alloc, &classical, ONE_WORLD, *number, other)?;
        assert!(rt; fault == Some((*line, *cause)));
    }
    let cut = fault_of(alloc, &classical, &ONE_WORLD[..8], 0, "")?;
    assert!(rt; cut == Some((9, StructureCause::Line)));
    Ok(())
}

// What the structure says of the problem, and how many steps were taken.
fn judged(alloc: Global, problem: &Problem) -> Result<Option<(Judged, u64)>, NoMemory> {
    let whole = text_with(alloc, ONE_WORLD, 0, "")?;
    judged_by(alloc, problem, whole.as_slice(), 10)
}

#[test]
fn judges_the_text(rt: HostRuntime) -> Result<(), Fail> {
    let classical = problem_in(rt.alloc(), Logic::Classical, Domains::Constant)?;
    assert!(rt; judged(rt.alloc(), &classical)? == Some((Judged::False, 3)));
    Ok(())
}

#[test]
fn counts_entries(rt: HostRuntime) -> Result<(), Fail> {
    let alloc = rt.alloc();
    // two elements have 2 ^ 20 tuples of 20
    let wide = proving(
        alloc,
        Logic::Classical,
        Domains::Constant,
        b"![X]:p(f(X,X,X,X,X,X,X,X,X,X,X,X,X,X,X,X,X,X,X,X))",
    )?;
    let fault = fault_of(alloc, &wide, ONE_WORLD, 0, "")?;
    assert!(rt; fault == Some((4, StructureCause::Size)));
    Ok(())
}

// A setting, a structure of two or three worlds, and the condition of the setting that it breaks.
const CONDITIONS: &[(Logic, Domains, &[&str], Option<(u64, StructureCause)>)] = &[
    (
        Logic::D,
        Domains::Varying,
        &[
            "leancop structure 1",
            "logic d varying",
            "worlds 2",
            "elements 2",
            "relation 1 2",
            "relation 2",
            "domain 1 1 2",
            "domain 2 1 2",
            "function f 1 1 2",
            "predicate p 1 1 10",
            "predicate p 1 2 11",
            "end",
        ],
        Some((6, StructureCause::Serial)),
    ),
    (
        Logic::S4,
        Domains::Constant,
        &[
            "leancop structure 1",
            "logic s4 constant",
            "worlds 2",
            "elements 2",
            "relation 1 1 2",
            "relation 2 2",
            "domain 1 1 2",
            "domain 2 1",
            "function f 1 1 2",
            "predicate p 1 1 10",
            "predicate p 1 2 11",
            "end",
        ],
        Some((8, StructureCause::Domains)),
    ),
    (
        Logic::S4,
        Domains::Cumulative,
        &[
            "leancop structure 1",
            "logic s4 cumulative",
            "worlds 2",
            "elements 2",
            "relation 1 1 2",
            "relation 2 2",
            "domain 1 1 2",
            "domain 2 1",
            "function f 1 1 2",
            "predicate p 1 1 10",
            "predicate p 1 2 11",
            "end",
        ],
        Some((7, StructureCause::Domains)),
    ),
    (
        Logic::S4,
        Domains::Constant,
        &[
            "leancop structure 1",
            "logic s4 constant",
            "worlds 3",
            "elements 1",
            "relation 1 1 2",
            "relation 2 2 3",
            "relation 3 3",
            "domain 1 1",
            "domain 2 1",
            "domain 3 1",
            "function f 1 1",
            "predicate p 1 1 0",
            "predicate p 1 2 0",
            "predicate p 1 3 0",
            "end",
        ],
        Some((5, StructureCause::Transitive)),
    ),
    (
        Logic::S5,
        Domains::Constant,
        &[
            "leancop structure 1",
            "logic s5 constant",
            "worlds 2",
            "elements 2",
            "relation 1 1 2",
            "relation 2 2",
            "domain 1 1 2",
            "domain 2 1 2",
            "function f 1 1 2",
            "predicate p 1 1 10",
            "predicate p 1 2 11",
            "end",
        ],
        Some((6, StructureCause::Total)),
    ),
    (
        Logic::Classical,
        Domains::Constant,
        &[
            "leancop structure 1",
            "logic classical",
            "worlds 2",
            "elements 2",
            "relation 1 1 2",
            "relation 2 1 2",
            "domain 1 1 2",
            "domain 2 1 2",
            "function f 1 1 2",
            "predicate p 1 1 10",
            "predicate p 1 2 11",
            "end",
        ],
        Some((3, StructureCause::Worlds)),
    ),
    (
        Logic::Intuitionistic,
        Domains::Cumulative,
        &[
            "leancop structure 1",
            "logic intuitionistic",
            "worlds 2",
            "elements 2",
            "relation 1 1 2",
            "relation 2 1 2",
            "domain 1 1 2",
            "domain 2 1 2",
            "function f 1 1 2",
            "predicate p 1 1 10",
            "predicate p 1 2 11",
            "end",
        ],
        Some((11, StructureCause::Persistence)),
    ),
    (
        Logic::Intuitionistic,
        Domains::Cumulative,
        &[
            "leancop structure 1",
            "logic intuitionistic",
            "worlds 2",
            "elements 2",
            "relation 1 1 2",
            "relation 2 2",
            "domain 1 1 2",
            "domain 2 1 2",
            "function f 1 1 2",
            "predicate p 1 1 10",
            "predicate p 1 2 11",
            "end",
        ],
        None,
    ),
];

// Where and why the structure is rejected in the setting.
fn fault_in(
    alloc: Global,
    logic: Logic,
    domains: Domains,
    lines: &[&str],
) -> Result<Option<(u64, StructureCause)>, Fail> {
    let problem = problem_in(alloc, logic, domains)?;
    let fault = fault_of(alloc, &problem, lines, 0, "")?;
    Ok(fault)
}

#[test]
fn tells_broken_conditions(rt: HostRuntime) -> Result<(), Fail> {
    for (logic, domains, lines, fault) in CONDITIONS {
        assert!(rt; fault_in(rt.alloc(), *logic, *domains, lines)? == *fault);
    }
    Ok(())
}
