//! Worked texts through the public calls.

use cop_base::NoMemory;
use derivation_text::{ParseFault, TextCause, Version, parse, print};
use logic_rules::{Domains, Logic, Problem};
use std::alloc::Global;
use std::test::Fail;
use test_problems::{NoProblem, proving};

// The first four lines of a derivation.
const HEAD: &[u8] = b"leancop derivation 1\nlogic classical\nformula (p => p)\nlimit 1\n";

fn implication(alloc: Global) -> Result<Box<Problem>, NoProblem> {
    proving(alloc, Logic::Classical, Domains::Constant, b"p => p")
}

type Fault = Option<(u64, TextCause)>;

// The fault of a text, or none where it is read as a derivation whose text it is.
fn fault_of(alloc: Global, problem: &Problem, text: &[u8]) -> Result<Fault, NoMemory> {
    match parse(alloc, problem, text) {
        Ok((version, derivation)) => {
            let printed = print(alloc, problem, &derivation, Version::One)?;
            if version == Version::One && printed.as_slice() == text {
                Ok(None)
            } else {
                Ok(Some((0, TextCause::Line)))
            }
        }
        Err(ParseFault::Text { line, cause }) => Ok(Some((line, cause))),
        Err(ParseFault::NoMemory) => Err(NoMemory),
    }
}

// The fault of the text that has these lines after the head.
fn fault_after_head(alloc: Global, problem: &Problem, lines: &[u8]) -> Result<Fault, NoMemory> {
    let mut text = Vec::new(alloc);
    text.extend_from_slice(HEAD)?;
    text.extend_from_slice(lines)?;
    fault_of(alloc, problem, text.as_slice())
}

const READ: &[&[u8]] = &[
    b"use 1\naxiom 2 3\nend\n",
    b"name $$e1 []\nname $$e9 [$$c1,$$d2]\nname $$s1 any\nname $$s4294967295 []\nuse 0\nuse 3 new $$c1\nuse 4 name $$e1\nuse 6 to [$$c1]\nuse 7 to [] name $$e4294967295\naxiom 7 4294967295\nend\n",
];

const GREATEST_LIMIT: &[u8] =
    b"leancop derivation 1\nlogic classical\nformula (p => p)\nlimit 200\nend\n";

#[test]
fn reads_and_prints(rt: HostRuntime) -> Result<(), Fail> {
    let alloc = rt.alloc();
    let problem = implication(alloc)?;
    for lines in READ {
        assert!(rt; fault_after_head(alloc, &problem, lines)? == None);
    }
    assert!(rt; fault_of(alloc, &problem, GREATEST_LIMIT)? == None);
    Ok(())
}

const HEAD_FAULTS: &[(&[u8], u64, TextCause)] = &[
    (b"", 1, TextCause::Version),
    (b"leancop derivation 1", 1, TextCause::Version),
    (b"leancop derivation 3\n", 1, TextCause::Version),
    (b"leancop derivation 2\n", 2, TextCause::Setting),
    (
        b"leancop derivation 1\nlogic t constant\n",
        2,
        TextCause::Setting,
    ),
    (
        b"leancop derivation 1\nlogic classical\nformula (p => q)\n",
        3,
        TextCause::Formula,
    ),
    (
        b"leancop derivation 1\nlogic classical\nformula (p => p)\nlimit 0\n",
        4,
        TextCause::Limit,
    ),
    (
        b"leancop derivation 1\nlogic classical\nformula (p => p)\nlimit 201\n",
        4,
        TextCause::Limit,
    ),
    (
        b"leancop derivation 1\nlogic classical\nformula (p => p)\nlimit 1",
        4,
        TextCause::Limit,
    ),
];

const FAULTS_AFTER_HEAD: &[(&[u8], u64, TextCause)] = &[
    (b"", 5, TextCause::Line),
    (b"name $$e0 []\n", 5, TextCause::Name),
    (b"name $$e2 []\nname $$e2 []\nend\n", 6, TextCause::Name),
    (b"name $$s1 any\nname $$e1 []\nend\n", 6, TextCause::Name),
    (b"name $$e1 []", 5, TextCause::Line),
    (b"use 1\nname $$e1 []\nend\n", 6, TextCause::Line),
    (b"use 01\nend\n", 5, TextCause::Line),
    (b"use 4294967296\nend\n", 5, TextCause::Line),
    (b"use 1 new $$c0\nend\n", 5, TextCause::Line),
    (b"axiom 2  3\nend\n", 5, TextCause::Line),
    (b"use 1\n", 6, TextCause::Line),
    (b"use 1\nend", 6, TextCause::Line),
    (b"use 1\nend\nend\n", 7, TextCause::TextAfterEnd),
    (b"use 1\nend\n ", 7, TextCause::TextAfterEnd),
];

#[test]
fn tells_faults(rt: HostRuntime) -> Result<(), Fail> {
    let alloc = rt.alloc();
    let problem = implication(alloc)?;
    for (text, line, cause) in HEAD_FAULTS {
        assert!(rt; fault_of(alloc, &problem, text)? == Some((*line, *cause)));
    }
    for (lines, line, cause) in FAULTS_AFTER_HEAD {
        assert!(rt; fault_after_head(alloc, &problem, lines)? == Some((*line, *cause)));
    }
    Ok(())
}
