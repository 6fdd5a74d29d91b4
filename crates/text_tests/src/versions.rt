//! Texts of version 2 through the public calls.

use cop_base::NoMemory;
use derivation_text::{ParseFault, TextCause, Version, parse, print};
use logic_rules::{Domains, Logic, Problem};
use std::alloc::Global;
use std::test::Fail;
use test_problems::{NoProblem, proving};

const HEAD_ONE: &[u8] = b"leancop derivation 1\nlogic classical\nformula (p => p)\nlimit 1\n";

const HEAD_TWO: &[u8] = b"leancop derivation 2\nlogic classical\nformula (p => p)\nlimit 1\n";

fn implication(alloc: Global) -> Result<Box<Problem>, NoProblem> {
    proving(alloc, Logic::Classical, Domains::Constant, b"p => p")
}

fn text_of(alloc: Global, head: &[u8], lines: &[u8]) -> Result<Vec<u8>, NoMemory> {
    let mut text = Vec::new(alloc);
    text.extend_from_slice(head)?;
    text.extend_from_slice(lines)?;
    Ok(text)
}

// Whether the text is read as one of this version, and printed in both as given.
fn is_read(
    alloc: Global,
    problem: &Problem,
    text: &[u8],
    version: Version,
    one: &[u8],
    two: &[u8],
) -> Result<bool, NoMemory> {
    match parse(alloc, problem, text) {
        Ok((found, d)) => {
            let first = print(alloc, problem, &d, Version::One)?;
            let second = print(alloc, problem, &d, Version::Two)?;
            Ok(found == version && first.as_slice() == one && second.as_slice() == two)
        }
        Err(ParseFault::Text { .. }) => Ok(false),
        Err(ParseFault::NoMemory) => Err(NoMemory),
    }
}

const PAIRS: &[(&[u8], &[u8])] = &[
    (b"use 1\naxiom 2 3\nend\n", b"use 1\naxiom 2 3\nend\n"),
    (
        b"name $$e1 []\nname $$e9 [$$c1,$$d2]\nname $$s1 any\nname $$s4294967295 []\nuse 0 term $$s1\nuse 3 new $$c1\nuse 4 name $$e1\nuse 6 to [$$c1,$$d2] term $$e9\nuse 7 to [$$c1] term $$s1\nuse 7 to [] name $$e4294967295\naxiom 7 4294967295\nend\n",
        b"label 1 []\nlabel 2 [$$c1,$$d2]\nlabel 3 [$$c1]\nname $$e1 1\nname $$e9 2\nname $$s1 any\nname $$s4294967295 1\nterm 1 $$s1\nterm 2 $$e9\nuse 0 term 1\nuse 3 new $$c1\nuse 4 name $$e1\nuse 6 to 2 term 2\nuse 7 to 3 term 1\nuse 7 to 1 name $$e4294967295\naxiom 7 4294967295\nend\n",
    ),
];

#[test]
fn reads_both(rt: HostRuntime) -> Result<(), Fail> {
    let alloc = rt.alloc();
    let problem = implication(alloc)?;
    for (one, two) in PAIRS {
        let one = text_of(alloc, HEAD_ONE, one)?;
        let two = text_of(alloc, HEAD_TWO, two)?;
        assert!(rt;
            is_read(
                alloc,
                &problem,
                one.as_slice(),
                Version::One,
                one.as_slice(),
                two.as_slice()
            )?
        );
        assert!(rt;
            is_read(
                alloc,
                &problem,
                two.as_slice(),
                Version::Two,
                one.as_slice(),
                two.as_slice()
            )?
        );
    }
    Ok(())
}

fn fault_of(
    alloc: Global,
    problem: &Problem,
    text: &[u8],
) -> Result<Option<(u64, TextCause)>, NoMemory> {
    match parse(alloc, problem, text) {
        Ok(_) => Ok(None),
        Err(ParseFault::Text { line, cause }) => Ok(Some((line, cause))),
        Err(ParseFault::NoMemory) => Err(NoMemory),
    }
}

const FAULTS: &[(&[u8], u64, TextCause)] = &[
    (b"", 5, TextCause::Line),
    (b"label 2 []\nend\n", 5, TextCause::Label),
    (b"label 1 [\nend\n", 5, TextCause::Label),
    (b"label 1 []\nlabel 3 [$$d1]\nend\n", 6, TextCause::Label),
    (b"label 1 []\nname $$e1 2\nend\n", 6, TextCause::Name),
    (b"name $$e1 1\nend\n", 5, TextCause::Name),
    (b"label 1 []\nname $$e1 0\nend\n", 6, TextCause::Name),
    (
        b"label 1 []\nname $$e1 1\nlabel 2 [$$d1]\nend\n",
        7,
        TextCause::Line,
    ),
    (b"term 1 $$s1\nlabel 1 []\nend\n", 6, TextCause::Line),
    (b"term 1 $$s1\nname $$s1 any\nend\n", 6, TextCause::Line),
    (b"term 1 f(\nend\n", 5, TextCause::Term),
    (b"term 2 $$s1\nend\n", 5, TextCause::Term),
    (b"use 1 term 1\nend\n", 5, TextCause::Line),
    (b"use 1 to 1\nend\n", 5, TextCause::Line),
    (b"term 1 $$s1\nuse 1 term 2\nend\n", 6, TextCause::Line),
    (b"term 1 $$s1\nuse 1 term 0\nend\n", 6, TextCause::Line),
    (b"use 1\nterm 1 $$s1\nend\n", 6, TextCause::Line),
    (b"use 1\nend\nend\n", 7, TextCause::TextAfterEnd),
    (b"use 1\nend", 6, TextCause::Line),
    (b"label 1 []", 5, TextCause::Line),
    (b"label 1 []\nend\n", 5, TextCause::Table),
    (b"term 1 $$s1\nend\n", 5, TextCause::Table),
    (
        b"label 1 []\nlabel 2 []\nuse 1 to 1\nuse 1 to 2\nend\n",
        6,
        TextCause::Table,
    ),
    (
        b"term 1 $$s1\nterm 2 $$s2\nuse 1 term 2\nuse 1 term 1\nend\n",
        5,
        TextCause::Table,
    ),
    (
        b"term 1 $$s1\nterm 2 $$s1\nuse 1 term 1\nuse 1 term 2\nend\n",
        6,
        TextCause::Table,
    ),
];

#[test]
fn tells_faults(rt: HostRuntime) -> Result<(), Fail> {
    let alloc = rt.alloc();
    let problem = implication(alloc)?;
    for (lines, line, cause) in FAULTS {
        let text = text_of(alloc, HEAD_TWO, lines)?;
        assert!(rt; fault_of(alloc, &problem, text.as_slice())? == Some((*line, *cause)));
    }
    assert!(rt;
        fault_of(alloc, &problem, b"leancop derivation 2\n")? == Some((2, TextCause::Setting))
    );
    assert!(rt;
        fault_of(alloc, &problem, b"leancop derivation 3\n")? == Some((1, TextCause::Version))
    );
    Ok(())
}
