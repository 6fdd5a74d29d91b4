//! Texts that are judged, parsed and printed again.

use cop_base::NoMemory;
use logic_rules::{Domains, Logic, Problem};
use std::alloc::Global;
use std::test::Fail;
use tableau_cert::{
    TableauFault, TableauParse, TableauVerdict, check_tableau, parse_tableau, print_tableau,
};
use test_problems::proving;

const HEAD: &[u8] = b"leancop tableau 1\n";

// The text of these lines behind the first one.
fn text_of(alloc: Global, lines: &[u8]) -> Result<Vec<u8>, NoMemory> {
    let mut text = Vec::new(alloc);
    text.extend_from_slice(HEAD)?;
    text.extend_from_slice(lines)?;
    Ok(text)
}

fn verdict(alloc: Global, problem: &Problem, lines: &[u8]) -> Result<TableauVerdict, NoMemory> {
    let text = text_of(alloc, lines)?;
    check_tableau(alloc, problem, text.as_slice())
}

fn is_rejected(
    alloc: Global,
    problem: &Problem,
    lines: &[u8],
    line: u64,
    fault: TableauFault,
) -> Result<bool, NoMemory> {
    let told = verdict(alloc, problem, lines)?;
    Ok(told == TableauVerdict::Rejected { line, fault })
}

// Accepted, and its tableau has this text.
fn stays(alloc: Global, problem: &Problem, lines: &[u8]) -> Result<bool, NoMemory> {
    if verdict(alloc, problem, lines)? != TableauVerdict::Accepted {
        return Ok(false);
    }
    let text = text_of(alloc, lines)?;
    match parse_tableau(alloc, problem, text.as_slice()) {
        Ok((tableau, limit)) => {
            let again = print_tableau(alloc, problem, &tableau, limit)?;
            Ok(again.as_slice() == text.as_slice())
        }
        Err(TableauParse::Bad { .. }) => Ok(false),
        Err(TableauParse::NoMemory) => Err(NoMemory),
    }
}

// What follows the first line, and where it is rejected.
const OF_P: &[(&[u8], u64, TableauFault)] = &[
    (
        b"logic classical\nformula (p => p)\nlimit 1\nstart r {}\nextend 0 r {}\nend\n",
        6,
        TableauFault::NoConnection,
    ),
    (
        b"logic classical\nformula (p => p)\nlimit 1\nstart r {}\nextend 1 l {}\nend\n",
        6,
        TableauFault::NoConnection,
    ),
    (
        b"logic classical\nformula (p => p)\nlimit 1\nstart r {}\nreduce 1\nend\n",
        6,
        TableauFault::NoConnection,
    ),
    (
        b"logic classical\nformula (p => p)\nlimit 1\nstart r {}\nreduce 0\nend\n",
        6,
        TableauFault::NoConnection,
    ),
    (
        b"logic classical\nformula (p => p)\nlimit 1\nstart r {}\nextend 0 - {}\nend\n",
        6,
        TableauFault::NoInstance,
    ),
    (
        b"logic classical\nformula (p => p)\nlimit 1\nstart r {}\nend\n",
        6,
        TableauFault::StillOpen,
    ),
    (
        b"logic classical\nformula (p => p)\nlimit 1\nstart l {}\nextend 0 l {}\nend\n",
        5,
        TableauFault::NotPositive,
    ),
    (
        b"logic classical\nformula (p => p)\nlimit 1\nstart r {}\nextend 0 l {}\nreduce 1\nend\n",
        7,
        TableauFault::AllClosed,
    ),
];

#[test]
fn judges_p_implies_p(rt: HostRuntime) -> Result<(), Fail> {
    let alloc = rt.alloc();
    let p = proving(alloc, Logic::Classical, Domains::Constant, b"p=>p")?;
    assert!(rt;
        stays(
            alloc,
            &p,
            b"logic classical\nformula (p => p)\nlimit 1\nstart r {}\nextend 0 l {}\nend\n"
        )?
    );
    for (lines, line, fault) in OF_P {
        assert!(rt; is_rejected(alloc, &p, *lines, *line, *fault)?);
    }
    Ok(())
}

#[test]
fn asks_for_proper_names(rt: HostRuntime) -> Result<(), Fail> {
    let alloc = rt.alloc();
    let p = proving(
        alloc,
        Logic::Classical,
        Domains::Constant,
        b"?[X]:![Y]:(d(X)=>d(Y))",
    )?;
    assert!(rt;
        stays(
            alloc,
            &p,
            b"logic classical\nformula ?[X1]:![X2]:(d(X1) => d(X2))\nlimit 1\nstart r {$$s1}\nextend 0 l {$$e1{$$s1}}\nend\n"
        )?
    );
    assert!(rt;
        is_rejected(
            alloc,
            &p,
            b"logic classical\nformula ?[X1]:![X2]:(d(X1) => d(X2))\nlimit 1\nstart r {$$s1}\nextend 0 l {$$e2{$$s1}}\nend\n",
            6,
            TableauFault::NoInstance
        )?
    );
    Ok(())
}

#[test]
fn asks_for_regularity(rt: HostRuntime) -> Result<(), Fail> {
    let alloc = rt.alloc();
    let p = proving(alloc, Logic::Classical, Domains::Constant, b"(p=>p)=>p")?;
    assert!(rt;
        is_rejected(
            alloc,
            &p,
            b"logic classical\nformula ((p => p) => p)\nlimit 2\nstart r {}\nextend 1 l {}\nend\n",
            6,
            TableauFault::NotRegular
        )?
    );
    assert!(rt;
        is_rejected(
            alloc,
            &p,
            b"logic classical\nformula ((p => p) => p)\nlimit 2\nstart r {}\nextend 0 l {}\nend\n",
            6,
            TableauFault::NoConnection
        )?
    );
    Ok(())
}

#[test]
fn asks_for_allowed_terms(rt: HostRuntime) -> Result<(), Fail> {
    let alloc = rt.alloc();
    let p = proving(alloc, Logic::D, Domains::Varying, b"?[X]:![Y]:(d(X)=>d(Y))")?;
    assert!(rt;
        stays(
            alloc,
            &p,
            b"logic d varying\nformula ?[X1]:![X2]:(d(X1) => d(X2))\nlimit 1\nstart r {$$s1@[]}\nextend 0 l {$$e1{$$s1@[]}}\nend\n"
        )?
    );
    assert!(rt;
        is_rejected(
            alloc,
            &p,
            b"logic d varying\nformula ?[X1]:![X2]:(d(X1) => d(X2))\nlimit 1\nstart r {$$s1}\nextend 0 l {$$e1{$$s1}}\nend\n",
            5,
            TableauFault::NotAllowed
        )?
    );
    Ok(())
}

#[test]
fn limits_paths(rt: HostRuntime) -> Result<(), Fail> {
    let alloc = rt.alloc();
    let p = proving(alloc, Logic::Classical, Domains::Constant, b"(p&(p=>q))=>q")?;
    assert!(rt;
        stays(
            alloc,
            &p,
            b"logic classical\nformula ((p & (p => q)) => q)\nlimit 2\nstart r {}\nextend 1 lr {}\nextend 0 ll {}\nend\n"
        )?
    );
    assert!(rt;
        is_rejected(
            alloc,
            &p,
            b"logic classical\nformula ((p & (p => q)) => q)\nlimit 1\nstart r {}\nextend 1 lr {}\nextend 0 ll {}\nend\n",
            7,
            TableauFault::PathLimit
        )?
    );
    Ok(())
}

#[test]
fn reduces_by_ancestors(rt: HostRuntime) -> Result<(), Fail> {
    let alloc = rt.alloc();
    let p = proving(
        alloc,
        Logic::Classical,
        Domains::Constant,
        b"((p=>q)=>p)=>p",
    )?;
    assert!(rt;
        stays(
            alloc,
            &p,
            b"logic classical\nformula (((p => q) => p) => p)\nlimit 1\nstart r {}\nextend 0 ll {}\nreduce 1\nend\n"
        )?
    );
    assert!(rt;
        is_rejected(
            alloc,
            &p,
            b"logic classical\nformula (((p => q) => p) => p)\nlimit 1\nstart r {}\nextend 0 ll {}\nreduce 2\nend\n",
            7,
            TableauFault::NoConnection
        )?
    );
    Ok(())
}

#[test]
fn bounds_strings(rt: HostRuntime) -> Result<(), Fail> {
    let alloc = rt.alloc();
    let p = proving(alloc, Logic::S4, Domains::Constant, b"(#box:p)=>(#dia:p)")?;
    assert!(rt;
        stays(
            alloc,
            &p,
            b"logic s4 constant\nformula (#box:p => #dia:p)\nlimit 1\nstart r {[$$d1,$$d1]}\nextend 0 l {[$$d1,$$d1]}\nend\n"
        )?
    );
    assert!(rt;
        is_rejected(
            alloc,
            &p,
            b"logic s4 constant\nformula (#box:p => #dia:p)\nlimit 1\nstart r {[$$d1,$$d1,$$d1]}\nextend 0 l {[$$d1,$$d1,$$d1]}\nend\n",
            7,
            TableauFault::StringTooLong
        )?
    );
    Ok(())
}
