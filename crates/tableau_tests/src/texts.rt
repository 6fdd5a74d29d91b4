//! Texts that are read and written again, and one text for each fault.

use cop_base::NoMemory;
use logic_rules::{Domains, Logic, Problem};
use std::alloc::Global;
use std::test::Fail;
use tableau_text::{ReadFault, TableauFault, read, write};
use test_problems::proving;

const SHORTEST: &[u8] =
    b"leancop tableau 1\nlogic classical\nformula (p => p)\nlimit 1\nstart r {}\nextend 0 l {}\nend\n";

const LINES: &[&[u8]] = &[
    b"leancop tableau 1",
    b"logic s4 constant",
    b"formula ![X1]:p(f(X1))",
    b"limit 200",
    b"start - {f($$s1),[],$$e1{[]},[$$c4{},$$d0]}",
    b"extend 4294967295 lr {[$$c0{$$s4294967295@[$$d1,$$d0]},$$d7],f(f($$e3{f($$s0@[])}))}",
    b"reduce 0",
    b"end",
];

// The lines, each with a line feed, where one line, counted from 1, is another.
fn text_with(alloc: Global, number: usize, other: &[u8]) -> Result<Vec<u8>, NoMemory> {
    let mut text = Vec::new(alloc);
    for (place, line) in LINES.iter().enumerate() {
        text.extend_from_slice(if place + 1 == number { other } else { *line })?;
        text.push(b'\n')?;
    }
    Ok(text)
}

fn stays(alloc: Global, problem: &Problem, text: &[u8]) -> Result<bool, NoMemory> {
    match read(alloc, problem, text) {
        Ok(moves) => {
            let again = write(alloc, problem, &moves)?;
            Ok(again.as_slice() == text)
        }
        Err(ReadFault::Wrong { .. }) => Ok(false),
        Err(ReadFault::NoMemory) => Err(NoMemory),
    }
}

fn rejected_at(
    alloc: Global,
    problem: &Problem,
    text: &[u8],
) -> Result<Option<(u64, TableauFault)>, NoMemory> {
    match read(alloc, problem, text) {
        Ok(_) => Ok(None),
        Err(ReadFault::Wrong { line, fault }) => Ok(Some((line, fault))),
        Err(ReadFault::NoMemory) => Err(NoMemory),
    }
}

#[test]
fn writes_what_it_reads(rt: HostRuntime) -> Result<(), Fail> {
    let alloc = rt.alloc();
    let classical = proving(alloc, Logic::Classical, Domains::Constant, b"p=>p")?;
    assert!(rt; stays(alloc, &classical, SHORTEST)?);
    let modal = proving(alloc, Logic::S4, Domains::Constant, b"![X]:p(f(X))")?;
    let text = text_with(alloc, 0, b"")?;
    assert!(rt; stays(alloc, &modal, text.as_slice())?);
    Ok(())
}

const ROWS: &[(usize, &[u8], u64, TableauFault)] = &[
    (1, b"leancop tableau 2", 1, TableauFault::Version),
    (2, b"logic s4 varying", 2, TableauFault::Setting),
    (3, b"formula ![X1]:p(X1)", 3, TableauFault::Formula),
    (4, b"limit 201", 4, TableauFault::Limit),
    (5, b"start  {}", 5, TableauFault::Line),
    (5, b"start -{}", 5, TableauFault::Line),
    (5, b"start - {} ", 5, TableauFault::Line),
    (5, b"start l- {}", 5, TableauFault::Line),
    (5, b"start - {$$s01}", 5, TableauFault::Line),
    (5, b"start - {$$s4294967296}", 5, TableauFault::Line),
    (5, b"start - {f}", 5, TableauFault::Line),
    (5, b"start - {f()}", 5, TableauFault::Line),
    (5, b"start - {f([])}", 5, TableauFault::Line),
    (5, b"start - {f($$s1,$$s1)}", 5, TableauFault::Line),
    (5, b"start - {[$$s1]}", 5, TableauFault::Line),
    (5, b"start - {$$d1}", 5, TableauFault::Line),
    (5, b"start - {$$s1,}", 5, TableauFault::Line),
    (5, b"start - {$$e1{}", 5, TableauFault::Line),
    (5, b"start - {$$e1[]}", 5, TableauFault::Line),
    (5, b"start - {{}}", 5, TableauFault::Line),
    (
        5,
        b"start - {}\nreduce 1\nend\nend",
        8,
        TableauFault::TextAfterEnd,
    ),
    (6, b"extend 0 l", 6, TableauFault::Line),
    (7, b"reduce 01", 7, TableauFault::Line),
    (7, b"start - {}", 7, TableauFault::Line),
    (8, b"end ", 8, TableauFault::Line),
    (8, b"end\n", 9, TableauFault::TextAfterEnd),
];

#[test]
fn tells_the_first_wrong_line(rt: HostRuntime) -> Result<(), Fail> {
    let alloc = rt.alloc();
    let modal = proving(alloc, Logic::S4, Domains::Constant, b"![X]:p(f(X))")?;
    for (number, other, line, fault) in ROWS {
        let text = text_with(alloc, *number, *other)?;
        let found = rejected_at(alloc, &modal, text.as_slice())?;
        assert!(rt; found == Some((*line, *fault)));
    }
    let mut cut = text_with(alloc, 0, b"")?;
    let _last_feed = cut.pop();
    let found = rejected_at(alloc, &modal, cut.as_slice())?;
    assert!(rt; found == Some((8, TableauFault::Line)));
    Ok(())
}

// A value nested so deep.
fn nested(alloc: Global, levels: usize) -> Result<Vec<u8>, NoMemory> {
    let mut text = Vec::new(alloc);
    text.extend_from_slice(
        b"leancop tableau 1\nlogic classical\nformula (p => p)\nlimit 1\nstart r ",
    )?;
    for _ in 0..levels {
        text.extend_from_slice(b"{$$s0@[$$c1")?;
    }
    text.extend_from_slice(b"{}")?;
    for _ in 0..levels {
        text.extend_from_slice(b"]}")?;
    }
    text.extend_from_slice(b"\nend\n")?;
    Ok(text)
}

#[test]
fn keeps_deep_values(rt: HostRuntime) -> Result<(), Fail> {
    let alloc = rt.alloc();
    let classical = proving(alloc, Logic::Classical, Domains::Constant, b"p=>p")?;
    let text = nested(alloc, 50_000)?;
    assert!(rt; stays(alloc, &classical, text.as_slice())?);
    Ok(())
}
