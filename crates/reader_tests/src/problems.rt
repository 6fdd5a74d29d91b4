//! The problems of files in memory, or why there is none.

use cop_base::{MemLibrary, NoMemory, Text};
use formula_core::node_count;
use logic_rules::{Domains, Logic, Problem, Setting};
use problem_build::{BuildFault, build};
use std::alloc::Global;
use std::test::Fail;

fn text(alloc: Global, bytes: &[u8]) -> Result<Text, NoMemory> {
    Text::new(alloc, bytes)
}

// The files by name and content.
fn library(alloc: Global, files: &[(&str, &str)]) -> Result<MemLibrary, Fail> {
    let mut held = Vec::new(alloc);
    for (name, content) in files {
        let name = text(alloc, name.as_bytes())?;
        held.push((name, Vec::from_slice(alloc, content.as_bytes())?))?;
    }
    let library = MemLibrary::new(alloc, held, Vec::new(alloc))?;
    Ok(library)
}

fn show_name(out: &mut String, name: &Text) -> Result<(), Fail> {
    for byte in name.bytes() {
        out.push(char::from(*byte))?;
    }
    Ok(())
}

// The symbols in order, and how many nodes the formula has.
fn show(out: &mut String, problem: &Problem) -> Result<(), Fail> {
    for symbol in problem.symbols().items() {
        show_name(out, &symbol.name)?;
        out.push(' ')?;
    }
    let nodes = node_count(problem.formula(), 4_000_000);
    write!(out, "{nodes}")?;
    Ok(())
}

fn show_fault(out: &mut String, fault: &BuildFault) -> Result<(), Fail> {
    match fault {
        BuildFault::Missing { name } => {
            out.push_str("missing ")?;
            show_name(out, name)?;
        }
        BuildFault::Failed { .. } => out.push_str("failed")?,
        BuildFault::InputTooLarge => out.push_str("input too large")?,
        BuildFault::NestingTooDeep => out.push_str("nesting too deep")?,
        BuildFault::FormulaTooLarge => out.push_str("formula too large")?,
        BuildFault::TooManySymbols => out.push_str("too many symbols")?,
        BuildFault::Bad {
            file,
            offset,
            cause,
        } => {
            show_name(out, file)?;
            write!(out, ":{offset} {cause:?}")?;
        }
        BuildFault::NoMemory => out.push_str("no memory")?,
    }
    Ok(())
}

// What `build` answers for the file m.p among these.
fn answer(alloc: Global, files: &[(&str, &str)], root: &str, logic: Logic) -> Result<String, Fail> {
    let mut library = library(alloc, files)?;
    let name = text(alloc, b"m.p")?;
    let root = text(alloc, root.as_bytes())?;
    let setting = Setting::new(logic, Domains::Constant);
    let mut out = String::new(alloc);
    match build(alloc, &mut library, &name, &root, setting) {
        Ok(problem) => show(&mut out, &problem)?,
        Err(fault) => show_fault(&mut out, &fault)?,
    }
    Ok(out)
}

#[test]
fn builds_the_problem(rt: HostRuntime) -> Result<(), Fail> {
    let equality = "fof(e,axiom,a = b).\nfof(f,axiom,p(a)).\nfof(c,conjecture,p(b)).\n";
    for (logic, content, shown) in [
        (Logic::Classical, "fof(c,conjecture,p => p).\n", "p 3"),
        (Logic::Classical, equality, "= a b p 51"),
        (
            Logic::T,
            "qmf(e,axiom,a = b). qmf(c,conjecture,#box: p(b)).",
            "= a b p 7",
        ),
        (Logic::Classical, "fof(a,axiom,p <= q).", "q p 4"),
        (
            Logic::Classical,
            "fof(c,conjecture,q(Y,X) => p(X)).",
            "q p 8",
        ),
        (
            Logic::Classical,
            "fof(c,conjecture,![X]: ?[X]: p(X)).",
            "p 4",
        ),
        (
            Logic::Classical,
            "fof(c,conjecture,p <~> $true).",
            "p $$o 12",
        ),
        (
            Logic::Classical,
            "cnf(c,axiom,p(X) | ~q(Y) | r | X != f(Y)).",
            "p q r = f 83",
        ),
    ] {
        let out = answer(rt.alloc(), &[("m.p", content)], "", logic)?;
        assert_eq!(rt; out.as_str(), shown);
    }
    Ok(())
}

const AXIOMS: &str = "fof(a,axiom,p). fof(b,axiom,p => q).\n";

#[test]
fn walks_over_includes(rt: HostRuntime) -> Result<(), Fail> {
    for (root, content, shown) in [
        (
            "",
            "include('ax.p',[b]).\ninclude('ax.p').\nfof(c,conjecture,q).\n",
            "p q 11",
        ),
        ("", "include('none.p').", "missing none.p"),
        ("", "include('ax.p',[z]).", "m.p:16 IncludeNameAbsent"),
        ("", "include('m.p').", "m.p:0 IncludeTooDeep"),
        ("", "include('mid.p',[x]).", "m.p:17 IncludeNameAbsent"),
        ("", "include('mid.p',[y]).", "y 2"),
        ("", "include('low.p',[x]).", "x 2"),
        ("lib", "include('a.p').", "r 2"),
        ("lib", "include('/a.p').", "missing /a.p"),
    ] {
        let files = [
            ("m.p", content),
            ("ax.p", AXIOMS),
            ("mid.p", "include('low.p',[y])."),
            ("low.p", "fof(x,axiom,x). fof(y,axiom,y). fof(z,plain,z)."),
            ("lib/a.p", "fof(r,axiom,r)."),
        ];
        let out = answer(rt.alloc(), &files, root, Logic::Classical)?;
        assert_eq!(rt; out.as_str(), shown, "at {content}");
    }
    Ok(())
}

#[test]
fn tells_refusals(rt: HostRuntime) -> Result<(), Fail> {
    for (content, shown) in [
        ("fof(c,conjecture,p & q | r).\n", "m.p:23 Syntax"),
        ("fof(c,conjecture,p(1)).\n", "m.p:19 Unsupported"),
        ("fof(c,conjecture,$$p).\n", "m.p:17 Reserved"),
        ("qmf(c,conjecture,p).\n", "m.p:0 WrongLanguage"),
        (
            "fof(c,conjecture,p).\nfof(d,conjecture,q).\n",
            "m.p:21 SecondConjecture",
        ),
        ("fof(a,plain,p).", "m.p:6 UnknownRole"),
        ("", "m.p:0 NoFormula"),
        ("  \n", "m.p:3 NoFormula"),
    ] {
        let out = answer(rt.alloc(), &[("m.p", content)], "", Logic::Classical)?;
        assert_eq!(rt; out.as_str(), shown, "at {content}");
    }
    Ok(())
}

// `p <=> (p <=> ( .. p))` with so many signs.
fn equivalences(alloc: Global, count: usize) -> Result<String, Fail> {
    let mut content = String::from_str(alloc, "fof(c,conjecture,")?;
    for _ in 0..count {
        content.push_str("(p <=> ")?;
    }
    content.push('p')?;
    for _ in 0..count {
        content.push(')')?;
    }
    content.push_str(").")?;
    Ok(content)
}

#[test]
fn keeps_to_the_limits(rt: HostRuntime) -> Result<(), Fail> {
    let content = equivalences(rt.alloc(), 20)?;
    let out = answer(
        rt.alloc(),
        &[("m.p", content.as_str())],
        "",
        Logic::Classical,
    )?;
    assert_eq!(rt; out.as_str(), "formula too large");
    Ok(())
}

// An atom of so many different variables.
fn atom_of(alloc: Global, count: usize) -> Result<String, Fail> {
    let mut content = String::from_str(alloc, "fof(c,conjecture,p(X")?;
    for i in 1..count {
        write!(content, ",X{i}")?;
    }
    content.push_str(")).")?;
    Ok(content)
}

#[test]
fn closes_free_variables(rt: HostRuntime) -> Result<(), Fail> {
    for (count, shown) in [
        (998, "p 1997"),
        (999, "nesting too deep"),
        (1001, "nesting too deep"),
    ] {
        let content = atom_of(rt.alloc(), count)?;
        let out = answer(
            rt.alloc(),
            &[("m.p", content.as_str())],
            "",
            Logic::Classical,
        )?;
        assert_eq!(rt; out.as_str(), shown);
    }
    Ok(())
}
