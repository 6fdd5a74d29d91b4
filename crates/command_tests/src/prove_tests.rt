//! Problems with what `prove` answers.

use crate::runs::{begins, derives, ends, problem, prove_ends};
use cop_base::NoMemory;
use itoa::Buffer;
use std::alloc::Global;
use std::test::Fail;

// `(a|b)` so many times, joined by `&`.
fn disjunctions(alloc: Global, count: usize) -> Result<Vec<u8>, NoMemory> {
    let mut text = b"(a|b)".as_slice().to_vec(alloc)?;
    for _ in 1..count {
        text.extend_from_slice(b" & (a|b)")?;
    }
    Ok(text)
}

// `(p0 & (p0 => p1) & .. ) => pn` for a last number n, from 1.
fn chain(alloc: Global, last: usize) -> Result<Vec<u8>, NoMemory> {
    let mut numbers = Buffer::new();
    let mut text = b"(p0".as_slice().to_vec(alloc)?;
    for number in 0..last {
        text.extend_from_slice(b" & (p")?;
        text.extend_from_slice(numbers.format(number).as_bytes())?;
        text.extend_from_slice(b" => p")?;
        text.extend_from_slice(numbers.format(number + 1).as_bytes())?;
        text.push(b')')?;
    }
    text.extend_from_slice(b") => p")?;
    text.extend_from_slice(numbers.format(last).as_bytes())?;
    Ok(text)
}

// Four pigeons, numbered from 0, do not fit into three holes.
const PIGEONHOLE: &[u8] =
    b"fof(pigeonhole,conjecture,\n    ~((p11 | p12 | p13)\n    & (p21 | p22 | p23)\n    & (p31 | p32 | p33)\n    & (p41 | p42 | p43)\n    & ~(p11 & p21)\n    & ~(p11 & p31)\n    & ~(p11 & p41)\n    & ~(p21 & p31)\n    & ~(p21 & p41)\n    & ~(p31 & p41)\n    & ~(p12 & p22)\n    & ~(p12 & p32)\n    & ~(p12 & p42)\n    & ~(p22 & p32)\n    & ~(p22 & p42)\n    & ~(p32 & p42)\n    & ~(p13 & p23)\n    & ~(p13 & p33)\n    & ~(p13 & p43)\n    & ~(p23 & p33)\n    & ~(p23 & p43)\n    & ~(p33 & p43))).\n";

// Whether a derivation of the conjecture begins like this.
fn proves(alloc: Global, conjecture: &[u8], head: &[u8]) -> Result<bool, NoMemory> {
    let text = problem(alloc, conjecture)?;
    begins(
        alloc,
        &["prove", "m.p"],
        &[("m.p", text.as_slice())],
        0,
        head,
    )
}

// Excluded middle, Peirce's law, a formula with two branches, and the drinker.
const LEAST: &[(&[u8], &[u8])] = &[
    (
        b"p | ~p",
        b"leancop derivation 1\nlogic classical\nformula (p | ~p)\nlimit 1\n",
    ),
    (
        b"((p => q) => p) => p",
        b"leancop derivation 1\nlogic classical\nformula (((p => q) => p) => p)\nlimit 1\n",
    ),
    (
        b"(p & (p => q) & (q => r)) => r",
        b"leancop derivation 1\nlogic classical\nformula (((p & (p => q)) & (q => r)) => r)\nlimit 3\n",
    ),
    (
        b"?[X]:![Y]:(d(X) => d(Y))",
        b"leancop derivation 1\nlogic classical\nformula ?[X1]:![X2]:(d(X1) => d(X2))\nlimit 1\n",
    ),
];

#[test]
fn derives_at_the_least_limit(rt: HostRuntime) -> Result<(), Fail> {
    for (conjecture, head) in LEAST {
        assert!(rt; proves(rt.alloc(), *conjecture, *head)?);
    }
    Ok(())
}

const FOUR: &[u8] = b"qmf(c,conjecture,(#box:p) => #box: #box:p).\n";

const SERIAL: &[u8] = b"qmf(c,conjecture,(#box:p) => #dia:p).\n";

const BARCAN: &[u8] = b"qmf(c,conjecture,(![X]:(#box:p(X))) => #box:(![X]:p(X))).\n";

const MIDDLE: &[u8] = b"fof(c,conjecture,p | ~p).\n";

const DOUBLED: &[u8] = b"fof(c,conjecture,~ ~(p | ~p)).\n";

// Axioms of modal logic, in the logics that have them and in those that lack them, and excluded
// middle beside its double negation.
const LOGICS: &[(&[u8], &str, &str, u8, &[u8])] = &[
    (
        FOUR,
        "--logic=s4",
        "--limit=1",
        0,
        b"leancop derivation 1\nlogic s4 constant\n",
    ),
    (
        FOUR,
        "--logic=t",
        "--limit=9",
        2,
        b"no tableau at limit 1\n",
    ),
    (
        SERIAL,
        "--logic=d",
        "--domains=cumulative",
        0,
        b"leancop derivation 1\nlogic d cumulative\n",
    ),
    (
        BARCAN,
        "--logic=s5",
        "--domains=constant",
        0,
        b"leancop derivation 1\nlogic s5 constant\n",
    ),
    (
        BARCAN,
        "--logic=t",
        "--domains=cumulative",
        2,
        b"no tableau at limit 1\n",
    ),
    (
        MIDDLE,
        "--logic=intuitionistic",
        "--limit=9",
        2,
        b"no tableau at limit 1\n",
    ),
    (
        DOUBLED,
        "--logic=intuitionistic",
        "--limit=1",
        0,
        b"leancop derivation 1\nlogic intuitionistic\n",
    ),
];

#[test]
fn proves_in_each_logic(rt: HostRuntime) -> Result<(), Fail> {
    for (text, logic, option, status, told) in LOGICS {
        let words = ["prove", *logic, *option, "m.p"];
        assert!(rt; begins(rt.alloc(), &words, &[("m.p", *text)], *status, *told)?);
    }
    Ok(())
}

// Whether `prove` with an option on the conjecture ends with this status and writes this line.
fn answers(
    alloc: Global,
    conjecture: &[u8],
    option: &str,
    status: u8,
    line: &[u8],
) -> Result<bool, NoMemory> {
    let text = problem(alloc, conjecture)?;
    let files = [("m.p", text.as_slice())];
    ends(alloc, &["prove", option, "m.p"], &files, &[], status, line)
}

// In the third formula the only extension is irregular, and in the fourth no term makes both goals
// equal. The fifth asks for ever longer paths. In the last one the step on F r, to a new world, adds
// nothing that is used below it, so it is left out, and the entries behind it have lower numbers.
const CONJECTURES: &[(&[u8], &str, u8, &[u8])] = &[
    (
        b"p => p",
        "--limit=1",
        0,
        b"leancop derivation 1\nlogic classical\nformula (p => p)\nlimit 1\nuse 1\naxiom 2 3\nend\n",
    ),
    (b"p", "--limit=1", 2, b"no tableau at limit 1\n"),
    (
        b"(p => p) => p",
        "--limit=200",
        2,
        b"no tableau at limit 1\n",
    ),
    (
        b"(![X]:?[Y]:r(X,Y)) => ?[Y]:![X]:r(X,Y)",
        "--logic=classical",
        2,
        b"no tableau at limit 1\n",
    ),
    (
        b"(![X]:(p(f(X)) => p(X))) => p(a)",
        "--limit=3",
        1,
        b"exhausted at limit 3\n",
    ),
    (
        b"?[X]:![Y]:(d(X) => d(Y))",
        "--steps=1",
        3,
        b"steps ended after limit 0 at 1 steps\n",
    ),
    (
        b"(r & q) => r",
        "--logic=intuitionistic",
        0,
        b"leancop derivation 1\nlogic intuitionistic\nformula ((r & q) => r)\nlimit 1\nuse 1 new $$c2\nuse 2\naxiom 4 3\nend\n",
    ),
];

#[test]
fn answers_conjectures(rt: HostRuntime) -> Result<(), Fail> {
    for (conjecture, option, status, told) in CONJECTURES {
        assert!(rt; answers(rt.alloc(), *conjecture, *option, *status, *told)?);
    }
    Ok(())
}

fn counts(alloc: Global, count: usize, status: u8, line: &[u8]) -> Result<bool, NoMemory> {
    let conjecture = disjunctions(alloc, count)?;
    let text = problem(alloc, conjecture.as_slice())?;
    prove_ends(alloc, text.as_slice(), status, line)
}

// 256 clauses, 131,072 clauses, and 1,048,576 literals.
const COUNTS: &[(usize, u8, &[u8])] = &[
    (8, 2, b"no tableau at limit 1\n"),
    (17, 4, b"matrix too large\n"),
    (16, 4, b"matrix too large\n"),
];

#[test]
fn counts_clauses_and_literals(rt: HostRuntime) -> Result<(), Fail> {
    for (count, status, told) in COUNTS {
        assert!(rt; counts(rt.alloc(), *count, *status, *told)?);
    }
    Ok(())
}

// The text of a problem that has the chain as its conjecture.
fn chain_problem(alloc: Global, last: usize) -> Result<Vec<u8>, NoMemory> {
    let conjecture = chain(alloc, last)?;
    problem(alloc, conjecture.as_slice())
}

fn derives_chain(alloc: Global) -> Result<bool, NoMemory> {
    let text = chain_problem(alloc, 99)?;
    derives(alloc, text.as_slice())
}

fn exhausts_chain(alloc: Global) -> Result<bool, NoMemory> {
    let text = chain_problem(alloc, 100)?;
    prove_ends(alloc, text.as_slice(), 1, b"exhausted at limit 100\n")
}

// A chain of 99 implications needs the greatest limit, and one of 100 needs more.
#[test]
fn searches_to_the_greatest_limit(rt: HostRuntime) -> Result<(), Fail> {
    assert!(rt; derives_chain(rt.alloc())?);
    assert!(rt; exhausts_chain(rt.alloc())?);
    Ok(())
}

#[test]
fn proves_the_pigeonhole_formula(rt: HostRuntime) -> Result<(), Fail> {
    assert!(rt; derives(rt.alloc(), PIGEONHOLE)?);
    Ok(())
}
