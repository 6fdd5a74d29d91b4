//! Texts of tableaux: what is printed, what is judged, and the derivations to which they lead.

use crate::runs::{begins, ends, outcome, problem};
use cop_base::NoMemory;
use std::alloc::Global;
use std::test::Fail;

const TCHECK: &[&str] = &["tcheck", "m.p", "t.txt"];

const CONVERT: &[&str] = &["convert", "m.p", "t.txt"];

const FIRST: &[u8] =
    b"leancop tableau 1\nlogic classical\nformula (p => p)\nlimit 1\nstart r {}\nextend 0 l {}\nend\n";

const FIRST_DERIVED: &[u8] =
    b"leancop derivation 1\nlogic classical\nformula (p => p)\nlimit 1\nuse 1\naxiom 2 3\nend\n";

// What `tableau` prints, `tcheck` accepts and `convert` makes a derivation of.
#[test]
fn prints_judges_and_converts(rt: HostRuntime) -> Result<(), Fail> {
    let text = problem(rt.alloc(), b"p => p")?;
    let alone = [("m.p", text.as_slice())];
    let files = [("m.p", text.as_slice()), ("t.txt", FIRST)];
    assert!(rt; ends(rt.alloc(), &["tableau", "m.p"], &alone, &[], 0, FIRST)?);
    assert!(rt; ends(rt.alloc(), TCHECK, &files, &[], 0, b"accepted\n")?);
    assert!(rt; ends(rt.alloc(), CONVERT, &files, &[], 0, FIRST_DERIVED)?);
    Ok(())
}

// The conjecture, the text of a tableau, and the line that is told.
const REJECTED: &[(&[u8], &[u8], &[u8])] = &[
    (
        b"p => p",
        b"leancop tableau 1\nlogic classical\nformula (p => p)\nlimit 1\nstart r {}\nextend 0 r {}\nend\n",
        b"rejected at line 6: no connection\n",
    ),
    (
        b"p => p",
        b"leancop tableau 1\nlogic classical\nformula (p => p)\nlimit 1\nstart r {}\nextend 1 l {}\nend\n",
        b"rejected at line 6: no connection\n",
    ),
    (
        b"p => p",
        b"leancop tableau 1\nlogic classical\nformula (p => p)\nlimit 1\nstart r {}\nreduce 1\nend\n",
        b"rejected at line 6: no connection\n",
    ),
    (
        b"p => p",
        b"leancop tableau 1\nlogic classical\nformula (p => p)\nlimit 1\nstart r {}\nextend 0 - {}\nend\n",
        b"rejected at line 6: no instance\n",
    ),
    (
        b"p => p",
        b"leancop tableau 1\nlogic classical\nformula (p => p)\nlimit 1\nstart r {}\nend\n",
        b"rejected at line 6: still open\n",
    ),
    (
        b"p => p",
        b"leancop tableau 1\nlogic classical\nformula (p => p)\nlimit 1\nstart l {}\nextend 0 l {}\nend\n",
        b"rejected at line 5: not positive\n",
    ),
    // Position 2 is that of no delta step.
    (
        b"?[X]:![Y]:(d(X) => d(Y))",
        b"leancop tableau 1\nlogic classical\nformula ?[X1]:![X2]:(d(X1) => d(X2))\nlimit 1\nstart r {$$s1}\nextend 0 l {$$e2{$$s1}}\nend\n",
        b"rejected at line 6: no instance\n",
    ),
    // The clause of the left side has F p before T p.
    (
        b"(p => p) => p",
        b"leancop tableau 1\nlogic classical\nformula ((p => p) => p)\nlimit 2\nstart r {}\nextend 1 l {}\nend\n",
        b"rejected at line 6: not regular\n",
    ),
    (
        b"(p => p) => p",
        b"leancop tableau 1\nlogic classical\nformula ((p => p) => p)\nlimit 2\nstart r {}\nextend 0 l {}\nend\n",
        b"rejected at line 6: no connection\n",
    ),
    (
        b"p => p",
        b"leancop tableau 1\nlogic classical\nformula (p => p)\nlimit 1\nstart r {}\nextend 0 l {}\nend\nend\n",
        b"rejected at line 8: text after end\n",
    ),
    (b"p => p", b"", b"rejected at line 1: version\n"),
];

// Of what is rejected `convert` prints what `tcheck` does.
#[test]
fn tells_faults_of_tableaux(rt: HostRuntime) -> Result<(), Fail> {
    for (conjecture, given, told) in REJECTED {
        let text = problem(rt.alloc(), *conjecture)?;
        let files = [("m.p", text.as_slice()), ("t.txt", *given)];
        assert!(rt; ends(rt.alloc(), TCHECK, &files, &[], 8, *told)?);
        assert!(rt; ends(rt.alloc(), CONVERT, &files, &[], 8, *told)?);
    }
    Ok(())
}

const DRINKER: &[u8] =
    b"leancop tableau 1\nlogic classical\nformula ?[X1]:![X2]:(d(X1) => d(X2))\nlimit 1\nstart r {$$s1}\nextend 0 l {$$e1{$$s1}}\nend\n";

#[test]
fn accepts_values_of_delta_steps(rt: HostRuntime) -> Result<(), Fail> {
    let text = problem(rt.alloc(), b"?[X]:![Y]:(d(X) => d(Y))")?;
    let files = [("m.p", text.as_slice()), ("t.txt", DRINKER)];
    assert!(rt; ends(rt.alloc(), TCHECK, &files, &[], 0, b"accepted\n")?);
    let head =
        b"leancop derivation 1\nlogic classical\nformula ?[X1]:![X2]:(d(X1) => d(X2))\nlimit 1\n";
    assert!(rt; begins(rt.alloc(), CONVERT, &files, 0, head)?);
    Ok(())
}

const SERIAL: &[u8] = b"qmf(c,conjecture,(#box:p) => #dia:p).\n";

const SERIAL_SHORT: &[u8] =
    b"leancop tableau 1\nlogic s4 constant\nformula (#box:p => #dia:p)\nlimit 1\nstart r {[$$d1,$$d1]}\nextend 0 l {[$$d1,$$d1]}\nend\n";

const SERIAL_LONG: &[u8] =
    b"leancop tableau 1\nlogic s4 constant\nformula (#box:p => #dia:p)\nlimit 1\nstart r {[$$d1,$$d1,$$d1]}\nextend 0 l {[$$d1,$$d1,$$d1]}\nend\n";

// A string has at most as many characters as there are modal steps, two here.
#[test]
fn judges_the_length_of_strings(rt: HostRuntime) -> Result<(), Fail> {
    let words = &["tcheck", "m.p", "t.txt", "--logic=s4"];
    let short = [("m.p", SERIAL), ("t.txt", SERIAL_SHORT)];
    let long = [("m.p", SERIAL), ("t.txt", SERIAL_LONG)];
    let told = b"rejected at line 7: string too long\n";
    assert!(rt; ends(rt.alloc(), words, &short, &[], 0, b"accepted\n")?);
    assert!(rt; ends(rt.alloc(), words, &long, &[], 8, told)?);
    Ok(())
}

// A conjecture, and an option of the search that ends it.
const FRUITLESS: &[(&[u8], &str, u8, &[u8])] = &[
    (b"p", "--limit=9", 2, b"no tableau at limit 1\n"),
    (
        b"(![X]:(p(f(X)) => p(X))) => p(a)",
        "--limit=3",
        1,
        b"exhausted at limit 3\n",
    ),
    (
        b"?[X]:![Y]:(d(X) => d(Y))",
        "--steps=1",
        3,
        b"steps ended after limit 0 at 1 steps\n",
    ),
];

// Where `prove` finds no derivation, `tableau` tells the same.
#[test]
fn tells_how_the_search_ends(rt: HostRuntime) -> Result<(), Fail> {
    for (conjecture, option, status, told) in FRUITLESS {
        let text = problem(rt.alloc(), *conjecture)?;
        let files = [("m.p", text.as_slice())];
        let words = ["tableau", *option, "m.p"];
        assert!(rt; ends(rt.alloc(), &words, &files, &[], *status, *told)?);
    }
    Ok(())
}

// Whether a command accepts a text of the problem.
fn accepts(
    alloc: Global,
    command: &str,
    logic: &str,
    text: &[u8],
    given: &[u8],
) -> Result<bool, NoMemory> {
    let files = [("m.p", text), ("t.txt", given)];
    let words = [command, "m.p", "t.txt", logic];
    ends(alloc, &words, &files, &[], 0, b"accepted\n")
}

// What `convert` writes for a tableau of the problem.
fn converted(alloc: Global, logic: &str, text: &[u8], tableau: &[u8]) -> Result<Vec<u8>, NoMemory> {
    let files = [("m.p", text), ("t.txt", tableau)];
    let (_, output) = outcome(alloc, &["convert", "m.p", "t.txt", logic], &files, &[], &[])?;
    Ok(output)
}

// Whether the tableau that a search prints is accepted, and leads to a derivation that is accepted.
fn is_accepted(alloc: Global, logic: &str, text: &[u8]) -> Result<bool, NoMemory> {
    let (_, tableau) = outcome(
        alloc,
        &["tableau", "m.p", logic],
        &[("m.p", text)],
        &[],
        &[],
    )?;
    if !accepts(alloc, "tcheck", logic, text, tableau.as_slice())? {
        return Ok(false);
    }
    let derivation = converted(alloc, logic, text, tableau.as_slice())?;
    accepts(alloc, "check", logic, text, derivation.as_slice())
}

const PROVED: &[(&[u8], &str)] = &[
    (
        b"fof(c,conjecture,~ ~(p | ~p)).\n",
        "--logic=intuitionistic",
    ),
    (
        b"fof(c,conjecture,?[X]:![Y]:(d(X) => d(Y))).\n",
        "--logic=classical",
    ),
    (SERIAL, "--logic=d"),
    (
        b"qmf(c,conjecture,(![X]:(#box:p(X))) => #box:(![X]:p(X))).\n",
        "--logic=s5",
    ),
];

#[test]
fn accepts_what_is_printed(rt: HostRuntime) -> Result<(), Fail> {
    for (text, logic) in PROVED {
        assert!(rt; is_accepted(rt.alloc(), *logic, *text)?);
    }
    Ok(())
}
