//! Judgements over a library and a sink in memory.

use crate::runs::ends;
use cop_base::NoMemory;
use std::alloc::Global;
use std::test::Fail;

const DERIVATION: &[u8] =
    b"leancop derivation 1\nlogic classical\nformula (p => p)\nlimit 1\nuse 1\naxiom 2 3\nend\n";

// Whether `check m.p d.txt` writes this line and ends with this status, where m.p has the
// conjecture p => p and d.txt has the bytes of the derivation.
fn is_judged(alloc: Global, derivation: &[u8], status: u8, line: &[u8]) -> Result<bool, NoMemory> {
    let problem = b"fof(c,conjecture,p => p).\n".as_slice();
    let files = [("m.p", problem), ("d.txt", derivation)];
    ends(alloc, &["check", "m.p", "d.txt"], &files, &[], status, line)
}

fn is_rejected(alloc: Global, derivation: &[u8], line: &[u8]) -> Result<bool, NoMemory> {
    is_judged(alloc, derivation, 8, line)
}

// The first four lines of the derivation.
const HEAD: &[u8] = b"leancop derivation 1\nlogic classical\nformula (p => p)\nlimit 1\n";

// The same for a text that begins with HEAD and goes on with `lines`.
fn is_rejected_after_head(alloc: Global, lines: &[u8], line: &[u8]) -> Result<bool, NoMemory> {
    let mut text = HEAD.to_vec(alloc)?;
    text.extend_from_slice(lines)?;
    is_rejected(alloc, text.as_slice(), line)
}

#[test]
fn accepts_its_own(rt: HostRuntime) -> Result<(), Fail> {
    assert!(rt; is_judged(rt.alloc(), DERIVATION, 0, b"accepted\n")?);
    Ok(())
}

const HEAD_FAULTS: &[(&[u8], &[u8])] = &[
    (b"", b"rejected at line 1: version\n"),
    (
        b"leancop derivation 1\nlogic intuitionistic\n",
        b"rejected at line 2: setting\n",
    ),
    (
        b"leancop derivation 1\nlogic classical\nformula (p => q)\n",
        b"rejected at line 3: formula\n",
    ),
    (
        b"leancop derivation 1\nlogic classical\nformula (p => p)\nlimit 0\n",
        b"rejected at line 4: limit\n",
    ),
];

#[test]
fn tells_faults_of_the_head(rt: HostRuntime) -> Result<(), Fail> {
    for (text, told) in HEAD_FAULTS {
        assert!(rt; is_rejected(rt.alloc(), *text, *told)?);
    }
    Ok(())
}

// The faults of steps that are not here need a quantifier or a modal operator.
const LINE_FAULTS: &[(&[u8], &[u8])] = &[
    (b"name $$e1\n", b"rejected at line 5: name\n"),
    (b"use 1\naxiom 2 3\nen", b"rejected at line 7: line\n"),
    (
        b"use 1\naxiom 2 3\nend\nend\n",
        b"rejected at line 8: text after end\n",
    ),
    (
        b"use 1\naxiom 2 9\nend\n",
        b"rejected at line 6: no entry\n",
    ),
    (
        b"use 1\naxiom 3 2\nend\n",
        b"rejected at line 6: no connection\n",
    ),
    (
        b"use 1\nuse 2\nend\n",
        b"rejected at line 6: wrong arguments\n",
    ),
    (
        b"use 1\naxiom 2 3\naxiom 2 3\nend\n",
        b"rejected at line 7: all closed\n",
    ),
    (b"use 1\nend\n", b"rejected at line 6: still open\n"),
];

#[test]
fn tells_faults_behind_the_head(rt: HostRuntime) -> Result<(), Fail> {
    for (lines, told) in LINE_FAULTS {
        assert!(rt; is_rejected_after_head(rt.alloc(), *lines, *told)?);
    }
    Ok(())
}

// The line and the cause where the text of 82 bytes is cut to its first bytes: the line that is
// unfinished, or the one after the last.
fn cut_line(bytes: usize) -> &'static [u8] {
    match bytes {
        0..=20 => b"rejected at line 1: version\n",
        21..=36 => b"rejected at line 2: setting\n",
        37..=53 => b"rejected at line 3: formula\n",
        54..=61 => b"rejected at line 4: limit\n",
        62..=67 => b"rejected at line 5: line\n",
        68..=77 => b"rejected at line 6: line\n",
        _ => b"rejected at line 7: line\n",
    }
}

#[test]
fn tells_where_a_text_is_cut(rt: HostRuntime) -> Result<(), Fail> {
    for bytes in 0..DERIVATION.len() {
        assert!(rt; is_rejected(rt.alloc(), &DERIVATION[..bytes], cut_line(bytes))?);
    }
    Ok(())
}

// The first eleven lines of a derivation of ?[X]:![Y]:(d(X) => d(Y)).
const DRINKER: &[u8] =
    b"leancop derivation 1\nlogic classical\nformula ?[X1]:![X2]:(d(X1) => d(X2))\nlimit 1\nname $$e1 []\nname $$e2 []\nname $$s1 any\nuse 1 term $$s1\nuse 2 name $$e1\nuse 3\nuse 1 term $$e1\n";

// Whether `check` with an option more writes this line, where d.txt goes on like this.
fn is_drinker_judged(
    alloc: Global,
    option: &str,
    steps: &[u8],
    status: u8,
    line: &[u8],
) -> Result<bool, NoMemory> {
    let mut text = DRINKER.to_vec(alloc)?;
    text.extend_from_slice(steps)?;
    let problem = b"fof(c,conjecture,?[X]:![Y]:(d(X) => d(Y))).\n".as_slice();
    let files = [("m.p", problem), ("d.txt", text.as_slice())];
    let words = ["check", "m.p", "d.txt", option];
    ends(alloc, &words, &files, &[], status, line)
}

const CLASSICAL: &[(&str, &[u8], u8, &[u8])] = &[
    (
        "--logic=classical",
        b"use 6 name $$e2\nuse 7\naxiom 8 5\nend\n",
        0,
        b"accepted\n",
    ),
    (
        "--root=a",
        b"use 6 name $$e1\nuse 7\naxiom 8 5\nend\n",
        8,
        b"rejected at line 12: not new\n",
    ),
    (
        "--root=a",
        b"use 6 name $$e2\nuse 7\naxiom 8 9\nend\n",
        8,
        b"rejected at line 14: no connection\n",
    ),
    (
        "--root=a",
        b"use 6 name $$e2\nuse 7\nend\n",
        8,
        b"rejected at line 14: still open\n",
    ),
    (
        "--root=a",
        b"use 6 name $$e2\nuse 7\naxiom 8 5\naxiom 8 5\nend\n",
        8,
        b"rejected at line 15: all closed\n",
    ),
    (
        "--root=a",
        b"use 6 name $$e2\nuse 7\naxiom 8 5\n",
        8,
        b"rejected at line 15: line\n",
    ),
    (
        "--root=a",
        b"use 6 name $$e2\nuse 7\naxiom 8 5\nend\nend\n",
        8,
        b"rejected at line 16: text after end\n",
    ),
    (
        "--logic=intuitionistic",
        b"use 6 name $$e2\nuse 7\naxiom 8 5\nend\n",
        8,
        b"rejected at line 2: setting\n",
    ),
];

#[test]
fn judges_classical_derivations(rt: HostRuntime) -> Result<(), Fail> {
    for (option, steps, status, line) in CLASSICAL {
        assert!(rt; is_drinker_judged(rt.alloc(), *option, *steps, *status, *line)?);
    }
    Ok(())
}

// With constant domains the term stands at each label; with cumulative ones its home is too late.
const CUMULATIVE: &[u8] =
    b"leancop derivation 1\nlogic t cumulative\nformula (![X1]:#box:p(X1) => #box:![X1]:p(X1))\nlimit 1\nname $$e1 [$$c1]\nuse 1\nuse 3 new $$c1\nuse 4 name $$e1\nuse 2 term $$e1\nuse 6 to [$$c1]\naxiom 7 5\nend\n";

const CONSTANT: &[u8] =
    b"leancop derivation 1\nlogic t constant\nformula (![X1]:#box:p(X1) => #box:![X1]:p(X1))\nlimit 1\nname $$e1 [$$c1]\nuse 1\nuse 3 new $$c1\nuse 4 name $$e1\nuse 2 term $$e1\nuse 6 to [$$c1]\naxiom 7 5\nend\n";

const SERIAL: &[u8] =
    b"leancop derivation 1\nlogic d constant\nformula (#box:p => #dia:p)\nlimit 1\nuse 1\nuse 2 to [$$d1]\nuse 3 to [$$d1]\naxiom 4 5\nend\n";

const NOT_NOT: &[u8] =
    b"leancop derivation 1\nlogic intuitionistic\nformula ~~(p | ~p)\nlimit 1\nuse 1 new $$c1\nuse 2 to [$$c1]\nuse 3\nuse 5 new $$c2\nuse 2 to [$$c1,$$c2]\nuse 7\nuse 8 new $$c3\nuse 6 to [$$c1,$$c2,$$c3]\naxiom 11 10\nend\n";

const SERIAL_PROBLEM: &[u8] = b"qmf(c,conjecture,(#box:p) => #dia:p).\n";

const NOT_NOT_PROBLEM: &[u8] = b"fof(c,conjecture,~~(p | ~p)).\n";

const BARCAN_PROBLEM: &[u8] = b"qmf(c,conjecture,(![X]:#box:p(X)) => #box:![X]:p(X)).\n";

const SETTINGS: &[([&str; 2], &[u8], &[u8], u8, &[u8])] = &[
    (
        ["--logic=d", "--domains=constant"],
        SERIAL_PROBLEM,
        SERIAL,
        0,
        b"accepted\n",
    ),
    (
        ["--logic=intuitionistic", "--root=a"],
        NOT_NOT_PROBLEM,
        NOT_NOT,
        0,
        b"accepted\n",
    ),
    (
        ["--domains=cumulative", "--logic=t"],
        BARCAN_PROBLEM,
        CUMULATIVE,
        8,
        b"rejected at line 9: not allowed\n",
    ),
    (
        ["--logic=t", "--domains=constant"],
        BARCAN_PROBLEM,
        CONSTANT,
        0,
        b"accepted\n",
    ),
    (
        ["--logic=t", "--domains=varying"],
        BARCAN_PROBLEM,
        CONSTANT,
        8,
        b"rejected at line 2: setting\n",
    ),
];

fn is_judged_in(
    alloc: Global,
    options: [&str; 2],
    problem: &[u8],
    derivation: &[u8],
    status: u8,
    line: &[u8],
) -> Result<bool, NoMemory> {
    let files = [("m.p", problem), ("d.txt", derivation)];
    let words = ["check", options[0], options[1], "m.p", "d.txt"];
    ends(alloc, &words, &files, &[], status, line)
}

#[test]
fn judges_in_the_setting_of_the_words(rt: HostRuntime) -> Result<(), Fail> {
    for (options, problem, derivation, status, line) in SETTINGS {
        assert!(rt; is_judged_in(rt.alloc(), *options, *problem, *derivation, *status, *line)?);
    }
    Ok(())
}
