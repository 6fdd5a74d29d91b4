//! Texts of version 2: what is printed, what derivations become, and what is rejected.

use crate::runs::{ends, problem};
use std::test::Fail;

const DRINKER: &[u8] = b"?[X]:![Y]:(d(X) => d(Y))";

const DRINKER_ONE: &[u8] =
    b"leancop derivation 1\nlogic classical\nformula ?[X1]:![X2]:(d(X1) => d(X2))\nlimit 1\nname $$e1 []\nname $$e2 []\nname $$s1 any\nuse 1 term $$s1\nuse 2 name $$e1\nuse 3\nuse 1 term $$e1\nuse 6 name $$e2\nuse 7\naxiom 8 5\nend\n";

const DRINKER_TWO: &[u8] =
    b"leancop derivation 2\nlogic classical\nformula ?[X1]:![X2]:(d(X1) => d(X2))\nlimit 1\nlabel 1 []\nname $$e1 1\nname $$e2 1\nname $$s1 any\nterm 1 $$s1\nterm 2 $$e1\nuse 1 term 1\nuse 2 name $$e1\nuse 3\nuse 1 term 2\nuse 6 name $$e2\nuse 7\naxiom 8 5\nend\n";

// The terms are numbered in the other order.
const DRINKER_TURNED: &[u8] =
    b"leancop derivation 2\nlogic classical\nformula ?[X1]:![X2]:(d(X1) => d(X2))\nlimit 1\nlabel 1 []\nname $$e1 1\nname $$e2 1\nname $$s1 any\nterm 1 $$e1\nterm 2 $$s1\nuse 1 term 2\nuse 2 name $$e1\nuse 3\nuse 1 term 1\nuse 6 name $$e2\nuse 7\naxiom 8 5\nend\n";

// There is no third term.
const DRINKER_BEYOND: &[u8] =
    b"leancop derivation 2\nlogic classical\nformula ?[X1]:![X2]:(d(X1) => d(X2))\nlimit 1\nlabel 1 []\nname $$e1 1\nname $$e2 1\nname $$s1 any\nterm 1 $$s1\nterm 2 $$e1\nuse 1 term 3\nuse 2 name $$e1\nuse 3\nuse 1 term 2\nuse 6 name $$e2\nuse 7\naxiom 8 5\nend\n";

// The name of the sixth step is not new.
const DRINKER_WRONG: &[u8] =
    b"leancop derivation 2\nlogic classical\nformula ?[X1]:![X2]:(d(X1) => d(X2))\nlimit 1\nlabel 1 []\nname $$e1 1\nname $$e2 1\nname $$s1 any\nterm 1 $$s1\nterm 2 $$e1\nuse 1 term 1\nuse 2 name $$e1\nuse 3\nuse 1 term 2\nuse 6 name $$e1\nuse 7\naxiom 8 5\nend\n";

const MIGRATE: &[&str] = &["migrate", "m.p", "d.txt"];

const CHECK: &[&str] = &["check", "m.p", "d.txt"];

#[test]
fn prints_the_version_asked_for(rt: HostRuntime) -> Result<(), Fail> {
    let text = problem(rt.alloc(), b"p => p")?;
    let files = [("m.p", text.as_slice())];
    let one =
        b"leancop derivation 1\nlogic classical\nformula (p => p)\nlimit 1\nuse 1\naxiom 2 3\nend\n";
    let two =
        b"leancop derivation 2\nlogic classical\nformula (p => p)\nlimit 1\nuse 1\naxiom 2 3\nend\n";
    assert!(rt;
        ends(
            rt.alloc(),
            &["prove", "m.p", "--format=1"],
            &files,
            &[],
            0,
            one
        )?
    );
    assert!(rt;
        ends(
            rt.alloc(),
            &["prove", "m.p", "--format=2"],
            &files,
            &[],
            0,
            two
        )?
    );
    Ok(())
}

// Texts of both versions become that of version 2, and are accepted.
#[test]
fn migrates_both_versions(rt: HostRuntime) -> Result<(), Fail> {
    let text = problem(rt.alloc(), DRINKER)?;
    for given in &[DRINKER_ONE, DRINKER_TWO] {
        let files = [("m.p", text.as_slice()), ("d.txt", *given)];
        assert!(rt; ends(rt.alloc(), MIGRATE, &files, &[], 0, DRINKER_TWO)?);
        assert!(rt; ends(rt.alloc(), CHECK, &files, &[], 0, b"accepted\n")?);
    }
    Ok(())
}

const SERIAL: &[u8] = b"qmf(c,conjecture,(#box:p) => #dia:p).\n";

const SERIAL_ONE: &[u8] =
    b"leancop derivation 1\nlogic d constant\nformula (#box:p => #dia:p)\nlimit 1\nuse 1\nuse 2 to [$$d1]\nuse 3 to [$$d1]\naxiom 4 5\nend\n";

const SERIAL_TWO: &[u8] =
    b"leancop derivation 2\nlogic d constant\nformula (#box:p => #dia:p)\nlimit 1\nlabel 1 [$$d1]\nuse 1\nuse 2 to 1\nuse 3 to 1\naxiom 4 5\nend\n";

#[test]
fn migrates_modal_derivations(rt: HostRuntime) -> Result<(), Fail> {
    let words = &["migrate", "m.p", "d.txt", "--logic=d"];
    let files = [("m.p", SERIAL), ("d.txt", SERIAL_ONE)];
    assert!(rt; ends(rt.alloc(), words, &files, &[], 0, SERIAL_TWO)?);
    Ok(())
}

const REJECTED: &[(&[u8], &[u8])] = &[
    (DRINKER_TURNED, b"rejected at line 9: table\n"),
    (DRINKER_BEYOND, b"rejected at line 11: line\n"),
    (DRINKER_WRONG, b"rejected at line 15: not new\n"),
];

// Of what is rejected `migrate` prints what `check` does.
#[test]
fn tells_faults_of_version_two(rt: HostRuntime) -> Result<(), Fail> {
    let text = problem(rt.alloc(), DRINKER)?;
    for (given, told) in REJECTED {
        let files = [("m.p", text.as_slice()), ("d.txt", *given)];
        assert!(rt; ends(rt.alloc(), CHECK, &files, &[], 8, *told)?);
        assert!(rt; ends(rt.alloc(), MIGRATE, &files, &[], 8, *told)?);
    }
    let alone = [("m.p", text.as_slice())];
    assert!(rt; ends(rt.alloc(), MIGRATE, &alone, &[], 6, b"missing: d.txt\n")?);
    Ok(())
}
