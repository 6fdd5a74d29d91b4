//! Derivations that become derivations in S4, and the judgement for a translated problem.

use crate::runs::{ends, problem};
use cop_base::NoMemory;
use std::alloc::Global;
use std::test::Fail;

// A conjecture, a derivation of it, and what that becomes.
const TRANSFERS: &[(&[u8], &[u8], &[u8])] = &[
    (
        b"~ ~ (p | ~ p)",
        b"leancop derivation 1\nlogic intuitionistic\nformula ~~(p | ~p)\nlimit 1\nuse 1 new $$c1\nuse 2 to [$$c1]\nuse 3\nuse 5 new $$c2\nuse 2 to [$$c1,$$c2]\nuse 7\nuse 8 new $$c3\nuse 6 to [$$c1,$$c2,$$c3]\naxiom 11 10\nend\n",
        b"leancop derivation 1\nlogic s4 cumulative\nformula #box:~#box:~(#box:p | #box:~#box:p)\nlimit 1\nname $$s1 any\nuse 1 new $$c1\nuse 2\nuse 3 to [$$c1]\nuse 4\nuse 5\nuse 7 new $$c7\nuse 8\nuse 3 to [$$c1,$$c7]\nuse 10\nuse 11\nuse 12 new $$c13\nuse 9 to [$$c1,$$c7,$$c13]\naxiom 15 14\nend\n",
    ),
    // An F atom is stepped twice.
    (
        b"p => p",
        b"leancop derivation 1\nlogic intuitionistic\nformula (p => p)\nlimit 1\nuse 1 new $$c1\nuse 3 new $$c2\nuse 4 new $$c3\nuse 2 to [$$c1,$$c2,$$c3]\naxiom 6 5\nend\n",
        b"leancop derivation 1\nlogic s4 cumulative\nformula #box:(#box:p => #box:p)\nlimit 1\nname $$s1 any\nuse 1 new $$c1\nuse 2\nuse 4 new $$c4\nuse 3 to [$$c1,$$c4]\naxiom 6 5\nend\n",
    ),
];

const TRANSFER: &[&str] = &["transfer", "m.p", "d.txt"];

const CHECK_TRANSLATED: &[&str] = &["check", "m.p", "d.txt", "--logic=intuitionistic", "--as=s4"];

// What `transfer` writes is accepted in S4.
#[test]
fn transfers_into_s4(rt: HostRuntime) -> Result<(), Fail> {
    for (conjecture, given, moved) in TRANSFERS {
        let text = problem(rt.alloc(), *conjecture)?;
        let files = [("m.p", text.as_slice()), ("d.txt", *given)];
        let moved_files = [("m.p", text.as_slice()), ("d.txt", *moved)];
        assert!(rt; ends(rt.alloc(), TRANSFER, &files, &[], 0, *moved)?);
        assert!(rt;
            ends(
                rt.alloc(),
                CHECK_TRANSLATED,
                &moved_files,
                &[],
                0,
                b"accepted\n"
            )?
        );
    }
    Ok(())
}

// The intuitionistic derivation is none of the translated problem, nor the other way round.
#[test]
fn tells_derivations_of_the_other_problem(rt: HostRuntime) -> Result<(), Fail> {
    for (conjecture, given, moved) in TRANSFERS {
        let text = problem(rt.alloc(), *conjecture)?;
        let files = [("m.p", text.as_slice()), ("d.txt", *given)];
        let moved_files = [("m.p", text.as_slice()), ("d.txt", *moved)];
        let told = b"rejected at line 2: setting\n";
        assert!(rt; ends(rt.alloc(), CHECK_TRANSLATED, &files, &[], 8, told)?);
        assert!(rt; ends(rt.alloc(), TRANSFER, &moved_files, &[], 8, told)?);
    }
    Ok(())
}

// So many negations of an atom. A translation has two operators for each.
pub fn negations(alloc: Global, count: usize) -> Result<Vec<u8>, NoMemory> {
    let mut conjecture = Vec::new(alloc);
    for _ in 0..count {
        conjecture.push(b'~')?;
    }
    conjecture.push(b'p')?;
    problem(alloc, conjecture.as_slice())
}

// `check --as=s4` refuses a translation before it fetches the derivation, and `transfer` after it
// has judged it.
#[test]
fn refuses_deep_translations_in_order(rt: HostRuntime) -> Result<(), Fail> {
    let text = negations(rt.alloc(), 500)?;
    let files = [("m.p", text.as_slice()), ("d.txt", b"")];
    let alone = [("m.p", text.as_slice())];
    let deep = b"nesting too deep\n";
    let rejected = b"rejected at line 1: version\n";
    assert!(rt; ends(rt.alloc(), CHECK_TRANSLATED, &alone, &[], 4, deep)?);
    assert!(rt; ends(rt.alloc(), TRANSFER, &files, &[], 8, rejected)?);
    assert!(rt; ends(rt.alloc(), TRANSFER, &alone, &[], 6, b"missing: d.txt\n")?);
    Ok(())
}
