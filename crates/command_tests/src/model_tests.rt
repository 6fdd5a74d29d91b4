//! What finite structures say of formulas.

use crate::runs::{ends, problem};
use std::test::Fail;

// The words, the conjecture, the structure, the exit status and the line.
const STRUCTURES: &[(&[&str], &[u8], &[u8], u8, &[u8])] = &[
    (
        &["model", "m.p", "s.txt"],
        b"p",
        b"leancop structure 1\nlogic classical\nworlds 1\nelements 1\nrelation 1 1\ndomain 1 1\npredicate p 0 1 0\nend\n",
        9,
        b"false at the root\n",
    ),
    (
        &["model", "m.p", "s.txt"],
        b"p",
        b"leancop structure 1\nlogic classical\nworlds 1\nelements 1\nrelation 1 1\ndomain 1 1\npredicate p 0 1 1\nend\n",
        0,
        b"true at the root\n",
    ),
    (
        &["model", "m.p", "s.txt", "--logic=intuitionistic"],
        b"p | ~ p",
        b"leancop structure 1\nlogic intuitionistic\nworlds 2\nelements 1\nrelation 1 1 2\nrelation 2 2\ndomain 1 1\ndomain 2 1\npredicate p 0 1 0\npredicate p 0 2 1\nend\n",
        9,
        b"false at the root\n",
    ),
    (
        &["model", "m.p", "s.txt", "--logic=intuitionistic"],
        b"p | ~ p",
        b"leancop structure 1\nlogic intuitionistic\nworlds 2\nelements 1\nrelation 1 1 2\nrelation 2 2\ndomain 1 1\ndomain 2 1\npredicate p 0 1 1\npredicate p 0 2 0\nend\n",
        10,
        b"rejected structure at line 9: persistence\n",
    ),
    (
        &["model", "m.p", "s.txt", "--logic=intuitionistic"],
        b"p | ~ p",
        b"leancop structure 1\nlogic intuitionistic\nworlds 2\nelements 1\nrelation 1 2\nrelation 2 2\ndomain 1 1\ndomain 2 1\npredicate p 0 1 0\npredicate p 0 2 1\nend\n",
        10,
        b"rejected structure at line 5: reflexive\n",
    ),
    // A disjunction has three ways, of which two are looked at where its first part is true.
    (
        &["model", "m.p", "s.txt", "--steps=1"],
        b"p | ~ p",
        b"leancop structure 1\nlogic classical\nworlds 1\nelements 1\nrelation 1 1\ndomain 1 1\npredicate p 0 1 1\nend\n",
        3,
        b"steps ended after limit 0 at 1 steps\n",
    ),
    (
        &["model", "m.p", "s.txt", "--steps=2"],
        b"p | ~ p",
        b"leancop structure 1\nlogic classical\nworlds 1\nelements 1\nrelation 1 1\ndomain 1 1\npredicate p 0 1 1\nend\n",
        0,
        b"true at the root\n",
    ),
    // A derivation is no structure.
    (
        &["model", "m.p", "s.txt"],
        b"p",
        b"leancop derivation 1\n",
        10,
        b"rejected structure at line 1: version\n",
    ),
];

#[test]
fn judges_structures(rt: HostRuntime) -> Result<(), Fail> {
    for (more, conjecture, structure, exit, line) in STRUCTURES {
        let text = problem(rt.alloc(), *conjecture)?;
        let files = [("m.p", text.as_slice()), ("s.txt", *structure)];
        assert!(rt; ends(rt.alloc(), *more, &files, &[], *exit, *line)?);
    }
    Ok(())
}

#[test]
fn reads_the_problem_first(rt: HostRuntime) -> Result<(), Fail> {
    let text = problem(rt.alloc(), b"p")?;
    let files = [("m.p", text.as_slice())];
    let words = ["model", "m.p", "s.txt"];
    assert!(rt; ends(rt.alloc(), &words, &files, &[], 6, b"missing: s.txt\n")?);
    assert!(rt; ends(rt.alloc(), &words, &[], &[], 6, b"missing: m.p\n")?);
    Ok(())
}
