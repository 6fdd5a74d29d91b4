//! Problems with what `prove --cut=L` answers.

use crate::runs::{begins, ends};
use std::test::Fail;

// The search that does not return to solved goals keeps X = a, where q(a) needs paths of two goals.
const KEPT: &[u8] =
    b"fof(a,axiom,p(a)).\nfof(b,axiom,p(b)).\nfof(c,axiom,q(b)).\nfof(d,axiom,r => q(a)).\nfof(e,axiom,r).\nfof(g,conjecture,?[X]:(p(X) & q(X))).\n";

const WITHIN_1: &[u8] =
    b"leancop derivation 1\nlogic classical\nformula ((((p(a) & p(b)) & q(b)) & ((r => q(a)) & r)) => ?[X1]:(p(X1) & q(X1)))\nlimit 1\n";

const WITHIN_2: &[u8] =
    b"leancop derivation 1\nlogic classical\nformula ((((p(a) & p(b)) & q(b)) & ((r => q(a)) & r)) => ?[X1]:(p(X1) & q(X1)))\nlimit 2\n";

// The last two are answered by the search that comes second: nothing is found within the limit 1.
const SEARCHES: &[(&[&str], &[u8])] = &[
    (&["prove", "m.p"], WITHIN_1),
    (&["prove", "m.p", "--cut=2"], WITHIN_2),
    (&["prove", "m.p", "--cut=1"], WITHIN_1),
    (&["prove", "m.p", "--cut=2", "--limit=1"], WITHIN_1),
];

#[test]
fn keeps_solved_goals(rt: HostRuntime) -> Result<(), Fail> {
    for (words, head) in SEARCHES {
        assert!(rt; begins(rt.alloc(), *words, &[("m.p", KEPT)], 0, *head)?);
    }
    Ok(())
}

#[test]
fn searches_on_where_nothing_is_found(rt: HostRuntime) -> Result<(), Fail> {
    let files = [("m.p", b"fof(c,conjecture,p).\n".as_slice())];
    let words = ["prove", "m.p", "--cut=5"];
    assert!(rt;
        ends(
            rt.alloc(),
            &words,
            &files,
            &[],
            2,
            b"no tableau at limit 1\n"
        )?
    );
    Ok(())
}
