//! Words of the command, and texts that are no problems.

use crate::runs::ends;
use std::test::Fail;

// The file m.p holds a problem, d.txt is empty, and there is no other.
const WORDS: &[(&[&str], u8, &[u8])] = &[
    (&[], 5, b"bad word 1\n"),
    (&["show", "m.p"], 5, b"bad word 1\n"),
    (&["prove"], 5, b"bad word 2\n"),
    (&["prove", ""], 5, b"bad word 2\n"),
    (&["prove", "--limit=0", "m.p"], 5, b"bad word 2\n"),
    (&["prove", "--limit=201", "m.p"], 5, b"bad word 2\n"),
    (&["prove", "--steps=01", "m.p"], 5, b"bad word 2\n"),
    (&["prove", "--limit=5", "--limit=6"], 5, b"bad word 3\n"),
    (
        &["prove", "--steps=1099511627777", "m.p"],
        5,
        b"bad word 2\n",
    ),
    (&["prove", "m.p", "n.p"], 5, b"bad word 3\n"),
    (&["prove", "m.p", "--domains=varying"], 5, b"bad word 3\n"),
    (&["prove", "--domains=constant", "m.p"], 5, b"bad word 2\n"),
    (
        &["prove", "m.p", "--logic=s4"],
        4,
        b"m.p:0: wrong language\n",
    ),
    (&["prove", "--root=", "m.p"], 5, b"bad word 2\n"),
    (
        &["prove", "--root=a", "--root=a", "m.p"],
        5,
        b"bad word 3\n",
    ),
    (
        &["prove", "--logic=classical", "m.p", "--limit=200"],
        2,
        b"no tableau at limit 1\n",
    ),
    (
        &["prove", "m.p", "--root=a", "--steps=1099511627776"],
        2,
        b"no tableau at limit 1\n",
    ),
    (&["check", "m.p", "d.txt", "--limit=1"], 5, b"bad word 4\n"),
    (&["prove", "m.p", "--cut=0"], 5, b"bad word 3\n"),
    (&["prove", "m.p", "--cut=5", "--cut=5"], 5, b"bad word 4\n"),
    (&["check", "m.p", "d.txt", "--cut=1"], 5, b"bad word 4\n"),
    (&["check", "m.p", "d.txt", "--as=s4"], 5, b"bad word 4\n"),
    (
        &["transfer", "m.p", "d.txt", "--logic=intuitionistic"],
        5,
        b"bad word 4\n",
    ),
    (&["transfer", "m.p"], 5, b"bad word 3\n"),
    (&["transfer", "m.p", "n.p"], 6, b"missing: n.p\n"),
    (&["tableau", "m.p", "--format=1"], 5, b"bad word 3\n"),
    (&["tableau", "m.p", "--domains=varying"], 5, b"bad word 3\n"),
    (&["tcheck", "m.p"], 5, b"bad word 3\n"),
    (&["tcheck", "m.p", "d.txt", "--as=s4"], 5, b"bad word 4\n"),
    (&["tcheck", "m.p", "n.p"], 6, b"missing: n.p\n"),
    (
        &["convert", "m.p", "d.txt", "--limit=1"],
        5,
        b"bad word 4\n",
    ),
    (&["convert", "n.p", "d.txt"], 6, b"missing: n.p\n"),
    (&["check"], 5, b"bad word 2\n"),
    (&["check", "m.p"], 5, b"bad word 3\n"),
    (&["check", "--logic=k", "m.p"], 5, b"bad word 2\n"),
    (&["check", "m.p", "--d"], 5, b"bad word 3\n"),
    (&["check", "m.p", "d.txt", "n.p"], 5, b"bad word 4\n"),
    (&["check", "--domains=varying", "m.p"], 5, b"bad word 4\n"),
    (
        &["check", "--domains=varying", "m.p", "d.txt"],
        5,
        b"bad word 2\n",
    ),
    (
        &["check", "m.p", "--logic=t", "d.txt"],
        4,
        b"m.p:0: wrong language\n",
    ),
    (&["prove", "d.txt"], 4, b"d.txt:0: no formula\n"),
    (&["prove", "n.p"], 6, b"missing: n.p\n"),
    (&["check", "n.p", "d.txt"], 6, b"missing: n.p\n"),
    (&["check", "m.p", "n.p"], 6, b"missing: n.p\n"),
];

#[test]
fn obeys_words(rt: HostRuntime) -> Result<(), Fail> {
    let files = [
        ("m.p", b"fof(c,conjecture,p).\n".as_slice()),
        ("d.txt", b""),
    ];
    for (words, status, told) in WORDS {
        assert!(rt; ends(rt.alloc(), *words, &files, &[], *status, *told)?);
    }
    Ok(())
}

// The line that `prove m.p` writes for a text that is not a problem.
const TEXTS: &[(&[u8], &[u8])] = &[
    (b"fof(c,conjecture,p & q | r).\n", b"m.p:23: syntax\n"),
    (b"fof(c,conjecture,p(1)).\n", b"m.p:19: unsupported\n"),
    (b"fof(c,conjecture,$$p).\n", b"m.p:17: reserved word\n"),
    (b"qmf(c,conjecture,p).\n", b"m.p:0: wrong language\n"),
    (
        b"fof(c,conjecture,p).\nfof(d,conjecture,q).\n",
        b"m.p:21: second conjecture\n",
    ),
    (b"fof(a,plain,p).\n", b"m.p:6: unknown role\n"),
    (b"", b"m.p:0: no formula\n"),
    (b"include('m.p').\n", b"m.p:0: include too deep\n"),
    (b"include('ax.p',[z]).\n", b"m.p:16: include name absent\n"),
];

#[test]
fn tells_why_a_text_is_no_problem(rt: HostRuntime) -> Result<(), Fail> {
    for (text, told) in TEXTS {
        let files = [
            ("m.p", *text),
            ("ax.p", b"fof(a,axiom,p). fof(b,axiom,p => q).\n"),
        ];
        assert!(rt; ends(rt.alloc(), &["prove", "m.p"], &files, &[], 4, *told)?);
    }
    Ok(())
}
