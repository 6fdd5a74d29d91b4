//! The tokens and the faults of texts.

use std::alloc::{AllocError, Global};
use tptp_lex::{TokenKind, next};

// A capital at the first byte of a token.
fn first_mark(kind: TokenKind) -> u8 {
    match kind {
        TokenKind::Lower => b'L',
        TokenKind::Upper => b'U',
        TokenKind::Dollar => b'D',
        TokenKind::Hash => b'H',
        TokenKind::Quoted => b'Q',
        TokenKind::Distinct => b'T',
        TokenKind::Number => b'N',
        TokenKind::Sign => b'S',
    }
}

// A mark for each byte of the text: the kind's letter at a token's first byte, `-` at its others, a blank at white
// space and comments, and at last `!` at a fault.
fn marks(alloc: Global, text: &[u8]) -> Result<Vec<u8>, AllocError> {
    let mut marks = Vec::new(alloc);
    let mut from = 0;
    while let Ok(Some(token)) = next(text, from) {
        for _ in from..token.start {
            marks.push(b' ')?;
        }
        marks.push(first_mark(token.kind))?;
        for _ in token.start..token.end - 1 {
            marks.push(b'-')?;
        }
        from = token.end;
    }
    let end = match next(text, from) {
        Err(fault) => fault.offset,
        _ => text.len(),
    };
    for _ in from..end {
        marks.push(b' ')?;
    }
    if end < text.len() {
        marks.push(b'!')?;
    }
    Ok(marks)
}

#[test]
fn marks_each_token_and_fault(rt: HostRuntime) -> Result<(), AllocError> {
    for (text, want) in [
        (
            "fof(a1, axiom, ![X,Yy_2]: p(X)).",
            "L--SL-S L----S SSUSU---SS LSUSSS",
        ),
        ("cnf(c,plain,~p|X!=f(a)).", "L--SLSL----SSLSUS-LSLSSS"),
        ("a<=>b<~>c<=d=>e~|f~&g", "LS--LS--LS-LS-LS-LS-L"),
        ("=!=?&|.:[]", "SS-SSSSSSS"),
        ("!(=<=~", "SSSS-S"),
        ("=>= <=>= ~~|", "S-S S--S SS-"),
        ("$true $$o $_ ", "D---- D-- !"),
        ("$$", "!"),
        ("$X", "!"),
        ("$$$a", "!"),
        ("#box:#dia:p #", "H---SH---SL !"),
        ("#X", "!"),
        (
            "12 +3 -4/5 6.7 8E9 1.2e-3 4e+5",
            "N- N- N--- N-- N-- N----- N---",
        ),
        ("1/2e3 1.2.3 1. 2/ 3e 4e+ 5.6ex", "N--L- N--SN NS N!"),
        ("3e 4e+ 5.6ex", "NL NL!"),
        ("5.6ex 7E-x", "N--L- NU!"),
        ("+ 1", "!"),
        ("a-b", "L!"),
        ("'a b' 'it\\'s \\\\' '\"'", "Q---- Q--------- Q--"),
        ("'\u{e9}' \"\u{e9}\"", "Q--- T---"),
        ("\"\" \"a\\\"b\\\\\" \"'\"", "T- T------- T--"),
        ("a ''", "L !"),
        ("'a", "!"),
        ("'a\\b'", "!"),
        ("'a\\", "!"),
        ("'a\tb'", "!"),
        ("'a\u{7f}'", "!"),
        ("\"a", "!"),
        ("\"a\\'\"", "!"),
        ("a % b c\nd % e", "L       L    "),
        ("a%\r\nb%", "L   L "),
        (
            "a/* b */c/**/d/***/e/* /* */f",
            "L       L    L     L        L",
        ),
        ("a /*/ b", "L !"),
        ("a /*/ */ b", "L        L"),
        ("a /* * /", "L !"),
        ("a / b", "L !"),
        (" \t\u{b}\u{c}\r\nX", "      U"),
        ("a;", "L!"),
        ("_a", "!"),
        ("< =", "!"),
        ("<~a", "!"),
        ("", ""),
        (" ", " "),
    ] {
        let marks = marks(rt.alloc(), text.as_bytes())?;
        assert!(rt; marks.as_slice() == want.as_bytes(), "at {text}");
    }
    Ok(())
}
