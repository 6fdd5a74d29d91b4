//! Texts with their items or their first fault.

use std::alloc::{AllocError, Global};
use std::test::Fail;
use tptp_reader::{
    Item, ItemKind, ItemList, ReadCause, ReadFault, Source, read_formula, read_items,
};

fn fault_of(read: Result<ItemList, ReadFault>) -> Option<ReadFault> {
    match read {
        Ok(_) => None,
        Err(fault) => Some(fault),
    }
}

#[test]
fn tells_the_first_fault(rt: HostRuntime) -> Result<(), Fail> {
    for (text, offset, cause) in [
        ("fof(c,conjecture,p & q | r).", 23, ReadCause::Syntax),
        ("fof(c,conjecture,p => q => r).", 24, ReadCause::Syntax),
        ("fof(c,conjecture,p(1)).", 19, ReadCause::Unsupported),
        ("fof(c,conjecture,p \"a\").", 19, ReadCause::Unsupported),
        ("fof(c,conjecture,$$p).", 17, ReadCause::Reserved),
        ("fof(c,conjecture,p $true).", 19, ReadCause::Syntax),
        ("qmf(c,conjecture,p).", 0, ReadCause::WrongLanguage),
        (
            "fof(a,axiom,p). tff(c,conjecture,p).",
            16,
            ReadCause::Unsupported,
        ),
        ("'fof'(c,conjecture,p).", 0, ReadCause::Syntax),
        ("fof(c,conjecture,p != ).", 22, ReadCause::Syntax),
        ("fof(c,conjecture,! = p).", 19, ReadCause::Syntax),
        ("fof(c,conjecture,X).", 18, ReadCause::Syntax),
        ("fof(c,conjecture,#box:p).", 17, ReadCause::Syntax),
        ("fof(c,conjecture,p,[(]).", 21, ReadCause::Syntax),
        ("fof(c,conjecture,p,).", 19, ReadCause::Syntax),
        ("fof(c,conjecture,p,[1,\"a\",$x]) ", 31, ReadCause::Syntax),
        ("fof(c,conjecture,p ;", 19, ReadCause::Syntax),
        ("fof(c,'conjecture',p).", 6, ReadCause::Syntax),
        ("fof(1/2,conjecture,p).", 4, ReadCause::Syntax),
        ("cnf(c,axiom,p & q).", 14, ReadCause::Syntax),
        ("cnf(c,axiom,(~p) | q).", 17, ReadCause::Syntax),
        ("include('a',[]).", 13, ReadCause::Syntax),
        ("include(a).", 8, ReadCause::Syntax),
    ] {
        let fault = fault_of(read_items(rt.alloc(), text.as_bytes()));
        assert!(rt; fault == Some(ReadFault::At { offset, cause }), "at {text}");
    }
    Ok(())
}

// An item whose atom stands behind so many of these bytes.
fn deep(alloc: Global, byte: u8, count: u32) -> Result<Vec<u8>, AllocError> {
    let mut text = b"fof(c,axiom,".to_vec(alloc)?;
    for _ in 0..count {
        text.push(byte)?;
    }
    text.push(b'p')?;
    if byte == b'(' {
        for _ in 0..count {
            text.push(b')')?;
        }
    }
    for byte in b").".as_slice() {
        text.push(*byte)?;
    }
    Ok(text)
}

#[test]
fn stops_above_the_greatest_nesting(rt: HostRuntime) -> Result<(), Fail> {
    for byte in [b'(', b'~'] {
        let text = deep(rt.alloc(), byte, 500)?;
        assert!(rt; fault_of(read_items(rt.alloc(), text.as_slice())) == None);
        let deeper = deep(rt.alloc(), byte, 501)?;
        let fault = fault_of(read_items(rt.alloc(), deeper.as_slice()));
        assert!(rt; fault == Some(ReadFault::TooDeep { offset: 12 + 501 }));
    }
    Ok(())
}

#[test]
fn reads_every_construct(rt: HostRuntime) -> Result<(), Fail> {
    let text = "% a comment
        fof(1,axiom,![X,Y]:?[Z]:(~p(X,f(Y,'it\\'s')) <=> ($true <~> $false))).
        /* another */
        fof('n 1',lemma,a = b & c != d & 'p' & (q | r | s),file('x.p',[1,(2)]),\"note\").
        fof(x,axiom,(p <= q) ~| ((p ~& q) => (p => q))).
        cnf(c1,negated_conjecture,(p | ~q(X) | X = Y)).
        cnf(c2,axiom,(p) | ~(q) | r != s).
        cnf(c3,axiom,(p)).
        include('b.ax',[n,'m',12]). include('c.ax').
        fof(c,conjecture,p).";
    let items = read_items(rt.alloc(), text.as_bytes())?;
    let mut names = 0;
    let mut is_clause = false;
    for item in items.items() {
        match item {
            Item::Formula { kind, .. } => is_clause = is_clause || *kind == ItemKind::Cnf,
            Item::Include {
                names: Some(list),
                ..
            } => names = list.items().len(),
            Item::Include { .. } => {}
        }
    }
    assert!(rt; items.items().len() == 9);
    assert!(rt; (is_clause, names) == (true, 3));
    Ok(())
}

#[test]
fn reads_a_formula_up_to_what_ends_it(rt: HostRuntime) -> Result<(), Fail> {
    let text = b"## (p & q & r), ;";
    let (source, end) = read_formula(rt.alloc(), text.as_slice(), 3, false)?;
    let units = match &source {
        Source::Chain(_, units) => units.items().len(),
        _ => 0,
    };
    assert!(rt; (end, units) == (14, 3));
    Ok(())
}
