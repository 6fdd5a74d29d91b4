//! Texts of modal problems with their items or their first fault.

use qmltp_reader::read_modal_items;
use std::test::Fail;
use tptp_reader::{Item, ItemList, ReadCause, ReadFault, read_items};

fn fault_of(read: Result<ItemList, ReadFault>) -> Option<ReadFault> {
    match read {
        Ok(_) => None,
        Err(fault) => Some(fault),
    }
}

#[test]
fn tells_the_first_fault(rt: HostRuntime) -> Result<(), Fail> {
    for (text, offset, cause) in [
        ("fof(c,conjecture,p).", 0, ReadCause::WrongLanguage),
        (
            "qmf(a,axiom,p). cnf(b,axiom,p).",
            16,
            ReadCause::WrongLanguage,
        ),
        ("thf(c,conjecture,p).", 0, ReadCause::Unsupported),
        ("qmf(c,conjecture,#box p).", 22, ReadCause::Syntax),
        ("qmf(c,conjecture,#bax:p).", 17, ReadCause::Syntax),
        ("qmf(c,conjecture,#dia:$p).", 22, ReadCause::Reserved),
    ] {
        let fault = fault_of(read_modal_items(rt.alloc(), text.as_bytes()));
        assert!(rt; fault == Some(ReadFault::At { offset, cause }), "at {text}");
    }
    Ok(())
}

// The number of items, and that of the modal operators before the first formula.
fn shape(items: &ItemList) -> (usize, bool) {
    let first = match items.items().first() {
        Some(Item::Formula { body, .. }) => matches!(body, tptp_reader::Source::Nec(_)),
        _ => false,
    };
    (items.items().len(), first)
}

#[test]
fn reads_modal_formulas(rt: HostRuntime) -> Result<(), Fail> {
    let text =
        "qmf(a,axiom,#box: p(X) => ?[Y]: #dia: q(Y)). include('b.ax').\nqmf(c,conjecture,p).";
    let modal = read_modal_items(rt.alloc(), text.as_bytes())?;
    assert!(rt; shape(&modal) == (3, false));
    let boxed = read_modal_items(rt.alloc(), b"qmf(a,axiom,#box: p).")?;
    assert!(rt; shape(&boxed) == (1, true));
    let plain = read_items(rt.alloc(), b"fof(a,axiom,p & (q | r)).")?;
    let same = read_modal_items(rt.alloc(), b"qmf(a,axiom,p & (q | r)).")?;
    assert!(rt; shape(&plain) == shape(&same));
    Ok(())
}
