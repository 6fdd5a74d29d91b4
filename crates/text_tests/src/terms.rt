//! Names, labels, terms and settings, written and read.

ghost use Rattle.std.specs.Prelude.{IsTrue};
ghost use Rattle.calculus.specs.DerivationText.{term_is_written};
ghost use Rattle.formula_core.specs.TermView.{the_term};

use cop_base::{NoMemory, Text};
use formula_core::{Symbol, SymbolClass, Symbols, Term};
use formula_text::{
    TermRow, TextRead, read_label, read_name, read_term, term_of, write_label, write_name,
    write_row, write_setting, write_term,
};
use logic_rules::{Domains, Label, Logic, Mark, Problem, Setting};
use std::alloc::Global;
use std::test::Fail;
use test_problems::proving;

// Whether the text is read as this name up to its end; `None` where no name is to stand there.
fn reads_name(alloc: Global, text: &[u8], name: Option<&[u8]>) -> bool {
    match (read_name(alloc, text, 0), name) {
        (Ok((found, end)), Some(name)) => found.bytes() == name && end == text.len(),
        (Err(fault), None) => fault == TextRead::None,
        _ => false,
    }
}

const NAMES: &[(&[u8], Option<&[u8]>)] = &[
    (b"p", Some(b"p")),
    (b"aZ_9", Some(b"aZ_9")),
    (b"'an idempotent'", Some(b"an idempotent")),
    (b"'it\\'s'", Some(b"it's")),
    (b"'a\\\\b'", Some(b"a\\b")),
    (b"'X'", Some(b"X")),
    (b"'p'", None),
    (b"''", None),
    (b"X", None),
    (b"'a", None),
    (b"'a\\b'", None),
    (b"'a\nb'", None),
    (b"'X'a", None),
    (b"$$o", None),
    (b"", None),
];

#[test]
fn reads_names(rt: HostRuntime) -> Result<(), Fail> {
    for (text, name) in NAMES {
        assert!(rt; reads_name(rt.alloc(), text, *name));
    }
    Ok(())
}

// How many characters the label has as which the text is read and written again as it stands; `None`
// where no label is to stand there.
fn reads_label(alloc: Global, text: &[u8], length: Option<usize>) -> bool {
    match (read_label(alloc, text, 0), length) {
        (Ok((label, end)), Some(length)) => {
            let mut out = Vec::new(alloc);
            write_label(&mut out, &label).is_ok()
                && label.items().len() == length
                && end == text.len()
                && out.as_slice() == text
        }
        (Err(fault), None) => fault == TextRead::None,
        _ => false,
    }
}

const LABELS: &[(&[u8], Option<usize>)] = &[
    (b"[]", Some(0)),
    (b"[$$c1]", Some(1)),
    (b"[$$c1,$$c2,$$d4294967295]", Some(3)),
    (b"[$$c0]", None),
    (b"[$$c01]", None),
    (b"[$$c4294967296]", None),
    (b"[$$c1, $$c2]", None),
    (b"[$$c1,]", None),
    (b"[$$e1]", None),
    (b"[$$c1", None),
    (b"[]a", None),
    (b"", None),
];

#[test]
fn reads_labels(rt: HostRuntime) -> Result<(), Fail> {
    for (text, length) in LABELS {
        assert!(rt; reads_label(rt.alloc(), text, *length));
    }
    Ok(())
}

fn writes_term(alloc: Global, symbols: &Symbols, term: &Term, text: &[u8]) -> bool
    requires { IsTrue (term_is_written symbols.now (the_term term.now)) }
{
    let mut out = Vec::new(alloc);
    write_term(&mut out, symbols, term).is_ok() && out.as_slice() == text
}

// Whether a term in a row, and the same term as a tree, are written like this.
fn writes_row(alloc: Global, symbols: &Symbols, row: &TermRow, text: &[u8]) -> bool
    requires { IsTrue (term_is_written symbols.now row.now) }
{
    let mut out = Vec::new(alloc);
    let Ok(term) = term_of(alloc, row) else {
        return false;
    };
    write_row(alloc, &mut out, symbols, row).is_ok()
        && out.as_slice() == text
        && writes_term(alloc, symbols, &term, text)
}

// Whether the text begins with a term of the problem that ends at this place, and that is written
// again as it stands there; `None` where no term is to stand there.
fn reads_term(alloc: Global, problem: &Problem, text: &[u8], place: Option<usize>) -> bool {
    let symbols = problem.symbols();
    match (read_term(alloc, symbols, text, 0), place) {
        (Ok((row, end)), Some(place)) => {
            end == place && writes_row(alloc, symbols, &row, &text[..end])
        }
        (Err(fault), None) => fault == TextRead::None,
        _ => false,
    }
}

const TERMS: &[(&[u8], Option<usize>)] = &[
    (b"a", Some(1)),
    (b"f(a,b)", Some(6)),
    (b"f(f(a,$$e1),b)", Some(14)),
    (b"$$e1", Some(4)),
    (b"$$s4294967295", Some(13)),
    (b"a x", Some(1)),
    (b"$$e0", None),
    (b"$$e01", None),
    (b"f(a, b)", None),
    (b"f()", None),
    (b"f(a)", None),
    (b"f(a,b", None),
    (b"'a'", None),
    (b"c", None),
    (b"a=b", None),
    (b"", None),
];

#[test]
fn reads_terms(rt: HostRuntime) -> Result<(), Fail> {
    let alloc = rt.alloc();
    let problem = proving(alloc, Logic::Classical, Domains::Constant, b"p(f(a,b))")?;
    for (text, place) in TERMS {
        assert!(rt; reads_term(alloc, &problem, text, *place));
    }
    Ok(())
}

/// A leaf inside of this many terms.
pub fn nested_text(alloc: Global, leaf: &[u8], levels: usize) -> Result<Vec<u8>, NoMemory> {
    let mut text = Vec::new(alloc);
    for _ in 0..levels {
        text.extend_from_slice(b"f(")?;
    }
    text.extend_from_slice(leaf)?;
    for _ in 0..levels {
        text.push(b')')?;
    }
    Ok(text)
}

// Whether the text is a term, of which no tree is made.
fn reads_row_alone(alloc: Global, problem: &Problem, text: &[u8]) -> bool {
    match read_term(alloc, problem.symbols(), text, 0) {
        Ok((row, end)) => end == text.len() && term_of(alloc, &row).is_err(),
        Err(_) => false,
    }
}

#[test]
fn reads_deep_terms(rt: HostRuntime) -> Result<(), Fail> {
    let alloc = rt.alloc();
    let problem = proving(alloc, Logic::Classical, Domains::Constant, b"p(f(a))")?;
    let text = nested_text(alloc, b"a", 200_000)?;
    assert!(rt; reads_row_alone(alloc, &problem, text.as_slice()));
    Ok(())
}

// Whether the name of a predicate symbol is written like this, and read again.
fn writes_name(alloc: Global, name: &[u8], text: &[u8]) -> Result<bool, NoMemory> {
    let mut symbols = Symbols::new(alloc);
    let added = symbols.add(Symbol {
        name: Text::new(alloc, name)?,
        class: SymbolClass::Predicate,
        arity: 2,
    });
    let Ok(id) = added else {
        return Err(NoMemory);
    };
    let mut out = Vec::new(alloc);
    write_name(&mut out, &symbols, id)?;
    Ok(out.as_slice() == text && reads_name(alloc, text, Some(name)))
}

#[test]
fn writes_names(rt: HostRuntime) -> Result<(), Fail> {
    let alloc = rt.alloc();
    for (name, text) in [
        (b"p".as_slice(), b"p".as_slice()),
        (b"aZ_9", b"aZ_9"),
        (b"P", b"'P'"),
        (b"_p", b"'_p'"),
        (b"9", b"'9'"),
        (b"an idempotent", b"'an idempotent'"),
        (b"it's", b"'it\\'s'"),
        (b"a\\b", b"'a\\\\b'"),
        (b"'\\'", b"'\\'\\\\\\''"),
    ] {
        assert!(rt; writes_name(alloc, name, text)?);
    }
    Ok(())
}

#[test]
fn writes_settings(rt: HostRuntime) -> Result<(), Fail> {
    let alloc = rt.alloc();
    for (logic, domains, text) in [
        (Logic::Classical, Domains::Constant, b"classical".as_slice()),
        (Logic::Intuitionistic, Domains::Constant, b"intuitionistic"),
        (Logic::D, Domains::Constant, b"d constant"),
        (Logic::T, Domains::Cumulative, b"t cumulative"),
        (Logic::S4, Domains::Varying, b"s4 varying"),
        (Logic::S5, Domains::Cumulative, b"s5 constant"),
    ] {
        let mut out = Vec::new(alloc);
        write_setting(&mut out, Setting::new(logic, domains))?;
        assert!(rt; out.as_slice() == text);
    }
    Ok(())
}
