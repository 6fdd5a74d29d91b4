//! Reading terms into rows. The terms that are open stand on a stack on the heap, so that memory
//! alone bounds their depth.

ghost use Rattle.std.specs.Prelude.{◌≡◌, ◌<◌, ◌≤◌, ℕ, List, length, drop, Err, IfOk, OnOk, IfSome};
ghost use Rattle.std.specs.Prelude.{IsNone, IsTrue};
ghost use Rattle.std.specs.List.{list_all};
ghost use Rattle.calculus.specs.DerivationText.{IsNameAt, IsTermAt};
ghost use Rattle.calculus.specs.Problems.{are_distinct, symbol_fits};
ghost use Rattle.calculus.specs.Syntax as tree;
ghost use Rattle.formula_text.specs.Frames.{IsFunction, IsMadeAt, NoFunction, NoTerm};
ghost use Rattle.formula_text.specs.RowReading.{IsBegun, IsFurther, IsHead, IsNext, IsOpened, IsPut, IsRead, IsRowTo, leaf_of};
ghost use Rattle.formula_text.specs.Single.{AtMostOneTerm};

use crate::dollar::read_numbered;
use crate::label_reader::ends_at;
use crate::name_reader::read_name;
use crate::read::TextRead;
use crate::scan::{has_byte, rest_of};
use crate::term_row::{RowItem, TermRow};
use cop_base::{NoMemory, SymbolId, Text};
use formula_core::{Symbol, SymbolClass, Symbols};
use std::alloc::Global;

// A term whose arguments are being read: where its name begins in the text, the place of its
// symbol in the row, and how many of its arguments are whole. Its symbol is known when these are
// counted; then its name is read again, so that an open term takes 16 bytes.
#[derive(Clone, Copy)]
struct OpenTerm {
    from: usize,
    at: u32,
    count: u32,
}

// How a term begins: with a name and an opening bracket, or it is a leaf and whole. The place after
// it.
#[derive(Clone, Copy)]
enum Head {
    Open(usize),
    Leaf(RowItem, usize),
}

// What stands at a place after a term: a further argument, or the outermost term is whole.
#[derive(Clone, Copy)]
enum Next {
    Argument(usize),
    Whole(usize),
}

// The function symbol of this name and this number of arguments.
fn function_of(symbols: &Symbols, name: Text, arity: u32) -> Result<SymbolId, TextRead>
    ensures ok { IfOk result (λ id. IsFunction symbols.now id.0 name arity) }
    ensures none { result ≡ Err TextRead.None → NoFunction symbols.now name arity }
{
    let symbol = Symbol {
        name,
        class: SymbolClass::Function,
        arity,
    };
    match symbols.find(&symbol) {
        Some(id) => Ok(id),
        None => Err(TextRead::None),
    }
}

// An eigenvariable or a spare constant.
fn read_made(text: &[u8], from: usize) -> Option<(RowItem, usize)>
    requires { from ≤ length text.now }
    ensures some { IfSome result (λ r. IsMadeAt text.now from r.1 (leaf_of r.0)) }
    ensures within { IfSome result (λ r. r.1 ≤ length text.now) }
    ensures none { IsNone result → (to : ℕ) (t : tree.Term) → ¬ IsMadeAt text.now from to t }
{
    let found = read_numbered(text, from)?;
    if !ends_at(text, found.end) {
        return None;
    }
    match found.letter {
        b'e' => Some((RowItem::Eigen(found.number), found.end)),
        b's' => Some((RowItem::Spare(found.number), found.end)),
        _ => None,
    }
}

fn read_head(alloc: Global, symbols: &Symbols, text: &[u8], from: usize) -> Result<Head, TextRead>
    requires within { from ≤ length text.now }
    requires fits { IsTrue (list_all symbol_fits symbols.now) }
    ensures ok { IfOk result (IsHead symbols.now text.now from) }
    ensures none { result ≡ Err TextRead.None → NoTerm symbols.now (drop from text.now) }
{
    if has_byte(text, from, b'$') {
        return match read_made(text, from) {
            Some((item, end)) => Ok(Head::Leaf(item, end)),
            None => Err(TextRead::None),
        };
    }
    let (name, end) = read_name(alloc, text, from)?;
    if has_byte(text, end, b'(') {
        return Ok(Head::Open(end + 1));
    }
    if !ends_at(text, end) {
        return Err(TextRead::None);
    }
    let id = function_of(symbols, name, 0)?;
    Ok(Head::Leaf(RowItem::Fun(id, 0), end))
}

// Opens the term whose name begins at a place of the text, and keeps a place for its symbol.
fn open_term(
    stack: &mut Vec<OpenTerm>,
    items: &mut Vec<RowItem>,
    from: usize,
) -> Result<(), NoMemory>
    ensures { OnOk result (IsOpened from stack.old.items stack.new.items items.old.items items.new.items) }
{
    let Ok(at) = u32::try_from(items.len()) else {
        return Err(NoMemory);
    };
    items.push(RowItem::Fun(SymbolId(0), 0))?;
    stack.push(OpenTerm { from, at, count: 0 })?;
    Ok(())
}

// The name that a place of the text is known to have.
fn name_again(alloc: Global, text: &[u8], from: usize) -> Result<Text, TextRead>
    requires within { from ≤ length text.now }
    ensures ok { (to : ℕ) (name : List ℕ) → IsNameAt text.now from to name
        → IfOk result (λ n. n ≡ name) }
    ensures none { (to : ℕ) (name : List ℕ) → IsNameAt text.now from to name
        → ¬ (result ≡ Err TextRead.None) }
{
    let (name, _) = read_name(alloc, text, from)?;
    Ok(name)
}

// Puts the symbol of a term in its place before its arguments.
fn put_symbol(
    alloc: Global,
    symbols: &Symbols,
    text: &[u8],
    items: &mut Vec<RowItem>,
    term: OpenTerm,
) -> Result<(), TextRead>
    requires from { term.from ≤ length text.now }
    requires at { term.at < length items.old.items }
    ensures ok { (to : ℕ) (name : List ℕ) → IsNameAt text.now term.from to name
        → OnOk result (IsPut symbols.now name term items.old.items items.new.items) }
    ensures none { (to : ℕ) (name : List ℕ) → IsNameAt text.now term.from to name
        → result ≡ Err TextRead.None → NoFunction symbols.now name term.count }
{
    let name = name_again(alloc, text, term.from)?;
    let id = function_of(symbols, name, term.count)?;
    items[term.at as usize] = RowItem::Fun(id, term.count);
    Ok(())
}

// What stands at a place after a term: an argument that others follow, or the last one of the
// innermost open term, which is closed, and so on outward.
fn close_terms(
    alloc: Global,
    symbols: &Symbols,
    text: &[u8],
    stack: &mut Vec<OpenTerm>,
    items: &mut Vec<RowItem>,
    end: usize,
) -> Result<Next, TextRead>
    requires distinct { IsTrue (are_distinct symbols.now) }
    requires read { IsRead symbols.now text.now end stack.old.items items.old.items }
    ensures ok { IfOk result (IsNext symbols.now text.now stack.new.items items.new.items) }
    ensures further { IfOk result (IsFurther end) }
    ensures none { result ≡ Err TextRead.None → NoTerm symbols.now text.now }
{
    let mut end = end;
    while let Some(mut term) = stack.pop() {
        // A list of 2^32 arguments fits no memory.
        if term.count == u32::MAX {
            return Err(TextRead::NoMemory);
        }
        term.count += 1;
        if has_byte(text, end, b',') {
            stack.push_reserved(term);
            return Ok(Next::Argument(end + 1));
        }
        if !has_byte(text, end, b')') {
            return Err(TextRead::None);
        }
        end += 1;
        if !ends_at(text, end) {
            return Err(TextRead::None);
        }
        put_symbol(alloc, symbols, text, items, term)?;
    }
    Ok(Next::Whole(end))
}

// Reads how the term at a place begins and, where it is whole, the terms that it closes.
fn read_on(
    alloc: Global,
    symbols: &Symbols,
    text: &[u8],
    stack: &mut Vec<OpenTerm>,
    items: &mut Vec<RowItem>,
    place: usize,
) -> Result<Next, TextRead>
    requires distinct { IsTrue (are_distinct symbols.now) }
    requires fits { IsTrue (list_all symbol_fits symbols.now) }
    requires begun { IsBegun symbols.now text.now place stack.old.items items.old.items }
    ensures ok { IfOk result (IsNext symbols.now text.now stack.new.items items.new.items) }
    ensures further { IfOk result (IsFurther place) }
    ensures none { result ≡ Err TextRead.None → NoTerm symbols.now text.now }
{
    match read_head(alloc, symbols, text, place) {
        Ok(Head::Open(end)) => {
            open_term(stack, items, place)?;
            Ok(Next::Argument(end))
        }
        Ok(Head::Leaf(item, end)) => {
            items.push(item)?;
            close_terms(alloc, symbols, text, stack, items, end)
        }
        Err(fault) => Err(fault),
    }
}

// The items of the row of the term that stands at the beginning of a text, and the place after it.
fn read_items(
    alloc: Global,
    symbols: &Symbols,
    text: &[u8],
) -> Result<(Vec<RowItem>, usize), TextRead>
    requires distinct { IsTrue (are_distinct symbols.now) }
    requires fits { IsTrue (list_all symbol_fits symbols.now) }
    ensures ok { IfOk result (λ r. IsRowTo symbols.now text.now r.1 r.0.items) }
    ensures none { result ≡ Err TextRead.None → NoTerm symbols.now text.now }
{
    let mut stack = Vec::new(alloc);
    let mut items = Vec::new(alloc);
    let mut place = 0;
    loop {
        match read_on(alloc, symbols, text, &mut stack, &mut items, place) {
            Ok(Next::Argument(end)) => place = end,
            Ok(Next::Whole(end)) => return Ok((items, end)),
            Err(fault) => return Err(fault),
        }
    }
}

/// The row of the term without variables whose canonical text stands at a place and is followed by an ending byte or by the end, and
/// the place after it. Memory alone bounds how deep the term may be.
pub fn read_term(
    alloc: Global,
    symbols: &Symbols,
    text: &[u8],
    from: usize,
) -> Result<(TermRow, usize), TextRead>
    requires within { from ≤ length text.now }
    requires fits { IsTrue (list_all symbol_fits symbols.now) }
    ensures ok { IfOk result (λ r. IsTermAt symbols.now text.now from r.1 r.0) }
    ensures within { IfOk result (λ r. r.1 ≤ length text.now) }
    ensures none { result ≡ Err TextRead.None → (to : ℕ) (t : tree.Term) → ¬ IsTermAt symbols.now text.now from to t }
    ensures one { AtMostOneTerm symbols.now }
{
    // Called for its contract alone, which says that no symbol stands twice in the list.
    let _count = symbols.len();
    let rest = rest_of(text, from);
    let (items, end) = read_items(alloc, symbols, rest)?;
    let to = from + end;
    let row = TermRow::new(items);
    Ok((row, to))
}
