//! Items.

ghost use Rattle.std.specs.Prelude.{◌≡◌, ◌<◌, ◌≤◌, ◌==◌, ◌&&◌, ◌++◌, ◌∷◌, [], Bool, IfErr, IfOk, OnOk, List, ℕ, None, Some, false, true, length, reverse};
ghost use Rattle.tptp_reader.specs.Expecting as way;
ghost use Rattle.tptp_reader.specs.ExpectedView.{the_fixed};
ghost use Rattle.tptp_reader.specs.Failing.{At, Behind, Missing, Settles, SettlesAt, SettlesEnd, SettlesItem, SettlesTo, body_part, head_parts};
ghost use Rattle.tptp_reader.specs.Following.{closing};
ghost use Rattle.tptp_reader.specs.ItemStanding.{BodyRead, DotRead, EndRead, HeadRead, IncludeRead, ItemRead, NamesRead, NotesRead, RestRead, SelectedEnd, SelectedRead, file_in, is_clause, is_include_word, is_square, kind_in, name_in, note_after, role_in};
ghost use Rattle.tptp_reader.specs.Pieces.{placed};
ghost use Rattle.tptp_reader.specs.SourceView.{the_source};
ghost use Rattle.tptp_reader.specs.Terminals.{Follow};
ghost use Rattle.tptp_reader.specs.TerminalView.{the_terminal};

use crate::clause_reader::read_clause;
use crate::expected::Fixed;
use crate::formula_reader::read_tree;
use crate::item::{Item, ItemKind, NamePlaces};
use crate::moves::{has_form, is_digits};
use crate::source::Source;
use crate::stop::Stop;
use crate::term_reader::{next_token, read_word};
use crate::terminal::{Piece, Terminal};
use cop_base::{NoMemory, Text};
use std::alloc::{AllocFailed, Global};

// ---- single tokens

// The kind of an item with a formula, by its first token.
fn kind_of(modal: bool, x: Terminal) -> Option<ItemKind>
    ensures { result ≡ kind_in modal (the_terminal x.entry) }
{
    let Terminal::Lower(word) = x else {
        return None;
    };
    if modal {
        if word == b"qmf".as_slice() {
            return Some(ItemKind::Qmf);
        }
        return None;
    }
    if word == b"fof".as_slice() {
        Some(ItemKind::Fof)
    } else if word == b"cnf".as_slice() {
        Some(ItemKind::Cnf)
    } else {
        None
    }
}

// The name of an item.
fn read_name(alloc: Global, x: Terminal) -> Result<Text, Stop>
    ensures name { IfOk result (λ t. name_in (the_terminal x.entry) ≡ Some t) }
    ensures none { IfErr result (Missing (name_in (the_terminal x.entry) ≡ None)) }
{
    match x {
        Terminal::Number(digits) => {
            if !is_digits(digits) {
                return Err(Stop::NotThere);
            }
            let name = Text::new(alloc, digits)?;
            Ok(name)
        }
        Terminal::Lower(_) | Terminal::Quoted(_) => {
            let name = read_word(alloc, x)?;
            Ok(name)
        }
        _ => Err(Stop::NotThere),
    }
}

fn read_role(alloc: Global, x: Terminal) -> Result<Text, Stop>
    ensures role { IfOk result (λ t. role_in (the_terminal x.entry) ≡ Some t) }
    ensures none { IfErr result (Missing (role_in (the_terminal x.entry) ≡ None)) }
{
    let Terminal::Lower(word) = x else {
        return Err(Stop::NotThere);
    };
    let role = Text::new(alloc, word)?;
    Ok(role)
}

// The name of a file.
fn read_file(alloc: Global, x: Terminal) -> Result<Text, Stop>
    ensures file { IfOk result (λ t. file_in (the_terminal x.entry) ≡ Some t) }
    ensures none { IfErr result (Missing (file_in (the_terminal x.entry) ≡ None)) }
{
    match x {
        Terminal::Quoted(_) => {
            let name = read_word(alloc, x)?;
            Ok(name)
        }
        _ => Err(Stop::NotThere),
    }
}

fn is_include_word(x: Terminal) -> bool
    ensures { result ≡ is_include_word (the_terminal x.entry) }
{
    match x {
        Terminal::Lower(word) => word == b"include".as_slice(),
        _ => false,
    }
}

fn is_square(x: Terminal) -> bool
    ensures { result ≡ is_square (the_terminal x.entry) }
{
    matches!(x, Terminal::CloseSquare)
}

// The token behind this one, which is to have the form.
fn behind<'a>(text: &'a [u8], form: Fixed, p: Piece<'a>) -> Result<Piece<'a>, Stop>
    requires { p.end ≤ length text.now }
    ensures formed { IfOk result (λ _. (way.form (the_terminal p.entry.terminal) == way.form_of (the_fixed form)) ≡ true) }
    ensures next { IfOk result (λ q. Follow text.now p.entry.end (placed q ∷ []) q.end) }
    ensures settles { (modal : Bool) → SettlesTo modal text.now (way.this (the_fixed form) 0 ∷ []) p.entry result }
    ensures onward { IfOk result (λ q. p.entry.end < q.end) }
    ensures within { IfOk result (λ q. q.end ≤ length text.now) }
{
    if !has_form(form, p.terminal) {
        return Err(Stop::NotThere);
    }
    next_token(text, p.end)
}

// The dot of an item, from the bracket before it on.
fn read_dot<'a>(text: &'a [u8], p: Piece<'a>) -> Result<Piece<'a>, Stop>
    requires { p.end ≤ length text.now }
    ensures read { IfOk result (DotRead text.now p.entry) }
    ensures settles { (modal : Bool) → SettlesEnd (λ q. q) modal text.now (way.this way.a_closing 0 ∷ []) p.entry result }
    ensures onward { IfOk result (λ q. p.entry.end < q.end) }
    ensures within { IfOk result (λ q. q.end ≤ length text.now) }
{
    let dot = behind(text, Fixed::Closing, p)?;
    if !has_form(Fixed::Dot, dot.terminal) {
        return Err(Stop::NotThere);
    }
    Ok(dot)
}

// ---- formulas, clauses and notes

fn is_clause(kind: ItemKind) -> bool
    ensures { result ≡ is_clause kind }
{
    match kind {
        ItemKind::Cnf => true,
        ItemKind::Fof | ItemKind::Qmf => false,
    }
}

// The formula or clause of an item, and the token behind it.
fn read_body<'a>(
    alloc: Global,
    text: &'a [u8],
    modal: bool,
    kind: ItemKind,
    p: Piece<'a>,
) -> Result<(Source, Piece<'a>), Stop>
    requires { p.end ≤ length text.now }
    ensures read { IfOk result (BodyRead modal kind text.now p.entry) }
    ensures settles { SettlesAt modal text.now (body_part kind ∷ []) p.entry result }
    ensures onward { IfOk result (λ r. p.entry.end < r.1.end) }
    ensures within { IfOk result (λ r. r.1.end ≤ length text.now) }
{
    if is_clause(kind) {
        return read_clause(alloc, text, p);
    }
    read_tree(alloc, text, modal, 0, p)
}

// A bracket within notes, a round one or a square one.
fn open_note(waiting: &mut Vec<bool>, round: bool) -> Result<(), NoMemory>
    ensures { OnOk result (waiting.new.items ≡ waiting.old.items ++ round ∷ []) }
{
    waiting.push(round)?;
    Ok(())
}

fn close_note(waiting: &mut Vec<bool>, round: bool) -> Result<(), Stop>
    ensures closed { OnOk result (reverse waiting.old.items ≡ round ∷ reverse waiting.new.items) }
    ensures none { IfErr result (Missing (note_after (reverse waiting.old.items) (closing round) ≡ None)) }
{
    match waiting.pop() {
        Some(open) => {
            if open == round {
                return Ok(());
            }
            Err(Stop::NotThere)
        }
        None => Err(Stop::NotThere),
    }
}

// A token within notes.
fn pass_note(waiting: &mut Vec<bool>, x: Terminal) -> Result<(), Stop>
    ensures passed { OnOk result (note_after (reverse waiting.old.items) (the_terminal x.entry) ≡ Some (reverse waiting.new.items)) }
    ensures none { IfErr result (Missing (note_after (reverse waiting.old.items) (the_terminal x.entry) ≡ None)) }
{
    match x {
        Terminal::OpenRound => open_note(waiting, true)?,
        Terminal::OpenSquare => open_note(waiting, false)?,
        Terminal::CloseRound => return close_note(waiting, true),
        Terminal::CloseSquare => return close_note(waiting, false),
        _ => {}
    }
    Ok(())
}

// Notes may end here: no bracket of theirs is open, and this one closes.
fn ends_notes(waiting: &[bool], x: Terminal) -> bool
    ensures { result ≡ ((length waiting.now == 0) && (way.form (the_terminal x.entry) == 11)) }
{
    waiting.is_empty() && has_form(Fixed::Closing, x)
}

// The dot of an item, from its first note on.
fn skip_notes<'a>(alloc: Global, text: &'a [u8], p: Piece<'a>) -> Result<Piece<'a>, Stop>
    requires { p.end ≤ length text.now }
    ensures read { IfOk result (NotesRead text.now p.entry) }
    ensures settles { (modal : Bool) → SettlesEnd (λ q. q) modal text.now (way.notes [] ∷ []) p.entry result }
    ensures onward { IfOk result (λ r. p.entry.end < r.end) }
    ensures within { IfOk result (λ r. r.end ≤ length text.now) }
{
    let mut waiting: Vec<bool> = Vec::new(alloc);
    let mut here = p;
    'notes: loop {
        if ends_notes(waiting.as_slice(), here.terminal) {
            return read_dot(text, here);
        }
        let next = next_token(text, here.end)?;
        pass_note(&mut waiting, here.terminal)?;
        here = next;
    }
}

// The dot of an item, from the token behind its formula on.
fn read_end<'a>(alloc: Global, text: &'a [u8], p: Piece<'a>) -> Result<Piece<'a>, Stop>
    requires { p.end ≤ length text.now }
    ensures read { IfOk result (EndRead text.now p.entry) }
    ensures settles { (modal : Bool) → SettlesEnd (λ q. q) modal text.now (way.after_body ∷ []) p.entry result }
    ensures onward { IfOk result (λ r. p.entry.end < r.end) }
    ensures within { IfOk result (λ r. r.end ≤ length text.now) }
{
    if !has_form(Fixed::Comma, p.terminal) {
        return read_dot(text, p);
    }
    let first = next_token(text, p.end)?;
    if has_form(Fixed::Closing, first.terminal) {
        return Err(Stop::NotThere);
    }
    skip_notes(alloc, text, first)
}

// The formula, and the dot behind what follows it.
fn ended<'a>(
    alloc: Global,
    text: &'a [u8],
    source: Source,
    after: Piece<'a>,
) -> Result<(Source, Piece<'a>), Stop>
    requires { after.end ≤ length text.now }
    ensures read { IfOk result (λ r. (the_source r.0 ≡ the_source source)
        × EndRead text.now after.entry r.1) }
    ensures settles { (modal : Bool) → SettlesEnd (λ r. r.1) modal text.now (way.after_body ∷ []) after.entry result }
    ensures onward { IfOk result (λ r. after.entry.end < r.1.end) }
    ensures within { IfOk result (λ r. r.1.end ≤ length text.now) }
{
    let dot = read_end(alloc, text, after)?;
    Ok((source, dot))
}

// The formula or clause of an item, and the dot.
fn read_rest<'a>(
    alloc: Global,
    text: &'a [u8],
    modal: bool,
    kind: ItemKind,
    p: Piece<'a>,
) -> Result<(Source, Piece<'a>), Stop>
    requires { p.end ≤ length text.now }
    ensures read { IfOk result (RestRead modal kind text.now p.entry) }
    ensures settles { SettlesEnd (λ r. r.1) modal text.now (body_part kind ∷ way.after_body ∷ []) p.entry result }
    ensures onward { IfOk result (λ r. p.entry.end < r.1.end) }
    ensures within { IfOk result (λ r. r.1.end ≤ length text.now) }
{
    let (source, after) = read_body(alloc, text, modal, kind, p)?;
    ended(alloc, text, source, after)
}

// ---- items

/// An item up to its formula: its name and role, with the offset of the role, and the first token
/// of the formula.
#[derive(Drop)]
pub struct Head<'a> {
    name: Text,
    role: Text,
    role_at: u64,
    body: Piece<'a>,
}

fn read_head<'a>(alloc: Global, text: &'a [u8], p: Piece<'a>) -> Result<Head<'a>, Stop>
    requires { p.end ≤ length text.now }
    ensures read { IfOk result (HeadRead text.now p.entry) }
    ensures settles { (modal : Bool) → Settles (Behind modal text.now p.entry.end) head_parts (λ h. At modal text.now h.body) result }
    ensures onward { IfOk result (λ h. p.entry.end < h.body.end) }
    ensures within { IfOk result (λ h. h.body.end ≤ length text.now) }
{
    let bracket = next_token(text, p.end)?;
    let name_at = behind(text, Fixed::Opening, bracket)?;
    let comma = next_token(text, name_at.end)?;
    let role_at = behind(text, Fixed::Comma, comma)?;
    let second = next_token(text, role_at.end)?;
    let body = behind(text, Fixed::Comma, second)?;
    let name = read_name(alloc, name_at.terminal)?;
    let role = read_role(alloc, role_at.terminal)?;
    Ok(Head {
        name,
        role,
        role_at: role_at.start as u64,
        body,
    })
}

// An item with a formula; its last token is the dot.
fn read_formula_item<'a>(
    alloc: Global,
    text: &'a [u8],
    modal: bool,
    kind: ItemKind,
    p: Piece<'a>,
) -> Result<(Item, Piece<'a>), Stop>
    requires within { p.end ≤ length text.now }
    requires kind { kind_in modal (the_terminal p.terminal) ≡ Some kind }
    ensures read { IfOk result (ItemRead modal text.now p.entry) }
    ensures settles { SettlesItem modal text.now p.entry result }
    ensures onward { IfOk result (λ r. p.entry.end < r.1.end) }
    ensures within { IfOk result (λ r. r.1.end ≤ length text.now) }
{
    let head = read_head(alloc, text, p)?;
    let (body, dot) = read_rest(alloc, text, modal, kind, head.body)?;
    let item = Item::Formula {
        kind,
        name: head.name,
        role: head.role,
        role_at: head.role_at,
        body,
        start: p.start as u64,
    };
    Ok((item, dot))
}

// ---- includes

fn push_name(alloc: Global, names: &mut NamePlaces, p: Piece) -> Result<(), Stop>
    ensures pushed { OnOk result ((t : List ℕ) × (name_in (the_terminal p.entry.terminal) ≡ Some t)
        × (names.new ≡ names.old ++ (t, p.entry.start) ∷ [])) }
    ensures none { IfErr result (Missing (name_in (the_terminal p.entry.terminal) ≡ None)) }
{
    let name = read_name(alloc, p.terminal)?;
    names.push((name, p.start as u64))?;
    Ok(())
}

// Names, from the first one on, and the token behind them.
fn read_names<'a>(
    alloc: Global,
    text: &'a [u8],
    p: Piece<'a>,
) -> Result<(NamePlaces, Piece<'a>), Stop>
    requires { p.end ≤ length text.now }
    ensures read { IfOk result (NamesRead text.now p.entry) }
    ensures settles { (modal : Bool) → Settles (At modal text.now p.entry) (way.name ∷ way.names_rest ∷ []) (λ r es. At modal text.now r.1 (way.names_rest ∷ es)) result }
    ensures ended { IfOk result (λ r. (way.form (the_terminal r.1.terminal) == 14) ≡ false) }
    ensures onward { IfOk result (λ r. p.entry.end < r.1.end) }
    ensures within { IfOk result (λ r. r.1.end ≤ length text.now) }
{
    let mut names = NamePlaces::new(alloc);
    push_name(alloc, &mut names, p)?;
    let mut here = next_token(text, p.end)?;
    'names: while has_form(Fixed::Comma, here.terminal) {
        let next = next_token(text, here.end)?;
        push_name(alloc, &mut names, next)?;
        here = next_token(text, next.end)?;
    }
    Ok((names, here))
}

// The dot, from the bracket behind the names on.
fn read_square<'a>(text: &'a [u8], p: Piece<'a>) -> Result<Piece<'a>, Stop>
    requires { p.end ≤ length text.now }
    ensures read { IfOk result (SelectedEnd text.now p.entry) }
    ensures settles { (way.form (the_terminal p.entry.terminal) == 14) ≡ false
        → (modal : Bool) → SettlesEnd (λ q. q) modal text.now (way.names_rest ∷ []) p.entry result }
    ensures onward { IfOk result (λ r. p.entry.end < r.end) }
    ensures within { IfOk result (λ r. r.end ≤ length text.now) }
{
    if !is_square(p.terminal) {
        return Err(Stop::NotThere);
    }
    let close = next_token(text, p.end)?;
    read_dot(text, close)
}

// The names, and the dot behind them.
fn selected<'a>(
    text: &'a [u8],
    names: NamePlaces,
    p: Piece<'a>,
) -> Result<(NamePlaces, Piece<'a>), Stop>
    requires { p.end ≤ length text.now }
    ensures read { IfOk result (λ r. (r.0 ≡ names) × SelectedEnd text.now p.entry r.1) }
    ensures settles { (way.form (the_terminal p.entry.terminal) == 14) ≡ false
        → (modal : Bool) → SettlesEnd (λ r. r.1) modal text.now (way.names_rest ∷ []) p.entry result }
    ensures onward { IfOk result (λ r. p.entry.end < r.1.end) }
    ensures within { IfOk result (λ r. r.1.end ≤ length text.now) }
{
    let dot = read_square(text, p)?;
    Ok((names, dot))
}

// The names of an include, from their `[` on, and its dot.
fn read_selected<'a>(
    alloc: Global,
    text: &'a [u8],
    p: Piece<'a>,
) -> Result<(NamePlaces, Piece<'a>), Stop>
    requires { p.end ≤ length text.now }
    ensures read { IfOk result (SelectedRead text.now p.entry) }
    ensures settles { (modal : Bool) → SettlesEnd (λ r. r.1) modal text.now (way.this way.a_square 0 ∷ way.name ∷ way.names_rest ∷ []) p.entry result }
    ensures onward { IfOk result (λ r. p.entry.end < r.1.end) }
    ensures within { IfOk result (λ r. r.1.end ≤ length text.now) }
{
    let first = behind(text, Fixed::Square, p)?;
    let (names, square) = read_names(alloc, text, first)?;
    selected(text, names, square)
}

// An include; its last token is the dot.
fn read_include<'a>(alloc: Global, text: &'a [u8], p: Piece<'a>) -> Result<(Item, Piece<'a>), Stop>
    requires within { p.end ≤ length text.now }
    requires word { is_include_word (the_terminal p.terminal) ≡ true }
    ensures read { IfOk result (IncludeRead text.now p.entry) }
    ensures settles { (modal : Bool) → SettlesItem modal text.now p.entry result }
    ensures onward { IfOk result (λ r. p.entry.end < r.1.end) }
    ensures within { IfOk result (λ r. r.1.end ≤ length text.now) }
{
    let bracket = next_token(text, p.end)?;
    let file_at = behind(text, Fixed::Opening, bracket)?;
    let sign = next_token(text, file_at.end)?;
    let start = p.start as u64;
    if !has_form(Fixed::Comma, sign.terminal) {
        let dot = read_dot(text, sign)?;
        let file = read_file(alloc, file_at.terminal)?;
        let item = Item::Include {
            file,
            names: None,
            start,
        };
        return Ok((item, dot));
    }
    let square = next_token(text, sign.end)?;
    let file = read_file(alloc, file_at.terminal)?;
    let (names, dot) = read_selected(alloc, text, square)?;
    let item = Item::Include {
        file,
        names: Some(names),
        start,
    };
    Ok((item, dot))
}

/// An item of a modal problem, or of one that is not modal, from its first token on; its last
/// token is the dot.
pub fn read_item<'a>(
    alloc: Global,
    text: &'a [u8],
    modal: bool,
    p: Piece<'a>,
) -> Result<(Item, Piece<'a>), Stop>
    requires { p.end ≤ length text.now }
    ensures read { IfOk result (ItemRead modal text.now p.entry) }
    ensures settles { SettlesItem modal text.now p.entry result }
    ensures onward { IfOk result (λ r. p.entry.end < r.1.end) }
    ensures within { IfOk result (λ r. r.1.end ≤ length text.now) }
{
    if let Some(kind) = kind_of(modal, p.terminal) {
        return read_formula_item(alloc, text, modal, kind, p);
    }
    if !is_include_word(p.terminal) {
        return Err(Stop::NotThere);
    }
    read_include(alloc, text, p)
}
