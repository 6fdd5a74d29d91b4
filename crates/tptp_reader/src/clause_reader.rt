//! Clauses. Where one begins with a bracket, it stands in brackets as a whole, or the atom of its first literal does.

ghost use Rattle.std.specs.Prelude.{◌≡◌, ◌<◌, ◌≤◌, ◌==◌, ◌||◌, ◌∷◌, [], Bool, IfOk, false, length};
ghost use Rattle.tptp_reader.specs.ClauseStanding.{ClauseRead, DisjunctionRead, InsideRead, LiteralRead, MoreRead, OpenedRead, OthersRead, OutsideRead, UnsignedRead};
ghost use Rattle.tptp_reader.specs.Expecting as way;
ghost use Rattle.tptp_reader.specs.Failing.{SettlesAt, bracketed_parts};
ghost use Rattle.tptp_reader.specs.SourceView.{the_source};
ghost use Rattle.tptp_reader.specs.TerminalView.{the_terminal};

use crate::expected::Fixed;
use crate::formula_reader::{closed, read_atom};
use crate::moves::has_form;
use crate::source::{ChainKind, Source, SourceBox, SourceList};
use crate::stop::Stop;
use crate::term_reader::next_token;
use crate::terminal::{Piece, Terminal};
use std::alloc::Global;

fn is_tilde(x: Terminal) -> bool
    ensures { result ≡ (way.form (the_terminal x.entry) == 17) }
{
    matches!(x, Terminal::Tilde)
}

fn is_bar(x: Terminal) -> bool
    ensures { result ≡ (way.form (the_terminal x.entry) == 4) }
{
    matches!(x, Terminal::Bar)
}

// An atom, in brackets or not.
fn read_unsigned<'a>(
    alloc: Global,
    text: &'a [u8],
    depth: u32,
    p: Piece<'a>,
) -> Result<(Source, Piece<'a>), Stop>
    requires within { p.end ≤ length text.now }
    requires shallow { depth ≤ 2 }
    ensures read { IfOk result (UnsignedRead text.now depth p.entry) }
    ensures settles { (modal : Bool) → SettlesAt modal text.now (way.unsigned depth ∷ []) p.entry result }
    ensures onward { IfOk result (λ r. p.entry.end < r.1.end) }
    ensures within { IfOk result (λ r. r.1.end ≤ length text.now) }
{
    if !has_form(Fixed::Opening, p.terminal) {
        return read_atom(alloc, text, depth, p);
    }
    let start = next_token(text, p.end)?;
    let (source, close) = read_atom(alloc, text, depth + 1, start)?;
    closed(text, source, close)
}

fn read_literal<'a>(
    alloc: Global,
    text: &'a [u8],
    depth: u32,
    p: Piece<'a>,
) -> Result<(Source, Piece<'a>), Stop>
    requires within { p.end ≤ length text.now }
    requires shallow { depth ≤ 1 }
    ensures read { IfOk result (LiteralRead text.now depth p.entry) }
    ensures settles { (modal : Bool) → SettlesAt modal text.now (way.literal depth ∷ []) p.entry result }
    ensures onward { IfOk result (λ r. p.entry.end < r.1.end) }
    ensures within { IfOk result (λ r. r.1.end ≤ length text.now) }
{
    if !is_tilde(p.terminal) {
        return read_unsigned(alloc, text, depth, p);
    }
    let start = next_token(text, p.end)?;
    let (source, after) = read_unsigned(alloc, text, depth + 1, start)?;
    let inner = SourceBox::new(alloc, source)?;
    Ok((Source::Not(inner), after))
}

// These literals, and those that stand behind a `|` each.
fn read_more<'a>(
    alloc: Global,
    text: &'a [u8],
    depth: u32,
    before: SourceList,
    p: Piece<'a>,
) -> Result<(SourceList, Piece<'a>), Stop>
    requires within { p.end ≤ length text.now }
    requires shallow { depth ≤ 1 }
    ensures read { IfOk result (MoreRead text.now depth before p.entry) }
    ensures settles { (modal : Bool) → SettlesAt modal text.now (way.literals_rest depth ∷ []) p.entry result }
    ensures ended { IfOk result (λ r. (way.form (the_terminal r.1.terminal) == 4) ≡ false) }
    ensures onward { IfOk result (λ r. p.entry.end ≤ r.1.end) }
    ensures within { IfOk result (λ r. r.1.end ≤ length text.now) }
{
    let mut literals = before;
    let mut here = p;
    'bars: while is_bar(here.terminal) {
        let start = next_token(text, here.end)?;
        let (literal, after) = read_literal(alloc, text, depth, start)?;
        literals.push(literal)?;
        here = after;
    }
    Ok((literals, here))
}

// The disjunction of a first literal and of those behind it.
fn read_others<'a>(
    alloc: Global,
    text: &'a [u8],
    depth: u32,
    first: Source,
    p: Piece<'a>,
) -> Result<(Source, Piece<'a>), Stop>
    requires within { p.end ≤ length text.now }
    requires shallow { depth ≤ 1 }
    ensures read { IfOk result (OthersRead text.now depth (the_source first) p.entry) }
    ensures settles { (modal : Bool) → SettlesAt modal text.now (way.literals_rest depth ∷ []) p.entry result }
    ensures onward { IfOk result (λ r. p.entry.end ≤ r.1.end) }
    ensures within { IfOk result (λ r. r.1.end ≤ length text.now) }
{
    if !is_bar(p.terminal) {
        return Ok((first, p));
    }
    let mut literals = SourceList::new(alloc);
    literals.push(first)?;
    let (literals, after) = read_more(alloc, text, depth, literals, p)?;
    Ok((Source::Chain(ChainKind::Or, literals), after))
}

fn read_literals<'a>(
    alloc: Global,
    text: &'a [u8],
    depth: u32,
    p: Piece<'a>,
) -> Result<(Source, Piece<'a>), Stop>
    requires within { p.end ≤ length text.now }
    requires shallow { depth ≤ 1 }
    ensures read { IfOk result (DisjunctionRead text.now depth p.entry) }
    ensures settles { (modal : Bool) → SettlesAt modal text.now (way.literal depth ∷ way.literals_rest depth ∷ []) p.entry result }
    ensures onward { IfOk result (λ r. p.entry.end < r.1.end) }
    ensures within { IfOk result (λ r. r.1.end ≤ length text.now) }
{
    let (first, sign) = read_literal(alloc, text, depth, p)?;
    read_others(alloc, text, depth, first, sign)
}

// A clause in brackets, from behind the first one on.
fn read_bracketed<'a>(
    alloc: Global,
    text: &'a [u8],
    p: Piece<'a>,
) -> Result<(Source, Piece<'a>), Stop>
    requires { p.end ≤ length text.now }
    ensures read { IfOk result (OpenedRead text.now p.entry) }
    ensures settles { (modal : Bool) → SettlesAt modal text.now (bracketed_parts 1) p.entry result }
    ensures onward { IfOk result (λ r. p.entry.end < r.1.end) }
    ensures within { IfOk result (λ r. r.1.end ≤ length text.now) }
{
    let (source, close) = read_literals(alloc, text, 1, p)?;
    closed(text, source, close)
}

// The others in brackets, and the bracket behind them.
fn read_inside<'a>(
    alloc: Global,
    text: &'a [u8],
    first: Source,
    p: Piece<'a>,
) -> Result<(Source, Piece<'a>), Stop>
    requires { p.end ≤ length text.now }
    ensures read { IfOk result (InsideRead text.now (the_source first) p.entry) }
    ensures settles { (modal : Bool) → SettlesAt modal text.now (way.literals_rest 1 ∷ way.this way.a_closing 1 ∷ []) p.entry result }
    ensures onward { IfOk result (λ r. p.entry.end < r.1.end) }
    ensures within { IfOk result (λ r. r.1.end ≤ length text.now) }
{
    let (source, close) = read_others(alloc, text, 1, first, p)?;
    closed(text, source, close)
}

// The others behind an atom in brackets.
fn read_outside<'a>(
    alloc: Global,
    text: &'a [u8],
    first: Source,
    close: Piece<'a>,
) -> Result<(Source, Piece<'a>), Stop>
    requires { close.end ≤ length text.now }
    ensures read { IfOk result (OutsideRead text.now (the_source first) close.entry) }
    ensures settles { (modal : Bool) → SettlesAt modal text.now (way.this way.a_closing 1 ∷ way.literals_rest 0 ∷ []) close.entry result }
    ensures onward { IfOk result (λ r. close.entry.end < r.1.end) }
    ensures within { IfOk result (λ r. r.1.end ≤ length text.now) }
{
    let (first, after) = closed(text, first, close)?;
    read_others(alloc, text, 0, first, after)
}

// A clause that begins with a bracket and an atom, from the atom on.
fn read_opened<'a>(alloc: Global, text: &'a [u8], p: Piece<'a>) -> Result<(Source, Piece<'a>), Stop>
    requires { p.end ≤ length text.now }
    ensures read { IfOk result (OpenedRead text.now p.entry) }
    ensures settles { (modal : Bool) → SettlesAt modal text.now (way.atom 1 ∷ way.clause_rest ∷ []) p.entry result }
    ensures onward { IfOk result (λ r. p.entry.end < r.1.end) }
    ensures within { IfOk result (λ r. r.1.end ≤ length text.now) }
{
    let (first, sign) = read_atom(alloc, text, 1, p)?;
    if has_form(Fixed::Closing, sign.terminal) {
        return read_outside(alloc, text, first, sign);
    }
    read_inside(alloc, text, first, sign)
}

// A literal begins so that is more than an atom.
fn is_mark(x: Terminal) -> bool
    ensures { result ≡ ((way.form (the_terminal x.entry) == 17) || (way.form (the_terminal x.entry) == 0)) }
{
    matches!(x, Terminal::Tilde | Terminal::OpenRound)
}

/// A clause, and the token behind it.
pub fn read_clause<'a>(
    alloc: Global,
    text: &'a [u8],
    p: Piece<'a>,
) -> Result<(Source, Piece<'a>), Stop>
    requires { p.end ≤ length text.now }
    ensures read { IfOk result (ClauseRead text.now p.entry) }
    ensures settles { (modal : Bool) → SettlesAt modal text.now (way.clause ∷ []) p.entry result }
    ensures onward { IfOk result (λ r. p.entry.end < r.1.end) }
    ensures within { IfOk result (λ r. r.1.end ≤ length text.now) }
{
    if !has_form(Fixed::Opening, p.terminal) {
        return read_literals(alloc, text, 0, p);
    }
    let start = next_token(text, p.end)?;
    if is_mark(start.terminal) {
        return read_bracketed(alloc, text, start);
    }
    read_opened(alloc, text, start)
}
