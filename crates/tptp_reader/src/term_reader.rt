//! Terms from tokens. Each reader tests the nesting of the place where its part begins, so the recursion ends within 500
//! calls.

ghost use Rattle.std.specs.Prelude.{◌≡◌, ◌<◌, ◌≤◌, ◌==◌, ◌∷◌, [], Bool, IfErr, IfOk, None, Some, true, false, length, suc};
ghost use Rattle.tptp_reader.specs.Expecting as way;
ghost use Rattle.tptp_reader.specs.Failing.{Missing, SettlesAt, SettlesNext};
ghost use Rattle.tptp_reader.specs.Following.{is_shallow};
ghost use Rattle.tptp_reader.specs.Pieces.{placed};
ghost use Rattle.tptp_reader.specs.Standing.{ArgumentsRead, TermRead, word_in};
ghost use Rattle.tptp_reader.specs.Terminals.{Follow};
ghost use Rattle.tptp_reader.specs.TerminalView.{the_terminal};

use crate::expected::Fixed;
use crate::moves::has_form;
use crate::source::{SourceTerm, SourceTerms};
use crate::stop::Stop;
use crate::terminal::{Piece, Terminal, next_piece};
use cop_base::{NoMemory, Text};
use std::alloc::{AllocFailed, Global};

/// The token at or after the place.
pub fn next_token(text: &[u8], from: usize) -> Result<Piece<'_>, Stop>
    requires { from ≤ length text.now }
    ensures next { IfOk result (λ q. Follow text.now from (placed q ∷ []) q.end) }
    ensures settles { (modal : Bool) → SettlesNext modal text.now [] from result }
    ensures onward { IfOk result (λ q. from < q.end) }
    ensures within { IfOk result (λ q. q.end ≤ length text.now) }
{
    match next_piece(text, from) {
        Ok(Some(piece)) => Ok(piece),
        Ok(None) => Err(Stop::NotThere),
        Err(_) => Err(Stop::NotThere),
    }
}

/// The nesting inside of a place with this nesting, which must not be too great.
pub fn inside(depth: u32) -> Result<u32, Stop>
    ensures inner { IfOk result (λ n. n ≡ suc depth) }
    ensures shallow { IfOk result (λ _. is_shallow depth ≡ true) }
    ensures deep { IfErr result (Missing (is_shallow depth ≡ false)) }
{
    if depth > 500 {
        return Err(Stop::NotThere);
    }
    Ok(depth + 1)
}

// The characters between the quotes, without the `\` of pairs.
fn unquoted(alloc: Global, quoted: &[u8]) -> Result<Text, NoMemory>
    ensures { IfOk result (λ t. t ≡ way.name_in false (way.without_quote quoted.now)) }
{
    let mut bytes = Vec::new(alloc);
    let Some((_, after)) = quoted.split_first() else {
        return Text::new(alloc, b"");
    };
    let mut paired = false;
    for byte in after {
        if paired {
            bytes.push(*byte)?;
            paired = false;
        } else if *byte == b'\\' {
            paired = true;
        } else if *byte == b'\'' {
            return Text::new(alloc, bytes.as_slice());
        } else {
            bytes.push(*byte)?;
        }
    }
    Text::new(alloc, bytes.as_slice())
}

/// The name that a word stands for.
pub fn read_word(alloc: Global, x: Terminal) -> Result<Text, Stop>
    ensures word { IfOk result (λ t. word_in (the_terminal x.entry) ≡ Some t) }
    ensures none { IfErr result (Missing (word_in (the_terminal x.entry) ≡ None)) }
{
    match x {
        Terminal::Lower(word) => Ok(Text::new(alloc, word)?),
        Terminal::Quoted(quoted) => Ok(unquoted(alloc, quoted)?),
        _ => Err(Stop::NotThere),
    }
}

#[cycle(read_term)]
pub fn read_term<'a>(
    alloc: Global,
    text: &'a [u8],
    depth: u32,
    p: Piece<'a>,
) -> Result<(SourceTerm, Piece<'a>), Stop>
    requires { p.end ≤ length text.now }
    ensures read { IfOk result (TermRead text.now depth p.entry) }
    ensures settles { (modal : Bool) → SettlesAt modal text.now (way.term depth ∷ []) p.entry result }
    ensures onward { IfOk result (λ r. p.entry.end < r.1.end) }
    ensures within { IfOk result (λ r. r.1.end ≤ length text.now) }
{
    inside(depth)?;
    let next = next_token(text, p.end)?;
    if let Terminal::Upper(name) = p.terminal {
        let name = Text::new(alloc, name)?;
        return Ok((SourceTerm::Var(name), next));
    }
    let (args, after) = read_arguments(alloc, text, depth, next)?;
    let name = read_word(alloc, p.terminal)?;
    Ok((SourceTerm::Fun(name, args), after))
}

// The arguments behind a word, or none.
#[cycle(read_term)]
pub fn read_arguments<'a>(
    alloc: Global,
    text: &'a [u8],
    depth: u32,
    p: Piece<'a>,
) -> Result<(SourceTerms, Piece<'a>), Stop>
    requires { p.end ≤ length text.now }
    ensures read { IfOk result (ArgumentsRead text.now depth p.entry) }
    ensures settles { (modal : Bool) → SettlesAt modal text.now (way.some_arguments depth ∷ []) p.entry result }
    ensures onward { IfOk result (λ r. p.entry.end ≤ r.1.end) }
    ensures within { IfOk result (λ r. r.1.end ≤ length text.now) }
{
    if !has_form(Fixed::Opening, p.terminal) {
        return Ok((SourceTerms::new(alloc), p));
    }
    let inner = inside(depth)?;
    let mut here = next_token(text, p.end)?;
    let mut terms = SourceTerms::new(alloc);
    loop {
        let (term, next) = read_term(alloc, text, inner, here)?;
        terms.push(term)?;
        here = next_token(text, next.end)?;
        if has_form(Fixed::Closing, next.terminal) {
            return Ok((terms, here));
        }
        if !has_form(Fixed::Comma, next.terminal) {
            return Err(Stop::NotThere);
        }
    }
}
