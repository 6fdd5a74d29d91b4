//! Reading names.

ghost use Rattle.std.specs.Prelude.{◌≡◌, ◌≢◌, ◌+◌, ◌≤◌, ◌<◌, ◌∷◌, ◌++◌, [], ℕ, List, length, drop, false, Some, None, Err, IsTrue, IfOk, OnOk, ◌↔◌};
ghost use Rattle.calculus.specs.DerivationText.{IsNameAt};
ghost use Rattle.calculus.specs.Text.{StopsAt, is_word_byte};
ghost use Rattle.formula_text.specs.Quoted.{IsWhole, begins_lower, byte_kind, is_special, quoted_at};
ghost use Rattle.formula_text.specs.Single.{AtMostOneName};

use crate::name::is_lower_word;
use crate::read::TextRead;
use crate::scan::{byte_at, count_word_bytes, rest_of};
use calculus::byte::{is_lower, is_name_byte, is_word_byte};
use cop_base::{NoMemory, Text};
use std::alloc::{AllocFailed, Global};

// What a byte of a quoted name is.
#[derive(Clone, Copy, Debug, PartialEq, Eq)]
enum ByteKind {
    // a character of the name
    Character,
    // the `\` of a pair
    Escape,
    // the quote that ends the name
    Close,
    Wrong,
}

fn is_special(byte: u8) -> bool
    ensures { result ≡ is_special byte }
{
    byte == b'\'' || byte == b'\\'
}

// `pending` tells whether a `\` stands before the byte.
fn byte_kind(pending: bool, byte: u8) -> ByteKind
    ensures { result ≡ byte_kind pending byte }
{
    if pending {
        return if is_special(byte) {
            ByteKind::Character
        } else {
            ByteKind::Wrong
        };
    }
    match byte {
        b'\'' => ByteKind::Close,
        b'\\' => ByteKind::Escape,
        _ => if is_name_byte(byte) {
            ByteKind::Character
        } else {
            ByteKind::Wrong
        },
    }
}

fn push_byte(name: &mut Vec<u8>, byte: u8) -> Result<(), TextRead>
    ensures ok { OnOk result (name.new.items ≡ name.old.items ++ byte ∷ []) }
    ensures err { result ≢ Err TextRead.None }
{
    match name.push(byte) {
        Ok(()) => Ok(()),
        Err(_) => Err(TextRead::NoMemory),
    }
}

fn new_text(alloc: Global, bytes: &[u8]) -> Result<Text, TextRead>
    ensures ok { IfOk result (λ t. t ≡ bytes.now) }
    ensures err { result ≢ Err TextRead.None }
{
    match Text::new(alloc, bytes) {
        Ok(text) => Ok(text),
        Err(_) => Err(TextRead::NoMemory),
    }
}

// The characters up to the closing quote, with the pairs replaced, and the place after it.
#[tactic(auto, using(crate::proofs::Quoted::quoting))]
fn read_characters(alloc: Global, text: &[u8], from: usize) -> Result<(Vec<u8>, usize), TextRead>
    ensures ok { IfOk result (λ r. quoted_at false (drop from text.now) ≡ Some (r.0.items, drop r.1 text.now)) }
    ensures within { IfOk result (λ r. r.1 ≤ length text.now) }
    ensures none { result ≡ Err TextRead.None → quoted_at false (drop from text.now) ≡ None }
{
    let mut name = Vec::new(alloc);
    let mut pending = false;
    for i in from..text.len() {
        let byte = text[i];
        match byte_kind(pending, byte) {
            ByteKind::Character => {
                push_byte(&mut name, byte)?;
                pending = false;
            }
            ByteKind::Escape => pending = true,
            ByteKind::Close => return Ok((name, i + 1)),
            ByteKind::Wrong => return Err(TextRead::None),
        }
    }
    Err(TextRead::None)
}

// Whether no letter, digit or `_` stands at a place.
fn word_stops(text: &[u8], place: usize) -> bool
    ensures { IsTrue result ↔ StopsAt is_word_byte (drop place text.now) }
{
    match byte_at(text, place) {
        Some(byte) => !is_word_byte(byte),
        None => true,
    }
}

// Whether characters in quotes are a name that needs the quotes and ends at the place.
fn is_whole(name: &[u8], text: &[u8], place: usize) -> bool
    ensures { IsTrue result ↔ IsWhole name.now (drop place text.now) }
{
    !name.is_empty() && !is_lower_word(name) && word_stops(text, place)
}

// A name whose quote stands before the place.
fn read_quoted(alloc: Global, text: &[u8], from: usize) -> Result<(Text, usize), TextRead>
    requires within { from < length text.now }
    requires begins { drop from text.now ≡ 39 ∷ drop (from + 1) text.now }
    ensures ok { IfOk result (λ r. IsNameAt text.now from r.1 r.0) }
    ensures within { IfOk result (λ r. r.1 ≤ length text.now) }
    ensures none { result ≡ Err TextRead.None → (to : ℕ) (name : List ℕ) → ¬ IsNameAt text.now from to name }
{
    let (name, to) = read_characters(alloc, text, from + 1)?;
    if !is_whole(name.as_slice(), text, to) {
        return Err(TextRead::None);
    }
    let name = new_text(alloc, name.as_slice())?;
    Ok((name, to))
}

// A name that begins with a lower-case letter.
fn read_bare(alloc: Global, text: &[u8], from: usize) -> Result<(Text, usize), TextRead>
    requires within { from < length text.now }
    requires begins { IsTrue (begins_lower (drop from text.now)) }
    ensures ok { IfOk result (λ r. IsNameAt text.now from r.1 r.0) }
    ensures within { IfOk result (λ r. r.1 ≤ length text.now) }
    ensures err { result ≢ Err TextRead.None }
{
    let rest = rest_of(text, from);
    let count = count_word_bytes(rest);
    let name = new_text(alloc, &rest[..count])?;
    Ok((name, from + count))
}

/// The name of a function or predicate symbol whose canonical text stands at a place and is followed by no letter, digit or `_`, and
/// the place after it.
pub fn read_name(alloc: Global, text: &[u8], from: usize) -> Result<(Text, usize), TextRead>
    requires { from ≤ length text.now }
    ensures ok { IfOk result (λ r. IsNameAt text.now from r.1 r.0) }
    ensures within { IfOk result (λ r. r.1 ≤ length text.now) }
    ensures none { result ≡ Err TextRead.None → (to : ℕ) (name : List ℕ) → ¬ IsNameAt text.now from to name }
    ensures one { AtMostOneName }
{
    match byte_at(text, from) {
        Some(b'\'') => read_quoted(alloc, text, from),
        Some(byte) => if is_lower(byte) {
            read_bare(alloc, text, from)
        } else {
            Err(TextRead::None)
        },
        None => Err(TextRead::None),
    }
}
