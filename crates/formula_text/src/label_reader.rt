//! Reading labels.

ghost use Rattle.std.specs.Prelude.{◌≡◌, ◌+◌, ◌<◌, ◌≤◌, ◌∷◌, ◌++◌, ℕ, List, true, length, drop, Err, IsTrue, IsNone, IfSome, IfOk, ◌↔◌};
ghost use Rattle.calculus.specs.DerivationText.{IsLabelAt};
ghost use Rattle.calculus.specs.Derivations as derivation;
ghost use Rattle.calculus.specs.Text.{Ends};
ghost use Rattle.formula_text.specs.Marks.{AreMarksAt, IsInnerAt, IsMarkAt};
ghost use Rattle.formula_text.specs.Single.{AtMostOneLabel};
ghost use Rattle.logic_rules.specs.MarkView.{the_character};

use crate::dollar::read_numbered;
use crate::read::TextRead;
use crate::scan::{byte_at, has_byte};
use cop_base::NoMemory;
use logic_rules::{Label, Mark};
use std::alloc::Global;

/// Whether a term or a label may end at a place: before a space, a line feed, `,`, `)` or `]`, or at the end of the text.
pub fn ends_at(text: &[u8], place: usize) -> bool
    ensures { IsTrue result ↔ Ends (drop place text.now) }
{
    match byte_at(text, place) {
        Some(byte) => matches!(byte, b' ' | b'\n' | b',' | b')' | b']'),
        None => true,
    }
}

// A character and the place after it.
fn read_mark(text: &[u8], from: usize) -> Option<(Mark, usize)>
    requires { from ≤ length text.now }
    ensures some { IfSome result (λ r. IsMarkAt text.now from r.1 (the_character r.0)) }
    ensures within { IfSome result (λ r. r.1 ≤ length text.now) }
    ensures none { IsNone result → (to : ℕ) (m : derivation.Mark) → ¬ IsMarkAt text.now from to m }
{
    let found = read_numbered(text, from)?;
    match found.letter {
        b'c' => Some((Mark::New(found.number), found.end)),
        b'd' => Some((Mark::Spare(found.number), found.end)),
        _ => None,
    }
}

// One character or more with commas between them, and the place after the closing bracket.
fn read_marks(alloc: Global, text: &[u8], from: usize) -> Result<(Label, usize), TextRead>
    requires { from ≤ length text.now }
    ensures ok { IfOk result (λ r. AreMarksAt text.now from r.1 r.0) }
    ensures within { IfOk result (λ r. r.1 ≤ length text.now) }
    ensures none { result ≡ Err TextRead.None → (to : ℕ) (w : derivation.Label) → ¬ AreMarksAt text.now from to w }
{
    let mut label = Label::new(alloc);
    let mut place = from;
    loop {
        let Some((mark, end)) = read_mark(text, place) else {
            return Err(TextRead::None);
        };
        label.push(mark)?;
        if has_byte(text, end, b']') {
            return Ok((label, end + 1));
        }
        if !has_byte(text, end, b',') {
            return Err(TextRead::None);
        }
        place = end + 1;
    }
}

// What stands after the opening bracket of a label.
fn read_inner(alloc: Global, text: &[u8], from: usize) -> Result<(Label, usize), TextRead>
    requires { from ≤ length text.now }
    ensures ok { IfOk result (λ r. IsInnerAt text.now from r.1 r.0) }
    ensures within { IfOk result (λ r. r.1 ≤ length text.now) }
    ensures none { result ≡ Err TextRead.None → (to : ℕ) (w : derivation.Label) → ¬ IsInnerAt text.now from to w }
{
    if has_byte(text, from, b']') {
        return Ok((Label::new(alloc), from + 1));
    }
    read_marks(alloc, text, from)
}

/// The label whose canonical text stands at a place and is followed by an ending byte or by the end, and the place after it.
pub fn read_label(alloc: Global, text: &[u8], from: usize) -> Result<(Label, usize), TextRead>
    requires { from ≤ length text.now }
    ensures ok { IfOk result (λ r. IsLabelAt text.now from r.1 r.0) }
    ensures within { IfOk result (λ r. r.1 ≤ length text.now) }
    ensures none { result ≡ Err TextRead.None → (to : ℕ) (w : derivation.Label) → ¬ IsLabelAt text.now from to w }
    ensures one { AtMostOneLabel }
{
    if !has_byte(text, from, b'[') {
        return Err(TextRead::None);
    }
    let (label, to) = read_inner(alloc, text, from + 1)?;
    if ends_at(text, to) {
        Ok((label, to))
    } else {
        Err(TextRead::None)
    }
}
