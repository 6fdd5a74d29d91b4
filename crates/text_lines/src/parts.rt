//! The parts of a line.

ghost use Rattle.std.specs.Prelude.{◌≡◌, ◌++◌, ◌∷◌, [], ℕ, List, Err, IsTrue, IsNone, IfSome, IfOk};
ghost use Rattle.calculus.specs.Derivations as derivation;
ghost use Rattle.text_lines.specs.Spelling.{IsLabel, IsLabelBefore, IsLimit, IsNameNumber, IsNumber, IsNumberBefore};

use calculus::limits::MAX_PATH_LIMIT;
use formula_text::{TextRead, read_label, read_number};
use logic_rules::Label;
use std::alloc::Global;

/// What follows these bytes at the beginning of a text.
pub fn rest_after<'a>(text: &'a [u8], front: &[u8]) -> Option<&'a [u8]>
    ensures some { IfSome result (λ r. text.now ≡ front.now ++ r.now) }
    ensures none { IsNone result → (rest : List ℕ) → ¬ (text.now ≡ front.now ++ rest) }
{
    text.strip_prefix(front)
}

/// The number that a text begins with, and what follows it.
pub fn read_front_number(text: &[u8]) -> Option<(u32, &[u8])>
    ensures some { IfSome result (λ r. IsNumberBefore text.now r.0 r.1.now) }
    ensures none { IsNone result → (n : ℕ) (rest : List ℕ) → ¬ IsNumberBefore text.now n rest }
{
    let (n, to) = read_number(text, 0)?;
    Some((n, &text[to..]))
}

/// A number that is the whole text.
pub fn read_whole_number(text: &[u8]) -> Option<u32>
    ensures some { IfSome result (λ n. IsNumber text.now n) }
    ensures none { IsNone result → (n : ℕ) → ¬ IsNumber text.now n }
{
    let (n, rest) = read_front_number(text)?;
    if rest.is_empty() { Some(n) } else { None }
}

/// A number from 1 that is the whole text.
pub fn read_name_number(text: &[u8]) -> Option<u32>
    ensures some { IfSome result (λ n. IsNameNumber text.now n) }
    ensures none { IsNone result → (n : ℕ) → ¬ IsNameNumber text.now n }
{
    let n = read_whole_number(text)?;
    if n >= 1 { Some(n) } else { None }
}

/// A limit that is the whole text.
pub fn read_limit(text: &[u8]) -> Option<u8>
    ensures some { IfSome result (λ n. IsLimit text.now n) }
    ensures none { IsNone result → (n : ℕ) → ¬ IsLimit text.now n }
{
    let n = read_whole_number(text)?;
    if n >= 1 && n <= u32::from(MAX_PATH_LIMIT) {
        Some(n as u8)
    } else {
        None
    }
}

/// The label that a text begins with, and what follows it.
pub fn read_front_label(alloc: Global, text: &[u8]) -> Result<(Label, &[u8]), TextRead>
    ensures ok { IfOk result (λ r. IsLabelBefore text.now r.0 r.1.now) }
    ensures none { result ≡ Err TextRead.None → (w : derivation.Label) (rest : List ℕ) → ¬ IsLabelBefore text.now w rest }
{
    let (label, to) = read_label(alloc, text, 0)?;
    Ok((label, &text[to..]))
}

/// A label that is the whole text.
pub fn read_whole_label(alloc: Global, text: &[u8]) -> Result<Label, TextRead>
    ensures ok { IfOk result (λ w. IsLabel text.now w) }
    ensures none { result ≡ Err TextRead.None → (w : derivation.Label) → ¬ IsLabel text.now w }
{
    let (label, rest) = read_front_label(alloc, text)?;
    if rest.is_empty() {
        Ok(label)
    } else {
        Err(TextRead::None)
    }
}
