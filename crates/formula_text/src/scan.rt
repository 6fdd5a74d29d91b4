//! What stands at a place of a text.

ghost use Rattle.std.specs.Prelude.{◌≡◌, ◌+◌, ◌^◌, ◌<◌, ◌≤◌, ◌∷◌, [], List, false, decimal, length, drop, take, IsTrue, IsSome, IsNone, IfSome, ℕ};
ghost use Rattle.calculus.specs.Text.{is_digit, is_word_byte};
ghost use Rattle.formula_text.specs.Runs.{IsRun, IsNumberAt};

use calculus::byte::{is_digit, is_word_byte};
use itoa::Buffer;
use std::str;

/// The byte at a place.
pub fn byte_at(text: &[u8], place: usize) -> Option<u8>
    ensures some { IfSome result (λ b. drop place text.now ≡ b ∷ drop (place + 1) text.now) }
    ensures within { IfSome result (λ b. place < length text.now) }
    ensures none { IsNone result → drop place text.now ≡ [] }
{
    if place < text.len() {
        Some(text[place])
    } else {
        None
    }
}

/// Whether this byte stands at a place.
pub fn has_byte(text: &[u8], place: usize, byte: u8) -> bool
    ensures yes { IsTrue result → drop place text.now ≡ byte ∷ drop (place + 1) text.now }
    ensures within { IsTrue result → place < length text.now }
    ensures no { result ≡ false → (rest : List ℕ) → ¬ (drop place text.now ≡ byte ∷ rest) }
{
    match byte_at(text, place) {
        Some(found) => found == byte,
        None => false,
    }
}

/// What stands from a place on.
pub fn rest_of(text: &[u8], from: usize) -> &[u8]
    requires { from ≤ length text.now }
    ensures { result.now ≡ drop from text.now }
{
    &text[from..]
}

// How many digits a text begins with.
fn count_digits(text: &[u8]) -> usize
    ensures { IsRun is_digit text.now result }
{
    for (i, byte) in text.iter().enumerate() {
        if !is_digit(*byte) {
            return i;
        }
    }
    text.len()
}

/// How many letters, digits and `_` a text begins with.
pub fn count_word_bytes(text: &[u8]) -> usize
    ensures { IsRun is_word_byte text.now result }
{
    for (i, byte) in text.iter().enumerate() {
        if !is_word_byte(*byte) {
            return i;
        }
    }
    text.len()
}

// The number of these digits, where they are the number's decimal form.
fn parse_number(digits: &[u8]) -> Option<u32>
    ensures some { IfSome result (λ n. digits.now ≡ decimal n) }
    ensures none { IsNone result → (n : ℕ) → n < 2 ^ 32 → ¬ (digits.now ≡ decimal n) }
{
    let Ok(text) = str::from_utf8(digits) else {
        return None;
    };
    let Ok(n) = text.parse::<u32>() else {
        return None;
    };
    let mut buffer = Buffer::new();
    if buffer.format(n).as_bytes() == digits {
        Some(n)
    } else {
        None
    }
}

/// The number in decimal, without leading zeros, that stands at a place, and the place after it.
pub fn read_number(text: &[u8], from: usize) -> Option<(u32, usize)>
    requires { from ≤ length text.now }
    ensures some { IfSome result (λ r. IsNumberAt text.now from r.1 r.0) }
    ensures within { IfSome result (λ r. r.1 ≤ length text.now) }
    ensures none { IsNone result → (n to : ℕ) → ¬ IsNumberAt text.now from to n }
{
    let rest = rest_of(text, from);
    let count = count_digits(rest);
    match parse_number(&rest[..count]) {
        Some(n) => Some((n, from + count)),
        None => None,
    }
}
