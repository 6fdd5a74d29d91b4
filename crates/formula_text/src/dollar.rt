//! Names of the form `$$`, a letter and a number.

ghost use Rattle.std.specs.Prelude.{◌≡◌, ◌+◌, ◌≤◌, ◌∷◌, ℕ, List, length, drop, IsNone, IfSome};
ghost use Rattle.formula_text.specs.Runs.{IsNumberedAt};

use crate::scan::{byte_at, has_byte, read_number};

/// A letter with a number, and the place after them.
#[derive(Clone, Copy, Debug, PartialEq, Eq)]
pub struct Numbered {
    pub letter: u8,
    pub number: u32,
    pub end: usize,
}

// The letter after two dollar signs.
fn letter_at(text: &[u8], from: usize) -> Option<u8>
    requires { from ≤ length text.now }
    ensures some { IfSome result (λ l. drop from text.now ≡ 36 ∷ 36 ∷ l ∷ drop (from + 3) text.now) }
    ensures within { IfSome result (λ l. from + 3 ≤ length text.now) }
    ensures none { IsNone result → (l : ℕ) (rest : List ℕ) → ¬ (drop from text.now ≡ 36 ∷ 36 ∷ l ∷ rest) }
{
    if !has_byte(text, from, b'$') {
        return None;
    }
    if !has_byte(text, from + 1, b'$') {
        return None;
    }
    byte_at(text, from + 2)
}

/// What stands at a place as `$$`, a letter and a number from 1.
pub fn read_numbered(text: &[u8], from: usize) -> Option<Numbered>
    requires { from ≤ length text.now }
    ensures some { IfSome result (λ r. IsNumberedAt text.now from r.end r.letter r.number) }
    ensures within { IfSome result (λ r. r.end ≤ length text.now) }
    ensures none { IsNone result → (to letter n : ℕ) → ¬ IsNumberedAt text.now from to letter n }
{
    let letter = letter_at(text, from)?;
    let (number, end) = read_number(text, from + 3)?;
    if number == 0 {
        return None;
    }
    Some(Numbered {
        letter,
        number,
        end,
    })
}
