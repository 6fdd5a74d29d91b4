//! The first byte of a text.

ghost use Rattle.std.specs.Prelude.{◌≡◌, ◌<◌, ◌∷◌, ℕ, List, length, IsNone, IfSome};

/// What follows this byte at the beginning of a text.
pub fn after_byte(text: &[u8], byte: u8) -> Option<&[u8]>
    ensures some { IfSome result (λ r. text.now ≡ byte ∷ r.now) }
    ensures none { IsNone result → (rest : List ℕ) → ¬ (text.now ≡ byte ∷ rest) }
{
    match text.split_first() {
        Some((first, rest)) => if *first == byte { Some(rest) } else { None },
        None => None,
    }
}
