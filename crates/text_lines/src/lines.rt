//! The lines of a text.

ghost use Rattle.std.specs.Prelude.{◌≡◌, ◌+◌, ◌<◌, ◌≤◌, ◌∷◌, [], ℕ, List, length, take, drop, IsNone, IfSome};
ghost use Rattle.calculus.specs.FirstWrong.{whole_lines};
ghost use Rattle.text_lines.specs.Lines.{IsLineAt};

// The place of the first line feed.
fn line_feed(text: &[u8]) -> Option<usize>
    ensures some { IfSome result (λ i. whole_lines text.now ≡ take i text.now ∷ whole_lines (drop (i + 1) text.now)) }
    ensures there { IfSome result (λ i. drop i text.now ≡ 10 ∷ drop (i + 1) text.now) }
    ensures within { IfSome result (λ i. i < length text.now) }
    ensures none { IsNone result → whole_lines text.now ≡ [] }
{
    for (i, byte) in text.iter().enumerate() {
        if *byte == b'\n' {
            return Some(i);
        }
    }
    None
}

/// The line that begins at a place, and the place after its line feed.
pub fn line_at(text: &[u8], from: usize) -> Option<(&[u8], usize)>
    requires { from ≤ length text.now }
    ensures some { IfSome result (λ r. IsLineAt text.now from r.1 r.0.now) }
    ensures none { IsNone result → whole_lines (drop from text.now) ≡ [] }
{
    let rest = &text[from..];
    let i = line_feed(rest)?;
    Some((&rest[..i], from + i + 1))
}

/// The place after a line that begins at a place.
pub fn after_line(text: &[u8], from: usize, line: &[u8]) -> Option<usize>
    requires { from ≤ length text.now }
    ensures some { IfSome result (λ to. IsLineAt text.now from to line.now) }
    ensures none { IsNone result → (more : List (List ℕ)) → ¬ (whole_lines (drop from text.now) ≡ line.now ∷ more) }
{
    let (found, to) = line_at(text, from)?;
    if found == line { Some(to) } else { None }
}
