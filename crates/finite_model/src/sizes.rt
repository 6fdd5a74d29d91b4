//! The sizes that stand in lines.

ghost use Rattle.std.specs.Prelude.{◌≡◌, ◌<◌, ◌≤◌, ◌^◌, ℕ, IfSome, IsNone, decimal};

use text_lines::read_whole_number;

/// The number from 1 to `most` that is the whole text.
pub fn read_size(text: &[u8], most: u8) -> Option<u8>
    ensures some { IfSome result (λ n. text.now ≡ decimal n) }
    ensures least { IfSome result (λ n. 1 ≤ n) }
    ensures most { IfSome result (λ n. n ≤ most) }
    ensures none { IsNone result → (n : ℕ) → 1 ≤ n → n ≤ most → ¬ (text.now ≡ decimal n) }
{
    let n = read_whole_number(text)?;
    if n < 1 {
        return None;
    }
    let greatest = u32::from(most);
    if n > greatest {
        return None;
    }
    Some(n as u8)
}
