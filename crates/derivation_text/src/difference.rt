//! Where two texts differ first.

ghost use Rattle.std.specs.Prelude.{◌≡◌, ◌≢◌, IfSome, IsNone};
ghost use Rattle.derivation_text.specs.Difference.{line_of_difference};

/// The number of the first line, from 1, at which two texts differ.
pub fn first_difference(first: &[u8], second: &[u8]) -> Option<u64>
    ensures none { IsNone result → first.now ≡ second.now }
    ensures some { IfSome result (λ n. n ≡ line_of_difference 1 first.now second.now) }
    ensures other { IfSome result (λ n. first.now ≢ second.now) }
{
    let mut line = 1;
    for (i, byte) in first.iter().enumerate() {
        if i >= second.len() || second[i] != *byte {
            return Some(line);
        }
        if *byte == b'\n' {
            line += 1;
        }
    }
    if first.len() < second.len() {
        Some(line)
    } else {
        None
    }
}
