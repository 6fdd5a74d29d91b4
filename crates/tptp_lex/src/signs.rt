//! Signs, behind their first byte. Where one begins another, the longer is taken.

ghost use Rattle.std.specs.Prelude.{◌≡◌};
ghost use Rattle.std.specs.Option.{option_copied};
ghost use Rattle.tptp_lex.specs.Scanning.{after_close, after_less, after_sign, after_tilde, is_single};

use crate::bytes::after_byte;

// A byte that is a sign, and begins no other.
fn is_single(byte: u8) -> bool
    ensures { result ≡ is_single byte }
{
    byte == b'('
        || byte == b')'
        || byte == b'['
        || byte == b']'
        || byte == b','
        || byte == b'.'
        || byte == b':'
        || byte == b'?'
        || byte == b'&'
        || byte == b'|'
}

// Behind the rest of `~`, `~|` or `~&`.
fn after_tilde(bytes: &[u8]) -> &[u8]
    ensures { result.now ≡ after_tilde bytes.now }
{
    match bytes.split_first() {
        Some((first, after)) if *first == b'|' || *first == b'&' => after,
        _ => bytes,
    }
}

fn after_close(bytes: &[u8]) -> Option<&[u8]>
    ensures { option_copied result ≡ after_close bytes.now }
{
    let (first, after) = bytes.split_first()?;
    if *first == b'>' { Some(after) } else { None }
}

// Behind the rest of `<=`, `<=>` or `<~>`.
fn after_less(bytes: &[u8]) -> Option<&[u8]>
    ensures { option_copied result ≡ after_less bytes.now }
{
    let (first, after) = bytes.split_first()?;
    if *first == b'=' {
        Some(after_byte(after, b'>'))
    } else if *first == b'~' {
        after_close(after)
    } else {
        None
    }
}

/// Behind the rest of the sign that begins with the byte.
pub fn after_sign(first: u8, bytes: &[u8]) -> Option<&[u8]>
    ensures { option_copied result ≡ after_sign first bytes.now }
{
    if is_single(first) {
        Some(bytes)
    } else if first == b'=' {
        Some(after_byte(bytes, b'>'))
    } else if first == b'!' {
        Some(after_byte(bytes, b'='))
    } else if first == b'~' {
        Some(after_tilde(bytes))
    } else if first == b'<' {
        after_less(bytes)
    } else {
        None
    }
}
