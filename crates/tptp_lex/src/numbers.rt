//! Numbers.

ghost use Rattle.std.specs.Prelude.{◌≡◌};
ghost use Rattle.std.specs.Option.{option_copied};
ghost use Rattle.tptp_lex.specs.Scanning.{after_exponent, after_number, after_number_end, after_number_sign, after_part, begins_with, is_number_sign};

use crate::bytes::after_digits;

pub fn is_number_sign(byte: u8) -> bool
    ensures { result ≡ is_number_sign byte }
{
    byte == b'+' || byte == b'-'
}

/// Behind the sign, if one stands at the front.
pub fn after_number_sign(bytes: &[u8]) -> &[u8]
    ensures { result.now ≡ after_number_sign bytes.now }
{
    match bytes.split_first() {
        Some((first, after)) if is_number_sign(*first) => after,
        _ => bytes,
    }
}

// Behind the byte and digits, if they stand at the front.
fn after_part(bytes: &[u8], mark: u8) -> &[u8]
    ensures { result.now ≡ after_part mark bytes.now }
{
    match bytes.split_first() {
        Some((first, after)) if *first == mark => after_digits(after).unwrap_or(bytes),
        _ => bytes,
    }
}

// Behind the exponent, if a whole one stands at the front.
fn after_exponent(bytes: &[u8]) -> &[u8]
    ensures { result.now ≡ after_exponent bytes.now }
{
    match bytes.split_first() {
        Some((first, after)) if *first == b'e' || *first == b'E' => {
            after_digits(after_number_sign(after)).unwrap_or(bytes)
        }
        _ => bytes,
    }
}

fn begins_with(bytes: &[u8], byte: u8) -> bool
    ensures { result ≡ begins_with byte bytes.now }
{
    match bytes.split_first() {
        Some((first, _)) => *first == byte,
        None => false,
    }
}

// Behind what follows the first digits: a rational has no exponent.
fn after_number_end(bytes: &[u8]) -> &[u8]
    ensures { result.now ≡ after_number_end bytes.now }
{
    if begins_with(bytes, b'/') {
        after_part(bytes, b'/')
    } else {
        after_exponent(after_part(bytes, b'.'))
    }
}

/// Behind the number, which has no sign.
pub fn after_number(bytes: &[u8]) -> Option<&[u8]>
    ensures { option_copied result ≡ after_number bytes.now }
{
    let after = after_digits(bytes)?;
    Some(after_number_end(after))
}
