//! What is left behind a byte, or behind a run of bytes of one kind.

ghost use Rattle.std.specs.Prelude.{◌≡◌, Bool, ℕ};
ghost use Rattle.std.specs.Option.{option_copied};
ghost use Rattle.tptp_lex.specs.Scanning.{after_byte, after_digits, after_lower, after_run};

use calculus::byte::{is_digit, is_lower, is_word_byte};

// Behind the bytes at the front that pass the test.
pub fn after_run(bytes: &[u8], test: fn(u8) -> bool) -> &[u8]
    requires { IsAlwaysCallable test }
    ensures { (p : ℕ → Bool) → ((b : ℕ) (r : Bool) → post test b r → r ≡ p b) → result.now ≡ after_run p bytes.now }
{
    let mut rest = bytes;
    while let Some((first, after)) = rest.split_first() {
        if !test(*first) {
            return rest;
        }
        rest = after;
    }
    rest
}

// Behind the Lower word at the front.
pub fn after_lower(bytes: &[u8]) -> Option<&[u8]>
    ensures { option_copied result ≡ after_lower bytes.now }
{
    let (first, after) = bytes.split_first()?;
    if is_lower(*first) {
        Some(after_run(after, is_word_byte))
    } else {
        None
    }
}

// Behind the digits at the front, of which there is one at least.
pub fn after_digits(bytes: &[u8]) -> Option<&[u8]>
    ensures { option_copied result ≡ after_digits bytes.now }
{
    let (first, after) = bytes.split_first()?;
    if is_digit(*first) {
        Some(after_run(after, is_digit))
    } else {
        None
    }
}

// Behind the byte, if it stands at the front.
pub fn after_byte(bytes: &[u8], byte: u8) -> &[u8]
    ensures { result.now ≡ after_byte byte bytes.now }
{
    match bytes.split_first() {
        Some((first, after)) if *first == byte => after,
        _ => bytes,
    }
}
