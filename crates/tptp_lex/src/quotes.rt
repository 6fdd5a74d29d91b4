//! Quoted names and distinct objects, behind their first quote.

ghost use Rattle.std.specs.Prelude.{◌≡◌, false};
ghost use Rattle.std.specs.Option.{option_copied};
ghost use Rattle.tptp_lex.specs.Scanning.{after_name, after_quoted};

use calculus::byte::is_name_byte;

/// Behind the closing quote.
pub fn after_quoted(bytes: &[u8], quote: u8) -> Option<&[u8]>
    ensures { option_copied result ≡ after_quoted quote false bytes.now }
{
    let mut rest = bytes;
    // whether the byte before begins a pair
    let mut escaped = false;
    while let Some((first, after)) = rest.split_first() {
        if escaped {
            if *first != quote && *first != b'\\' {
                return None;
            }
            escaped = false;
        } else if *first == quote {
            return Some(after);
        } else if *first == b'\\' {
            escaped = true;
        } else if !is_name_byte(*first) {
            return None;
        }
        rest = after;
    }
    None
}

/// Behind the closing quote of a name, which has one character at least.
pub fn after_name(bytes: &[u8]) -> Option<&[u8]>
    ensures { option_copied result ≡ after_name bytes.now }
{
    let (first, _) = bytes.split_first()?;
    if *first == b'\'' {
        None
    } else {
        after_quoted(bytes, b'\'')
    }
}
