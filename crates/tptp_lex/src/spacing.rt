//! White space and comments.

ghost use Rattle.std.specs.Prelude.{◌≡◌, ◌≤◌, None, drop, false, length};
ghost use Rattle.std.specs.Option.{option_copied};
ghost use Rattle.tptp_lex.specs.Scanning.{after_block, after_slash, after_space};
ghost use Rattle.tptp_lex.specs.Spacing.{Skips, is_in_line};

use crate::bytes::after_run;
use calculus::byte::is_space;

fn is_in_line(byte: u8) -> bool
    ensures { result ≡ is_in_line byte }
{
    byte != b'\n'
}

// Behind the first `*/`.
fn after_block(bytes: &[u8]) -> Option<&[u8]>
    ensures { option_copied result ≡ after_block false bytes.now }
{
    let mut rest = bytes;
    let mut star = false;
    while let Some((first, after)) = rest.split_first() {
        if star && *first == b'/' {
            return Some(after);
        }
        star = *first == b'*';
        rest = after;
    }
    None
}

// Behind a comment that has begun with `/`.
fn after_slash(bytes: &[u8]) -> Option<&[u8]>
    ensures { option_copied result ≡ after_slash bytes.now }
{
    let (first, after) = bytes.split_first()?;
    if *first == b'*' {
        after_block(after)
    } else {
        None
    }
}

// Behind one byte of white space or one comment.
fn after_space(bytes: &[u8]) -> Option<&[u8]>
    ensures { option_copied result ≡ after_space bytes.now }
{
    let (first, after) = bytes.split_first()?;
    if is_space(*first) {
        Some(after)
    } else if *first == b'%' {
        Some(after_run(after, is_in_line))
    } else if *first == b'/' {
        after_slash(after)
    } else {
        None
    }
}

/// Behind all white space and comments at the place.
pub fn after_spacing(text: &[u8], from: usize) -> &[u8]
    requires { from ≤ length text.now }
    ensures skipped { Skips (drop from text.now) result.now }
    ensures all { after_space result.now ≡ None }
{
    let (_, remaining) = text.split_at(from);
    let mut rest = remaining;
    while let Some(after) = after_space(rest) {
        rest = after;
    }
    rest
}
