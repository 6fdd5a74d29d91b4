//! The first token at or after a place of a text.

ghost use Rattle.std.specs.Prelude.{◌≡◌, ◌≤◌, ◌∷◌, IsNone, IfSome, None, Option, Result, Some, length};
ghost use Rattle.std.specs.Option.{option_copied};
ghost use Rattle.tptp_lex.specs.Answers.{IsAnswer};
ghost use Rattle.tptp_lex.specs.Scanning.{after_kind, after_token, kind_at};

use crate::bytes::{after_byte, after_lower, after_run};
use crate::numbers::{after_number, after_number_sign, is_number_sign};
use crate::quotes::{after_name, after_quoted};
use crate::signs::after_sign;
use crate::spacing::after_spacing;
use crate::tokens::{LexFault, Token, TokenKind};
use calculus::byte::{is_digit, is_lower, is_upper, is_word_byte};

// The kind of a token by its first byte.
fn kind_at(first: u8) -> TokenKind
    ensures { result ≡ kind_at first }
{
    if is_lower(first) {
        TokenKind::Lower
    } else if is_upper(first) {
        TokenKind::Upper
    } else if is_digit(first) || is_number_sign(first) {
        TokenKind::Number
    } else if first == b'$' {
        TokenKind::Dollar
    } else if first == b'#' {
        TokenKind::Hash
    } else if first == b'\'' {
        TokenKind::Quoted
    } else if first == b'"' {
        TokenKind::Distinct
    } else {
        TokenKind::Sign
    }
}

// Behind the token of this kind that begins with the first byte.
fn after_kind<'a>(kind: TokenKind, first: u8, after: &'a [u8], bytes: &'a [u8]) -> Option<&'a [u8]>
    requires { bytes.now ≡ first ∷ after.now }
    ensures { option_copied result ≡ after_kind kind first after.now }
{
    match kind {
        TokenKind::Lower | TokenKind::Upper => Some(after_run(after, is_word_byte)),
        TokenKind::Dollar => after_lower(after_byte(after, b'$')),
        TokenKind::Hash => after_lower(after),
        TokenKind::Quoted => after_name(after),
        TokenKind::Distinct => after_quoted(after, b'"'),
        TokenKind::Number => after_number(after_number_sign(bytes)),
        TokenKind::Sign => after_sign(first, after),
    }
}

// The kind of the longest token at the front, and what is behind it.
fn first_token(bytes: &[u8]) -> Option<(TokenKind, &[u8])>
    ensures found { IfSome result (λ r. after_token bytes.now ≡ Some (r.0, r.1.now)) }
    ensures none { IsNone result → after_token bytes.now ≡ None }
{
    let (first, after) = bytes.split_first()?;
    let kind = kind_at(*first);
    let rest = after_kind(kind, *first, after, bytes)?;
    Some((kind, rest))
}

/// The first token at or after `from`, the longest that stands there. `None` says that only white space and comments
/// remain. A fault says that no whole token begins at the next byte that counts; so it is told where a comment, a quoted
/// name or a distinct object is not closed or holds what it may not, and where a quoted name is empty.
///
/// The time is linear in the bytes between `from` and the end of the answer; where something is not closed, in all bytes
/// after `from`.
pub fn next(text: &[u8], from: usize) -> Result<Option<Token>, LexFault>
    requires { from ≤ length text.now }
    ensures answer { IsAnswer text.now from result }
    ensures alone { (other : Result (Option Token) LexFault) → IsAnswer text.now from other → other ≡ result }
{
    let rest = after_spacing(text, from);
    if rest.is_empty() {
        return Ok(None);
    }
    let start = text.len() - rest.len();
    match first_token(rest) {
        Some((kind, after)) => {
            let end = text.len() - after.len();
            Ok(Some(Token { kind, start, end }))
        }
        None => Err(LexFault { offset: start }),
    }
}
