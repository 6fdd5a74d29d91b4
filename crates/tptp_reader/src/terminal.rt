//! Tokens as the grammar sees them.

ghost use Rattle.std.specs.Prelude.{◌≡◌, ◌<◌, ◌≤◌, IfOk, IfSome, length};
ghost use Rattle.tptp_reader.specs.Expecting as way;
ghost use Rattle.tptp_reader.specs.TerminalView.{the_terminal};
ghost use Rattle.tptp_reader.specs.Pieces.{IsNextPiece};

use tptp_lex::{LexFault, Token, TokenKind, next};

/// A token. Words, numbers and distinct objects have the bytes that they are written with, quotes included.
#[derive(Clone, Copy)]
pub enum Terminal<'a> {
    Lower(&'a [u8]),
    Upper(&'a [u8]),
    Quoted(&'a [u8]),
    Number(&'a [u8]),
    Distinct(&'a [u8]),
    Dollar(&'a [u8]),
    Hash(&'a [u8]),
    OpenRound,
    CloseRound,
    OpenSquare,
    CloseSquare,
    Comma,
    Dot,
    Colon,
    Tilde,
    Exclamation,
    Question,
    Ampersand,
    Bar,
    Implies,
    Implied,
    Equivalent,
    Inequivalent,
    Nor,
    Nand,
    Equal,
    Unequal,
}

/// A token with the offsets of its first byte and of the first byte after it.
#[derive(Clone, Copy)]
pub struct Piece<'a> {
    pub terminal: Terminal<'a>,
    pub start: usize,
    pub end: usize,
}

fn single_sign<'a>(first: u8) -> Terminal<'a>
    ensures { the_terminal result ≡ way.single_sign first }
{
    match first {
        b'(' => Terminal::OpenRound,
        b')' => Terminal::CloseRound,
        b'[' => Terminal::OpenSquare,
        b']' => Terminal::CloseSquare,
        b',' => Terminal::Comma,
        b'.' => Terminal::Dot,
        b':' => Terminal::Colon,
        b'~' => Terminal::Tilde,
        b'!' => Terminal::Exclamation,
        b'?' => Terminal::Question,
        b'&' => Terminal::Ampersand,
        b'|' => Terminal::Bar,
        _ => Terminal::Equal,
    }
}

fn double_sign<'a>(first: u8, second: u8) -> Terminal<'a>
    ensures { the_terminal result ≡ way.double_sign first second }
{
    match first {
        b'=' => Terminal::Implies,
        b'<' => Terminal::Implied,
        b'!' => Terminal::Unequal,
        _ if second == b'|' => Terminal::Nor,
        _ => Terminal::Nand,
    }
}

// The sign with these bytes.
fn sign_of<'a>(bytes: &[u8]) -> Terminal<'a>
    ensures { the_terminal result ≡ way.sign_of bytes.now }
{
    let Some((first, after)) = bytes.split_first() else {
        return Terminal::Unequal;
    };
    let Some((second, last)) = after.split_first() else {
        return single_sign(*first);
    };
    if last.is_empty() {
        double_sign(*first, *second)
    } else if *second == b'=' {
        Terminal::Equivalent
    } else {
        Terminal::Inequivalent
    }
}

fn terminal_of(kind: TokenKind, bytes: &[u8]) -> Terminal<'_>
    ensures { the_terminal result ≡ way.terminal_of kind bytes.now }
{
    match kind {
        TokenKind::Lower => Terminal::Lower(bytes),
        TokenKind::Upper => Terminal::Upper(bytes),
        TokenKind::Dollar => Terminal::Dollar(bytes),
        TokenKind::Hash => Terminal::Hash(bytes),
        TokenKind::Quoted => Terminal::Quoted(bytes),
        TokenKind::Distinct => Terminal::Distinct(bytes),
        TokenKind::Number => Terminal::Number(bytes),
        TokenKind::Sign => sign_of(bytes),
    }
}

/// The first token at or after the place.
pub fn next_piece(text: &[u8], from: usize) -> Result<Option<Piece<'_>>, LexFault>
    requires { from ≤ length text.now }
    ensures next { IsNextPiece text.now from result }
    ensures onward { IfOk result (λ o. IfSome o (λ p. from < p.end)) }
    ensures within { IfOk result (λ o. IfSome o (λ p. p.end ≤ length text.now)) }
{
    match next(text, from) {
        Ok(Some(token)) => {
            let terminal = terminal_of(token.kind, &text[token.start..token.end]);
            Ok(Some(Piece {
                terminal,
                start: token.start,
                end: token.end,
            }))
        }
        Ok(None) => Ok(None),
        Err(fault) => Err(fault),
    }
}
