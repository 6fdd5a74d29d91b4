//! The types of tokens and lexical faults.

/// The kind of a token.
#[derive(Clone, Copy, Debug, PartialEq, Eq)]
pub enum TokenKind {
    /// A lower-case letter, then letters, digits and `_`.
    Lower,
    /// An upper-case letter, then letters, digits and `_`.
    Upper,
    /// `$` or `$$`, and a Lower word.
    Dollar,
    /// `#` and a Lower word, as QMLTP writes `#box`.
    Hash,
    /// A name in `'`, its quotes and `\` included.
    Quoted,
    /// A distinct object in `"`, its quotes and `\` included.
    Distinct,
    /// An integer, rational or real number.
    Number,
    /// One of `( ) [ ] , . : ~ ! ? & | => <= <=> <~> ~| ~& = !=`.
    Sign,
}

/// A token, with the offsets of its first byte and of the first byte after it.
#[derive(Clone, Copy, Debug, PartialEq, Eq)]
pub struct Token {
    pub kind: TokenKind,
    pub start: usize,
    pub end: usize,
}

/// The offset of a byte at which no token begins.
#[derive(Clone, Copy, Debug, PartialEq, Eq)]
pub struct LexFault {
    pub offset: usize,
}
