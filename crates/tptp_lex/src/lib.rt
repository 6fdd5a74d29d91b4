//! The tokens of problems in the syntax of TPTP (Sutcliffe), with the `#` words of QMLTP (Raths and Otten). `next` gives
//! them one by one; what a token, white space and a fault are, stands in `specs/`.
#![tactic(auto)]

mod bytes;
mod lexer;
mod numbers;
mod quotes;
mod signs;
mod spacing;
mod tokens;

pub use lexer::next;
pub use tokens::{LexFault, Token, TokenKind};
