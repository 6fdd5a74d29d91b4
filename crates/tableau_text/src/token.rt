//! How items begin.

ghost use Rattle.std.specs.Prelude.{◌≡◌, ◌++◌, ℕ, List, Err, IsNone, IfSome, IfOk};
ghost use Rattle.tableau_text.specs.Tokens as tokens;
ghost use Rattle.tableau_text.specs.Tokens.{IsToken, kind_text};
ghost use Rattle.tableau_text.specs.OpenView.{the_token};

use crate::bytes::after_byte;
use cop_base::Text;
use formula_text::{TextRead, read_name};
use std::alloc::Global;
use text_lines::{read_front_number, rest_after};

/// What a name of the form `$$`, a letter and a number stands for: an eigenvariable, the character of a pi position, a spare constant
/// or a spare character.
#[derive(Clone, Copy, Debug, PartialEq, Eq)]
pub enum NameKind {
    Eigen,
    New,
    Constant,
    Spare,
}

/// The beginning of an item: the name of a function symbol, a name with a number, or an opening square bracket.
#[derive(Drop)]
pub enum Token {
    Name(Text),
    Numbered(NameKind, u32),
    Bracket,
}

// The kind of a name that the text begins with, and what follows its letter.
#[tactic(auto, using(crate::proofs::TokenSteps::reading))]
fn kind_of(text: &[u8]) -> Option<(NameKind, &[u8])>
    ensures some { IfSome result (λ r. text.now ≡ kind_text r.0 ++ r.1.now) }
    ensures none { IsNone result → (k : NameKind) (rest : List ℕ) → ¬ (text.now ≡ kind_text k ++ rest) }
{
    if let Some(rest) = rest_after(text, b"$$e") {
        return Some((NameKind::Eigen, rest));
    }
    if let Some(rest) = rest_after(text, b"$$c") {
        return Some((NameKind::New, rest));
    }
    if let Some(rest) = rest_after(text, b"$$s") {
        return Some((NameKind::Constant, rest));
    }
    match rest_after(text, b"$$d") {
        Some(rest) => Some((NameKind::Spare, rest)),
        None => None,
    }
}

// A name of a function symbol, and what follows it.
#[tactic(auto, using(crate::proofs::TokenSteps::reading))]
fn read_function(alloc: Global, text: &[u8]) -> Result<(Token, &[u8]), TextRead>
    ensures ok { IfOk result (λ r. IsToken text.now (the_token r.0) r.1.now) }
    ensures none { result ≡ Err TextRead.None → (name rest : List ℕ) → ¬ IsToken text.now (tokens.by_name name) rest }
{
    let (name, to) = read_name(alloc, text, 0)?;
    Ok((Token::Name(name), &text[to..]))
}

/// The token that a text begins with, and what follows it.
#[tactic(auto, using(crate::proofs::TokenSteps::reading))]
pub fn read_token(alloc: Global, text: &[u8]) -> Result<(Token, &[u8]), TextRead>
    ensures ok { IfOk result (λ r. IsToken text.now (the_token r.0) r.1.now) }
    ensures none { result ≡ Err TextRead.None → (t : tokens.Token) (rest : List ℕ) → ¬ IsToken text.now t rest }
{
    if let Some(rest) = after_byte(text, b'[') {
        return Ok((Token::Bracket, rest));
    }
    let Some((kind, rest)) = kind_of(text) else {
        return read_function(alloc, text);
    };
    match read_front_number(rest) {
        Some((number, after)) => Ok((Token::Numbered(kind, number), after)),
        None => Err(TextRead::None),
    }
}
