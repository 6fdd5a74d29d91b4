//! Reading lines of names.

ghost use Rattle.std.specs.Prelude.{◌≡◌, ℕ, Err, IfOk};
ghost use Rattle.calculus.specs.Derivations as derivation;
ghost use Rattle.derivation_text.specs.Spelling.{IsEigen, IsHome, IsSpare};
ghost use Rattle.sequent_calc.specs.NamesView.{the_home};

use formula_text::TextRead;
use logic_rules::Label;
use sequent_calc::Home;
use std::alloc::Global;
use text_lines::{read_front_number, read_whole_label, rest_after};

// A home that is the whole text.
fn read_home(alloc: Global, text: &[u8]) -> Result<Home, TextRead>
    ensures ok { IfOk result (λ h. IsHome text.now (the_home h)) }
    ensures none { result ≡ Err TextRead.None → (h : derivation.Home) → ¬ IsHome text.now h }
{
    if text == b"any".as_slice() {
        return Ok(Home::Anywhere);
    }
    let label = read_whole_label(alloc, text)?;
    Ok(Home::At(label))
}

/// The number and the home of an eigenvariable after `name $$e`.
pub fn read_eigen(alloc: Global, text: &[u8]) -> Result<(u32, Label), TextRead>
    ensures ok { IfOk result (λ r. IsEigen text.now r.0 r.1) }
    ensures none { result ≡ Err TextRead.None → (n : ℕ) (w : derivation.Label) → ¬ IsEigen text.now n w }
{
    let Some((n, rest)) = read_front_number(text) else {
        return Err(TextRead::None);
    };
    let Some(rest) = rest_after(rest, b" ") else {
        return Err(TextRead::None);
    };
    let home = read_whole_label(alloc, rest)?;
    Ok((n, home))
}

/// The number and the home of a spare constant after `name $$s`.
pub fn read_spare(alloc: Global, text: &[u8]) -> Result<(u32, Home), TextRead>
    ensures ok { IfOk result (λ r. IsSpare text.now r.0 (the_home r.1)) }
    ensures none { result ≡ Err TextRead.None → (n : ℕ) (h : derivation.Home) → ¬ IsSpare text.now n h }
{
    let Some((n, rest)) = read_front_number(text) else {
        return Err(TextRead::None);
    };
    let Some(rest) = rest_after(rest, b" ") else {
        return Err(TextRead::None);
    };
    let home = read_home(alloc, rest)?;
    Ok((n, home))
}
