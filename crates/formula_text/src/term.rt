//! Terms.

ghost use Rattle.std.specs.Prelude.{◌≡◌, ◌++◌, if◌then◌else◌, IsTrue, OnOk, OnErr};
ghost use Rattle.calculus.specs.DerivationText.{term_is_written};
ghost use Rattle.calculus.specs.Lists.{terms_tree};
ghost use Rattle.calculus.specs.Text.{args_text, term_text};
ghost use Rattle.formula_core.specs.TermView.{the_term};
ghost use Rattle.formula_text.specs.Extends.{Extends};
ghost use Rattle.formula_text.specs.Known.{term_is_known, terms_are_known};
ghost use Rattle.formula_text.specs.Single.{TermTextsDiffer};

use crate::append::{append_byte, append_bytes, append_number, undo_if_failed};
use crate::name::append_symbol;
use cop_base::NoMemory;
use formula_core::{Symbols, Term, Terms};

/// A term inside of `depth` quantifiers.
#[cycle(append_term)]
#[tactic(auto, using(crate::proofs::Extending::extending, formula_core::specs::TermFalls::falling))]
pub fn append_term(
    out: &mut Vec<u8>,
    symbols: &Symbols,
    depth: u64,
    t: &Term,
) -> Result<(), NoMemory>
    requires { IsTrue (term_is_known symbols.now (the_term t.now)) }
    ensures ok { OnOk result (out.new.items ≡ out.old.items ++ term_text symbols.now depth (the_term t.now)) }
    ensures extends { Extends out.old.items out.new.items }
{
    match t {
        Term::Var(k) => {
            append_byte(out, b'X')?;
            append_number(out, depth.saturating_sub(u64::from(*k)))
        }
        Term::Fun(f, args) => {
            append_symbol(out, symbols.get(*f))?;
            append_args(out, symbols, depth, args)
        }
        Term::Eigen(n) => {
            append_bytes(out, b"$$e")?;
            append_number(out, u64::from(*n))
        }
        Term::Spare(n) => {
            append_bytes(out, b"$$s")?;
            append_number(out, u64::from(*n))
        }
    }
}

// What stands before an argument.
fn separator(first: bool) -> u8
    ensures { result ≡ (if first then 40 else 44) }
{
    if first { b'(' } else { b',' }
}

/// Arguments in round brackets, with commas between them; nothing where there are none.
#[cycle(append_term)]
#[tactic(auto, using(crate::proofs::Extending::extending, formula_core::specs::TermFalls::falling))]
pub fn append_args(
    out: &mut Vec<u8>,
    symbols: &Symbols,
    depth: u64,
    args: &Terms,
) -> Result<(), NoMemory>
    requires { IsTrue (terms_are_known symbols.now (terms_tree args.now)) }
    ensures ok { OnOk result (out.new.items ≡ out.old.items ++ args_text symbols.now depth (terms_tree args.now)) }
    ensures extends { Extends out.old.items out.new.items }
{
    let mut first = true;
    for item in args.items() {
        append_byte(out, separator(first))?;
        first = false;
        append_term(out, symbols, depth, item)?;
    }
    if first {
        return Ok(());
    }
    append_byte(out, b')')
}

/// Appends a term without variables.
#[tactic(auto, using(crate::proofs::Extending::extending, crate::proofs::Knowing::knowing))]
pub fn write_term(out: &mut Vec<u8>, symbols: &Symbols, t: &Term) -> Result<(), NoMemory>
    requires { IsTrue (term_is_written symbols.now (the_term t.now)) }
    ensures ok { OnOk result (out.new.items ≡ out.old.items ++ term_text symbols.now 0 (the_term t.now)) }
    ensures err { OnErr result (out.new.items ≡ out.old.items) }
    ensures apart { TermTextsDiffer symbols.now }
{
    let kept = out.len();
    let appended = append_term(out, symbols, 0, t);
    undo_if_failed(out, kept, appended)
}
