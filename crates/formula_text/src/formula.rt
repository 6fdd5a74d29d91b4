//! Formulas.

ghost use Rattle.std.specs.Prelude.{◌≡◌, ◌++◌, ◌∷◌, ◌+◌, ◌<◌, ◌≤◌, IsTrue, ℕ, codes, decimal};
ghost use Rattle.std.specs.Prelude.{length, OnOk, OnErr};
ghost use Rattle.std.specs.List.{list_all};
ghost use Rattle.calculus.specs.declared.setting.Logic as setting;
ghost use Rattle.calculus.specs.Lists.{terms_tree};
ghost use Rattle.calculus.specs.Measures.{nesting};
ghost use Rattle.calculus.specs.Problems.{formula_fits, greatest_nesting, symbol_fits};
ghost use Rattle.calculus.specs.Text.{atom_text, equation_text, formula_text, joined_text};
ghost use Rattle.calculus.specs.Text.{quantified_text, term_text};
ghost use Rattle.formula_core.specs.FormulaView.{the_formula};
ghost use Rattle.formula_core.specs.TermView.{the_term};
ghost use Rattle.formula_text.specs.Extends.{Extends};
ghost use Rattle.formula_text.specs.Known.{formula_is_known, term_is_known, terms_are_known};
ghost use Rattle.formula_text.specs.Single.{FormulaTextsDiffer};

use crate::append::{append_byte, append_bytes, append_number, undo_if_failed};
use crate::name::append_symbol;
use crate::term::{append_args, append_term};
use cop_base::{NoMemory, SymbolId};
use formula_core::{Formula, SymbolClass, Symbols, Term, Terms};

// The two sides of an equality in round brackets.
fn append_sides(
    out: &mut Vec<u8>,
    symbols: &Symbols,
    depth: u64,
    left: &Term,
    right: &Term,
) -> Result<(), NoMemory>
    requires left { IsTrue (term_is_known symbols.now (the_term left.now)) }
    requires right { IsTrue (term_is_known symbols.now (the_term right.now)) }
    ensures ok { OnOk result (out.new.items ≡ out.old.items
        ++ joined_text (term_text symbols.now depth (the_term left.now)) (codes " = ")
        (term_text symbols.now depth (the_term right.now))) }
    ensures extends { Extends out.old.items out.new.items }
{
    append_byte(out, b'(')?;
    append_term(out, symbols, depth, left)?;
    append_bytes(out, b" = ")?;
    append_term(out, symbols, depth, right)?;
    append_byte(out, b')')?;
    Ok(())
}

fn append_equation(
    out: &mut Vec<u8>,
    symbols: &Symbols,
    depth: u64,
    args: &Terms,
) -> Result<(), NoMemory>
    requires { IsTrue (terms_are_known symbols.now (terms_tree args.now)) }
    ensures ok { OnOk result (out.new.items
        ≡ out.old.items ++ equation_text symbols.now depth (terms_tree args.now)) }
    ensures extends { Extends out.old.items out.new.items }
{
    match args.items() {
        [left, right] => append_sides(out, symbols, depth, left, right),
        _ => Ok(()),
    }
}

fn append_atom(
    out: &mut Vec<u8>,
    symbols: &Symbols,
    depth: u64,
    predicate: SymbolId,
    args: &Terms,
) -> Result<(), NoMemory>
    requires known { predicate.0 < length symbols.now }
    requires args_known { IsTrue (terms_are_known symbols.now (terms_tree args.now)) }
    ensures ok { OnOk result (out.new.items
        ≡ out.old.items ++ atom_text symbols.now depth predicate.0 (terms_tree args.now)) }
    ensures extends { Extends out.old.items out.new.items }
{
    let symbol = symbols.get(predicate);
    match symbol.class {
        SymbolClass::Equality => append_equation(out, symbols, depth, args),
        SymbolClass::Function | SymbolClass::Predicate | SymbolClass::Truth => {
            append_symbol(out, symbol)?;
            append_args(out, symbols, depth, args)
        }
    }
}

// The prefix of a quantifier that lies inside `depth` others.
fn append_quantifier(out: &mut Vec<u8>, quantifier: u8, depth: u64) -> Result<(), NoMemory>
    requires { depth < greatest_nesting }
    ensures ok { OnOk result (out.new.items
        ≡ out.old.items ++ quantifier ∷ (codes "[X" ++ decimal (depth + 1) ++ codes "]:")) }
    ensures extends { Extends out.old.items out.new.items }
{
    append_byte(out, quantifier)?;
    append_bytes(out, b"[X")?;
    append_number(out, depth + 1)?;
    append_bytes(out, b"]:")
}

// Two parts with the connective between them, in round brackets.
#[cycle(append_formula)]
fn append_joined(
    out: &mut Vec<u8>,
    symbols: &Symbols,
    depth: u64,
    left: &Formula,
    connective: &[u8],
    right: &Formula,
) -> Result<(), NoMemory>
    requires left_known { IsTrue (formula_is_known symbols.now (the_formula left.now)) }
    requires right_known { IsTrue (formula_is_known symbols.now (the_formula right.now)) }
    requires left_shallow { depth + nesting (the_formula left.now) ≤ greatest_nesting }
    requires right_shallow { depth + nesting (the_formula right.now) ≤ greatest_nesting }
    ensures ok { OnOk result ((d : ℕ) → depth ≡ d → out.new.items ≡ out.old.items
        ++ joined_text (formula_text symbols.now d (the_formula left.now)) connective.now
        (formula_text symbols.now d (the_formula right.now))) }
    ensures extends { Extends out.old.items out.new.items }
{
    append_byte(out, b'(')?;
    append_formula(out, symbols, depth, left)?;
    append_bytes(out, connective)?;
    append_formula(out, symbols, depth, right)?;
    append_byte(out, b')')?;
    Ok(())
}

// A formula inside of `depth` quantifiers.
#[cycle(append_formula)]
fn append_formula(
    out: &mut Vec<u8>,
    symbols: &Symbols,
    depth: u64,
    f: &Formula,
) -> Result<(), NoMemory>
    requires known { IsTrue (formula_is_known symbols.now (the_formula f.now)) }
    requires shallow { depth + nesting (the_formula f.now) ≤ greatest_nesting }
    ensures ok { OnOk result ((d : ℕ) → depth ≡ d → out.new.items
        ≡ out.old.items ++ formula_text symbols.now d (the_formula f.now)) }
    ensures extends { Extends out.old.items out.new.items }
{
    match f {
        Formula::Atom(p, args) => append_atom(out, symbols, depth, *p, args),
        Formula::Not(a) => {
            append_byte(out, b'~')?;
            append_formula(out, symbols, depth, a)
        }
        Formula::And(a, b) => append_joined(out, symbols, depth, a, b" & ", b),
        Formula::Or(a, b) => append_joined(out, symbols, depth, a, b" | ", b),
        Formula::Imp(a, b) => append_joined(out, symbols, depth, a, b" => ", b),
        Formula::All(a) => {
            append_quantifier(out, b'!', depth)?;
            append_formula(out, symbols, depth + 1, a)
        }
        Formula::Ex(a) => {
            append_quantifier(out, b'?', depth)?;
            append_formula(out, symbols, depth + 1, a)
        }
        Formula::Nec(a) => {
            append_bytes(out, b"#box:")?;
            append_formula(out, symbols, depth, a)
        }
        Formula::Poss(a) => {
            append_bytes(out, b"#dia:")?;
            append_formula(out, symbols, depth, a)
        }
    }
}

/// Appends a closed formula without eigenvariables and spare constants. The variable of a
/// quantifier that lies inside k others is `X` and k + 1.
pub fn write_formula(out: &mut Vec<u8>, symbols: &Symbols, f: &Formula) -> Result<(), NoMemory>
    requires fits { (l : setting.Logic)
        × IsTrue (formula_fits l symbols.now 0 (the_formula f.now)) }
    requires names { IsTrue (list_all symbol_fits symbols.now) }
    requires shallow { nesting (the_formula f.now) ≤ greatest_nesting }
    ensures ok { OnOk result (out.new.items
        ≡ out.old.items ++ formula_text symbols.now 0 (the_formula f.now)) }
    ensures err { OnErr result (out.new.items ≡ out.old.items) }
    ensures apart { FormulaTextsDiffer symbols.now }
{
    let kept = out.len();
    let appended = append_formula(out, symbols, 0, f);
    undo_if_failed(out, kept, appended)
}
