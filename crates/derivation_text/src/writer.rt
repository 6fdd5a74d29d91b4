//! Writing.

ghost use Rattle.std.specs.Prelude.{◌≡◌, ◌++◌, IsTrue, IfOk, OnOk};
ghost use Rattle.std.specs.List.{flat_map};
ghost use Rattle.calculus.specs.DerivationText.{is_printable};
ghost use Rattle.calculus.specs.Versions.{IsTextIn, numbering, stated};
ghost use Rattle.calculus.specs.FirstWrong.{line_bytes};
ghost use Rattle.derivation_text.specs.Single.{AtMostOneFormula, AtMostOneInVersion};
ghost use Rattle.derivation_text.specs.Writing.{AreTablesWritten, body_lines_in};
ghost use Rattle.sequent_calc.specs.DerivationView.{the_derivation};

use crate::head_reader::first_line;
use crate::line_writer::{write_eigens, write_spares, write_steps};
use crate::numbering::number;
use crate::plain_writer::write_plain;
use crate::table_writer::{write_label_lines, write_term_lines};
use crate::text_derivation::TextDerivation;
use calculus::version::Version;
use cop_base::NoMemory;
use formula_text::write_bytes;
use logic_rules::Problem;
use sequent_calc::Derivation;
use std::alloc::Global;
use text_lines::write_head;

fn write_body(
    alloc: Global,
    out: &mut Vec<u8>,
    problem: &Problem,
    d: &TextDerivation,
    version: Version,
) -> Result<(), NoMemory>
    requires written { AreTablesWritten problem.now.symbols d.now }
    ensures { OnOk result (out.new.items ≡ out.old.items ++ flat_map line_bytes (body_lines_in version problem.now.symbols d.now)) }
{
    write_label_lines(alloc, out, problem, d, version)?;
    write_eigens(alloc, out, problem, d, version, d.eigens())?;
    write_spares(alloc, out, problem, d, version, d.spares())?;
    write_term_lines(alloc, out, problem, d, version)?;
    write_steps(alloc, out, problem, d, version, d.steps())?;
    write_bytes(out, b"end\n")?;
    Ok(())
}

/// The text of a version of a derivation that can be printed: a head of four lines, a line for each name and each step, and `end`; in
/// version 2 a line for each label before the names and for each term after them.
pub fn write(
    alloc: Global,
    problem: &Problem,
    d: &TextDerivation,
    version: Version,
) -> Result<Vec<u8>, NoMemory>
    requires printable { IsTrue (is_printable problem.now (stated d.now)) }
    requires numbers { d.now ≡ numbering (stated d.now) }
    ensures text { IfOk result (λ bytes. IsTextIn version problem.now (stated d.now) bytes.items) }

    // They are the text of no other derivation, in either version, and of no other formula.
    ensures one { IfOk result (λ bytes. AtMostOneInVersion problem.now bytes.items) }
    ensures formula { IfOk result (λ bytes. AtMostOneFormula problem.now bytes.items) }
{
    // Called for their contracts alone, which say that so many labels and terms can be counted, and that symbols are distinct.
    let _labels = d.labels().count();
    let _terms = d.terms().count();
    let _symbols = problem.symbols();
    let mut out = Vec::new(alloc);
    write_head(&mut out, problem, first_line(version), d.limit())?;
    write_body(alloc, &mut out, problem, d, version)?;
    Ok(out)
}

fn write_numbered(alloc: Global, problem: &Problem, d: &Derivation) -> Result<Vec<u8>, NoMemory>
    requires { IsTrue (is_printable problem.now (the_derivation d.now)) }
    ensures { IfOk result (λ bytes. IsTextIn Version.Two problem.now (the_derivation d.now) bytes.items) }
{
    let numbered = number(alloc, d)?;
    let text = write(alloc, problem, &numbered, Version::Two)?;
    Ok(text)
}

fn write_in(
    alloc: Global,
    problem: &Problem,
    d: &Derivation,
    version: Version,
) -> Result<Vec<u8>, NoMemory>
    requires { IsTrue (is_printable problem.now (the_derivation d.now)) }
    ensures { IfOk result (λ bytes. IsTextIn version problem.now (the_derivation d.now) bytes.items) }
{
    match version {
        Version::One => write_plain(alloc, problem, d),
        Version::Two => write_numbered(alloc, problem, d),
    }
}

/// The same of a derivation of the calculus.
pub fn print(
    alloc: Global,
    problem: &Problem,
    d: &Derivation,
    version: Version,
) -> Result<Vec<u8>, NoMemory>
    requires { IsTrue (is_printable problem.now (the_derivation d.now)) }
    ensures text { IfOk result (λ bytes. IsTextIn version problem.now (the_derivation d.now) bytes.items) }

    // They are the text of no other derivation, in either version, and of no other formula.
    ensures one { IfOk result (λ bytes. AtMostOneInVersion problem.now bytes.items) }
    ensures formula { IfOk result (λ bytes. AtMostOneFormula problem.now bytes.items) }
{
    // Called for its contract alone, which says that symbols are distinct.
    let _symbols = problem.symbols();
    let text = write_in(alloc, problem, d, version)?;
    Ok(text)
}
