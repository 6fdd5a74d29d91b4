//! Writing labels and terms: where they are used, and in version 2 in lines of their own.

ghost use Rattle.std.specs.Prelude.{◌≡◌, ◌++◌, [], length, IsTrue, OnOk};
ghost use Rattle.std.specs.List.{flat_map};
ghost use Rattle.calculus.specs.FirstWrong.{line_bytes};
ghost use Rattle.calculus.specs.Syntax.{spare};
ghost use Rattle.calculus.specs.Versions.{is_among, label_line, lines_from, numbered, term_line};
ghost use Rattle.derivation_text.specs.Writing.{AreTablesWritten, label_lines_in, label_text_at, term_lines_in, term_text_at};

use crate::text_derivation::TextDerivation;
use calculus::version::Version;
use cop_base::NoMemory;
use formula_text::{write_bytes, write_label, write_number, write_row};
use logic_rules::Problem;
use std::alloc::Global;

fn write_label_of(
    alloc: Global,
    out: &mut Vec<u8>,
    problem: &Problem,
    d: &TextDerivation,
    number: u32,
) -> Result<(), NoMemory>
    requires among { IsTrue (is_among (length d.now.labels) number) }
    requires written { AreTablesWritten problem.now.symbols d.now }
    ensures { OnOk result (out.new.items ≡ out.old.items ++ label_text_at Version.One d.now.labels number) }
{
    let label = d.labels().label(alloc, number)?;
    write_label(out, &label)?;
    Ok(())
}

fn write_term_of(
    alloc: Global,
    out: &mut Vec<u8>,
    problem: &Problem,
    d: &TextDerivation,
    number: u32,
) -> Result<(), NoMemory>
    requires among { IsTrue (is_among (length d.now.terms) number) }
    requires written { AreTablesWritten problem.now.symbols d.now }
    ensures { OnOk result (out.new.items ≡ out.old.items ++ term_text_at Version.One problem.now.symbols d.now.terms number) }
{
    write_row(alloc, out, problem.symbols(), d.terms().row(number))?;
    Ok(())
}

/// A label where it is used: itself, or its number.
pub fn write_label_at(
    alloc: Global,
    out: &mut Vec<u8>,
    problem: &Problem,
    d: &TextDerivation,
    version: Version,
    number: u32,
) -> Result<(), NoMemory>
    requires among { IsTrue (is_among (length d.now.labels) number) }
    requires written { AreTablesWritten problem.now.symbols d.now }
    ensures { OnOk result (out.new.items ≡ out.old.items ++ label_text_at version d.now.labels number) }
{
    match version {
        Version::One => write_label_of(alloc, out, problem, d, number),
        Version::Two => {
            write_number(out, u64::from(number))?;
            Ok(())
        }
    }
}

/// A term where it is used: itself, or its number.
pub fn write_term_at(
    alloc: Global,
    out: &mut Vec<u8>,
    problem: &Problem,
    d: &TextDerivation,
    version: Version,
    number: u32,
) -> Result<(), NoMemory>
    requires among { IsTrue (is_among (length d.now.terms) number) }
    requires written { AreTablesWritten problem.now.symbols d.now }
    ensures { OnOk result (out.new.items ≡ out.old.items ++ term_text_at version problem.now.symbols d.now.terms number) }
{
    match version {
        Version::One => write_term_of(alloc, out, problem, d, number),
        Version::Two => {
            write_number(out, u64::from(number))?;
            Ok(())
        }
    }
}

fn write_label_line(
    alloc: Global,
    out: &mut Vec<u8>,
    problem: &Problem,
    d: &TextDerivation,
    number: u32,
) -> Result<(), NoMemory>
    requires among { IsTrue (is_among (length d.now.labels) number) }
    requires written { AreTablesWritten problem.now.symbols d.now }
    ensures { OnOk result (out.new.items ≡ out.old.items ++ line_bytes (label_line number (numbered d.now.labels number []))) }
{
    write_bytes(out, b"label ")?;
    write_number(out, u64::from(number))?;
    write_bytes(out, b" ")?;
    write_label_of(alloc, out, problem, d, number)?;
    write_bytes(out, b"\n")?;
    Ok(())
}

fn write_term_line(
    alloc: Global,
    out: &mut Vec<u8>,
    problem: &Problem,
    d: &TextDerivation,
    number: u32,
) -> Result<(), NoMemory>
    requires among { IsTrue (is_among (length d.now.terms) number) }
    requires written { AreTablesWritten problem.now.symbols d.now }
    ensures { OnOk result (out.new.items ≡ out.old.items ++ line_bytes (term_line problem.now.symbols number (numbered d.now.terms number (spare 0)))) }
{
    write_bytes(out, b"term ")?;
    write_number(out, u64::from(number))?;
    write_bytes(out, b" ")?;
    write_term_of(alloc, out, problem, d, number)?;
    write_bytes(out, b"\n")?;
    Ok(())
}

fn write_labels(
    alloc: Global,
    out: &mut Vec<u8>,
    problem: &Problem,
    d: &TextDerivation,
) -> Result<(), NoMemory>
    requires written { AreTablesWritten problem.now.symbols d.now }
    ensures { OnOk result (out.new.items ≡ out.old.items ++ flat_map line_bytes (lines_from label_line 1 d.now.labels)) }
{
    for i in 0..d.labels().count() {
        write_label_line(alloc, out, problem, d, i + 1)?;
    }
    Ok(())
}

fn write_terms(
    alloc: Global,
    out: &mut Vec<u8>,
    problem: &Problem,
    d: &TextDerivation,
) -> Result<(), NoMemory>
    requires written { AreTablesWritten problem.now.symbols d.now }
    ensures { OnOk result (out.new.items ≡ out.old.items ++ flat_map line_bytes (lines_from (term_line problem.now.symbols) 1 d.now.terms)) }
{
    for i in 0..d.terms().count() {
        write_term_line(alloc, out, problem, d, i + 1)?;
    }
    Ok(())
}

/// The lines of labels, which version 2 alone has.
pub fn write_label_lines(
    alloc: Global,
    out: &mut Vec<u8>,
    problem: &Problem,
    d: &TextDerivation,
    version: Version,
) -> Result<(), NoMemory>
    requires written { AreTablesWritten problem.now.symbols d.now }
    ensures { OnOk result (out.new.items ≡ out.old.items ++ flat_map line_bytes (label_lines_in version d.now.labels)) }
{
    match version {
        Version::One => Ok(()),
        Version::Two => write_labels(alloc, out, problem, d),
    }
}

/// The lines of terms, which version 2 alone has.
pub fn write_term_lines(
    alloc: Global,
    out: &mut Vec<u8>,
    problem: &Problem,
    d: &TextDerivation,
    version: Version,
) -> Result<(), NoMemory>
    requires written { AreTablesWritten problem.now.symbols d.now }
    ensures { OnOk result (out.new.items ≡ out.old.items ++ flat_map line_bytes (term_lines_in version problem.now.symbols d.now.terms)) }
{
    match version {
        Version::One => Ok(()),
        Version::Two => write_terms(alloc, out, problem, d),
    }
}
