//! Writing the lines of names and steps.

ghost use Rattle.std.specs.Prelude.{◌≡◌, ◌++◌, codes, decimal, length, map, IsTrue, OnOk};
ghost use Rattle.std.specs.List.{flat_map, list_all};
ghost use Rattle.calculus.specs.FirstWrong.{line_bytes};
ghost use Rattle.calculus.specs.Versions.{numbered_home_is_written};
ghost use Rattle.derivation_text.specs.Listed.{are_listed, has_home_among, is_arg_listed, is_modal_listed, may_have_home_among};
ghost use Rattle.derivation_text.specs.NumbersView.{the_numbered_arg, the_numbered_eigen, the_numbered_modal, the_numbered_spare, the_numbered_step};
ghost use Rattle.derivation_text.specs.Writing.{AreTablesWritten, arg_text_at, eigen_line_at, home_text_at, modal_text_at, spare_line_at, step_line_at};

use crate::numbers::{NumberedModal, NumberedStep, NumberedTerm};
use crate::table_writer::{write_label_at, write_term_at};
use crate::text_derivation::TextDerivation;
use calculus::version::Version;
use cop_base::NoMemory;
use formula_text::{write_bytes, write_number};
use logic_rules::Problem;
use std::alloc::Global;

fn write_eigen(
    alloc: Global,
    out: &mut Vec<u8>,
    problem: &Problem,
    d: &TextDerivation,
    version: Version,
    name: (u32, u32),
) -> Result<(), NoMemory>
    requires among { IsTrue (has_home_among (length d.now.labels) (the_numbered_eigen name)) }
    requires written { AreTablesWritten problem.now.symbols d.now }
    ensures { OnOk result (out.new.items ≡ out.old.items ++ line_bytes (eigen_line_at version d.now.labels (the_numbered_eigen name))) }
{
    write_bytes(out, b"name $$e")?;
    write_number(out, u64::from(name.0))?;
    write_bytes(out, b" ")?;
    write_label_at(alloc, out, problem, d, version, name.1)?;
    write_bytes(out, b"\n")?;
    Ok(())
}

/// The lines of eigenvariables.
pub fn write_eigens(
    alloc: Global,
    out: &mut Vec<u8>,
    problem: &Problem,
    d: &TextDerivation,
    version: Version,
    names: &[(u32, u32)],
) -> Result<(), NoMemory>
    requires among { IsTrue (list_all (has_home_among (length d.now.labels)) (map the_numbered_eigen names.now)) }
    requires written { AreTablesWritten problem.now.symbols d.now }
    ensures { OnOk result (out.new.items ≡ out.old.items ++ flat_map line_bytes (map (eigen_line_at version d.now.labels) (map the_numbered_eigen names.now))) }
{
    for name in names {
        write_eigen(alloc, out, problem, d, version, *name)?;
    }
    Ok(())
}

fn write_home(
    alloc: Global,
    out: &mut Vec<u8>,
    problem: &Problem,
    d: &TextDerivation,
    version: Version,
    home: Option<u32>,
) -> Result<(), NoMemory>
    requires among { IsTrue (numbered_home_is_written (length d.now.labels) home) }
    requires written { AreTablesWritten problem.now.symbols d.now }
    ensures { OnOk result (out.new.items ≡ out.old.items ++ home_text_at version d.now.labels home) }
{
    match home {
        None => {
            write_bytes(out, b"any")?;
            Ok(())
        }
        Some(number) => write_label_at(alloc, out, problem, d, version, number),
    }
}

fn write_spare(
    alloc: Global,
    out: &mut Vec<u8>,
    problem: &Problem,
    d: &TextDerivation,
    version: Version,
    name: (u32, Option<u32>),
) -> Result<(), NoMemory>
    requires among { IsTrue (may_have_home_among (length d.now.labels) (the_numbered_spare name)) }
    requires written { AreTablesWritten problem.now.symbols d.now }
    ensures { OnOk result (out.new.items ≡ out.old.items ++ line_bytes (spare_line_at version d.now.labels (the_numbered_spare name))) }
{
    write_bytes(out, b"name $$s")?;
    write_number(out, u64::from(name.0))?;
    write_bytes(out, b" ")?;
    write_home(alloc, out, problem, d, version, name.1)?;
    write_bytes(out, b"\n")?;
    Ok(())
}

/// The lines of spare constants.
pub fn write_spares(
    alloc: Global,
    out: &mut Vec<u8>,
    problem: &Problem,
    d: &TextDerivation,
    version: Version,
    names: &[(u32, Option<u32>)],
) -> Result<(), NoMemory>
    requires among { IsTrue (list_all (may_have_home_among (length d.now.labels)) (map the_numbered_spare names.now)) }
    requires written { AreTablesWritten problem.now.symbols d.now }
    ensures { OnOk result (out.new.items ≡ out.old.items ++ flat_map line_bytes (map (spare_line_at version d.now.labels) (map the_numbered_spare names.now))) }
{
    for name in names {
        write_spare(alloc, out, problem, d, version, *name)?;
    }
    Ok(())
}

fn write_modal(
    alloc: Global,
    out: &mut Vec<u8>,
    problem: &Problem,
    d: &TextDerivation,
    version: Version,
    modal: NumberedModal,
) -> Result<(), NoMemory>
    requires listed { IsTrue (is_modal_listed (length d.now.labels) (the_numbered_modal modal)) }
    requires written { AreTablesWritten problem.now.symbols d.now }
    ensures { OnOk result (out.new.items ≡ out.old.items ++ modal_text_at version d.now.labels (the_numbered_modal modal)) }
{
    match modal {
        NumberedModal::None => Ok(()),
        NumberedModal::To(number) => {
            write_bytes(out, b" to ")?;
            write_label_at(alloc, out, problem, d, version, number)?;
            Ok(())
        }
        NumberedModal::New(number) => {
            write_bytes(out, b" new $$c")?;
            write_number(out, u64::from(number))?;
            Ok(())
        }
    }
}

fn write_arg(
    alloc: Global,
    out: &mut Vec<u8>,
    problem: &Problem,
    d: &TextDerivation,
    version: Version,
    term: NumberedTerm,
) -> Result<(), NoMemory>
    requires listed { IsTrue (is_arg_listed (length d.now.terms) (the_numbered_arg term)) }
    requires written { AreTablesWritten problem.now.symbols d.now }
    ensures { OnOk result (out.new.items ≡ out.old.items ++ arg_text_at version problem.now.symbols d.now.terms (the_numbered_arg term)) }
{
    match term {
        NumberedTerm::None => Ok(()),
        NumberedTerm::Term(number) => {
            write_bytes(out, b" term ")?;
            write_term_at(alloc, out, problem, d, version, number)?;
            Ok(())
        }
        NumberedTerm::Name(number) => {
            write_bytes(out, b" name $$e")?;
            write_number(out, u64::from(number))?;
            Ok(())
        }
    }
}

fn write_axiom(out: &mut Vec<u8>, given: u32, shown: u32) -> Result<(), NoMemory>
    ensures { OnOk result (out.new.items ≡ out.old.items ++ (codes "axiom " ++ (decimal given ++ (codes " " ++ decimal shown)))) }
{
    write_bytes(out, b"axiom ")?;
    write_number(out, u64::from(given))?;
    write_bytes(out, b" ")?;
    write_number(out, u64::from(shown))?;
    Ok(())
}

fn write_step(
    alloc: Global,
    out: &mut Vec<u8>,
    problem: &Problem,
    d: &TextDerivation,
    version: Version,
    step: NumberedStep,
) -> Result<(), NoMemory>
    requires listed { IsTrue (are_listed (length d.now.labels) (length d.now.terms) (the_numbered_step step)) }
    requires written { AreTablesWritten problem.now.symbols d.now }
    ensures { OnOk result (out.new.items ≡ out.old.items ++ step_line_at version problem.now.symbols d.now.labels d.now.terms (the_numbered_step step)) }
{
    match step {
        NumberedStep::Use { entry, modal, term } => {
            write_bytes(out, b"use ")?;
            write_number(out, u64::from(entry))?;
            write_modal(alloc, out, problem, d, version, modal)?;
            write_arg(alloc, out, problem, d, version, term)?;
            Ok(())
        }
        NumberedStep::Axiom { given, shown } => write_axiom(out, given, shown),
    }
}

fn write_step_line(
    alloc: Global,
    out: &mut Vec<u8>,
    problem: &Problem,
    d: &TextDerivation,
    version: Version,
    step: NumberedStep,
) -> Result<(), NoMemory>
    requires listed { IsTrue (are_listed (length d.now.labels) (length d.now.terms) (the_numbered_step step)) }
    requires written { AreTablesWritten problem.now.symbols d.now }
    ensures { OnOk result (out.new.items ≡ out.old.items ++ line_bytes (step_line_at version problem.now.symbols d.now.labels d.now.terms (the_numbered_step step))) }
{
    write_step(alloc, out, problem, d, version, step)?;
    write_bytes(out, b"\n")?;
    Ok(())
}

/// The lines of steps.
pub fn write_steps(
    alloc: Global,
    out: &mut Vec<u8>,
    problem: &Problem,
    d: &TextDerivation,
    version: Version,
    steps: &[NumberedStep],
) -> Result<(), NoMemory>
    requires listed { IsTrue (list_all (are_listed (length d.now.labels) (length d.now.terms)) (map the_numbered_step steps.now)) }
    requires written { AreTablesWritten problem.now.symbols d.now }
    ensures { OnOk result (out.new.items ≡ out.old.items ++ flat_map line_bytes (map (step_line_at version problem.now.symbols d.now.labels d.now.terms) (map the_numbered_step steps.now))) }
{
    for step in steps {
        write_step_line(alloc, out, problem, d, version, *step)?;
    }
    Ok(())
}
