//! Writing a derivation of the calculus in version 1, in which labels and terms stand where they are used.

ghost use Rattle.std.specs.Prelude.{◌≡◌, ◌++◌, map, IsTrue, IfOk, OnOk};
ghost use Rattle.std.specs.List.{flat_map, list_all};
ghost use Rattle.calculus.specs.DerivationText.{eigen_line, home_is_written, home_text, is_printable};
ghost use Rattle.calculus.specs.DerivationText.{modal_is_written, modal_text, spare_line, step_is_written, step_line};
ghost use Rattle.calculus.specs.DerivationText.{term_arg_is_written, term_arg_text, term_is_written};
ghost use Rattle.calculus.specs.Text.{term_text};
ghost use Rattle.calculus.specs.Versions.{IsTextIn};
ghost use Rattle.calculus.specs.FirstWrong.{line_bytes};
ghost use Rattle.derivation_text.specs.Written.{eigen_is_written, spare_is_written};
ghost use Rattle.sequent_calc.specs.DerivationView.{the_derivation};
ghost use Rattle.sequent_calc.specs.NamesView.{the_eigen, the_home, the_spare};
ghost use Rattle.sequent_calc.specs.StepView.{the_modal, the_step, the_term_arg};
ghost use Rattle.term_table.specs.SharedTerm.{the_shared_term};

use crate::term_writer::write_table_term;
use calculus::version::Version;
use cop_base::NoMemory;
use formula_core::Symbols;
use formula_text::{write_bytes, write_label, write_number, write_row};
use logic_rules::{Label, Problem};
use sequent_calc::{Derivation, EigenList, Home, ModalArg, SpareList, Step, StepList, TermArg};
use std::alloc::Global;
use term_table::SharedTerm;
use text_lines::write_head;

fn write_eigen(out: &mut Vec<u8>, number: u32, home: &Label) -> Result<(), NoMemory>
    requires { IsTrue (eigen_is_written (the_eigen (number, home.now))) }
    ensures { OnOk result (out.new.items ≡ out.old.items ++ line_bytes (eigen_line (the_eigen (number, home.now)))) }
{
    write_bytes(out, b"name $$e")?;
    write_number(out, u64::from(number))?;
    write_bytes(out, b" ")?;
    write_label(out, home)?;
    write_bytes(out, b"\n")?;
    Ok(())
}

fn write_eigens(out: &mut Vec<u8>, eigens: &EigenList) -> Result<(), NoMemory>
    requires { IsTrue (list_all eigen_is_written eigens.now) }
    ensures { OnOk result (out.new.items ≡ out.old.items ++ flat_map line_bytes (map eigen_line eigens.now)) }
{
    for item in eigens.items() {
        write_eigen(out, item.0, &item.1)?;
    }
    Ok(())
}

fn write_home(out: &mut Vec<u8>, home: &Home) -> Result<(), NoMemory>
    requires { IsTrue (home_is_written (the_home home.now)) }
    ensures { OnOk result (out.new.items ≡ out.old.items ++ home_text (the_home home.now)) }
{
    match home {
        Home::Anywhere => write_bytes(out, b"any"),
        Home::At(label) => write_label(out, label),
    }
}

fn write_spare(out: &mut Vec<u8>, number: u32, home: &Home) -> Result<(), NoMemory>
    requires { IsTrue (spare_is_written (the_spare (number, home.now))) }
    ensures { OnOk result (out.new.items ≡ out.old.items ++ line_bytes (spare_line (the_spare (number, home.now)))) }
{
    write_bytes(out, b"name $$s")?;
    write_number(out, u64::from(number))?;
    write_bytes(out, b" ")?;
    write_home(out, home)?;
    write_bytes(out, b"\n")?;
    Ok(())
}

fn write_spares(out: &mut Vec<u8>, spares: &SpareList) -> Result<(), NoMemory>
    requires { IsTrue (list_all spare_is_written spares.now) }
    ensures { OnOk result (out.new.items ≡ out.old.items ++ flat_map line_bytes (map spare_line spares.now)) }
{
    for item in spares.items() {
        write_spare(out, item.0, &item.1)?;
    }
    Ok(())
}

fn write_modal(out: &mut Vec<u8>, modal: &ModalArg) -> Result<(), NoMemory>
    requires { IsTrue (modal_is_written (the_modal modal.now)) }
    ensures { OnOk result (out.new.items ≡ out.old.items ++ modal_text (the_modal modal.now)) }
{
    match modal {
        ModalArg::None => Ok(()),
        ModalArg::To(label) => {
            write_bytes(out, b" to ")?;
            write_label(out, label)
        }
        ModalArg::New(n) => {
            write_bytes(out, b" new $$c")?;
            write_number(out, u64::from(*n))
        }
    }
}

fn write_shared(
    alloc: Global,
    out: &mut Vec<u8>,
    symbols: &Symbols,
    term: &SharedTerm,
) -> Result<(), NoMemory>
    requires { IsTrue (term_is_written symbols.now (the_shared_term term.now)) }
    ensures { OnOk result (out.new.items ≡ out.old.items ++ term_text symbols.now 0 (the_shared_term term.now)) }
{
    match term {
        SharedTerm::Row(row) => write_row(alloc, out, symbols, row),
        SharedTerm::Table(table, term) => write_table_term(alloc, out, symbols, table, *term),
    }
}

fn write_term_arg(
    alloc: Global,
    out: &mut Vec<u8>,
    symbols: &Symbols,
    arg: &TermArg,
) -> Result<(), NoMemory>
    requires { IsTrue (term_arg_is_written symbols.now (the_term_arg arg.now)) }
    ensures { OnOk result (out.new.items ≡ out.old.items ++ term_arg_text symbols.now (the_term_arg arg.now)) }
{
    match arg {
        TermArg::None => Ok(()),
        TermArg::Term(term) => {
            write_bytes(out, b" term ")?;
            write_shared(alloc, out, symbols, term)
        }
        TermArg::Name(n) => {
            write_bytes(out, b" name $$e")?;
            write_number(out, u64::from(*n))
        }
    }
}

fn write_step(
    alloc: Global,
    out: &mut Vec<u8>,
    symbols: &Symbols,
    step: &Step,
) -> Result<(), NoMemory>
    requires { IsTrue (step_is_written symbols.now (the_step step.now)) }
    ensures { OnOk result (out.new.items ≡ out.old.items ++ step_line symbols.now (the_step step.now)) }
{
    match step {
        Step::Use { entry, modal, term } => {
            write_bytes(out, b"use ")?;
            write_number(out, u64::from(*entry))?;
            write_modal(out, modal)?;
            write_term_arg(alloc, out, symbols, term)
        }
        Step::Axiom { given, shown } => {
            write_bytes(out, b"axiom ")?;
            write_number(out, u64::from(*given))?;
            write_bytes(out, b" ")?;
            write_number(out, u64::from(*shown))
        }
    }
}

fn write_steps(
    alloc: Global,
    out: &mut Vec<u8>,
    symbols: &Symbols,
    steps: &StepList,
) -> Result<(), NoMemory>
    requires { IsTrue (list_all (step_is_written symbols.now) steps.now) }
    ensures { OnOk result (out.new.items ≡ out.old.items ++ flat_map line_bytes (map (step_line symbols.now) steps.now)) }
{
    for step in steps.items() {
        write_step(alloc, out, symbols, step)?;
        write_bytes(out, b"\n")?;
    }
    Ok(())
}

/// The text of a derivation in version 1.
pub fn write_plain(alloc: Global, problem: &Problem, d: &Derivation) -> Result<Vec<u8>, NoMemory>
    requires { IsTrue (is_printable problem.now (the_derivation d.now)) }
    ensures { IfOk result (λ bytes. IsTextIn Version.One problem.now (the_derivation d.now) bytes.items) }
{
    let mut out = Vec::new(alloc);
    write_head(&mut out, problem, b"leancop derivation 1", d.limit)?;
    write_eigens(&mut out, &d.names.eigens)?;
    write_spares(&mut out, &d.names.spares)?;
    write_steps(alloc, &mut out, problem.symbols(), &d.steps)?;
    write_bytes(&mut out, b"end\n")?;
    Ok(out)
}
