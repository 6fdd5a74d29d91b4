//! The reader of a formula that stands in a text. Only where it stops a second way over the tokens finds the fault.

ghost use Rattle.std.specs.Prelude.{◌≡◌, ◌≤◌, ◌∷◌, [], length, IfErr, IfOk, IfSome, ℕ};
ghost use Rattle.tptp_reader.specs.Answers.{the_formula_reading};
ghost use Rattle.tptp_reader.specs.Failing.{Fails, Missing};
ghost use Rattle.tptp_reader.specs.Faults.{formula_cause, is_stop};
ghost use Rattle.tptp_reader.specs.Following.{IsFormulaFault, stack_now};
ghost use Rattle.tptp_reader.specs.Expecting as way;
ghost use Rattle.tptp_reader.specs.Reading.{HoldsFormula, IsFormulaReading, Outcome};
ghost use Rattle.tptp_reader.specs.Sources as tree;
ghost use Rattle.tptp_reader.specs.SourceView.{the_source};
ghost use Rattle.tptp_reader.specs.TerminalView.{the_terminal};

use crate::expected::Expected;
use crate::fault::{ReadCause, ReadFault};
use crate::following::{Ending, follow};
use crate::formula_reader::read_tree;
use crate::machine::Machine;
use crate::source::Source;
use crate::stop::Stop;
use crate::term_reader::next_token;
use crate::terminal::Terminal;
use cop_base::NoMemory;
use std::alloc::Global;

/// What is wrong with a token that cannot follow in a formula.
pub fn formula_cause(x: Terminal) -> ReadCause
    ensures { result ≡ formula_cause (the_terminal x.entry) }
{
    match x {
        Terminal::Number(_) | Terminal::Distinct(_) => ReadCause::Unsupported,
        Terminal::Dollar(word) => {
            if word == b"$true".as_slice() || word == b"$false".as_slice() {
                ReadCause::Syntax
            } else {
                ReadCause::Reserved
            }
        }
        _ => ReadCause::Syntax,
    }
}

// A formula and what ends it.
fn formula_machine(alloc: Global) -> Result<Machine, NoMemory>
    ensures { IfOk result (λ m. stack_now m ≡ way.formula 0 ∷ way.stop ∷ []) }
{
    let mut machine = Machine::new(alloc);
    machine.push(Expected::Stop)?;
    machine.push(Expected::Formula(0))?;
    Ok(machine)
}

// The fault of the text from the place on, where no formula stands that has none.
fn formula_fault(
    alloc: Global,
    text: &[u8],
    from: usize,
    modal: bool,
) -> Result<ReadFault, NoMemory>
    requires within { from ≤ length text.now }
    requires fails { Fails modal text.now (way.formula 0 ∷ way.stop ∷ []) from }
    ensures { IfOk result (IsFormulaFault modal text.now from) }
{
    let mut machine = formula_machine(alloc)?;
    let ending = follow(text, from, modal, &mut machine)?;
    match ending {
        Ending::Done(_) => unreachable!(),
        Ending::Stuck(piece) => Ok(ReadFault::At {
            offset: piece.start as u64,
            cause: formula_cause(piece.terminal),
        }),
        Ending::TooDeep(offset) => Ok(ReadFault::TooDeep {
            offset: offset as u64,
        }),
        Ending::NoToken(offset) => Ok(ReadFault::At {
            offset: offset as u64,
            cause: ReadCause::Syntax,
        }),
        Ending::End => Ok(ReadFault::At {
            offset: text.len() as u64,
            cause: ReadCause::Syntax,
        }),
    }
}

// It ends a formula.
fn is_stop(x: Terminal) -> bool
    ensures { result ≡ is_stop (the_terminal x.entry) }
{
    matches!(x, Terminal::Comma | Terminal::CloseRound)
}

// A formula that has no fault, where one stands.
fn build_formula(
    alloc: Global,
    text: &[u8],
    from: usize,
    modal: bool,
) -> Result<(Source, usize), Stop>
    requires { from ≤ length text.now }
    ensures holds { IfOk result (λ r. HoldsFormula modal text.now from (the_source r.0) r.1) }
    ensures none { IfErr result (Missing (Fails modal text.now (way.formula 0 ∷ way.stop ∷ []) from)) }
{
    let first = next_token(text, from)?;
    let (source, stop) = read_tree(alloc, text, modal, 0, first)?;
    if !is_stop(stop.terminal) {
        return Err(Stop::NotThere);
    }
    Ok((source, stop.start))
}

/// The formula that begins with the first token at or after the place, and the offset of the token behind it. Modal
/// operators may stand in it where `modal` says so.
pub fn read_formula(
    alloc: Global,
    text: &[u8],
    from: usize,
    modal: bool,
) -> Result<(Source, usize), ReadFault>
    requires { from ≤ length text.now }
    ensures reading { IfSome (the_formula_reading result) (λ r. IsFormulaReading modal text.now from r) }
    ensures alone { IfSome (the_formula_reading result) (λ r. (other : Outcome (tree.Source × ℕ))
        → IsFormulaReading modal text.now from other → other ≡ r) }
{
    match build_formula(alloc, text, from, modal) {
        Ok(r) => Ok(r),
        Err(Stop::NoMemory) => Err(ReadFault::NoMemory),
        Err(Stop::NotThere) => {
            let fault = formula_fault(alloc, text, from, modal)?;
            Err(fault)
        }
    }
}
