//! The fault of a text of items that has one.

ghost use Rattle.std.specs.Prelude.{◌≡◌, ◌∷◌, [], IfOk};
ghost use Rattle.tptp_reader.specs.Expecting as way;
ghost use Rattle.tptp_reader.specs.Failing.{Fails};
ghost use Rattle.tptp_reader.specs.Faults.{cause_at, is_word_in, item_cause, unsupported_words, wrong_words};
ghost use Rattle.tptp_reader.specs.Following.{IsTextFault, place_now, stack_now};
ghost use Rattle.tptp_reader.specs.TerminalView.{the_terminal};

use crate::expected::Expected;
use crate::fault::{ReadCause, ReadFault};
use crate::following::{Ending, follow};
use crate::machine::Machine;
use crate::reader::formula_cause;
use crate::terminal::Terminal;
use cop_base::NoMemory;
use std::alloc::Global;

// Items of another logic.
fn is_wrong_word(modal: bool, word: &[u8]) -> bool
    ensures { result ≡ is_word_in word.now (wrong_words modal) }
{
    if modal {
        word == b"fof".as_slice() || word == b"cnf".as_slice()
    } else {
        word == b"qmf".as_slice()
    }
}

// Items that are not read.
fn is_unsupported_word(word: &[u8]) -> bool
    ensures { result ≡ is_word_in word.now unsupported_words }
{
    word == b"tff".as_slice()
        || word == b"thf".as_slice()
        || word == b"tcf".as_slice()
        || word == b"tpi".as_slice()
}

// What is wrong with a token that begins no item.
fn item_cause(modal: bool, x: Terminal) -> ReadCause
    ensures { result ≡ item_cause modal (the_terminal x.entry) }
{
    match x {
        Terminal::Lower(word) => {
            if is_wrong_word(modal, word) {
                ReadCause::WrongLanguage
            } else if is_unsupported_word(word) {
                ReadCause::Unsupported
            } else {
                ReadCause::Syntax
            }
        }
        _ => ReadCause::Syntax,
    }
}

// What is wrong with a token that cannot stand here.
fn text_cause(machine: &Machine, modal: bool, x: Terminal) -> ReadCause
    ensures { result ≡ cause_at modal (place_now (stack_now machine.now)) (the_terminal x.entry) }
{
    if machine.is_at_item() {
        item_cause(modal, x)
    } else if machine.is_in_body() {
        formula_cause(x)
    } else {
        ReadCause::Syntax
    }
}

// The text of items.
fn items_machine(alloc: Global) -> Result<Machine, NoMemory>
    ensures { IfOk result (λ m. stack_now m ≡ way.items ∷ []) }
{
    let mut machine = Machine::new(alloc);
    machine.push(Expected::Items)?;
    Ok(machine)
}

/// The fault of the text, which has one.
pub fn text_fault(alloc: Global, text: &[u8], modal: bool) -> Result<ReadFault, NoMemory>
    requires { Fails modal text.now (way.items ∷ []) 0 }
    ensures { IfOk result (IsTextFault modal text.now) }
{
    let mut machine = items_machine(alloc)?;
    let ending = follow(text, 0, modal, &mut machine)?;
    match ending {
        Ending::Stuck(piece) => Ok(ReadFault::At {
            offset: piece.start as u64,
            cause: text_cause(&machine, modal, piece.terminal),
        }),
        Ending::TooDeep(offset) => Ok(ReadFault::TooDeep {
            offset: offset as u64,
        }),
        Ending::NoToken(offset) => Ok(ReadFault::At {
            offset: offset as u64,
            cause: ReadCause::Syntax,
        }),
        Ending::End => {
            // Items that end here have no fault.
            if machine.is_at_item() {
                unreachable!();
            }
            Ok(ReadFault::At {
                offset: text.len() as u64,
                cause: ReadCause::Syntax,
            })
        }
        // Behind each item another one may come.
        Ending::Done(_) => unreachable!(),
    }
}
