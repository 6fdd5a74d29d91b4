//! The way to a fault: over the tokens of a text, or of a formula in a text, to where they end or go wrong.

ghost use Rattle.std.specs.Prelude.{◌≡◌, ◌≤◌, IfOk, length, true};
ghost use Rattle.tptp_reader.specs.Following.{AreWithin, HasEnding, is_open, stack_now};

use crate::machine::{Machine, Step};
use crate::terminal::{Piece, next_piece};
use cop_base::NoMemory;

/// How the way ends.
#[derive(Clone, Copy)]
pub enum Ending<'a> {
    /// All that was expected stands there; this is its last token.
    Done(Piece<'a>),
    /// This token cannot stand there.
    Stuck(Piece<'a>),
    /// The token at this offset is too deep.
    TooDeep(usize),
    /// No token begins at this offset.
    NoToken(usize),
    /// Only white space and comments stand there.
    End,
}

/// Follows the tokens from the place on.
pub fn follow<'a>(
    text: &'a [u8],
    from: usize,
    modal: bool,
    machine: &mut Machine,
) -> Result<Ending<'a>, NoMemory>
    requires within { from ≤ length text.now }
    requires expects { is_open (stack_now machine.old) ≡ true }
    requires shallow { AreWithin 501 (stack_now machine.old) }
    ensures { IfOk result (HasEnding modal text.now from (stack_now machine.old) (stack_now machine.new)) }
{
    let mut place = from;
    loop {
        let piece = match next_piece(text, place) {
            Ok(Some(piece)) => piece,
            Ok(None) => return Ok(Ending::End),
            Err(fault) => return Ok(Ending::NoToken(fault.offset)),
        };
        match machine.step(modal, piece.terminal)? {
            Step::Onward => {}
            Step::TooDeep => return Ok(Ending::TooDeep(piece.start)),
            Step::Stuck => return Ok(Ending::Stuck(piece)),
        }
        if machine.is_empty() {
            return Ok(Ending::Done(piece));
        }
        place = piece.end;
    }
}
