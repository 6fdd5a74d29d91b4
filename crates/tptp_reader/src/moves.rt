//! What a token begins in the place of a part that is expected.

ghost use Rattle.std.specs.Prelude.{ℕ, ◌==◌, ◌≡◌, ◌≤◌, ◌∷◌, [], suc};
ghost use Rattle.std.specs.List.{list_all};
ghost use Rattle.calculus.specs.Text as text;
ghost use Rattle.tptp_lex.specs.Tokens.{is_digits};
ghost use Rattle.tptp_reader.specs.Expecting as way;
ghost use Rattle.tptp_reader.specs.ExpectedView.{the_expected, the_fixed, the_move, the_next, the_rest};
ghost use Rattle.tptp_reader.specs.Following.{nesting_of};
ghost use Rattle.tptp_reader.specs.TerminalView.{the_terminal};

use crate::expected::{Expected, Fixed, Move, Parts, Rest};
use crate::source::ChainKind;
use crate::terminal::Terminal;
use calculus::byte::is_digit;

// The nesting inside of a place with this nesting. No part waits deeper than 501, since no token deeper than 500 is taken.
fn inside(nesting: u32) -> u32
    requires { nesting ≤ 501 }
    ensures { result ≡ suc nesting }
{
    nesting + 1
}

fn term_parts(d: u32, x: Terminal) -> Option<Parts>
    ensures { the_move d result ≡ way.term_move d (the_terminal x.entry) }
{
    match x {
        Terminal::Upper(_) => Some(Parts::Nothing),
        Terminal::Lower(_) | Terminal::Quoted(_) => Some(Parts::One(Expected::SomeArguments(d))),
        _ => None,
    }
}

fn arguments_parts(d: u32, x: Terminal) -> Option<Parts>
    ensures { the_move d result ≡ way.arguments_move d (the_terminal x.entry) }
{
    match x {
        Terminal::Comma => Some(Parts::Two(Expected::Term(d), Expected::Arguments(d))),
        Terminal::CloseRound => Some(Parts::Nothing),
        _ => None,
    }
}

fn some_arguments_parts(d: u32, x: Terminal) -> Option<Parts>
    requires { d ≤ 501 }
    ensures { the_move d result ≡ way.some_arguments_move d (the_terminal x.entry) }
{
    let inner = inside(d);
    match x {
        Terminal::OpenRound => Some(Parts::Two(Expected::Term(inner), Expected::Arguments(inner))),
        _ => None,
    }
}

fn equation_parts(d: u32, x: Terminal) -> Option<Parts>
    ensures { the_move d result ≡ way.equation_move d (the_terminal x.entry) }
{
    match x {
        Terminal::Equal | Terminal::Unequal => Some(Parts::One(Expected::Term(d))),
        _ => None,
    }
}

fn is_truth(word: &[u8]) -> bool
    ensures { result ≡ way.is_truth word.now }
{
    word == b"$true".as_slice() || word == b"$false".as_slice()
}

fn atom_parts(d: u32, x: Terminal) -> Option<Parts>
    ensures { the_move d result ≡ way.atom_move d (the_terminal x.entry) }
{
    match x {
        Terminal::Dollar(word) => {
            if is_truth(word) {
                Some(Parts::Nothing)
            } else {
                None
            }
        }
        Terminal::Upper(_) => Some(Parts::One(Expected::Equation(d))),
        Terminal::Lower(_) | Terminal::Quoted(_) => {
            Some(Parts::Two(Expected::SomeArguments(d), Expected::SomeEquation(d)))
        }
        _ => None,
    }
}

fn variables_parts(d: u32, x: Terminal) -> Option<Parts>
    ensures { the_move d result ≡ way.variables_move d (the_terminal x.entry) }
{
    match x {
        Terminal::Comma => Some(Parts::Two(
            Expected::This(Fixed::Upper, d),
            Expected::Variables(d),
        )),
        Terminal::CloseSquare => Some(Parts::One(Expected::This(Fixed::Colon, d))),
        _ => None,
    }
}

fn is_modality(word: &[u8]) -> bool
    ensures { result ≡ way.is_modality word.now }
{
    word == b"#box".as_slice() || word == b"#dia".as_slice()
}

fn unit_parts(modal: bool, d: u32, x: Terminal) -> Option<Parts>
    requires { d ≤ 501 }
    ensures { the_move d result ≡ way.unit_move modal d (the_terminal x.entry) }
{
    let inner = inside(d);
    match x {
        Terminal::OpenRound => Some(Parts::Two(
            Expected::Formula(inner),
            Expected::This(Fixed::Closing, inner),
        )),
        Terminal::Tilde => Some(Parts::One(Expected::Unit(inner))),
        Terminal::Exclamation | Terminal::Question => Some(Parts::Four(
            Expected::This(Fixed::Square, d),
            Expected::This(Fixed::Upper, d),
            Expected::Variables(d),
            Expected::Unit(inner),
        )),
        Terminal::Hash(word) => {
            if modal && is_modality(word) {
                Some(Parts::Two(Expected::This(Fixed::Colon, d), Expected::Unit(inner)))
            } else {
                None
            }
        }
        Terminal::Dollar(_) | Terminal::Upper(_) | Terminal::Lower(_) | Terminal::Quoted(_) => {
            atom_parts(d, x)
        }
        _ => None,
    }
}

fn formula_rest_parts(d: u32, x: Terminal) -> Option<Parts>
    ensures { the_move d result ≡ way.formula_rest_move d (the_terminal x.entry) }
{
    match x {
        Terminal::Ampersand => Some(Parts::Two(
            Expected::Unit(d),
            Expected::ChainRest(ChainKind::And, d),
        )),
        Terminal::Bar => Some(Parts::Two(Expected::Unit(d), Expected::ChainRest(ChainKind::Or, d))),
        Terminal::Implies
        | Terminal::Implied
        | Terminal::Equivalent
        | Terminal::Inequivalent
        | Terminal::Nor
        | Terminal::Nand => Some(Parts::One(Expected::Unit(d))),
        _ => None,
    }
}

fn chain_rest_parts(kind: ChainKind, d: u32, x: Terminal) -> Option<Parts>
    ensures { the_move d result ≡ way.chain_rest_move kind d (the_terminal x.entry) }
{
    match (kind, x) {
        (ChainKind::And, Terminal::Ampersand) | (ChainKind::Or, Terminal::Bar) => {
            Some(Parts::Two(Expected::Unit(d), Expected::ChainRest(kind, d)))
        }
        _ => None,
    }
}

fn unsigned_parts(d: u32, x: Terminal) -> Option<Parts>
    requires { d ≤ 501 }
    ensures { the_move d result ≡ way.unsigned_move d (the_terminal x.entry) }
{
    let inner = inside(d);
    match x {
        Terminal::OpenRound => Some(Parts::Two(
            Expected::Atom(inner),
            Expected::This(Fixed::Closing, inner),
        )),
        Terminal::Dollar(_) | Terminal::Upper(_) | Terminal::Lower(_) | Terminal::Quoted(_) => {
            atom_parts(d, x)
        }
        _ => None,
    }
}

fn literal_parts(d: u32, x: Terminal) -> Option<Parts>
    requires { d ≤ 501 }
    ensures { the_move d result ≡ way.literal_move d (the_terminal x.entry) }
{
    match x {
        Terminal::Tilde => {
            let inner = inside(d);
            Some(Parts::One(Expected::Unsigned(inner)))
        }
        Terminal::OpenRound
        | Terminal::Dollar(_)
        | Terminal::Upper(_)
        | Terminal::Lower(_)
        | Terminal::Quoted(_) => unsigned_parts(d, x),
        _ => None,
    }
}

fn literals_rest_parts(d: u32, x: Terminal) -> Option<Parts>
    ensures { the_move d result ≡ way.literals_rest_move d (the_terminal x.entry) }
{
    match x {
        Terminal::Bar => Some(Parts::Two(Expected::Literal(d), Expected::LiteralsRest(d))),
        _ => None,
    }
}

fn stop_parts(x: Terminal) -> Option<Parts>
    ensures { the_move 0 result ≡ way.stop_move (the_terminal x.entry) }
{
    match x {
        Terminal::Comma | Terminal::CloseRound => Some(Parts::Nothing),
        _ => None,
    }
}

fn clause_rest_parts(x: Terminal) -> Option<Parts>
    ensures { the_move 1 result ≡ way.clause_rest_move (the_terminal x.entry) }
{
    match x {
        Terminal::Bar => Some(Parts::Three(
            Expected::Literal(1),
            Expected::LiteralsRest(1),
            Expected::This(Fixed::Closing, 1),
        )),
        Terminal::CloseRound => Some(Parts::One(Expected::LiteralsRest(0))),
        _ => None,
    }
}

// The move to these parts, and then to the rest.
fn and_then(nesting: u32, parts: Option<Parts>, rest: Rest) -> Option<Move>
    ensures { the_next result ≡ way.before (the_rest nesting rest) (the_move nesting parts) }
{
    let parts = parts?;
    Some(Move {
        nesting,
        parts,
        rest,
    })
}

// The move to these parts.
fn only(nesting: u32, parts: Option<Parts>) -> Option<Move>
    ensures { the_next result ≡ the_move nesting parts }
{
    let parts = parts?;
    Some(Move {
        nesting,
        parts,
        rest: Rest::Nothing,
    })
}

fn clause_move(x: Terminal) -> Option<Move>
    ensures { the_next result ≡ way.clause_move (the_terminal x.entry) }
{
    match x {
        Terminal::OpenRound => only(0, Some(Parts::One(Expected::ClauseOpen))),
        Terminal::Tilde => only(
            0,
            Some(Parts::Two(Expected::Unsigned(1), Expected::LiteralsRest(0))),
        ),
        Terminal::Dollar(_) | Terminal::Upper(_) | Terminal::Lower(_) | Terminal::Quoted(_) => {
            and_then(0, atom_parts(0, x), Rest::Literals)
        }
        _ => None,
    }
}

fn clause_open_move(x: Terminal) -> Option<Move>
    ensures { the_next result ≡ way.clause_open_move (the_terminal x.entry) }
{
    let closing = Expected::This(Fixed::Closing, 1);
    match x {
        Terminal::Tilde => only(
            1,
            Some(Parts::Three(Expected::Unsigned(2), Expected::LiteralsRest(1), closing)),
        ),
        Terminal::OpenRound => only(
            1,
            Some(Parts::Four(
                Expected::Atom(2),
                Expected::This(Fixed::Closing, 2),
                Expected::LiteralsRest(1),
                closing,
            )),
        ),
        Terminal::Dollar(_) | Terminal::Upper(_) | Terminal::Lower(_) | Terminal::Quoted(_) => {
            and_then(1, atom_parts(1, x), Rest::Clause)
        }
        _ => None,
    }
}

// The words with which an item begins.
fn word_move(modal: bool, word: &[u8]) -> Option<Move>
    ensures { the_next result ≡ way.word_move modal word.now }
{
    if word == b"include".as_slice() {
        only(0, Some(Parts::Include))
    } else if word == b"fof".as_slice() {
        if modal {
            None
        } else {
            only(0, Some(Parts::Head(Expected::Formula(0))))
        }
    } else if word == b"cnf".as_slice() {
        if modal {
            None
        } else {
            only(0, Some(Parts::Head(Expected::Clause)))
        }
    } else if word == b"qmf".as_slice() && modal {
        only(0, Some(Parts::Head(Expected::Formula(0))))
    } else {
        None
    }
}

fn items_move(modal: bool, x: Terminal) -> Option<Move>
    ensures { the_next result ≡ way.items_move modal (the_terminal x.entry) }
{
    match x {
        Terminal::Lower(word) => word_move(modal, word),
        _ => None,
    }
}

fn are_digits(bytes: &[u8]) -> bool
    ensures { result ≡ list_all text.is_digit bytes.now }
{
    bytes.iter().all(|b| is_digit(*b))
}

pub fn is_digits(bytes: &[u8]) -> bool
    ensures { result ≡ is_digits bytes.now }
{
    match bytes.split_first() {
        Some((first, after)) => is_digit(*first) && are_digits(after),
        None => false,
    }
}

fn name_parts(x: Terminal) -> Option<Parts>
    ensures { the_move 0 result ≡ way.name_move (the_terminal x.entry) }
{
    match x {
        Terminal::Lower(_) | Terminal::Quoted(_) => Some(Parts::Nothing),
        Terminal::Number(bytes) => {
            if is_digits(bytes) {
                Some(Parts::Nothing)
            } else {
                None
            }
        }
        _ => None,
    }
}

fn after_body_parts(x: Terminal) -> Option<Parts>
    ensures { the_move 0 result ≡ way.after_body_move (the_terminal x.entry) }
{
    match x {
        Terminal::Comma => Some(Parts::One(Expected::FirstNote)),
        Terminal::CloseRound => Some(Parts::Nothing),
        _ => None,
    }
}

fn first_note_parts(x: Terminal) -> Option<Parts>
    ensures { the_move 0 result ≡ way.first_note_move (the_terminal x.entry) }
{
    match x {
        Terminal::OpenRound => Some(Parts::NotesIn(true)),
        Terminal::OpenSquare => Some(Parts::NotesIn(false)),
        Terminal::CloseRound | Terminal::CloseSquare => None,
        _ => Some(Parts::Notes),
    }
}

fn include_rest_parts(x: Terminal) -> Option<Parts>
    ensures { the_move 0 result ≡ way.include_rest_move (the_terminal x.entry) }
{
    match x {
        Terminal::Comma => Some(Parts::Three(
            Expected::This(Fixed::Square, 0),
            Expected::Name,
            Expected::NamesRest,
        )),
        Terminal::CloseRound => Some(Parts::Nothing),
        _ => None,
    }
}

fn names_rest_parts(x: Terminal) -> Option<Parts>
    ensures { the_move 0 result ≡ way.names_rest_move (the_terminal x.entry) }
{
    match x {
        Terminal::Comma => Some(Parts::Two(Expected::Name, Expected::NamesRest)),
        Terminal::CloseSquare => Some(Parts::One(Expected::This(Fixed::Closing, 0))),
        _ => None,
    }
}

/// The token has this form.
pub fn has_form(fixed: Fixed, x: Terminal) -> bool
    ensures { result ≡ (way.form (the_terminal x.entry) == way.form_of (the_fixed fixed)) }
{
    match x {
        Terminal::OpenRound => matches!(fixed, Fixed::Opening),
        Terminal::CloseRound => matches!(fixed, Fixed::Closing),
        Terminal::OpenSquare => matches!(fixed, Fixed::Square),
        Terminal::Comma => matches!(fixed, Fixed::Comma),
        Terminal::Dot => matches!(fixed, Fixed::Dot),
        Terminal::Colon => matches!(fixed, Fixed::Colon),
        Terminal::Lower(_) => matches!(fixed, Fixed::Lower),
        Terminal::Upper(_) => matches!(fixed, Fixed::Upper),
        Terminal::Quoted(_) => matches!(fixed, Fixed::Quoted),
        _ => false,
    }
}

fn this_parts(fixed: Fixed, x: Terminal) -> Option<Parts>
    ensures { (d : ℕ) → the_move d result ≡ way.this_move (way.form (the_terminal x.entry) == way.form_of (the_fixed fixed)) d }
{
    if has_form(fixed, x) {
        Some(Parts::Nothing)
    } else {
        None
    }
}

/// What the token begins in the place of this part, if it may stand there.
pub fn next_move(modal: bool, part: Expected, x: Terminal) -> Option<Move>
    requires { nesting_of (the_expected part) ≤ 501 }
    ensures { the_next result ≡ way.move modal (the_expected part) (the_terminal x.entry) }
{
    match part {
        Expected::This(fixed, d) => only(d, this_parts(fixed, x)),
        Expected::Term(d) => only(d, term_parts(d, x)),
        Expected::Arguments(d) => only(d, arguments_parts(d, x)),
        Expected::SomeArguments(d) => only(d, some_arguments_parts(d, x)),
        Expected::SomeEquation(d) | Expected::Equation(d) => only(d, equation_parts(d, x)),
        Expected::Atom(d) => only(d, atom_parts(d, x)),
        Expected::Variables(d) => only(d, variables_parts(d, x)),
        Expected::Unit(d) => only(d, unit_parts(modal, d, x)),
        Expected::Formula(d) => and_then(d, unit_parts(modal, d, x), Rest::Formula),
        Expected::FormulaRest(d) => only(d, formula_rest_parts(d, x)),
        Expected::ChainRest(kind, d) => only(d, chain_rest_parts(kind, d, x)),
        Expected::Stop => only(0, stop_parts(x)),
        Expected::Literal(d) => only(d, literal_parts(d, x)),
        Expected::Unsigned(d) => only(d, unsigned_parts(d, x)),
        Expected::LiteralsRest(d) => only(d, literals_rest_parts(d, x)),
        Expected::Clause => clause_move(x),
        Expected::ClauseOpen => clause_open_move(x),
        Expected::ClauseRest => only(1, clause_rest_parts(x)),
        Expected::Items => items_move(modal, x),
        Expected::Name => only(0, name_parts(x)),
        Expected::AfterBody => only(0, after_body_parts(x)),
        Expected::FirstNote => only(0, first_note_parts(x)),
        Expected::IncludeRest => only(0, include_rest_parts(x)),
        Expected::NamesRest => only(0, names_rest_parts(x)),
    }
}
