//! Atoms and formulas from tokens. As in `term_reader` each part tests its nesting, so the recursion ends within 500 levels.
//! Chains are read by loops.

ghost use Rattle.std.specs.Prelude.{◌≡◌, ◌<◌, ◌≤◌, ◌==◌, ◌++◌, ◌∷◌, [], Bool, List, ℕ, IfErr, IfOk, OnOk, None, Some, false, length};
ghost use Rattle.tptp_reader.specs.Expecting as way;
ghost use Rattle.tptp_reader.specs.Failing.{Missing, SettlesAt, SettlesBehind, SettlesNext, SettlesTo, quantifier_parts, side_part};
ghost use Rattle.tptp_reader.specs.Standing.{AtomRead, BinaryRead, ChainRead, EndRead, FormulaRead, InnerRead, IsClosed, RightRead, SideRead, UnitRead, VariablesRead, binary_in, chain_in, is_chain, prefix_in, truth_in, variable_in};
ghost use Rattle.tptp_reader.specs.declared.formula_reader.Prefix.TheVariants as prefix;
ghost use Rattle.tptp_reader.specs.SourceView.{the_source};
ghost use Rattle.tptp_reader.specs.Spans.{Span};
ghost use Rattle.tptp_reader.specs.TermView.{the_source_term};
ghost use Rattle.tptp_reader.specs.TerminalView.{the_terminal};
ghost use Rattle.tptp_reader.specs.Terminals.{close_round, colon, open_square};

use crate::expected::Fixed;
use crate::moves::has_form;
use crate::source::{BinaryKind, ChainKind, Source, SourceBox, SourceList, SourceTerm, TextList};
use crate::stop::Stop;
use crate::term_reader::{inside, next_token, read_term};
use crate::terminal::{Piece, Terminal};
use cop_base::Text;
use std::alloc::{AllocFailed, Global};

fn is_equal(x: Terminal) -> bool
    ensures { result ≡ (way.form (the_terminal x.entry) == 1) }
{
    matches!(x, Terminal::Equal)
}

fn is_unequal(x: Terminal) -> bool
    ensures { result ≡ (way.form (the_terminal x.entry) == 2) }
{
    matches!(x, Terminal::Unequal)
}

fn truth_of(x: Terminal) -> Option<bool>
    ensures { result ≡ truth_in (the_terminal x.entry) }
{
    match x {
        Terminal::Dollar(word) => {
            if word == b"$true".as_slice() {
                Some(true)
            } else if word == b"$false".as_slice() {
                Some(false)
            } else {
                None
            }
        }
        _ => None,
    }
}

// The right side of an equation, from its sign on.
fn read_right<'a>(
    alloc: Global,
    text: &'a [u8],
    depth: u32,
    sign: Piece<'a>,
) -> Result<(SourceTerm, Piece<'a>), Stop>
    requires { sign.end ≤ length text.now }
    ensures read { IfOk result (RightRead text.now depth sign.entry) }
    ensures settles { (modal : Bool) → SettlesBehind modal text.now (way.term depth ∷ []) sign.entry.end result }
    ensures onward { IfOk result (λ r. sign.entry.end ≤ r.1.end) }
    ensures within { IfOk result (λ r. r.1.end ≤ length text.now) }
{
    let start = next_token(text, sign.end)?;
    read_term(alloc, text, depth, start)
}

// An atom, or an equation with this term on its left.
fn read_side<'a>(
    alloc: Global,
    text: &'a [u8],
    depth: u32,
    left: SourceTerm,
    sign: Piece<'a>,
) -> Result<(Source, Piece<'a>), Stop>
    requires { sign.end ≤ length text.now }
    ensures read { IfOk result (SideRead text.now depth (the_source_term left) sign.entry) }
    ensures settles { (modal : Bool) → SettlesAt modal text.now (side_part (the_source_term left) depth ∷ []) sign.entry result }
    ensures onward { IfOk result (λ r. sign.entry.end ≤ r.1.end) }
    ensures within { IfOk result (λ r. r.1.end ≤ length text.now) }
{
    if is_equal(sign.terminal) {
        let (right, after) = read_right(alloc, text, depth, sign)?;
        return Ok((Source::Equal(left, right), after));
    }
    if is_unequal(sign.terminal) {
        let (right, after) = read_right(alloc, text, depth, sign)?;
        return Ok((Source::Unequal(left, right), after));
    }
    match left {
        SourceTerm::Fun(name, args) => Ok((Source::Atom(name, args), sign)),
        SourceTerm::Var(_) => Err(Stop::NotThere),
    }
}

/// `$true`, `$false`, an atom or an equation.
pub fn read_atom<'a>(
    alloc: Global,
    text: &'a [u8],
    depth: u32,
    p: Piece<'a>,
) -> Result<(Source, Piece<'a>), Stop>
    requires { p.end ≤ length text.now }
    ensures read { IfOk result (AtomRead text.now depth p.entry) }
    ensures settles { (modal : Bool) → SettlesAt modal text.now (way.atom depth ∷ []) p.entry result }
    ensures onward { IfOk result (λ r. p.entry.end < r.1.end) }
    ensures within { IfOk result (λ r. r.1.end ≤ length text.now) }
{
    if let Some(holds) = truth_of(p.terminal) {
        inside(depth)?;
        let next = next_token(text, p.end)?;
        if holds {
            return Ok((Source::True, next));
        }
        return Ok((Source::False, next));
    }
    let (left, sign) = read_term(alloc, text, depth, p)?;
    read_side(alloc, text, depth, left, sign)
}

// The token behind the bracket that closes.
fn behind_closing<'a>(text: &'a [u8], close: Piece<'a>) -> Result<Piece<'a>, Stop>
    requires { close.end ≤ length text.now }
    ensures read { IfOk result (Span text.now close.entry (close_round ∷ [])) }
    ensures settles { (modal : Bool) (d : ℕ) → SettlesTo modal text.now (way.this way.a_closing d ∷ []) close.entry result }
    ensures onward { IfOk result (λ q. close.entry.end < q.end) }
    ensures within { IfOk result (λ q. q.end ≤ length text.now) }
{
    if !has_form(Fixed::Closing, close.terminal) {
        return Err(Stop::NotThere);
    }
    next_token(text, close.end)
}

/// The formula, and the token behind the bracket that closes.
pub fn closed<'a>(
    text: &'a [u8],
    source: Source,
    close: Piece<'a>,
) -> Result<(Source, Piece<'a>), Stop>
    requires { close.end ≤ length text.now }
    ensures read { IfOk result (IsClosed text.now (the_source source) close.entry) }
    ensures settles { (modal : Bool) (d : ℕ) → SettlesAt modal text.now (way.this way.a_closing d ∷ []) close.entry result }
    ensures onward { IfOk result (λ r. close.entry.end < r.1.end) }
    ensures within { IfOk result (λ r. r.1.end ≤ length text.now) }
{
    let after = behind_closing(text, close)?;
    Ok((source, after))
}

/// How a unit begins that is no atom.
#[derive(Clone, Copy)]
pub enum Prefix {
    Bracket,
    Negation,
    Universal,
    Existential,
    Necessity,
    Possibility,
}

fn prefix_of(modal: bool, x: Terminal) -> Option<Prefix>
    ensures { result ≡ prefix_in modal (the_terminal x.entry) }
{
    match x {
        Terminal::OpenRound => Some(Prefix::Bracket),
        Terminal::Tilde => Some(Prefix::Negation),
        Terminal::Exclamation => Some(Prefix::Universal),
        Terminal::Question => Some(Prefix::Existential),
        Terminal::Hash(word) => {
            if !modal {
                None
            } else if word == b"#box".as_slice() {
                Some(Prefix::Necessity)
            } else if word == b"#dia".as_slice() {
                Some(Prefix::Possibility)
            } else {
                None
            }
        }
        _ => None,
    }
}

fn read_variable(alloc: Global, x: Terminal) -> Result<Text, Stop>
    ensures name { IfOk result (λ t. variable_in (the_terminal x.entry) ≡ Some t) }
    ensures none { IfErr result (Missing (variable_in (the_terminal x.entry) ≡ None)) }
{
    match x {
        Terminal::Upper(name) => Ok(Text::new(alloc, name)?),
        _ => Err(Stop::NotThere),
    }
}

fn push_variable(alloc: Global, names: &mut TextList, x: Terminal) -> Result<(), Stop>
    ensures pushed { OnOk result ((t : List ℕ) × (variable_in (the_terminal x.entry) ≡ Some t)
        × (names.new ≡ names.old ++ t ∷ [])) }
    ensures none { IfErr result (Missing (variable_in (the_terminal x.entry) ≡ None)) }
{
    let name = read_variable(alloc, x)?;
    names.push(name)?;
    Ok(())
}

fn closes_square(x: Terminal) -> bool
    ensures { result ≡ (way.form (the_terminal x.entry) == 13) }
{
    matches!(x, Terminal::CloseSquare)
}

// The token behind `]` and `:`.
fn quantifier_end<'a>(text: &'a [u8], square: Piece<'a>) -> Result<Piece<'a>, Stop>
    requires { square.end ≤ length text.now }
    ensures read { IfOk result (EndRead text.now square.entry) }
    ensures settles { (way.form (the_terminal square.entry.terminal) == 14) ≡ false
        → (modal : Bool) (d : ℕ) → SettlesTo modal text.now (way.variables d ∷ []) square.entry result }
    ensures onward { IfOk result (λ q. square.entry.end < q.end) }
    ensures within { IfOk result (λ q. q.end ≤ length text.now) }
{
    let colon = next_token(text, square.end)?;
    if !closes_square(square.terminal) {
        return Err(Stop::NotThere);
    }
    if !has_form(Fixed::Colon, colon.terminal) {
        return Err(Stop::NotThere);
    }
    next_token(text, colon.end)
}

// The token behind the quantifier's `[`.
fn behind_square<'a>(text: &'a [u8], p: Piece<'a>) -> Result<Piece<'a>, Stop>
    requires { p.end ≤ length text.now }
    ensures read { IfOk result (Span text.now p.entry (the_terminal p.entry.terminal ∷ open_square ∷ [])) }
    ensures settles { (modal : Bool) (d : ℕ) → SettlesNext modal text.now (way.this way.a_square d ∷ []) p.entry.end result }
    ensures onward { IfOk result (λ q. p.entry.end < q.end) }
    ensures within { IfOk result (λ q. q.end ≤ length text.now) }
{
    let square = next_token(text, p.end)?;
    if !has_form(Fixed::Square, square.terminal) {
        return Err(Stop::NotThere);
    }
    next_token(text, square.end)
}

// The variables of the quantifier, and the token behind its `:`.
fn read_variables<'a>(
    alloc: Global,
    text: &'a [u8],
    p: Piece<'a>,
) -> Result<(TextList, Piece<'a>), Stop>
    requires { p.end ≤ length text.now }
    ensures read { IfOk result (VariablesRead text.now p.entry) }
    ensures settles { (modal : Bool) (d : ℕ) → SettlesBehind modal text.now (quantifier_parts d) p.entry.end result }
    ensures onward { IfOk result (λ r. p.entry.end < r.1.end) }
    ensures within { IfOk result (λ r. r.1.end ≤ length text.now) }
{
    let first = behind_square(text, p)?;
    let mut here = next_token(text, first.end)?;
    let mut names = TextList::new(alloc);
    push_variable(alloc, &mut names, first.terminal)?;
    'variables: loop {
        if !has_form(Fixed::Comma, here.terminal) {
            let after = quantifier_end(text, here)?;
            return Ok((names, after));
        }
        let next = next_token(text, here.end)?;
        push_variable(alloc, &mut names, next.terminal)?;
        here = next_token(text, next.end)?;
    }
}

// The token behind the `:` of a modal operator.
fn behind_operator<'a>(text: &'a [u8], p: Piece<'a>) -> Result<Piece<'a>, Stop>
    requires { p.end ≤ length text.now }
    ensures read { IfOk result (Span text.now p.entry (the_terminal p.entry.terminal ∷ colon ∷ [])) }
    ensures settles { (modal : Bool) (d : ℕ) → SettlesNext modal text.now (way.this way.a_colon d ∷ []) p.entry.end result }
    ensures onward { IfOk result (λ q. p.entry.end < q.end) }
    ensures within { IfOk result (λ q. q.end ≤ length text.now) }
{
    let colon = next_token(text, p.end)?;
    if !has_form(Fixed::Colon, colon.terminal) {
        return Err(Stop::NotThere);
    }
    next_token(text, colon.end)
}

fn chain_of(x: Terminal) -> Option<ChainKind>
    ensures { result ≡ chain_in (the_terminal x.entry) }
{
    match x {
        Terminal::Ampersand => Some(ChainKind::And),
        Terminal::Bar => Some(ChainKind::Or),
        _ => None,
    }
}

fn is_chain(kind: ChainKind, x: Terminal) -> bool
    ensures { result ≡ is_chain kind (the_terminal x.entry) }
{
    match x {
        Terminal::Ampersand => matches!(kind, ChainKind::And),
        Terminal::Bar => matches!(kind, ChainKind::Or),
        _ => false,
    }
}

fn binary_of(x: Terminal) -> Option<BinaryKind>
    ensures { result ≡ binary_in (the_terminal x.entry) }
{
    match x {
        Terminal::Implies => Some(BinaryKind::Imp),
        Terminal::Implied => Some(BinaryKind::If),
        Terminal::Equivalent => Some(BinaryKind::Iff),
        Terminal::Inequivalent => Some(BinaryKind::Xor),
        Terminal::Nor => Some(BinaryKind::Nor),
        Terminal::Nand => Some(BinaryKind::Nand),
        _ => None,
    }
}

#[cycle(read_tree)]
fn read_unit<'a>(
    alloc: Global,
    text: &'a [u8],
    modal: bool,
    depth: u32,
    p: Piece<'a>,
) -> Result<(Source, Piece<'a>), Stop>
    requires { p.end ≤ length text.now }
    ensures read { IfOk result (UnitRead modal text.now depth p.entry) }
    ensures settles { SettlesAt modal text.now (way.unit depth ∷ []) p.entry result }
    ensures onward { IfOk result (λ r. p.entry.end < r.1.end) }
    ensures within { IfOk result (λ r. r.1.end ≤ length text.now) }
{
    let Some(prefix) = prefix_of(modal, p.terminal) else {
        return read_atom(alloc, text, depth, p);
    };
    match prefix {
        Prefix::Bracket => read_bracketed(alloc, text, modal, depth, p),
        Prefix::Negation => read_negation(alloc, text, modal, depth, p),
        Prefix::Universal => read_universal(alloc, text, modal, depth, p),
        Prefix::Existential => read_existential(alloc, text, modal, depth, p),
        Prefix::Necessity => read_necessity(alloc, text, modal, depth, p),
        Prefix::Possibility => read_possibility(alloc, text, modal, depth, p),
    }
}

#[cycle(read_tree)]
fn read_bracketed<'a>(
    alloc: Global,
    text: &'a [u8],
    modal: bool,
    depth: u32,
    p: Piece<'a>,
) -> Result<(Source, Piece<'a>), Stop>
    requires within { p.end ≤ length text.now }
    requires prefix { prefix_in modal (the_terminal p.terminal) ≡ Some prefix.Bracket }
    ensures read { IfOk result (UnitRead modal text.now depth p.entry) }
    ensures settles { SettlesAt modal text.now (way.unit depth ∷ []) p.entry result }
    ensures onward { IfOk result (λ r. p.entry.end < r.1.end) }
    ensures within { IfOk result (λ r. r.1.end ≤ length text.now) }
{
    let inner = inside(depth)?;
    let start = next_token(text, p.end)?;
    let (source, close) = read_tree(alloc, text, modal, inner, start)?;
    closed(text, source, close)
}

// A unit inside of another one.
#[cycle(read_tree)]
fn read_inner<'a>(
    alloc: Global,
    text: &'a [u8],
    modal: bool,
    depth: u32,
    p: Piece<'a>,
) -> Result<(SourceBox, Piece<'a>), Stop>
    requires { p.end ≤ length text.now }
    ensures read { IfOk result (InnerRead modal text.now depth p.entry) }
    ensures settles { SettlesAt modal text.now (way.unit depth ∷ []) p.entry result }
    ensures onward { IfOk result (λ r. p.entry.end < r.1.end) }
    ensures within { IfOk result (λ r. r.1.end ≤ length text.now) }
{
    let (source, after) = read_unit(alloc, text, modal, depth, p)?;
    let inner = SourceBox::new(alloc, source)?;
    Ok((inner, after))
}

#[cycle(read_tree)]
fn read_negation<'a>(
    alloc: Global,
    text: &'a [u8],
    modal: bool,
    depth: u32,
    p: Piece<'a>,
) -> Result<(Source, Piece<'a>), Stop>
    requires within { p.end ≤ length text.now }
    requires prefix { prefix_in modal (the_terminal p.terminal) ≡ Some prefix.Negation }
    ensures read { IfOk result (UnitRead modal text.now depth p.entry) }
    ensures settles { SettlesAt modal text.now (way.unit depth ∷ []) p.entry result }
    ensures onward { IfOk result (λ r. p.entry.end < r.1.end) }
    ensures within { IfOk result (λ r. r.1.end ≤ length text.now) }
{
    let below = inside(depth)?;
    let start = next_token(text, p.end)?;
    let (inner, after) = read_inner(alloc, text, modal, below, start)?;
    Ok((Source::Not(inner), after))
}

#[cycle(read_tree)]
fn read_universal<'a>(
    alloc: Global,
    text: &'a [u8],
    modal: bool,
    depth: u32,
    p: Piece<'a>,
) -> Result<(Source, Piece<'a>), Stop>
    requires within { p.end ≤ length text.now }
    requires prefix { prefix_in modal (the_terminal p.terminal) ≡ Some prefix.Universal }
    ensures read { IfOk result (UnitRead modal text.now depth p.entry) }
    ensures settles { SettlesAt modal text.now (way.unit depth ∷ []) p.entry result }
    ensures onward { IfOk result (λ r. p.entry.end < r.1.end) }
    ensures within { IfOk result (λ r. r.1.end ≤ length text.now) }
{
    let below = inside(depth)?;
    let (names, start) = read_variables(alloc, text, p)?;
    let (inner, after) = read_inner(alloc, text, modal, below, start)?;
    Ok((Source::All(names, inner), after))
}

#[cycle(read_tree)]
fn read_existential<'a>(
    alloc: Global,
    text: &'a [u8],
    modal: bool,
    depth: u32,
    p: Piece<'a>,
) -> Result<(Source, Piece<'a>), Stop>
    requires within { p.end ≤ length text.now }
    requires prefix { prefix_in modal (the_terminal p.terminal) ≡ Some prefix.Existential }
    ensures read { IfOk result (UnitRead modal text.now depth p.entry) }
    ensures settles { SettlesAt modal text.now (way.unit depth ∷ []) p.entry result }
    ensures onward { IfOk result (λ r. p.entry.end < r.1.end) }
    ensures within { IfOk result (λ r. r.1.end ≤ length text.now) }
{
    let below = inside(depth)?;
    let (names, start) = read_variables(alloc, text, p)?;
    let (inner, after) = read_inner(alloc, text, modal, below, start)?;
    Ok((Source::Ex(names, inner), after))
}

#[cycle(read_tree)]
fn read_necessity<'a>(
    alloc: Global,
    text: &'a [u8],
    modal: bool,
    depth: u32,
    p: Piece<'a>,
) -> Result<(Source, Piece<'a>), Stop>
    requires within { p.end ≤ length text.now }
    requires prefix { prefix_in modal (the_terminal p.terminal) ≡ Some prefix.Necessity }
    ensures read { IfOk result (UnitRead modal text.now depth p.entry) }
    ensures settles { SettlesAt modal text.now (way.unit depth ∷ []) p.entry result }
    ensures onward { IfOk result (λ r. p.entry.end < r.1.end) }
    ensures within { IfOk result (λ r. r.1.end ≤ length text.now) }
{
    let below = inside(depth)?;
    let start = behind_operator(text, p)?;
    let (inner, after) = read_inner(alloc, text, modal, below, start)?;
    Ok((Source::Nec(inner), after))
}

#[cycle(read_tree)]
fn read_possibility<'a>(
    alloc: Global,
    text: &'a [u8],
    modal: bool,
    depth: u32,
    p: Piece<'a>,
) -> Result<(Source, Piece<'a>), Stop>
    requires within { p.end ≤ length text.now }
    requires prefix { prefix_in modal (the_terminal p.terminal) ≡ Some prefix.Possibility }
    ensures read { IfOk result (UnitRead modal text.now depth p.entry) }
    ensures settles { SettlesAt modal text.now (way.unit depth ∷ []) p.entry result }
    ensures onward { IfOk result (λ r. p.entry.end < r.1.end) }
    ensures within { IfOk result (λ r. r.1.end ≤ length text.now) }
{
    let below = inside(depth)?;
    let start = behind_operator(text, p)?;
    let (inner, after) = read_inner(alloc, text, modal, below, start)?;
    Ok((Source::Poss(inner), after))
}

/// A formula, and the token behind it.
#[cycle(read_tree)]
pub fn read_tree<'a>(
    alloc: Global,
    text: &'a [u8],
    modal: bool,
    depth: u32,
    p: Piece<'a>,
) -> Result<(Source, Piece<'a>), Stop>
    requires { p.end ≤ length text.now }
    ensures read { IfOk result (FormulaRead modal text.now depth p.entry) }
    ensures settles { SettlesAt modal text.now (way.formula depth ∷ []) p.entry result }
    ensures onward { IfOk result (λ r. p.entry.end < r.1.end) }
    ensures within { IfOk result (λ r. r.1.end ≤ length text.now) }
{
    let (first, sign) = read_unit(alloc, text, modal, depth, p)?;
    if let Some(kind) = chain_of(sign.terminal) {
        return read_chain(alloc, text, modal, depth, kind, first, sign);
    }
    match binary_of(sign.terminal) {
        Some(kind) => read_binary(alloc, text, modal, depth, kind, first, sign),
        None => Ok((first, sign)),
    }
}

// A formula of two units, from the connective behind the first one on.
#[cycle(read_tree)]
fn read_binary<'a>(
    alloc: Global,
    text: &'a [u8],
    modal: bool,
    depth: u32,
    kind: BinaryKind,
    first: Source,
    sign: Piece<'a>,
) -> Result<(Source, Piece<'a>), Stop>
    requires { sign.end ≤ length text.now }
    ensures read { IfOk result (BinaryRead modal text.now depth kind (the_source first) sign.entry) }
    ensures settles { SettlesBehind modal text.now (way.unit depth ∷ []) sign.entry.end result }
    ensures onward { IfOk result (λ r. sign.entry.end < r.1.end) }
    ensures within { IfOk result (λ r. r.1.end ≤ length text.now) }
{
    let left = SourceBox::new(alloc, first)?;
    let start = next_token(text, sign.end)?;
    let (right, after) = read_inner(alloc, text, modal, depth, start)?;
    Ok((Source::Binary(kind, left, right), after))
}

// A chain, from the connective behind its first unit on.
#[cycle(read_tree)]
fn read_chain<'a>(
    alloc: Global,
    text: &'a [u8],
    modal: bool,
    depth: u32,
    kind: ChainKind,
    first: Source,
    sign: Piece<'a>,
) -> Result<(Source, Piece<'a>), Stop>
    requires { sign.end ≤ length text.now }
    ensures read { IfOk result (ChainRead modal text.now depth kind (the_source first) sign.entry) }
    ensures settles { SettlesBehind modal text.now (way.unit depth ∷ way.chain_rest kind depth ∷ []) sign.entry.end result }
    ensures onward { IfOk result (λ r. sign.entry.end < r.1.end) }
    ensures within { IfOk result (λ r. r.1.end ≤ length text.now) }
{
    let mut units = SourceList::new(alloc);
    units.push(first)?;
    let mut here = sign;
    loop {
        let start = next_token(text, here.end)?;
        let (unit, next) = read_unit(alloc, text, modal, depth, start)?;
        units.push(unit)?;
        if !is_chain(kind, next.terminal) {
            return Ok((Source::Chain(kind, units), next));
        }
        here = next;
    }
}
