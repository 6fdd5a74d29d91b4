//! What may stand next: the parts of the grammar that are still expected.

ghost use Rattle.std.specs.Prelude.{◌≡◌};
ghost use Rattle.tptp_reader.specs.Expecting as way;
ghost use Rattle.tptp_reader.specs.ExpectedView.{the_expected};

use crate::source::ChainKind;

/// A token of one form.
#[derive(Clone, Copy)]
pub enum Fixed {
    Opening,
    Closing,
    Square,
    Comma,
    Dot,
    Colon,
    Lower,
    Upper,
    Quoted,
}

/// A part of the grammar that may stand next. The number is the nesting of its place.
#[derive(Clone, Copy)]
pub enum Expected {
    This(Fixed, u32),
    Term(u32),
    /// Behind a first argument: the others, and the bracket.
    Arguments(u32),
    /// Behind a word: arguments, or nothing.
    SomeArguments(u32),
    /// Behind a term that may be an atom: an equation's sign and term, or nothing.
    SomeEquation(u32),
    Equation(u32),
    Atom(u32),
    /// Behind a variable of a quantifier.
    Variables(u32),
    Unit(u32),
    Formula(u32),
    /// Behind a formula's first unit.
    FormulaRest(u32),
    /// Behind two units or more of a chain.
    ChainRest(ChainKind, u32),
    /// The `,` or `)` behind a formula.
    Stop,
    Literal(u32),
    /// Behind the `~` of a literal.
    Unsigned(u32),
    LiteralsRest(u32),
    Clause,
    /// Behind a clause's first `(`.
    ClauseOpen,
    /// Behind the atom there.
    ClauseRest,
    Items,
    Name,
    /// Behind the formula of an item.
    AfterBody,
    FirstNote,
    /// Behind the file of an include.
    IncludeRest,
    /// Behind a name of an include.
    NamesRest,
}

/// Parts in the order in which they stand.
#[derive(Clone, Copy)]
pub enum Parts {
    Nothing,
    One(Expected),
    Two(Expected, Expected),
    Three(Expected, Expected, Expected),
    Four(Expected, Expected, Expected, Expected),
    /// An item from behind its first word on, with this body.
    Head(Expected),
    /// An include from behind its first word on.
    Include,
    /// Notes with no open bracket.
    Notes,
    /// Notes with one open bracket, which is round or not.
    NotesIn(bool),
}

/// What is expected behind the parts of a move, in the nesting of the move.
#[derive(Clone, Copy)]
pub enum Rest {
    Nothing,
    Formula,
    Literals,
    Clause,
}

/// What a token begins in the place of a part: its nesting, and what is expected then.
#[derive(Clone, Copy)]
pub struct Move {
    pub nesting: u32,
    pub parts: Parts,
    pub rest: Rest,
}

impl Expected {
    /// Nothing may stand in its place.
    pub fn is_optional(self) -> bool
        ensures { result ≡ way.is_optional (the_expected self) }
    {
        matches!(
            self,
            Expected::SomeArguments(_)
                | Expected::SomeEquation(_)
                | Expected::FormulaRest(_)
                | Expected::ChainRest(_, _)
                | Expected::LiteralsRest(_)
                | Expected::Items
        )
    }

    /// A part of a formula or clause.
    pub fn is_part(self) -> bool
        ensures { result ≡ way.is_part (the_expected self) }
    {
        match self {
            Expected::This(fixed, _) => matches!(
                fixed,
                Fixed::Closing | Fixed::Square | Fixed::Colon | Fixed::Upper
            ),
            Expected::Stop
            | Expected::Items
            | Expected::Name
            | Expected::AfterBody
            | Expected::FirstNote
            | Expected::IncludeRest
            | Expected::NamesRest => false,
            _ => true,
        }
    }

    pub fn is_after_body(self) -> bool
        ensures { result ≡ way.is_after_body (the_expected self) }
    {
        matches!(self, Expected::AfterBody)
    }

    pub fn is_items(self) -> bool
        ensures { result ≡ way.is_items (the_expected self) }
    {
        matches!(self, Expected::Items)
    }
}
