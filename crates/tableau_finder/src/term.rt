//! Terms by number.

// A handle is four times what it names, and one of these.
const IS_VARIABLE: u32 = 0;

const IS_CODE: u32 = 1;

const IS_CELL: u32 = 2;

// A name is four times a symbol, a position or a number, and one of these.
const FUNCTION: u32 = 0;

const EIGENVARIABLE: u32 = 1;

const MARK: u32 = 2;

const OTHER: u32 = 3;

/// The name of a string of marks and strings.
pub(crate) const STRING: u32 = 3;

/// The name of an eigenvariable's home, which is its last part, where there are labels.
pub(crate) const HOME: u32 = 7;

// Spare marks have the numbers from here on.
const FIRST_SPARE: u32 = 2;

/// The base of a clause that is not copied.
pub(crate) const UNCOPIED: u32 = u32::MAX;

/// A term of a clause whose variables are the cells from `base` on, or a cell.
#[derive(Clone, Copy)]
pub(crate) struct Term {
    pub handle: u32,
    pub base: u32,
}

/// Two terms.
#[derive(Clone, Copy)]
pub(crate) struct Pair {
    pub left: Term,
    pub right: Term,
}

/// What a handle names.
#[derive(Clone, Copy)]
pub(crate) enum Named {
    /// The variable of this number.
    Variable(u32),
    /// The term that stands at this place of the clauses' code.
    Code(u32),
    /// The cell.
    Cell(u32),
}

/// What a name is.
#[derive(Clone, Copy)]
pub(crate) enum Name {
    Function(u32),
    Eigenvariable(u32),
    Mark(u32),
    SpareMark(u32),
    String,
    Home,
}

/// What stands at the end of a term's bindings.
#[derive(Clone, Copy)]
pub(crate) enum Shape {
    /// The unbound variable of this cell.
    Free(u32),
    Made(Made),
}

/// A name with so many parts, the first of which stands at the place `first` of the code, or of the cells.
#[derive(Clone, Copy)]
pub(crate) struct Made {
    pub name: u32,
    pub parts: u32,
    pub first: u32,
    pub base: u32,
    pub in_code: bool,
}

pub(crate) fn variable(number: u32) -> u32 {
    number.wrapping_mul(4).wrapping_add(IS_VARIABLE)
}

pub(crate) fn code(place: u32) -> u32 {
    place.wrapping_mul(4).wrapping_add(IS_CODE)
}

pub(crate) fn cell(place: u32) -> Term {
    Term {
        handle: place.wrapping_mul(4).wrapping_add(IS_CELL),
        base: 0,
    }
}

/// What the handle names.
pub(crate) fn name_of(handle: u32) -> Named {
    let number = handle / 4;
    match handle % 4 {
        IS_VARIABLE => Named::Variable(number),
        IS_CODE => Named::Code(number),
        _ => Named::Cell(number),
    }
}

pub(crate) fn function_name(symbol: u32) -> u32 {
    symbol.wrapping_mul(4).wrapping_add(FUNCTION)
}

pub(crate) fn eigenvariable_name(position: u32) -> u32 {
    position.wrapping_mul(4).wrapping_add(EIGENVARIABLE)
}

pub(crate) fn mark_name(position: u32) -> u32 {
    position.wrapping_mul(4).wrapping_add(MARK)
}

pub(crate) fn spare_mark_name(number: u32) -> u32 {
    number
        .wrapping_add(FIRST_SPARE)
        .wrapping_mul(4)
        .wrapping_add(OTHER)
}

/// What the name is.
pub(crate) fn meaning_of(name: u32) -> Name {
    let number = name / 4;
    match name % 4 {
        FUNCTION => Name::Function(number),
        EIGENVARIABLE => Name::Eigenvariable(number),
        MARK => Name::Mark(number),
        _ => match name {
            STRING => Name::String,
            HOME => Name::Home,
            _ => Name::SpareMark(number.wrapping_sub(FIRST_SPARE)),
        },
    }
}
