//! Tableaux of the tests, by arrays that tell their names and instances.

use cop_base::{NoMemory, PosId, SymbolId};
use formula_core::{
    GroundLabel, GroundMark, GroundTable, GroundTerm, GroundTerms, Sign, Value, Values,
};
use std::alloc::Global;
use tableau_core::{
    ClauseInstance, Closing, ClosingList, GroundLiteral, LiteralList, Selection, Side, Tableau,
};

// A value: the empty string, or by its place a character or a term of the case.
#[derive(Clone, Copy)]
pub(crate) enum ValueIs {
    Stay,
    Step(usize),
    Term(usize),
}

// A character, by the position and the value that name it.
#[derive(Clone, Copy)]
pub(crate) enum MarkIs {
    New(u32, Option<ValueIs>),
    Spare(u32),
}

// A term. A spare constant of its own label has the label of all characters of the case.
#[derive(Clone, Copy)]
pub(crate) enum TermIs {
    Common(u32),
    Own(u32),
    Eigen(u32, Option<ValueIs>),
}

// The places from one on to another one.
#[derive(Clone, Copy)]
pub(crate) struct Places {
    from: usize,
    to: usize,
}

pub(crate) fn from_to(from: usize, to: usize) -> Places {
    Places { from, to }
}

// A literal of p with its argument, if it has one. Its label has the characters at some places.
#[derive(Clone, Copy)]
pub(crate) struct LiteralIs {
    sign: Sign,
    argument: Option<usize>,
    label: Places,
}

pub(crate) fn given(argument: Option<usize>, label: Places) -> LiteralIs {
    LiteralIs {
        sign: Sign::T,
        argument,
        label,
    }
}

pub(crate) fn shown(argument: Option<usize>, label: Places) -> LiteralIs {
    LiteralIs {
        sign: Sign::F,
        argument,
        label,
    }
}

// An instance with the values and the literals at some places.
#[derive(Clone, Copy)]
pub(crate) struct InstanceIs {
    side: Side,
    values: Places,
    literals: Places,
}

pub(crate) fn instance_of(side: Side, values: Places, literals: Places) -> InstanceIs {
    InstanceIs {
        side,
        values,
        literals,
    }
}

// A tableau whose start clause has its goals closed by one instance each, by its first literal.
#[derive(Clone, Copy)]
pub(crate) struct Case<'a> {
    pub marks: &'a [MarkIs],
    pub terms: &'a [TermIs],
    pub values: &'a [ValueIs],
    pub literals: &'a [LiteralIs],
    pub start: InstanceIs,
    pub goals: &'a [InstanceIs],
}

// The characters and the terms of a case, by the lists of a table.
#[derive(Drop)]
struct Ground {
    marks: Vec<GroundMark>,
    terms: Vec<GroundTerm>,
}

fn label(
    alloc: Global,
    table: &mut GroundTable,
    ground: &Ground,
    places: Places,
) -> Result<GroundLabel, NoMemory> {
    let mut marks = Vec::new(alloc);
    for place in places.from..places.to {
        if let Some(mark) = ground.marks.get(place) {
            marks.push(*mark)?;
        }
    }
    table.add_marks(marks.as_slice())
}

fn term(ground: &Ground, place: usize) -> Result<GroundTerm, NoMemory> {
    match ground.terms.get(place) {
        Some(term) => Ok(*term),
        None => Err(NoMemory),
    }
}

fn value(
    alloc: Global,
    table: &mut GroundTable,
    ground: &Ground,
    v: ValueIs,
) -> Result<Value, NoMemory> {
    match v {
        ValueIs::Stay => Ok(Value::Steps(table.add_marks(&[])?)),
        ValueIs::Step(place) => {
            let places = from_to(place, place.saturating_add(1));
            let string = label(alloc, table, ground, places)?;
            Ok(Value::Steps(string))
        }
        ValueIs::Term(place) => Ok(Value::Term(term(ground, place)?)),
    }
}

fn values(
    alloc: Global,
    table: &mut GroundTable,
    ground: &Ground,
    all: &[ValueIs],
    places: Places,
) -> Result<Values, NoMemory> {
    let mut values = Vec::new(alloc);
    for place in places.from..places.to {
        if let Some(v) = all.get(place) {
            values.push(value(alloc, table, ground, *v)?)?;
        }
    }
    table.add_values(values.as_slice())
}

fn taken(
    alloc: Global,
    table: &mut GroundTable,
    ground: &Ground,
    v: Option<ValueIs>,
) -> Result<Values, NoMemory> {
    match v {
        Some(v) => values(alloc, table, ground, &[v], from_to(0, 1)),
        None => table.add_values(&[]),
    }
}

fn mark_of(
    alloc: Global,
    table: &mut GroundTable,
    ground: &Ground,
    mark: MarkIs,
) -> Result<GroundMark, NoMemory> {
    match mark {
        MarkIs::New(p, v) => Ok(GroundMark::New(PosId(p), taken(alloc, table, ground, v)?)),
        MarkIs::Spare(k) => Ok(GroundMark::Spare(k)),
    }
}

fn term_of(
    alloc: Global,
    table: &mut GroundTable,
    ground: &Ground,
    term: TermIs,
) -> Result<GroundTerm, NoMemory> {
    match term {
        TermIs::Common(k) => Ok(GroundTerm::Common(k)),
        TermIs::Own(k) => {
            let label = label(alloc, table, ground, from_to(0, ground.marks.len()))?;
            Ok(GroundTerm::Own(k, label))
        }
        TermIs::Eigen(p, v) => Ok(GroundTerm::Eigen(PosId(p), taken(alloc, table, ground, v)?)),
    }
}

fn ground_of(alloc: Global, table: &mut GroundTable, case: &Case) -> Result<Ground, NoMemory> {
    let mut ground = Ground {
        marks: Vec::new(alloc),
        terms: Vec::new(alloc),
    };
    for mark in case.marks {
        let next = mark_of(alloc, table, &ground, *mark)?;
        ground.marks.push(next)?;
    }
    for term in case.terms {
        let next = term_of(alloc, table, &ground, *term)?;
        ground.terms.push(next)?;
    }
    Ok(ground)
}

fn arguments(
    table: &mut GroundTable,
    ground: &Ground,
    argument: Option<usize>,
) -> Result<GroundTerms, NoMemory> {
    match argument {
        Some(place) => table.add_terms(&[term(ground, place)?]),
        None => table.add_terms(&[]),
    }
}

fn literal(
    alloc: Global,
    table: &mut GroundTable,
    ground: &Ground,
    l: LiteralIs,
) -> Result<GroundLiteral, NoMemory> {
    let args = arguments(table, ground, l.argument)?;
    let label = label(alloc, table, ground, l.label)?;
    Ok(GroundLiteral {
        sign: l.sign,
        symbol: SymbolId(0),
        args,
        label,
    })
}

fn literals(
    alloc: Global,
    table: &mut GroundTable,
    ground: &Ground,
    all: &[LiteralIs],
    places: Places,
) -> Result<LiteralList, NoMemory> {
    let mut literals = LiteralList::new(alloc);
    for place in places.from..places.to {
        if let Some(l) = all.get(place) {
            literals.push(literal(alloc, table, ground, *l)?)?;
        }
    }
    Ok(literals)
}

fn selection(alloc: Global, side: Side) -> Result<Selection, NoMemory> {
    let mut selection = Selection::new(alloc);
    selection.push(side)?;
    Ok(selection)
}

fn instance(
    alloc: Global,
    table: &mut GroundTable,
    ground: &Ground,
    case: &Case,
    i: InstanceIs,
) -> Result<ClauseInstance, NoMemory> {
    let selection = selection(alloc, i.side)?;
    let values = values(alloc, table, ground, case.values, i.values)?;
    let literals = literals(alloc, table, ground, case.literals, i.literals)?;
    Ok(ClauseInstance {
        selection,
        values,
        literals,
    })
}

fn goals(
    alloc: Global,
    table: &mut GroundTable,
    ground: &Ground,
    case: &Case,
) -> Result<ClosingList, NoMemory> {
    let mut closings = ClosingList::new(alloc);
    for goal in case.goals {
        let instance = instance(alloc, table, ground, case, *goal)?;
        closings.push(Closing::Extend {
            instance,
            literal: 0,
            goals: ClosingList::new(alloc),
        })?;
    }
    Ok(closings)
}

pub(crate) fn tableau(alloc: Global, case: &Case) -> Result<Tableau, NoMemory> {
    let mut table = GroundTable::new(alloc);
    let ground = ground_of(alloc, &mut table, case)?;
    let start = instance(alloc, &mut table, &ground, case, case.start)?;
    let goals = goals(alloc, &mut table, &ground, case)?;
    Ok(Tableau {
        table,
        start,
        goals,
    })
}
