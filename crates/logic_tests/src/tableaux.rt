//! Tables of ground lists, and tableaux whose values are numbers of them: those of worked problems, and
//! the same with one thing wrong.

use cop_base::{NoMemory, PosId, SymbolId};
use formula_core::{
    GroundLabel, GroundMark, GroundTable, GroundTerm, GroundTerms, Sign, Value, Values,
};
use logic_rules::{Domains, Logic, Problem};
use std::alloc::Global;
use std::test::Fail;
use tableau_core::{
    ClauseInstance, Closing, ClosingList, GroundLiteral, LiteralList, Selection, Side, Tableau,
    is_closed,
};
use test_problems::proving;

// The arguments of f(t, t), where t is such a term one level less deep.
fn doubled(table: &mut GroundTable, levels: u32) -> Result<GroundTerms, NoMemory> {
    let mut term = GroundTerm::Common(0);
    let mut args = table.add_terms(&[term, term])?;
    for _ in 0..levels {
        term = GroundTerm::Fun(SymbolId(0), args);
        args = table.add_terms(&[term, term])?;
    }
    Ok(args)
}

fn keeps_once(alloc: Global) -> Result<bool, NoMemory> {
    let mut table = GroundTable::new(alloc);
    let first = doubled(&mut table, 100)?;
    let again = doubled(&mut table, 100)?;
    let other = doubled(&mut table, 99)?;
    let same = table.are_same_terms(first, again);
    Ok(same && !table.are_same_terms(first, other) && table.len() == 101)
}

// Numbers that are no lists of the kind asked for stand for the empty list.
fn reads_other_kinds_as_empty(alloc: Global) -> Result<bool, NoMemory> {
    let mut table = GroundTable::new(alloc);
    let label = table.add_marks(&[GroundMark::Spare(7)])?;
    let empty = table.add_values(&[])?;
    let other = Values(label.0);
    let past = GroundLabel(5);
    Ok(
        table.marks(label).len() == 1
            && table.values(other).is_empty()
            && table.marks(past).is_empty()
            && table.are_same_values(empty, other)
            && table.normal_values(other) == empty
            && table.normal_marks(past) == GroundLabel(GroundTable::EMPTY)
            && table.normal_terms(GroundTerms(0)) == GroundTerms(GroundTable::EMPTY)
            && !table.are_same_marks(label, past),
    )
}

fn compares_items(alloc: Global) -> Result<bool, NoMemory> {
    let mut table = GroundTable::new(alloc);
    let label = table.add_marks(&[GroundMark::Spare(7)])?;
    let term = GroundTerm::Own(1, label);
    let mark = GroundMark::New(PosId(2), Values(3));
    Ok(
        table.is_same_term(term, GroundTerm::Own(1, label))
            && !table.is_same_term(term, GroundTerm::Own(1, GroundLabel(1)))
            && table.is_same_mark(mark, GroundMark::New(PosId(2), Values(0)))
            && !table.is_same_mark(mark, GroundMark::Spare(2))
            && !table.is_same_value(Value::Term(term), Value::Steps(label)),
    )
}

// Three terms, of which the last is told by a mark deep inside it.
fn three_terms(table: &mut GroundTable, number: u32) -> Result<GroundTerms, NoMemory> {
    let string = table.add_marks(&[GroundMark::Spare(number)])?;
    let values = table.add_values(&[Value::Term(GroundTerm::Common(0)), Value::Steps(string)])?;
    let label = table.add_marks(&[GroundMark::New(PosId(0), values)])?;
    let none = table.add_terms(&[])?;
    table.add_terms(&[
        GroundTerm::Fun(SymbolId(0), none),
        GroundTerm::Eigen(PosId(0), Values(GroundTable::EMPTY)),
        GroundTerm::Own(0, label),
    ])
}

fn tells_what_is_inside(alloc: Global) -> Result<bool, NoMemory> {
    let mut table = GroundTable::new(alloc);
    let first = three_terms(&mut table, 0)?;
    let again = three_terms(&mut table, 0)?;
    let other = three_terms(&mut table, 1)?;
    Ok(
        table.are_same_terms(first, again)
            && !table.are_same_terms(first, other)
            && table.terms(other).len() == 3,
    )
}

#[test]
fn a_table_keeps_each_list_once(rt: HostRuntime) -> Result<(), Fail> {
    let alloc = rt.alloc();
    assert!(rt; keeps_once(alloc)?);
    assert!(rt; reads_other_kinds_as_empty(alloc)?);
    assert!(rt; compares_items(alloc)?);
    assert!(rt; tells_what_is_inside(alloc)?);
    Ok(())
}

fn one_literal(alloc: Global, literal: GroundLiteral) -> Result<LiteralList, NoMemory> {
    let mut literals = LiteralList::new(alloc);
    literals.push(literal)?;
    Ok(literals)
}

/// The instance of one side, by its values and the arguments and label of its literal.
pub fn instance(
    alloc: Global,
    side: Side,
    values: Values,
    args: GroundTerms,
    label: GroundLabel,
) -> Result<ClauseInstance, NoMemory> {
    let sign = match side {
        Side::Left => Sign::T,
        Side::Right => Sign::F,
    };
    let symbol = SymbolId(0);
    let literals = one_literal(
        alloc,
        GroundLiteral {
            sign,
            symbol,
            args,
            label,
        },
    )?;
    let mut selection = Selection::new(alloc);
    selection.push(side)?;
    Ok(ClauseInstance {
        selection,
        values,
        literals,
    })
}

fn closed_by(
    alloc: Global,
    table: GroundTable,
    start: ClauseInstance,
    closing: Closing,
) -> Result<Tableau, NoMemory> {
    let mut goals = ClosingList::new(alloc);
    goals.push(closing)?;
    Ok(Tableau {
        table,
        start,
        goals,
    })
}

/// The right side as start, with the left side as its extension.
pub fn extended(
    alloc: Global,
    table: GroundTable,
    start: ClauseInstance,
    instance: ClauseInstance,
) -> Result<Tableau, NoMemory> {
    let closing = Closing::Extend {
        instance,
        literal: 0,
        goals: ClosingList::new(alloc),
    };
    let tableau = closed_by(alloc, table, start, closing)?;
    Ok(tableau)
}

// The instance of one side without values and arguments.
fn plain(alloc: Global, table: &mut GroundTable, side: Side) -> Result<ClauseInstance, NoMemory> {
    let values = table.add_values(&[])?;
    let args = table.add_terms(&[])?;
    let root = table.add_marks(&[])?;
    let instance = instance(alloc, side, values, args, root)?;
    Ok(instance)
}

fn by_extension(alloc: Global, problem: &Problem, limit: u8) -> Result<bool, NoMemory> {
    let mut table = GroundTable::new(alloc);
    let start = plain(alloc, &mut table, Side::Right)?;
    let other = plain(alloc, &mut table, Side::Left)?;
    let tableau = extended(alloc, table, start, other)?;
    is_closed(alloc, problem, &tableau, limit)
}

fn by_reduction(alloc: Global, problem: &Problem) -> Result<bool, NoMemory> {
    let mut table = GroundTable::new(alloc);
    let start = plain(alloc, &mut table, Side::Right)?;
    let tableau = closed_by(alloc, table, start, Closing::Reduce { up: 1 })?;
    is_closed(alloc, problem, &tableau, 1)
}

#[test]
fn a_reduction_needs_an_ancestor_and_an_extension_a_limit(rt: HostRuntime) -> Result<(), Fail> {
    let alloc = rt.alloc();
    let problem = proving(alloc, Logic::Classical, Domains::Constant, b"p => p")?;
    assert!(rt; by_extension(alloc, &problem, 1)?);
    assert!(rt; !by_extension(alloc, &problem, 0)?);
    assert!(rt; !by_reduction(alloc, &problem)?);
    Ok(())
}

// The eigenvariable of the second position by such a name one level less deep.
fn deep_name(table: &mut GroundTable, levels: u32) -> Result<GroundTerm, NoMemory> {
    let mut term = GroundTerm::Common(1);
    for _ in 0..levels {
        let values = table.add_values(&[Value::Term(term)])?;
        term = GroundTerm::Eigen(PosId(1), values);
    }
    Ok(term)
}

// The drinker's tableau whose first value is a name of this depth.
fn deep_tableau(alloc: Global, levels: u32) -> Result<Tableau, NoMemory> {
    let mut table = GroundTable::new(alloc);
    let term = deep_name(&mut table, levels)?;
    let first = table.add_values(&[Value::Term(term)])?;
    let name = GroundTerm::Eigen(PosId(1), first);
    let second = table.add_values(&[Value::Term(name)])?;
    let args = table.add_terms(&[name])?;
    let root = table.add_marks(&[])?;
    let start = instance(alloc, Side::Right, first, args, root)?;
    let other = instance(alloc, Side::Left, second, args, root)?;
    let tableau = extended(alloc, table, start, other)?;
    Ok(tableau)
}

#[test]
fn names_are_compared_however_deep_they_are(rt: HostRuntime) -> Result<(), Fail> {
    let alloc = rt.alloc();
    let drinker = b"?[X]: ![Y]: (d(X) => d(Y))";
    let problem = proving(alloc, Logic::Classical, Domains::Constant, drinker)?;
    let tableau = deep_tableau(alloc, 50_000)?;
    assert!(rt; is_closed(alloc, &problem, &tableau, 1)?);
    assert!(rt; !is_closed(alloc, &problem, &tableau, 0)?);
    Ok(())
}

// The label and the only value of an instance with a string of spare characters.
fn by_string(table: &mut GroundTable, count: u32) -> Result<(GroundLabel, Values), NoMemory> {
    let marks = [
        GroundMark::Spare(0),
        GroundMark::Spare(1),
        GroundMark::Spare(2),
    ];
    let count = (count as usize).min(marks.len());
    let label = table.add_marks(&marks[..count])?;
    let values = table.add_values(&[Value::Steps(label)])?;
    Ok((label, values))
}

// Whether the tableau of the serial formula is closed whose two instances have a string of these
// lengths.
fn serial_in(alloc: Global, problem: &Problem, start: u32, other: u32) -> Result<bool, NoMemory> {
    let mut table = GroundTable::new(alloc);
    let none = table.add_terms(&[])?;
    let (label, values) = by_string(&mut table, start)?;
    let start = instance(alloc, Side::Right, values, none, label)?;
    let (label, values) = by_string(&mut table, other)?;
    let other = instance(alloc, Side::Left, values, none, label)?;
    let tableau = extended(alloc, table, start, other)?;
    is_closed(alloc, problem, &tableau, 1)
}

// The logic, the two lengths, and whether the tableau is closed.
const STRINGS: &[(Logic, u32, u32, bool)] = &[
    (Logic::D, 1, 1, true),
    (Logic::D, 0, 0, false),
    (Logic::T, 1, 0, false),
    (Logic::S4, 2, 2, true),
    (Logic::S4, 3, 3, false),
];

#[test]
fn strings_are_those_of_the_logic(rt: HostRuntime) -> Result<(), Fail> {
    let alloc = rt.alloc();
    for (logic, start, other, closed) in STRINGS {
        let problem = proving(alloc, *logic, Domains::Constant, b"#box:p => #dia:p")?;
        assert!(rt; serial_in(alloc, &problem, *start, *other)? == *closed);
    }
    Ok(())
}
