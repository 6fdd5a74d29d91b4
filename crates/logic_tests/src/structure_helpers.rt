//! Texts and verdicts of the tests.

use cop_base::{Ledger, NoMemory};
use finite_model::{Judged, StructureCause, StructureRead, judge, read_structure};
use logic_rules::Problem;
use std::alloc::Global;

/// The lines, each with a line feed, where one line, counted from 1, is another.
pub fn text_with(
    alloc: Global,
    lines: &[&str],
    number: usize,
    other: &str,
) -> Result<Vec<u8>, NoMemory> {
    let mut text = Vec::new(alloc);
    for (place, line) in lines.iter().enumerate() {
        let shown = if place + 1 == number { other } else { *line };
        text.extend_from_slice(shown.as_bytes())?;
        text.push(b'\n')?;
    }
    Ok(text)
}

/// Where and why bytes are rejected.
pub fn rejected_at(
    alloc: Global,
    problem: &Problem,
    bytes: &[u8],
) -> Result<Option<(u64, StructureCause)>, NoMemory> {
    match read_structure(alloc, problem, bytes) {
        Ok(_) => Ok(None),
        Err(StructureRead::Bad { line, cause }) => Ok(Some((line, cause))),
        Err(StructureRead::NoMemory) => Err(NoMemory),
    }
}

/// What the structure of the bytes says of the formula, and how many steps were taken.
pub fn judged_by(
    alloc: Global,
    problem: &Problem,
    bytes: &[u8],
    budget: u64,
) -> Result<Option<(Judged, u64)>, NoMemory> {
    match read_structure(alloc, problem, bytes) {
        Ok(structure) => {
            let mut ledger = Ledger::new(budget);
            let judged = judge(alloc, problem, &structure, &mut ledger)?;
            Ok(Some((judged, ledger.used)))
        }
        Err(StructureRead::Bad { .. }) => Ok(None),
        Err(StructureRead::NoMemory) => Err(NoMemory),
    }
}
