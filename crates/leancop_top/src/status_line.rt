//! The line that tells a status.

ghost use Rattle.std.specs.Prelude.{◌≡◌, ◌++◌, IfOk, codes, decimal};
ghost use Rattle.leancop_top.specs.FaultTexts.{
  cause_text,
  fault_text,
  structure_cause_text,
  tableau_fault_text,
};
ghost use Rattle.leancop_top.specs.Statuses.{status_line};

use crate::fault_text::{cause_text, fault_text, structure_cause_text, tableau_fault_text};
use crate::status::{Cause, Status};
use calculus::fault::StructureCause;
use cop_base::{NoMemory, Text};
use itoa::Buffer;
use std::alloc::{AllocError, Global};

/// A derivation or a tableau has its own text, and no line tells that writing failed or that memory
/// ended.
pub fn status_line(alloc: Global, status: &Status) -> Result<Vec<u8>, NoMemory>
    ensures { IfOk result (λ line. line.items ≡ status_line status.now) }
{
    let mut buffer = Buffer::new();
    match status {
        Status::Exhausted { limit } => {
            let limit = buffer.format(*limit);
            value_line(alloc, b"exhausted at limit ", limit.as_bytes())
        }
        Status::NoTableau { limit } => {
            let limit = buffer.format(*limit);
            value_line(alloc, b"no tableau at limit ", limit.as_bytes())
        }
        Status::StepsEnded { limit, steps } => steps_line(alloc, *limit, *steps),
        Status::BadWords { place } => {
            let place = buffer.format(*place);
            value_line(alloc, b"bad word ", place.as_bytes())
        }
        Status::Missing { name } => value_line(alloc, b"missing: ", name.bytes()),
        Status::ReadFault { name } => value_line(alloc, b"read fault: ", name.bytes()),
        Status::BadProblem {
            file,
            offset,
            cause,
        } => problem_line(alloc, file, *offset, *cause),
        Status::Rejected { line, fault } => rejection_line(alloc, *line, fault_text(*fault)),
        Status::TableauRejected { line, fault } => {
            rejection_line(alloc, *line, tableau_fault_text(*fault))
        }
        Status::BadStructure { line, cause } => structure_line(alloc, *line, *cause),
        Status::TrueAtRoot => Ok(Vec::from_slice(alloc, b"true at the root\n")?),
        Status::FalseAtRoot => Ok(Vec::from_slice(alloc, b"false at the root\n")?),
        Status::Accepted => Ok(Vec::from_slice(alloc, b"accepted\n")?),
        Status::InputTooLarge => Ok(Vec::from_slice(alloc, b"input too large\n")?),
        Status::NestingTooDeep => Ok(Vec::from_slice(alloc, b"nesting too deep\n")?),
        Status::FormulaTooLarge => Ok(Vec::from_slice(alloc, b"formula too large\n")?),
        Status::TooManySymbols => Ok(Vec::from_slice(alloc, b"too many symbols\n")?),
        Status::MatrixTooLarge => Ok(Vec::from_slice(alloc, b"matrix too large\n")?),
        Status::Derived { .. }
        | Status::Transferred
        | Status::Migrated
        | Status::TableauFound { .. }
        | Status::Converted
        | Status::WriteFault
        | Status::NoMemory => Ok(Vec::new(alloc)),
    }
}

fn value_line(alloc: Global, text: &[u8], value: &[u8]) -> Result<Vec<u8>, NoMemory>
    ensures { IfOk result (λ line. line.items ≡ text.now ++ value.now ++ codes "\n") }
{
    let mut line = Vec::from_slice(alloc, text)?;
    line.extend_from_slice(value)?;
    line.extend_from_slice(b"\n")?;
    Ok(line)
}

fn steps_line(alloc: Global, limit: u8, steps: u64) -> Result<Vec<u8>, NoMemory>
    ensures { IfOk result (λ line. line.items
        ≡ codes "steps ended after limit " ++ decimal limit ++ codes " at " ++ decimal steps
        ++ codes " steps\n") }
{
    let mut buffer = Buffer::new();
    let mut line = Vec::from_slice(alloc, b"steps ended after limit ")?;
    line.extend_from_slice(buffer.format(limit).as_bytes())?;
    line.extend_from_slice(b" at ")?;
    line.extend_from_slice(buffer.format(steps).as_bytes())?;
    line.extend_from_slice(b" steps\n")?;
    Ok(line)
}

fn problem_line(alloc: Global, file: &Text, offset: u64, cause: Cause) -> Result<Vec<u8>, NoMemory>
    ensures { IfOk result (λ line. line.items
        ≡ file.now ++ codes ":" ++ decimal offset ++ codes ": " ++ cause_text cause ++ codes "\n") }
{
    let mut buffer = Buffer::new();
    let mut line = Vec::from_slice(alloc, file.bytes())?;
    line.extend_from_slice(b":")?;
    line.extend_from_slice(buffer.format(offset).as_bytes())?;
    line.extend_from_slice(b": ")?;
    line.extend_from_slice(cause_text(cause))?;
    line.extend_from_slice(b"\n")?;
    Ok(line)
}

fn rejection_line(alloc: Global, number: u64, fault: &[u8]) -> Result<Vec<u8>, NoMemory>
    ensures { IfOk result (λ line. line.items
        ≡ codes "rejected at line " ++ decimal number ++ codes ": " ++ fault.now ++ codes "\n") }
{
    let mut buffer = Buffer::new();
    let mut line = Vec::from_slice(alloc, b"rejected at line ")?;
    line.extend_from_slice(buffer.format(number).as_bytes())?;
    line.extend_from_slice(b": ")?;
    line.extend_from_slice(fault)?;
    line.extend_from_slice(b"\n")?;
    Ok(line)
}

fn structure_line(alloc: Global, number: u64, cause: StructureCause) -> Result<Vec<u8>, NoMemory>
    ensures { IfOk result (λ line. line.items
        ≡ codes "rejected structure at line " ++ decimal number ++ codes ": "
        ++ structure_cause_text cause ++ codes "\n") }
{
    let mut buffer = Buffer::new();
    let mut line = Vec::from_slice(alloc, b"rejected structure at line ")?;
    line.extend_from_slice(buffer.format(number).as_bytes())?;
    line.extend_from_slice(b": ")?;
    line.extend_from_slice(structure_cause_text(cause))?;
    line.extend_from_slice(b"\n")?;
    Ok(line)
}
