//! What is written for a generated problem.

ghost use Rattle.std.specs.Prelude.{◌≡◌, ◌++◌, IfOk};
ghost use Rattle.leancop_top.specs.MadeLines.{derived_lines, family_word, made_line, made_output};

use crate::status::Status;
use crate::status_line::status_line;
use cop_base::NoMemory;
use itoa::Buffer;
use problem_gen::Family;
use std::alloc::{AllocError, Global};

fn family_word(family: Family) -> &'static [u8]
    ensures { result.now ≡ family_word family }
{
    match family {
        Family::Chain => b"chain",
        Family::Shift => b"shift",
        Family::Tower => b"tower",
    }
}

fn made_line(alloc: Global, family: Family, size: u32, length: u64) -> Result<Vec<u8>, NoMemory>
    ensures { IfOk result (λ line. line.items ≡ made_line family size length) }
{
    let mut buffer = Buffer::new();
    let mut line = Vec::from_slice(alloc, b"made ")?;
    line.extend_from_slice(family_word(family))?;
    line.extend_from_slice(b" ")?;
    line.extend_from_slice(buffer.format(size).as_bytes())?;
    line.extend_from_slice(b": ")?;
    line.extend_from_slice(buffer.format(length).as_bytes())?;
    line.extend_from_slice(b" bytes\n")?;
    Ok(line)
}

fn derived_lines(alloc: Global, limit: u8) -> Result<Vec<u8>, NoMemory>
    ensures { IfOk result (λ lines. lines.items ≡ derived_lines limit) }
{
    let mut buffer = Buffer::new();
    let mut lines = Vec::from_slice(alloc, b"derived at limit ")?;
    lines.extend_from_slice(buffer.format(limit).as_bytes())?;
    lines.extend_from_slice(b"\naccepted\n")?;
    Ok(lines)
}

fn behind_made(
    alloc: Global,
    family: Family,
    size: u32,
    length: u64,
    rest: &[u8],
) -> Result<Vec<u8>, NoMemory>
    ensures { IfOk result (λ lines. lines.items ≡ made_line family size length ++ rest.now) }
{
    let mut lines = made_line(alloc, family, size, length)?;
    lines.extend_from_slice(rest)?;
    Ok(lines)
}

/// The output for a generated problem whose text has this length.
pub fn made_output(
    alloc: Global,
    family: Family,
    size: u32,
    length: u64,
    status: &Status,
) -> Result<Vec<u8>, NoMemory>
    ensures { IfOk result (λ lines. lines.items ≡ made_output family size length status.now) }
{
    match status {
        Status::Derived { limit } => {
            let lines = derived_lines(alloc, *limit)?;
            behind_made(alloc, family, size, length, lines.as_slice())
        }
        Status::Exhausted { .. } | Status::NoTableau { .. } | Status::StepsEnded { .. } => {
            let line = status_line(alloc, status)?;
            behind_made(alloc, family, size, length, line.as_slice())
        }
        _ => status_line(alloc, status),
    }
}
