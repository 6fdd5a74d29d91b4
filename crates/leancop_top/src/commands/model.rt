//! `model FILE STRUCTURE`: what a finite structure says of a problem's formula.

ghost use Rattle.std.specs.Prelude.{◌≡◌, IfOk, List, Option, false, ℕ};
ghost use Rattle.cop_base.specs.Outside.{Files};
ghost use Rattle.cop_base.specs.Reads.{Read};
ghost use Rattle.leancop_top.specs.Commands.Model.{ModelEnds};
ghost use Rattle.leancop_top.specs.SecondFile.{HasBytes};
ghost use Rattle.leancop_top.specs.Statuses.{IsCounted, status_line};
ghost use Rattle.leancop_top.specs.Telling.{is_silent};

use crate::reply::{Reply, line_reply};
use crate::status::Status;
use cop_base::{Ledger, NoMemory};
use finite_model::{Judged, StructureRead, judge, read_structure};
use logic_rules::Problem;
use std::alloc::Global;

// The status of the bytes.
fn status_of_bytes(
    alloc: Global,
    problem: &Problem,
    bytes: &[u8],
    steps: u64,
) -> Result<Status, NoMemory>
    ensures ends { (told : Option Files) (name : List ℕ) → HasBytes told name bytes.now
        → IfOk result (λ s. ModelEnds told problem.now name steps s (status_line s)) }
    ensures counted { (m n f g : ℕ) (after : List Read) → IfOk result (λ s. IsCounted m n f g after s) }
    ensures tells { IfOk result (λ s. is_silent s ≡ false) }
{
    let _symbols = problem.symbols(); // tells that it is a problem
    let structure = match read_structure(alloc, problem, bytes) {
        Ok(structure) => structure,
        Err(StructureRead::Bad { line, cause }) => {
            return Ok(Status::BadStructure { line, cause });
        }
        Err(StructureRead::NoMemory) => return Err(NoMemory),
    };
    let mut ledger = Ledger::new(steps);
    match judge(alloc, problem, &structure, &mut ledger)? {
        Judged::True => Ok(Status::TrueAtRoot),
        Judged::False => Ok(Status::FalseAtRoot),
        Judged::Steps => Ok(Status::StepsEnded { limit: 0, steps }),
    }
}

pub fn model(alloc: Global, problem: &Problem, bytes: &[u8], steps: u64) -> Result<Reply, NoMemory>
    ensures ends { (told : Option Files) (name : List ℕ) → HasBytes told name bytes.now
        → IfOk result (λ r. ModelEnds told problem.now name steps r.status r.output.items) }
    ensures counted { (m n f g : ℕ) (after : List Read) → IfOk result (λ r. IsCounted m n f g after r.status) }
{
    let status = status_of_bytes(alloc, problem, bytes, steps)?;
    line_reply(alloc, status)
}
