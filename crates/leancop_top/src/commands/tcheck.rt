//! `tcheck FILE TABLEAU`: the judgement of a tableau.

ghost use Rattle.std.specs.Prelude.{◌≡◌, IfOk, List, Option, false, ℕ};
ghost use Rattle.cop_base.specs.Outside.{Files};
ghost use Rattle.cop_base.specs.Reads.{Read};
ghost use Rattle.leancop_top.specs.Commands.Tcheck.{TcheckEnds};
ghost use Rattle.leancop_top.specs.SecondFile.{HasBytes};
ghost use Rattle.leancop_top.specs.Statuses.{IsCounted, status_line};
ghost use Rattle.leancop_top.specs.Telling.{is_silent};

use crate::reply::{Reply, line_reply};
use crate::status::Status;
use cop_base::NoMemory;
use logic_rules::Problem;
use std::alloc::Global;
use tableau_cert::{TableauVerdict, check_tableau};

// The status of the bytes.
fn judge_tableau(alloc: Global, problem: &Problem, bytes: &[u8]) -> Result<Status, NoMemory>
    ensures ends { (told : Option Files) (name : List ℕ) → HasBytes told name bytes.now
        → IfOk result (λ s. TcheckEnds told problem.now name s (status_line s)) }
    ensures counted { (m n f g : ℕ) (after : List Read) → IfOk result (λ s. IsCounted m n f g after s) }
    ensures tells { IfOk result (λ s. is_silent s ≡ false) }
{
    let _symbols = problem.symbols(); // tells that it is a problem
    match check_tableau(alloc, problem, bytes)? {
        TableauVerdict::Accepted => Ok(Status::Accepted),
        TableauVerdict::Rejected { line, fault } => Ok(Status::TableauRejected { line, fault }),
    }
}

pub fn tcheck(alloc: Global, problem: &Problem, bytes: &[u8]) -> Result<Reply, NoMemory>
    ensures ends { (told : Option Files) (name : List ℕ) → HasBytes told name bytes.now
        → IfOk result (λ r. TcheckEnds told problem.now name r.status r.output.items) }
    ensures counted { (m n f g : ℕ) (after : List Read) → IfOk result (λ r. IsCounted m n f g after r.status) }
{
    let status = judge_tableau(alloc, problem, bytes)?;
    line_reply(alloc, status)
}
