//! `migrate FILE DERIVATION`: a derivation of either version in version 2.

ghost use Rattle.std.specs.Prelude.{◌≡◌, IfOk, IsTrue, List, Option, ℕ};
ghost use Rattle.calculus.specs.Calculus.{Derives};
ghost use Rattle.calculus.specs.DerivationText.{is_printable};
ghost use Rattle.calculus.specs.Versions.{numbering, stated};
ghost use Rattle.cop_base.specs.Outside.{Files};
ghost use Rattle.cop_base.specs.Reads.{Read};
ghost use Rattle.leancop_top.specs.Accepted.{IsAcceptedIn};
ghost use Rattle.leancop_top.specs.Commands.Migrate.{MigrateEnds};
ghost use Rattle.leancop_top.specs.SecondFile.{HasBytes};
ghost use Rattle.leancop_top.specs.Statuses.{IsCounted};

use crate::reply::{Reply, line_reply};
use crate::status::Status;
use cop_base::NoMemory;
use derivation_check::{AcceptFault, accept};
use derivation_text::{TextDerivation, Version, write};
use logic_rules::Problem;
use std::alloc::Global;

// The reply for a derivation that is accepted.
fn migrate_accepted(
    alloc: Global,
    problem: &Problem,
    derivation: &TextDerivation,
) -> Result<Reply, NoMemory>
    requires printable { IsTrue (is_printable problem.now (stated derivation.now)) }
    requires numbers { derivation.now ≡ numbering (stated derivation.now) }
    requires derives { Derives problem.now (stated derivation.now) }
    ensures ends { (told : Option Files) (name : List ℕ)
        → IsAcceptedIn told problem.now name (stated derivation.now) → IfOk result
        (λ r. MigrateEnds told problem.now name r.status r.output.items) }
    ensures counted { (m n f g : ℕ) (after : List Read) → IfOk result (λ r. IsCounted m n f g after r.status) }
{
    let output = write(alloc, problem, derivation, Version::Two)?;
    let _symbols = problem.symbols(); // tells that it is a problem
    Ok(Reply {
        status: Status::Migrated,
        output,
    })
}

/// Nothing but the fault is printed of a derivation that is rejected.
pub fn migrate(alloc: Global, problem: &Problem, bytes: &[u8]) -> Result<Reply, NoMemory>
    ensures ends { (told : Option Files) (name : List ℕ) → HasBytes told name bytes.now
        → IfOk result (λ r. MigrateEnds told problem.now name r.status r.output.items) }
    ensures counted { (m n f g : ℕ) (after : List Read) → IfOk result (λ r. IsCounted m n f g after r.status) }
{
    match accept(alloc, problem, bytes) {
        Ok((_, derivation)) => migrate_accepted(alloc, problem, &derivation),
        Err(AcceptFault::Rejected { line, fault }) => {
            line_reply(alloc, Status::Rejected { line, fault })
        }
        Err(AcceptFault::NoMemory) => Err(NoMemory),
    }
}
