//! `convert FILE TABLEAU`: the derivation to which a tableau leads.

ghost use Rattle.std.specs.Prelude.{IfOk, List, Option, ℕ};
ghost use Rattle.cop_base.specs.Outside.{Files};
ghost use Rattle.cop_base.specs.Reads.{Read};
ghost use Rattle.leancop_top.specs.Commands.Convert.{ConvertEnds};
ghost use Rattle.leancop_top.specs.SecondFile.{HasBytes};
ghost use Rattle.leancop_top.specs.Statuses.{IsCounted};

use crate::commands::prove::derivation_text;
use crate::reply::{Reply, line_reply};
use crate::status::Status;
use cop_base::NoMemory;
use derivation_text::Version;
use logic_rules::Problem;
use std::alloc::Global;
use tableau_cert::{TableauParse, parse_tableau};

/// Nothing but the fault is printed of a tableau that is rejected.
pub fn convert(alloc: Global, problem: &Problem, bytes: &[u8]) -> Result<Reply, NoMemory>
    ensures ends { (told : Option Files) (name : List ℕ) → HasBytes told name bytes.now
        → IfOk result (λ r. ConvertEnds told problem.now name r.status r.output.items) }
    ensures counted { (m n f g : ℕ) (after : List Read) → IfOk result (λ r. IsCounted m n f g after r.status) }
{
    let _symbols = problem.symbols(); // tells that it is a problem
    match parse_tableau(alloc, problem, bytes) {
        Ok((tableau, limit)) => {
            let output = derivation_text(alloc, problem, tableau, limit, Version::One)?;
            Ok(Reply {
                status: Status::Converted,
                output,
            })
        }
        Err(TableauParse::Bad { line, fault }) => {
            line_reply(alloc, Status::TableauRejected { line, fault })
        }
        Err(TableauParse::NoMemory) => Err(NoMemory),
    }
}
