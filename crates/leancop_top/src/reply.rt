//! What a command answers.

ghost use Rattle.std.specs.Prelude.{◌≡◌, IfOk, false};
ghost use Rattle.leancop_top.specs.Statuses.{status_line};
ghost use Rattle.leancop_top.specs.Telling.{is_silent};

use crate::status::Status;
use crate::status_line::status_line;
use cop_base::NoMemory;
use std::alloc::Global;

/// A status and the bytes that are written for it. It is neither a write fault nor want of memory.
#[derive(Drop)]
pub struct Reply {
    pub status: Status,
    pub output: Vec<u8>,
    pub ghost tells: { is_silent status ≡ false },
}

/// The reply of a status for which its line is written and nothing else.
pub fn line_reply(alloc: Global, status: Status) -> Result<Reply, NoMemory>
    requires { is_silent status ≡ false }
    ensures same { IfOk result (λ r. r.status ≡ status) }
    ensures line { IfOk result (λ r. r.output.items ≡ status_line status) }
{
    let output = status_line(alloc, &status)?;
    Ok(Reply { status, output })
}
