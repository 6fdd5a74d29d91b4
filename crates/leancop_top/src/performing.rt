//! Doing what a command asks for, once its files are read.

ghost use Rattle.std.specs.Prelude.{◌≡◌, IfOk, List, Option, ℕ};
ghost use Rattle.cop_base.specs.Outside.{Files};
ghost use Rattle.cop_base.specs.Reads.{Read};
ghost use Rattle.leancop_top.specs.SecondFile.{HasBytes};
ghost use Rattle.leancop_top.specs.Statuses.{IsCounted};
ghost use Rattle.leancop_top.specs.Tasks.{
  FileTaskEnds,
  IsFitting,
  IsReady,
  IsTaskCounted,
  ProblemTaskEnds,
  Replies,
};

use crate::commands::check::check;
use crate::commands::convert::convert;
use crate::commands::make::make;
use crate::commands::migrate::migrate;
use crate::commands::model::model;
use crate::commands::prove::prove;
use crate::commands::tableau::tableau;
use crate::commands::tcheck::tcheck;
use crate::commands::transfer::transfer;
use crate::reply::{Reply, line_reply};
use crate::task::{FileTask, ProblemTask, Task};
use cop_base::NoMemory;
use logic_rules::Problem;
use std::alloc::Global;

fn on_problem(alloc: Global, task: ProblemTask, problem: &Problem) -> Result<Reply, NoMemory>
    ensures ends { IfOk result (λ r. ProblemTaskEnds task problem.now r.status r.output.items) }
    ensures counted { (m n f g : ℕ) (after : List Read)
        → IfOk result (λ r. IsCounted m n f g after r.status) }
{
    match task {
        ProblemTask::Prove { bounds, version } => prove(alloc, problem, bounds, version),
        ProblemTask::Tableau { bounds } => tableau(alloc, problem, bounds),
    }
}

fn on_file(
    alloc: Global,
    task: FileTask,
    problem: &Problem,
    bytes: &[u8],
) -> Result<Reply, NoMemory>
    requires { IsFitting task problem.now.setting }
    ensures ends { (told : Option Files) (name : List ℕ) → HasBytes told name bytes.now
        → IfOk result (λ r. FileTaskEnds task told problem.now name r.status r.output.items) }
    ensures counted { (m n f g : ℕ) (after : List Read)
        → IfOk result (λ r. IsCounted m n f g after r.status) }
{
    match task {
        FileTask::Check => check(alloc, problem, bytes),
        FileTask::Transfer => transfer(alloc, problem, bytes),
        FileTask::Migrate => migrate(alloc, problem, bytes),
        FileTask::Model { steps } => model(alloc, problem, bytes, steps),
        FileTask::Tcheck => tcheck(alloc, problem, bytes),
        FileTask::Convert => convert(alloc, problem, bytes),
    }
}

/// The reply of the command.
pub fn perform(alloc: Global, work: Task) -> Result<Reply, NoMemory>
    requires { IsReady work }
    ensures replies { IfOk result (λ r. Replies work r.status r.output.items) }
    ensures counted { (m n f g : ℕ) (after : List Read) → IsTaskCounted m n f g after work
        → IfOk result (λ r. IsCounted m n f g after r.status) }
{
    match work {
        Task::Tell(status) => line_reply(alloc, status),
        Task::Make { problem, bounds } => make(alloc, problem, bounds),
        Task::OnProblem { task, problem } => on_problem(alloc, task, &problem),
        Task::OnFile {
            task,
            problem,
            bytes,
        } => on_file(alloc, task, &problem, bytes.as_slice()),
    }
}
