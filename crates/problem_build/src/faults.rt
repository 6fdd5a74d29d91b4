//! The making of refusals, whose names are copied.

ghost use Rattle.std.specs.Prelude.{◌≡◌, true, IfSome};
ghost use Rattle.problem_build.specs.Answers.{the_refusal};
ghost use Rattle.problem_build.specs.Outside.{IsFailed, IsMissing, IsUnread, is_inside};
ghost use Rattle.problem_build.specs.Refusals as refusal;
ghost use Rattle.problem_build.specs.Walk.{read_cause};

use crate::fault::{BuildFault, Cause};
use cop_base::{NoMemory, Text};
use std::alloc::Global;
use tptp_reader::{ReadCause, ReadFault};

pub fn missing(alloc: Global, name: &Text) -> BuildFault
    ensures { IsMissing result name.now }
{
    match Text::new(alloc, name.bytes()) {
        Ok(name) => BuildFault::Missing { name },
        Err(_) => BuildFault::NoMemory,
    }
}

pub fn failed(alloc: Global, name: &Text) -> BuildFault
    ensures { IsFailed result name.now }
{
    match Text::new(alloc, name.bytes()) {
        Ok(name) => BuildFault::Failed { name },
        Err(_) => BuildFault::NoMemory,
    }
}

pub fn bad(alloc: Global, file: &Text, offset: u64, cause: Cause) -> BuildFault
    ensures told { IfSome (the_refusal result) (λ r. r ≡ refusal.bad file.now offset cause) }
    ensures inside { is_inside result ≡ true }
{
    match Text::new(alloc, file.bytes()) {
        Ok(file) => BuildFault::Bad {
            file,
            offset,
            cause,
        },
        Err(_) => BuildFault::NoMemory,
    }
}

fn read_cause(cause: ReadCause) -> Cause
    ensures { result ≡ read_cause cause }
{
    match cause {
        ReadCause::Syntax => Cause::Syntax,
        ReadCause::Unsupported => Cause::Unsupported,
        ReadCause::Reserved => Cause::Reserved,
        ReadCause::WrongLanguage => Cause::WrongLanguage,
    }
}

/// The refusal of a file whose text is not read.
pub fn unread(alloc: Global, file: &Text, fault: ReadFault) -> BuildFault
    ensures told { IsUnread file.now fault result }
    ensures inside { is_inside result ≡ true }
{
    match fault {
        ReadFault::At { offset, cause } => bad(alloc, file, offset, read_cause(cause)),
        ReadFault::TooDeep { offset: _ } => BuildFault::NestingTooDeep,
        ReadFault::NoMemory => BuildFault::NoMemory,
    }
}
