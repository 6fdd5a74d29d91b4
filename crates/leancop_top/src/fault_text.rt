//! The text of each fault.

ghost use Rattle.std.specs.Prelude.{◌≡◌};
ghost use Rattle.leancop_top.specs.FaultTexts.{
  cause_text,
  fault_text,
  step_fault_text,
  structure_cause_text,
  tableau_fault_text,
  text_cause_text,
};

use crate::status::Cause;
use calculus::fault::{StructureCause, TableauFault};
use derivation_check::CheckFault;
use derivation_text::TextCause;
use sequent_calc::StepFault;

pub fn cause_text(cause: Cause) -> &'static [u8]
    ensures { result.now ≡ cause_text cause }
{
    match cause {
        Cause::Syntax => b"syntax",
        Cause::Unsupported => b"unsupported",
        Cause::Reserved => b"reserved word",
        Cause::WrongLanguage => b"wrong language",
        Cause::SecondConjecture => b"second conjecture",
        Cause::UnknownRole => b"unknown role",
        Cause::IncludeTooDeep => b"include too deep",
        Cause::IncludeNameAbsent => b"include name absent",
        Cause::NoFormula => b"no formula",
    }
}

pub fn fault_text(fault: CheckFault) -> &'static [u8]
    ensures { result.now ≡ fault_text fault }
{
    match fault {
        CheckFault::Text(cause) => text_cause_text(cause),
        CheckFault::Step(fault) => step_fault_text(fault),
        CheckFault::AllClosed => b"all closed",
        CheckFault::StillOpen => b"still open",
    }
}

fn text_cause_text(cause: TextCause) -> &'static [u8]
    ensures { result.now ≡ text_cause_text cause }
{
    match cause {
        TextCause::Version => b"version",
        TextCause::Setting => b"setting",
        TextCause::Formula => b"formula",
        TextCause::Limit => b"limit",
        TextCause::Name => b"name",
        TextCause::Line => b"line",
        TextCause::TextAfterEnd => b"text after end",
        TextCause::Label => b"label",
        TextCause::Term => b"term",
        TextCause::Table => b"table",
    }
}

fn step_fault_text(fault: StepFault) -> &'static [u8]
    ensures { result.now ≡ step_fault_text fault }
{
    match fault {
        StepFault::NoEntry => b"no entry",
        StepFault::NoConnection => b"no connection",
        StepFault::WrongArguments => b"wrong arguments",
        StepFault::UnknownName => b"unknown name",
        StepFault::NotReachable => b"not reachable",
        StepFault::NotNew => b"not new",
        StepFault::WrongHome => b"wrong home",
        StepFault::NotAllowed => b"not allowed",
    }
}

pub fn structure_cause_text(cause: StructureCause) -> &'static [u8]
    ensures { result.now ≡ structure_cause_text cause }
{
    match cause {
        StructureCause::Version => b"version",
        StructureCause::Setting => b"setting",
        StructureCause::Size => b"size",
        StructureCause::Line => b"line",
        StructureCause::TextAfterEnd => b"text after end",
        StructureCause::EmptyDomain => b"empty domain",
        StructureCause::Serial => b"serial",
        StructureCause::Reflexive => b"reflexive",
        StructureCause::Transitive => b"transitive",
        StructureCause::Total => b"total",
        StructureCause::Worlds => b"worlds",
        StructureCause::Domains => b"domains",
        StructureCause::Function => b"function",
        StructureCause::Persistence => b"persistence",
    }
}

pub fn tableau_fault_text(fault: TableauFault) -> &'static [u8]
    ensures { result.now ≡ tableau_fault_text fault }
{
    match fault {
        TableauFault::Version => b"version",
        TableauFault::Setting => b"setting",
        TableauFault::Formula => b"formula",
        TableauFault::Limit => b"limit",
        TableauFault::Line => b"line",
        TableauFault::TextAfterEnd => b"text after end",
        TableauFault::AllClosed => b"all closed",
        TableauFault::PathLimit => b"path limit",
        TableauFault::NoInstance => b"no instance",
        TableauFault::NotAllowed => b"not allowed",
        TableauFault::NotPositive => b"not positive",
        TableauFault::NoConnection => b"no connection",
        TableauFault::NotRegular => b"not regular",
        TableauFault::StillOpen => b"still open",
        TableauFault::StringTooLong => b"string too long",
    }
}
