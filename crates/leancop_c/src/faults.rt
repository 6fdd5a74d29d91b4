//! The numbers of faults.

ghost use Rattle.std.specs.Prelude.{◌≡◌};
ghost use Rattle.leancop_c.specs.Numbers.{cause_number, fault_number, step_number, text_number};

use calculus::fault::{CheckFault, StepFault, TextCause};
use problem_build::Cause;

pub fn cause_number(cause: Cause) -> u32
    ensures { result ≡ cause_number cause }
{
    match cause {
        Cause::Syntax => 1,
        Cause::Unsupported => 2,
        Cause::Reserved => 3,
        Cause::WrongLanguage => 4,
        Cause::SecondConjecture => 5,
        Cause::UnknownRole => 6,
        Cause::IncludeTooDeep => 7,
        Cause::IncludeNameAbsent => 8,
        Cause::NoFormula => 9,
    }
}

fn text_number(cause: TextCause) -> u32
    ensures { result ≡ text_number cause }
{
    match cause {
        TextCause::Version => 1,
        TextCause::Setting => 2,
        TextCause::Formula => 3,
        TextCause::Limit => 4,
        TextCause::Name => 5,
        TextCause::Line => 6,
        TextCause::TextAfterEnd => 7,
        TextCause::Label => 8,
        TextCause::Term => 9,
        TextCause::Table => 10,
    }
}

fn step_number(fault: StepFault) -> u32
    ensures { result ≡ step_number fault }
{
    match fault {
        StepFault::NoEntry => 21,
        StepFault::NoConnection => 22,
        StepFault::WrongArguments => 23,
        StepFault::UnknownName => 24,
        StepFault::NotReachable => 25,
        StepFault::NotNew => 26,
        StepFault::WrongHome => 27,
        StepFault::NotAllowed => 28,
    }
}

pub fn fault_number(fault: CheckFault) -> u32
    ensures { result ≡ fault_number fault }
{
    match fault {
        CheckFault::Text(cause) => text_number(cause),
        CheckFault::Step(fault) => step_number(fault),
        CheckFault::AllClosed => 31,
        CheckFault::StillOpen => 32,
    }
}
