//! Translating an intuitionistic problem into S4.

ghost use Rattle.std.specs.Prelude.{◌≡◌, IfOk};
ghost use Rattle.calculus.specs.declared.setting.Logic.TheVariants.{Intuitionistic};
ghost use Rattle.leancop_top.specs.Translating.{IsTranslating};

use crate::status::Status;
use cop_base::NoMemory;
use godel_transfer::{TransferFault, translate};
use logic_rules::Problem;
use std::alloc::Global;

/// The translated problem, or the status that tells why there is none.
#[derive(Drop)]
pub enum Translation {
    Translated(Problem),
    Refused(Status),
}

/// The translation of the problem.
pub fn translate_problem(alloc: Global, problem: &Problem) -> Result<Translation, NoMemory>
    requires { problem.now.setting.logic ≡ Intuitionistic }
    ensures { IfOk result (λ t. IsTranslating problem.now t) }
{
    match translate(alloc, problem) {
        Ok(translated) => Ok(Translation::Translated(translated)),
        Err(TransferFault::NestingTooDeep) => Ok(Translation::Refused(Status::NestingTooDeep)),
        Err(TransferFault::FormulaTooLarge) => Ok(Translation::Refused(Status::FormulaTooLarge)),
        Err(TransferFault::NoMemory) => Err(NoMemory),
    }
}
