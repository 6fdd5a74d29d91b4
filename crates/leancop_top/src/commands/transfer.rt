//! `transfer FILE DERIVATION`: an intuitionistic derivation as one of the problem's translation into
//! S4.

ghost use Rattle.std.specs.Prelude.{◌≡◌, IfOk, IsTrue, List, Option, ℕ};
ghost use Rattle.calculus.specs.declared.setting.Logic.TheVariants.{Intuitionistic};
ghost use Rattle.calculus.specs.Calculus.{Derives};
ghost use Rattle.calculus.specs.DerivationText.{is_printable};
ghost use Rattle.calculus.specs.Versions.{stated};
ghost use Rattle.cop_base.specs.Outside.{Files};
ghost use Rattle.cop_base.specs.Reads.{Read};
ghost use Rattle.leancop_top.specs.Accepted.{IsAcceptedIn};
ghost use Rattle.leancop_top.specs.Commands.Transfer.{TransferEnds};
ghost use Rattle.leancop_top.specs.Derived.{IsDerivation};
ghost use Rattle.leancop_top.specs.SecondFile.{HasBytes};
ghost use Rattle.leancop_top.specs.Statuses.{IsCounted};
ghost use Rattle.leancop_top.specs.Translating.{IsTranslated};

use crate::reply::{Reply, line_reply};
use crate::status::Status;
use crate::translation::{Translation, translate_problem};
use cop_base::NoMemory;
use derivation_check::{AcceptFault, accept};
use derivation_text::{TextDerivation, Version, print};
use godel_transfer::TransferFault;
use logic_rules::Problem;
use std::alloc::Global;

// The text of what a derivation of the problem becomes.
fn transferred_text(
    alloc: Global,
    problem: &Problem,
    translated: &Problem,
    derivation: &TextDerivation,
) -> Result<Vec<u8>, NoMemory>
    requires intuitionistic { problem.now.setting.logic ≡ Intuitionistic }
    requires translated { IsTranslated problem.now translated.now }
    requires printable { IsTrue (is_printable problem.now (stated derivation.now)) }
    requires derives { Derives problem.now (stated derivation.now) }
    ensures { IfOk result (λ text. IsDerivation Version.One translated.now derivation.now.limit text.items) }
{
    match godel_transfer::transfer(alloc, problem, derivation) {
        Ok(transferred) => {
            let text = print(alloc, translated, &transferred, Version::One)?;
            let _symbols = translated.symbols(); // tells that it is a problem
            Ok(text)
        }
        Err(TransferFault::NestingTooDeep) => unreachable!(),
        Err(TransferFault::FormulaTooLarge) => unreachable!(),
        Err(TransferFault::NoMemory) => Err(NoMemory),
    }
}

// The reply for a derivation that is accepted.
fn transfer_accepted(
    alloc: Global,
    problem: &Problem,
    derivation: &TextDerivation,
) -> Result<Reply, NoMemory>
    requires intuitionistic { problem.now.setting.logic ≡ Intuitionistic }
    requires printable { IsTrue (is_printable problem.now (stated derivation.now)) }
    requires derives { Derives problem.now (stated derivation.now) }
    ensures ends { (told : Option Files) (name : List ℕ)
        → IsAcceptedIn told problem.now name (stated derivation.now) → IfOk result
        (λ r. TransferEnds told problem.now name r.status r.output.items) }
    ensures counted { (m n f g : ℕ) (after : List Read) → IfOk result (λ r. IsCounted m n f g after r.status) }
{
    match translate_problem(alloc, problem)? {
        Translation::Translated(translated) => {
            let output = transferred_text(alloc, problem, &translated, derivation)?;
            Ok(Reply {
                status: Status::Transferred,
                output,
            })
        }
        Translation::Refused(status) => line_reply(alloc, status),
    }
}

/// The derivation is judged before the problem is translated.
pub fn transfer(alloc: Global, problem: &Problem, bytes: &[u8]) -> Result<Reply, NoMemory>
    requires { problem.now.setting.logic ≡ Intuitionistic }
    ensures ends { (told : Option Files) (name : List ℕ) → HasBytes told name bytes.now
        → IfOk result (λ r. TransferEnds told problem.now name r.status r.output.items) }
    ensures counted { (m n f g : ℕ) (after : List Read) → IfOk result (λ r. IsCounted m n f g after r.status) }
{
    match accept(alloc, problem, bytes) {
        Ok((_, derivation)) => transfer_accepted(alloc, problem, &derivation),
        Err(AcceptFault::Rejected { line, fault }) => {
            line_reply(alloc, Status::Rejected { line, fault })
        }
        Err(AcceptFault::NoMemory) => Err(NoMemory),
    }
}
