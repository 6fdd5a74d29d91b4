//! Derivations that are accepted.

ghost use Rattle.std.specs.Prelude.{◌≡◌, ℕ, Err, IfOk, IsTrue, OnOk};
ghost use Rattle.calculus.specs.declared.fault.CheckFault.{CheckFault};
ghost use Rattle.calculus.specs.Calculus.{Derives};
ghost use Rattle.calculus.specs.DerivationText.{is_printable};
ghost use Rattle.calculus.specs.Judgement.{accepted, rejected};
ghost use Rattle.calculus.specs.Versions.{IsTextIn, numbering, stated};
ghost use Rattle.derivation_check.specs.Only.{IsOnlyVersionJudgement};
ghost use Rattle.derivation_check.specs.declared.acceptance.AcceptFault.TheVariants as answer;

use crate::steps::judge;
use crate::verdict::Verdict;
use calculus::fault::CheckFault;
use calculus::version::Version;
use cop_base::NoMemory;
use derivation_text::{ParseFault, TextDerivation, read};
use logic_rules::Problem;
use std::alloc::Global;

/// Why no derivation is accepted.
#[derive(Clone, Copy, Debug, PartialEq, Eq)]
pub enum AcceptFault {
    /// The fault stands at this line, counted from 1.
    Rejected { line: u64, fault: CheckFault },
    NoMemory,
}

impl From<NoMemory> for AcceptFault {
    ghost from_gives = { λ _ r. r ≡ answer.NoMemory };

    fn from(_error: NoMemory) -> AcceptFault {
        AcceptFault::NoMemory
    }
}

/// The version of the text that the bytes are, and its derivation, where `check` accepts them. For callers that go on with
/// a derivation: they need not read the bytes again.
pub fn accept(
    alloc: Global,
    problem: &Problem,
    bytes: &[u8],
) -> Result<(Version, TextDerivation), AcceptFault>
    ensures text { IfOk result (λ r. IsTextIn r.0 problem.now (stated r.1) bytes.now) }
    ensures numbers { IfOk result (λ r. r.1 ≡ numbering (stated r.1)) }
    ensures printable { IfOk result (λ r. IsTrue (is_printable problem.now (stated r.1))) }
    ensures derives { IfOk result (λ r. Derives problem.now (stated r.1)) }
    ensures accepted { OnOk result (IsOnlyVersionJudgement problem.now bytes.now accepted) }
    ensures rejected { (line : ℕ) (fault : CheckFault) → result ≡ Err (answer.Rejected line fault)
        → IsOnlyVersionJudgement problem.now bytes.now (rejected line fault) }
{
    match read(alloc, problem, bytes) {
        Ok((version, derivation)) => match judge(alloc, problem, version, &derivation)? {
            Verdict::Accepted => Ok((version, derivation)),
            Verdict::Rejected { line, fault } => Err(AcceptFault::Rejected { line, fault }),
        },
        Err(ParseFault::Text { line, cause }) => {
            let fault = CheckFault::Text(cause);
            Err(AcceptFault::Rejected { line, fault })
        }
        Err(ParseFault::NoMemory) => Err(AcceptFault::NoMemory),
    }
}
