//! The judgement of bytes as a derivation of a problem.

ghost use Rattle.std.specs.Prelude.{◌≡◌, IfOk, IsTrue};
ghost use Rattle.calculus.specs.Derivations as derivation;
ghost use Rattle.calculus.specs.VersionJudgement.{IsVersionJudgement};
ghost use Rattle.derivation_check.specs.Only.{IsOnlyVersionJudgement};
ghost use Rattle.calculus.specs.Problems.{is_problem};
ghost use Rattle.calculus.specs.Soundness.{IsSound, IsTrueInStructures};
ghost use Rattle.derivation_check.specs.Reading.{AtMostOneReading};
ghost use Rattle.derivation_check.specs.VerdictView.{the_verdict};

use crate::steps::judge;
use crate::verdict::Verdict;
use calculus::fault::CheckFault;
use cop_base::NoMemory;
use derivation_text::{ParseFault, read};
use logic_rules::Problem;
use std::alloc::Global;

/// Judges bytes as the text of a derivation of the problem, in either version: faults of the text first, over the
/// whole text, then those of the steps in their order, then whether a branch is open.
pub fn check(alloc: Global, problem: &Problem, bytes: &[u8]) -> Result<Verdict, NoMemory>
    ensures judgement { IfOk result (λ v. IsOnlyVersionJudgement problem.now bytes.now (the_verdict v)) }

    // From one sequent two readings of a list of steps leave the same rest.
    ensures one_reading { (names : derivation.Names) → AtMostOneReading problem.now names }

    // What has a derivation is true in each structure of the setting, so a formula that a finite one
    // makes false has none; what is accepted is true in each.
    ensures sound { IsSound problem.now }
    ensures valid { IfOk result (λ v. v ≡ Verdict.Accepted → IsTrueInStructures problem.now) }
{
    let verdict = judgement_of(alloc, problem, bytes)?;
    Ok(verdict)
}

fn judgement_of(alloc: Global, problem: &Problem, bytes: &[u8]) -> Result<Verdict, NoMemory>
    ensures judgement { IfOk result (λ v. IsVersionJudgement problem.now bytes.now (the_verdict v)) }
    ensures well { IsTrue (is_problem problem.now) }
{
    match read(alloc, problem, bytes) {
        Ok((version, derivation)) => {
            let verdict = judge(alloc, problem, version, &derivation)?;
            Ok(verdict)
        }
        Err(ParseFault::Text { line, cause }) => Ok(Verdict::Rejected {
            line,
            fault: CheckFault::Text(cause),
        }),
        Err(ParseFault::NoMemory) => Err(NoMemory),
    }
}
