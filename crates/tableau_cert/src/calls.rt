//! Tableaux and their texts.

ghost use Rattle.std.specs.Prelude.{◌≡◌, ℕ, Err, IfOk, IsTrue};
ghost use Rattle.calculus.specs.DerivationText.{is_limit};
ghost use Rattle.calculus.specs.Problems.{is_problem};
ghost use Rattle.calculus.specs.TableauText as tree;
ghost use Rattle.calculus.specs.Tableaux.{is_closed};
ghost use Rattle.calculus.specs.declared.fault.TableauFault.{TableauFault};
ghost use Rattle.tableau_core.specs.Numbered.TableauView.{the_tableau};
ghost use Rattle.tableau_cert.specs.Building.{IsBuilt};
ghost use Rattle.tableau_cert.specs.Exact.{AreTextsExact};
ghost use Rattle.tableau_text.specs.MovesView.{the_moves};
ghost use Rattle.tableau_cert.specs.VerdictView.{the_verdict};
ghost use Rattle.tableau_cert.specs.declared.parse_fault.TableauParse.TheVariants as answer;

use crate::building::tableau_from;
use crate::flattening::moves_of;
use crate::judging::judge;
use crate::numbers::moves_fit;
use crate::parse_fault::TableauParse;
use crate::resolving::resolve;
use crate::verdict::TableauVerdict;
use cop_base::NoMemory;
use logic_rules::Problem;
use std::alloc::Global;
use tableau_core::Tableau;
use tableau_text::{Moves, ReadFault, read, write};

/// The text of a tableau that is closed within the limit.
pub fn print_tableau(
    alloc: Global,
    problem: &Problem,
    t: &Tableau,
    limit: u8,
) -> Result<Vec<u8>, NoMemory>
    requires limit { IsTrue (is_limit limit) }
    requires closed { IsTrue (is_closed problem.now limit (the_tableau t.now)) }
    ensures { IfOk result (λ bytes. tree.IsClosedText problem.now (the_tableau t.now) limit bytes.items) }
{
    let moves = moves_of(alloc, t, limit)?;
    moves_fit(&moves);
    let text = write(alloc, problem, &moves)?;
    Ok(text)
}

// The tableau of moves that are accepted. Their instances are found again once they are, so that what
// is rejected costs no more than the lines up to the one that is wrong.
fn tableau_of(alloc: Global, problem: &Problem, moves: &Moves) -> Result<Tableau, TableauParse>
    ensures built { IfOk result (λ t. IsBuilt problem.now (the_moves moves.now) (the_tableau t)) }
    ensures bad { (line : ℕ) (fault : TableauFault) → result ≡ Err (answer.Bad line fault) → tree.tableau_verdict problem.now (the_moves moves.now) ≡ tree.tableau_rejected line fault }
{
    let verdict = judge(alloc, problem, moves)?;
    match verdict {
        TableauVerdict::Rejected { line, fault } => Err(TableauParse::Bad { line, fault }),
        TableauVerdict::Accepted => {
            let resolved = resolve(alloc, problem, moves)?;
            let tableau = tableau_from(alloc, resolved)?;
            Ok(tableau)
        }
    }
}

/// The tableau of the text, and the limit that it states and within which the tableau is closed.
pub fn parse_tableau(
    alloc: Global,
    problem: &Problem,
    bytes: &[u8],
) -> Result<(Tableau, u8), TableauParse>
    ensures closed { IfOk result (λ r. tree.IsClosedText problem.now (the_tableau r.0) r.1 bytes.now) }
    ensures bad { (line : ℕ) (fault : TableauFault) → result ≡ Err (answer.Bad line fault) → tree.IsTableauJudgement problem.now bytes.now (tree.tableau_rejected line fault) }
{
    match read(alloc, problem, bytes) {
        Ok(moves) => {
            let tableau = tableau_of(alloc, problem, &moves)?;
            Ok((tableau, moves.limit))
        }
        Err(ReadFault::Wrong { line, fault }) => Err(TableauParse::Bad { line, fault }),
        Err(ReadFault::NoMemory) => Err(TableauParse::NoMemory),
    }
}

// The judgement of the bytes.
fn judgement_of(alloc: Global, problem: &Problem, bytes: &[u8]) -> Result<TableauVerdict, NoMemory>
    ensures judgement { IfOk result (λ v. tree.IsTableauJudgement problem.now bytes.now (the_verdict v)) }
    ensures well { IsTrue (is_problem problem.now) }
{
    match read(alloc, problem, bytes) {
        Ok(moves) => {
            let verdict = judge(alloc, problem, &moves)?;
            Ok(verdict)
        }
        Err(ReadFault::Wrong { line, fault }) => Ok(TableauVerdict::Rejected { line, fault }),
        Err(ReadFault::NoMemory) => Err(NoMemory),
    }
}

/// Whether the bytes are the text of a tableau that is closed within the limit that they state: faults
/// of the text come first, over the whole text, then those of the lines, in order.
pub fn check_tableau(
    alloc: Global,
    problem: &Problem,
    bytes: &[u8],
) -> Result<TableauVerdict, NoMemory>
    ensures judgement { IfOk result (λ v. tree.IsTableauJudgement problem.now bytes.now (the_verdict v)) }

    // There is no other judgement.
    ensures one { (v w : tree.TableauVerdict) → tree.IsTableauJudgement problem.now bytes.now v → tree.IsTableauJudgement problem.now bytes.now w → v ≡ w }

    // Acceptance is that of the one text of a closed tableau.
    ensures exact { AreTextsExact problem.now }
{
    let verdict = judgement_of(alloc, problem, bytes)?;
    Ok(verdict)
}
