//! Reading the head.

ghost use Rattle.std.specs.Prelude.{◌≡◌, ◌≤◌, ◌∷◌, ℕ, List, length, drop, IsNone, IfSome, IfOk, IsTrue, Err};
ghost use Rattle.calculus.specs.DerivationText.{is_limit};
ghost use Rattle.calculus.specs.FirstWrong.{whole_lines};
ghost use Rattle.calculus.specs.Problems.{is_problem};
ghost use Rattle.text_lines.specs.Head.{IsHeadFault, IsHeadRead, formula_line, limit_line, setting_line};
ghost use Rattle.text_lines.specs.Lines.{IsLineAt};

use crate::head_line::{HeadFault, HeadLine};
use crate::lines::{after_line, line_at};
use crate::parts::{read_limit, rest_after};
use cop_base::NoMemory;
use formula_text::{write_formula, write_setting};
use logic_rules::Problem;
use std::alloc::{AllocError, Global};

// The limit of a line that begins at a place, and the place after the line.
fn limit_after(text: &[u8], from: usize) -> Option<(u8, usize)>
    requires { from ≤ length text.now }
    ensures some { IfSome result (λ r. IsLineAt text.now from r.1 (limit_line r.0)) }
    ensures limit { IfSome result (λ r. IsTrue (is_limit r.0)) }
    ensures none { IsNone result → (n : ℕ) (more : List (List ℕ)) → IsTrue (is_limit n)
        → ¬ (whole_lines (drop from text.now) ≡ limit_line n ∷ more) }
{
    let (line, to) = line_at(text, from)?;
    let rest = rest_after(line, b"limit ")?;
    let limit = read_limit(rest)?;
    Some((limit, to))
}

/// The second line.
pub fn setting_line(alloc: Global, problem: &Problem) -> Result<Vec<u8>, NoMemory>
    ensures text { IfOk result (λ v. v.items ≡ setting_line problem.now) }
    ensures well { IsTrue (is_problem problem.now) }
{
    let setting = problem.setting();
    let mut out = Vec::new(alloc);
    out.extend_from_slice(b"logic ")?;
    write_setting(&mut out, setting)?;
    Ok(out)
}

fn formula_line(alloc: Global, problem: &Problem) -> Result<Vec<u8>, NoMemory>
    ensures { IfOk result (λ v. v.items ≡ formula_line problem.now) }
{
    let mut out = Vec::new(alloc);
    out.extend_from_slice(b"formula ")?;
    write_formula(&mut out, problem.symbols(), problem.formula())?;
    Ok(out)
}

/// The limit, and the place after a head with this first line.
pub fn read_head(
    alloc: Global,
    problem: &Problem,
    first: &[u8],
    bytes: &[u8],
) -> Result<(u8, usize), HeadFault>
    ensures ok { IfOk result (λ r. IsHeadRead first.now problem.now bytes.now r.1 r.0) }
    ensures wrong { (line : HeadLine) → result ≡ Err (HeadFault.Wrong line)
        → IsHeadFault first.now problem.now bytes.now line }
    ensures well { IsTrue (is_problem problem.now) }
{
    let setting = setting_line(alloc, problem)?;
    let Some(second) = after_line(bytes, 0, first) else {
        return Err(HeadFault::Wrong(HeadLine::First));
    };
    let Some(third) = after_line(bytes, second, setting.as_slice()) else {
        return Err(HeadFault::Wrong(HeadLine::Setting));
    };
    let formula = formula_line(alloc, problem)?;
    let Some(fourth) = after_line(bytes, third, formula.as_slice()) else {
        return Err(HeadFault::Wrong(HeadLine::Formula));
    };
    let Some((limit, end)) = limit_after(bytes, fourth) else {
        return Err(HeadFault::Wrong(HeadLine::Limit));
    };
    Ok((limit, end))
}
