//! The selections of a signed formula.

ghost use Rattle.std.specs.Prelude.{◌≡◌, ◌++◌, ◌∷◌, [], IfOk};
ghost use Rattle.calculus.specs.Clauses.{all_joined, selections};
ghost use Rattle.calculus.specs.declared.sign.Side.TheVariants as side;
ghost use Rattle.formula_core.specs.FormulaView.{the_formula};
ghost use Rattle.matrix_build.specs.Behind.{alpha_selections, behind};

use calculus::sign::Side;
use cop_base::NoMemory;
use formula_core::{Components, Formula, Sign, Signed};
use std::alloc::Global;
use tableau_core::Selection;

/// The selections of the clauses of `f` under `sign`, in order.
pub(crate) fn selections(alloc: Global, f: &Formula, sign: Sign) -> Result<Vec<Selection>, NoMemory>
    ensures { IfOk result (λ all. all.items ≡ selections (the_formula f.now) sign) }
{
    let mut all = Vec::new(alloc);
    add_selections(alloc, f, sign, &[], &mut all)?;
    Ok(all)
}

// Adds the selections of `f`, each behind the sides `before`, so that the work follows what is
// built.
#[cycle(add_selections)]
#[tactic(auto, using(crate::proofs::Behind::selections_by_components))]
fn add_selections(
    alloc: Global,
    f: &Formula,
    sign: Sign,
    before: &[Side],
    all: &mut Vec<Selection>,
) -> Result<(), NoMemory>
    ensures { IfOk result (λ _. all.new.items
        ≡ all.old.items ++ behind before.now (selections (the_formula f.now) sign)) }
{
    match f.components(sign) {
        Components::Literal(_, _) => add_copy(alloc, before, &[], all),
        Components::One(a) | Components::Gamma(a) | Components::Delta(a) => {
            add_selections(alloc, a.formula, a.sign, before, all)
        }
        Components::Alpha(a, b) => add_alpha(alloc, a, b, before, all),
        Components::Beta(a, b) => add_beta(alloc, a, b, before, all),
    }
}

// The selections of either part, each behind its side.
#[cycle(add_selections)]
fn add_alpha(
    alloc: Global,
    a: Signed,
    b: Signed,
    before: &[Side],
    all: &mut Vec<Selection>,
) -> Result<(), NoMemory>
    ensures { IfOk result (λ _. all.new.items ≡ all.old.items
        ++ behind before.now (alpha_selections
        (selections (the_formula a.entry.formula.now) a.entry.sign)
        (selections (the_formula b.entry.formula.now) b.entry.sign))) }
{
    let left = and_side(alloc, before, Side::Left)?;
    add_selections(alloc, a.formula, a.sign, &left, all)?;
    let right = and_side(alloc, before, Side::Right)?;
    add_selections(alloc, b.formula, b.sign, &right, all)?;
    Ok(())
}

// A selection for each pair of one of the first part and one of the second.
#[cycle(add_selections)]
fn add_beta(
    alloc: Global,
    a: Signed,
    b: Signed,
    before: &[Side],
    all: &mut Vec<Selection>,
) -> Result<(), NoMemory>
    ensures { IfOk result (λ _. all.new.items ≡ all.old.items
        ++ behind before.now (all_joined (selections (the_formula a.entry.formula.now) a.entry.sign)
        (selections (the_formula b.entry.formula.now) b.entry.sign))) }
{
    let mut first = Vec::new(alloc);
    add_selections(alloc, a.formula, a.sign, before, &mut first)?;
    let mut second = Vec::new(alloc);
    add_selections(alloc, b.formula, b.sign, &[], &mut second)?;
    for sides in first.iter() {
        add_joined(alloc, sides.items(), &second, all)?;
    }
    Ok(())
}

// Adds the first sides joined with each of the seconds.
fn add_joined(
    alloc: Global,
    first: &[Side],
    seconds: &[Selection],
    all: &mut Vec<Selection>,
) -> Result<(), NoMemory>
    ensures { IfOk result (λ _. all.new.items ≡ all.old.items ++ behind first.now seconds.now) }
{
    for second in seconds {
        add_copy(alloc, first, second.items(), all)?;
    }
    Ok(())
}

// Adds the selection of the first sides and then the second ones.
fn add_copy(
    alloc: Global,
    first: &[Side],
    second: &[Side],
    all: &mut Vec<Selection>,
) -> Result<(), NoMemory>
    ensures { IfOk result (λ _. all.new.items ≡ all.old.items ++ (first.now ++ second.now) ∷ []) }
{
    let mut selection = Selection::new(alloc);
    extend(&mut selection, first)?;
    extend(&mut selection, second)?;
    all.push(selection)?;
    Ok(())
}

fn extend(selection: &mut Selection, sides: &[Side]) -> Result<(), NoMemory>
    ensures { IfOk result (λ _. selection.new ≡ selection.old ++ sides.now) }
{
    for side in sides {
        selection.push(*side)?;
    }
    Ok(())
}

fn and_side(alloc: Global, before: &[Side], side: Side) -> Result<Vec<Side>, NoMemory>
    ensures { IfOk result (λ sides. sides.items ≡ before.now ++ side ∷ []) }
{
    let mut sides = Vec::new(alloc);
    sides.extend_from_slice(before)?;
    sides.push(side)?;
    Ok(sides)
}
