//! The template of a selection.

ghost use Rattle.std.specs.Prelude.{◌≡◌, ◌≤◌, IfOk, length};
ghost use Rattle.store_theory.specs.Templates.{strings_from};
ghost use Rattle.formula_core.specs.FormulaView.{the_formula};
ghost use Rattle.matrix_build.specs.Parts.{IsTemplateIfAny, nothing_built};
ghost use Rattle.matrix_build.specs.PartView.{the_part};
ghost use Rattle.matrix_build.specs.Sizes.{sizes_of};
ghost use Rattle.term_store.specs.TemplateView.{the_template};

use crate::part::Part;
use crate::walk::Plan;
use crate::way::Way;
use calculus::sign::Side;
use cop_base::NoMemory;
use formula_core::{Formula, Sign};
use std::alloc::Global;
use term_store::{Pattern, PatternAtomList, PatternGammaList, Patterns, Sort, SortList, Template};

// The variables of sort string, in order.
fn strings_of(alloc: Global, sorts: &[Sort]) -> Result<Patterns, NoMemory>
    requires { length sorts.now ≤ 4294967295 }
    ensures { IfOk result (λ ps. ps ≡ strings_from 0 sorts.now) }
{
    let mut strings = Patterns::new(alloc);
    for (n, sort) in sorts.iter().enumerate() {
        if *sort == Sort::StringSort {
            strings.push(Pattern::Var(n as u32))?;
        }
    }
    Ok(strings)
}

// A clause of which nothing is built.
fn no_part(alloc: Global, sides: &[Side]) -> Part<'_>
    ensures { the_part result ≡ nothing_built sides.now }
{
    Part {
        literals: PatternAtomList::new(alloc),
        gammas: PatternGammaList::new(alloc),
        pis: 0,
        sorts: SortList::new(alloc),
        sides,
    }
}

impl Plan {
    /// The template of the formula's clause by these sides; where it has none nothing is said.
    #[tactic(auto, using(crate::proofs::SizeTable::whole))]
    pub fn template_of(&self, f: &Formula, sides: &[Side]) -> Result<Template, NoMemory>
        requires { self.now.sizes.items ≡ sizes_of (the_formula f.now) }
        ensures template { IfOk result (λ t. IsTemplateIfAny self.now.logic (the_formula f.now) sides.now
            (the_template t)) }
        ensures few { IfOk result (λ t. length (the_template t).literals ≤ 8000000) }
    {
        let mut part = no_part(self.alloc, sides);
        let way = Way::root(self.alloc);
        self.add_part(f, Sign::F, 0, &way, &mut part)?;
        part.shrink_to_fit();
        let strings = strings_of(self.alloc, part.sorts.items())?;
        Ok(Template {
            literals: part.literals,
            strings,
            pis: part.pis,
            gammas: part.gammas,
            sorts: part.sorts,
        })
    }
}
