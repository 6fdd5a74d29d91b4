//! A clause of the matrix.

ghost use Rattle.std.specs.Prelude.{◌≡◌};
ghost use Rattle.search_theory.specs.Matrix.{all_shown};
ghost use Rattle.term_store.specs.TemplateView.{the_template};

use formula_core::Sign;
use tableau_core::Selection;
use term_store::Template;

/// A selection and its template.
#[derive(Drop)]
pub(crate) struct Clause {
    pub selection: Selection,
    pub template: Template,
}

/// Whether all literals have sign F.
pub(crate) fn all_shown(template: &Template) -> bool
    ensures { result ≡ all_shown (the_template template.now) }
{
    for literal in template.literals.items() {
        if literal.sign != Sign::F {
            return false;
        }
    }
    true
}
