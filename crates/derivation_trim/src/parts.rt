ghost use Rattle.std.specs.Prelude.{◌≡◌, Some};
ghost use Rattle.derivation_trim.specs.BranchView.{the_bare};
ghost use Rattle.derivation_trim.specs.PlaceView.{the_parts};
ghost use Rattle.trim_theory.specs.Editing.{components_in};

use formula_core::{Components, Signed};

/// The components of a signed formula, of which a literal is its own.
#[derive(Clone, Copy)]
pub enum Parts<'a> {
    One(Signed<'a>),
    Two(Signed<'a>, Signed<'a>),
}

pub fn parts_of<'a>(whole: Signed<'a>) -> Parts<'a>
    ensures { components_in (Some (the_bare whole.entry)) ≡ the_parts result }
{
    match whole.formula.components(whole.sign) {
        Components::Literal(_, _) => Parts::One(whole),
        Components::One(a) | Components::Gamma(a) | Components::Delta(a) => Parts::One(a),
        Components::Alpha(a, b) | Components::Beta(a, b) => Parts::Two(a, b),
    }
}
