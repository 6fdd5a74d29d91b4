//! Unifying one pair of terms.

ghost use Rattle.std.specs.Prelude.{◌≡◌, ◌<◌, IfOk, MatchOption, length, ⊤};
ghost use Rattle.store_theory.specs.Bindings.{AreApart, BindsOnly, BindsWithin, KeepsMarks, Unifies};
ghost use Rattle.term_store.specs.Room.{KeepsRoom};
ghost use Rattle.term_unify.specs.Closed.{IsClosedBelow};

use cop_base::NoMemory;
use term_store::{Ref, Store};
use term_unify::Unifier;

/// Binds so that the two terms are equal, where they can be. Cells below the number name such cells
/// alone. The answer is a number below which this holds afterwards.
pub(crate) fn unify_pair(
    unifier: &mut Unifier,
    store: &mut Store,
    below: usize,
    x: Ref,
    y: Ref,
) -> Result<Option<usize>, NoMemory>
    requires left { x.0 < length store.old.store.cells }
    requires right { y.0 < length store.old.store.cells }
    requires closed { IsClosedBelow below store.old.store }
    ensures unifies { IfOk result (λ o. MatchOption o (AreApart x.0 y.0 store.old.store)
        (λ n. Unifies x.0 y.0 store.old.store store.new.store)) }
    ensures closed { IfOk result (λ o. MatchOption o ⊤ (λ n. IsClosedBelow n store.new.store)) }
    ensures marks { KeepsMarks store.old.store store.new.store }
    ensures binds { BindsOnly store.old.store store.new.store }
    ensures within { BindsWithin x.0 y.0 store.old.store store.new.store }
    ensures room { KeepsRoom store.old store.new }
{
    let mut closed = below;
    let equal = unifier.unify_below(store, &mut closed, x, y)?;
    if equal {
        return Ok(Some(closed));
    }
    Ok(None)
}
