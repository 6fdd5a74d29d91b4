//! Unifying and comparing atoms.

ghost use Rattle.std.specs.Prelude.{◌≡◌, ◌<◌, ◌≤◌, ◌&&◌, ◌==◌, ℕ, Some, IfOk, IsTrue};
ghost use Rattle.std.specs.Prelude.{false, length, map, not, slice_get, true, nat_le};
ghost use Rattle.std.specs.List.{list_all};
ghost use Rattle.calculus.specs.declared.sort.Sort.TheVariants.{TermSort};
ghost use Rattle.store_theory.specs.Bindings.{BindsOnly, KeepsMarks, NamesFrom};
ghost use Rattle.calculus.specs.Equality.{sign_eq};
ghost use Rattle.calculus.specs.Kinds as kinds;
ghost use Rattle.store_theory.specs.Stores.{has_sort_at};
ghost use Rattle.calculus.specs.Syntax.{Problem};
ghost use Rattle.search_tree.specs.OwnStores.{AreOwn};
ghost use Rattle.search_theory.specs.CellsIn.{IsAtomIn};
ghost use Rattle.search_theory.specs.Regular.{AreSame};
ghost use Rattle.search_theory.specs.OrderedChoices as choices;
ghost use Rattle.search_theory.specs.States.{atom_is_below};
ghost use Rattle.search_theory.specs.Steps.{AreUnified, Clash};
ghost use Rattle.search_tree.specs.MetAtom.{met_atom};
ghost use Rattle.term_store.specs.ClauseView.{the_atom, the_pattern_atom};
ghost use Rattle.term_store.specs.RefView.{the_place};
ghost use Rattle.term_store.specs.Room.{KeepsRoom};
ghost use Rattle.term_unify.specs.Closed.{IsClosedBelow};

use crate::pair::unify_pair;
use calculus::sign::Sign;
use cop_base::NoMemory;
use term_store::{CellAtom, PatternAtom, Prefix, Ref, Store};
use term_unify::{Unifier, are_same_cells};

pub(crate) fn are_same_sign(a: Sign, b: Sign) -> bool
    ensures { result ≡ sign_eq a b }
{
    match (a, b) {
        (Sign::T, Sign::T) | (Sign::F, Sign::F) => true,
        (Sign::T, Sign::F) | (Sign::F, Sign::T) => false,
    }
}

pub fn other(sign: Sign) -> Sign
    ensures { result ≡ kinds.other sign }
{
    match sign {
        Sign::T => Sign::F,
        Sign::F => Sign::T,
    }
}

/// Whether symbol and signs let the two be connected.
pub fn meets(goal: &CellAtom, atom: &CellAtom) -> bool
    ensures { result ≡ choices.meets (the_atom goal.now) (the_atom atom.now) }
{
    !are_same_sign(goal.sign, atom.sign) && goal.symbol.0 == atom.symbol.0
}

// The reference at the place.
pub fn reference_at(refs: &[Ref], i: usize) -> Ref
    requires { i < length refs.now }
    ensures { slice_get (map the_place refs.now) i ≡ Some result.0 }
{
    refs[i]
}

/// Binds so that the lists of terms are equal. Where they cannot be, some bindings may be left.
/// Cells below the number name such cells alone.
pub(crate) fn unify_all(
    unifier: &mut Unifier,
    store: &mut Store,
    below: usize,
    xs: &[Ref],
    ys: &[Ref],
) -> Result<bool, NoMemory>
    requires left { IsTrue (list_all (has_sort_at store.old.store TermSort)
        (map the_place xs.now)) }
    requires right { IsTrue (list_all (has_sort_at store.old.store TermSort)
        (map the_place ys.now)) }
    requires closed { IsClosedBelow below store.old.store }
    ensures unified { IfOk result (λ equal. equal ≡ true
        → AreUnified store.old.store store.new.store (map the_place xs.now)
        (map the_place ys.now)) }
    ensures clash { IfOk result (λ equal. equal ≡ false
        → Clash store.old.store (map the_place xs.now) (map the_place ys.now)) }
    ensures marks { KeepsMarks store.old.store store.new.store }
    ensures binds { BindsOnly store.old.store store.new.store }
    ensures names { (base : ℕ) → NamesFrom base store.old.store
        → IsTrue (list_all (nat_le base) (map the_place xs.now))
        → IsTrue (list_all (nat_le base) (map the_place ys.now))
        → NamesFrom base store.new.store }
    ensures room { KeepsRoom store.old store.new }
{
    if xs.len() != ys.len() {
        return Ok(false);
    }
    let mut closed = below;
    for i in 0..xs.len() {
        match unify_pair(
            unifier,
            store,
            closed,
            reference_at(xs, i),
            reference_at(ys, i),
        )? {
            Some(number) => closed = number,
            None => return Ok(false),
        }
    }
    Ok(true)
}

/// The connected literal with the goal's own arguments, which matching has made equal to it.
pub(crate) fn met_atom(
    store: &mut Store,
    literal: &PatternAtom,
    terms: &[Ref],
    label: Prefix,
) -> Result<CellAtom, NoMemory>
    ensures atom { IfOk result (λ atom. the_atom atom ≡ met_atom (the_pattern_atom literal.now) (map
        the_place terms.now) label) }
    ensures store { store.new ≡ store.old }
{
    let args = store.list_of(terms)?;
    Ok(CellAtom {
        sign: literal.sign,
        symbol: literal.symbol,
        args,
        label,
    })
}

/// Whether the bindings make the two the same signed atom at one label.
pub(crate) fn are_same(
    unifier: &mut Unifier,
    store: &Store,
    a: &CellAtom,
    b: &CellAtom,
) -> Result<bool, NoMemory>
    requires left { IsTrue (atom_is_below (length store.now.store.cells) (the_atom a.now)) }
    requires right { IsTrue (atom_is_below (length store.now.store.cells) (the_atom b.now)) }
    ensures same { IfOk result (λ same. same ≡ true
        → AreSame store.now.store (the_atom a.now) (the_atom b.now)) }
    ensures different { IfOk result (λ same. same ≡ false → (P : Problem) (base : ℕ)
        → AreOwn P base store.now.store
        → IsAtomIn (λ r. base ≤ r) store.now.store (the_atom a.now)
        → IsAtomIn (λ r. base ≤ r) store.now.store (the_atom b.now)
        → ¬ AreSame store.now.store (the_atom a.now) (the_atom b.now)) }
{
    let _now = store.mark();
    if !are_same_sign(a.sign, b.sign) {
        return Ok(false);
    }
    if a.symbol.0 != b.symbol.0 {
        return Ok(false);
    }
    if !are_same_cells(unifier, store, a.args.items(), b.args.items())? {
        return Ok(false);
    }
    let same = are_same_cells(unifier, store, a.label.items(), b.label.items())?;
    Ok(same)
}
