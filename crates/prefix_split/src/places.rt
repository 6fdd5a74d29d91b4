//! Items of lists.

ghost use Rattle.std.specs.Prelude.{◌≡◌, ◌<◌, Some, length, map, slice_get};
ghost use Rattle.term_store.specs.HomeView.{the_home};
ghost use Rattle.term_store.specs.RefView.{the_place};
ghost use Rattle.term_store.specs.SystemView.{the_equation, the_pair};

use term_store::{CellAtom, Equation, Home, Ref};

pub(crate) fn reference_at(refs: &[Ref], i: usize) -> Ref
    requires { i < length refs.now }
    ensures { slice_get (map the_place refs.now) i ≡ Some result.0 }
{
    refs[i]
}

pub(crate) fn length_at(lengths: &[u32], i: usize) -> u32
    requires { i < length lengths.now }
    ensures { slice_get lengths.now i ≡ Some result }
{
    lengths[i]
}

pub(crate) fn equation_at(equations: &[Equation], i: usize) -> &Equation
    requires { i < length equations.now }
    ensures { slice_get (map the_equation equations.now) i ≡ Some (the_equation result.now) }
{
    &equations[i]
}

pub(crate) fn pair_at(pairs: &[(CellAtom, CellAtom)], i: usize) -> &(CellAtom, CellAtom)
    requires { i < length pairs.now }
    ensures { slice_get (map the_pair pairs.now) i ≡ Some (the_pair result.now) }
{
    &pairs[i]
}

pub(crate) fn home_at(homes: &[Home], i: usize) -> &Home
    requires { i < length homes.now }
    ensures { slice_get (map the_home homes.now) i ≡ Some (the_home result.now) }
{
    &homes[i]
}

pub(crate) fn both_at(pairs: &[(usize, usize)], i: usize) -> (usize, usize)
    requires { i < length pairs.now }
    ensures { slice_get pairs.now i ≡ Some result }
{
    pairs[i]
}
