//! What one pair of cells comes to.

ghost use Rattle.std.specs.Prelude.{◌≡◌, ◌<◌, OnOk, Some, false, length, map, slice_get, true};
ghost use Rattle.store_theory.specs.Bindings.{IsWellFormed};
ghost use Rattle.calculus.specs.Equality.{sort_eq};
ghost use Rattle.term_store.specs.Shown.{the_head};
ghost use Rattle.term_store.specs.StoreView.{part_count};
ghost use Rattle.term_unify.specs.Steps.{AddsParts, AreBuilt, IsStep, head_sort, is_open_head, same_name};
ghost use Rattle.term_unify.specs.PairView.{the_pair};

use calculus::sort::Sort;
use cop_base::NoMemory;
use term_store::{Content, End, Ref, Store};

// What a pair comes to: its cells are equal, cannot be equal, are equal exactly where an unbound variable and another
// cell at which bindings end are, or exactly where the parts of two built cells are.
pub(crate) enum Step {
    Same,
    Apart,
    Bind(Ref, Ref),
    Parts(Ref, Ref),
}

pub(crate) fn sort_of(content: Content) -> Sort
    ensures { result ≡ head_sort (the_head content) }
{
    match content {
        Content::Open(sort) => sort,
        Content::Bound(sort, _) => sort,
        Content::Fun(_, _) => Sort::TermSort,
        Content::Eigen(_, _) => Sort::TermSort,
        Content::New(_, _) => Sort::MarkSort,
        Content::Marks(_) => Sort::StringSort,
    }
}

pub(crate) fn is_open(content: Content) -> bool
    ensures { result ≡ is_open_head (the_head content) }
{
    match content {
        Content::Open(_) => true,
        Content::Bound(_, _) => true,
        Content::Fun(_, _) => false,
        Content::Eigen(_, _) => false,
        Content::New(_, _) => false,
        Content::Marks(_) => false,
    }
}

// How many parts a cell with this content has.
pub(crate) fn count_in(content: Content) -> u32
    ensures { result ≡ part_count content }
{
    match content {
        Content::Open(_) => 0,
        Content::Bound(_, _) => 0,
        Content::Fun(_, parts) => parts,
        Content::Eigen(_, parts) => parts,
        Content::New(_, parts) => parts,
        Content::Marks(parts) => parts,
    }
}

pub(crate) fn are_same_sort(a: Sort, b: Sort) -> bool
    ensures { result ≡ sort_eq a b }
{
    match (a, b) {
        (Sort::TermSort, Sort::TermSort) => true,
        (Sort::MarkSort, Sort::MarkSort) => true,
        (Sort::StringSort, Sort::StringSort) => true,
        _ => false,
    }
}

// Built cells of one kind and name.
fn have_same_name(a: Content, b: Content) -> bool
    ensures { result ≡ same_name (the_head a) (the_head b) }
{
    match (a, b) {
        (Content::Fun(f, _), Content::Fun(g, _)) => f.0 == g.0,
        (Content::Eigen(p, _), Content::Eigen(q, _)) => p.0 == q.0,
        (Content::New(p, _), Content::New(q, _)) => p.0 == q.0,
        (Content::Marks(_), Content::Marks(_)) => true,
        _ => false,
    }
}

// Whether the one on the right is to be bound: an unbound variable, the newer one of two.
fn is_right_bound(left: End, right: End) -> bool
    ensures open { result ≡ true → is_open_head (the_head right.content) ≡ true }
    ensures built { result ≡ false → is_open_head (the_head left.content) ≡ false
        → is_open_head (the_head right.content) ≡ false }
{
    if !is_open(right.content) {
        return false;
    }
    if !is_open(left.content) {
        return true;
    }
    left.place.0 < right.place.0
}

// Looks at the ends of the bindings.
#[inline(always)]
pub(crate) fn compare(store: &Store, a: Ref, b: Ref) -> Step
    requires left { a.0 < length store.now.store.cells }
    requires right { b.0 < length store.now.store.cells }
    ensures step { IsStep store.now.store a.0 b.0 result }
    ensures well { IsWellFormed store.now.store }
{
    let left = store.end(a);
    let right = store.end(b);
    if left.place.0 == right.place.0 {
        return Step::Same;
    }
    if is_right_bound(left, right) {
        if !are_same_sort(sort_of(right.content), sort_of(left.content)) {
            return Step::Apart;
        }
        return Step::Bind(right.place, left.place);
    }
    if is_open(left.content) {
        if !are_same_sort(sort_of(left.content), sort_of(right.content)) {
            return Step::Apart;
        }
        return Step::Bind(left.place, right.place);
    }
    if !have_same_name(left.content, right.content) {
        return Step::Apart;
    }
    if count_in(left.content) != count_in(right.content) {
        return Step::Apart;
    }
    Step::Parts(left.place, right.place)
}

// The part of this number.
pub(crate) fn part_in(parts: &[u32], i: usize) -> Ref
    requires { i < length parts.now }
    ensures { slice_get parts.now i ≡ Some result.0 }
{
    Ref(parts[i])
}

// Appends the pairs of the parts of two built cells.
pub(crate) fn push_parts(
    store: &Store,
    a: Ref,
    b: Ref,
    pairs: &mut Vec<(Ref, Ref)>,
) -> Result<(), NoMemory>
    requires { AreBuilt store.now.store a.0 b.0 }
    ensures well { IsWellFormed store.now.store }
    ensures added { OnOk result (AddsParts store.now.store a.0 b.0 (map the_pair pairs.old.items)
        (map the_pair pairs.new.items)) }
{
    let left = store.parts_at(a);
    let right = store.parts_at(b);
    for i in 0..left.len() {
        let x = part_in(left, i);
        let y = part_in(right, i);
        pairs.push((x, y))?;
    }
    Ok(())
}
