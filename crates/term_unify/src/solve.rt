//! Unification.

ghost use Rattle.std.specs.Prelude.{◌≡◌, ◌<◌, ◌≤◌, IfOk, None, OnErr, OnOk, Some, false, length, map, slice_get, true};
ghost use Rattle.calculus.specs.declared.sort.Sort.{Sort};
ghost use Rattle.calculus.specs.Equality.{sort_eq};
ghost use Rattle.store_theory.specs.Bindings.{AreApart, BindsOnly, BindsWithin, IsWellFormed, KeepsMarks, SolvesPairs, Unifies, with_binding};
ghost use Rattle.store_theory.specs.Stores.{Solution, Solves, Store as TreeStore, variable};
ghost use Rattle.term_store.specs.Room.{KeepsRoom};
ghost use Rattle.term_store.specs.Shown.{the_head};
ghost use Rattle.term_unify.specs.Closed.{IsClosedBelow};
ghost use Rattle.term_unify.specs.PairView.{the_pair};
ghost use Rattle.term_unify.specs.Steps.{AreBuilt, AreCells, AreDifferent};
ghost use Rattle.term_unify.specs.Steps.{BindsInPairs, IsNext, SolvesAll, head_sort, is_open_head};

use crate::check::occurs_from;
use crate::compare::{Step, are_same_sort, compare, is_open, push_parts, sort_of};
use crate::visited::Visited;
use cop_base::NoMemory;
use std::alloc::Global;
use term_store::{End, Ref, Store};

// What pairs come to: all are equal, one cannot be, or an unbound variable and a cell are to be equal beside those that
// are left.
enum Next {
    Done,
    Apart,
    Bind(Ref, Ref),
}

// Goes on until there is something to bind. Built cells of which a pair was visited are not compared again: their parts
// are equal where the pairs that are left are.
fn next_binding(
    store: &Store,
    pairs: &mut Vec<(Ref, Ref)>,
    visited: &mut Visited,
) -> Result<Next, NoMemory>
    requires { AreCells store.now.store (map the_pair pairs.old.items) }
    ensures next { IfOk result (IsNext store.now.store (map the_pair pairs.old.items) (map the_pair pairs.new.items)) }
    ensures cells { OnOk result (AreCells store.now.store (map the_pair pairs.new.items)) }
{
    visited.clear();
    while let Some((a, b)) = pairs.pop() {
        match compare(store, a, b) {
            Step::Same => {}
            Step::Apart => return Ok(Next::Apart),
            Step::Bind(v, to) => return Ok(Next::Bind(v, to)),
            Step::Parts(left, right) => {
                if visited.visit(left.0, right.0)? {
                    push_parts(store, left, right, pairs)?;
                }
            }
        }
    }
    Ok(Next::Done)
}

// The number below which cells name such cells alone when the variable is bound to the cell, where they did so below
// `below`.
fn closed_by(below: usize, v: Ref, to: Ref) -> usize
    ensures { (s : TreeStore) (sort : Sort) → slice_get s.cells v.0 ≡ Some (variable sort None)
        → IsClosedBelow below s → IsClosedBelow result (with_binding v.0 to.0 s) }
{
    if below <= v.0 as usize {
        return below;
    }
    if (to.0 as usize) < below {
        return below;
    }
    0
}

// Binds until all pairs are equal. Otherwise it leaves some bindings behind. Cells below the number name such cells
// alone, before and after.
fn solve_pairs(
    store: &mut Store,
    below: &mut usize,
    pairs: &mut Vec<(Ref, Ref)>,
    places: &mut Vec<Ref>,
    visited: &mut Visited,
) -> Result<bool, NoMemory>
    requires cells { AreCells store.old.store (map the_pair pairs.old.items) }
    requires closed { IsClosedBelow below.old store.old.store }
    ensures solved { IfOk result (λ equal. equal ≡ true → SolvesAll store.old.store store.new.store (map the_pair pairs.old.items)) }
    ensures closed { IfOk result (λ equal. equal ≡ true → IsClosedBelow below.new store.new.store) }
    ensures apart { IfOk result (λ equal. equal ≡ false → (σ : Solution) → Solves store.old.store σ → ¬ SolvesPairs σ (map the_pair pairs.old.items)) }
    ensures marks { KeepsMarks store.old.store store.new.store }
    ensures binds { BindsOnly store.old.store store.new.store }
    ensures within { BindsInPairs (map the_pair pairs.old.items) store.old.store store.new.store }
    ensures room { KeepsRoom store.old store.new }
    ensures well { IsWellFormed store.new.store }
{
    let _start = store.mark();
    loop {
        match next_binding(store, pairs, visited)? {
            Next::Done => return Ok(true),
            Next::Apart => return Ok(false),
            Next::Bind(v, to) => {
                if occurs_from(store, *below, v, to, places, visited)? {
                    return Ok(false);
                }
                store.reserve(1)?;
                store.bind(v, to);
                *below = closed_by(*below, v, to);
            }
        }
    }
}

// As `solve_pairs`, but otherwise the store is as before.
fn unify_pairs(
    store: &mut Store,
    below: &mut usize,
    pairs: &mut Vec<(Ref, Ref)>,
    places: &mut Vec<Ref>,
    visited: &mut Visited,
) -> Result<bool, NoMemory>
    requires cells { AreCells store.old.store (map the_pair pairs.old.items) }
    requires closed { IsClosedBelow below.old store.old.store }
    ensures solved { IfOk result (λ equal. equal ≡ true
        → SolvesAll store.old.store store.new.store (map the_pair pairs.old.items)) }
    ensures closed { IfOk result (λ equal. equal ≡ true
        → IsClosedBelow below.new store.new.store) }
    ensures apart { IfOk result (λ equal. equal ≡ false → (σ : Solution)
        → Solves store.old.store σ → ¬ SolvesPairs σ (map the_pair pairs.old.items)) }
    ensures unchanged { IfOk result (λ equal. equal ≡ false → store.new.store ≡ store.old.store) }
    ensures no_memory { OnErr result (store.new.store ≡ store.old.store) }
    ensures marks { KeepsMarks store.old.store store.new.store }
    ensures binds { BindsOnly store.old.store store.new.store }
    ensures within { BindsInPairs (map the_pair pairs.old.items) store.old.store store.new.store }
    ensures room { KeepsRoom store.old store.new }
    ensures well { IsWellFormed store.new.store }
{
    let start = store.mark();
    let answer = solve_pairs(store, below, pairs, places, visited);
    if let Ok(true) = answer {
        return answer;
    }
    store.undo(start);
    answer
}

// Whether the right one is an unbound variable whose number is not below `below`, and the left one a cell of its sort
// whose number is.
#[inline(always)]
fn is_newer(below: usize, left: End, right: End) -> bool
    ensures open { result ≡ true → is_open_head (the_head right.content) ≡ true }
    ensures sorts { result ≡ true → sort_eq (head_sort (the_head right.content)) (head_sort (the_head left.content)) ≡ true }
    ensures older { result ≡ true → left.place.0 < below }
    ensures newer { result ≡ true → below ≤ right.place.0 }
{
    if !is_open(right.content) {
        return false;
    }
    if (right.place.0 as usize) < below {
        return false;
    }
    if below <= left.place.0 as usize {
        return false;
    }
    are_same_sort(sort_of(right.content), sort_of(left.content))
}

/// Unification, with room for its work that is used again from call to call.
#[derive(Drop)]
pub struct Unifier {
    pairs: Vec<(Ref, Ref)>,
    places: Vec<Ref>,
    visited: Visited,
    // The parts of patterns that are being copied.
    pub(crate) stack: Vec<u32>,
}

impl Unifier {
    /// A unifier without room.
    pub fn new(alloc: Global) -> Unifier {
        Unifier {
            pairs: Vec::new(alloc),
            places: Vec::new(alloc),
            visited: Visited::new(alloc),
            stack: Vec::new(alloc),
        }
    }

    /// Binds variables so that both cells are equal, where they can be: the answer is true exactly where some ground
    /// solution of the store makes them equal, and then the ground solutions of the new store are exactly those.
    /// Otherwise, and for want of memory, the store is as before.
    pub fn unify(&mut self, store: &mut Store, a: Ref, b: Ref) -> Result<bool, NoMemory>
        requires left { a.0 < length store.old.store.cells }
        requires right { b.0 < length store.old.store.cells }
        ensures unifies { IfOk result (λ equal. equal ≡ true → Unifies a.0 b.0 store.old.store store.new.store) }
        ensures apart { IfOk result (λ equal. equal ≡ false → AreApart a.0 b.0 store.old.store) }
        ensures unchanged { IfOk result (λ equal. equal ≡ false → store.new.store ≡ store.old.store) }
        ensures no_memory { OnErr result (store.new.store ≡ store.old.store) }
        ensures marks { KeepsMarks store.old.store store.new.store }
        ensures binds { BindsOnly store.old.store store.new.store }
        ensures within { BindsWithin a.0 b.0 store.old.store store.new.store }
        ensures room { KeepsRoom store.old store.new }
    {
        let mut below = 0;
        let equal = self.unify_below(store, &mut below, a, b)?;
        Ok(equal)
    }

    /// As `unify`. While cells whose numbers are below a number name such cells alone, as those do that were there before
    /// a copy was made, a variable of the copy is bound to one of them without a look for it. Where the answer is true, the
    /// number that is left is one of which this holds afterwards.
    pub fn unify_below(
        &mut self,
        store: &mut Store,
        below: &mut usize,
        a: Ref,
        b: Ref,
    ) -> Result<bool, NoMemory>
        requires left { a.0 < length store.old.store.cells }
        requires right { b.0 < length store.old.store.cells }
        requires closed { IsClosedBelow below.old store.old.store }
        ensures unifies { IfOk result (λ equal. equal ≡ true → Unifies a.0 b.0 store.old.store store.new.store) }
        ensures closed { IfOk result (λ equal. equal ≡ true → IsClosedBelow below.new store.new.store) }
        ensures apart { IfOk result (λ equal. equal ≡ false → AreApart a.0 b.0 store.old.store) }
        ensures unchanged { IfOk result (λ equal. equal ≡ false → store.new.store ≡ store.old.store) }
        ensures no_memory { OnErr result (store.new.store ≡ store.old.store) }
        ensures marks { KeepsMarks store.old.store store.new.store }
        ensures binds { BindsOnly store.old.store store.new.store }
        ensures within { BindsWithin a.0 b.0 store.old.store store.new.store }
        ensures room { KeepsRoom store.old store.new }
    {
        match compare(store, a, b) {
            Step::Same => Ok(true),
            Step::Apart => Ok(false),
            Step::Bind(v, to) => {
                if occurs_from(store, *below, v, to, &mut self.places, &mut self.visited)? {
                    return Ok(false);
                }
                store.reserve(1)?;
                store.bind(v, to);
                *below = closed_by(*below, v, to);
                Ok(true)
            }
            Step::Parts(left, right) => {
                let equal = self.unify_parts(store, below, left, right)?;
                Ok(equal)
            }
        }
    }

    // As `unify_below`, but an unbound variable on the right that is newer than the other cell, as a pattern's variable
    // is where it occurs for the first time, is bound at once.
    #[inline(always)]
    pub(crate) fn unify_newer(
        &mut self,
        store: &mut Store,
        below: &mut usize,
        a: Ref,
        b: Ref,
    ) -> Result<bool, NoMemory>
        requires left { a.0 < length store.old.store.cells }
        requires right { b.0 < length store.old.store.cells }
        requires closed { IsClosedBelow below.old store.old.store }
        ensures unifies { IfOk result (λ equal. equal ≡ true → Unifies a.0 b.0 store.old.store store.new.store) }
        ensures closed { IfOk result (λ equal. equal ≡ true → IsClosedBelow below.new store.new.store) }
        ensures apart { IfOk result (λ equal. equal ≡ false → AreApart a.0 b.0 store.old.store) }
        ensures marks { KeepsMarks store.old.store store.new.store }
        ensures binds { BindsOnly store.old.store store.new.store }
        ensures within { BindsWithin a.0 b.0 store.old.store store.new.store }
        ensures room { KeepsRoom store.old store.new }
    {
        let left = store.end(a);
        let right = store.end(b);
        if is_newer(*below, left, right) {
            store.reserve(1)?;
            store.bind(right.place, left.place);
            return Ok(true);
        }
        let equal = self.unify_below(store, below, left.place, right.place)?;
        Ok(equal)
    }

    // As `unify_below`, of built cells that are alike.
    fn unify_parts(
        &mut self,
        store: &mut Store,
        below: &mut usize,
        a: Ref,
        b: Ref,
    ) -> Result<bool, NoMemory>
        requires built { AreBuilt store.old.store a.0 b.0 }
        requires closed { IsClosedBelow below.old store.old.store }
        ensures unifies { IfOk result (λ equal. equal ≡ true
            → Unifies a.0 b.0 store.old.store store.new.store) }
        ensures closed { IfOk result (λ equal. equal ≡ true
            → IsClosedBelow below.new store.new.store) }
        ensures apart { IfOk result (λ equal. equal ≡ false → AreApart a.0 b.0 store.old.store) }
        ensures unchanged { IfOk result (λ equal. equal ≡ false
            → store.new.store ≡ store.old.store) }
        ensures no_memory { OnErr result (store.new.store ≡ store.old.store) }
        ensures marks { KeepsMarks store.old.store store.new.store }
        ensures binds { BindsOnly store.old.store store.new.store }
        ensures within { BindsWithin a.0 b.0 store.old.store store.new.store }
        ensures room { KeepsRoom store.old store.new }
    {
        self.pairs.clear();
        push_parts(store, a, b, &mut self.pairs)?;
        let equal = unify_pairs(
            store,
            below,
            &mut self.pairs,
            &mut self.places,
            &mut self.visited,
        )?;
        Ok(equal)
    }
}

impl Unifier {
    /// Whether the bindings make both cells equal already.
    pub fn are_same(&mut self, store: &Store, a: Ref, b: Ref) -> Result<bool, NoMemory>
        requires left { a.0 < length store.now.store.cells }
        requires right { b.0 < length store.now.store.cells }
        ensures same { IfOk result (λ same. same ≡ true → (σ : Solution) → Solves store.now.store σ → σ a.0 ≡ σ b.0) }
        ensures different { IfOk result (λ same. same ≡ false → AreDifferent store.now.store a.0 b.0) }
    {
        match compare(store, a, b) {
            Step::Same => Ok(true),
            Step::Apart => Ok(false),
            Step::Bind(_, _) => Ok(false),
            Step::Parts(left, right) => {
                let same = self.have_same_parts(store, left, right)?;
                Ok(same)
            }
        }
    }

    // As `are_same`, of built cells that are alike.
    fn have_same_parts(&mut self, store: &Store, a: Ref, b: Ref) -> Result<bool, NoMemory>
        requires { AreBuilt store.now.store a.0 b.0 }
        ensures same { IfOk result (λ same. same ≡ true → (σ : Solution) → Solves store.now.store σ
            → σ a.0 ≡ σ b.0) }
        ensures different { IfOk result (λ same. same ≡ false
            → AreDifferent store.now.store a.0 b.0) }
    {
        self.pairs.clear();
        push_parts(store, a, b, &mut self.pairs)?;
        match next_binding(store, &mut self.pairs, &mut self.visited)? {
            Next::Done => Ok(true),
            Next::Apart => Ok(false),
            Next::Bind(_, _) => Ok(false),
        }
    }
}

/// One call of `Unifier::unify`.
pub fn unify(alloc: Global, store: &mut Store, a: Ref, b: Ref) -> Result<bool, NoMemory>
    requires left { a.0 < length store.old.store.cells }
    requires right { b.0 < length store.old.store.cells }
    ensures unifies { IfOk result (λ equal. equal ≡ true → Unifies a.0 b.0 store.old.store store.new.store) }
    ensures apart { IfOk result (λ equal. equal ≡ false → AreApart a.0 b.0 store.old.store) }
    ensures unchanged { IfOk result (λ equal. equal ≡ false → store.new.store ≡ store.old.store) }
    ensures no_memory { OnErr result (store.new.store ≡ store.old.store) }
    ensures marks { KeepsMarks store.old.store store.new.store }
    ensures binds { BindsOnly store.old.store store.new.store }
    ensures within { BindsWithin a.0 b.0 store.old.store store.new.store }
    ensures room { KeepsRoom store.old store.new }
{
    Unifier::new(alloc).unify(store, a, b)
}
