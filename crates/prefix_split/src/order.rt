//! What is known of which labels are beginnings of others.

ghost use Rattle.std.specs.Prelude.{◌≡◌, ℕ, List, IfOk, true};
ghost use Rattle.calculus.specs.Ground.{GroundMark};
ghost use Rattle.prefix_split.specs.Beginnings.{Begins, Holds, IsRelated, IsShorter};
ghost use Rattle.prefix_split.specs.Beginnings.{joined};

use crate::bit_table::{BitTable, first_from};
use cop_base::NoMemory;
use std::alloc::Global;

// What is known of two labels: nothing, that the first is a beginning of the second, or that it is
// a shorter one.
#[derive(Clone, Copy)]
pub(crate) enum Relation {
    Unknown,
    Weak,
    Strict,
}

// The relation of nodes as far as it is known, with all that follows from chains. It is refuted
// once that contradicts itself.
#[derive(Drop)]
pub(crate) struct LabelOrder {
    above: BitTable,
    shorter: BitTable,
    // The same as above the other way round, and the children of nodes: they help to find what is
    // known.
    below: BitTable,
    children: BitTable,
    count: usize,
    // Whether more is known than when this was last asked.
    has_grown: bool,
    pub(crate) is_refuted: bool,
}

// What two relations in a row give.
pub(crate) fn joined(a: Relation, b: Relation) -> Relation
    ensures { result ≡ joined a b }
{
    match (a, b) {
        (Relation::Unknown, _) => Relation::Unknown,
        (Relation::Weak, b) => b,
        (Relation::Strict, Relation::Unknown) => Relation::Unknown,
        (Relation::Strict, Relation::Weak) => Relation::Strict,
        (Relation::Strict, Relation::Strict) => Relation::Strict,
    }
}

impl LabelOrder {
    // Of so many nodes it is known that each label begins itself.
    pub(crate) fn new(alloc: Global, count: usize) -> Result<LabelOrder, NoMemory>
        ensures { IfOk result (λ order. (value : ℕ → List GroundMark) → Holds value order) }
    {
        let mut above = BitTable::new(alloc, count)?;
        let shorter = BitTable::new(alloc, count)?;
        let mut below = BitTable::new(alloc, count)?;
        let children = BitTable::new(alloc, count)?;
        for u in 0..count {
            above.set(u, u);
            below.set(u, u);
        }
        Ok(LabelOrder {
            above,
            shorter,
            below,
            children,
            count,
            has_grown: true,
            is_refuted: false,
        })
    }

    // An order of which the same is known.
    pub(crate) fn copy(&self) -> Result<LabelOrder, NoMemory>
        ensures { IfOk result (λ order. (value : ℕ → List GroundMark) → Holds value self.now
            → Holds value order) }
    {
        let above = self.above.copy()?;
        let shorter = self.shorter.copy()?;
        let below = self.below.copy()?;
        let children = self.children.copy()?;
        Ok(LabelOrder {
            above,
            shorter,
            below,
            children,
            count: self.count,
            has_grown: self.has_grown,
            is_refuted: self.is_refuted,
        })
    }

    // Whether the first label is known to be a beginning of the second one.
    pub(crate) fn begins(&self, u: usize, v: usize) -> bool
        ensures { result ≡ true → (value : ℕ → List GroundMark) → Holds value self.now
            → Begins (value u) (value v) }
    {
        self.above.has(u, v)
    }

    // Whether it is known to be a shorter one.
    pub(crate) fn is_shorter(&self, u: usize, v: usize) -> bool
        ensures { result ≡ true → (value : ℕ → List GroundMark) → Holds value self.now
            → IsShorter (value u) (value v) }
    {
        self.shorter.has(u, v)
    }

    // What is known of the two nodes.
    fn relation(&self, u: usize, v: usize) -> Relation
        ensures { (value : ℕ → List GroundMark) → Holds value self.now
            → IsRelated result (value u) (value v) }
    {
        if self.is_shorter(u, v) {
            return Relation::Strict;
        }
        if self.begins(u, v) {
            return Relation::Weak;
        }
        Relation::Unknown
    }

    // Whether the labels are known to be equal.
    pub(crate) fn are_equal(&self, u: usize, v: usize) -> bool
        ensures { result ≡ true → (value : ℕ → List GroundMark) → Holds value self.now
            → value u ≡ value v }
    {
        let back = self.begins(v, u);
        if self.begins(u, v) {
            return back;
        }
        false
    }

    // Contradicts what is known.
    pub(crate) fn refute(&mut self)
        ensures { self.new.is_refuted ≡ true }
    {
        self.is_refuted = true;
    }

    // Whether more became known since this was last asked.
    pub(crate) fn take_grown(&mut self) -> bool
        ensures { (value : ℕ → List GroundMark) → Holds value self.old → Holds value self.new }
    {
        let grown = self.has_grown;
        self.has_grown = false;
        grown
    }

    // What begins v, begins x, by word k of the rows.
    fn add_weak_word(&mut self, x: usize, v: usize, k: usize)
        ensures { (value : ℕ → List GroundMark) → Begins (value x) (value v)
            → Holds value self.old → Holds value self.new }
    {
        let above = self.above.word(v, k);
        let shorter = self.shorter.word(v, k);
        self.above.or_word(x, k, above);
        self.shorter.or_word(x, k, shorter);
    }

    // The same, where x is shorter than v.
    fn add_strict_word(&mut self, x: usize, v: usize, k: usize)
        ensures { (value : ℕ → List GroundMark) → IsShorter (value x) (value v)
            → Holds value self.old → Holds value self.new }
    {
        let above = self.above.word(v, k);
        self.above.or_word(x, k, above);
        self.shorter.or_word(x, k, above);
    }

    fn add_weak_row(&mut self, x: usize, v: usize)
        ensures { (value : ℕ → List GroundMark) → Begins (value x) (value v)
            → Holds value self.old → Holds value self.new }
    {
        for k in 0..self.above.width() {
            self.add_weak_word(x, v, k);
        }
    }

    fn add_strict_row(&mut self, x: usize, v: usize)
        ensures { (value : ℕ → List GroundMark) → IsShorter (value x) (value v)
            → Holds value self.old → Holds value self.new }
    {
        for k in 0..self.above.width() {
            self.add_strict_word(x, v, k);
        }
    }

    fn add_row(&mut self, x: usize, v: usize, r: Relation)
        ensures { (value : ℕ → List GroundMark) → IsRelated r (value x) (value v)
            → Holds value self.old → Holds value self.new }
    {
        match r {
            Relation::Unknown => {}
            Relation::Weak => self.add_weak_row(x, v),
            Relation::Strict => self.add_strict_row(x, v),
        }
    }

    // No label is shorter than itself.
    fn compare(&mut self, x: usize)
        ensures { (value : ℕ → List GroundMark) → Holds value self.old → Holds value self.new }
    {
        if self.is_shorter(x, x) {
            self.refute();
        }
    }

    // What is known of u and v gives, by what x is to u, of x and what v begins.
    fn join_row(&mut self, x: usize, u: usize, v: usize, r: Relation)
        ensures { (value : ℕ → List GroundMark) → IsRelated r (value u) (value v)
            → Holds value self.old → Holds value self.new }
    {
        let before = self.relation(x, u);
        let after = joined(before, r);
        if !self.is_new(x, v, after) {
            return;
        }
        self.add_row(x, v, after);
        self.compare(x);
    }

    // The same of all that begin u.
    fn join_rows(&mut self, u: usize, v: usize, r: Relation)
        ensures { (value : ℕ → List GroundMark) → IsRelated r (value u) (value v)
            → Holds value self.old → Holds value self.new }
    {
        let mut from = 0;
        for _ in 0..self.count {
            let Some(x) = self.next_below(u, from) else {
                return;
            };
            self.join_row(x, u, v, r);
            from = x.saturating_add(1);
        }
    }

    // Lists what begins u as what begins w.
    fn list_below(&mut self, w: usize, u: usize)
        ensures { (value : ℕ → List GroundMark) → Holds value self.old → Holds value self.new }
    {
        for k in 0..self.below.width() {
            let word = self.below.word(u, k);
            self.below.or_word(w, k, word);
        }
    }

    // The same for all that v begins.
    fn list_all_below(&mut self, u: usize, v: usize)
        ensures { (value : ℕ → List GroundMark) → Holds value self.old → Holds value self.new }
    {
        let mut from = 0;
        for _ in 0..self.count {
            let Some(w) = self.next_above(v, from) else {
                return;
            };
            self.list_below(w, u);
            from = w.saturating_add(1);
        }
    }

    fn is_new(&self, u: usize, v: usize, r: Relation) -> bool {
        match r {
            Relation::Unknown => false,
            Relation::Weak => !self.begins(u, v),
            Relation::Strict => !self.is_shorter(u, v),
        }
    }

    // Adds what is known of the two nodes, where it is more than before, and what follows from it
    // by chains.
    pub(crate) fn add(&mut self, u: usize, v: usize, r: Relation)
        ensures { (value : ℕ → List GroundMark) → IsRelated r (value u) (value v)
            → Holds value self.old → Holds value self.new }
    {
        if !self.is_new(u, v, r) {
            return;
        }
        self.has_grown = true;
        self.join_rows(u, v, r);
        self.list_all_below(u, v);
    }

    // Adds what is known of two nodes alone.
    pub(crate) fn set(&mut self, x: usize, u: usize, r: Relation)
        ensures { (value : ℕ → List GroundMark) → IsRelated r (value x) (value u)
            → Holds value self.old → Holds value self.new }
    {
        match r {
            Relation::Unknown => {}
            Relation::Weak => self.set_weak(x, u),
            Relation::Strict => self.set_strict(x, u),
        }
    }

    fn set_weak(&mut self, x: usize, u: usize)
        ensures { (value : ℕ → List GroundMark) → Begins (value x) (value u)
            → Holds value self.old → Holds value self.new }
    {
        self.above.set(x, u);
    }

    fn set_strict(&mut self, x: usize, u: usize)
        ensures { (value : ℕ → List GroundMark) → IsShorter (value x) (value u)
            → Holds value self.old → Holds value self.new }
    {
        self.above.set(x, u);
        self.shorter.set(x, u);
    }

    // Lists y as a child of u, and what begins u as what begins y.
    pub(crate) fn add_child(&mut self, u: usize, y: usize)
        ensures { (value : ℕ → List GroundMark) → Holds value self.old → Holds value self.new }
    {
        self.children.set(u, y);
        self.list_below(y, u);
    }

    // The first node from this one on that u begins.
    pub(crate) fn next_above(&self, u: usize, from: usize) -> Option<usize> {
        self.above.next(u, from)
    }

    // The first node from this one on that begins u.
    pub(crate) fn next_below(&self, u: usize, from: usize) -> Option<usize> {
        self.below.next(u, from)
    }

    // The first child of u from this node on.
    pub(crate) fn next_child(&self, u: usize, from: usize) -> Option<usize> {
        self.children.next(u, from)
    }

    // The first node from this one on that has the label of u.
    pub(crate) fn next_equal(&self, u: usize, from: usize) -> Option<usize> {
        self.above.next_with(u, &self.below, u, from)
    }

    // The first node from this one on that begins y, and is not known to begin x.
    pub(crate) fn next_below_alone(&self, y: usize, x: usize, from: usize) -> Option<usize> {
        self.below.next_without(y, &self.below, x, from)
    }

    // What begins a node that y begins, by word k of the rows.
    fn below_above(&self, y: usize, k: usize) -> u64 {
        let mut all = 0;
        let mut from = 0;
        for _ in 0..self.count {
            let Some(w) = self.next_above(y, from) else {
                return all;
            };
            all |= self.below.word(w, k);
            from = w.saturating_add(1);
        }
        all
    }

    // The nodes than which x is shorter, which y is not known to begin, and which begin a node that
    // y begins, by word k of the rows.
    fn gaps(&self, x: usize, y: usize, k: usize) -> u64 {
        let longer = self.shorter.word(x, k) & !self.above.word(y, k);
        if longer == 0 {
            return 0;
        }
        longer & self.below_above(y, k)
    }

    // The first of them from this one on.
    pub(crate) fn next_gap(&self, x: usize, y: usize, from: usize) -> Option<usize> {
        let mut start = from % 64;
        for k in from / 64..self.above.width() {
            if let Some(place) = first_from(self.gaps(x, y, k), start) {
                return Some(k.saturating_mul(64).saturating_add(place));
            }
            start = 0;
        }
        None
    }

    // A node that both begin.
    pub(crate) fn both_begin(&self, y: usize, z: usize) -> Option<usize> {
        self.above.next_with(y, &self.above, z, 0)
    }
}
