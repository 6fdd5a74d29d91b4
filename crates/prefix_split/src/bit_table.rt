//! Relations between nodes, as rows of bits.

ghost use Rattle.std.specs.Prelude.{◌≡◌, ◌+◌, ◌*◌, ◌<◌, ℕ, List, IfOk, IfSome, length, true};
ghost use Rattle.calculus.specs.Ground.{GroundMark};
ghost use Rattle.prefix_split.specs.Beginnings.{IsRelated, TableHolds, WordHolds};
ghost use Rattle.prefix_split.specs.declared.order.Relation.{Relation};

use cop_base::NoMemory;
use std::alloc::Global;

// A row of bits for each node, with a bit for each node. Rows are whole words.
#[derive(Drop)]
pub(crate) struct BitTable {
    words: Vec<u64>,
    // How many words a row has.
    width: usize,
}

// The first bit from this place on.
pub(crate) fn first_from(word: u64, place: usize) -> Option<usize> {
    let left = from_place(word, place);
    if left == 0 {
        return None;
    }
    Some(left.trailing_zeros() as usize)
}

// The bits of the word from this place on.
fn from_place(word: u64, place: usize) -> u64 {
    if place >= 64 {
        return 0;
    }
    (word >> place) << place
}

impl BitTable {
    // No bit is set.
    pub(crate) fn new(alloc: Global, count: usize) -> Result<BitTable, NoMemory>
        ensures { IfOk result (λ t. (value : ℕ → List GroundMark) (r : Relation)
            → TableHolds value r t) }
    {
        let width = count / 64 + 1;
        let words = vec![in alloc; 0; count.saturating_mul(width)]?;
        Ok(BitTable { words, width })
    }

    pub(crate) fn width(&self) -> usize {
        self.width
    }

    // Where word k of row u stands.
    fn place(&self, u: usize, k: usize) -> Option<usize>
        ensures { IfSome result (λ a. (k < self.now.width) × (a ≡ u * self.now.width + k)
            × (a < length self.now.words.items)) }
    {
        if k >= self.width {
            return None;
        }
        let Some(start) = u.checked_mul(self.width) else {
            return None;
        };
        let Some(a) = start.checked_add(k) else {
            return None;
        };
        if a < self.words.len() {
            return Some(a);
        }
        None
    }

    // Word k of row u.
    pub(crate) fn word(&self, u: usize, k: usize) -> u64
        ensures { (value : ℕ → List GroundMark) (r : Relation) → TableHolds value r self.now
            → WordHolds value r u k result }
    {
        match self.place(u, k) {
            None => 0,
            Some(a) => self.words[a],
        }
    }

    // Sets the word's bits in word k of row u.
    pub(crate) fn or_word(&mut self, u: usize, k: usize, word: u64)
        ensures { (value : ℕ → List GroundMark) (r : Relation) → WordHolds value r u k word
            → TableHolds value r self.old → TableHolds value r self.new }
    {
        if let Some(a) = self.place(u, k) {
            self.words[a] |= word;
        }
    }

    // Whether bit v of row u is set.
    pub(crate) fn has(&self, u: usize, v: usize) -> bool
        ensures { result ≡ true → (value : ℕ → List GroundMark) (r : Relation)
            → TableHolds value r self.now → IsRelated r (value u) (value v) }
    {
        let word = self.word(u, v / 64);
        (word >> (v % 64)) & 1 == 1
    }

    pub(crate) fn set(&mut self, u: usize, v: usize)
        ensures { (value : ℕ → List GroundMark) (r : Relation) → IsRelated r (value u) (value v)
            → TableHolds value r self.old → TableHolds value r self.new }
    {
        self.or_word(u, v / 64, 1 << (v % 64));
    }

    pub(crate) fn copy(&self) -> Result<BitTable, NoMemory>
        ensures { IfOk result (λ t. (value : ℕ → List GroundMark) (r : Relation)
            → TableHolds value r self.now → TableHolds value r t) }
    {
        let words = self.words.clone()?;
        Ok(BitTable {
            words,
            width: self.width,
        })
    }

    // The first bit from this place on that is set in row u.
    pub(crate) fn next(&self, u: usize, from: usize) -> Option<usize> {
        let mut start = from % 64;
        for k in from / 64..self.width {
            if let Some(place) = first_from(self.word(u, k), start) {
                return Some(k.saturating_mul(64).saturating_add(place));
            }
            start = 0;
        }
        None
    }

    // The first bit from this place on that is set in row u, and not in row v of the other table.
    pub(crate) fn next_without(
        &self,
        u: usize,
        other: &BitTable,
        v: usize,
        from: usize,
    ) -> Option<usize> {
        let mut start = from % 64;
        for k in from / 64..self.width {
            if let Some(place) = first_from(self.word(u, k) & !other.word(v, k), start) {
                return Some(k.saturating_mul(64).saturating_add(place));
            }
            start = 0;
        }
        None
    }

    // The first bit from this place on that is set in row u and in row v of the other table.
    pub(crate) fn next_with(
        &self,
        u: usize,
        other: &BitTable,
        v: usize,
        from: usize,
    ) -> Option<usize> {
        let mut start = from % 64;
        for k in from / 64..self.width {
            if let Some(place) = first_from(self.word(u, k) & other.word(v, k), start) {
                return Some(k.saturating_mul(64).saturating_add(place));
            }
            start = 0;
        }
        None
    }
}
