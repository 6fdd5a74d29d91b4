//! Goals that failed with the goals above them, up to the names of variables.

ghost use Rattle.std.specs.Prelude.{◌≡◌, ◌<◌, ℕ, IfOk, IsTrue, OnOk, Some, length, slice_get, true};
ghost use Rattle.calculus.specs.Syntax.{Problem};
ghost use Rattle.search_theory.specs.States.{CellGoal, goal_is_below};
ghost use Rattle.search_tree.specs.Failing.{AreFailed, HasFailed, KeyFails, MakesKeyFail};
ghost use Rattle.search_tree.specs.Trees.{IsGoalAt};
ghost use Rattle.search_tree.specs.declared.failed.Entry.{Entry};

use crate::goal_key::{GoalKey, KeyPart};
use crate::tree::Tree;
use calculus::sign::Sign;
use cop_base::NoMemory;
use std::alloc::Global;
use term_store::Store;

// How many chains of entries there are.
const CHAINS: usize = 4096;

// How many parts all keys have at most.
const MOST_PARTS: usize = 4194304;

// How many parts are read before it is asked what was found, and how many are read for each goal
// that was found.
const FIRST_READ: u64 = 65536;

const READ_PER_FIND: u64 = 1024;

// A key with its hash, and the next entry of its chain.
#[derive(Drop)]
pub(crate) struct Entry {
    pub(crate) key: Vec<KeyPart>,
    hash: u64,
    next: Option<usize>,
}

/// Goals that no bindings close within a limit, each with the goals above it. How many there are is
/// bounded, and they are not looked for any more where that finds little.
#[derive(Drop)]
pub struct Failed {
    alloc: Global,
    pub(crate) entries: Vec<Entry>,
    // The last entry of each chain.
    chains: Vec<Option<usize>>,
    // How many parts all keys have.
    parts: usize,
    // The key of the goal that is looked for.
    key: GoalKey,
    // How many parts were read, and how many goals were found.
    read: u64,
    found: u64,
}

fn sign_number(sign: Sign) -> u64 {
    match sign {
        Sign::T => 0,
        Sign::F => 1,
    }
}

fn part_number(part: KeyPart) -> u64 {
    match part {
        KeyPart::Variable(i) => (i as u64).wrapping_mul(8),
        KeyPart::Function(f, _count) => (f.0 as u64).wrapping_mul(8).wrapping_add(1),
        KeyPart::Eigenvariable(p, _count) => (p.0 as u64).wrapping_mul(8).wrapping_add(2),
        KeyPart::Literal(sign, symbol, _count) => {
            let number = (symbol.0 as u64).wrapping_mul(8);
            number.wrapping_add(3).wrapping_add(sign_number(sign))
        }
    }
}

fn hash_of(key: &[KeyPart]) -> u64 {
    let mut hash = 14695981039346656037u64;
    for i in 0..key.len() {
        hash = (hash ^ part_number(key[i])).wrapping_mul(1099511628211);
    }
    hash ^ (hash >> 29)
}

fn chain_of(hash: u64) -> usize {
    (hash as usize) % CHAINS
}

fn is_same_sign(a: Sign, b: Sign) -> bool
    ensures { result ≡ true → a ≡ b }
{
    match a {
        Sign::T => match b {
            Sign::T => true,
            Sign::F => false,
        },
        Sign::F => match b {
            Sign::T => false,
            Sign::F => true,
        },
    }
}

// Whether the parts are the same.
fn is_same_part(a: KeyPart, b: KeyPart) -> bool
    ensures { result ≡ true → a ≡ b }
{
    match a {
        KeyPart::Variable(i) => match b {
            KeyPart::Variable(j) => i == j,
            _ => false,
        },
        KeyPart::Function(f, n) => match b {
            KeyPart::Function(g, m) => f.0 == g.0 && n == m,
            _ => false,
        },
        KeyPart::Eigenvariable(p, n) => match b {
            KeyPart::Eigenvariable(q, m) => p.0 == q.0 && n == m,
            _ => false,
        },
        KeyPart::Literal(s, p, n) => match b {
            KeyPart::Literal(t, q, m) => is_same_sign(s, t) && p.0 == q.0 && n == m,
            _ => false,
        },
    }
}

// The part of this number.
fn part_of(key: &[KeyPart], i: usize) -> KeyPart
    requires { i < length key.now }
    ensures { slice_get key.now i ≡ Some result }
{
    key[i]
}

// Whether the keys are the same.
fn is_same_key(a: &[KeyPart], b: &[KeyPart]) -> bool
    ensures { result ≡ true → a.now ≡ b.now }
{
    if a.len() != b.len() {
        return false;
    }
    for i in 0..a.len() {
        let x = part_of(a, i);
        let y = part_of(b, i);
        if !is_same_part(x, y) {
            return false;
        }
    }
    true
}

fn copy_of(alloc: Global, key: &[KeyPart]) -> Result<Vec<KeyPart>, NoMemory>
    ensures { IfOk result (λ copy. copy.items ≡ key.now) }
{
    let mut copy = Vec::new(alloc);
    copy.extend_from_slice(key)?;
    Ok(copy)
}

impl Failed {
    pub fn new(alloc: Global) -> Failed
        ensures { (P : Problem) (d : ℕ) → AreFailed P d result }
    {
        Failed {
            alloc,
            entries: Vec::new(alloc),
            chains: Vec::new(alloc),
            parts: 0,
            key: GoalKey::new(alloc),
            read: 0,
            found: 0,
        }
    }

    /// Whether enough goals are found for what is read.
    pub fn is_due(&self) -> bool {
        self.read / READ_PER_FIND <= self.found.saturating_add(FIRST_READ / READ_PER_FIND)
    }

    // The last entry of the chain, if any.
    fn first_of(&self, hash: u64) -> Option<usize> {
        match self.chains.get(chain_of(hash)) {
            None => None,
            Some(first) => *first,
        }
    }

    // The entry before this one in its chain, if any.
    fn next_of(&self, number: usize) -> Option<usize> {
        match self.entries.get(number) {
            None => None,
            Some(entry) => entry.next,
        }
    }

    // Whether this entry has the key.
    fn is_key_of(&self, number: usize, hash: u64) -> bool
        requires { number < length self.now.entries.items }
        ensures { result ≡ true → (e : Entry)
            × (slice_get self.now.entries.items number ≡ Some e)
            × (e.key.items ≡ self.now.key.parts.items) }
    {
        let entry = &self.entries[number];
        if entry.hash != hash {
            return false;
        }
        is_same_key(&entry.key, &self.key.parts)
    }

    // Whether some entry of the hash's chain has the key.
    fn has_key(&self, hash: u64) -> bool
        ensures { result ≡ true → (P : Problem) (d : ℕ) → AreFailed P d self.now
            → KeyFails P d self.now.key.parts.items }
    {
        let mut next = self.first_of(hash);
        for _i in 0..self.entries.len() {
            match next {
                None => return false,
                Some(number) => {
                    if number >= self.entries.len() {
                        return false;
                    }
                    if self.is_key_of(number, hash) {
                        return true;
                    }
                    next = self.next_of(number);
                }
            }
        }
        false
    }

    fn count(&mut self, found: bool)
        ensures { self.new.entries.items ≡ self.old.entries.items }
    {
        self.read = self.read.saturating_add(self.key.parts.len() as u64);
        if found {
            self.found = self.found.saturating_add(1);
        }
    }

    /// Whether the goal is known to have failed with the goals above it.
    pub fn has_failed(&mut self, store: &Store, tree: &Tree, goal: usize) -> Result<bool, NoMemory>
        requires { (x : CellGoal) × IsGoalAt tree.now.steps.items tree.now.goals.items goal x
            × IsTrue (goal_is_below (length store.now.store.cells) x) }
        ensures failed { IfOk result (λ failed. failed ≡ true → (P : Problem) (d : ℕ)
            (x : CellGoal) → AreFailed P d self.old
            → IsGoalAt tree.now.steps.items tree.now.goals.items goal x
            → IsTrue (goal_is_below (length store.now.store.cells) x)
            → HasFailed P d store.now.store x) }
        ensures kept { (P : Problem) (d : ℕ) → AreFailed P d self.old → AreFailed P d self.new }
    {
        let read = self.key.read(store, tree, goal)?;
        if !read {
            self.count(false);
            return Ok(false);
        }
        let hash = hash_of(&self.key.parts);
        let failed = self.has_key(hash);
        self.count(failed);
        Ok(failed)
    }

    // Makes the chains, where there are none yet.
    fn make_chains(&mut self) -> Result<(), NoMemory>
        ensures entries { OnOk result (self.new.entries.items ≡ self.old.entries.items) }
        ensures key { OnOk result (self.new.key.parts.items ≡ self.old.key.parts.items) }
    {
        if self.chains.len() == 0 {
            for _i in 0..CHAINS {
                self.chains.push(None)?;
            }
        }
        Ok(())
    }

    fn set_first(&mut self, hash: u64, number: usize)
        ensures { self.new.entries.items ≡ self.old.entries.items }
    {
        let chain = chain_of(hash);
        if chain < self.chains.len() {
            self.chains[chain] = Some(number);
        }
    }

    // The goal whose key was read has failed.
    fn add_key(&mut self, hash: u64) -> Result<(), NoMemory>
        ensures { OnOk result ((P : Problem) (d : ℕ) → AreFailed P d self.old
            → KeyFails P d self.old.key.parts.items → AreFailed P d self.new) }
    {
        self.make_chains()?;
        let key = copy_of(self.alloc, &self.key.parts)?;
        self.parts = self.parts.saturating_add(key.len());
        let number = self.entries.len();
        let next = self.first_of(hash);
        self.entries.push(Entry { key, hash, next })?;
        self.set_first(hash, number);
        Ok(())
    }

    /// The goal has failed with the goals above it.
    pub fn add(&mut self, store: &Store, tree: &Tree, goal: usize) -> Result<(), NoMemory>
        requires { (x : CellGoal) × IsGoalAt tree.now.steps.items tree.now.goals.items goal x
            × IsTrue (goal_is_below (length store.now.store.cells) x) }
        ensures { OnOk result ((P : Problem) (d : ℕ) (x : CellGoal) → AreFailed P d self.old
            → IsGoalAt tree.now.steps.items tree.now.goals.items goal x
            → IsTrue (goal_is_below (length store.now.store.cells) x)
            → MakesKeyFail P d store.now.store x → AreFailed P d self.new) }
    {
        let read = self.key.read(store, tree, goal)?;
        if !read {
            return Ok(());
        }
        if self.parts.saturating_add(self.key.parts.len()) > MOST_PARTS {
            return Ok(());
        }
        let hash = hash_of(&self.key.parts);
        if self.has_key(hash) {
            return Ok(());
        }
        self.add_key(hash)?;
        Ok(())
    }
}
