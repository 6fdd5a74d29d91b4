//! How large the expanded formulas are, counted before they are built.

ghost use Rattle.std.specs.Prelude.{◌≡◌, ◌+◌, ◌++◌, ◌≤◌, ℕ, List, length, map, min, IfOk};
ghost use Rattle.problem_build.specs.Balance.{IsBalanced};
ghost use Rattle.problem_build.specs.Counting.{binary_nesting, binary_nodes, capped_deeper, chain_nesting, nesting_of, nodes_of, term_nesting, term_nodes, terms_nesting, terms_nodes};
ghost use Rattle.tptp_reader.specs.Lists.{terms_tree};
ghost use Rattle.tptp_reader.specs.SourceView.{the_source};
ghost use Rattle.tptp_reader.specs.TermView.{the_source_term};

use calculus::limits::MAX_NODES;
use cop_base::NoMemory;
use std::alloc::{AllocError, Global};
use tptp_reader::{BinaryKind, Source, SourceTerm, SourceTerms};

// Counts of nodes stop here.
const MANY: u64 = MAX_NODES + 1;

/// The sum, up to one more than the most nodes.
pub fn sum(a: u64, b: u64) -> u64
    ensures { result ≡ min (a + b) 4000001 }
{
    a.saturating_add(b).min(MANY)
}

#[cycle(term_nodes)]
fn term_nodes(term: &SourceTerm) -> u64
    ensures { result ≡ min (term_nodes (the_source_term term.now)) 4000001 }
{
    match term {
        SourceTerm::Var(_) => 1,
        SourceTerm::Fun(_, args) => sum(1, terms_nodes(args)),
    }
}

#[cycle(term_nodes)]
#[tactic(auto, using(crate::proofs::FallingLaws::falling))]
fn terms_nodes(terms: &SourceTerms) -> u64
    ensures { result ≡ min (terms_nodes (terms_tree terms.now)) 4000001 }
{
    let mut total = 0;
    for term in terms.items() {
        total = sum(total, term_nodes(term));
    }
    total
}

fn binary_nodes(kind: BinaryKind, a: u64, b: u64) -> u64
    ensures { (m n : ℕ) → a ≡ min m 4000001 → b ≡ min n 4000001 → result ≡ min (binary_nodes kind m n) 4000001 }
{
    match kind {
        BinaryKind::Imp | BinaryKind::If => sum(1, sum(a, b)),
        BinaryKind::Iff => sum(3, sum(sum(a, b), sum(a, b))),
        BinaryKind::Xor => sum(4, sum(sum(a, b), sum(a, b))),
        BinaryKind::Nor | BinaryKind::Nand => sum(2, sum(a, b)),
    }
}

/// The nodes of the expanded formula, up to one more than the most that a problem may have.
#[tactic(auto, using(crate::proofs::FallingLaws::falling))]
pub fn nodes_of(source: &Source) -> u64
    ensures { result ≡ min (nodes_of (the_source source.now)) 4000001 }
{
    match source {
        Source::Atom(_, args) => sum(1, terms_nodes(args)),
        Source::True => 3,
        Source::False => 4,
        Source::Equal(s, t) => sum(1, sum(term_nodes(s), term_nodes(t))),
        Source::Unequal(s, t) => sum(2, sum(term_nodes(s), term_nodes(t))),
        Source::Not(a) | Source::Nec(a) | Source::Poss(a) => sum(1, nodes_of(a.get())),
        Source::All(xs, a) | Source::Ex(xs, a) => sum(xs.items().len() as u64, nodes_of(a.get())),
        Source::Binary(kind, a, b) => binary_nodes(*kind, nodes_of(a.get()), nodes_of(b.get())),
        Source::Chain(_, units) => {
            let Some((first, rest)) = units.items().split_first() else {
                return 3;
            };
            let mut total = nodes_of(first);
            for unit in rest {
                total = sum(total, sum(1, nodes_of(unit)));
            }
            total
        }
    }
}

#[cycle(term_nesting)]
fn term_nesting(term: &SourceTerm) -> u64
    ensures { result ≡ min (term_nesting (the_source_term term.now)) u64.MAX }
{
    match term {
        SourceTerm::Var(_) => 1,
        SourceTerm::Fun(_, args) => terms_nesting(args).saturating_add(1),
    }
}

#[cycle(term_nesting)]
#[tactic(auto, using(crate::proofs::FallingLaws::falling))]
fn terms_nesting(terms: &SourceTerms) -> u64
    ensures { result ≡ min (terms_nesting (terms_tree terms.now)) u64.MAX }
{
    let mut deepest = 0;
    for term in terms.items() {
        deepest = deepest.max(term_nesting(term));
    }
    deepest
}

// The nesting of a chain of so many formulas, joined in halves, whose nestings are taken off.
fn balanced_nesting(nestings: &mut Vec<u64>, count: usize) -> u64
    requires some { 1 ≤ count }
    requires enough { count ≤ length nestings.old.items }
    ensures left { length nestings.new.items + count ≡ length nestings.old.items }
    ensures balanced { (front back : List ℕ) → nestings.old.items ≡ front ++ back → length back ≡ count
        → IsBalanced capped_deeper (map (λ n. n) back) result × (nestings.new.items ≡ front) }
{
    if count == 1 {
        let Some(nesting) = nestings.pop() else {
            unreachable!()
        };
        return nesting;
    }
    let right_count = count / 2;
    let right = balanced_nesting(nestings, right_count);
    let left = balanced_nesting(nestings, count - right_count);
    left.max(right).saturating_add(1)
}

// The nesting of a chain of formulas of these nestings.
fn chain_nesting(nestings: Vec<u64>) -> u64
    ensures { (ns : List ℕ) → nestings.items ≡ map (λ n. min n u64.MAX) ns → result ≡ min (chain_nesting ns) u64.MAX }
{
    let mut nestings = nestings;
    let count = nestings.as_slice().len();
    if count == 0 {
        return 2;
    }
    balanced_nesting(&mut nestings, count)
}

fn binary_nesting(kind: BinaryKind, a: u64, b: u64) -> u64
    ensures { (m n : ℕ) → a ≡ min m u64.MAX → b ≡ min n u64.MAX → result ≡ min (binary_nesting kind m n) u64.MAX }
{
    let deepest = a.max(b);
    match kind {
        BinaryKind::Imp | BinaryKind::If => deepest.saturating_add(1),
        BinaryKind::Iff | BinaryKind::Nor | BinaryKind::Nand => deepest.saturating_add(2),
        BinaryKind::Xor => deepest.saturating_add(3),
    }
}

/// The nodes from the root of the expanded formula to its farthest leaf.
#[tactic(auto, using(crate::proofs::FallingLaws::falling))]
pub fn nesting_of(alloc: Global, source: &Source) -> Result<u64, NoMemory>
    ensures { IfOk result (λ n. n ≡ min (nesting_of (the_source source.now)) u64.MAX) }
{
    match source {
        Source::Atom(_, args) => Ok(terms_nesting(args).saturating_add(1)),
        Source::True => Ok(2),
        Source::False => Ok(3),
        Source::Equal(s, t) => Ok(term_nesting(s).max(term_nesting(t)).saturating_add(1)),
        Source::Unequal(s, t) => Ok(term_nesting(s).max(term_nesting(t)).saturating_add(2)),
        Source::Not(a) | Source::Nec(a) | Source::Poss(a) => {
            let inner = nesting_of(alloc, a.get())?;
            Ok(inner.saturating_add(1))
        }
        Source::All(xs, a) | Source::Ex(xs, a) => {
            let inner = nesting_of(alloc, a.get())?;
            Ok(inner.saturating_add(xs.items().len() as u64))
        }
        Source::Binary(kind, a, b) => {
            let left = nesting_of(alloc, a.get())?;
            let right = nesting_of(alloc, b.get())?;
            Ok(binary_nesting(*kind, left, right))
        }
        Source::Chain(_, units) => {
            let mut nestings = Vec::new(alloc);
            for unit in units.items() {
                let nesting = nesting_of(alloc, unit)?;
                nestings.push(nesting)?;
            }
            let deepest = chain_nesting(nestings);
            Ok(deepest)
        }
    }
}
