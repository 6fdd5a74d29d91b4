//! What the conditions on the relation and the domains ask of each world.

ghost use Rattle.std.specs.Prelude.{Err, None, OnOk, ℕ, ◌≡◌, ◌+◌, ◌<◌, ◌≤◌, ◌^◌};
ghost use Rattle.std.specs.List.{list_all};
ghost use Rattle.calculus.specs.Equality.{contains};
ghost use Rattle.calculus.specs.declared.fault.StructureCause.{StructureCause};
ghost use Rattle.calculus.specs.StructureText.{first_broken, at_worlds, is_transitive_at};
ghost use Rattle.calculus.specs.Structures.{domain_of, has_element, includes, numbers_from, successors_of};
ghost use Rattle.finite_model.specs.Conditions.{IsFirstBroken, cause_of, holds_at};

use crate::fault::StructureRead;
use crate::structure::Structure;
use calculus::fault::StructureCause;

/// What is asked of a world.
#[derive(Clone, Copy, Debug, PartialEq, Eq)]
pub enum Asked {
    /// Some element exists there.
    Element,
    /// It has a successor.
    Successor,
    /// It is its own successor.
    Reflexive,
    /// The successors of its successors are its successors.
    Transitive,
    /// Each world is its successor.
    Total,
    /// The same elements exist as at the root.
    SameDomain,
    /// Its elements exist at its successors.
    KeptDomain,
}

fn has(list: &[u8], number: u8) -> bool
    ensures { result ≡ contains list.now number }
{
    list.contains(&number)
}

fn is_inhabited(list: &[u8]) -> bool
    ensures { result ≡ has_element list.now }
{
    !list.is_empty()
}

fn includes(list: &[u8], others: &[u8]) -> bool
    ensures { result ≡ includes list.now others.now }
{
    for other in others {
        if !has(list, *other) {
            return false;
        }
    }
    true
}

// Whether the numbers below this one are all in the list.
fn includes_below(list: &[u8], count: u8) -> bool
    ensures { result ≡ includes list.now (numbers_from 0 count) }
{
    for number in 0..count {
        if !has(list, number) {
            return false;
        }
    }
    true
}

fn is_transitive_at(s: &Structure, world: u8) -> bool
    ensures { result ≡ is_transitive_at s.now world }
{
    let reached = s.successors_of(world);
    for other in reached {
        if !includes(reached, s.successors_of(*other)) {
            return false;
        }
    }
    true
}

fn is_domain_of_root(s: &Structure, world: u8) -> bool
    ensures { result ≡ holds_at s.now Asked.SameDomain world }
{
    let here = s.domain_of(world);
    let root = s.domain_of(0);
    includes(here, root) && includes(root, here)
}

fn is_domain_kept(s: &Structure, world: u8) -> bool
    ensures { result ≡ list_all (λ v. includes (domain_of s.now v) (domain_of s.now world)) (successors_of s.now world) }
{
    let domain = s.domain_of(world);
    let reached = s.successors_of(world);
    for other in reached {
        if !includes(s.domain_of(*other), domain) {
            return false;
        }
    }
    true
}

fn holds_at(s: &Structure, asked: Asked, world: u8) -> bool
    ensures { result ≡ holds_at s.now asked world }
{
    match asked {
        Asked::Element => is_inhabited(s.domain_of(world)),
        Asked::Successor => is_inhabited(s.successors_of(world)),
        Asked::Reflexive => has(s.successors_of(world), world),
        Asked::Transitive => is_transitive_at(s, world),
        Asked::Total => includes_below(s.successors_of(world), s.worlds()),
        Asked::SameDomain => is_domain_of_root(s, world),
        Asked::KeptDomain => is_domain_kept(s, world),
    }
}

fn cause_of(asked: Asked) -> StructureCause
    ensures { result ≡ cause_of asked }
{
    match asked {
        Asked::Element => StructureCause::EmptyDomain,
        Asked::Successor => StructureCause::Serial,
        Asked::Reflexive => StructureCause::Reflexive,
        Asked::Transitive => StructureCause::Transitive,
        Asked::Total => StructureCause::Total,
        Asked::SameDomain => StructureCause::Domains,
        Asked::KeptDomain => StructureCause::Domains,
    }
}

/// Whether each world has what is asked, its line being the first one and its number.
pub fn check_worlds(s: &Structure, asked: Asked, first: u64) -> Result<(), StructureRead>
    requires { first ≤ 2 ^ 32 }
    ensures ok { OnOk result (first_broken (at_worlds s.now (λ w. first + w) (cause_of asked) (holds_at s.now asked)) ≡ None) }
    ensures bad { (line : ℕ) (why : StructureCause) → result ≡ Err (StructureRead.Bad line why)
        → IsFirstBroken (at_worlds s.now (λ w. first + w) (cause_of asked) (holds_at s.now asked)) line why }
{
    for world in 0..s.worlds() {
        if !holds_at(s, asked, world) {
            return Err(StructureRead::Bad {
                line: first + u64::from(world),
                cause: cause_of(asked),
            });
        }
    }
    Ok(())
}
