//! The conditions of a setting, each at the first line that breaks it.

ghost use Rattle.std.specs.Prelude.{Err, None, OnOk, ℕ, ◌≡◌, ◌+◌, ◌<◌, ◌≤◌, IsTrue, length};
ghost use Rattle.calculus.specs.declared.fault.StructureCause.{StructureCause};
ghost use Rattle.calculus.specs.StructureText.{first_broken, can_be_stated, conditions, domain_conditions, persistence_conditions, relation_conditions};
ghost use Rattle.calculus.specs.Structures.{are_tables, is_in_range};
ghost use Rattle.calculus.specs.declared.fault.StructureCause.TheVariants as cause;
ghost use Rattle.finite_model.specs.Conditions.{IsFirstBroken, one_world_condition};

use crate::asked::{Asked, check_worlds};
use crate::fault::StructureRead;
use crate::functions::check_functions;
use crate::persistence::check_persistence;
use crate::structure::Structure;
use calculus::fault::StructureCause;
use formula_core::Symbols;
use logic_rules::{Domains, Logic, Problem};
use std::alloc::Global;

// The line of the first world's successors.
const FIRST_RELATION: u64 = 5;

fn check_one_world(s: &Structure) -> Result<(), StructureRead>
    ensures ok { OnOk result (first_broken (one_world_condition s.now) ≡ None) }
    ensures bad { (line : ℕ) (why : StructureCause) → result ≡ Err (StructureRead.Bad line why)
        → IsFirstBroken (one_world_condition s.now) line why }
{
    if s.worlds() == 1 {
        Ok(())
    } else {
        Err(StructureRead::Bad {
            line: 3,
            cause: StructureCause::Worlds,
        })
    }
}

fn check_classical(s: &Structure) -> Result<(), StructureRead>
    ensures ok { OnOk result (first_broken (relation_conditions Logic.Classical s.now) ≡ None) }
    ensures bad { (line : ℕ) (why : StructureCause) → result ≡ Err (StructureRead.Bad line why)
        → IsFirstBroken (relation_conditions Logic.Classical s.now) line why }
{
    check_worlds(s, Asked::Reflexive, FIRST_RELATION)?;
    check_one_world(s)?;
    Ok(())
}

fn check_order(s: &Structure) -> Result<(), StructureRead>
    ensures ok { OnOk result (first_broken (relation_conditions Logic.S4 s.now) ≡ None) }
    ensures bad { (line : ℕ) (why : StructureCause) → result ≡ Err (StructureRead.Bad line why)
        → IsFirstBroken (relation_conditions Logic.S4 s.now) line why }
{
    check_worlds(s, Asked::Reflexive, FIRST_RELATION)?;
    check_worlds(s, Asked::Transitive, FIRST_RELATION)?;
    Ok(())
}

fn check_relation(logic: Logic, s: &Structure) -> Result<(), StructureRead>
    ensures ok { OnOk result (first_broken (relation_conditions logic s.now) ≡ None) }
    ensures bad { (line : ℕ) (why : StructureCause) → result ≡ Err (StructureRead.Bad line why)
        → IsFirstBroken (relation_conditions logic s.now) line why }
{
    match logic {
        Logic::Classical => check_classical(s),
        Logic::Intuitionistic => check_order(s),
        Logic::D => check_worlds(s, Asked::Successor, FIRST_RELATION),
        Logic::T => check_worlds(s, Asked::Reflexive, FIRST_RELATION),
        Logic::S4 => check_order(s),
        Logic::S5 => check_worlds(s, Asked::Total, FIRST_RELATION),
    }
}

// The line of the first world's domain.
fn first_domain(s: &Structure) -> u64
    ensures line { result ≡ 5 + length s.now.successors }
    ensures few { result ≤ 69 }
{
    FIRST_RELATION + u64::from(s.worlds())
}

fn check_domains(domains: Domains, s: &Structure) -> Result<(), StructureRead>
    ensures ok { OnOk result (first_broken (domain_conditions domains s.now) ≡ None) }
    ensures bad { (line : ℕ) (why : StructureCause) → result ≡ Err (StructureRead.Bad line why)
        → IsFirstBroken (domain_conditions domains s.now) line why }
{
    match domains {
        Domains::Constant => check_worlds(s, Asked::SameDomain, first_domain(s)),
        Domains::Cumulative => check_worlds(s, Asked::KeptDomain, first_domain(s)),
        Domains::Varying => Ok(()),
    }
}

fn check_atoms(
    logic: Logic,
    symbols: &Symbols,
    s: &Structure,
    first: u64,
) -> Result<(), StructureRead>
    requires few { first ≤ 4294967296 }
    requires tables { IsTrue (are_tables s.now symbols.now s.now.meanings) }
    requires range { IsTrue (is_in_range s.now) }
    ensures ok { OnOk result (first_broken (persistence_conditions logic s.now first symbols.now) ≡ None) }
    ensures bad { (line : ℕ) (why : StructureCause) → result ≡ Err (StructureRead.Bad line why)
        → IsFirstBroken (persistence_conditions logic s.now first symbols.now) line why }
{
    match logic {
        Logic::Intuitionistic => check_persistence(symbols, s, first),
        Logic::Classical | Logic::D | Logic::T | Logic::S4 | Logic::S5 => Ok(()),
    }
}

/// Whether a structure that is stated is one of the problem's setting, or else the line and the cause of the first condition that is
/// broken.
pub fn check_conditions(
    alloc: Global,
    problem: &Problem,
    s: &Structure,
) -> Result<(), StructureRead>
    requires { IsTrue (can_be_stated problem.now s.now) }
    ensures ok { OnOk result (first_broken (conditions problem.now s.now) ≡ None) }
    ensures bad { (line : ℕ) (why : StructureCause) → result ≡ Err (StructureRead.Bad line why)
        → IsFirstBroken (conditions problem.now s.now) line why }
{
    let logic = problem.setting().logic();
    let symbols = problem.symbols();
    let first = first_domain(s);
    check_worlds(s, Asked::Element, first)?;
    check_relation(logic, s)?;
    check_domains(problem.setting().domains(), s)?;
    let behind = check_functions(alloc, symbols, s, first + u64::from(s.worlds()))?;
    check_atoms(logic, symbols, s, behind)?;
    Ok(())
}
