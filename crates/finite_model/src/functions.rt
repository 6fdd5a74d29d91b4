//! Whether functions keep domains.

ghost use Rattle.std.specs.Prelude.{Err, None, OnOk, ℕ, ◌≡◌, ◌+◌, ◌<◌, ◌≤◌, ◌^◌, IfOk, IsTrue, drop, length, true};
ghost use Rattle.calculus.specs.declared.fault.StructureCause.{StructureCause};
ghost use Rattle.calculus.specs.StructureText.{first_broken, function_conditions};
ghost use Rattle.calculus.specs.declared.limits.TheConstants.{MAX_SYMBOLS};
ghost use Rattle.calculus.specs.Structures.{domain_of, keeps_domains};
ghost use Rattle.finite_model.specs.Conditions.{IsFirstBroken, keeps_domain_at};
ghost use Rattle.finite_model.specs.Slots.{function_count};

use crate::fault::StructureRead;
use crate::structure::Structure;
use crate::symbols::is_function;
use crate::tuples::{flags_of, places_of};
use calculus::fault::StructureCause;
use cop_base::{NoMemory, SymbolId};
use formula_core::Symbols;
use std::alloc::Global;

// Whether the function keeps the domain of the world.
fn keeps_domain_at(
    alloc: Global,
    s: &Structure,
    function: SymbolId,
    arity: u32,
    world: u8,
) -> Result<bool, NoMemory>
    ensures { IfOk result (λ b. b ≡ keeps_domain_at s.now function.0 arity world) }
{
    let domain = s.domain_of(world);
    let exists = flags_of(alloc, domain)?;
    let places = places_of(alloc, s.elements(), domain, arity)?;
    for place in places.as_slice() {
        let value = s.value_at(function, *place);
        if !exists[value as usize] {
            return Ok(false);
        }
    }
    Ok(true)
}

// Whether an earlier world has the same domain.
fn is_met(s: &Structure, world: u8) -> bool
    ensures { IsTrue result → (u : ℕ) × (u < world) × (domain_of s.now u ≡ domain_of s.now world) }
{
    let domain = s.domain_of(world);
    for earlier in 0..world {
        if s.domain_of(earlier) == domain {
            return true;
        }
    }
    false
}

// Whether the function keeps the domain of the world, where it keeps those of the earlier worlds. A domain is looked at once.
fn keeps_next(
    alloc: Global,
    s: &Structure,
    function: SymbolId,
    arity: u32,
    world: u8,
) -> Result<bool, NoMemory>
    ensures { IfOk result (λ b. ((u : ℕ) → u < world → keeps_domain_at s.now function.0 arity u ≡ true)
        → b ≡ keeps_domain_at s.now function.0 arity world) }
{
    if is_met(s, world) {
        return Ok(true);
    }
    let keeps = keeps_domain_at(alloc, s, function, arity, world)?;
    Ok(keeps)
}

// Whether the function keeps each domain.
fn keeps_domains(
    alloc: Global,
    s: &Structure,
    function: SymbolId,
    arity: u32,
) -> Result<bool, NoMemory>
    ensures { IfOk result (λ b. b ≡ keeps_domains s.now function.0 arity) }
{
    for world in 0..s.worlds() {
        let keeps = keeps_next(alloc, s, function, arity, world)?;
        if !keeps {
            return Ok(false);
        }
    }
    Ok(true)
}

// Whether the symbol, if it is a function, whose line is this one, keeps each domain; and the line behind it.
fn check_function(
    alloc: Global,
    symbols: &Symbols,
    s: &Structure,
    id: SymbolId,
    line: u64,
) -> Result<u64, StructureRead>
    requires there { id.0 < length symbols.now }
    requires few { line ≤ 2 ^ 33 }
    ensures ok { IfOk result (λ next. first_broken (function_conditions s.now line id.0 (drop id.0 symbols.now))
        ≡ first_broken (function_conditions s.now next (id.0 + 1) (drop (id.0 + 1) symbols.now))) }
    ensures count { IfOk result (λ next. next + function_count (drop (id.0 + 1) symbols.now)
        ≡ line + function_count (drop id.0 symbols.now)) }
    ensures few { IfOk result (λ next. next ≤ line + 1) }
    ensures bad { (place : ℕ) (why : StructureCause) → result ≡ Err (StructureRead.Bad place why)
        → IsFirstBroken (function_conditions s.now line id.0 (drop id.0 symbols.now)) place why }
{
    if !is_function(symbols, id) {
        return Ok(line);
    }
    let keeps = keeps_domains(alloc, s, id, symbols.get(id).arity)?;
    if keeps {
        Ok(line + 1)
    } else {
        Err(StructureRead::Bad {
            line,
            cause: StructureCause::Function,
        })
    }
}

/// Whether each function keeps each domain, the functions' lines beginning at this one; and the line behind them.
pub fn check_functions(
    alloc: Global,
    symbols: &Symbols,
    s: &Structure,
    first: u64,
) -> Result<u64, StructureRead>
    requires { first ≤ 2 ^ 32 }
    ensures ok { OnOk result (first_broken (function_conditions s.now first 0 symbols.now) ≡ None) }
    ensures bad { (line : ℕ) (why : StructureCause) → result ≡ Err (StructureRead.Bad line why)
        → IsFirstBroken (function_conditions s.now first 0 symbols.now) line why }
    ensures behind { IfOk result (λ line. line ≡ first + function_count symbols.now) }
    ensures few { IfOk result (λ line. line ≤ first + MAX_SYMBOLS) }
{
    let mut line = first;
    for place in 0..symbols.len() {
        let next = check_function(alloc, symbols, s, SymbolId(place as u32), line)?;
        line = next;
    }
    Ok(line)
}
