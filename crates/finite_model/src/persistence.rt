//! Whether what is true of predicates stays true along the relation.

ghost use Rattle.std.specs.Prelude.{Err, None, OnOk, ℕ, ◌≡◌, ◌+◌, ◌<◌, ◌≤◌, ◌^◌, IfOk, IsTrue, drop, length};
ghost use Rattle.std.specs.List.{list_all};
ghost use Rattle.calculus.specs.declared.fault.StructureCause.{StructureCause};
ghost use Rattle.calculus.specs.StructureText.{first_broken, at_worlds, persistence_conditions_from, persists_at};
ghost use Rattle.calculus.specs.Structures.{are_tables, is_in_range};
ghost use Rattle.calculus.specs.declared.fault.StructureCause.TheVariants as cause;
ghost use Rattle.finite_model.specs.Conditions.{HasRows, IsFirstBroken, is_kept};

use crate::fault::StructureRead;
use crate::structure::Structure;
use crate::symbols::is_function;
use calculus::fault::StructureCause;
use cop_base::SymbolId;
use formula_core::Symbols;

// Whether what is true of the predicate at the world is true at each successor.
fn persists_at(s: &Structure, predicate: SymbolId, arity: u32, world: u8) -> bool
    requires rows { HasRows s.now predicate.0 arity }
    requires world { world < length s.now.successors }
    ensures { result ≡ persists_at s.now predicate.0 arity world }
{
    let reached = s.successors_of(world);
    for other in reached {
        if !s.is_kept(predicate, arity, world, *other) {
            return false;
        }
    }
    true
}

// Whether the predicate persists from each world, its line at a world being the first one and the world's number.
fn check_predicate(
    s: &Structure,
    predicate: SymbolId,
    arity: u32,
    first: u64,
) -> Result<(), StructureRead>
    requires rows { HasRows s.now predicate.0 arity }
    requires few { first ≤ 2 ^ 33 }
    ensures ok { OnOk result (first_broken (at_worlds s.now (λ w. first + w) cause.Persistence (persists_at s.now predicate.0 arity)) ≡ None) }
    ensures bad { (line : ℕ) (why : StructureCause) → result ≡ Err (StructureRead.Bad line why)
        → IsFirstBroken (at_worlds s.now (λ w. first + w) cause.Persistence (persists_at s.now predicate.0 arity)) line why }
{
    for world in 0..s.worlds() {
        if !persists_at(s, predicate, arity, world) {
            return Err(StructureRead::Bad {
                line: first + u64::from(world),
                cause: StructureCause::Persistence,
            });
        }
    }
    Ok(())
}

// Whether the symbol, if it is a predicate, whose first line is this one, persists; and the line behind it.
fn check_symbol(
    symbols: &Symbols,
    s: &Structure,
    id: SymbolId,
    line: u64,
) -> Result<u64, StructureRead>
    requires there { id.0 < length symbols.now }
    requires few { line ≤ 2 ^ 33 }
    requires tables { IsTrue (are_tables s.now symbols.now s.now.meanings) }
    requires range { IsTrue (is_in_range s.now) }
    ensures ok { IfOk result (λ next. first_broken (persistence_conditions_from s.now line id.0 (drop id.0 symbols.now))
        ≡ first_broken (persistence_conditions_from s.now next (id.0 + 1) (drop (id.0 + 1) symbols.now))) }
    ensures few { IfOk result (λ next. next ≤ line + 64) }
    ensures bad { (place : ℕ) (why : StructureCause) → result ≡ Err (StructureRead.Bad place why)
        → IsFirstBroken (persistence_conditions_from s.now line id.0 (drop id.0 symbols.now)) place why }
{
    if is_function(symbols, id) {
        return Ok(line);
    }
    check_predicate(s, id, symbols.get(id).arity, line)?;
    Ok(line + u64::from(s.worlds()))
}

/// Whether each predicate persists along the relation, the predicates' lines beginning at this one.
pub fn check_persistence(symbols: &Symbols, s: &Structure, first: u64) -> Result<(), StructureRead>
    requires few { first ≤ 2 ^ 32 }
    requires tables { IsTrue (are_tables s.now symbols.now s.now.meanings) }
    requires range { IsTrue (is_in_range s.now) }
    ensures ok { OnOk result (first_broken (persistence_conditions_from s.now first 0 symbols.now) ≡ None) }
    ensures bad { (line : ℕ) (why : StructureCause) → result ≡ Err (StructureRead.Bad line why)
        → IsFirstBroken (persistence_conditions_from s.now first 0 symbols.now) line why }
{
    let mut line = first;
    for place in 0..symbols.len() {
        let next = check_symbol(symbols, s, SymbolId(place as u32), line)?;
        line = next;
    }
    Ok(())
}
