//! Giving the strings of a system their lengths.

ghost use Rattle.std.specs.Prelude.{◌≡◌, ◌<◌, [], ℕ, Some, None, IfOk, IsTrue, false};
ghost use Rattle.std.specs.Prelude.{length, map, slice_get, true};
ghost use Rattle.std.specs.List.{list_all};
ghost use Rattle.calculus.specs.Labels.{is_step_length};
ghost use Rattle.calculus.specs.Syntax.{Problem};
ghost use Rattle.calculus.specs.declared.sort.Sort.TheVariants.{StringSort};
ghost use Rattle.store_theory.specs.Bindings.{IsEnd};
ghost use Rattle.store_theory.specs.Stores.{EndsAt, Solution, Solves, has_sort_at};
ghost use Rattle.store_theory.specs.Stores.{string_cell, variable};
ghost use Rattle.store_theory.specs.Systems.{HaveLengths};
ghost use Rattle.search_theory.specs.Solving.{CannotHave, IsNarrowed};
ghost use Rattle.term_store.specs.RefView.{the_place};
ghost use Rattle.term_store.specs.Room.{KeepsRoom};
ghost use Rattle.prefix_split.specs.Giving.{HasLength, IsGiven, IsUnboundString, IsBuiltEnd};
ghost use Rattle.prefix_split.specs.Later.{IsBuiltString, IsLater, KeepsRight};

use crate::places::{length_at, reference_at};
use cop_base::NoMemory;
use term_store::{Head, Ref, Store};

// Whether the string at which bindings end is unbound.
fn is_unbound(store: &Store, end: Ref) -> bool
    requires end { IsEnd store.now.store end.0 }
    requires sort { IsTrue (has_sort_at store.now.store StringSort end.0) }
    ensures unbound { result ≡ true → IsUnboundString store.now.store end.0 }
    ensures built { result ≡ false → IsBuiltEnd store.now.store end.0 }
{
    match store.head(end) {
        Head::Open(_) => true,
        Head::Fun(_) => false,
        Head::Eigen(_) => false,
        Head::New(_) => false,
        Head::Marks => false,
    }
}

// Binds the unbound string at which the bindings of `string` end to so many new marks.
fn bind_length(store: &mut Store, string: Ref, end: Ref, n: u32) -> Result<(), NoMemory>
    requires ends { EndsAt store.old.store string.0 end.0 }
    requires unbound { IsUnboundString store.old.store end.0 }
    requires within { string.0 < length store.old.store.cells }
    ensures given { IfOk result (λ _. IsGiven store.old.store store.new.store string.0 n) }
    ensures right { IfOk result (λ _. (P : Problem) → IsTrue (is_step_length P.setting.logic n)
        → KeepsRight P [] store.old.store store.new.store) }
    ensures later { IsLater store.old.store store.new.store }
    ensures room { KeepsRoom store.old store.new }
{
    let _old = store.mark();
    let built = store.marks(n)?;
    store.reserve(1)?;
    store.bind(end, built);
    Ok(())
}

// Gives the string this length: the answer is whether it can have it.
fn give_length(store: &mut Store, string: Ref, n: u32) -> Result<bool, NoMemory>
    requires { IsTrue (has_sort_at store.old.store StringSort string.0) }
    ensures given { IfOk result (λ given. given ≡ true
        → IsGiven store.old.store store.new.store string.0 n) }
    ensures right { IfOk result (λ given. given ≡ true → (P : Problem)
        → IsTrue (is_step_length P.setting.logic n)
        → KeepsRight P [] store.old.store store.new.store) }
    ensures cannot { IfOk result (λ given. given ≡ false → (σ : Solution)
        → Solves store.old.store σ → ¬ HasLength σ string.0 n) }
    ensures later { IsLater store.old.store store.new.store }
    ensures room { KeepsRoom store.old store.new }
{
    let end = store.walk(string);
    if is_unbound(store, end) {
        bind_length(store, string, end, n)?;
        return Ok(true);
    }
    Ok(store.parts(end) == n)
}

// Gives all strings their lengths, where they can have them. Otherwise some may be given.
pub(crate) fn give_lengths(
    store: &mut Store,
    strings: &[Ref],
    lengths: &[u32],
) -> Result<bool, NoMemory>
    requires sorts { IsTrue (list_all (has_sort_at store.old.store StringSort)
        (map the_place strings.now)) }
    requires count { length lengths.now ≡ length strings.now }
    ensures given { IfOk result (λ given. given ≡ true
        → IsNarrowed store.old.store store.new.store
        (λ σ. HaveLengths σ (map the_place strings.now) lengths.now)) }
    ensures built { IfOk result (λ given. given ≡ true → (i : ℕ) (r : ℕ)
        → slice_get (map the_place strings.now) i ≡ Some r → IsBuiltString store.new.store r) }
    ensures right { IfOk result (λ given. given ≡ true → (P : Problem)
        → IsTrue (list_all (is_step_length P.setting.logic) lengths.now)
        → KeepsRight P [] store.old.store store.new.store) }
    ensures cannot { IfOk result (λ given. given ≡ false
        → CannotHave store.old.store (map the_place strings.now) lengths.now) }
    ensures later { IsLater store.old.store store.new.store }
    ensures room { KeepsRoom store.old store.new }
{
    for i in 0..strings.len() {
        if !give_length(store, reference_at(strings, i), length_at(lengths, i))? {
            return Ok(false);
        }
    }
    Ok(true)
}
