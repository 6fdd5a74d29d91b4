//! Solving a system for all lists of string lengths in their order.

ghost use Rattle.std.specs.Prelude.{◌≡◌, ◌+◌, ◌-◌, IfOk, IfSome, IsTrue, MatchOption, OnErr};
ghost use Rattle.std.specs.Prelude.{false, true};
ghost use Rattle.store_theory.specs.Bindings.{KeepsMarks};
ghost use Rattle.calculus.specs.Counting.{MoreThan};
ghost use Rattle.calculus.specs.Space.{has_labels, lengths_cmp};
ghost use Rattle.store_theory.specs.Systems.{AreEarly, HasBoundedSolution, NamesItsStrings};
ghost use Rattle.store_theory.specs.Systems.{OwnSparesSolve, is_system};
ghost use Rattle.term_store.specs.Asking.{Asks};
ghost use Rattle.term_store.specs.Room.{KeepsRoom};
ghost use Rattle.term_store.specs.SystemView.{the_system};
ghost use Rattle.prefix_split.specs.Later.{IsFoundIn};
ghost use Rattle.prefix_split.specs.LengthSearch.{IsCounted};

use crate::choosing::Gaps;
use crate::next_lengths::{LengthRange, first_lengths, is_single, next_lengths, range_of};
use crate::proposing::propose;
use crate::refuting::{LabelTree, demanded_tree};
use crate::trying::try_or_undo;
use calculus::setting::Logic;
use cop_base::{Ledger, NoMemory};
use std::alloc::Global;
use term_store::{Demand, Store, System};
use term_unify::Unifier;

// How many choices are made before lists of lengths are tried.
const MANY_CHOICES: u32 = 1000;

/// What solving a system comes to.
#[derive(Clone, Copy, PartialEq, Eq)]
pub enum Solved {
    /// Giving each unbound variable its own spare is a bounded solution.
    Found,
    /// There is no bounded solution.
    None,
    /// The budget is used.
    Steps,
}

// Takes a step, if one is left.
fn take_step(ledger: &mut Ledger) -> bool
    ensures taken { result ≡ true → ledger.new.used ≡ ledger.old.used + 1 }
    ensures same { result ≡ false → ledger.new.used ≡ ledger.old.used }
    ensures full { result ≡ false → ledger.old.used ≡ ledger.new.budget }
    ensures budget { ledger.new.budget ≡ ledger.old.budget }
{
    ledger.take()
}

// The tree of the system's labels, which tells the pairs of these numbers apart, and closes these
// gaps first. The store is as before.
fn tree_of<M: Demand>(
    alloc: Global,
    store: &mut Store,
    logic: Logic,
    system: &System,
    more: &M,
    numbers: &[usize],
    first: Gaps,
) -> Result<LabelTree, NoMemory>
    requires fits { IsTrue (is_system store.old.store (the_system system.now)) }
    requires named { NamesItsStrings store.old.store (the_system system.now) }
    ensures refuted { IfOk result (λ tree. tree.order.is_refuted ≡ true
        → ¬ HasBoundedSolution logic (Asks (M.holds_for more.now)) store.old.store
        (the_system system.now)) }
    ensures unchanged { store.new.store ≡ store.old.store }
    ensures marks { KeepsMarks store.old.store store.new.store }
    ensures room { KeepsRoom store.old store.new }
{
    let start = store.mark();
    let made = demanded_tree(
        alloc,
        store,
        logic,
        system,
        more,
        numbers,
        MANY_CHOICES,
        first,
    );
    store.undo(start);
    made
}

// Adds the number, if there is one and it is new.
fn note(numbers: &mut Vec<usize>, number: Option<usize>) -> Result<(), NoMemory> {
    let Some(n) = number else {
        return Ok(());
    };
    for i in 0..numbers.len() {
        if numbers[i] == n {
            return Ok(());
        }
    }
    numbers.push(n)?;
    Ok(())
}

// Answers by the order of label beginnings, where that can be: it refutes the system, or proposes
// lengths that are tried. It tells the pairs of these numbers apart, and one that the lengths made
// the same is added to them.
fn solve_apart<M: Demand>(
    alloc: Global,
    store: &mut Store,
    logic: Logic,
    system: &System,
    more: &mut M,
    numbers: &mut Vec<usize>,
    first: Gaps,
) -> Result<Option<Solved>, NoMemory>
    requires fits { IsTrue (is_system store.old.store (the_system system.now)) }
    requires named { NamesItsStrings store.old.store (the_system system.now) }
    ensures found { IfOk result (λ o. IfSome o (λ a. a ≡ Solved.Found
        → OwnSparesSolve (M.common more.old) logic (Asks (M.holds_for more.old)) store.new.store
        (the_system system.now))) }
    ensures back { IfOk result (λ o. IfSome o (λ a. a ≡ Solved.Found
        → IsFoundIn logic (M.problem more.old) (the_system system.now) store.old.store
        store.new.store)) }
    ensures none { IfOk result (λ o. IfSome o (λ a. a ≡ Solved.None → ¬ HasBoundedSolution logic
        (Asks (M.holds_for more.old)) store.old.store (the_system system.now))) }
    ensures decided { IfOk result (λ o. IfSome o (λ a. ¬ (a ≡ Solved.Steps))) }
    ensures unchanged { IfOk result (λ o. MatchOption o (store.new.store ≡ store.old.store)
        (λ a. ¬ (a ≡ Solved.Found) → store.new.store ≡ store.old.store)) }
    ensures err { OnErr result (store.new.store ≡ store.old.store) }
    ensures marks { KeepsMarks store.old.store store.new.store }
    ensures room { KeepsRoom store.old store.new }
    ensures same { M.holds_for more.new ≡ M.holds_for more.old }
    ensures same_common { M.common more.new ≡ M.common more.old }
    ensures same_problem { M.problem more.new ≡ M.problem more.old }
{
    let tree = tree_of(alloc, store, logic, system, more, numbers, first)?;
    if tree.order.is_refuted {
        return Ok(Some(Solved::None));
    }
    let Some(lengths) = propose(alloc, store, logic, system, &tree)? else {
        return Ok(None);
    };
    let mut unifier = Unifier::new(alloc);
    let mut same = None;
    let found = try_or_undo(
        alloc,
        &mut unifier,
        store,
        logic,
        system,
        more,
        &lengths,
        &mut same,
    )?;
    if found {
        return Ok(Some(Solved::Found));
    }
    note(numbers, same)?;
    Ok(None)
}

// Whether there is one more round: where no pair was told apart in this one, gaps of marks that may
// be one come first from then on, if they did not yet.
fn goes_on(is_told: bool, first: &mut Gaps) -> bool {
    if is_told {
        return true;
    }
    match *first {
        Gaps::All => {
            *first = Gaps::Alike;
            true
        }
        Gaps::Alike => false,
    }
}

// Answers `Found` or `None` by the order of label beginnings, where that can be: as long as lengths
// that it proposes make goals of a pair the same, they are told apart. Where lengths do not serve
// otherwise, the order is made once more with gaps of marks that may be one first. Where each string
// has but one length, trying the one list costs less.
fn solve_by_order<M: Demand>(
    alloc: Global,
    store: &mut Store,
    logic: Logic,
    system: &System,
    more: &mut M,
    range: LengthRange,
) -> Result<Option<Solved>, NoMemory>
    requires fits { IsTrue (is_system store.old.store (the_system system.now)) }
    requires named { NamesItsStrings store.old.store (the_system system.now) }
    ensures found { IfOk result (λ o. IfSome o (λ a. a ≡ Solved.Found
        → OwnSparesSolve (M.common more.old) logic (Asks (M.holds_for more.old)) store.new.store
        (the_system system.now))) }
    ensures back { IfOk result (λ o. IfSome o (λ a. a ≡ Solved.Found
        → IsFoundIn logic (M.problem more.old) (the_system system.now) store.old.store
        store.new.store)) }
    ensures none { IfOk result (λ o. IfSome o (λ a. a ≡ Solved.None → ¬ HasBoundedSolution logic
        (Asks (M.holds_for more.old)) store.old.store (the_system system.now))) }
    ensures decided { IfOk result (λ o. IfSome o (λ a. ¬ (a ≡ Solved.Steps))) }
    ensures unchanged { IfOk result (λ o. MatchOption o (store.new.store ≡ store.old.store)
        (λ a. ¬ (a ≡ Solved.Found) → store.new.store ≡ store.old.store)) }
    ensures err { OnErr result (store.new.store ≡ store.old.store) }
    ensures marks { KeepsMarks store.old.store store.new.store }
    ensures room { KeepsRoom store.old store.new }
    ensures same { M.holds_for more.new ≡ M.holds_for more.old }
    ensures same_common { M.common more.new ≡ M.common more.old }
    ensures same_problem { M.problem more.new ≡ M.problem more.old }
{
    if is_single(range) {
        return Ok(None);
    }
    let mut numbers = Vec::new(alloc);
    let mut first = Gaps::All;
    for _ in 0..system.pairs.items().len().saturating_add(2) {
        let told = numbers.len();
        if let Some(answer) = solve_apart(alloc, store, logic, system, more, &mut numbers, first)? {
            return Ok(Some(answer));
        }
        if !goes_on(numbers.len() > told, &mut first) {
            return Ok(None);
        }
    }
    Ok(None)
}

/// Solves a system: equations between labels, together with what the demand asks of gamma terms and
/// with pairs of goals that must differ (the prefix unification of Otten and Kreitz, with strings
/// of bounded length). The order of label beginnings may refute it, or propose lengths of the
/// strings. Where it decides nothing, lists of lengths are tried by their sum, then
/// lexicographically. One step is used for the first list, whatever decides, and one for each
/// further list. After every answer but `Found`, and for want of memory, the store is as before.
pub fn solve<M: Demand>(
    alloc: Global,
    store: &mut Store,
    logic: Logic,
    system: &System,
    more: &mut M,
    ledger: &mut Ledger,
) -> Result<Solved, NoMemory>
    requires fits { IsTrue (is_system store.old.store (the_system system.now)) }
    requires named { NamesItsStrings store.old.store (the_system system.now) }
    requires labels { IsTrue (has_labels logic) }
    ensures found { IfOk result (λ a. a ≡ Solved.Found → OwnSparesSolve (M.common more.old) logic
        (Asks (M.holds_for more.old)) store.new.store (the_system system.now)) }
    ensures back { IfOk result (λ a. a ≡ Solved.Found
        → IsFoundIn logic (M.problem more.old) (the_system system.now) store.old.store
        store.new.store) }
    ensures none { IfOk result (λ a. a ≡ Solved.None → ¬ HasBoundedSolution logic
        (Asks (M.holds_for more.old)) store.old.store (the_system system.now)) }
    ensures steps { IfOk result (λ a. a ≡ Solved.Steps → ledger.new.used ≡ ledger.new.budget) }
    ensures more_early { IfOk result (λ a. a ≡ Solved.Steps → MoreThan lengths_cmp
        (AreEarly logic (Asks (M.holds_for more.old)) store.old.store (the_system system.now))
        (ledger.new.budget - ledger.old.used)) }
    ensures counted { IsCounted logic (Asks (M.holds_for more.old)) store.old.store
        (the_system system.now) ledger.old.used ledger.new.used }
    ensures unchanged { IfOk result (λ a. ¬ (a ≡ Solved.Found)
        → store.new.store ≡ store.old.store) }
    ensures err { OnErr result (store.new.store ≡ store.old.store) }
    ensures marks { KeepsMarks store.old.store store.new.store }
    ensures room { KeepsRoom store.old store.new }
    ensures budget { ledger.new.budget ≡ ledger.old.budget }
    ensures same { M.holds_for more.new ≡ M.holds_for more.old }
    ensures same_common { M.common more.new ≡ M.common more.old }
    ensures same_problem { M.problem more.new ≡ M.problem more.old }
{
    let range = range_of(logic, system)?;
    let mut lengths = first_lengths(alloc, range, system.strings.items().len() as u32)?;
    if !take_step(ledger) {
        return Ok(Solved::Steps);
    }
    if let Some(answer) = solve_by_order(alloc, store, logic, system, more, range)? {
        return Ok(answer);
    }
    let mut unifier = Unifier::new(alloc);
    let mut same = None;
    loop {
        let found = try_or_undo(
            alloc,
            &mut unifier,
            store,
            logic,
            system,
            more,
            &lengths,
            &mut same,
        )?;
        if found {
            return Ok(Solved::Found);
        }
        if !next_lengths(&mut lengths, range)? {
            return Ok(Solved::None);
        }
        if !take_step(ledger) {
            return Ok(Solved::Steps);
        }
    }
}
