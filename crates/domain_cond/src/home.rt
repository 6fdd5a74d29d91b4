//! The homes of eigenvariables, by cells: the labels at their positions.

ghost use Rattle.std.specs.Prelude.{◌≡◌, ◌+◌, ◌^◌, ◌<◌, ◌≤◌, ℕ, None, Some, IfOk, IfSome, IsTrue, OnOk};
ghost use Rattle.std.specs.Prelude.{length, map, slice_get};
ghost use Rattle.std.specs.List.{list_all};
ghost use Rattle.store_theory.specs.Bindings.{AddsBuilt};
ghost use Rattle.calculus.specs.Equality.{sort_eq};
ghost use Rattle.calculus.specs.Kinds.{components};
ghost use Rattle.calculus.specs.Labels.{pi_label};
ghost use Rattle.calculus.specs.Positions.{size};
ghost use Rattle.calculus.specs.Skolem.{fits_way};
ghost use Rattle.search_theory.specs.KeepingCells.{AddsRight};
ghost use Rattle.search_theory.specs.LabelledCells.{sort_values};
ghost use Rattle.store_theory.specs.Stores.{has_sort_at, has_value_sort_at};
ghost use Rattle.formula_core.specs.FormulaView.{the_formula};
ghost use Rattle.tableau_core.specs.InsideView.{the_inside};
ghost use Rattle.term_store.specs.RefView.{the_place};
ghost use Rattle.term_store.specs.Room.{KeepsRoom};
ghost use Rattle.domain_cond.specs.Ways.{IsBelow, IsFoundHome, IsPushed, LacksString, LacksTerm};
ghost use Rattle.domain_cond.specs.Ways.{LacksValue, PushesRight, TakesString, TakesTerm, TakesValue};

use cop_base::{NoMemory, PosId};
use logic_rules::{Logic, ModalPart, Shape, kind_of};
use std::alloc::Global;
use tableau_core::{Inside, SizedProblem, towards};
use term_store::{Head, Ref, Sort, Store};

// The sort of the cell.
fn sort_at(store: &Store, r: Ref) -> Sort
    requires { r.0 < length store.now.store.cells }
    ensures { IsTrue (has_sort_at store.now.store result r.0) }
{
    let _now = store.mark();
    match store.head(r) {
        Head::Open(sort) => sort,
        Head::Fun(_) => Sort::TermSort,
        Head::Eigen(_) => Sort::TermSort,
        Head::New(_) => Sort::MarkSort,
        Head::Marks => Sort::StringSort,
    }
}

pub(crate) fn value_at(values: &[Ref], i: usize) -> Ref
    requires { i < length values.now }
    ensures { slice_get (map the_place values.now) i ≡ Some result.0 }
{
    values[i]
}

pub(crate) fn is_same_sort(a: Sort, b: Sort) -> bool
    ensures { result ≡ sort_eq a b }
{
    match (a, b) {
        (Sort::TermSort, Sort::TermSort) => true,
        (Sort::MarkSort, Sort::MarkSort) => true,
        (Sort::StringSort, Sort::StringSort) => true,
        _ => false,
    }
}

// How many values are taken once one of this sort is, where one stands at the place.
fn past_value(store: &Store, sort: Sort, values: &[Ref], taken: usize) -> Option<usize>
    requires { IsTrue (list_all (has_value_sort_at store.now.store) (map the_place values.now)) }
    ensures some { IfSome result (λ next. TakesValue store.now.store sort
        (map the_place values.now) taken next) }
    ensures none { result ≡ None
        → LacksValue store.now.store sort (map the_place values.now) taken }
    ensures within { IfSome result (λ next. next ≤ length values.now) }
{
    if taken >= values.len() {
        return None;
    }
    if !is_same_sort(sort, sort_at(store, value_at(values, taken))) {
        return None;
    }
    Some(taken + 1)
}

// How many values are taken past the modal part.
fn past_modal(store: &Store, modal: ModalPart, values: &[Ref], taken: usize) -> Option<usize>
    requires values { IsTrue (list_all (has_value_sort_at store.now.store)
        (map the_place values.now)) }
    requires taken { taken ≤ length values.now }
    ensures some { IfSome result (λ next. TakesString store.now.store modal
        (map the_place values.now) taken next) }
    ensures none { result ≡ None
        → LacksString store.now.store modal (map the_place values.now) taken }
    ensures within { IfSome result (λ next. next ≤ length values.now) }
{
    match modal {
        ModalPart::Plain => Some(taken),
        ModalPart::Nu => past_value(store, Sort::StringSort, values, taken),
        ModalPart::Pi => Some(taken),
    }
}

// How many values are taken past the shape's part.
fn past_shape(store: &Store, shape: Shape, values: &[Ref], taken: usize) -> Option<usize>
    requires values { IsTrue (list_all (has_value_sort_at store.now.store)
        (map the_place values.now)) }
    requires taken { taken ≤ length values.now }
    ensures some { IfSome result (λ next. TakesTerm store.now.store shape
        (map the_place values.now) taken next) }
    ensures none { result ≡ None
        → LacksTerm store.now.store shape (map the_place values.now) taken }
    ensures within { IfSome result (λ next. next ≤ length values.now) }
{
    match shape {
        Shape::Alpha => Some(taken),
        Shape::Beta => Some(taken),
        Shape::Gamma => past_value(store, Sort::TermSort, values, taken),
        Shape::Delta => Some(taken),
        Shape::Literal => Some(taken),
    }
}

// The label with one item more. In S5 that is the item alone.
fn push_item(logic: Logic, label: &mut Vec<Ref>, item: Ref) -> Result<(), NoMemory>
    ensures { OnOk result (map the_place label.new.items
        ≡ pi_label logic (map the_place label.old.items) item.0) }
{
    if !logic.keeps_prefix() {
        label.clear();
    }
    label.push(item)?;
    Ok(())
}

// The label past the modal part of a position.
fn push_modal(
    store: &mut Store,
    logic: Logic,
    modal: ModalPart,
    position: PosId,
    values: &[Ref],
    taken: usize,
    label: &mut Vec<Ref>,
) -> Result<(), NoMemory>
    requires values { IsTrue (list_all (has_value_sort_at store.old.store)
        (map the_place values.now)) }
    requires taken { taken ≤ length values.now }
    requires takes { (n : ℕ) × TakesString store.old.store modal (map the_place values.now) taken n }
    ensures pushed { OnOk result (IsPushed logic store.old.store store.new.store modal position.0
        (map the_place values.now) taken (map the_place label.old.items)
        (map the_place label.new.items)) }
    ensures right { OnOk result (PushesRight store.old.store store.new.store modal position.0
        (map the_place values.now) taken (map the_place label.old.items)
        (map the_place label.new.items)) }
    ensures adds { AddsBuilt store.old.store store.new.store }
    ensures room { KeepsRoom store.old store.new }
{
    let _now = store.mark();
    match modal {
        ModalPart::Plain => Ok(()),
        ModalPart::Nu => {
            push_item(logic, label, value_at(values, taken))?;
            Ok(())
        }
        ModalPart::Pi => {
            let mark = store.new_mark(position, &values[..taken])?;
            push_item(logic, label, mark)?;
            Ok(())
        }
    }
}

// The component on the way to the place, which is counted from the part; `further` is the position.
fn below<'a>(at: Inside<'a>) -> Inside<'a>
    requires small { at.further + size (the_formula at.part.formula.now) < 2 ^ 32 }
    requires place { 0 < at.place }
    requires inside { at.place < size (the_formula at.part.formula.now) }
    ensures leads { IsBelow at.entry.further at.entry.place
        (components at.entry.part.sign (the_formula at.entry.part.formula.now)) (the_inside result) }
    ensures smaller { size (the_formula result.part.formula.now)
        < size (the_formula at.entry.part.formula.now) }
    ensures inside { result.place < size (the_formula result.part.formula.now) }
    ensures small { result.further + size (the_formula result.part.formula.now) < 2 ^ 32 }
{
    let next = towards(at.part, at.place);
    Inside {
        part: next.part,
        further: at.further + next.further,
        place: next.place,
    }
}

/// The home of the name of the position with these values: terms and strings. Where values are
/// lacking, it is the label that is reached. It may add marks; want of memory may leave some.
pub(crate) fn home(
    alloc: Global,
    problem: &SizedProblem,
    store: &mut Store,
    p: PosId,
    values: &[Ref],
) -> Result<Vec<Ref>, NoMemory>
    requires { IsTrue (list_all (has_value_sort_at store.old.store) (map the_place values.now)) }
    ensures found { IfOk result (λ label. IsFoundHome problem.now store.old.store store.new.store p.0
        (map the_place values.now) (map the_place label.items)) }
    ensures right { IfOk result (λ label. IsTrue (fits_way problem.now p.0
        (sort_values store.old.store (map the_place values.now))) → AddsRight problem.now
        (map the_place values.now) store.old.store store.new.store (map the_place label.items)) }
    ensures adds { AddsBuilt store.old.store store.new.store }
    ensures room { KeepsRoom store.old store.new }
{
    let _now = store.mark();
    let logic = problem.setting().logic();
    let whole = problem.whole();
    let mut label = Vec::new(alloc);
    if p.0 >= whole.size() {
        return Ok(label);
    }
    let mut at = Inside {
        part: whole,
        further: 0,
        place: p.0,
    };
    let mut taken = 0;
    loop {
        let kind = kind_of(logic, at.part.sign, at.part.formula);
        let Some(middle) = past_modal(store, kind.modal, values, taken) else {
            return Ok(label);
        };
        let Some(next) = past_shape(store, kind.shape, values, middle) else {
            return Ok(label);
        };
        let position = PosId(at.further);
        push_modal(
            store, logic, kind.modal, position, values, taken, &mut label,
        )?;
        if at.place == 0 {
            return Ok(label);
        }
        at = below(at);
        taken = next;
    }
}
