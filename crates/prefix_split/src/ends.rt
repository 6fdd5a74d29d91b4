//! What stands where bindings end: a mark, or an unbound string.

ghost use Rattle.std.specs.Prelude.{◌≡◌, IsTrue};
ghost use Rattle.std.specs.Prelude.{true};
ghost use Rattle.store_theory.specs.Bindings.{IsEnd};
ghost use Rattle.calculus.specs.declared.sort.Sort.TheVariants.{MarkSort};
ghost use Rattle.store_theory.specs.Stores.{has_sort_at};
ghost use Rattle.store_theory.specs.Systems.{IsOpenString};
ghost use Rattle.prefix_split.specs.Growing.{is_mark_head, is_open_string_head};

use calculus::sort::Sort;
use term_store::{Head, Ref, Store};

fn is_mark_head(head: Head) -> bool
    ensures { result ≡ is_mark_head head }
{
    match head {
        Head::Open(sort) => match sort {
            Sort::TermSort => false,
            Sort::MarkSort => true,
            Sort::StringSort => false,
        },
        Head::Fun(_) => false,
        Head::Eigen(_) => false,
        Head::New(_) => true,
        Head::Marks => false,
    }
}

fn is_open_string_head(head: Head) -> bool
    ensures { result ≡ is_open_string_head head }
{
    match head {
        Head::Open(sort) => match sort {
            Sort::TermSort => false,
            Sort::MarkSort => false,
            Sort::StringSort => true,
        },
        Head::Fun(_) => false,
        Head::Eigen(_) => false,
        Head::New(_) => false,
        Head::Marks => false,
    }
}

pub(crate) fn is_mark(store: &Store, end: Ref) -> bool
    requires { IsEnd store.now.store end.0 }
    ensures { result ≡ true → IsTrue (has_sort_at store.now.store MarkSort end.0) }
{
    let found = store.head(end);
    is_mark_head(found)
}

pub(crate) fn is_open_string(store: &Store, end: Ref) -> bool
    requires { IsEnd store.now.store end.0 }
    ensures { result ≡ true → IsOpenString store.now.store end.0 }
{
    let found = store.head(end);
    is_open_string_head(found)
}
