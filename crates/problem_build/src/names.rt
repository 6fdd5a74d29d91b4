//! Names of items and of files.

ghost use Rattle.std.specs.Prelude.{◌≡◌, ◌++◌, ◌∷◌, [], map, IfOk, OnOk};
ghost use Rattle.std.specs.List.{filter};
ghost use Rattle.problem_build.specs.Walk.{fetched_name, first_absent, is_among, names_of, passes};

use crate::name_set::{NameSet, set_of};
use crate::selection::Selection;
use cop_base::{NoMemory, Text};
use std::alloc::{AllocError, Global};

/// Whether the name stands in each of the lists.
pub fn passes(lists: &[Selection], name: &Text) -> bool
    ensures { result ≡ passes (map names_of lists.now) name.now }
{
    for list in lists {
        if !list.lists(name) {
            return false;
        }
    }
    true
}

// The offset of the first name that is not in the set.
fn first_outside(places: &[(Text, u64)], reached: &NameSet) -> Option<u64>
    ensures { result ≡ first_absent places.now reached.now }
{
    for item in places {
        if !reached.contains(&item.0) {
            return Some(item.1);
        }
    }
    None
}

/// The offset of the first name of the list that is not among the reached ones.
pub fn first_absent(
    alloc: Global,
    list: &Selection,
    reached: &[Text],
) -> Result<Option<u64>, NoMemory>
    ensures { IfOk result (λ a. a ≡ first_absent list.now reached.now) }
{
    let reached = set_of(alloc, reached)?;
    let absent = first_outside(list.places(), &reached);
    Ok(absent)
}

/// The names that stand in the list, in order.
pub fn listed(alloc: Global, names: Vec<Text>, list: &Selection) -> Result<Vec<Text>, NoMemory>
    ensures { IfOk result (λ kept. kept.items ≡ filter (λ n. is_among n (names_of list.now)) names.items) }
{
    let mut names = names;
    names.reverse();
    let mut kept = Vec::new(alloc);
    while let Some(name) = names.pop() {
        keep_listed(&mut kept, name, list)?;
    }
    Ok(kept)
}

fn keep_listed(kept: &mut Vec<Text>, name: Text, list: &Selection) -> Result<(), NoMemory>
    ensures { OnOk result (kept.new.items
        ≡ kept.old.items ++ filter (λ n. is_among n (names_of list.now)) (name ∷ [])) }
{
    if list.lists(&name) {
        kept.push(name)?;
    }
    Ok(())
}

/// Appends the names in order.
pub fn append_names(names: &mut Vec<Text>, more: Vec<Text>) -> Result<(), NoMemory>
    ensures { OnOk result (names.new.items ≡ names.old.items ++ more.items) }
{
    let mut more = more;
    more.reverse();
    while let Some(name) = more.pop() {
        names.push(name)?;
    }
    Ok(())
}

/// The name by which an included file is fetched.
pub fn fetched_name(alloc: Global, root: &Text, file: &Text) -> Result<Text, NoMemory>
    ensures { IfOk result (λ t. t ≡ fetched_name root.now file.now) }
{
    let root = root.bytes();
    let file = file.bytes();
    if root.is_empty() || file.first() == Some(&b'/') {
        return Text::new(alloc, file);
    }
    let mut path = Vec::from_slice(alloc, root)?;
    path.push(b'/')?;
    path.extend_from_slice(file)?;
    Text::new(alloc, &path)
}
