//! The walk over a file and the files that it includes.

ghost use Rattle.std.specs.Prelude.{◌≡◌, ◌<◌, ◌≤◌, ◌++◌, ◌∷◌, [], List, Bool, true, is_some, map, reverse, length, IfOk, IfErr, IfSome, OnOk, OnErr, IsTrue, if◌then◌else◌};
ghost use Rattle.std.specs.Prelude.{Result, Ok, Err, None, Some, false, ℕ, ◌+◌};
ghost use Rattle.std.specs.List.{list_all, list_any};
ghost use Rattle.std.specs.Option.{option_map_or};
ghost use Rattle.cop_base.specs.Outside.{Files, Rose, file_in};
ghost use Rattle.cop_base.specs.Reads as seen;
ghost use Rattle.cop_base.specs.Reads.{AgreesSince, EndsWith, ReadsOn};
ghost use Rattle.tptp_reader.specs.ItemView.{the_item};
ghost use Rattle.tptp_reader.specs.SourceView.{the_source};
ghost use Rattle.tptp_reader.specs.Sources as tree;
ghost use Rattle.problem_build.specs.Building.{IsExactReader, without};
ghost use Rattle.problem_build.specs.Fetching.{ReadsOnly};
ghost use Rattle.problem_build.specs.Outside.{is_inside};
ghost use Rattle.problem_build.specs.Passing.{AreRead, WalksTo, item_passes, the_passed};
ghost use Rattle.problem_build.specs.Refusals as refusal;
ghost use Rattle.problem_build.specs.Walk as definition;
ghost use Rattle.problem_build.specs.Walk.{Passed, Progress, Reader, first_absent, is_among, passed_on, past_list, premise_roles};
ghost use Rattle.problem_build.specs.Walking.{AllPass, EndsIn, HoldsOfTexts, IsCounted, IsJudged, IsSelected, LeadsTo, LetsPass, ReadsTo, StepsTo, file_outcomes, items_outcomes, lists_of, pending_items, progress_of, with_list};

use crate::fault::{BuildFault, Cause};
use crate::faults::{bad, failed, missing, unread};
use crate::names::{append_names, fetched_name, first_absent, listed, passes};
use crate::passed::{Passed, WalkedFiles};
use crate::progress::{Walk, WalkRules};
use crate::selection::Selection;
use cop_base::{FetchFault, Library, NoMemory, Text};
use std::alloc::{AllocError, AllocFailed, Global};
use tptp_reader::{Item, NameList, Source, read_text};

/// The most bytes of all files together.
const MAX_INPUT: u64 = 16_777_216;

/// How many includes may stand inside one another.
const MAX_DEPTH: u32 = 16;

fn is_premise(role: &Text) -> bool
    ensures { result ≡ is_among role.now premise_roles }
{
    let role = role.bytes();
    role == b"axiom".as_slice()
        || role == b"hypothesis".as_slice()
        || role == b"definition".as_slice()
        || role == b"assumption".as_slice()
        || role == b"lemma".as_slice()
        || role == b"theorem".as_slice()
        || role == b"corollary".as_slice()
        || role == b"negated_conjecture".as_slice()
}

fn has_conjecture(passed: &[Passed]) -> bool
    ensures { result ≡ list_any (λ (q : definition.Passed). q.is_conjecture) (map the_passed passed.now) }
{
    for item in passed {
        if item.is_conjecture {
            return true;
        }
    }
    false
}

// Whether a formula of this role is the conjecture, or why it is refused.
fn judge_role(
    alloc: Global,
    passed: &[Passed],
    file: &Text,
    role: &Text,
    role_at: u64,
    start: u64,
) -> Result<bool, BuildFault>
    ensures inside { IfErr result (λ f. is_inside f ≡ true) }
    ensures judged { (body : tree.Source) (p : Progress) → p.passed ≡ map the_passed passed.now
        → IsJudged (passed_on file.now role.now role_at body start p) p body result }
{
    if role.bytes() == b"conjecture".as_slice() {
        if has_conjecture(passed) {
            return Err(bad(alloc, file, start, Cause::SecondConjecture));
        }
        return Ok(true);
    }
    if is_premise(role) {
        return Ok(false);
    }
    Err(bad(alloc, file, role_at, Cause::UnknownRole))
}

// Adds the formula of an item, if its name stands in all lists and its role lets it pass.
fn pass_formula(
    alloc: Global,
    walk: &mut Walk,
    file: &Text,
    name: &Text,
    role: &Text,
    role_at: u64,
    body: Source,
    start: u64,
) -> Result<(), BuildFault>
    ensures inside { IfErr result (λ f. is_inside f ≡ true) }
    ensures judged { LetsPass (if definition.passes (lists_of walk.old) name.now
        then passed_on file.now role.now role_at (the_source body) start (progress_of walk.old)
        else Ok (progress_of walk.old)) walk.new result }
    ensures kept { OnOk result (walk.new.lists.items ≡ walk.old.lists.items) }
    ensures read { (test : tree.Source → Bool) → IsTrue (test (the_source body))
        → IsTrue (list_all (λ (p : definition.Passed). test p.body) (map the_passed walk.old.passed.items))
        → OnOk result (IsTrue (list_all (λ (p : definition.Passed). test p.body) (map the_passed walk.new.passed.items))) }
{
    if !passes(&walk.lists, name) {
        return Ok(());
    }
    let is_conjecture = judge_role(alloc, &walk.passed, file, role, role_at, start)?;
    walk.passed.push(Passed {
        is_conjecture,
        body,
    })?;
    Ok(())
}

// The items of a file, the last one first.
fn read_file<L: Library>(
    rules: &WalkRules,
    walk: &mut Walk,
    lib: &mut L,
    name: &Text,
) -> Result<Vec<Item>, BuildFault>
    ensures reading { (files : Files) → AgreesSince files (L.reads lib.old) (L.reads lib.new)
        → (read : Reader) → IsExactReader rules.now.modal read
        → (root : List ℕ) (depth : ℕ) (lists : List (List (List ℕ)))
        → ReadsTo read files root name.now depth lists walk.old walk.new result }
    ensures kept { OnOk result (walk.new.lists.items ≡ walk.old.lists.items) }
    ensures passed { OnOk result (walk.new.passed.items ≡ walk.old.passed.items) }
    ensures read { (test : tree.Source → Bool) → HoldsOfTexts rules.now.modal test
        → IfOk result (λ items. IsTrue (list_all (item_passes test) (pending_items items.items))) }
    ensures bytes { OnOk result ((files : Files) → AgreesSince files (L.reads lib.old) (L.reads lib.new)
        → walk.new.bytes ≡ walk.old.bytes + option_map_or length (file_in files name.now) 0) }
    ensures same_files { L.holds lib.new ≡ L.holds lib.old }
    ensures more_faults { L.faults lib.old ≤ L.faults lib.new }
    ensures more_misses { L.misses lib.old ≤ L.misses lib.new }
    ensures reads_on { ReadsOn (L.holds lib.old) (L.reads lib.old) (L.reads lib.new) }
    ensures fetched { ReadsOnly (λ n. n ≡ name.now) (L.reads lib.old) (L.reads lib.new) }
    ensures counted { IfErr result (IsCounted (L.faults lib.old) (L.faults lib.new) (L.misses lib.old) (L.misses lib.new) (L.reads lib.new)) }
{
    let bytes = match lib.fetch(name, MAX_INPUT - walk.bytes) {
        Ok(bytes) => bytes,
        Err(FetchFault::Missing) => return Err(missing(rules.alloc, name)),
        Err(FetchFault::Failed) => return Err(failed(rules.alloc, name)),
        Err(FetchFault::TooLarge) => return Err(BuildFault::InputTooLarge),
        Err(FetchFault::NoMemory) => return Err(BuildFault::NoMemory),
    };
    walk.bytes += bytes.len() as u64;
    match read_text(rules.alloc, &bytes, rules.modal) {
        Ok(items) => {
            let mut items = items.into_items();
            items.reverse();
            Ok(items)
        }
        Err(fault) => Err(unread(rules.alloc, name, fault)),
    }
}

// Puts the list of an include inside the others, and tells whether there is one.
fn enter(alloc: Global, lists: &mut Vec<Selection>, names: NameList) -> Result<bool, NoMemory>
    ensures told { IfOk result (λ b. b ≡ is_some names) }
    ensures entered { OnOk result (lists.new.items ≡ with_list names lists.old.items) }
{
    let Some(list) = names else {
        return Ok(false);
    };
    let selection = Selection::new(alloc, list)?;
    lists.push(selection)?;
    Ok(true)
}

// Judges the names of a list, and adds those that it lets through to the names that are reached.
fn select(
    alloc: Global,
    list: &Selection,
    file: &Text,
    inner: Vec<Text>,
    reached: &mut Vec<Text>,
) -> Result<(), BuildFault>
    ensures inside { IfErr result (λ f. is_inside f ≡ true) }
    ensures taken { OnOk result (reached.new.items ≡ reached.old.items ++ past_list (Some list.now) inner.items) }
    ensures selected { IsSelected file.now (first_absent list.now inner.items) result }
{
    let absent = first_absent(alloc, list, &inner)?;
    if let Some(offset) = absent {
        return Err(bad(alloc, file, offset, Cause::IncludeNameAbsent));
    }
    let more = listed(alloc, inner, list)?;
    append_names(reached, more)?;
    Ok(())
}

// Takes the innermost list off, if the include has one. Its names are judged, and those that it
// lets through are reached.
fn leave(
    alloc: Global,
    lists: &mut Vec<Selection>,
    is_list: bool,
    file: &Text,
    inner: Vec<Text>,
    reached: &mut Vec<Text>,
) -> Result<(), BuildFault>
    requires entered { is_list ≡ true → 0 < length lists.now.items }
    ensures inside { IfErr result (λ f. is_inside f ≡ true) }
    ensures all_kept { is_list ≡ false → OnOk result (lists.new.items ≡ lists.old.items) }
    ensures all_taken { is_list ≡ false → OnOk result (reached.new.items ≡ reached.old.items ++ inner.items) }
    ensures all_selected { is_list ≡ false → IsSelected file.now None result }
    ensures list_kept { (outer : List (List (List ℕ × ℕ))) (list : List (List ℕ × ℕ)) → is_list ≡ true
        → lists.old.items ≡ outer ++ list ∷ [] → OnOk result (lists.new.items ≡ outer) }
    ensures list_taken { (outer : List (List (List ℕ × ℕ))) (list : List (List ℕ × ℕ)) → is_list ≡ true
        → lists.old.items ≡ outer ++ list ∷ []
        → OnOk result (reached.new.items ≡ reached.old.items ++ past_list (Some list) inner.items) }
    ensures list_selected { (outer : List (List (List ℕ × ℕ))) (list : List (List ℕ × ℕ)) → is_list ≡ true
        → lists.old.items ≡ outer ++ list ∷ []
        → IsSelected file.now (first_absent list inner.items) result }
{
    if !is_list {
        append_names(reached, inner)?;
        return Ok(());
    }
    let Some(list) = lists.pop() else {
        unreachable!()
    };
    select(alloc, &list, file, inner, reached)
}

// Walks over an item, the names that are reached in it being added to those before.
#[tactic(auto, using(cop_base::proofs::ReadLaws::reads_same, crate::proofs::FetchingLaws::only_same))]
#[cycle(walk)]
fn walk_item<L: Library>(
    rules: &WalkRules,
    walk: &mut Walk,
    lib: &mut L,
    file: &Text,
    item: Item,
    depth: u32,
    reached: &mut Vec<Text>,
) -> Result<(), BuildFault>
    ensures steps { (files : Files) → AgreesSince files (L.reads lib.old) (L.reads lib.new)
        → (read : Reader) → IsExactReader rules.now.modal read → (rest : List tree.Item)
        → StepsTo (items_outcomes read files rules.now.root file.now depth (lists_of walk.old) (the_item item ∷ rest) (progress_of walk.old) reached.old.items)
        (items_outcomes read files rules.now.root file.now depth (lists_of walk.old) rest (progress_of walk.new) reached.new.items) result }
    ensures kept { OnOk result (walk.new.lists.items ≡ walk.old.lists.items) }
    ensures read { (test : tree.Source → Bool) → HoldsOfTexts rules.now.modal test → IsTrue (item_passes test (the_item item))
        → AllPass test walk.old → OnOk result (AllPass test walk.new) }
    ensures same_files { L.holds lib.new ≡ L.holds lib.old }
    ensures more_faults { L.faults lib.old ≤ L.faults lib.new }
    ensures more_misses { L.misses lib.old ≤ L.misses lib.new }
    ensures reads_on { ReadsOn (L.holds lib.old) (L.reads lib.old) (L.reads lib.new) }
    ensures fetches { (files : Files) → AgreesSince files (L.reads lib.old) (L.reads lib.new)
        → (read : Reader) → IsExactReader rules.now.modal read
        → (rest : List tree.Item)
        → ReadsOnly (λ n. EndsIn (items_outcomes read files rules.now.root file.now depth (lists_of walk.old) (the_item item ∷ rest) (progress_of walk.old) reached.old.items) (BuildFault.Failed n))
        (L.reads lib.old) (L.reads lib.new) }
    ensures counted { IfErr result (IsCounted (L.faults lib.old) (L.faults lib.new) (L.misses lib.old) (L.misses lib.new) (L.reads lib.new)) }
{
    match item {
        Item::Formula {
            kind: _,
            name,
            role,
            role_at,
            body,
            start,
        } => {
            pass_formula(rules.alloc, walk, file, &name, &role, role_at, body, start)?;
            reached.push(name)?;
            Ok(())
        }
        Item::Include {
            file: included,
            names,
            start,
        } => {
            walk_include(
                rules, walk, lib, file, included, names, start, depth, reached,
            )?;
            Ok(())
        }
    }
}

// Walks over an included file, and judges the names that the include selects.
#[tactic(auto, using(cop_base::proofs::ReadLaws::reads_same, crate::proofs::FetchingLaws::only_same))]
#[cycle(walk)]
fn walk_include<L: Library>(
    rules: &WalkRules,
    walk: &mut Walk,
    lib: &mut L,
    file: &Text,
    included: Text,
    names: NameList,
    start: u64,
    depth: u32,
    reached: &mut Vec<Text>,
) -> Result<(), BuildFault>
    ensures steps { (files : Files) → AgreesSince files (L.reads lib.old) (L.reads lib.new)
        → (read : Reader) → IsExactReader rules.now.modal read → (rest : List tree.Item)
        → StepsTo (items_outcomes read files rules.now.root file.now depth (lists_of walk.old) (tree.include included names start ∷ rest) (progress_of walk.old) reached.old.items)
        (items_outcomes read files rules.now.root file.now depth (lists_of walk.old) rest (progress_of walk.new) reached.new.items) result }
    ensures kept { OnOk result (walk.new.lists.items ≡ walk.old.lists.items) }
    ensures read { (test : tree.Source → Bool) → HoldsOfTexts rules.now.modal test
        → AllPass test walk.old → OnOk result (AllPass test walk.new) }
    ensures same_files { L.holds lib.new ≡ L.holds lib.old }
    ensures more_faults { L.faults lib.old ≤ L.faults lib.new }
    ensures more_misses { L.misses lib.old ≤ L.misses lib.new }
    ensures reads_on { ReadsOn (L.holds lib.old) (L.reads lib.old) (L.reads lib.new) }
    ensures fetches { (files : Files) → AgreesSince files (L.reads lib.old) (L.reads lib.new)
        → (read : Reader) → IsExactReader rules.now.modal read
        → (rest : List tree.Item)
        → ReadsOnly (λ n. EndsIn (items_outcomes read files rules.now.root file.now depth (lists_of walk.old) (tree.include included names start ∷ rest) (progress_of walk.old) reached.old.items) (BuildFault.Failed n))
        (L.reads lib.old) (L.reads lib.new) }
    ensures counted { IfErr result (IsCounted (L.faults lib.old) (L.faults lib.new) (L.misses lib.old) (L.misses lib.new) (L.reads lib.new)) }
{
    if depth == 0 {
        return Err(bad(rules.alloc, file, start, Cause::IncludeTooDeep));
    }
    let fetched = fetched_name(rules.alloc, &rules.root, &included)?;
    let is_list = enter(rules.alloc, &mut walk.lists, names)?;
    let inner = walk_file(rules, walk, lib, &fetched, depth - 1)?;
    leave(rules.alloc, &mut walk.lists, is_list, file, inner, reached)?;
    Ok(())
}

/// Walks over a file, and tells the names of the items that are reached in it, those of its
/// includes past their own lists. So many includes may stand inside one another below the file.
#[cycle(walk)]
fn walk_file<L: Library>(
    rules: &WalkRules,
    walk: &mut Walk,
    lib: &mut L,
    name: &Text,
    depth: u32,
) -> Result<Vec<Text>, BuildFault>
    ensures leads { (files : Files) → AgreesSince files (L.reads lib.old) (L.reads lib.new)
        → (read : Reader) → IsExactReader rules.now.modal read
        → LeadsTo (file_outcomes read files rules.now.root name.now depth (lists_of walk.old) (progress_of walk.old)) walk.new result }
    ensures kept { OnOk result (walk.new.lists.items ≡ walk.old.lists.items) }
    ensures read { (test : tree.Source → Bool) → HoldsOfTexts rules.now.modal test
        → AllPass test walk.old → OnOk result (AllPass test walk.new) }
    ensures same_files { L.holds lib.new ≡ L.holds lib.old }
    ensures more_faults { L.faults lib.old ≤ L.faults lib.new }
    ensures more_misses { L.misses lib.old ≤ L.misses lib.new }
    ensures reads_on { ReadsOn (L.holds lib.old) (L.reads lib.old) (L.reads lib.new) }
    ensures fetches { (files : Files) → AgreesSince files (L.reads lib.old) (L.reads lib.new)
        → (read : Reader) → IsExactReader rules.now.modal read
        → ReadsOnly (λ n. EndsIn (file_outcomes read files rules.now.root name.now depth (lists_of walk.old) (progress_of walk.old)) (BuildFault.Failed n))
        (L.reads lib.old) (L.reads lib.new) }
    ensures counted { IfErr result (IsCounted (L.faults lib.old) (L.faults lib.new) (L.misses lib.old) (L.misses lib.new) (L.reads lib.new)) }
{
    let items = read_file(rules, walk, lib, name)?;
    let reached = walk_items(rules, walk, lib, name, items, depth)?;
    Ok(reached)
}

// Walks over the items of a file, the last of which comes first.
#[tactic(auto, using(cop_base::proofs::ReadLaws::reads_same, crate::proofs::FetchingLaws::only_same))]
#[cycle(walk)]
fn walk_items<L: Library>(
    rules: &WalkRules,
    walk: &mut Walk,
    lib: &mut L,
    file: &Text,
    items: Vec<Item>,
    depth: u32,
) -> Result<Vec<Text>, BuildFault>
    ensures leads { (files : Files) → AgreesSince files (L.reads lib.old) (L.reads lib.new)
        → (read : Reader) → IsExactReader rules.now.modal read
        → LeadsTo (items_outcomes read files rules.now.root file.now depth (lists_of walk.old) (pending_items items.items) (progress_of walk.old) []) walk.new result }
    ensures kept { OnOk result (walk.new.lists.items ≡ walk.old.lists.items) }
    ensures read { (test : tree.Source → Bool) → HoldsOfTexts rules.now.modal test
        → IsTrue (list_all (item_passes test) (pending_items items.items))
        → AllPass test walk.old → OnOk result (AllPass test walk.new) }
    ensures same_files { L.holds lib.new ≡ L.holds lib.old }
    ensures more_faults { L.faults lib.old ≤ L.faults lib.new }
    ensures more_misses { L.misses lib.old ≤ L.misses lib.new }
    ensures reads_on { ReadsOn (L.holds lib.old) (L.reads lib.old) (L.reads lib.new) }
    ensures fetches { (files : Files) → AgreesSince files (L.reads lib.old) (L.reads lib.new)
        → (read : Reader) → IsExactReader rules.now.modal read
        → ReadsOnly (λ n. EndsIn (items_outcomes read files rules.now.root file.now depth (lists_of walk.old) (pending_items items.items) (progress_of walk.old) []) (BuildFault.Failed n))
        (L.reads lib.old) (L.reads lib.new) }
    ensures counted { IfErr result (IsCounted (L.faults lib.old) (L.faults lib.new) (L.misses lib.old) (L.misses lib.new) (L.reads lib.new)) }
{
    let mut items = items;
    let mut reached = Vec::new(rules.alloc);
    while let Some(item) = items.pop() {
        walk_item(rules, walk, lib, file, item, depth, &mut reached)?;
    }
    Ok(reached)
}

/// Walks over the file of this name and the files that it includes, by the rule on the root: an
/// included file is fetched by its name behind the root and a `/`, where there is a root and the
/// name does not begin with `/`.
#[tactic(auto, using(cop_base::proofs::ReadLaws::reads_same, crate::proofs::FetchingLaws::only_same))]
pub fn walk_files<L: Library>(
    alloc: Global,
    lib: &mut L,
    modal: bool,
    name: &Text,
    root: &Text,
) -> Result<WalkedFiles, BuildFault>
    ensures walks { (files : Files) → AgreesSince files (L.reads lib.old) (L.reads lib.new)
        → (read : Reader) → IsExactReader modal read
        → WalksTo (definition.walk read files name.now root.now) result }
    ensures length { IfOk result (λ w. (files : Files) → AgreesSince files (L.reads lib.old) (L.reads lib.new)
        → option_map_or length (file_in files name.now) 0 ≡ w.main_length) }
    ensures read { IfOk result (λ w. AreRead modal (map the_passed w.passed.items)) }
    ensures same_files { L.holds lib.new ≡ L.holds lib.old }
    ensures more_faults { L.faults lib.old ≤ L.faults lib.new }
    ensures more_misses { L.misses lib.old ≤ L.misses lib.new }
    ensures reads_on { ReadsOn (L.holds lib.old) (L.reads lib.old) (L.reads lib.new) }
    ensures fetches { (files : Files) → AgreesSince files (L.reads lib.old) (L.reads lib.new)
        → (read : Reader) → IsExactReader modal read
        → ReadsOnly (λ n. definition.walk read (without n files) name.now root.now ≡ Err (refusal.missing n))
        (L.reads lib.old) (L.reads lib.new) }
    ensures missing { (n : Text) → result ≡ Err (BuildFault.Missing n)
        → Rose (L.misses lib.old) (L.misses lib.new) × EndsWith (L.reads lib.new) n seen.absent }
    ensures failed { (n : Text) → result ≡ Err (BuildFault.Failed n)
        → Rose (L.faults lib.old) (L.faults lib.new) × EndsWith (L.reads lib.new) n seen.failed }
    ensures fetched { (n : Text) → result ≡ Err (BuildFault.Failed n)
        → (files : Files) → AgreesSince files (L.reads lib.old) (L.reads lib.new)
        → (read : Reader) → IsExactReader modal read
        → definition.walk read (without n files) name.now root.now ≡ Err (refusal.missing n) }
{
    let root = Text::new(alloc, root.bytes())?;
    let rules = WalkRules { alloc, modal, root };
    let passed = Vec::new(alloc);
    let lists = Vec::new(alloc);
    let mut walk = Walk {
        bytes: 0,
        passed,
        lists,
    };
    let items = read_file(&rules, &mut walk, lib, name)?;
    let main_length = walk.bytes;
    walk_items(&rules, &mut walk, lib, name, items, MAX_DEPTH)?;
    Ok(WalkedFiles {
        main_length,
        passed: walk.passed,
    })
}
