//! Which steps are left, found from the last step to the first.

ghost use Rattle.std.specs.Prelude.{◌≡◌, ◌-◌, ◌<◌, ◌≤◌, ◌∷◌, List, ℕ, false, get_or, length, reverse, set};
ghost use Rattle.std.specs.Prelude.{suc, IfOk, OnOk};
ghost use Rattle.trim_marks.specs.MarkingView.{IsSkipping, the_state};
ghost use Rattle.trim_theory.specs.Found.{marks_by};
ghost use Rattle.trim_theory.specs.Marking.{after_adding, after_fork, after_pass, after_way};
ghost use Rattle.trim_theory.specs.Marking.{below, counts_of, is_counted, left_out, no_mark, put};
ghost use Rattle.trim_theory.specs.Marking.{set_back_after, state, take_back_way, top, undone};
ghost use Rattle.trim_theory.specs.Marking.{with_undone};
ghost use Rattle.trim_theory.specs.Trimming.{one_after};
ghost use Rattle.trim_theory.specs.declared.pass.Way.TheVariants.{Adds, Ends, Forks};

use crate::counts::{count, count_at, is_counted, set_back, take_back};
use cop_base::NoMemory;
use std::alloc::Global;
use std::cmp::{max, min};
use trim_theory::pass::{Mark, Pass, Way};

// The steps that were passed stand in `done`, the last step first, so the steps of a tree that is
// finished stand together. A step that is not left stays so.
#[derive(Drop)]
struct Marking {
    // how often the steps that are left refer to each entry of the branch
    counts: Vec<u32>,
    // for each right side that is finished while its left side is not, the count of its first entry
    saved: Vec<u32>,
    // where each tree that is finished begins in `done`, the leftmost last
    starts: Vec<usize>,
    done: Vec<Mark>,
    // up to the place that is given for a place of `done`, no step behind that place is left
    skips: Vec<usize>,
}

// The number of the next entry. More than 2^32 entries fit no memory.
fn after(number: u32) -> Result<u32, NoMemory>
    ensures { IfOk result (λ next. next ≡ suc number) }
{
    if number == u32::MAX {
        return Err(NoMemory);
    }
    Ok(number + 1)
}

// Whether one of so many entries behind a number is counted.
fn is_any_counted(counts: &[u32], number: u32, added: u32) -> Result<bool, NoMemory>
    ensures { IfOk result
        (λ any. any ≡ one_after (is_counted (counts_of counts.now)) number added) }
{
    if added == 0 {
        return Ok(false);
    }
    let next = after(number)?;
    if is_counted(counts, next) {
        return Ok(true);
    }
    let rest = is_any_counted(counts, next, added - 1)?;
    Ok(rest)
}

// Sets back the counts of so many entries behind a number.
fn set_back_after(counts: &mut Vec<u32>, number: u32, added: u32) -> Result<(), NoMemory>
    ensures { OnOk result (counts_of counts.new.items
        ≡ set_back_after number added (counts_of counts.old.items)) }
{
    if added == 0 {
        return Ok(());
    }
    let next = after(number)?;
    set_back(counts, next);
    set_back_after(counts, next, added - 1)
}

fn pop_count(stack: &mut Vec<u32>) -> u32
    ensures top { result ≡ top (reverse stack.old.items) }
    ensures below { reverse stack.new.items ≡ below (reverse stack.old.items) }
{
    match stack.pop() {
        Some(last) => last,
        None => 0,
    }
}

fn pop_start(stack: &mut Vec<usize>) -> usize
    ensures top { result ≡ top (reverse stack.old.items) }
    ensures below { reverse stack.new.items ≡ below (reverse stack.old.items) }
{
    match stack.pop() {
        Some(last) => last,
        None => 0,
    }
}

fn last_start(stack: &[usize]) -> usize
    ensures { result ≡ top (reverse stack.now) }
{
    match stack.last() {
        Some(last) => *last,
        None => 0,
    }
}

// Takes back what a step counted.
fn take_back_way(counts: &mut Vec<u32>, way: Way)
    ensures { counts_of counts.new.items ≡ take_back_way way (counts_of counts.old.items) }
{
    match way {
        Way::Ends(given, shown) => {
            take_back(counts, given);
            take_back(counts, shown);
        }
        Way::Adds(entry, _) => take_back(counts, entry),
        Way::Forks(entry) => take_back(counts, entry),
    }
}

fn leave_out(counts: &mut Vec<u32>, done: &mut Vec<Mark>, place: usize)
    requires { place < length done.old.items }
    ensures counts { counts_of counts.new.items
        ≡ undone (get_or done.old.items place no_mark) (counts_of counts.old.items) }
    ensures done { done.new.items
        ≡ set done.old.items place (left_out (get_or done.old.items place no_mark)) }
{
    let Mark { pass, is_left } = done[place];
    done[place] = Mark {
        pass,
        is_left: false,
    };
    if is_left {
        take_back_way(counts, pass.way);
    }
}

fn lesser(a: usize, b: usize) -> usize
    ensures first { result ≤ a }
    ensures second { result ≤ b }
    ensures either { (k : ℕ) → result ≤ k → k < a → b ≤ k }
{
    min(a, b)
}

// The next place that is not skipped.
fn next_place(skips: &[usize], place: usize) -> usize
    requires { place < length skips.now }
    ensures ahead { place < result }
    ensures skipped { (i : ℕ) → place < i → i < result → i < get_or skips.now place 0 }
{
    max(skips[place], place + 1)
}

fn skip(skips: &mut Vec<usize>, from: usize, end: usize)
    ensures { skips.new.items ≡ set skips.old.items from end }
{
    if from < skips.len() {
        skips[from] = end;
    }
}

// Leaves out what stands between two places. Each step is looked at once: what is not left is
// skipped as a whole from then on.
fn leave_out_between(
    counts: &mut Vec<u32>,
    done: &mut Vec<Mark>,
    skips: &mut Vec<usize>,
    from: usize,
    to: usize,
)
    requires { IsSkipping skips.old.items done.old.items }
    ensures undone { (saved starts : List ℕ)
        → state (counts_of counts.new.items) saved starts done.new.items
        ≡ with_undone from (to - from) (state (counts_of counts.old.items) saved starts done.old.items) }
    ensures skips { IsSkipping skips.new.items done.new.items }
{
    let end = lesser(to, done.len());
    let mut place = from;
    while place < end {
        leave_out(counts, done, place);
        place = next_place(skips, place);
    }
    skip(skips, from, end);
}

impl Marking {
    fn put(&mut self, pass: Pass, is_left: bool) -> Result<(), NoMemory>
        requires { IsSkipping self.old.skips.items self.old.done.items }
        ensures state { OnOk result (the_state self.new ≡ put pass is_left (the_state self.old)) }
        ensures skips { OnOk result (IsSkipping self.new.skips.items self.new.done.items) }
    {
        self.skips.push(0)?;
        self.done.push(Mark { pass, is_left })?;
        Ok(())
    }

    fn end(&mut self, pass: Pass, given: u32, shown: u32) -> Result<(), NoMemory>
        requires { IsSkipping self.old.skips.items self.old.done.items }
        ensures state { OnOk result
            (the_state self.new ≡ after_way pass (Ends given shown) (the_state self.old)) }
        ensures skips { OnOk result (IsSkipping self.new.skips.items self.new.done.items) }
    {
        self.starts.push(self.done.len())?;
        count(&mut self.counts, shown)?;
        count(&mut self.counts, given)?;
        self.put(pass, true)?;
        Ok(())
    }

    fn add(&mut self, pass: Pass, entry: u32, added: u32) -> Result<(), NoMemory>
        requires { IsSkipping self.old.skips.items self.old.done.items }
        ensures state { OnOk result
            (the_state self.new ≡ after_way pass (Adds entry added) (the_state self.old)) }
        ensures skips { OnOk result (IsSkipping self.new.skips.items self.new.done.items) }
    {
        let is_left = is_any_counted(&self.counts, pass.before, added)?;
        set_back_after(&mut self.counts, pass.before, added)?;
        if is_left {
            count(&mut self.counts, entry)?;
            self.put(pass, true)?;
            return Ok(());
        }
        self.put(pass, false)?;
        Ok(())
    }

    // A fork, by whether its sides use the entries that are added there, and where they begin.
    fn join(
        &mut self,
        pass: Pass,
        entry: u32,
        left_used: bool,
        right_used: bool,
        left: usize,
        right: usize,
    ) -> Result<(), NoMemory>
        requires { IsSkipping self.old.skips.items self.old.done.items }
        ensures state { OnOk result (the_state self.new
            ≡ after_fork pass entry left_used right_used left right (the_state self.old)) }
        ensures skips { OnOk result (IsSkipping self.new.skips.items self.new.done.items) }
    {
        if !left_used {
            leave_out_between(
                &mut self.counts,
                &mut self.done,
                &mut self.skips,
                right,
                left,
            );
            self.put(pass, false)?;
            return Ok(());
        }
        if !right_used {
            let end = self.done.len();
            leave_out_between(&mut self.counts, &mut self.done, &mut self.skips, left, end);
            self.put(pass, false)?;
            return Ok(());
        }
        count(&mut self.counts, entry)?;
        self.put(pass, true)?;
        Ok(())
    }

    fn fork(&mut self, pass: Pass, entry: u32) -> Result<(), NoMemory>
        requires { IsSkipping self.old.skips.items self.old.done.items }
        ensures state { OnOk result
            (the_state self.new ≡ after_way pass (Forks entry) (the_state self.old)) }
        ensures skips { OnOk result (IsSkipping self.new.skips.items self.new.done.items) }
    {
        let next = after(pass.before)?;
        let left_used = is_counted(&self.counts, next);
        let right_used = pop_count(&mut self.saved) > 0;
        let left = pop_start(&mut self.starts);
        let right = last_start(&self.starts);
        set_back(&mut self.counts, next);
        self.join(pass, entry, left_used, right_used, left, right)?;
        Ok(())
    }

    fn pass_way(&mut self, pass: Pass) -> Result<(), NoMemory>
        requires { IsSkipping self.old.skips.items self.old.done.items }
        ensures state { OnOk result
            (the_state self.new ≡ after_way pass pass.way (the_state self.old)) }
        ensures skips { OnOk result (IsSkipping self.new.skips.items self.new.done.items) }
    {
        match pass.way {
            Way::Ends(given, shown) => self.end(pass, given, shown),
            Way::Adds(entry, added) => self.add(pass, entry, added),
            Way::Forks(entry) => self.fork(pass, entry),
        }
    }

    // Before the left side of a fork the count of the right side's first entry is put aside.
    fn pass(&mut self, pass: Pass) -> Result<(), NoMemory>
        requires { IsSkipping self.old.skips.items self.old.done.items }
        ensures state { OnOk result (the_state self.new ≡ after_pass pass (the_state self.old)) }
        ensures skips { OnOk result (IsSkipping self.new.skips.items self.new.done.items) }
    {
        self.pass_way(pass)?;
        if pass.starts_right {
            let first = count_at(&self.counts, pass.before);
            self.saved.push(first)?;
            set_back(&mut self.counts, pass.before);
        }
        Ok(())
    }
}

/// Which steps are left, the last step first.
pub fn marks(alloc: Global, passes: Vec<Pass>) -> Result<Vec<Mark>, NoMemory>
    ensures { IfOk result (λ ms. ms.items ≡ marks_by passes.items) }
{
    let mut waiting = passes;
    let mut marking = Marking {
        counts: Vec::new(alloc),
        saved: Vec::new(alloc),
        starts: Vec::new(alloc),
        done: Vec::new(alloc),
        skips: Vec::new(alloc),
    };
    while let Some(pass) = waiting.pop() {
        marking.pass(pass)?;
    }
    Ok(marking.done)
}
