//! Which steps are to be made once: those without arguments that several branches make on the same
//! entry. Each is to be made as soon as that entry stands on the branch. Nothing is promised of
//! the edits, each of which is tested when it is made.

use cop_base::NoMemory;
use label_table::place_of;
use sequent_calc::{ModalArg, Step, TermArg};
use std::alloc::Global;
use trim_theory::edit::Edit;
use trim_theory::pass::{Pass, Way};

// Entries have numbers from 1 for the whole derivation here. Those that steps without arguments add
// to the same entry, on whatever branch, are the same.
#[derive(Drop)]
struct Entries {
    // of each step the first entry that it adds
    firsts: Vec<u32>,
    // of each entry the first one that a step without arguments on it adds, or 0, and how many
    parts: Vec<(u32, u32)>,
    // whether several branches make the same step
    is_shared: bool,
}

fn value_at(numbers: &[u32], place: usize) -> u32 {
    if place < numbers.len() {
        numbers[place]
    } else {
        0
    }
}

fn parts_at(parts: &[(u32, u32)], entry: u32) -> (u32, u32) {
    let place = entry as usize;
    if place < parts.len() {
        parts[place]
    } else {
        (0, 0)
    }
}

fn is_bare(step: &Step) -> bool {
    match step {
        Step::Use {
            modal: ModalArg::None,
            term: TermArg::None,
            ..
        } => true,
        Step::Use { .. } | Step::Axiom { .. } => false,
    }
}

impl Entries {
    fn new(alloc: Global) -> Result<Entries, NoMemory> {
        let mut parts = Vec::new(alloc);
        parts.push((0, 0))?;
        parts.push((0, 0))?;
        Ok(Entries {
            firsts: Vec::new(alloc),
            parts,
            is_shared: false,
        })
    }

    // So many entries, of which the first is answered.
    fn make(&mut self, count: u32) -> Result<u32, NoMemory> {
        let first = place_of(self.parts.len())?;
        for _i in 0..count {
            self.parts.push((0, 0))?;
        }
        Ok(first)
    }

    // What a step without arguments on this entry adds.
    fn parts_of(&mut self, whole: u32, count: u32) -> Result<u32, NoMemory> {
        let (known, _) = parts_at(self.parts.as_slice(), whole);
        if known != 0 {
            self.is_shared = true;
            return Ok(known);
        }
        let first = self.make(count)?;
        let place = whole as usize;
        if place < self.parts.len() {
            self.parts[place] = (first, count);
        }
        Ok(first)
    }
}

// The entries of the branch, and of each right side that is still to come its first entry.
#[derive(Drop)]
struct Branch {
    entries: Vec<u32>,
    rights: Vec<u32>,
}

impl Branch {
    // At the first step of a right side.
    fn resume(&mut self, before: u32) -> Result<(), NoMemory> {
        let Some(right) = self.rights.pop() else {
            return Ok(());
        };
        self.entries.truncate((before as usize).saturating_sub(1));
        self.entries.push(right)?;
        Ok(())
    }

    fn entry(&self, number: u32) -> u32 {
        value_at(self.entries.as_slice(), (number as usize).wrapping_sub(1))
    }
}

fn note_step(
    known: &mut Entries,
    branch: &mut Branch,
    step: &Step,
    way: Way,
) -> Result<u32, NoMemory> {
    match way {
        Way::Ends(_, _) => Ok(0),
        Way::Adds(number, count) => {
            let first = if is_bare(step) {
                known.parts_of(branch.entry(number), count)?
            } else {
                known.make(count)?
            };
            for i in 0..count {
                branch.entries.push(first.wrapping_add(i))?;
            }
            Ok(first)
        }
        Way::Forks(_) => {
            let first = known.make(2)?;
            branch.entries.push(first)?;
            branch.rights.push(first.wrapping_add(1))?;
            Ok(first)
        }
    }
}

fn entries_of(alloc: Global, steps: &[Step], passes: &[Pass]) -> Result<Entries, NoMemory> {
    let mut known = Entries::new(alloc)?;
    let mut branch = Branch {
        entries: Vec::new(alloc),
        rights: Vec::new(alloc),
    };
    branch.entries.push(1)?;
    for i in 0..passes.len() {
        if i >= steps.len() {
            return Ok(known);
        }
        let pass = passes[i];
        if pass.starts_right {
            branch.resume(pass.before)?;
        }
        let first = note_step(&mut known, &mut branch, &steps[i], pass.way)?;
        known.firsts.push(first)?;
    }
    Ok(known)
}

// The edits so far, and the new branch.
#[derive(Drop)]
struct Plan {
    edits: Vec<Edit>,
    // of each entry its number on the new branch, or 0
    numbers: Vec<u32>,
    length: u32,
    // of each right side that is still to come the length of the new branch before it, and its
    // first entry
    rights: Vec<(u32, u32)>,
}

impl Plan {
    fn number(&mut self, entry: u32) {
        self.length = self.length.wrapping_add(1);
        let place = entry as usize;
        if place < self.numbers.len() {
            self.numbers[place] = self.length;
        }
    }

    // The parts of an entry come in.
    fn put_parts(&mut self, whole: u32, first: u32, count: u32) -> Result<(), NoMemory> {
        let number = value_at(self.numbers.as_slice(), whole as usize);
        self.edits.push(Edit::Insert(number))?;
        for i in 0..count {
            self.number(first.wrapping_add(i));
        }
        Ok(())
    }

    // All parts of an entry come in, with their own parts.
    fn put_all(&mut self, alloc: Global, known: &Entries, entry: u32) -> Result<(), NoMemory> {
        let mut waiting = Vec::new(alloc);
        waiting.push(entry)?;
        for _i in 0..known.parts.len() {
            let Some(whole) = waiting.pop() else {
                return Ok(());
            };
            let (first, count) = parts_at(known.parts.as_slice(), whole);
            if first != 0 {
                self.put_parts(whole, first, count)?;
                for i in 0..count {
                    waiting.push(first.wrapping_add(count.wrapping_sub(i)).wrapping_sub(1))?;
                }
            }
        }
        Ok(())
    }

    fn resume(&mut self, alloc: Global, known: &Entries) -> Result<(), NoMemory> {
        let Some((length, right)) = self.rights.pop() else {
            return Ok(());
        };
        self.length = length;
        self.number(right);
        self.put_all(alloc, known, right)
    }

    fn keep(
        &mut self,
        alloc: Global,
        known: &Entries,
        first: u32,
        count: u32,
    ) -> Result<(), NoMemory> {
        self.edits.push(Edit::Keep)?;
        for i in 0..count {
            self.number(first.wrapping_add(i));
        }
        for i in 0..count {
            self.put_all(alloc, known, first.wrapping_add(i))?;
        }
        Ok(())
    }

    fn take(
        &mut self,
        alloc: Global,
        known: &Entries,
        step: &Step,
        first: u32,
        way: Way,
    ) -> Result<(), NoMemory> {
        match way {
            Way::Ends(_, _) => self.keep(alloc, known, 0, 0),
            Way::Adds(_, _) if is_bare(step) => {
                let number = value_at(self.numbers.as_slice(), first as usize);
                self.edits.push(Edit::Skip(number))?;
                Ok(())
            }
            Way::Adds(_, count) => self.keep(alloc, known, first, count),
            Way::Forks(_) => {
                self.rights.push((self.length, first.wrapping_add(1)))?;
                self.keep(alloc, known, first, 1)
            }
        }
    }
}

/// The edits by which the steps that several branches make on one entry are made once, if there are
/// such steps.
pub fn edits_for(
    alloc: Global,
    steps: &[Step],
    passes: &[Pass],
) -> Result<Option<Vec<Edit>>, NoMemory> {
    let known = entries_of(alloc, steps, passes)?;
    if !known.is_shared {
        return Ok(None);
    }
    let mut plan = Plan {
        edits: Vec::new(alloc),
        numbers: vec![in alloc; 0; known.parts.len()]?,
        length: 0,
        rights: Vec::new(alloc),
    };
    plan.number(1);
    plan.put_all(alloc, &known, 1)?;
    for i in 0..passes.len() {
        if i >= steps.len() {
            return Ok(None);
        }
        let pass = passes[i];
        if pass.starts_right {
            plan.resume(alloc, &known)?;
        }
        let first = value_at(known.firsts.as_slice(), i);
        plan.take(alloc, &known, &steps[i], first, pass.way)?;
    }
    Ok(Some(plan.edits))
}
