//! How often steps refer to the entries of a branch, by the numbers of the entries. What has no
//! place in the list is 0.

ghost use Rattle.std.specs.Prelude.{◌≡◌, ◌<◌, get_or, length, OnOk};
ghost use Rattle.trim_theory.specs.Marking.{counts_of, is_counted, minus_one, plus_one, set_back};

use cop_base::NoMemory;

/// How often the entry is referred to.
pub fn count_at(counts: &[u32], number: u32) -> u32
    ensures { result ≡ get_or counts.now number 0 }
{
    let place = number as usize;
    if place < counts.len() {
        counts[place]
    } else {
        0
    }
}

/// Whether it is referred to.
pub fn is_counted(counts: &[u32], number: u32) -> bool
    ensures { result ≡ is_counted (counts_of counts.now) number }
{
    count_at(counts, number) > 0
}

fn make_room(counts: &mut Vec<u32>, place: usize) -> Result<(), NoMemory>
    ensures same { OnOk result (counts_of counts.new.items ≡ counts_of counts.old.items) }
    ensures room { OnOk result (place < length counts.new.items) }
{
    while counts.len() <= place {
        counts.push(0)?;
    }
    Ok(())
}

/// Counts an entry once more. More than 2^32 references fit no memory.
pub fn count(counts: &mut Vec<u32>, number: u32) -> Result<(), NoMemory>
    ensures { OnOk result
        (counts_of counts.new.items ≡ plus_one number (counts_of counts.old.items)) }
{
    let place = number as usize;
    make_room(counts, place)?;
    let before = counts[place];
    if before == u32::MAX {
        return Err(NoMemory);
    }
    counts[place] = before + 1;
    Ok(())
}

/// Counts an entry once less.
pub fn take_back(counts: &mut Vec<u32>, number: u32)
    ensures { counts_of counts.new.items ≡ minus_one number (counts_of counts.old.items) }
{
    let place = number as usize;
    if place < counts.len() {
        counts[place] = counts[place].saturating_sub(1);
    }
}

/// Sets the count of an entry back.
pub fn set_back(counts: &mut Vec<u32>, number: u32)
    ensures { counts_of counts.new.items ≡ set_back number (counts_of counts.old.items) }
{
    let place = number as usize;
    if place < counts.len() {
        counts[place] = 0;
    }
}
