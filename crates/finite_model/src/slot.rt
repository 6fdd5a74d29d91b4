//! The lines behind the head of a structure's text. Each is a slot: it begins with words that the problem and the head decide, and an
//! entry stands behind them.

ghost use Rattle.std.specs.Prelude.{◌≡◌, ◌<◌, ◌++◌, Err, ℕ, List, IfOk, IfSome, IsNone, IsTrue, length, nat_lt};
ghost use Rattle.std.specs.List.{list_all};
ghost use Rattle.calculus.specs.StructureText.{numbers_text, rises};
ghost use Rattle.finite_model.specs.Items.{IsItemAt, NoItemAt};
ghost use Rattle.finite_model.specs.Reading.{the_slot};
ghost use Rattle.finite_model.specs.Slots.{IsEntryText, IsSlotLine, is_bit_digit};

use cop_base::NoMemory;
use formula_text::{TextRead, read_number};
use std::alloc::{AllocError, AllocFailed, Global};
use text_lines::rest_after;

/// What an entry is made of.
#[derive(Clone, Copy, Debug, PartialEq, Eq)]
pub enum Form {
    /// Numbers up to this one, rising.
    Rising(u8),
    /// So many numbers up to the greatest.
    Values { count: usize, most: u8 },
    /// So many digits 0 or 1.
    Digits(usize),
}

/// The beginning of a line, and what stands behind it.
#[derive(Drop)]
pub struct Slot {
    pub front: Vec<u8>,
    pub form: Form,
}

// The number from 1 behind a space, as a number from 0, and the place after it.
fn read_item(text: &[u8], place: usize, most: u8) -> Option<(u8, usize)>
    requires { place < length text.now }
    ensures item { IfSome result (λ r. IsItemAt text.now place r.1 r.0) }
    ensures below { IfSome result (λ r. r.0 < most) }
    ensures none { IsNone result → NoItemAt text.now place most }
{
    let byte = text[place];
    if byte != b' ' {
        return None;
    }
    let (number, end) = read_number(text, place + 1)?;
    if number < 1 {
        return None;
    }
    let greatest = u32::from(most);
    if number > greatest {
        return None;
    }
    Some(((number - 1) as u8, end))
}

// Numbers from 1 with a space before each, as numbers from 0.
fn read_numbers(alloc: Global, text: &[u8], most: u8) -> Result<Vec<u8>, TextRead>
    ensures text { IfOk result (λ v. text.now ≡ numbers_text v.items) }
    ensures below { IfOk result (λ v. IsTrue (list_all (λ x. nat_lt x most) v.items)) }
    ensures one { IfOk result (λ v. (xs : List ℕ) → IsTrue (list_all (λ x. nat_lt x most) xs)
        → text.now ≡ numbers_text xs → xs ≡ v.items) }
    ensures none { result ≡ Err TextRead.None → (xs : List ℕ) → IsTrue (list_all (λ x. nat_lt x most) xs)
        → ¬ (text.now ≡ numbers_text xs) }
{
    let mut numbers = Vec::new(alloc);
    let mut place = 0;
    while place < text.len() {
        let Some((item, end)) = read_item(text, place, most) else {
            return Err(TextRead::None);
        };
        numbers.push(item)?;
        place = end;
    }
    Ok(numbers)
}

fn rises(numbers: &[u8]) -> bool
    ensures { result ≡ rises numbers.now }
{
    let mut least: u32 = 0;
    for n in numbers {
        if u32::from(*n) < least {
            return false;
        }
        least = u32::from(*n) + 1;
    }
    true
}

fn are_digits(text: &[u8]) -> bool
    ensures { result ≡ list_all is_bit_digit text.now }
{
    text.iter().all(|byte| *byte == b'0' || *byte == b'1')
}

fn read_rising(alloc: Global, text: &[u8], most: u8) -> Result<Vec<u8>, TextRead>
    ensures ok { IfOk result (λ v. IsEntryText (Form.Rising most) text.now v.items) }
    ensures none { result ≡ Err TextRead.None → (xs : List ℕ) → ¬ IsEntryText (Form.Rising most) text.now xs }
{
    let numbers = read_numbers(alloc, text, most)?;
    if rises(numbers.as_slice()) {
        Ok(numbers)
    } else {
        Err(TextRead::None)
    }
}

fn read_values(alloc: Global, text: &[u8], count: usize, most: u8) -> Result<Vec<u8>, TextRead>
    ensures ok { IfOk result (λ v. IsEntryText (Form.Values count most) text.now v.items) }
    ensures none { result ≡ Err TextRead.None → (xs : List ℕ) → ¬ IsEntryText (Form.Values count most) text.now xs }
{
    let numbers = read_numbers(alloc, text, most)?;
    if numbers.len() == count {
        Ok(numbers)
    } else {
        Err(TextRead::None)
    }
}

fn copied(alloc: Global, text: &[u8]) -> Result<Vec<u8>, NoMemory>
    ensures { IfOk result (λ v. v.items ≡ text.now) }
{
    let copy = Vec::from_slice(alloc, text)?;
    Ok(copy)
}

fn read_digits(alloc: Global, text: &[u8], count: usize) -> Result<Vec<u8>, TextRead>
    ensures ok { IfOk result (λ v. IsEntryText (Form.Digits count) text.now v.items) }
    ensures none { result ≡ Err TextRead.None → (xs : List ℕ) → ¬ IsEntryText (Form.Digits count) text.now xs }
{
    if text.len() == count && are_digits(text) {
        let digits = copied(alloc, text)?;
        Ok(digits)
    } else {
        Err(TextRead::None)
    }
}

// The entry that the text is.
fn read_entry(alloc: Global, text: &[u8], form: Form) -> Result<Vec<u8>, TextRead>
    ensures ok { IfOk result (λ v. IsEntryText form text.now v.items) }
    ensures none { result ≡ Err TextRead.None → (xs : List ℕ) → ¬ IsEntryText form text.now xs }
{
    match form {
        Form::Rising(most) => read_rising(alloc, text, most),
        Form::Values { count, most } => read_values(alloc, text, count, most),
        Form::Digits(count) => read_digits(alloc, text, count),
    }
}

impl Slot {
    /// The entry of the line, if it is one of this slot.
    pub fn read(&self, alloc: Global, line: &[u8]) -> Result<Vec<u8>, TextRead>
        ensures ok { IfOk result (λ v. IsSlotLine (the_slot self.now) line.now v.items) }
        ensures none { result ≡ Err TextRead.None → (xs : List ℕ) → ¬ IsSlotLine (the_slot self.now) line.now xs }
    {
        let Some(rest) = rest_after(line, self.front.as_slice()) else {
            return Err(TextRead::None);
        };
        let entry = read_entry(alloc, rest, self.form)?;
        Ok(entry)
    }
}
