//! The parts of an item, which is one line of a text of TPTP or QMLTP.

ghost use Rattle.std.specs.Prelude.{◌≡◌, ◌++◌, decimal, OnOk};
ghost use Rattle.std.specs.List.{repeat};
ghost use Rattle.calculus.specs.Families.{item_word};

use calculus::setting::Logic;
use cop_base::NoMemory;
use itoa::Buffer;
use std::alloc::AllocError;

/// The word that begins an item: `fof` of TPTP, `qmf` of QMLTP where the logic is modal.
pub fn item_word(logic: Logic) -> &'static [u8]
    ensures { result.now ≡ item_word logic }
{
    match logic {
        Logic::Classical | Logic::Intuitionistic => b"fof",
        Logic::D | Logic::T | Logic::S4 | Logic::S5 => b"qmf",
    }
}

/// Appends bytes.
pub fn append_bytes(out: &mut Vec<u8>, bytes: &[u8]) -> Result<(), NoMemory>
    ensures { OnOk result (out.new.items ≡ out.old.items ++ bytes.now) }
{
    out.extend_from_slice(bytes)?;
    Ok(())
}

/// Appends bytes, and a number in decimal without leading zeros.
pub fn append_numbered(out: &mut Vec<u8>, front: &[u8], n: u32) -> Result<(), NoMemory>
    ensures { OnOk result (out.new.items ≡ out.old.items ++ (front.now ++ decimal n)) }
{
    let mut buffer = Buffer::new();
    append_bytes(out, front)?;
    append_bytes(out, buffer.format(n).as_bytes())?;
    Ok(())
}

/// Appends an item of which nothing but the word varies.
pub fn append_item(out: &mut Vec<u8>, word: &[u8], rest: &[u8]) -> Result<(), NoMemory>
    ensures { OnOk result (out.new.items ≡ out.old.items ++ (word.now ++ rest.now)) }
{
    append_bytes(out, word)?;
    append_bytes(out, rest)?;
    Ok(())
}

/// Appends bytes so many times.
pub fn append_repeated(out: &mut Vec<u8>, count: u32, bytes: &[u8]) -> Result<(), NoMemory>
    ensures { OnOk result (out.new.items ≡ out.old.items ++ repeat count bytes.now) }
{
    for _done in 0..count {
        append_bytes(out, bytes)?;
    }
    Ok(())
}
