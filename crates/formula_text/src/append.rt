//! Pieces of text at the end of a vector of bytes. `append_*` may leave a part of a text where memory ends; `write_*`
//! takes it off again.

ghost use Rattle.std.specs.Prelude.{◌≡◌, ◌++◌, ◌∷◌, [], take, decimal, OnOk, OnErr};
ghost use Rattle.formula_text.specs.Extends.{Extends};

use cop_base::NoMemory;
use itoa::Buffer;
use std::alloc::{AllocError, AllocFailed};

/// Appends a byte.
pub fn append_byte(out: &mut Vec<u8>, byte: u8) -> Result<(), NoMemory>
    ensures ok { OnOk result (out.new.items ≡ out.old.items ++ byte ∷ []) }
    ensures extends { Extends out.old.items out.new.items }
{
    out.push(byte)?;
    Ok(())
}

/// Appends bytes.
pub fn append_bytes(out: &mut Vec<u8>, bytes: &[u8]) -> Result<(), NoMemory>
    ensures ok { OnOk result (out.new.items ≡ out.old.items ++ bytes.now) }
    ensures extends { Extends out.old.items out.new.items }
{
    out.extend_from_slice(bytes)?;
    Ok(())
}

/// Appends a number in decimal, without leading zeros.
pub fn append_number(out: &mut Vec<u8>, n: u64) -> Result<(), NoMemory>
    ensures ok { OnOk result (out.new.items ≡ out.old.items ++ decimal n) }
    ensures extends { Extends out.old.items out.new.items }
{
    let mut buffer = Buffer::new();
    append_bytes(out, buffer.format(n).as_bytes())
}

/// Takes off again what was appended, where it was not appended whole.
pub fn undo_if_failed(
    out: &mut Vec<u8>,
    kept: usize,
    appended: Result<(), NoMemory>,
) -> Result<(), NoMemory>
    ensures same { result ≡ appended }
    ensures ok { OnOk result (out.new.items ≡ out.old.items) }
    ensures err { OnErr result (out.new.items ≡ take kept out.old.items) }
{
    if appended.is_err() {
        out.truncate(kept);
    }
    appended
}

/// Appends bytes as they are.
pub fn write_bytes(out: &mut Vec<u8>, bytes: &[u8]) -> Result<(), NoMemory>
    ensures ok { OnOk result (out.new.items ≡ out.old.items ++ bytes.now) }
    ensures err { OnErr result (out.new.items ≡ out.old.items) }
{
    let kept = out.len();
    let appended = append_bytes(out, bytes);
    undo_if_failed(out, kept, appended)
}

/// Appends a number in decimal, without leading zeros.
pub fn write_number(out: &mut Vec<u8>, n: u64) -> Result<(), NoMemory>
    ensures ok { OnOk result (out.new.items ≡ out.old.items ++ decimal n) }
    ensures err { OnErr result (out.new.items ≡ out.old.items) }
{
    let kept = out.len();
    let appended = append_number(out, n);
    undo_if_failed(out, kept, appended)
}
