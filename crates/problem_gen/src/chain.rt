//! A chain of implications, from a fact to the last atom.

ghost use Rattle.std.specs.Prelude.{◌≡◌, ◌++◌, ◌<◌, ◌+◌, codes, OnOk};
ghost use Rattle.std.specs.List.{flat_map, range_with_len};
ghost use Rattle.calculus.specs.Families.{chain_atom, chain_link, chain_text, item_line};

use crate::item::{append_bytes, append_item, append_numbered};
use cop_base::NoMemory;

// The link from the atom before to the next one.
fn append_link(out: &mut Vec<u8>, word: &[u8], before: u32) -> Result<(), NoMemory>
    requires { before < u32.MAX }
    ensures { OnOk result (out.new.items ≡ out.old.items ++ chain_link word.now (before + 1)) }
{
    append_bytes(out, word)?;
    append_numbered(out, b"(a", before + 1)?;
    append_numbered(out, b",axiom,(p", before)?;
    append_numbered(out, b" => p", before + 1)?;
    append_bytes(out, b")).\n")?;
    Ok(())
}

// The links in order, the first one from the atom of number 0.
fn append_links(out: &mut Vec<u8>, word: &[u8], count: u32) -> Result<(), NoMemory>
    ensures { OnOk result (out.new.items
        ≡ out.old.items ++ flat_map (chain_link word.now) (range_with_len 1 count)) }
{
    for before in 0..count {
        append_link(out, word, before)?;
    }
    Ok(())
}

// The last atom is to be proved.
fn append_goal(out: &mut Vec<u8>, word: &[u8], last: u32) -> Result<(), NoMemory>
    ensures { OnOk result (out.new.items ≡ out.old.items
        ++ item_line word.now (codes "c") (codes "conjecture") (chain_atom last)) }
{
    append_bytes(out, word)?;
    append_numbered(out, b"(c,conjecture,p", last)?;
    append_bytes(out, b").\n")?;
    Ok(())
}

/// Appends the chain with this number of links.
pub fn append_chain(out: &mut Vec<u8>, word: &[u8], links: u32) -> Result<(), NoMemory>
    ensures { OnOk result (out.new.items ≡ out.old.items ++ chain_text word.now links) }
{
    append_item(out, word, b"(s,axiom,p0).\n")?;
    append_links(out, word, links)?;
    append_goal(out, word, links)?;
    Ok(())
}
