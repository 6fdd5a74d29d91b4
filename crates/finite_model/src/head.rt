//! The head, the first four lines.

ghost use Rattle.std.specs.Prelude.{◌≡◌, ◌≢◌, ◌+◌, ◌++◌, ◌<◌, ◌≤◌, ◌^◌, ◌∷◌, Err, IfOk, IfSome, IsNone, IsTrue, List, None, Ok, Some, codes, decimal, drop, length, map, ℕ};
ghost use Rattle.calculus.specs.DerivationText.{setting_text};
ghost use Rattle.calculus.specs.FirstWrong.{whole_lines};
ghost use Rattle.calculus.specs.Problems.{is_problem};
ghost use Rattle.calculus.specs.StructureText.{fits_table, is_size};
ghost use Rattle.calculus.specs.declared.limits.TheConstants.{MAX_TABLE_ENTRIES};
ghost use Rattle.calculus.specs.Syntax as tree;
ghost use Rattle.std.specs.List.{list_all};
ghost use Rattle.calculus.specs.declared.fault.StructureCause.{StructureCause};
ghost use Rattle.finite_model.specs.Reading.{IsFaultOf, IsHeadRead};
ghost use Rattle.text_lines.specs.Lines.{IsLineAt};
ghost use Rattle.formula_core.specs.SymbolView.{the_symbol};

use crate::fault::StructureRead;
use crate::sizes::read_size;
use calculus::fault::StructureCause;
use calculus::limits::MAX_TABLE_ENTRIES;
use cop_base::NoMemory;
use formula_core::Symbol;
use logic_rules::Problem;
use std::alloc::{AllocError, AllocFailed, Global};
use text_lines::{after_line, line_at, rest_after, setting_line};

// How many worlds and how many elements there may be.
const MOST: u8 = 64;

/// What the head says: how many worlds and elements there are, so how many entries the table of each symbol has, and where the head ends.
#[derive(Drop)]
pub struct Head {
    pub worlds: u8,
    pub elements: u8,
    pub sizes: Vec<usize>,
    pub end: usize,
}

// The number of tuples of so many elements, where there are not too many.
fn table_size(elements: u8, arity: u32) -> Option<usize>
    requires { 1 ≤ elements }
    ensures some { IfSome result (λ n. n ≡ elements ^ arity) }
    ensures most { IfSome result (λ n. n ≤ MAX_TABLE_ENTRIES) }
    ensures none { IsNone result → MAX_TABLE_ENTRIES < elements ^ arity }
{
    let most = MAX_TABLE_ENTRIES as usize;
    if elements == 1 {
        return Some(1);
    }
    let mut size: usize = 1;
    for _argument in 0..arity {
        size *= elements as usize;
        if size > most {
            return None;
        }
    }
    Some(size)
}

// The number of tuples of each symbol, where there are not too many of any.
fn table_sizes(
    alloc: Global,
    symbols: &[Symbol],
    elements: u8,
) -> Result<Option<Vec<usize>>, NoMemory>
    requires { 1 ≤ elements }
    ensures sizes { IfOk result (λ r. IfSome r (λ v. v.items
        ≡ map (λ (s : tree.Symbol). elements ^ s.arity) (map the_symbol symbols.now))) }
    ensures fits { IfOk result (λ r. IfSome r (λ _.
        IsTrue (list_all (fits_table elements) (map the_symbol symbols.now)))) }
    ensures none { result ≡ Ok None → ¬ (IsTrue (list_all (fits_table elements) (map the_symbol symbols.now))) }
{
    let mut sizes = Vec::new(alloc);
    for symbol in symbols {
        let Some(size) = table_size(elements, symbol.arity) else {
            return Ok(None);
        };
        sizes.push(size)?;
    }
    Ok(Some(sizes))
}

// The size of a line that begins at a place, behind a word, and the place after the line.
fn size_after(text: &[u8], from: usize, word: &[u8]) -> Option<(u8, usize)>
    requires { from ≤ length text.now }
    ensures some { IfSome result (λ r. IsLineAt text.now from r.1 (word.now ++ decimal r.0)) }
    ensures size { IfSome result (λ r. IsTrue (is_size r.0)) }
    ensures none { IsNone result → (n : ℕ) (more : List (List ℕ)) → IsTrue (is_size n)
        → ¬ (whole_lines (drop from text.now) ≡ (word.now ++ decimal n) ∷ more) }
{
    let (line, end) = line_at(text, from)?;
    let rest = rest_after(line, word)?;
    let size = read_size(rest, MOST)?;
    Some((size, end))
}

/// The head of a structure's text.
pub fn read_head(alloc: Global, problem: &Problem, bytes: &[u8]) -> Result<Head, StructureRead>
    ensures ok { IfOk result (λ h. IsHeadRead problem.now bytes.now h) }
    ensures fault { (line : ℕ) (cause : StructureCause) → result ≡ Err (StructureRead.Bad line cause)
        → IsFaultOf problem.now bytes.now line cause }
{
    let setting = setting_line(alloc, problem)?;
    let Some(first) = after_line(bytes, 0, b"leancop structure 1") else {
        return Err(StructureRead::Bad {
            line: 1,
            cause: StructureCause::Version,
        });
    };
    let Some(second) = after_line(bytes, first, setting.as_slice()) else {
        return Err(StructureRead::Bad {
            line: 2,
            cause: StructureCause::Setting,
        });
    };
    let Some((worlds, third)) = size_after(bytes, second, b"worlds ") else {
        return Err(StructureRead::Bad {
            line: 3,
            cause: StructureCause::Size,
        });
    };
    let Some((elements, end)) = size_after(bytes, third, b"elements ") else {
        return Err(StructureRead::Bad {
            line: 4,
            cause: StructureCause::Size,
        });
    };
    let Some(sizes) = table_sizes(alloc, problem.symbols().items(), elements)? else {
        return Err(StructureRead::Bad {
            line: 4,
            cause: StructureCause::Size,
        });
    };
    Ok(Head {
        worlds,
        elements,
        sizes,
        end,
    })
}
