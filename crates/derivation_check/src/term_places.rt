//! The large terms of a text in the table of substitutions.

ghost use Rattle.std.specs.Prelude.{◌<◌, IfOk, OnOk, length};
ghost use Rattle.label_table.specs.Longer.{IsLonger};
ghost use Rattle.derivation_check.specs.NamesTold.{AreNamed, AreNamesOf};
ghost use Rattle.derivation_check.specs.TermsPut.{ArePut, IsPut};
ghost use Rattle.derivation_check.specs.declared.homes.Homes.{Homes};

use crate::term_names::TermNames;
use cop_base::NoMemory;
use derivation_branch::{Substitutions, Value};
use derivation_text::TermList;
use formula_text::TermRow;
use std::alloc::Global;

// A term with fewer symbols is put by each step anew, which takes no longer.
const LARGE: usize = 16;

// Puts a large term without variables before the empty substitution. The answer is its place, or 0
// for any other term.
fn put_term<'a>(
    substitutions: &mut Substitutions<'a>,
    names: &TermNames,
    t: &'a TermRow,
) -> Result<u32, NoMemory>
    requires some { 0 < length substitutions.old }
    requires names { (homes : Homes) × AreNamesOf homes t.now names.now }
    ensures put { IfOk result (λ k. IsPut substitutions.new t.entry.now k) }
    ensures grown { OnOk result (IsLonger substitutions.old substitutions.new) }
{
    if names.has_variable {
        return Ok(0);
    }
    if t.items().len() < LARGE {
        return Ok(0);
    }
    let place = substitutions.put(0, Value::Given(t))?;
    Ok(place)
}

/// Puts each large term of a text into a table of substitutions once. The answer is their places by
/// their numbers less one.
pub fn put_terms<'a>(
    alloc: Global,
    substitutions: &mut Substitutions<'a>,
    named: &[TermNames],
    terms: &'a TermList,
) -> Result<Vec<u32>, NoMemory>
    requires some { 0 < length substitutions.old }
    requires named { (homes : Homes) × AreNamed homes terms.now named.now }
    ensures put { IfOk result (λ places. ArePut substitutions.new terms.entry.now places.items) }
    ensures grown { OnOk result (IsLonger substitutions.old substitutions.new) }
{
    let mut places = Vec::new(alloc);
    for i in 0..terms.count() {
        let place = put_term(substitutions, &named[i as usize], terms.row(i + 1))?;
        places.push(place)?;
    }
    Ok(places)
}
