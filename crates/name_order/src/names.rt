//! Names of a tableau.

ghost use Rattle.std.specs.Prelude.{◌≡◌, IfOk};
ghost use Rattle.conversion_theory.specs.Numbering.{name_eq};
ghost use Rattle.formula_core.specs.GroundTables.{AreApart};
ghost use Rattle.name_order.specs.ByNumber.Inside.{the_names, AreNormalNames};
ghost use Rattle.name_order.specs.ByNumber.NameView.{the_name, IsNormalName};
ghost use Rattle.name_order.specs.Keeping.{keep};

use cop_base::NoMemory;
use formula_core::{GroundMark, GroundTable, GroundTerm};
use indexmap::IndexSet;

/// An eigenvariable or a spare constant, or a character.
#[derive(Clone, Copy, PartialEq, Eq, Hash)]
pub enum Name {
    Term(GroundTerm),
    Mark(GroundMark),
}

/// The same name, which names its list by the one number.
pub fn normal_name(table: &GroundTable, name: Name) -> Name
    ensures same { the_name table.now result ≡ the_name table.now name }
    ensures normal { IsNormalName table.now result }
    ensures apart { AreApart table.now }
{
    match name {
        Name::Term(term) => Name::Term(table.normal_term(term)),
        Name::Mark(mark) => Name::Mark(table.normal_mark(mark)),
    }
}

/// Adds the name where it is new.
pub fn keep_name(
    table: &GroundTable,
    name: Name,
    names: &mut IndexSet<Name>,
) -> Result<(), NoMemory>
    requires normal { AreNormalNames table.now names.now.keys }
    ensures normal { IfOk result (λ _. AreNormalNames table.now names.new.keys) }
    ensures kept { IfOk result (λ _. the_names table.now names.new.keys ≡ keep name_eq (the_names table.now names.old.keys) (the_name table.now name)) }
{
    let name = normal_name(table, name);
    names.insert(name)?;
    Ok(())
}
