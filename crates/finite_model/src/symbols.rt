//! Which symbols are functions.

ghost use Rattle.std.specs.Prelude.{◌≡◌, ◌<◌, Some, length, slice_get};
ghost use Rattle.calculus.specs.Skolem.{is_function};
ghost use Rattle.calculus.specs.Syntax as tree;

use cop_base::SymbolId;
use formula_core::{SymbolClass, Symbols};

/// Whether the symbol is a function; else it is a predicate, equality or the reserved atom.
pub fn is_function(symbols: &Symbols, id: SymbolId) -> bool
    requires { id.0 < length symbols.now }
    ensures { (s : tree.Symbol) → slice_get symbols.now id.0 ≡ Some s → result ≡ is_function s.class }
{
    match symbols.get(id).class {
        SymbolClass::Function => true,
        SymbolClass::Predicate | SymbolClass::Equality | SymbolClass::Truth => false,
    }
}
