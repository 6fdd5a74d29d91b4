ghost use Rattle.std.specs.Prelude.{◌≡◌, IfOk};
ghost use Rattle.calculus.specs.Families.{family_text};

use crate::chain::append_chain;
use crate::item::item_word;
use crate::shift::append_shift;
use crate::tower::append_tower;
use calculus::family::Family;
use calculus::setting::Logic;
use cop_base::NoMemory;
use std::alloc::Global;

/// The text of the family's problem of size n, as one file. In classical logic the least limit of a chain and of a shift is n + 1.
pub fn make(alloc: Global, family: Family, n: u32, logic: Logic) -> Result<Vec<u8>, NoMemory>
    ensures text { IfOk result (λ bytes. bytes.items ≡ family_text family n logic) }
{
    let word = item_word(logic);
    let mut out = Vec::new(alloc);
    match family {
        Family::Chain => append_chain(&mut out, word, n)?,
        Family::Shift => append_shift(&mut out, word, n)?,
        Family::Tower => append_tower(&mut out, word, n)?,
    }
    Ok(out)
}
