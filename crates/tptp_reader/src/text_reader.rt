//! The readers of texts.

ghost use Rattle.std.specs.Prelude.{◌≡◌, ◌∷◌, [], IfErr, IfOk, IfSome, List, false};
ghost use Rattle.tptp_reader.specs.Answers.{the_reading};
ghost use Rattle.tptp_reader.specs.Expecting as way;
ghost use Rattle.tptp_reader.specs.Failing.{Fails, Missing};
ghost use Rattle.tptp_reader.specs.Reading.{HoldsItems, IsReading, Outcome};
ghost use Rattle.tptp_reader.specs.Sources as tree;

use crate::checker::text_fault;
use crate::fault::ReadFault;
use crate::item::ItemList;
use crate::item_reader::read_item;
use crate::stop::Stop;
use crate::terminal::next_piece;
use std::alloc::Global;

// The items of a text that has no fault.
fn build_items(alloc: Global, text: &[u8], modal: bool) -> Result<ItemList, Stop>
    ensures holds { IfOk result (λ items. HoldsItems modal text.now items) }
    ensures none { IfErr result (Missing (Fails modal text.now (way.items ∷ []) 0)) }
{
    let mut items = ItemList::new(alloc);
    let mut place = 0;
    'items: loop {
        let first = match next_piece(text, place) {
            Ok(Some(piece)) => piece,
            Ok(None) => return Ok(items),
            Err(_) => return Err(Stop::NotThere),
        };
        let (item, dot) = read_item(alloc, text, modal, first)?;
        items.push(item)?;
        place = dot.end;
    }
}

/// The items of a text, of a modal problem or of one that is classical or intuitionistic.
pub fn read_text(alloc: Global, text: &[u8], modal: bool) -> Result<ItemList, ReadFault>
    ensures reading { IfSome (the_reading result) (λ r. IsReading modal text.now r) }
    ensures alone { IfSome (the_reading result) (λ r. (other : Outcome (List tree.Item)) → IsReading modal text.now other → other ≡ r) }
{
    match build_items(alloc, text, modal) {
        Ok(items) => Ok(items),
        Err(Stop::NoMemory) => Err(ReadFault::NoMemory),
        Err(Stop::NotThere) => {
            let fault = text_fault(alloc, text, modal)?;
            Err(fault)
        }
    }
}

/// The items of a text of a problem that is classical or intuitionistic.
pub fn read_items(alloc: Global, text: &[u8]) -> Result<ItemList, ReadFault>
    ensures reading { IfSome (the_reading result) (λ r. IsReading false text.now r) }
    ensures alone { IfSome (the_reading result) (λ r. (other : Outcome (List tree.Item)) → IsReading false text.now other → other ≡ r) }
{
    read_text(alloc, text, false)
}
