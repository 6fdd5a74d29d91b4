//! Texts of modal problems in the syntax of QMLTP (Raths and Otten): `qmf` and include items. What a text says, and where its
//! fault is, stands in the specs of `tptp_reader`, whose readers hold for both.
#![tactic(auto)]

ghost use Rattle.std.specs.Prelude.{◌≡◌, IfSome, List, true};
ghost use Rattle.tptp_reader.specs.Answers.{the_reading};
ghost use Rattle.tptp_reader.specs.Reading.{IsReading, Outcome};
ghost use Rattle.tptp_reader.specs.Sources as tree;

use std::alloc::Global;
use tptp_reader::{ItemList, ReadFault, read_text};

/// The items of a text of a modal problem.
pub fn read_modal_items(alloc: Global, text: &[u8]) -> Result<ItemList, ReadFault>
    ensures reading { IfSome (the_reading result) (λ r. IsReading true text.now r) }
    ensures alone { IfSome (the_reading result) (λ r. (other : Outcome (List tree.Item))
        → IsReading true text.now other → other ≡ r) }
{
    read_text(alloc, text, true)
}
