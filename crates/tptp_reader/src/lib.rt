//! Texts in the syntax of TPTP: `fof`, `cnf` and include items, with places and causes of faults. What a text says, and
//! where its fault is, stands in `specs/`.
#![tactic(auto)]

mod checker;
mod clause_reader;
mod expected;
mod fault;
mod following;
mod formula_reader;
mod item;
mod item_reader;
mod machine;
mod moves;
mod reader;
mod source;
mod stop;
mod term_reader;
mod terminal;
mod text_reader;

pub use fault::{ReadCause, ReadFault};
pub use item::{Item, ItemKind, ItemList, NameList, NamePlaces};
pub use reader::read_formula;
pub use source::{
    BinaryKind, ChainKind, Source, SourceBox, SourceList, SourceTerm, SourceTerms, TextList,
};
pub use text_reader::{read_items, read_text};
