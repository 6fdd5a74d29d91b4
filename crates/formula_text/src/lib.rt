//! The canonical text of names, terms, formulas, labels and settings, after TPTP and QMLTP, and the reading of names, terms and labels.
//!
//! `append_*` may leave a part of a text where memory ends; `write_*` takes it off again. A reader gives the one value whose canonical
//! text stands at a place and ends there, and the place after it. It answers that there is none exactly where there is none, so other
//! spellings of a value, as `f(a, b)`, `'a'` and `$$e01`, are refused.
//!
//! # Depth
//! A term is read into a row, with its open terms on a stack on the heap, and a row is written so, so that memory alone bounds its depth.
//! The tree that `term_of` makes of a row has at most 20,001 levels; for a deeper one the answer is that there is no memory, so that trees
//! can be copied and dropped. These call themselves as deep as the term is, and so does writing a tree: in a program as `rt run` builds it,
//! on a stack of 8 MB, writing passes at 104,000 levels and dies at 105,000, dropping passes at 130,000 and dies at 131,000, and
//! `Term::copy` of `formula_core` passes at 29,000 and dies at 30,000.
#![tactic(auto, using(crate::proofs::Extending::extending))]

mod append;
mod dollar;
mod formula;
mod label;
mod label_reader;
mod name;
mod name_reader;
mod read;
mod row_hash;
mod row_term;
mod row_writer;
mod scan;
mod setting;
mod term;
mod term_reader;
mod term_row;

pub use append::{write_bytes, write_number};
pub use formula::write_formula;
pub use label::write_label;
pub use label_reader::read_label;
pub use name::write_name;
pub use name_reader::read_name;
pub use read::TextRead;
pub use row_term::term_of;
pub use row_writer::write_row;
pub use scan::read_number;
pub use setting::write_setting;
pub use term::write_term;
pub use term_reader::read_term;
pub use term_row::{RowItem, TermRow};
