//! The text of derivations, in both versions.
#![tactic(auto)]

mod body_line;
mod body_reader;
mod causes;
mod conversion;
mod difference;
mod entering;
mod fault;
mod head_reader;
mod in_order;
mod label_list;
mod line_writer;
mod name_line_reader;
mod numbered_causes;
mod numbered_line;
mod numbered_parser;
mod numbered_parts;
mod numbered_reader;
mod numbering;
mod numbers;
mod parser;
mod place_list;
mod plain_writer;
mod renumbering;
mod row_step;
mod step_reader;
mod table_writer;
mod term_list;
mod term_writer;
mod text_derivation;
mod writer;

pub use calculus::fault::TextCause;
pub use calculus::version::Version;
pub use conversion::{derivation_of, step_of};
pub use fault::ParseFault;
pub use label_list::LabelList;
pub use numbering::number;
pub use numbers::{NumberedModal, NumberedStep, NumberedTerm};
pub use parser::{parse, read};
pub use term_list::TermList;
pub use text_derivation::TextDerivation;
pub use writer::{print, write};
