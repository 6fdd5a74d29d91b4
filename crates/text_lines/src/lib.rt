//! What texts of lines share: their lines, the numbers and labels in a line, and the head, four lines that tell the kind of the text,
//! the setting, the formula and the limit. A reader of a part gives the value whose canonical text the bytes are, or begin with, and
//! answers that there is none exactly where there is none.
#![tactic(auto)]

mod head_line;
mod head_reader;
mod head_writer;
mod lines;
mod parts;

pub use head_line::{HeadFault, HeadLine};
pub use head_reader::{read_head, setting_line};
pub use head_writer::write_head;
pub use lines::{after_line, line_at};
pub use parts::{
    read_front_label, read_front_number, read_limit, read_name_number, read_whole_label,
    read_whole_number, rest_after,
};
