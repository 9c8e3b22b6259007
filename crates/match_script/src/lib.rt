//! The text of a match script: `parse` and `parse_threads` read it, with the first fault of its least faulty line, and
//! `print` writes it. The format stands in docs/script.md, "The script".
#![tactic(auto)]

mod cut;
mod head;
mod held;
mod limits;
mod line;
mod objects;
mod printer;
mod reader;
mod said;
mod types;
mod word;
mod words;

pub use cut::{cut_line, is_text};
pub use head::{header, header_line, match_line, misplaced};
pub use held::{LineDatagram, LinePayload};
pub use limits::{
    MAX_BODY_LINES, MAX_COUNTED_LINES, MAX_RADIUS, MAX_THREAD_TICKS, MAX_VERSION, MIN_VERSION,
};
pub use line::LineFault;
pub use printer::{grows_by_a_line, print, print_head, put_line};
pub use reader::{BARE_HEADER_LINES, header_length, next_line, parse, parse_threads};
pub use types::{Blocks, Body, BodyLine, Head, ParseFault, Script, ScriptFault};
pub use word::{below, is_name, number_32, number_from};
pub use words::{Words, parted};
