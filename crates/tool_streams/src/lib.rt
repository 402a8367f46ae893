//! How the tool reads its input and writes its output, over streams that are handed in.
//!
//! [`next_line`] reads a line, [`read_whole`] all of an input, [`read_sign`] a sign file that stands before one,
//! and [`write_whole`] writes octets in as many writes as it takes. A [`Block`] takes what is read at once, [`line_end`] finds
//! the lines in it, and [`read_on`] reads more where none ends. Each fault that they answer is a [`ToolFault`].
#![tactic(auto)]

mod block;
mod ends;
mod fault;
mod lines;
mod output;
mod refill;
mod whole;

pub use block::{BLOCK, Block};
pub use ends::line_end;
pub use fault::ToolFault;
pub use lines::{
    FIRST_LINE, LineStart, MAX_KEPT, MAX_LINE, MAX_STRING, NextLine, is_mark, next_line, text_of,
};
pub use output::write_whole;
pub use refill::read_on;
pub use whole::{read_sign, read_whole};
