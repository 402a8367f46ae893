//! What is answered to a command line that asks for no run.

use clap::Error;
use std::fmt;
use std::fmt::{Display, Formatter, Write};

/// Help, the version, or why a command line is refused (own). `Display` writes it, with its last line feed.
#[derive(Drop)]
pub struct Answer(pub(crate) Error);

impl Answer {
    /// Whether the command line is refused. If not, help or the version was asked for.
    pub fn is_refusal(&self) -> bool {
        self.0.use_stderr()
    }
}

impl Display for Answer {
    fn fmt<W: Write>(&self, f: &mut Formatter<W>) -> fmt::Result {
        write!(f, "{}", self.0)
    }
}
