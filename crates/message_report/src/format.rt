//! How messages are told of.

use message_cures::Kind;
use message_words::CODES;

/// What an explanation is written as (own).
#[derive(Clone, Copy)]
pub enum Format {
    /// Words and pictures for people.
    Text,
    /// The same for terminals: pictures in the sign's colours, with two rows of pixels a line.
    Ansi,
    /// A line for a refused message, and one for each warning on an accepted one: `NAME:LINE:COLUMN: error: ..` or `warning: ..`.
    /// Columns are octets, counted from 1.
    Lines,
    /// A record in JSON, as a line.
    Json,
    /// The message alone, as it is, or what is proposed in its place if the sign doesn't take it.
    Mended,
    /// The changes of a file's lines to what is proposed, as a unified diff.
    Changed,
}

/// How messages are told of (own).
#[derive(Clone, Copy)]
pub struct Telling {
    /// What an explanation is written as.
    pub format: Format,
    /// When pages are drawn, in tenths of a second since each began.
    pub phase: u64,
    /// Whether nothing is said of an accepted message unless there are warnings on it, and no page is drawn.
    pub refused_only: bool,
    /// Whether the record of a page has its picture.
    pub pictures: bool,
    /// Which warnings are told, by the numbers of their codes, the first of which is 1.
    pub warnings: [bool; CODES],
}

/// What was told of a message (own).
#[derive(Clone, Copy)]
pub struct Told {
    /// Whether the sign takes it.
    pub is_taken: bool,
    /// How many warnings are told of it.
    pub warnings: usize,
    /// What is kept by what is proposed in its place, if something is.
    pub proposal: Option<Kind>,
}
