//! What is said of a message to the people who write it, in words.
//!
//! The words judge nothing: the verdict on a message is that of `multi_layout::check`, which is handed in, and
//! `message_report::Explainer` puts them beside it. A refused message is told with the numbers that a writer needs to mend it, and an
//! accepted one with warnings of what its writer can't have meant.
#![tactic(auto)]

mod characters;
mod code;
mod colours;
mod decided;
mod excerpt;
mod flashes;
mod forms;
mod items;
mod lines;
mod names;
mod pages;
mod piece;
mod places;
mod plain;
mod reason;
mod room;
mod said;
mod sentence;
mod sight;
mod standing;
mod times;
mod utf8;
mod warnings;
mod words;

pub use characters::{CharacterRun, FontCharacters};
pub use code::{CODES, USUAL_WARNINGS, WarningCode};
pub use excerpt::Excerpt;
pub use forms::{form_of, left_out, letters_at_front, nearest};
pub use names::{meant, plain_of};
pub use room::{LARGE_COLUMNS, LARGE_ROWS};
pub use times::{Times, page_times};
pub use utf8::{Encoded, encoded_at};
pub use warnings::{Findings, Warning, warnings_on};
pub use words::{COLOUR_MARKS, FLASHING, MORE, MessageLine, NO_TIMES, PIXEL_MARKS, Refusal};
