//! What a sign makes of a message, in words and pictures for people, in lines for editors, and in records for programs.
//!
//! [`Explainer`] tells of a refused message where and why it is refused, with the numbers that a writer needs to mend it, and of an
//! accepted one its pages with their times, each drawn in all its colours at once, and warnings. The words are those of `message_words`.
//! Programs call `multi_layout::check`.
#![tactic(auto)]

mod accepted;
mod blocks;
mod canvas;
mod explain;
mod explanation;
mod fixes;
mod format;
mod large;
mod lines;
mod marks;
mod pages;
mod picture;
mod record;
mod refusal;
mod text;
mod verdict;
mod wording;

pub use explain::Explainer;
pub use explanation::Explanation;
pub use format::{Format, Telling, Told};
pub use message_words::{CODES, USUAL_WARNINGS};
