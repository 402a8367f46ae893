//! Whether a sign file is taken, and which of its permanent messages its sign refuses, with what is said of it to people.
//!
//! [`sign_report`] is for people who write sign files. Programs read a sign file by `sign_file::read_sign_file`, which answers one
//! fault, and [`find_in`] lists what is found. The words are those of `sign_words`, and of `message_report` where a permanent message is
//! refused.
#![tactic(auto)]

mod explanations;
mod find;
mod judged;
mod lines;
mod permanents;
mod report;
mod setup;

pub use find::find_in;
pub use report::{SignReport, sign_report};
