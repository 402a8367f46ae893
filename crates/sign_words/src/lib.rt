//! What a sign file describes, or the faults that are found in it, each with its line, in words, in lines for editors, or in JSON.
//!
//! Its calls are for people who write sign files, and judge nothing. Whether a sign file is taken, and which of its permanent messages
//! its sign refuses, says `sign_report::sign_report`, and `sign_file::read_sign_file` answers one fault to a program.
#![tactic(auto)]

mod address;
mod bits;
mod cells;
mod code;
mod describe;
mod facts;
mod find;
mod findings;
mod json;
mod keys;
mod meant;
mod members;
mod names;
mod order;
mod part;
mod permanents;
mod picture;
mod place;
mod refusal;
mod scan;
mod strings;
mod syntax;
mod told;
mod unknown;
mod view;
mod words;

pub use describe::{Characters, Setup};
pub use findings::{Finding, Findings};
pub use refusal::PermanentRefusal;
pub use syntax::syntax_fault;
pub use view::{SignView, SignWords};
pub use words::{
    add_refusals, encoding_fault, look_at_document, look_at_lines, nesting_fault, untaken_fault,
};
