//! What parts make a sign, what files are read as one, and what is said of them and of messages. It has only tests, of the calls of
//! `sign_font`, `sign_file`, `sign_report`, `font_bdf` and `message_report`.
//!
//! They stand in a crate of their own, since a crate that has tests is proved a second time with them.
#![tactic(auto)]

#[cfg(test)]
mod tests;
