//! Films of messages, and the files in GIF and PNG that pictures are. It has only tests, of the calls of `gif`, `png` and `message_film`.
//!
//! They stand in a crate of their own, since a crate that has tests is proved a second time with them.
#![tactic(auto)]

#[cfg(test)]
mod tests;
