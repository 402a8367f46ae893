//! What a message table, a controller and the lines of a script do. It has only tests, of the calls of `message_store`,
//! `sign_control` and `sign_script`.
//!
//! They stand in a crate of their own, since a crate that has tests is proved a second time with them.
#![tactic(auto)]

#[cfg(test)]
mod tests;
