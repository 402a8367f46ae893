//! What the tool does over streams that fail, or give and take little at a time. It has only tests, of the calls of `sign_tool`,
//! `sign_aids` and `file_aids`.
//!
//! They stand in a crate of their own, since a crate that has tests is proved a second time with them.
#![tactic(auto)]

#[cfg(test)]
mod tests;
