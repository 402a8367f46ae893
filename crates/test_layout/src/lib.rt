//! What strings are answered and drawn on small signs. It has only tests, of the calls of `multi_layout`.
//!
//! They stand in a crate of their own, since a crate that has tests is proved a second time with them.
#![tactic(auto)]

#[cfg(test)]
mod tests;
