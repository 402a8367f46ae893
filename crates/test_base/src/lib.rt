//! What counts, tokens, tags and planes are. It has only tests, of the calls of `step_count`, `multi_token`, `multi_tag` and `page_plane`.
//!
//! They stand in a crate of their own, since a crate that has tests is proved a second time with them.
#![tactic(auto)]

#[cfg(test)]
mod tests;
