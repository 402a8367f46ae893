//! The octets of a MULTI string, each read of which is counted, and the tokens that they spell.
//!
//! A MULTI string is a list of octets. It spells items, which are characters and tags. An octet that is no bracket
//! spells the character of its number, `[[` and `]]` spell the characters 91 and 93, and a tag is one or more octets
//! without brackets between `[` and `]`.
//!
//! [`Source`] gives its octets one at a time, lends at most 26 of them, or tells how many go into a room by a table of
//! [`Advances`], and counts each octet and each look at the table. There is no other way to them. [`next_token`] gives the one
//! item that is spelled at an offset, and [`read_bracket`] the one that begins with a bracket which was read already.
#![tactic(auto)]

mod advances;
mod laws;
mod source;
mod token;

pub use advances::Advances;
pub use laws::{
    each_string_has_a_reading, no_spelling_begins_another, one_reading, what_can_be_mended,
};
pub use source::{Entry, Run, Source, Space};
pub use token::{Bracketed, Kind, Token, TokenFault, next_token, read_bracket};
