//! The values of MULTI tags.
//!
//! A tag's body is the octets between its brackets. It begins with the tag's name, which has two or three octets. The rest
//! has one of the forms that the table of tags lists for that name: nothing, or numbers with commas and letters between
//! them. Letters may be large or small.
//!
//! [`read_closed`] reads a tag of octets, up to its closing bracket, if one of the table stands there. [`read_ahead`] does so of a
//! source, and [`read_tag`] of a token, where it gives the tag's value or the fault that explains why it has none.
#![tactic(auto)]

mod ahead;
mod closed;
mod just;
mod laws;
mod name;
mod number;
mod read;
mod tag;

pub use ahead::read_ahead;
pub use closed::{read_closed, read_named};
pub use just::{LineJust, PageJust};
pub use laws::{no_long_body, one_tag_at_most, tag_of_is_the_table};
pub use name::{Name, read_name};
pub use read::{read_fault, read_tag};
pub use tag::{FontPick, Tag, TagFault};
