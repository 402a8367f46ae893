//! A controller on the heap, behind a pointer that may lie in the memory of a host.
//!
//! A struct that crosses to C has no `Box` in it, and no type that contracts see by a model. So a [`Slot`] owns what a box owned, and C
//! sees its pointer alone, as that of an octet. A box goes in by [`Slot::of`] and comes out again by [`Slot::into_box`], as it was.
#![tactic(auto)]

mod parts;
mod slot;

pub use slot::Slot;
