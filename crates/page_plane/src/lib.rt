//! One bit plane of a sign's page: a set of pixels of a fixed size, in one block of memory.
//!
//! A sign's driver sees octets. Each row of `w` pixels begins on a new octet and has `(w + 7) / 8` octets. Its leftmost
//! pixel is the highest bit of its first octet, and the spare bits of its last octet are 0.
//!
//! A [`Plane`] is made once, with every pixel off. After that its pixels and its count of steps change. Its size and its
//! memory never do.
#![tactic(auto)]

mod laws;
mod memory;
mod octets;
mod plane;
mod words;

pub use laws::a_plane_is_its_pixels;
pub use memory::Memory;
pub use plane::Plane;
