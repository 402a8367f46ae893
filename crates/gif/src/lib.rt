//! Pictures with their delays, as a file in GIF.
//!
//! [`GifWriter`] takes pictures one after the other, each as a list of numbers in a palette of 16 colours, and gives
//! the octets of a file in GIF89a that shows them over and over. What is written is read back, by the reader of files
//! in `specs/Reader`, as exactly these pictures, delays and colours. No picture is kept: each is packed as it comes.
#![tactic(auto)]

mod bits;
mod coder;
mod file;
mod lzw;
mod table;
mod writer;

pub use writer::GifWriter;
