//! The sign and its fonts, which are made once and never change.
//!
//! A sign is made from [`SignParts`], the numbers of a file that somebody wrote by hand. If they are outside a limit,
//! [`Sign::new`] refuses them with the first [`SignFault`]. An accepted [`Sign`] is exactly what was written.
//!
//! Only [`Sign::font`], [`Sign::cells`], [`Sign::cell`] and [`Sign::cell_width`] look up its fonts, and with [`FontCells::width`] their
//! cells. Each look counts as one step: one for a font, and for a cell of a number up to 255, whether they are there or not, and one to
//! eight for a cell of a number above 255. What the table of [`FontCells::advances`] says is read by a source alone, which counts those
//! looks.
#![tactic(auto)]

mod bits;
mod cell;
mod fault;
mod font;
mod fonts;
mod glyphs;
mod limits;
mod parts;
mod sample;
mod sign;

pub use cell::Cell;
pub use fault::{DefaultFault, SignFault};
pub use font::{FontCells, FontInfo};
pub use parts::{CellPart, Defaults, FontPart, LineFill, SignParts};
pub use sample::sample_sign;
pub use sign::Sign;
