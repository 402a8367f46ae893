//! Fonts for a sign, from fonts in BDF and from font tables of NTCIP 1203.
//!
//! [`font_tables`] reads a font in BDF, the Glyph Bitmap Distribution Format in which most fonts of pixels are kept, and writes it
//! as the `[[font]]` table of a sign file. [`read_font`] reads it alone.
//!
//! A cell is as high as the box of the font, and as wide as its character's advance less the spacing
//! between characters, unless a [`FontSetting`] asks for another. What is written was read back as a
//! part of a sign file: it has the font that was read, and a sign with this font has no fault.
//! [`listed_tables`] writes such a table of a font table of NTCIP 1203, which [`read_listed`] reads alone.
#![tactic(auto)]

mod bitmap;
mod cells;
mod character;
mod fault;
mod listed;
mod listing;
mod numbers;
mod placed;
mod read;
mod rows;
mod same;
mod setting;
mod start;
mod told;
mod words;
mod write;

pub use fault::{BdfFault, BdfProblem, Untaken};
pub use listing::{listed_tables, read_listed};
pub use read::read_font;
pub use setting::{CharacterRange, FontSetting, Outside};
pub use write::font_tables;
