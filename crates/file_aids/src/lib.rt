//! What helps people who write sign files and fonts, over streams that are handed in.
//!
//! [`run_sign`] tells of a sign file, [`run_font`] makes a font of a sign file from a font in BDF, and [`run_listing`] from a font table
//! of NTCIP 1203. The program `signctl` gives them the standard streams.
#![tactic(auto)]

mod font;
mod listing;
mod sign;

pub use font::{FontFault, run_font};
pub use listing::run_listing;
pub use sign::{SignFound, run_sign};
