//! What a MULTI string means on a sign: the verdict, the pages and their times, the place of each character, the colour of each
//! pixel.
//!
//! The meaning is in the definitions of `specs/`. The types are those that they speak of, and each function is a law about
//! them. `multi_layout` judges strings and draws them.
#![tactic(auto)]

mod attributes;
mod fault;
mod laws;
mod place;
mod times;

pub use attributes::{FlashTimes, Rectangle};
pub use fault::SyntaxError;
pub use laws::{
    broken_bracket_stands, item_refusal_stands, judging_is_linear, keeps_breaks, one_verdict,
    refusal_stands, smaller_fits,
};
pub use place::Place;
pub use times::Shown;
