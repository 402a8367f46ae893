//! The verdict of a sign on a MULTI string, and the pages of a string that it accepts.
//!
//! [`check`] reads a string once, from the left. It keeps running sums of the present area, and judges each item by them. The first item
//! that offends gives the error and its offset. If none does, the string is a [`Checked`]: it tells which page is shown at a clock, and
//! draws pages into a plane that the caller lends. To draw an area it is read twice, first for its lines and then for its cells.
#![tactic(auto)]

mod bracket;
mod checked;
mod cursor;
mod draw;
mod flash;
mod item;
mod judge;
mod laws;
mod pages;
mod paint;
mod read;
mod turn;
mod verdict;

pub use checked::{Checked, NextPage};
pub use item::{StringItem, item_at};
pub use laws::{comes_later, does_change, stays};
pub use multi_meaning::{
    Shown, SyntaxError, broken_bracket_stands, item_refusal_stands, keeps_breaks, one_verdict,
    refusal_stands, smaller_fits,
};
pub use pages::{PageView, Pages};
pub use read::AreaLines;
pub use verdict::{Fault, Judge, Offence, check, check_with};
