//! What is kept of the items of a string, from the left: whether the next one offends, and where a character stands.
//!
//! [`Pass`] keeps the attributes in force and the running sums of the present area. By them it judges one item, or all characters
//! after one that only lengthen its line. [`LineTable`] has the lines of a whole area, by which [`place_at`] places a character.
//! `multi_layout` reads strings with them.
#![tactic(auto)]

mod area;
mod attributes;
mod fill;
mod item;
mod judge;
mod line;
mod pass;
mod place;
mod run;
mod state;
mod table;
mod terms;

pub use area::{Area, Group};
pub use attributes::Attributes;
pub use item::{KnownItem, NextItem};
pub use judge::judge_tag;
pub use line::Line;
pub use pass::Pass;
pub use place::{is_full, place_at};
pub use run::judge_run;
pub use state::State;
pub use table::{CountedLine, LineTable};
pub use terms::Terms;
