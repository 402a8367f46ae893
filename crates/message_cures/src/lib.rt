//! What a writer may send in place of a message that the sign refuses.
//!
//! [`mend`] proposes a message in capitals or in small letters, if the sign takes that. Else it changes the message step by step, each
//! time where the first offence stands, until the sign takes it. Each proposal was judged by `multi_layout`, and whether it shows the
//! same letters was compared. The changes keep what is shown as far as they can: a break in place of a space, a page in place of a line,
//! another letter of the same sound. Only where nothing else helps is a word shortened.
#![tactic(auto)]

mod bodies;
mod breaking;
mod change;
mod character;
mod difference;
mod edit;
mod font;
mod laws;
mod line;
mod mending;
mod proposal;
mod short;
mod shown;
mod trial;
mod value;
mod way;

pub use difference::{Edit, edits_of};
pub use laws::case_keeps_letters;
pub use mending::{Kind, Mending, Outcome, mend};
pub use proposal::{Proposal, further};
pub use trial::MOST_JUDGED;
