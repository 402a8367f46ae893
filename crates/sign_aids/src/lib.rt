//! What helps people who write messages, over streams that are handed in.
//!
//! [`run_explain`] explains messages, and [`draw_picture`] and [`run_picture`] draw one. The program `signctl` gives them the standard
//! streams. Messages stand in the input as they do for `sign_tool::run_tool`.
#![tactic(auto)]

mod explain;
mod lit;
mod picture;

pub use explain::{Counts, run_explain};
pub use lit::Lit;
pub use picture::{PictureFault, draw_picture, run_picture};
