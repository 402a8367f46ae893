//! A message as a picture in a file: one moment of it in PPM, GIF or PNG, or the message as it plays in GIF.
//!
//! [`draw_message`] draws what a [`View`] asks for. Each pixel of the sign is a square of points
//! with a dot in it, and all files have the same dots in the same colours.
#![tactic(auto)]

mod draw;
mod drawing;
mod view;

pub use draw::{DrawFault, draw_message};
pub use view::{Moment, View};
