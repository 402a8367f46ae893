//! What a sign shows: the activation of messages, their durations, and the frame of the display.
//!
//! A [`Controller`] is made once of a sign and its store, and takes then all memory that it ever takes but that of the replies of a
//! [`Controller::run`]. Each [`Command`] makes one step of its state and has one [`Reply`]. The display has its own copy of the message
//! that was activated, so a message that is changed later is still shown as it was. [`Controller::frame`] draws one colour of it at its
//! clock, [`Controller::colours`] all of them, and [`Controller::next_change`] tells for how long it stays as it is.
//! [`Controller::draw_page`] and [`Controller::write_page`] draw a text that isn't shown.
//!
//! Time is handed in, in tenths of a second: where nobody sends a `Tick`, the clock stands.
#![tactic(auto)]

mod activation;
mod apply;
mod change;
mod check;
mod code;
mod colours;
mod command;
mod controller;
mod display;
mod draw;
mod frame;
mod held;
mod laws;
mod page;
mod parts;
mod report;
mod restore;
mod revision;
mod save;

pub use command::{Command, DefaultField, Reply};
pub use controller::Controller;
pub use frame::Frame;
pub use laws::{
    answers_as_saved, changes_the_time_at_most, every_run_stays_within, headline,
    stays_until_next_change,
};
pub use page::NoPage;
pub use report::Report;
