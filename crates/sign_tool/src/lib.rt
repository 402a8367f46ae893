//! The tool over the core of a message sign's controller, for streams that are handed in.
//!
//! [`run_tool`] answers the lines of an input: messages, which are judged or shown, or a script, which drives the controller. The program
//! `signctl` gives it the standard streams, and its page says what an input is. [`begin`] reads what stands before the lines, for other
//! tools whose input begins so. [`serve`] answers the lines of a sign that is set up, one reply each, for as long as they come.
#![tactic(auto)]

mod answer;
mod answers;
mod check;
mod decoded;
mod fault;
mod few;
mod first;
mod hexadecimal;
mod laws;
mod output;
mod ready;
mod replies;
mod reply;
mod script;
mod server;
mod serving;
mod setup;
mod show;
mod start;
mod talk;
mod tool;

pub use laws::{scripts_run_the_controller, served_signs_run_the_controller};
pub use serving::{serve, serve_talk};
pub use setup::Setup;
pub use start::{Start, begin};
pub use talk::Talk;
pub use tool::{Mode, run_script, run_tool};
