//! What a command line of `signctl` asks for, or why it is refused: the commands, their options, and the ranges of these.
//!
//! It reads words alone: no file is opened, and no stream read. `docs/signctl.1` describes each option to people.
#![tactic(auto)]

mod answer;
mod build;
mod characters;
mod completions;
mod explain;
mod font;
mod messages;
mod picture;
mod request;
mod sign;
mod source;
mod table;

pub use answer::Answer;
pub use characters::Characters;
pub use explain::{ExplainRequest, ReportFormat};
pub use font::{FontRequest, OutsideChoice};
pub use messages::{ManyMessages, Messages};
pub use picture::{LitChoice, PictureKind, PictureRequest, Shown};
pub use request::{Request, request_of};
pub use sign::{SignFormat, SignRequest};
pub use source::{SignSource, Surroundings};
