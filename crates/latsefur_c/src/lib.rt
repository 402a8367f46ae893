//! The verdict and the pages of messages, and a controller that a host holds, for programs in C, and in what can call C.
//!
//! `export` has the calls that take the octets of a sign file and of a text, and `recorded` those that say why and write a film. The sign
//! file is read anew by each, and all memory is given back before it returns. `hold`, `commands`, `questions`, `held` and `saved` have the
//! calls with a handle in the host's memory: the controller behind it is made of a sign file once, and lives until it is freed. What comes
//! back is a number, one of those of `outcome`; `sentence` says what a number means. A picture goes into a buffer of the caller. The header
//! `hosts/latsefur.h` says the same to an engineer who writes in C.
#![tactic(auto)]

mod buffer;
mod check;
mod command;
mod commands;
mod defaults;
mod draw;
mod export;
mod facts;
mod font;
mod handle;
mod held;
mod hold;
mod outcome;
mod page;
mod paint;
mod plane;
mod questions;
mod recorded;
mod reply;
mod report;
mod row;
mod saved;
mod seen;
mod sentence;
mod setup;
mod shown;
mod sign;
mod table;
mod version;
