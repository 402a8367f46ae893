//! Scripts: lines of text that ask things of a sign's controller.
//!
//! [`read_ask`] reads one line. A line is a word and its fields, each after exactly one space, or it asks for nothing:
//! it is empty, or begins with `#`. What is no line of this table is bad.
//!
//! | Line | Asks for |
//! |---|---|
//! | `request M N C` | `Command::Request` |
//! | `multi M N TEXT` | `Command::SetMulti` with the octets after the third space, and without a third space with none |
//! | `multix M N HEX` | `Command::SetMulti` with the octets of HEX, and without a third space with none |
//! | `owner M N HEX` | `Command::SetOwner`, as `multix` |
//! | `priority M N V`, `beacon M N V`, `pixel M N V` | `Command::SetPriority`, `Command::SetBeacon`, `Command::SetPixelService` |
//! | `clear`, `work` | `Command::Clear`, `Command::Work` |
//! | `activate HEX` | `Command::Activate` with 12 octets |
//! | `end HEX` | `Command::SetEnd` with 5 octets |
//! | `tick T` | `Command::Tick` |
//! | `default FIELD V` | `Command::SetDefault`; FIELD is the name of a field of `Defaults`, as `font` or `page_on` |
//! | `frame C` | [`Ask::Frame`] |
//! | `row M N` | [`Ask::Row`] |
//! | `report`, `defaults` | [`Ask::Report`], [`Ask::Defaults`] |
//!
//! A line for a served sign is one of these, or one of those that [`read_question`] reads besides:
//!
//! | Line | Asks for |
//! |---|---|
//! | `colours` | [`Question::Colours`] |
//! | `verdict TEXT` | [`Question::Verdict`] with the octets after the first space, and without a space with none |
//! | `crc TEXT` | [`Question::Crc`], as `verdict` |
//! | `next` | [`Question::Next`] |
//! | `code M N D P` | [`Question::Code`] |
//! | `help` | [`Question::Help`] |
//! | `verdictx TEXT`, `crcx TEXT`, `restore TEXT` | [`Question::VerdictHex`] and the like, as `verdict`; [`octets_of`] reads their digits |
//! | `save` | [`Question::Save`] |
//!
//! M, V, C and P are 0 to 255, N and D are 0 to 65535 and T is 0 to 4294967295, each of 1 to 10 decimal digits. HEX is an even number
//! of hexadecimal digits in either case. Words are in lower case.
#![tactic(auto)]

mod ask;
mod fields;
mod hexadecimal;
mod laws;
mod question;
mod read;
mod verb;

pub use ask::{Ask, LineFault};
pub use laws::{lines_are_spelled, questions_are_spelled};
pub use question::{Question, read_question};
pub use read::{octets_of, read_ask};
