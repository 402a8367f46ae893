//! Sign files: a sign, the limits of its message store and its permanent messages, in a TOML document.
//!
//! [`read_sign_file`] gives what a file says, or the [`FileFault`] for which there is nothing to give. It judges no limit:
//! [`sign_font::Sign::new`] makes a sign of [`SignFile::sign`], or refuses it.
//!
//! A number is a whole number of the type of its field, `scheme` is `"monochrome"` or `"classic"`, `line_fill` is `"none"` or
//! `"words"`, and `bits` is a text of octets in hexadecimal. A key must be there unless its default stands in parentheses.
//! Other keys are ignored. A text that nests deeper than a sign file may is none ([`deep_at`]), so that a small stack serves for all.
//!
//! | Table | Keys |
//! |---|---|
//! | the document | `width`, `height`, `scheme`, `max_pages`, `beacons` (false), `pixel_service` (false), `line_fill` (none) |
//! | | `slots`, `bytes`, `max_string`, and the tables `[defaults]`, `[[font]]` (none), `[[permanent]]` (none) |
//! | `[defaults]` | `font`, `line`, `page`, `page_on`, `page_off`, `flash_on`, `flash_off`, `fore`, `back` |
//! | `[[font]]` | `number`, `version` (0), `height`, `char_spacing`, `line_spacing`, and the tables `[[font.cell]]` (none) |
//! | `[[font.cell]]` | `number`, `width`, `bits` |
//! | `[[permanent]]` | `multi`, `priority` (1), `beacon` (0), `pixel` (0) |
#![tactic(auto)]

mod fault;
mod file;
mod keys;
mod nesting;
mod sign;

pub use fault::FileFault;
pub use file::{SignFile, read_sign_file};
pub use nesting::{deep_at, few_levels_fit, short_names_fit};
