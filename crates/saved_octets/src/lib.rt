//! Octets in which a state is saved, so that it survives a loss of power.
//!
//! A state is sealed: a version, a length and a CRC-32 stand around its body, so that octets of another version, octets that are cut off
//! and octets that have changed are refused. A body is made of fields, one after the other: numbers with the high octet first, and
//! texts after their lengths.
#![tactic(auto)]

mod checksum;
mod fault;
mod field;
mod seal;
mod slot;
mod table;

pub use checksum::crc32;
pub use fault::StateFault;
pub use field::{put, put_text, text_of};
pub use seal::{AROUND, open_seal, put_head, put_seal};
pub use table::{put_table, restore_table};
