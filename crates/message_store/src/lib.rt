//! The message table of a sign: changeable messages within their number and their octets, and permanent ones.
//!
//! A [`Store`] is made once with its [`StoreLimits`] and its [`Permanent`] messages, and reserves then all memory
//! that it ever takes: texts and owners stand one after the other in one pool of octets, and the gap of a text that
//! is replaced is closed before the call returns. Each call changes one slot as it says and keeps every other, or is
//! refused by the first [`StoreFault`] and changes nothing.
//!
//! A message is written in modifying, waits in validating, and [`Store::work`] judges the one with the lowest number.
#![tactic(auto)]

mod crc;
mod fault;
mod judge;
mod limits;
mod message;
mod moves;
mod parts;
mod places;
mod reserved;
mod row;
mod slot;
mod slots;
mod store;
mod texts;
mod view;
mod work;
mod write;

pub use crc::message_crc;
pub use fault::{StoreFault, StoreMade};
pub use judge::{TextJudgement, judge_text};
pub use limits::StoreLimits;
pub use message::{MsgRef, Permanent};
pub use row::Row;
pub use slot::Status;
pub use store::Store;
pub use view::SlotView;
pub use work::Judged;
