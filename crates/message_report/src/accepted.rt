//! An accepted message that is told of.

use crate::canvas::Canvas;
use crate::format::Telling;
use message_words::Findings;
use sign_font::Sign;
use std::alloc::Global;
use std::cell::Cell;

/// A message that a sign accepts, and how it is told of (own).
#[derive(Clone, Copy)]
pub(crate) struct AcceptedMessage<'a> {
    /// Where memory comes from.
    pub(crate) alloc: Global,
    pub(crate) telling: Telling,
    /// The sign that accepts it.
    pub(crate) sign: &'a Sign,
    /// Its line.
    pub(crate) line: u32,
    /// Its octets.
    pub(crate) message: &'a [u8],
    /// What is found in it.
    pub(crate) found: &'a Findings,
    /// What its pages are drawn with, if there is something.
    pub(crate) canvas: &'a Cell<Option<Box<Canvas>>>,
}
