//! One change, where the first offence of a message stands.

use crate::bodies::{change_tag, leave_version};
use crate::breaking::{break_text, leave_just};
use crate::character::change_character;
use crate::edit::set_item;
use crate::value::change_value;
use crate::way::Way;
use multi_layout::{Offence, SyntaxError};
use sign_font::Sign;
use std::alloc::{AllocError, Global};

/// The message with one change where its first offence stands, if one is known.
pub(crate) fn changed(
    alloc: Global,
    sign: &Sign,
    text: &[u8],
    offence: Offence,
    way: Way,
) -> Result<Option<Vec<u8>>, AllocError> {
    let at = offence.at;
    match offence.error {
        SyntaxError::UnsupportedTag => change_tag(alloc, text, at),
        SyntaxError::UnsupportedTagValue => change_value(alloc, sign, text, at),
        SyntaxError::TextTooBig => break_text(alloc, sign, text, at, way),
        SyntaxError::FontNotDefined => set_item(alloc, text, at, b"[fo]"),
        SyntaxError::CharacterNotDefined => change_character(alloc, sign, text, at),
        SyntaxError::TagConflict => leave_just(alloc, text, at),
        SyntaxError::TooManyPages => set_item(alloc, text, at, b"[nl]"),
        SyntaxError::FontVersionId => leave_version(alloc, text, at),
    }
}
