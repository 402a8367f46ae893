//! Tags that no sign takes, and what is written in their place.

use crate::edit::{between, body_at, has_name, replaced, set_body, set_item, without_spaces};
use message_words::{form_of, left_out, letters_at_front, meant, nearest};
use std::alloc::{AllocError, Global};

/// The most octets of a body that can be a tag by another name (own): longer ones are words between brackets.
const LONGEST_NAME: usize = 12;

/// A message with the bracket at an offset doubled, which shows it.
fn double(alloc: Global, text: &[u8], at: usize) -> Result<Option<Vec<u8>>, AllocError> {
    replaced(alloc, text, at, at, between(text, at, at.saturating_add(1)))
}

/// A message with another tag in place of one that is written otherwise, or with its bracket doubled.
fn change_name(
    alloc: Global,
    text: &[u8],
    at: usize,
    body: &[u8],
) -> Result<Option<Vec<u8>>, AllocError> {
    if body.len() > LONGEST_NAME {
        return double(alloc, text, at);
    }
    if let Some(tag) = meant(body) {
        return set_item(alloc, text, at, tag.as_bytes());
    }
    match nearest(body) {
        Some(name) => {
            let rest = between(body, letters_at_front(body), body.len());
            set_body(alloc, text, at, name.as_bytes(), rest)
        }
        None => double(alloc, text, at),
    }
}

/// A message with a change to the tag at an offset, which no sign takes: it is written without spaces, or by its name, or left out where
/// this profile has no such tag. Brackets around anything else are shown.
pub(crate) fn change_tag(
    alloc: Global,
    text: &[u8],
    at: usize,
) -> Result<Option<Vec<u8>>, AllocError> {
    let Some((body, _)) = body_at(text, at) else {
        return double(alloc, text, at);
    };
    if body.is_empty() {
        return set_item(alloc, text, at, b"");
    }
    let bare = without_spaces(alloc, body)?;
    if bare.len() < body.len() {
        return match form_of(&bare) {
            Some(_) => set_body(alloc, text, at, &bare, b""),
            None => double(alloc, text, at),
        };
    }
    match left_out(body) {
        Some(_) => set_item(alloc, text, at, b""),
        None => change_name(alloc, text, at, body),
    }
}

/// A message in which the font at an offset is asked for without a version.
pub(crate) fn leave_version(
    alloc: Global,
    text: &[u8],
    at: usize,
) -> Result<Option<Vec<u8>>, AllocError> {
    let Some((body, _)) = body_at(text, at) else {
        return Ok(None);
    };
    if !has_name(body, b"fo") {
        return Ok(None);
    }
    let mut count: usize = 0;
    for octet in body {
        if *octet == b',' {
            break;
        }
        count = count.saturating_add(1);
    }
    set_body(alloc, text, at, between(body, 0, count), b"")
}
