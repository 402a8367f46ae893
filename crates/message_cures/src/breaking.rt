//! Lines and areas that don't fit: where they are broken, and which font is small enough.

use crate::edit::{between, body_at, has_name, item_end, replaced, set_item};
use crate::font::{font_tag, is_spaced, lower, narrower};
use crate::line::{LineBefore, line_before};
use crate::short::shorten;
use crate::way::Way;
use sign_font::Sign;
use std::alloc::{AllocError, Global};

/// How many spaces are at the end of octets.
fn spaces_behind(octets: &[u8]) -> usize {
    let mut count: usize = 0;
    for octet in octets.iter().rev() {
        if *octet != b' ' {
            break;
        }
        count = count.saturating_add(1);
    }
    count
}

/// How many spaces are at the front of octets.
fn spaces_before(octets: &[u8]) -> usize {
    let mut count: usize = 0;
    for octet in octets {
        if *octet != b' ' {
            break;
        }
        count = count.saturating_add(1);
    }
    count
}

/// A message in which the spaces around one on a line are a break; at the front of the line and at the end of the message they are left
/// out.
fn break_at(
    alloc: Global,
    text: &[u8],
    start: usize,
    space: usize,
) -> Result<Option<Vec<u8>>, AllocError> {
    let from = space.saturating_sub(spaces_behind(between(text, start, space)));
    let to = space.saturating_add(spaces_before(between(text, space, text.len())));
    let is_outer = from <= start || to >= text.len();
    replaced(alloc, text, from, to, if is_outer { b"" } else { b"[nl]" })
}

/// A message with a tag for a font where a line begins.
fn choose_font(
    alloc: Global,
    text: &[u8],
    at: usize,
    font: u8,
) -> Result<Option<Vec<u8>>, AllocError> {
    let tag = font_tag(alloc, font)?;
    replaced(alloc, text, at, at, &tag)
}

/// A message with a narrower font on the line that goes up to an offset, or with the least room between its characters that keeps them
/// apart.
fn narrow(
    alloc: Global,
    sign: &Sign,
    text: &[u8],
    line: &LineBefore,
    at: usize,
) -> Result<Option<Vec<u8>>, AllocError> {
    if !line.has_font {
        if let Some(font) = narrower(sign, text, line, item_end(text, at)) {
            return choose_font(alloc, text, line.start, font);
        }
    }
    if !line.has_spacing && is_spaced(sign, text, line) {
        return replaced(alloc, text, line.start, line.start, b"[sc1]");
    }
    Ok(None)
}

/// A message that is narrower on a line, or else has a shorter word there.
fn narrow_or_shorten(
    alloc: Global,
    sign: &Sign,
    text: &[u8],
    line: &LineBefore,
    at: usize,
) -> Result<Option<Vec<u8>>, AllocError> {
    match narrow(alloc, sign, text, line, at)? {
        Some(other) => Ok(Some(other)),
        None => shorten(alloc, text, line.start),
    }
}

/// A message that has more room on a line in the way that is tried before the line is broken, if it can have it so.
fn make_room(
    alloc: Global,
    sign: &Sign,
    text: &[u8],
    line: &LineBefore,
    at: usize,
    way: Way,
) -> Result<Option<Vec<u8>>, AllocError> {
    match way {
        Way::Break => Ok(None),
        Way::Narrow => narrow(alloc, sign, text, line, at),
        Way::Shorten => shorten(alloc, text, line.start),
    }
}

/// A message in which a line that has no room below those above it begins a page, or has a lower font where none is above it.
fn begin_page(
    alloc: Global,
    sign: &Sign,
    text: &[u8],
    line: &LineBefore,
) -> Result<Option<Vec<u8>>, AllocError> {
    if let Some(at) = line.break_at {
        return set_item(alloc, text, at, b"[np]");
    }
    match lower(sign, text, line) {
        Some(font) if !line.has_font => choose_font(alloc, text, line.start, font),
        _ => Ok(None),
    }
}

/// A message with a change to the line or the area that is too big with the item at an offset: the line is broken at its last space, or has
/// a narrower font, less room between its characters, or a shorter word; the area goes on with another page, or has a lower font.
pub(crate) fn break_text(
    alloc: Global,
    sign: &Sign,
    text: &[u8],
    at: usize,
    way: Way,
) -> Result<Option<Vec<u8>>, AllocError> {
    let line = line_before(text, at);
    if let Some((body, _)) = body_at(text, at) {
        if has_name(body, b"nl") {
            return set_item(alloc, text, at, b"[np]");
        }
    }
    if !line.any {
        return begin_page(alloc, sign, text, &line);
    }
    if let Some(other) = make_room(alloc, sign, text, &line, at, way)? {
        return Ok(Some(other));
    }
    let here = if text.get(at) == Some(&b' ') {
        Some(at)
    } else {
        line.space
    };
    match here {
        Some(space) => break_at(alloc, text, line.start, space),
        None => narrow_or_shorten(alloc, sign, text, &line, at),
    }
}

/// A message without the last justification before an offset.
pub(crate) fn leave_just(
    alloc: Global,
    text: &[u8],
    at: usize,
) -> Result<Option<Vec<u8>>, AllocError> {
    match line_before(text, at).just_at {
        Some(just) => set_item(alloc, text, just, b""),
        None => Ok(None),
    }
}
