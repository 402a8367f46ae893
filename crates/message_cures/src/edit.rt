//! Parts of a message, and other octets in their place.

use std::alloc::{AllocError, Global};

/// The octets from one offset to another, or none where these aren't inside.
pub(crate) fn between(octets: &[u8], from: usize, to: usize) -> &[u8] {
    octets.get(from..to).unwrap_or(b"")
}

/// A message with other octets in place of those from one offset to another.
pub(crate) fn replaced(
    alloc: Global,
    text: &[u8],
    from: usize,
    to: usize,
    with: &[u8],
) -> Result<Option<Vec<u8>>, AllocError> {
    let mut changed = Vec::new(alloc);
    changed.extend_from_slice(between(text, 0, from))?;
    changed.extend_from_slice(with)?;
    changed.extend_from_slice(between(text, to, text.len()))?;
    Ok(Some(changed))
}

/// The offset after the tag that begins at an offset, if a bracket closes it before another one opens.
fn tag_end(text: &[u8], at: usize) -> Option<usize> {
    let from = at.saturating_add(1);
    let mut end = from;
    for octet in between(text, from, text.len()) {
        end = end.saturating_add(1);
        if *octet == b']' {
            return Some(end);
        }
        if *octet == b'[' {
            return None;
        }
    }
    None
}

/// The body of the tag that begins at an offset, and the offset after the tag, if one begins there.
pub(crate) fn body_at(text: &[u8], at: usize) -> Option<(&[u8], usize)> {
    if text.get(at) != Some(&b'[') {
        return None;
    }
    let end = tag_end(text, at)?;
    let body = between(text, at.saturating_add(1), end.saturating_sub(1));
    Some((body, end))
}

/// The offset after the item that begins at an offset: a tag, a doubled bracket or one octet.
pub(crate) fn item_end(text: &[u8], at: usize) -> usize {
    if let Some((_, end)) = body_at(text, at) {
        return end;
    }
    let is_doubled = matches!(text.get(at), Some(b'[') | Some(b']'))
        && text.get(at) == text.get(at.saturating_add(1));
    at.saturating_add(if is_doubled { 2 } else { 1 })
}

/// A message with other octets in place of the item that begins at an offset.
pub(crate) fn set_item(
    alloc: Global,
    text: &[u8],
    at: usize,
    with: &[u8],
) -> Result<Option<Vec<u8>>, AllocError> {
    replaced(alloc, text, at, item_end(text, at), with)
}

/// A message with a tag of this body, in two parts, in place of the item that begins at an offset.
pub(crate) fn set_body(
    alloc: Global,
    text: &[u8],
    at: usize,
    name: &[u8],
    rest: &[u8],
) -> Result<Option<Vec<u8>>, AllocError> {
    let mut tag = Vec::new(alloc);
    tag.push(b'[')?;
    tag.extend_from_slice(name)?;
    tag.extend_from_slice(rest)?;
    tag.push(b']')?;
    set_item(alloc, text, at, &tag)
}

/// Octets without their spaces.
pub(crate) fn without_spaces(alloc: Global, octets: &[u8]) -> Result<Vec<u8>, AllocError> {
    let mut bare = Vec::new(alloc);
    for octet in octets {
        if !octet.is_ascii_whitespace() {
            bare.push(*octet)?;
        }
    }
    Ok(bare)
}

/// Whether a body begins with a name, in letters of either case.
pub(crate) fn has_name(body: &[u8], name: &[u8]) -> bool {
    between(body, 0, name.len()).eq_ignore_ascii_case(name)
}
