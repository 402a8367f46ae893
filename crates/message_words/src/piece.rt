//! What stands in a message, item by item or in longer pieces.

ghost use Rattle.std.specs.Prelude.{◌≤◌, IfSome, length};

use crate::sentence::between;
use multi_tag::{Tag, read_closed};
use multi_token::{Kind, Source, next_token};

/// An item as it is spelled.
#[derive(Clone, Copy)]
pub(crate) enum Item<'a> {
    /// A character of this number.
    Char(u8),
    /// A tag with this body.
    Tag(&'a [u8]),
}

/// The item at an offset and the offset after it, if one is spelled there.
pub(crate) fn item_at(message: &[u8], at: usize) -> Option<(Item<'_>, usize)> {
    if at >= message.len() {
        return None;
    }
    let mut source = Source::new(message);
    let Ok(Some(token)) = next_token(&mut source, at) else {
        return None;
    };
    let behind = at.saturating_add(token.len);
    let item = match token.kind {
        Kind::Char(octet) => Item::Char(octet),
        Kind::Tag => Item::Tag(between(message, at.saturating_add(1), behind.saturating_sub(1))),
    };
    Some((item, behind))
}

/// One item, or characters that follow one another.
#[derive(Clone, Copy)]
pub(crate) enum Piece<'a> {
    /// Characters as they are spelled: some that are no brackets, or a doubled bracket.
    Text(&'a [u8]),
    /// A tag, and what it means.
    Tag(Tag),
    /// A tag that means nothing.
    Unknown,
}

/// How many octets at the front are no brackets.
fn plain_front(octets: &[u8]) -> usize {
    let mut count: usize = 0;
    for octet in octets {
        if *octet == b'[' || *octet == b']' {
            break;
        }
        count = count.saturating_add(1);
    }
    count
}

/// How many octets at the front are spaces.
pub(crate) fn count_of_spaces(octets: &[u8]) -> usize {
    let mut count: usize = 0;
    for octet in octets {
        if *octet != b' ' {
            break;
        }
        count = count.saturating_add(1);
    }
    count
}

/// The tag with which octets begin, and how many octets spell it, if they begin with one that means anything.
#[inline(always)]
pub(crate) fn tag_of(octets: &[u8]) -> Option<(Tag, usize)>
    ensures { IfSome result (λ (tag, len). (1 ≤ len) × (len ≤ length octets.now)) }
{
    let [b'[', behind @ ..] = octets else {
        return None;
    };
    let (tag, len) = read_closed(behind)?;
    Some((tag, len + 1))
}

/// A doubled bracket or a tag that means nothing, with which octets begin, and how many octets spell it.
fn other_piece(octets: &[u8]) -> Option<(Piece<'_>, usize)> {
    let (item, len) = item_at(octets, 0)?;
    let piece = match item {
        Item::Char(_) => Piece::Text(between(octets, 0, len)),
        Item::Tag(_) => Piece::Unknown,
    };
    Some((piece, len))
}

/// The longest piece with which octets begin, and how many octets spell it.
fn first_piece(octets: &[u8]) -> Option<(Piece<'_>, usize)> {
    let plain = plain_front(octets);
    if plain > 0 {
        return Some((Piece::Text(between(octets, 0, plain)), plain));
    }
    match tag_of(octets) {
        Some((tag, len)) => Some((Piece::Tag(tag), len)),
        None => other_piece(octets),
    }
}

/// The longest piece at an offset and the offset after it, if one is spelled there.
pub(crate) fn piece_at(message: &[u8], at: usize) -> Option<(Piece<'_>, usize)> {
    let (piece, len) = first_piece(message.get(at..)?)?;
    Some((piece, at.saturating_add(len)))
}
