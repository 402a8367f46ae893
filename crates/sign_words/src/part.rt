//! Sentences, with the parts that stand at their marks.

use crate::keys::{Kind, push_kind};
use std::alloc::AllocError;
use std::fmt::Write;

/// How many octets of a text of a sign file are told, at most.
const MOST: usize = 40;

/// What stands at a mark of a sentence.
#[derive(Clone, Copy)]
pub(crate) enum Part<'a> {
    /// These words.
    Words(&'a str),
    /// A number.
    Number(i64),
    /// How many there are, or which one it is.
    Count(usize),
    /// A version as MULTI has it: in hexadecimal digits with capitals.
    Version(u16),
    /// A CRC in four hexadecimal digits.
    Crc(u16),
    /// What may stand at a key.
    Kind(Kind),
    /// Binary digits, which are told as hexadecimal ones, two for each octet.
    Binary(&'a str),
    /// Text of a sign file, which stays on its line: its first 40 octets, with `?` for each that is no printable sign of ASCII, and
    /// ` ..` after them if it has more.
    Excerpt(&'a str),
}

/// Appends text of a sign file.
fn push_excerpt(text: &mut String, excerpt: &str) -> Result<(), AllocError> {
    for octet in excerpt.as_bytes().iter().take(MOST) {
        let is_printable = *octet >= b' ' && *octet <= b'~';
        text.push(if is_printable {
            char::from(*octet)
        } else {
            '?'
        })?;
    }
    text.push_str(if excerpt.len() > MOST { " .." } else { "" })
}

/// What four binary digits from a place on are worth; one that isn't there is 0.
fn nibble(digits: &[u8], place: usize) -> u8 {
    let mut nibble = 0;
    for bit in 0..4usize {
        let digit = digits.get(place.saturating_add(bit)).copied();
        nibble = nibble % 8 * 2 + u8::from(digit == Some(b'1')) % 2;
    }
    nibble
}

/// Appends binary digits as hexadecimal ones.
fn push_binary(text: &mut String, digits: &[u8]) -> Result<(), AllocError> {
    let octets = digits.len().saturating_add(7) / 8;
    for place in 0..octets.saturating_mul(2) {
        let nibble = nibble(digits, place.saturating_mul(4));
        write!(text, "{nibble:x}")?;
    }
    Ok(())
}

/// Appends a part.
fn push_part(text: &mut String, part: Part<'_>) -> Result<(), AllocError> {
    match part {
        Part::Words(words) => text.push_str(words),
        Part::Number(number) => write!(text, "{number}"),
        Part::Count(count) => write!(text, "{count}"),
        Part::Version(version) => write!(text, "{version:X}"),
        Part::Crc(crc) => write!(text, "{crc:04x}"),
        Part::Kind(kind) => push_kind(text, kind),
        Part::Binary(digits) => push_binary(text, digits.as_bytes()),
        Part::Excerpt(excerpt) => push_excerpt(text, excerpt),
    }
}

/// Appends a sentence, with these parts in the place of its marks `@`.
pub(crate) fn tell(
    text: &mut String,
    sentence: &str,
    parts: &[Part<'_>],
) -> Result<(), AllocError> {
    for (place, words) in sentence.split('@').enumerate() {
        text.push_str(words)?;
        if let Some(part) = parts.get(place) {
            push_part(text, *part)?;
        }
    }
    Ok(())
}
