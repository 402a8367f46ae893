//! Characters that the font in force hasn't.

use crate::edit::{between, body_at, replaced, set_item};
use crate::font::{font_in_force, has_character, in_another, take_from_another};
use crate::line::line_before;
use crate::shown::{Change, made_of};
use message_words::{encoded_at, plain_of};
use sign_font::Sign;
use std::alloc::{AllocError, Global};
use std::fmt::Write;

/// What stands for signs of ASCII that fonts seldom have (own). What has no other sign is left out.
const OTHERS: [(u8, &str); 14] = [
    (b'_', "-"),
    (b'~', "-"),
    (b'`', "'"),
    (b'"', "'"),
    (b';', ","),
    (b'|', "/"),
    (b'\\', "/"),
    (b'{', "("),
    (b'}', ")"),
    (b'<', "("),
    (b'>', ")"),
    (b'&', "+"),
    (b'!', "."),
    (b',', " "),
];

/// An octet in the other case, if it is a letter of the case that is asked for.
fn in_other_case(octet: u8, to_capitals: bool) -> u8 {
    if to_capitals {
        octet.to_ascii_uppercase()
    } else {
        octet.to_ascii_lowercase()
    }
}

/// A message with the character of a number in place of some octets, if a font has it: in the font in force, or in another one.
fn set_number(
    alloc: Global,
    sign: &Sign,
    text: &[u8],
    from: usize,
    to: usize,
    number: u16,
) -> Result<Option<Vec<u8>>, AllocError> {
    let mut tag = String::new(alloc);
    write!(tag, "[hc{number:X}]")?;
    let line = line_before(text, from);
    if has_character(sign, font_in_force(sign, text, &line), number) {
        return replaced(alloc, text, from, to, tag.as_bytes());
    }
    match in_another(alloc, sign, text, &line, tag.as_bytes(), number)? {
        Some(with) => replaced(alloc, text, from, to, &with),
        None => Ok(None),
    }
}

/// A message in which a character of more than one octet is written as the sign reads it: by its number where a font has it, or else by
/// letters of ASCII. An octet that belongs to no such character is one of Latin-1.
fn change_encoded(
    alloc: Global,
    sign: &Sign,
    text: &[u8],
    at: usize,
    octet: u8,
) -> Result<Option<Vec<u8>>, AllocError> {
    let (character, count) = match encoded_at(text, at) {
        Some(encoded) => (encoded.character, encoded.count),
        None => (char::from(octet), 1),
    };
    let end = at.saturating_add(count);
    if let Ok(number) = u16::try_from(u32::from(character)) {
        if let Some(other) = set_number(alloc, sign, text, at, end, number)? {
            return Ok(Some(other));
        }
    }
    let plain = plain_of(character);
    let with = if plain == "?" { "" } else { plain };
    replaced(alloc, text, at, end, with.as_bytes())
}

/// What stands for a sign of ASCII that no font has.
fn other_of(octet: u8) -> &'static str {
    for (sign, other) in &OTHERS {
        if *sign == octet {
            return *other;
        }
    }
    ""
}

/// A message with a change to a character of one octet that is no letter.
fn change_sign(
    alloc: Global,
    sign: &Sign,
    text: &[u8],
    at: usize,
    octet: u8,
) -> Result<Option<Vec<u8>>, AllocError> {
    if octet == b'\t' {
        return replaced(alloc, text, at, at.saturating_add(1), b" ");
    }
    if octet == b'\\' && text.get(at.saturating_add(1)) == Some(&b'n') {
        return replaced(alloc, text, at, at.saturating_add(2), b"[nl]");
    }
    match take_from_another(alloc, sign, text, at, u16::from(octet))? {
        Some(changed) => Ok(Some(changed)),
        None => set_item(alloc, text, at, other_of(octet).as_bytes()),
    }
}

/// A message with a change to a letter: all letters are in the other case where the font has that, or it comes from another font.
fn change_letter(
    alloc: Global,
    sign: &Sign,
    text: &[u8],
    at: usize,
    octet: u8,
    font: u8,
) -> Result<Option<Vec<u8>>, AllocError> {
    let is_small = octet.is_ascii_lowercase();
    let other = in_other_case(octet, is_small);
    if has_character(sign, font, u16::from(other)) {
        let change = if is_small {
            Change::Capitals
        } else {
            Change::SmallLetters
        };
        return Ok(Some(made_of(alloc, change, text)?));
    }
    take_from_another(alloc, sign, text, at, u16::from(octet))
}

/// The number of the character that the body of a tag 'hc' names.
fn number_of(body: &[u8]) -> Option<u16> {
    let mut number: u16 = 0;
    for octet in between(body, 2, body.len()) {
        let digit = char::from(*octet).to_digit(16)?;
        number = number.checked_mul(16)?.checked_add(digit as u16)?;
    }
    Some(number)
}

/// A message with a change to the character at an offset, which the font in force hasn't.
pub(crate) fn change_character(
    alloc: Global,
    sign: &Sign,
    text: &[u8],
    at: usize,
) -> Result<Option<Vec<u8>>, AllocError> {
    let Some(octet) = text.get(at) else {
        return Ok(None);
    };
    let octet = *octet;
    if let Some((body, end)) = body_at(text, at) {
        // the character of a number is no other one
        return match number_of(body) {
            Some(number) => set_number(alloc, sign, text, at, end, number),
            None => Ok(None),
        };
    }
    let font = font_in_force(sign, text, &line_before(text, at));
    if octet >= 128 {
        change_encoded(alloc, sign, text, at, octet)
    } else if octet.is_ascii_alphabetic() {
        change_letter(alloc, sign, text, at, octet, font)
    } else {
        change_sign(alloc, sign, text, at, octet)
    }
}
