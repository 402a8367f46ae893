//! The characters that a command line names.

use std::alloc::{AllocError, Global};

/// What is said of words that name no characters.
pub(crate) const NO_CHARACTERS: &str =
    "--characters takes ascii, latin1, characters, their numbers, and ranges of them, as in A-Z,0-9,32,0x2190-0x2193";

/// Characters from a lowest to a highest number (own).
#[derive(Clone, Copy)]
pub struct Characters {
    /// The lowest number.
    pub first: u16,
    /// The highest number, which isn't below the lowest if `--characters` named it.
    pub last: u16,
}

/// The number of a character: itself, or its number, in hexadecimal after 0x. One digit is a character.
fn number_of(word: &str) -> Option<u16> {
    let mut characters = word.chars();
    let first = characters.next()?;
    if characters.next().is_none() {
        return u16::try_from(u32::from(first)).ok();
    }
    match word.strip_prefix("0x") {
        Some(digits) => u16::from_str_radix(digits, 16).ok(),
        None => word.parse().ok(),
    }
}

/// One character, or those from a first to a last one.
fn range_of(item: &str) -> Option<Characters> {
    let (first, last) = match item.split_once('-') {
        Some((first, last)) => (number_of(first)?, number_of(last)?),
        None => {
            let number = number_of(item)?;
            (number, number)
        }
    };
    if first > last {
        return None;
    }
    Some(Characters { first, last })
}

/// Adds what one word between commas names, and answers whether it names characters.
fn push_item(ranges: &mut Vec<Characters>, item: &str) -> Result<bool, AllocError> {
    match item {
        "ascii" => push_ranges(ranges, &[(32, 126)]),
        "latin1" => push_ranges(ranges, &[(32, 126), (160, 255)]),
        _ => match range_of(item) {
            Some(range) => {
                ranges.push(range)?;
                Ok(true)
            }
            None => Ok(false),
        },
    }
}

/// Adds ranges.
fn push_ranges(ranges: &mut Vec<Characters>, named: &[(u16, u16)]) -> Result<bool, AllocError> {
    for (first, last) in named {
        let range = Characters {
            first: *first,
            last: *last,
        };
        ranges.push(range)?;
    }
    Ok(true)
}

/// The characters that a text names, or `None` if it names no characters.
pub(crate) fn ranges_of(alloc: Global, text: &str) -> Result<Option<Vec<Characters>>, AllocError> {
    let mut ranges = Vec::new(alloc);
    for item in text.split(',') {
        if !push_item(&mut ranges, item)? {
            return Ok(None);
        }
    }
    Ok(Some(ranges))
}
