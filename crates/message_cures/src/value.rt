//! Tags with a value that no sign takes, and the nearest value that it takes.

use crate::edit::{between, body_at, has_name, set_body, set_item, without_spaces};
use octet_text::push_number;
use sign_font::Sign;
use std::alloc::{AllocError, Global};

/// The values of a tag's numbers (NTCIP 1203 v03, MULTI).
#[derive(Clone, Copy)]
struct Values {
    name: &'static [u8],
    least: u32,
    most: u32,
    /// The letters that stand between them.
    letters: &'static [u8],
}

/// Tags whose numbers have these values.
const RANGES: [Values; 9] = [
    Values {
        name: b"nl",
        least: 0,
        most: 255,
        letters: b"",
    },
    Values {
        name: b"jl",
        least: 2,
        most: 5,
        letters: b"",
    },
    Values {
        name: b"jp",
        least: 2,
        most: 4,
        letters: b"",
    },
    Values {
        name: b"fo",
        least: 1,
        most: 255,
        letters: b"",
    },
    Values {
        name: b"sc",
        least: 0,
        most: 255,
        letters: b"",
    },
    Values {
        name: b"pt",
        least: 0,
        most: 255,
        letters: b"o",
    },
    Values {
        name: b"fl",
        least: 0,
        most: 255,
        letters: b"ot",
    },
    Values {
        name: b"cf",
        least: 0,
        most: 9,
        letters: b"",
    },
    Values {
        name: b"pb",
        least: 0,
        most: 9,
        letters: b"",
    },
];

/// Red, green and blue of the classic colours 0 to 9 (NTCIP 1203 v03, dmsColorScheme; the numbers of orange and amber are own).
const CLASSIC: [[u32; 3]; 10] = [
    [0, 0, 0],
    [255, 0, 0],
    [255, 255, 0],
    [0, 255, 0],
    [0, 255, 255],
    [0, 0, 255],
    [255, 0, 255],
    [255, 255, 255],
    [255, 165, 0],
    [255, 191, 0],
];

/// The numbers of a value, up to four, and how many there are.
#[derive(Clone, Copy)]
struct Numbers {
    of: [u32; 4],
    count: usize,
}

/// The numbers that stand in a value, with anything between them.
fn numbers_of(value: &[u8]) -> Numbers {
    let mut numbers = Numbers {
        of: [0; 4],
        count: 0,
    };
    let mut is_open = false;
    for octet in value {
        if !octet.is_ascii_digit() {
            is_open = false;
        } else {
            if !is_open {
                numbers.count = numbers.count.saturating_add(1);
                is_open = true;
            }
            let place = numbers.count.saturating_sub(1);
            if let Some(number) = numbers.of.get_mut(place) {
                let digit = u32::from(octet.wrapping_sub(b'0'));
                *number = (*number).saturating_mul(10).saturating_add(digit);
            }
        }
    }
    numbers
}

/// How far a colour is from another.
fn distance(colour: &[u32; 3], other: &[u32; 4]) -> u32 {
    let mut sum: u32 = 0;
    for (part, wanted) in colour.iter().zip(other) {
        let difference = (*part).abs_diff(*wanted);
        sum = sum.saturating_add(difference.saturating_mul(difference));
    }
    sum
}

/// The classic colour that is nearest to one of red, green and blue.
fn nearest_colour(wanted: &[u32; 4]) -> u64 {
    let mut nearest: u64 = 0;
    let mut least = u32::MAX;
    let mut number: u64 = 0;
    for colour in &CLASSIC {
        let away = distance(colour, wanted);
        if away < least {
            least = away;
            nearest = number;
        }
        number = number.saturating_add(1);
    }
    nearest
}

/// Appends a number, if there is one, pulled into a range.
fn push_pulled(value: &mut Vec<u8>, number: Option<u32>, values: Values) -> Result<(), AllocError> {
    match number {
        Some(number) => push_number(value, u64::from(number.min(values.most).max(values.least))),
        None => Ok(()),
    }
}

/// A value with its numbers pulled into their range, and no octet between them that doesn't belong there.
fn pulled(alloc: Global, rest: &[u8], values: Values) -> Result<Vec<u8>, AllocError> {
    let mut value = Vec::new(alloc);
    let mut number: Option<u32> = None;
    for octet in rest {
        if octet.is_ascii_digit() {
            let digit = u32::from(octet.wrapping_sub(b'0'));
            number = Some(number.unwrap_or(0).saturating_mul(10).saturating_add(digit));
        } else {
            if values.letters.contains(&octet.to_ascii_lowercase()) {
                push_pulled(&mut value, number, values)?;
                number = None;
                value.push(*octet)?;
            }
        }
    }
    push_pulled(&mut value, number, values)?;
    Ok(value)
}

/// The values of the numbers of the tag with this body, if it has a range.
fn values_of(body: &[u8]) -> Option<Values> {
    for values in &RANGES {
        if has_name(body, values.name) {
            return Some(*values);
        }
    }
    None
}

/// A part of the sign's width or height, from a place counted from 1, that is inside: its place and its length.
fn inside(whole: u16, from: u32, length: u32) -> (u32, u32) {
    let whole = u32::from(whole);
    let from = from.max(1).min(whole);
    let rest = whole.saturating_sub(from).saturating_add(1);
    (from, length.min(rest))
}

/// A rectangle inside the sign.
fn rectangle(alloc: Global, sign: &Sign, rest: &[u8]) -> Result<Vec<u8>, AllocError> {
    let [x, y, width, height] = numbers_of(rest).of;
    let (x, width) = inside(sign.width(), x, width);
    let (y, height) = inside(sign.height(), y, height);
    let mut value = Vec::new(alloc);
    push_number(&mut value, u64::from(x))?;
    value.push(b',')?;
    push_number(&mut value, u64::from(y))?;
    value.push(b',')?;
    push_number(&mut value, u64::from(width))?;
    value.push(b',')?;
    push_number(&mut value, u64::from(height))?;
    Ok(value)
}

/// The value in place of one that no sign takes.
fn value_of(alloc: Global, sign: &Sign, body: &[u8], rest: &[u8]) -> Result<Vec<u8>, AllocError> {
    if has_name(body, b"tr") {
        return rectangle(alloc, sign, rest);
    }
    let numbers = numbers_of(rest);
    if numbers.count == 3 && (has_name(body, b"cf") || has_name(body, b"pb")) {
        let mut value = Vec::new(alloc);
        push_number(&mut value, nearest_colour(&numbers.of))?;
        return Ok(value);
    }
    match values_of(body) {
        Some(values) => pulled(alloc, rest, values),
        None => Ok(Vec::new(alloc)),
    }
}

/// A message with a change to the value of the tag at an offset: it is written without spaces, or its numbers are pulled into their
/// ranges. A tag for which that changes nothing is left out.
pub(crate) fn change_value(
    alloc: Global,
    sign: &Sign,
    text: &[u8],
    at: usize,
) -> Result<Option<Vec<u8>>, AllocError> {
    let Some((body, _)) = body_at(text, at) else {
        return Ok(None);
    };
    let bare = without_spaces(alloc, body)?;
    if bare.len() < body.len() {
        return set_body(alloc, text, at, &bare, b"");
    }
    if body.eq_ignore_ascii_case(b"sc") {
        return set_item(alloc, text, at, b"[/sc]");
    }
    let count: usize = if body.first() == Some(&b'/') { 3 } else { 2 };
    let rest = between(body, count, body.len());
    let value = value_of(alloc, sign, body, rest)?;
    if value.as_slice() == rest {
        return set_item(alloc, text, at, b"");
    }
    set_body(alloc, text, at, between(body, 0, count), &value)
}
