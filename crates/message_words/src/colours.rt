//! The classic colours, for one who asked for another.

use crate::sentence::Value::{Number, Words};
use crate::sentence::{between, write_sentence};
use sign_font::Sign;
use std::alloc::AllocError;

/// Red, green and blue of a colour, 0 to 255 each.
#[derive(Clone, Copy)]
pub(crate) struct Shares {
    red: u8,
    green: u8,
    blue: u8,
}

/// The classic colours by their numbers, each with its red, green and blue and its name (NTCIP 1203 v03, dmsColorScheme; the shares are
/// own).
const CLASSIC: [(u8, u8, u8, u8, &str); 10] = [
    (0, 0, 0, 0, "black"),
    (1, 255, 0, 0, "red"),
    (2, 255, 255, 0, "yellow"),
    (3, 0, 255, 0, "green"),
    (4, 0, 255, 255, "cyan"),
    (5, 0, 0, 255, "blue"),
    (6, 255, 0, 255, "magenta"),
    (7, 255, 255, 255, "white"),
    (8, 255, 165, 0, "orange"),
    (9, 255, 191, 0, "amber"),
];

/// How many letters the name of a tag with a colour has.
const NAME: usize = 2;

/// The number up to 255 that a word writes.
fn share_of(word: &[u8]) -> Option<u8> {
    str::from_utf8(word).unwrap_or("").parse().ok()
}

/// The colour of the three numbers after the name with which a body begins, if three stand there.
fn shares_in(body: &[u8]) -> Option<Shares> {
    let mut words = between(body, NAME, body.len()).split(|octet| *octet == b',');
    let red = share_of(words.next()?)?;
    let green = share_of(words.next()?)?;
    let blue = share_of(words.next()?)?;
    match words.next() {
        Some(_) => None,
        None => Some(Shares { red, green, blue }),
    }
}

/// The classic colour of the number after the name with which a body begins, if one stands there.
fn classic_in(body: &[u8]) -> Option<Shares> {
    let asked = share_of(between(body, NAME, body.len()))?;
    for (number, red, green, blue, _) in &CLASSIC {
        if *number == asked {
            return Some(Shares {
                red: *red,
                green: *green,
                blue: *blue,
            });
        }
    }
    None
}

/// Whether a body begins with a name, in letters of either case.
fn is_named(body: &[u8], name: &str) -> bool {
    between(body, 0, NAME).eq_ignore_ascii_case(name.as_bytes())
}

/// The tag with a classic colour that stands for a body with three numbers, and the colour of these.
pub(crate) fn asked_by_shares(body: &[u8]) -> Option<(&'static str, Shares)> {
    let tag = if is_named(body, "cf") {
        "cf"
    } else if is_named(body, "pb") {
        "pb"
    } else {
        return None;
    };
    Some((tag, shares_in(body)?))
}

/// The colour that a body asks for after characters, which is a classic one or has three numbers.
pub(crate) fn asked_behind_characters(body: &[u8]) -> Option<Shares> {
    if !is_named(body, "cb") {
        return None;
    }
    match classic_in(body) {
        Some(shares) => Some(shares),
        None => shares_in(body),
    }
}

/// The square of how far two shares lie apart.
fn apart(one: u8, other: u8) -> u32 {
    let far = u32::from(one.max(other).saturating_sub(one.min(other)));
    far.saturating_mul(far)
}

/// The number of the classic colour that lies nearest to a colour.
fn nearest_to(shares: Shares) -> u8 {
    let mut nearest: u8 = 0;
    let mut least = u32::MAX;
    for (number, red, green, blue, _) in &CLASSIC {
        let far = apart(shares.red, *red)
            .saturating_add(apart(shares.green, *green))
            .saturating_add(apart(shares.blue, *blue));
        if far < least {
            nearest = *number;
            least = far;
        }
    }
    nearest
}

/// The name of a classic colour by its number.
fn name_of(number: u8) -> &'static str {
    for (classic, _, _, _, name) in &CLASSIC {
        if *classic == number {
            return *name;
        }
    }
    "black"
}

/// Says which tag is nearest to a colour, and after that where this tag counts. A monochrome sign has lit and dark pixels.
pub(crate) fn write_nearest<'a>(
    text: &mut String,
    sign: &Sign,
    tag: &'a str,
    shares: Shares,
    place: &'a str,
) -> Result<(), AllocError> {
    let tag = Words(tag);
    if !sign.classic() {
        let sentence = "; a pixel of this sign is lit or dark: [{}1] or [{}0]{}";
        return write_sentence(text, sentence, &[tag, tag, Words(place)]);
    }
    let number = nearest_to(shares);
    let values = [
        Words(name_of(number)),
        tag,
        Number(number.into()),
        Words(place),
    ];
    write_sentence(
        text,
        "; the nearest classic colour is {}: [{}{}]{}",
        &values,
    )
}
