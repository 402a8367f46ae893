//! The tags of MULTI, for one who wrote another.

use crate::sentence::between;

/// A tag that signs of this profile take, and how it is written (NTCIP 1203 v03, MULTI).
const TAKEN: [(&str, &str); 14] = [
    ("np", "[np], without a number"),
    (
        "nl",
        "[nl], or [nl0] to [nl255] with the gap below in pixels",
    ),
    (
        "jl",
        "[jl], or [jl2] left, [jl3] centre, [jl4] right, [jl5] full",
    ),
    ("jp", "[jp], or [jp2] top, [jp3] middle, [jp4] bottom"),
    (
        "fo",
        "[fo], or [fo1] to [fo255], or with a version in hexadecimal as [fo1,1A2B]",
    ),
    ("sc", "[sc0] to [sc255], the pixels between characters"),
    ("/sc", "[/sc], without a number"),
    (
        "pt",
        "[pt30o5], on and off in tenths of a second, 0 to 255; either may be left out",
    ),
    (
        "fl",
        "[fl], [flt5o5] or [flo5t5], on and off in tenths of a second, 0 to 255",
    ),
    ("/fl", "[/fl], without a number"),
    ("cf", "[cf], or [cf0] to [cf9], a classic colour"),
    ("pb", "[pb], or [pb0] to [pb9], a classic colour"),
    (
        "tr",
        "[tr1,1,50,24], column and row counted from 1, width and height in pixels; 0 is all that remains",
    ),
    (
        "hc",
        "[hc1] to [hcFFFF], a character's number in hexadecimal",
    ),
];

/// A tag of the standard that this profile leaves out, and what it is for.
const LEFT_OUT: [(&str, &str); 5] = [
    ("cb", "the background colour of characters"),
    ("cr", "a coloured rectangle"),
    ("ms", "a maker's own tag"),
    ("/ms", "the end of a maker's own tag"),
    ("mv", "moving text"),
];

/// Such tags whose name is one letter.
const NUMBERED: [(&str, &str); 2] = [("f", "a field"), ("g", "a graphic")];

/// What a table says of the first name that begins a body, in letters of either case.
pub(crate) fn found(table: &[(&'static str, &'static str)], body: &[u8]) -> Option<&'static str> {
    for (name, words) in table {
        if let Some(front) = body.get(..name.len()) {
            if front.eq_ignore_ascii_case(name.as_bytes()) {
                return Some(*words);
            }
        }
    }
    None
}

/// How the tag is written whose name begins a body, if signs of this profile take it.
pub fn form_of(body: &[u8]) -> Option<&'static str> {
    found(&TAKEN, body)
}

/// What the tag is for whose name begins a body, if this profile leaves it out. The names of a field and a graphic are one letter,
/// after which a number or a comma stands, or nothing.
pub fn left_out(body: &[u8]) -> Option<&'static str> {
    let is_numbered = match body.get(1) {
        Some(octet) => octet.is_ascii_digit() || *octet == b',',
        None => true,
    };
    let table = if is_numbered && found(&NUMBERED, body).is_some() {
        &NUMBERED[..]
    } else {
        &LEFT_OUT[..]
    };
    found(table, body)
}

/// What stands after the first octets.
fn behind(octets: &[u8], count: usize) -> &[u8] {
    between(octets, count, octets.len())
}

/// Whether octets are a name, in letters of either case, but for one letter at most that is another, too many or missing.
fn is_near(octets: &[u8], name: &[u8]) -> bool {
    let mut same: usize = 0;
    for (octet, letter) in octets.iter().zip(name) {
        if !octet.eq_ignore_ascii_case(letter) {
            break;
        }
        same = same.saturating_add(1);
    }
    let (octets, name) = (behind(octets, same), behind(name, same));
    let (fewer, shorter) = (behind(octets, 1), behind(name, 1));
    fewer.eq_ignore_ascii_case(shorter)
        || fewer.eq_ignore_ascii_case(name)
        || octets.eq_ignore_ascii_case(shorter)
}

/// How many letters and slashes a body begins with.
pub fn letters_at_front(body: &[u8]) -> usize {
    let mut count: usize = 0;
    for octet in body {
        if !octet.is_ascii_alphabetic() && *octet != b'/' {
            break;
        }
        count = count.saturating_add(1);
    }
    count
}

/// The name of a tag that signs take and that is nearest to the letters with which a body begins, if one is but one letter off.
pub fn nearest(body: &[u8]) -> Option<&'static str> {
    let letters = between(body, 0, letters_at_front(body));
    if letters.len() < 2 {
        return None;
    }
    for (name, _) in &TAKEN {
        if is_near(letters, name.as_bytes()) {
            return Some(*name);
        }
    }
    None
}
