//! What is written in place of characters that fonts of signs seldom have.

use crate::forms::found;

/// What is known of a character.
#[derive(Clone, Copy)]
pub(crate) struct Named {
    /// Its name, or nothing if it is a letter with a mark or isn't known.
    pub(crate) name: &'static str,
    /// What is written for it in ASCII, or a question mark if nothing is.
    pub(crate) plain: &'static str,
}

/// Characters from one to another, their name or nothing for letters with a mark, and what is written for each in ASCII, or a
/// question mark if nothing is (own; the names are those of Unicode).
const KNOWN: [(u32, u32, &str, &str); 52] = [
    (0xA0, 0xA0, "no-break space", " "),
    (
        0xAB,
        0xAB,
        "left-pointing double angle quotation mark",
        "\"",
    ),
    (0xB0, 0xB0, "degree sign", "?"),
    (0xB4, 0xB4, "acute accent", "'"),
    (0xB7, 0xB7, "middle dot", "."),
    (
        0xBB,
        0xBB,
        "right-pointing double angle quotation mark",
        "\"",
    ),
    (0xC0, 0xC5, "", "A"),
    (0xC6, 0xC6, "", "AE"),
    (0xC7, 0xC7, "", "C"),
    (0xC8, 0xCB, "", "E"),
    (0xCC, 0xCF, "", "I"),
    (0xD1, 0xD1, "", "N"),
    (0xD2, 0xD6, "", "O"),
    (0xD7, 0xD7, "multiplication sign", "x"),
    (0xD8, 0xD8, "", "O"),
    (0xD9, 0xDC, "", "U"),
    (0xDD, 0xDD, "", "Y"),
    (0xDF, 0xDF, "", "ss"),
    (0xE0, 0xE5, "", "a"),
    (0xE6, 0xE6, "", "ae"),
    (0xE7, 0xE7, "", "c"),
    (0xE8, 0xEB, "", "e"),
    (0xEC, 0xEF, "", "i"),
    (0xF1, 0xF1, "", "n"),
    (0xF2, 0xF6, "", "o"),
    (0xF8, 0xF8, "", "o"),
    (0xF9, 0xFC, "", "u"),
    (0xFD, 0xFD, "", "y"),
    (0xFF, 0xFF, "", "y"),
    (0x200B, 0x200B, "zero width space", ""),
    (0x2010, 0x2010, "hyphen", "-"),
    (0x2011, 0x2011, "non-breaking hyphen", "-"),
    (0x2012, 0x2012, "figure dash", "-"),
    (0x2013, 0x2013, "en dash", "-"),
    (0x2014, 0x2014, "em dash", "-"),
    (0x2018, 0x2018, "left single quotation mark", "'"),
    (0x2019, 0x2019, "right single quotation mark", "'"),
    (0x201C, 0x201C, "left double quotation mark", "\""),
    (0x201D, 0x201D, "right double quotation mark", "\""),
    (0x2022, 0x2022, "bullet", "*"),
    (0x2026, 0x2026, "horizontal ellipsis", "..."),
    (0x202F, 0x202F, "narrow no-break space", " "),
    (0x2032, 0x2032, "prime", "'"),
    (0x2033, 0x2033, "double prime", "\""),
    (0x20AC, 0x20AC, "euro sign", "?"),
    (0x2190, 0x2190, "leftwards arrow", "<"),
    (0x2191, 0x2191, "upwards arrow", "?"),
    (0x2192, 0x2192, "rightwards arrow", ">"),
    (0x2193, 0x2193, "downwards arrow", "?"),
    (0x2212, 0x2212, "minus sign", "-"),
    (0x3000, 0x3000, "ideographic space", " "),
    (0xFEFF, 0xFEFF, "byte order mark", ""),
];

/// What is known of a character.
pub(crate) fn known_of(character: char) -> Named {
    let code = u32::from(character);
    for (first, last, name, plain) in &KNOWN {
        if *first <= code && code <= *last {
            return Named {
                name: *name,
                plain: *plain,
            };
        }
    }
    Named {
        name: "",
        plain: "?",
    }
}

/// What is written for a character in ASCII, or a question mark if nothing is.
pub fn plain_of(character: char) -> &'static str {
    known_of(character).plain
}

/// A word for a tag, and the tag that does it.
const MEANT: [(&str, &str); 36] = [
    ("n1", "[nl]"),
    ("j1", "[jl]"),
    ("page", "[np]"),
    ("newpage", "[np]"),
    ("next", "[np]"),
    ("line", "[nl]"),
    ("newline", "[nl]"),
    ("br", "[nl]"),
    ("left", "[jl2]"),
    ("center", "[jl3]"),
    ("centre", "[jl3]"),
    ("right", "[jl4]"),
    ("full", "[jl5]"),
    ("justify", "[jl5]"),
    ("top", "[jp2]"),
    ("middle", "[jp3]"),
    ("bottom", "[jp4]"),
    ("blink", "[fl]"),
    ("time", "[pt]"),
    ("wait", "[pt]"),
    ("space", "[sc1]"),
    ("rect", "[tr1,1,0,0]"),
    ("color", "[cf]"),
    ("colour", "[cf]"),
    ("black", "[cf0]"),
    ("red", "[cf1]"),
    ("yellow", "[cf2]"),
    ("green", "[cf3]"),
    ("cyan", "[cf4]"),
    ("blue", "[cf5]"),
    ("magenta", "[cf6]"),
    ("white", "[cf7]"),
    ("orange", "[cf8]"),
    ("amber", "[cf9]"),
    ("bg", "[pb]"),
    ("char", "[hc41]"),
];

/// The tag that a word for one means, with its brackets. What stands after a word doesn't count.
pub fn meant(body: &[u8]) -> Option<&'static str> {
    if body.eq_ignore_ascii_case(b"n") {
        return Some("[nl]");
    }
    found(&MEANT, body)
}
