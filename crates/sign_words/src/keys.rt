//! The keys of a sign file, with what may stand at them.

use std::alloc::AllocError;
use std::fmt::Write;

/// What may stand at a key.
#[derive(Clone, Copy)]
pub(crate) enum Kind {
    /// A whole number from the first to the second.
    Number(i64, i64),
    /// One of the numbers from this one on that have these names.
    Named(i64, &'static [&'static str]),
    /// A colour of a sign that has one colour: dark, or lit.
    Light,
    /// `true` or `false`.
    Truth,
    /// One of these texts.
    Word(&'static str, &'static str),
    /// Any text.
    Text,
    /// Hexadecimal digits.
    Octets,
    /// A table.
    Table,
    /// An array of tables.
    Tables,
}

/// What stands before one of so many names.
fn before(place: usize, count: usize) -> &'static str {
    if place == 0 {
        ""
    } else if place.saturating_add(1) == count {
        " or "
    } else {
        ", "
    }
}

/// Appends numbers with their names, of which the first is this one.
fn push_names(text: &mut String, first: i64, names: &[&str]) -> Result<(), AllocError> {
    let mut number = first;
    for (place, name) in names.iter().enumerate() {
        text.push_str(before(place, names.len()))?;
        write!(text, "{number} ({name})")?;
        number = number.saturating_add(1);
    }
    Ok(())
}

/// Appends what may stand at a key.
pub(crate) fn push_kind(text: &mut String, kind: Kind) -> Result<(), AllocError> {
    match kind {
        Kind::Number(low, high) => write!(text, "a whole number from {low} to {high}"),
        Kind::Named(first, names) => push_names(text, first, names),
        Kind::Light => text.push_str("0 (dark) or 1 to 9 (lit)"),
        Kind::Truth => text.push_str("true or false"),
        Kind::Word(one, other) => write!(text, "\"{one}\" or \"{other}\""),
        Kind::Text => text.push_str("a text"),
        Kind::Octets => text.push_str("a text of hexadecimal digits, two for each octet"),
        Kind::Table => text.push_str("a table, under [defaults]"),
        Kind::Tables => text.push_str("an array of tables"),
    }
}

/// Where lines stand, by their numbers from 2 on (NTCIP 1203 v03, object defaultJustificationLine).
pub(crate) const LINES: [&str; 4] = ["left", "centre", "right", "full"];

/// Where groups stand, by their numbers from 2 on (NTCIP 1203 v03, object defaultJustificationPage).
pub(crate) const GROUPS: [&str; 3] = ["top", "middle", "bottom"];

/// The classic colours by their numbers (NTCIP 1203 v03, object dmsColorScheme).
pub(crate) const COLOURS: [&str; 10] = [
    "black", "red", "yellow", "green", "cyan", "blue", "magenta", "white", "orange", "amber",
];

/// How pixels of a sign of one colour are, by the numbers 0 and 1; those from 2 to 9 are lit too.
pub(crate) const LIGHTS: [&str; 2] = ["dark", "lit"];

/// A key: its name, what may stand there, and whether it must be there.
#[derive(Clone, Copy)]
pub(crate) struct Key(pub(crate) &'static str, pub(crate) Kind, pub(crate) bool);

const MUST: bool = true;

const MAY: bool = false;

/// The keys of a sign and of its message table.
pub(crate) static SIGN: [Key; 13] = [
    Key("width", Kind::Number(1, 1024), MUST),
    Key("height", Kind::Number(1, 128), MUST),
    Key("scheme", Kind::Word("monochrome", "classic"), MUST),
    Key("max_pages", Kind::Number(1, 255), MUST),
    Key("beacons", Kind::Truth, MAY),
    Key("pixel_service", Kind::Truth, MAY),
    Key("line_fill", Kind::Word("none", "words"), MAY),
    Key("slots", Kind::Number(1, 1000), MUST),
    Key("bytes", Kind::Number(0, 1_000_000), MUST),
    Key("max_string", Kind::Number(1, 4096), MUST),
    Key("defaults", Kind::Table, MUST),
    Key("font", Kind::Tables, MAY),
    Key("permanent", Kind::Tables, MAY),
];

/// The keys of `[defaults]`.
pub(crate) static DEFAULTS: [Key; 9] = [
    Key("font", Kind::Number(1, 255), MUST),
    Key("line", Kind::Named(2, &LINES), MUST),
    Key("page", Kind::Named(2, &GROUPS), MUST),
    Key("page_on", Kind::Number(0, 255), MUST),
    Key("page_off", Kind::Number(0, 255), MUST),
    Key("flash_on", Kind::Number(0, 255), MUST),
    Key("flash_off", Kind::Number(0, 255), MUST),
    Key("fore", Kind::Named(0, &COLOURS), MUST),
    Key("back", Kind::Named(0, &COLOURS), MUST),
];

/// The keys of `[[font]]`.
pub(crate) static FONT: [Key; 6] = [
    Key("number", Kind::Number(1, 255), MUST),
    Key("version", Kind::Number(0, 65535), MAY),
    Key("height", Kind::Number(1, 64), MUST),
    Key("char_spacing", Kind::Number(0, 255), MUST),
    Key("line_spacing", Kind::Number(0, 255), MUST),
    Key("cell", Kind::Tables, MAY),
];

/// The keys of a cell.
pub(crate) static CELL: [Key; 3] = [
    Key("number", Kind::Number(1, 65535), MUST),
    Key("width", Kind::Number(1, 64), MUST),
    Key("bits", Kind::Octets, MUST),
];

/// The keys of `[[permanent]]`.
pub(crate) static PERMANENT: [Key; 4] = [
    Key("multi", Kind::Text, MUST),
    Key("priority", Kind::Number(1, 255), MAY),
    Key("beacon", Kind::Number(0, 1), MAY),
    Key("pixel", Kind::Number(0, 1), MAY),
];
