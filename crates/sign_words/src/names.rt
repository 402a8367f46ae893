//! Names that stand elsewhere for the keys of a sign file.

use crate::keys::{CELL, DEFAULTS, FONT, Key, PERMANENT, SIGN};

/// A table of a sign file, by the kind of its keys.
#[derive(Clone, Copy, PartialEq)]
pub(crate) enum Home {
    /// The document.
    Sign,
    /// `[defaults]`.
    Defaults,
    /// One of `[[font]]`.
    Font,
    /// A cell of a font.
    Cell,
    /// One of `[[permanent]]`.
    Permanent,
}

impl Home {
    /// Its keys.
    pub(crate) fn keys(self) -> &'static [Key] {
        match self {
            Home::Sign => &SIGN,
            Home::Defaults => &DEFAULTS,
            Home::Font => &FONT,
            Home::Cell => &CELL,
            Home::Permanent => &PERMANENT,
        }
    }

    /// Whether it has a key of this name.
    pub(crate) fn has(self, name: &str) -> bool {
        self.keys().iter().any(|key| key.0 == name)
    }

    /// Where its keys stand.
    pub(crate) fn place(self) -> &'static str {
        match self {
            Home::Sign => "before the first table",
            Home::Defaults => "in [defaults]",
            Home::Font => "in [[font]]",
            Home::Cell => "in a cell of a font",
            Home::Permanent => "in [[permanent]]",
        }
    }

    /// The other tables, in the order in which a key is looked for in them.
    fn others(self) -> [Home; 4] {
        match self {
            Home::Sign => [Home::Defaults, Home::Font, Home::Permanent, Home::Cell],
            Home::Defaults => [Home::Sign, Home::Font, Home::Permanent, Home::Cell],
            Home::Font => [Home::Cell, Home::Sign, Home::Defaults, Home::Permanent],
            Home::Cell => [Home::Font, Home::Sign, Home::Defaults, Home::Permanent],
            Home::Permanent => [Home::Sign, Home::Defaults, Home::Font, Home::Cell],
        }
    }

    /// The other table to which a key of this name belongs, if one has it.
    pub(crate) fn other_with(self, name: &str) -> Option<Home> {
        for home in self.others() {
            if home.has(name) {
                return Some(home);
            }
        }
        None
    }
}

/// A name that stands elsewhere for a key, that key, and its table.
#[derive(Clone, Copy)]
struct OtherName(&'static str, &'static str, Home);

/// The objects of NTCIP 1203 v03 and other names, small and capital letters alike.
const OTHER_NAMES: [OtherName; 89] = [
    OtherName("vmsSignWidthPixels", "width", Home::Sign),
    OtherName("vmsSignHeightPixels", "height", Home::Sign),
    OtherName("dmsColorScheme", "scheme", Home::Sign),
    OtherName("dmsMaxNumberPages", "max_pages", Home::Sign),
    OtherName("dmsMaxChangeableMsg", "slots", Home::Sign),
    OtherName("dmsMaxMultiStringLength", "max_string", Home::Sign),
    OtherName("fontTable", "font", Home::Sign),
    OtherName("dmsNumPermanentMsg", "permanent", Home::Sign),
    OtherName("defaultFont", "font", Home::Defaults),
    OtherName("defaultJustificationLine", "line", Home::Defaults),
    OtherName("defaultJustificationPage", "page", Home::Defaults),
    OtherName("defaultPageOnTime", "page_on", Home::Defaults),
    OtherName("defaultPageOffTime", "page_off", Home::Defaults),
    OtherName("defaultFlashOn", "flash_on", Home::Defaults),
    OtherName("defaultFlashOff", "flash_off", Home::Defaults),
    OtherName("defaultForegroundColor", "fore", Home::Defaults),
    OtherName("defaultBackgroundColor", "back", Home::Defaults),
    OtherName("fontNumber", "number", Home::Font),
    OtherName("fontIndex", "number", Home::Font),
    OtherName("fontVersionID", "version", Home::Font),
    OtherName("fontHeight", "height", Home::Font),
    OtherName("fontCharSpacing", "char_spacing", Home::Font),
    OtherName("fontLineSpacing", "line_spacing", Home::Font),
    OtherName("characterTable", "cell", Home::Font),
    OtherName("characterNumber", "number", Home::Cell),
    OtherName("characterWidth", "width", Home::Cell),
    OtherName("characterBitmap", "bits", Home::Cell),
    OtherName("dmsMessageMultiString", "multi", Home::Permanent),
    OtherName("dmsMessageRunTimePriority", "priority", Home::Permanent),
    OtherName("dmsMessageBeacon", "beacon", Home::Permanent),
    OtherName("dmsMessagePixelService", "pixel", Home::Permanent),
    OtherName("columns", "width", Home::Sign),
    OtherName("rows", "height", Home::Sign),
    OtherName("colours", "scheme", Home::Sign),
    OtherName("colors", "scheme", Home::Sign),
    OtherName("foreground", "fore", Home::Defaults),
    OtherName("background", "back", Home::Defaults),
    OtherName("characters", "cell", Home::Font),
    OtherName("code", "number", Home::Cell),
    OtherName("bitmap", "bits", Home::Cell),
    OtherName("text", "multi", Home::Permanent),
    OtherName("message", "multi", Home::Permanent),
    OtherName("messages", "permanent", Home::Sign),
    OtherName("message", "permanent", Home::Sign),
    OtherName("justification_line", "line", Home::Defaults),
    OtherName("justification_page", "page", Home::Defaults),
    OtherName("rows", "height", Home::Font),
    OtherName("spacing", "char_spacing", Home::Font),
    OtherName("columns", "width", Home::Cell),
    OtherName("char", "number", Home::Cell),
    OtherName("dmsFreeChangeableMemory", "bytes", Home::Sign),
    OtherName("dmsBeaconType", "beacons", Home::Sign),
    OtherName("width_pixels", "width", Home::Sign),
    OtherName("height_pixels", "height", Home::Sign),
    OtherName("colour", "scheme", Home::Sign),
    OtherName("color", "scheme", Home::Sign),
    OtherName("pages", "max_pages", Home::Sign),
    OtherName("max_messages", "slots", Home::Sign),
    OtherName("memory", "bytes", Home::Sign),
    OtherName("max_length", "max_string", Home::Sign),
    OtherName("max_multi", "max_string", Home::Sign),
    OtherName("default_font", "font", Home::Defaults),
    OtherName("justification", "line", Home::Defaults),
    OtherName("align", "line", Home::Defaults),
    OtherName("halign", "line", Home::Defaults),
    OtherName("valign", "page", Home::Defaults),
    OtherName("on_time", "page_on", Home::Defaults),
    OtherName("off_time", "page_off", Home::Defaults),
    OtherName("colour", "fore", Home::Defaults),
    OtherName("color", "fore", Home::Defaults),
    OtherName("fg", "fore", Home::Defaults),
    OtherName("bg", "back", Home::Defaults),
    OtherName("id", "number", Home::Font),
    OtherName("index", "number", Home::Font),
    OtherName("letter_spacing", "char_spacing", Home::Font),
    OtherName("row_spacing", "line_spacing", Home::Font),
    OtherName("leading", "line_spacing", Home::Font),
    OtherName("chars", "cell", Home::Font),
    OtherName("character", "cell", Home::Font),
    OtherName("glyphs", "cell", Home::Font),
    OtherName("glyph", "cell", Home::Font),
    OtherName("codepoint", "number", Home::Cell),
    OtherName("encoding", "number", Home::Cell),
    OtherName("data", "bits", Home::Cell),
    OtherName("pixels", "bits", Home::Cell),
    OtherName("content", "multi", Home::Permanent),
    OtherName("string", "multi", Home::Permanent),
    OtherName("msg", "multi", Home::Permanent),
    OtherName("prio", "priority", Home::Permanent),
];

/// The key for which a name stands elsewhere, with its table. If two have it, it is that of the table `home`.
pub(crate) fn key_named(home: Home, name: &str) -> Option<(&'static str, Home)> {
    let mut found = None;
    for OtherName(other, key, table) in &OTHER_NAMES {
        let is_it = other.as_bytes().eq_ignore_ascii_case(name.as_bytes());
        if is_it && (found.is_none() || *table == home) {
            found = Some((*key, *table));
        }
    }
    found
}
