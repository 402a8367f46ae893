//! What a sign is made from: the numbers of a sign file, as they were written.

/// A sign as it was written, before its limits are checked (own).
#[derive(Debug, Drop)]
pub struct SignParts {
    /// Columns, in pixels: 1 to 1,024.
    pub width: u16,
    /// Rows, in pixels: 1 to 128.
    pub height: u16,
    /// Whether the colours are those of the classic scheme (NTCIP 1203 v03, object dmsColorScheme). If not, the sign is
    /// monochrome.
    pub classic: bool,
    /// The largest number of pages of a message: 1 to 255 (NTCIP 1203 v03, object dmsMaxNumberPages).
    pub max_pages: u8,
    /// Whether the sign has beacons.
    pub beacons: bool,
    /// Whether the sign has a pixel service.
    pub pixel_service: bool,
    /// Whether the sign breaks lines that no longer fit between words.
    pub line_fill: LineFill,
    /// What holds unless a message says otherwise.
    pub defaults: Defaults,
    /// 1 to 16 fonts, whose numbers rise strictly.
    pub fonts: Vec<FontPart>,
}

/// Whether lines that no longer fit are broken between words. This is a setting of the sign, for which NTCIP 1203 v03 has no
/// object (own).
#[derive(Clone, Copy, Debug, PartialEq, Eq)]
pub enum LineFill {
    /// They aren't broken.
    Off,
    /// They are broken between words.
    Words,
}

/// A font as it was written (NTCIP 1203 v03, object fontTable).
#[derive(Debug, Drop)]
pub struct FontPart {
    /// The font's number: 1 to 255.
    pub number: u8,
    /// The font's version, any number; 0 if none is known (NTCIP 1203 v03, object fontVersionID).
    pub version: u16,
    /// Rows, in pixels: 1 to 64.
    pub height: u8,
    /// Columns between two characters, in pixels: 0 to 255.
    pub char_spacing: u8,
    /// Rows between two lines, in pixels: 0 to 255.
    pub line_spacing: u8,
    /// At most 255 cells, whose numbers rise strictly. A font may have none.
    pub cells: Vec<CellPart>,
}

/// A character's cell as it was written (NTCIP 1203 v03, object characterTable).
#[derive(Debug, Drop)]
pub struct CellPart {
    /// The character: 1 to 65,535.
    pub number: u16,
    /// Columns, in pixels: 1 to 64.
    pub width: u8,
    /// The pixels in rows from the top, each from the left, the highest bit of each octet first; the spare bits
    /// of the last octet are 0.
    pub bits: Vec<u8>,
}

/// What holds unless a message says otherwise (NTCIP 1203 v03, group multiCfg).
#[derive(Clone, Copy, Debug, PartialEq, Eq)]
pub struct Defaults {
    /// The number of a font of the sign.
    pub font: u8,
    /// The line justification: 2 to 5.
    pub line: u8,
    /// The page justification: 2 to 4.
    pub page: u8,
    /// How long a page is shown, in tenths of a second; 0 is not at all, unless the message has one page or a cycle of 0.
    pub page_on: u8,
    /// How long the sign is dark after a page, in tenths of a second; 0 is not at all.
    pub page_off: u8,
    /// How long flashing text is shown, in tenths of a second.
    pub flash_on: u8,
    /// How long flashing text is dark, in tenths of a second.
    pub flash_off: u8,
    /// The foreground colour: 0 to 9.
    pub fore: u8,
    /// The background colour: 0 to 9.
    pub back: u8,
}
