//! What a font in BDF doesn't say, and what is taken of it.

ghost use Rattle.std.specs.Prelude.{◌≡◌};
ghost use Rattle.font_bdf.specs.Chosen.{chosen, has, is_chosen, spacing_of, spacing_written};

use crate::numbers::within;

/// What is done with a character that doesn't fit its cell: it lights a pixel outside, or its cell isn't 1 to 64 columns wide (own).
#[derive(Clone, Copy)]
pub enum Outside {
    /// The font isn't taken.
    Refuse,
    /// The cell gets the columns of the character's box too, to its left and to its right. The font isn't taken if the character
    /// still doesn't fit.
    Widen,
    /// The pixels outside the cell are left out. The font isn't taken if the cell isn't 1 to 64 columns wide.
    Crop,
    /// The character is left out.
    Skip,
}

/// Characters from a lowest to a highest (own).
#[derive(Clone, Copy)]
pub struct CharacterRange {
    /// The lowest number.
    pub first: u16,
    /// The highest number.
    pub last: u16,
}

/// What a sign file says of a font and BDF doesn't, and what is taken of the font (own).
#[derive(Clone, Copy)]
pub struct FontSetting<'a> {
    /// The font's number: 1 to 255.
    pub number: u8,
    /// The font's version, any number; 0 if none is known.
    pub version: u16,
    /// Columns between two characters, in pixels: 0 to 255. Each cell is narrower by as much than its character's advance. `None`
    /// is 1 if each character fits its cell so, and 0 if one doesn't.
    pub char_spacing: Option<u8>,
    /// The columns between two characters that are written in place of these, 0 to 255. It changes no cell. `None` writes those by
    /// which each cell is narrower.
    pub written_spacing: Option<u8>,
    /// Rows between two lines, in pixels: 0 to 255.
    pub line_spacing: u8,
    /// Which characters are taken, of those from 1 to 65,535.
    pub characters: &'a [CharacterRange],
    /// What is done with a character that doesn't fit its cell.
    pub outside: Outside,
    /// Whether the rows at the top and at the bottom are taken off in which no cell has a pixel.
    pub crop: bool,
    /// The rows of each cell, 1 to 64, at least those of the font. Rows without pixels are added, half of them above, or the
    /// smaller part. `None` adds none.
    pub height: Option<u8>,
}

/// Whether a range has a number.
fn has(range: CharacterRange, number: u16) -> bool
    ensures { result ≡ has range number }
{
    range.first <= number && number <= range.last
}

/// Whether one of these ranges has a number.
fn is_chosen(ranges: &[CharacterRange], number: u16) -> bool
    ensures { result ≡ is_chosen ranges.now number }
{
    ranges.iter().any(|range| has(*range, number))
}

/// The number of a character, where it is taken.
#[tactic(auto, unfolding(crate::specs::Chosen::chosen))]
pub(crate) fn chosen(setting: &FontSetting<'_>, number: i64) -> Option<u16>
    ensures { result ≡ chosen setting.now number }
{
    let number = within(1, 65535, number)?;
    if is_chosen(setting.characters, number) {
        Some(number)
    } else {
        None
    }
}

/// By how many columns each cell is narrower than its character's advance.
pub(crate) fn spacing_of(setting: &FontSetting<'_>) -> u8
    ensures { result ≡ spacing_of setting.now }
{
    setting.char_spacing.unwrap_or(0)
}

/// Columns between two characters that are written.
pub(crate) fn spacing_written(setting: &FontSetting<'_>) -> u8
    ensures { result ≡ spacing_written setting.now }
{
    match setting.written_spacing {
        Some(columns) => columns,
        None => spacing_of(setting),
    }
}
