//! `signctl font`, which makes a font of a sign file from a font in BDF.

use crate::characters::{Characters, ranges_of};
use crate::source::{octet_of, word_of};
use clap::ArgMatches;
use std::alloc::{AllocError, Global};

/// What is done with a character that doesn't fit its cell (own).
#[derive(Clone, Copy)]
pub enum OutsideChoice {
    /// The font is refused.
    Refuse,
    /// The cell is widened.
    Widen,
    /// The pixels outside are cropped.
    Crop,
    /// The character is skipped.
    Skip,
}

/// The table of a font (own).
#[derive(Drop)]
pub struct FontRequest<'a> {
    /// The name of the file that is read, if not the input.
    pub file: Option<&'a str>,
    /// The font's number, 1 to 255.
    pub number: u8,
    /// The font's version.
    pub version: u16,
    /// Columns between characters, if the command line says how many.
    pub char_spacing: Option<u8>,
    /// The columns between characters that are written in place of these, if the command line says how many.
    pub written_spacing: Option<u8>,
    /// Rows between lines.
    pub line_spacing: u8,
    /// The characters that are taken.
    pub characters: Vec<Characters>,
    /// What is done with those that don't fit their cells.
    pub outside: OutsideChoice,
    /// Whether rows without a pixel at the top and at the bottom are taken off.
    pub crop: bool,
    /// How many rows there are at least, 1 to 64, if the command line says so.
    pub height: Option<u8>,
    /// Whether a font table of NTCIP 1203 is read. It says all of this itself.
    pub is_table: bool,
}

/// What is done with a character that doesn't fit its cell.
fn outside_of(font: &ArgMatches<'_>) -> OutsideChoice {
    match font.get_str("outside") {
        Some("refuse") => OutsideChoice::Refuse,
        Some("crop") => OutsideChoice::Crop,
        Some("skip") => OutsideChoice::Skip,
        _ => OutsideChoice::Widen,
    }
}

/// The characters that are taken, or `None` if the words name none.
fn characters_of(
    alloc: Global,
    font: &ArgMatches<'_>,
) -> Result<Option<Vec<Characters>>, AllocError> {
    if let Some(text) = font.get_str("characters") {
        return ranges_of(alloc, text);
    }
    let first = word_of(font, "first").unwrap_or(1);
    let last = word_of(font, "last").unwrap_or(65535);
    let mut ranges = Vec::new(alloc);
    ranges.push(Characters { first, last })?;
    Ok(Some(ranges))
}

/// The table that is asked for, or `None` if the words name no characters.
pub(crate) fn font_asked<'a>(
    alloc: Global,
    font: &ArgMatches<'a>,
) -> Result<Option<FontRequest<'a>>, AllocError> {
    let Some(characters) = characters_of(alloc, font)? else {
        return Ok(None);
    };
    Ok(Some(FontRequest {
        file: font.get_str("file"),
        number: octet_of(font, "number").unwrap_or(1),
        version: word_of(font, "version").unwrap_or(0),
        char_spacing: octet_of(font, "char-spacing"),
        written_spacing: octet_of(font, "spacing"),
        line_spacing: octet_of(font, "line-spacing").unwrap_or(1),
        characters,
        outside: outside_of(font),
        crop: font.get_flag("crop"),
        height: octet_of(font, "height"),
        is_table: font.get_flag("table"),
    }))
}
