//! What is told of a font beside its table: the characters that didn't fit their cells, and the rows that none of them uses.

use crate::cells::number_taken;
use crate::fault::BdfProblem;
use crate::read::read_font;
use crate::rows::dark_rows;
use crate::setting::{FontSetting, Outside};
use crate::words::{begins, lines_of};
use sign_font::{CellPart, FontPart};
use std::alloc::{AllocError, Global};

/// What was done with the characters that didn't fit.
pub(crate) fn word_of(outside: Outside) -> &'static str {
    match outside {
        Outside::Refuse => "refused",
        Outside::Widen => "widened",
        Outside::Crop => "cropped",
        Outside::Skip => "left out",
    }
}

/// The rows at the top and at the bottom of the cells in which no character has a pixel, if these could be taken off.
pub(crate) fn unused_rows(setting: &FontSetting<'_>, font: &FontPart) -> (u8, u8) {
    if setting.crop || setting.height.is_some() {
        return (0, 0);
    }
    let above = dark_rows(&font.cells, font.height, false);
    if above == font.height {
        return (0, 0);
    }
    (above, dark_rows(&font.cells, font.height, true))
}

/// The font by another setting, if it is one. The error says that memory was refused.
fn font_by(
    alloc: Global,
    octets: &[u8],
    setting: &FontSetting<'_>,
) -> Result<Option<FontPart>, AllocError> {
    match read_font(alloc, octets, setting) {
        Ok(font) => Ok(Some(font)),
        Err(fault) => match fault.problem {
            BdfProblem::Memory => Err(AllocError),
            _ => Ok(None),
        },
    }
}

/// By how many columns each cell of the font is narrower than its character's advance. The error says that memory was refused.
fn narrower(
    alloc: Global,
    octets: &[u8],
    setting: &FontSetting<'_>,
    font: &FontPart,
) -> Result<u8, AllocError> {
    if let Some(told) = setting.char_spacing {
        return Ok(told);
    }
    if setting.written_spacing.is_none() {
        return Ok(font.char_spacing);
    }
    let unwritten = FontSetting {
        written_spacing: None,
        ..*setting
    };
    match font_by(alloc, octets, &unwritten)? {
        Some(font) => Ok(font.char_spacing),
        None => Ok(0),
    }
}

/// The cells of the characters that fit cells which are narrower than their advances by so many columns. The error says that memory was
/// refused.
fn fitting_cells(
    alloc: Global,
    octets: &[u8],
    setting: &FontSetting<'_>,
    columns: u8,
) -> Result<Vec<CellPart>, AllocError> {
    let fitting = FontSetting {
        char_spacing: Some(columns),
        outside: Outside::Skip,
        ..*setting
    };
    match font_by(alloc, octets, &fitting)? {
        Some(font) => Ok(font.cells),
        None => Ok(Vec::new(alloc)),
    }
}

/// The numbers of the characters that didn't fit their cells in this font. The error says that memory was refused.
pub(crate) fn not_fitting(
    alloc: Global,
    octets: &[u8],
    setting: &FontSetting<'_>,
    font: &FontPart,
) -> Result<Vec<u16>, AllocError> {
    let mut numbers = Vec::new(alloc);
    if matches!(setting.outside, Outside::Refuse) {
        return Ok(numbers);
    }
    let columns = narrower(alloc, octets, setting, font)?;
    if setting.char_spacing.is_none() && columns == 1 {
        // each character fits such cells
        return Ok(numbers);
    }
    let cells = fitting_cells(alloc, octets, setting, columns)?;
    let lines = lines_of(alloc, octets)?;
    for block in lines.split(|line| begins(line, b"STARTCHAR")) {
        if let Some(number) = number_taken(setting, block) {
            if !cells.iter().any(|cell| cell.number == number) {
                numbers.push(number)?;
            }
        }
    }
    Ok(numbers)
}
