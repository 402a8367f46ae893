//! The largest sign with the fonts and defaults of another, for how much room a message needs.

use message_words::{CharacterRun, FontCharacters, LARGE_COLUMNS, LARGE_ROWS};
use multi_token::Source;
use sign_font::{CellPart, FontInfo, FontPart, Sign, SignFault, SignParts};
use std::alloc::{AllocError, Global};

/// Adds a cell of a font, without a lit pixel: only the widths of cells are needed.
fn add_blank(
    cells: &mut Vec<CellPart>,
    alloc: Global,
    number: u16,
    width: u8,
    height: u8,
) -> Result<(), AllocError> {
    let pixels = usize::from(width) * usize::from(height);
    let bits = Vec::from_elem(alloc, 0, pixels.div_ceil(8))?;
    Ok(cells.push(CellPart {
        number,
        width,
        bits,
    })?)
}

/// Adds the blank cells of characters whose numbers follow one another.
fn add_run(
    cells: &mut Vec<CellPart>,
    alloc: Global,
    sign: &Sign,
    font: FontInfo,
    run: CharacterRun,
) -> Result<(), AllocError> {
    let mut source = Source::new(b"");
    for number in run.first..=run.last {
        let width = sign.cell_width(&mut source, font.number, number);
        add_blank(cells, alloc, number, width.unwrap_or(1), font.height)?;
    }
    Ok(())
}

/// The blank cells of a font.
fn blank_cells(
    alloc: Global,
    sign: &Sign,
    font: FontInfo,
    runs: &[CharacterRun],
) -> Result<Vec<CellPart>, AllocError> {
    let mut cells = Vec::new(alloc);
    for run in runs {
        add_run(&mut cells, alloc, sign, font, *run)?;
    }
    Ok(cells)
}

/// Adds a font of a sign, with blank cells.
fn add_font(
    fonts: &mut Vec<FontPart>,
    alloc: Global,
    sign: &Sign,
    font: FontInfo,
    runs: &[CharacterRun],
) -> Result<(), AllocError> {
    let cells = blank_cells(alloc, sign, font, runs)?;
    Ok(fonts.push(FontPart {
        number: font.number,
        version: font.version,
        height: font.height,
        char_spacing: font.char_spacing,
        line_spacing: font.line_spacing,
        cells,
    })?)
}

/// The fonts of a sign, with blank cells.
fn blank_fonts(
    alloc: Global,
    sign: &Sign,
    all: &[FontCharacters],
) -> Result<Vec<FontPart>, AllocError> {
    let mut source = Source::new(b"");
    let mut fonts = Vec::new(alloc);
    for characters in all {
        if let Some(font) = sign.font(&mut source, characters.font) {
            add_font(&mut fonts, alloc, sign, font, &characters.runs)?;
        }
    }
    Ok(fonts)
}

/// A sign with the most pixels and pages, and with the fonts and defaults of another, whose characters are these, or `None` if there is
/// none.
pub(crate) fn large_sign(
    alloc: Global,
    sign: &Sign,
    all: &[FontCharacters],
) -> Result<Option<Sign>, AllocError> {
    let fonts = blank_fonts(alloc, sign, all)?;
    let parts = SignParts {
        width: LARGE_COLUMNS,
        height: LARGE_ROWS,
        classic: sign.classic(),
        max_pages: 255,
        beacons: sign.beacons(),
        pixel_service: sign.pixel_service(),
        line_fill: sign.line_fill(),
        defaults: sign.defaults(),
        fonts,
    };
    match Sign::new(alloc, parts) {
        Ok(large) => Ok(Some(large)),
        Err(SignFault::Memory) => Err(AllocError),
        // It is within the limits that its pattern is within.
        Err(_) => Ok(None),
    }
}
