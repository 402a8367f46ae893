//! The characters of a font as pictures.

use crate::cells::pixel;
use crate::part::{Part, tell};
use multi_token::Source;
use sign_font::{Cell, Sign};
use std::alloc::AllocError;

/// Writes a row of a cell, with `#` for each lit pixel.
fn draw_row(text: &mut String, cell: &Cell<'_>, row: usize) -> Result<(), AllocError> {
    let width = usize::from(cell.width());
    for column in 0..width {
        let place = row.saturating_mul(width).saturating_add(column);
        text.push(if pixel(cell, place) == 1 { '#' } else { '.' })?;
    }
    text.push('\n')
}

/// Writes the rows of a cell.
fn draw_cell(text: &mut String, cell: &Cell<'_>) -> Result<(), AllocError> {
    for row in 0..cell.rows().len() {
        draw_row(text, cell, row)?;
    }
    Ok(())
}

/// Writes a character: its number, its sign in ASCII if it has one, and its picture.
fn draw_character(text: &mut String, number: u16, cell: &Cell<'_>) -> Result<(), AllocError> {
    tell(text, "character @", &[Part::Number(i64::from(number))])?;
    if number > 32 && number < 127 {
        text.push(' ')?;
        text.push(char::from(number as u8))?;
    }
    let width = Part::Number(i64::from(cell.width()));
    tell(text, ", width @\n", &[width])?;
    draw_cell(text, cell)
}

/// Writes each character of a font, or that there is none.
pub(crate) fn draw_font(text: &mut String, sign: &Sign, font: u8) -> Result<(), AllocError> {
    let number = Part::Number(i64::from(font));
    let mut source = Source::new(b"");
    if sign.font(&mut source, font).is_none() {
        return tell(text, "font @: the sign has no such font\n", &[number]);
    }
    let mut is_empty = true;
    for character in 1..=65535u16 {
        if let Some(cell) = sign.cell(&mut source, font, character) {
            draw_character(text, character, &cell)?;
            is_empty = false;
        }
    }
    if is_empty {
        return tell(text, "font @: no characters\n", &[number]);
    }
    Ok(())
}
