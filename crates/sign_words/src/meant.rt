//! What a sign takes, and its maker may not have meant.

use crate::code::Code;
use crate::find::{entry, number_at, table_at, tables_at, text_at};
use crate::findings::Findings;
use crate::part::Part;
use crate::permanents::look_at_messages;
use crate::place::{Entry, Place};
use std::alloc::AllocError;
use toml::Table;

/// How a colour looks: on a sign of one colour a pixel is lit or dark.
fn look_of(table: &Table, colour: i64) -> i64 {
    match text_at(table, "scheme") {
        Some("monochrome") => colour.min(1),
        _ => colour,
    }
}

/// Looks whether text in the default colours can be seen.
fn look_at_colours(
    found: &mut Findings,
    table: &Table,
    defaults: &Table,
) -> Result<(), AllocError> {
    let (Some(fore), Some(back)) = (number_at(defaults, "fore"), number_at(defaults, "back")) else {
        return Ok(());
    };
    if look_of(table, fore) != look_of(table, back) {
        return Ok(());
    }
    let told = "looks as the background does: text in the default colours can't be seen";
    found.warn(Code::SameColour, Place::Defaults, "fore", told, &[])
}

/// Looks whether pages are shown for some time, and whether flashing text flashes.
fn look_at_times(found: &mut Findings, defaults: &Table) -> Result<(), AllocError> {
    if number_at(defaults, "page_on") == Some(0) {
        let told =
            "0; a page that has no other time isn't shown, unless all times of its message are 0";
        found.warn(Code::NoTime, Place::Defaults, "page_on", told, &[])?;
    }
    let flash_off = number_at(defaults, "flash_off");
    if number_at(defaults, "flash_on") == Some(0) && flash_off == Some(0) {
        let told = "0, as flash_off is: text that has no other times doesn't flash";
        found.warn(Code::NoTime, Place::Defaults, "flash_on", told, &[])?;
    }
    Ok(())
}

/// Looks whether the longest message can be stored.
fn look_at_bytes(found: &mut Findings, table: &Table) -> Result<(), AllocError> {
    let (Some(bytes), Some(most)) = (number_at(table, "bytes"), number_at(table, "max_string"))
    else {
        return Ok(());
    };
    if bytes >= most {
        return Ok(());
    }
    let told = "@; a message may have @ octets, and one with so many is never stored";
    let parts = [Part::Number(bytes), Part::Number(most)];
    found.warn(Code::FewBytes, Place::Sign, "bytes", told, &parts)
}

/// Looks at the characters of the default font.
fn look_at_characters(found: &mut Findings, font: Entry, table: &Table) -> Result<(), AllocError> {
    let cells = tables_at(table, "cell");
    let at = Place::Font(font);
    if cells.is_empty() {
        let told = "no characters; text begins in this font";
        return found.warn(Code::EmptyFont, at, "cell", told, &[]);
    }
    for value in cells {
        if let Some(cell) = value.as_table() {
            if number_at(cell, "number") == Some(32) {
                return Ok(());
            }
        }
    }
    let told = "no character 32, the space; text begins in this font";
    found.warn(Code::NoSpace, at, "cell", told, &[])
}

/// Looks at a font in which text begins.
fn look_at_default_font(
    found: &mut Findings,
    sign: &Table,
    font: Entry,
    table: &Table,
) -> Result<(), AllocError> {
    look_at_characters(found, font, table)?;
    let (Some(rows), Some(height)) = (number_at(sign, "height"), number_at(table, "height")) else {
        return Ok(());
    };
    if height <= rows || height > 64 || rows < 1 {
        return Ok(());
    }
    let told = "@; the sign has @ rows, and text begins in this font";
    let parts = [Part::Number(height), Part::Number(rows)];
    found.warn(Code::TallFont, Place::Font(font), "height", told, &parts)
}

/// Looks at each font with the number of the default font.
fn look_at_default_fonts(
    found: &mut Findings,
    table: &Table,
    defaults: &Table,
) -> Result<(), AllocError> {
    let Some(number) = number_at(defaults, "font") else {
        return Ok(());
    };
    for (place, value) in tables_at(table, "font").iter().enumerate() {
        let Some(font) = value.as_table() else {
            continue;
        };
        if number_at(font, "number") == Some(number) {
            look_at_default_font(found, table, entry(place, font), font)?;
        }
    }
    Ok(())
}

/// Looks for what the maker of a sign file may not have meant.
pub(crate) fn look_at_meaning(found: &mut Findings, table: &Table) -> Result<(), AllocError> {
    if let Some(defaults) = table_at(table, "defaults") {
        look_at_default_fonts(found, table, defaults)?;
        look_at_times(found, defaults)?;
        look_at_colours(found, table, defaults)?;
    }
    look_at_bytes(found, table)?;
    look_at_messages(found, table)
}
