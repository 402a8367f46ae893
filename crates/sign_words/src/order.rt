//! What the keys of a sign file owe to each other.

use crate::bits::look_at_bits;
use crate::code::Code;
use crate::find::{entry, number_at, table_at, tables_at, text_at};
use crate::findings::Findings;
use crate::meant::look_at_meaning;
use crate::part::Part;
use crate::place::{Entry, Place};
use std::alloc::AllocError;
use toml::{Table, Value};

/// Looks whether a number rises after the one before it. The answer is the last number.
fn look_at_number(
    found: &mut Findings,
    at: Place,
    last: Option<i64>,
    entry: Entry,
) -> Result<Option<i64>, AllocError> {
    let Some(number) = entry.number else {
        return Ok(last);
    };
    if let Some(last) = last {
        if number <= last {
            let told = "the numbers must rise, and the one before is @";
            found.fault(Code::NotRising, at, "number", told, &[Part::Number(last)])?;
        }
    }
    Ok(Some(number))
}

/// Looks whether there are at most so many entries at a key.
pub(crate) fn look_at_count(
    found: &mut Findings,
    at: Place,
    key: &str,
    count: usize,
    most: usize,
) -> Result<(), AllocError> {
    if count <= most {
        return Ok(());
    }
    let parts = [Part::Count(count), Part::Count(most)];
    found.fault(Code::TooMany, at, key, "@ of at most @", &parts)
}

/// Looks at the order of a font's cells, and at their digits.
fn look_at_cells(found: &mut Findings, font: Entry, table: &Table) -> Result<(), AllocError> {
    let height = number_at(table, "height").unwrap_or(0);
    let mut last = None;
    for (place, value) in tables_at(table, "cell").iter().enumerate() {
        if let Some(cell) = value.as_table() {
            let cell_entry = entry(place, cell);
            let at = Place::Cell(font, cell_entry);
            look_at_bits(found, at, cell, height)?;
            last = look_at_number(found, at, last, cell_entry)?;
        }
    }
    Ok(())
}

/// Looks at the order of the fonts.
fn look_at_fonts(found: &mut Findings, table: &Table) -> Result<(), AllocError> {
    let mut last = None;
    for (place, value) in tables_at(table, "font").iter().enumerate() {
        if let Some(font) = value.as_table() {
            let font_entry = entry(place, font);
            look_at_cells(found, font_entry, font)?;
            last = look_at_number(found, Place::Font(font_entry), last, font_entry)?;
        }
    }
    Ok(())
}

/// Whether a sign file has no fonts: its key is missing, or an empty array.
fn has_no_fonts(table: &Table) -> bool {
    match table.get("font") {
        Some(value) => value.is_array() && tables_at(table, "font").is_empty(),
        None => true,
    }
}

/// Whether a font has this number, or one of which something is told.
fn may_have(value: &Value, number: i64) -> bool {
    let Some(font) = value.as_table() else {
        return true;
    };
    match number_at(font, "number") {
        Some(own) => own == number || !(1..=255).contains(&own),
        None => true,
    }
}

/// Looks whether there is a font, and one with the number of the default font. Nothing is told of that number if the fonts or their
/// numbers are told of.
fn look_at_default(found: &mut Findings, table: &Table) -> Result<(), AllocError> {
    if has_no_fonts(table) {
        let told = "there must be 1 to 16 fonts, each under [[font]]";
        return found.fault(Code::NoFont, Place::Sign, "font", told, &[]);
    }
    let Some(defaults) = table_at(table, "defaults") else {
        return Ok(());
    };
    let Some(number) = number_at(defaults, "font") else {
        return Ok(());
    };
    let fonts = tables_at(table, "font");
    if fonts.is_empty() || fonts.iter().any(|font| may_have(font, number)) {
        return Ok(());
    }
    let told = "no font has the number @";
    let parts = [Part::Number(number)];
    found.fault(Code::NoFont, Place::Defaults, "font", told, &parts)
}

/// How many octets a text may have: those of the key, if it is within its limits.
fn most_octets(table: &Table) -> usize {
    match number_at(table, "max_string") {
        Some(most) if (1..=4096).contains(&most) => usize::try_from(most).unwrap_or(4096),
        _ => 4096,
    }
}

/// Looks at the octets of the texts of the permanent messages.
fn look_at_lengths(found: &mut Findings, table: &Table) -> Result<(), AllocError> {
    let most = most_octets(table);
    for (place, value) in tables_at(table, "permanent").iter().enumerate() {
        let Some(message) = value.as_table() else {
            continue;
        };
        let octets = text_at(message, "multi").unwrap_or("").len();
        if octets > most {
            let at = Place::Permanent(entry(place, message));
            let parts = [Part::Count(octets), Part::Count(most)];
            let told = "has @ octets; max_string is @";
            found.fault(Code::TooLong, at, "multi", told, &parts)?;
        }
    }
    Ok(())
}

/// Looks at what the keys of a sign file owe to each other.
pub(crate) fn look_at_order(found: &mut Findings, table: &Table) -> Result<(), AllocError> {
    look_at_fonts(found, table)?;
    look_at_default(found, table)?;
    look_at_lengths(found, table)?;
    look_at_meaning(found, table)
}
