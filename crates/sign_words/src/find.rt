//! The faults that are found in a sign file, key by key.

use crate::code::Code;
use crate::findings::Findings;
use crate::keys::{Key, Kind, LIGHTS};
use crate::names::Home;
use crate::order::{look_at_count, look_at_order};
use crate::part::Part;
use crate::place::{Entry, Place};
use crate::unknown::{look_at_unknown, strays};
use std::alloc::AllocError;
use toml::{Table, Value};

/// Whether a value is a whole number from a first to a last.
fn is_from(value: &Value, first: i64, last: i64) -> bool {
    match value.as_integer() {
        Some(number) => first <= number && number <= last,
        None => false,
    }
}

/// Whether a text is hexadecimal digits.
pub(crate) fn is_hexadecimal(text: &str) -> bool {
    text.as_bytes()
        .iter()
        .all(|digit| digit.is_ascii_hexdigit())
}

/// Whether a value may stand at a key of this kind.
fn is_of(value: &Value, kind: Kind) -> bool {
    match kind {
        Kind::Number(low, high) => is_from(value, low, high),
        Kind::Named(first, names) => {
            let last = first.saturating_add(names.len() as i64).saturating_sub(1);
            is_from(value, first, last)
        }
        Kind::Light => is_from(value, 0, 9),
        Kind::Truth => value.is_bool(),
        Kind::Word(one, other) => match value.as_str() {
            Some(text) => text == one || text == other,
            None => false,
        },
        Kind::Text => value.is_str(),
        Kind::Octets => match value.as_str() {
            Some(text) => is_hexadecimal(text),
            None => false,
        },
        Kind::Table => value.is_table(),
        Kind::Tables => match value.as_array() {
            Some(array) => array.iter().all(|value| value.is_table()),
            None => false,
        },
    }
}

/// The number whose name a value is, at a key of this kind.
fn named(value: &Value, kind: Kind) -> Option<i64> {
    let (first, names) = match kind {
        Kind::Named(first, names) => (first, names),
        Kind::Light => (0, LIGHTS.as_slice()),
        _ => return None,
    };
    let text = value.as_str()?;
    let place = names.iter().position(|name| *name == text)?;
    Some(first.saturating_add(place as i64))
}

/// What is told of a value that may not stand at a key of this kind: a sentence, and the value or its type.
fn wrong(value: &Value, kind: Kind) -> (&'static str, Part<'_>) {
    let (number, text) = match kind {
        Kind::Number(_, _) => (value.as_integer(), None),
        Kind::Named(_, _) | Kind::Light => (value.as_integer(), value.as_str()),
        Kind::Word(_, _) | Kind::Octets => (None, value.as_str()),
        Kind::Truth | Kind::Text | Kind::Table | Kind::Tables => (None, None),
    };
    if let Some(number) = number {
        return ("@; it should be @", Part::Number(number));
    }
    match text {
        Some(text) => ("\"@\"; it should be @", Part::Excerpt(text)),
        None => ("found: @; it should be @", Part::Words(value.type_str())),
    }
}

/// The first entry of an array that is no table: its place, counted from 1, and its type.
fn first_other(value: &Value) -> Option<(usize, &str)> {
    let array = value.as_array()?;
    let place = array.iter().position(|entry| !entry.is_table())?;
    let entry = array.get(place)?;
    Some((place.saturating_add(1), entry.type_str()))
}

/// Looks at a value at a key of this name and kind.
fn look_at_value(
    found: &mut Findings,
    place: Place,
    name: &str,
    kind: Kind,
    value: &Value,
) -> Result<(), AllocError> {
    if is_of(value, kind) {
        return Ok(());
    }
    if let (Kind::Tables, Some((place_within, type_within))) = (kind, first_other(value)) {
        let told = "found: @ at place @; it should be @";
        let parts = [
            Part::Words(type_within),
            Part::Count(place_within),
            Part::Kind(kind),
        ];
        return found.fault(Code::WrongValue, place, name, told, &parts);
    }
    let (sentence, part) = wrong(value, kind);
    match (named(value, kind), kind) {
        (Some(number), _) => {
            let parts = [part, Part::Number(number)];
            found.fault(
                Code::WrongValue,
                place,
                name,
                "\"@\"; its number is @",
                &parts,
            )
        }
        (None, Kind::Tables) if value.is_table() && matches!(place, Place::Sign) => {
            let told = "one table; each stands under [[@]], with two brackets";
            found.fault(Code::WrongValue, place, name, told, &[Part::Words(name)])
        }
        (None, _) => {
            let parts = [part, Part::Kind(kind)];
            found.fault(Code::WrongValue, place, name, sentence, &parts)
        }
    }
}

/// What may stand at a key of this kind in a sign file: in one of a monochrome sign a colour is dark or lit.
fn kind_in(document: &Table, kind: Kind) -> Kind {
    match kind {
        Kind::Named(0, _) if text_at(document, "scheme") == Some("monochrome") => Kind::Light,
        _ => kind,
    }
}

/// Looks at a key of a table. A key of the sign isn't missing if it is told of where it stands in another table.
fn look_at_key(
    found: &mut Findings,
    document: &Table,
    place: Place,
    table: &Table,
    key: &Key,
) -> Result<(), AllocError> {
    let Key(name, kind, is_needed) = *key;
    let kind = kind_in(document, kind);
    if let Some(value) = table.get(name) {
        return look_at_value(found, place, name, kind, value);
    }
    if !is_needed || (matches!(place, Place::Sign) && strays(document, name)) {
        return Ok(());
    }
    let parts = [Part::Kind(kind)];
    found.fault(
        Code::Missing,
        place,
        name,
        "missing; it should be @",
        &parts,
    )
}

/// Looks at all keys of a table, and at those that aren't known.
fn look_at_table(
    found: &mut Findings,
    document: &Table,
    place: Place,
    table: &Table,
    home: Home,
) -> Result<(), AllocError> {
    for key in home.keys() {
        look_at_key(found, document, place, table, key)?;
    }
    for name in table.keys() {
        let name = name.as_str();
        if !home.has(name) {
            look_at_unknown(found, document, place, home, name)?;
        }
    }
    Ok(())
}

/// The table at a key.
pub(crate) fn table_at<'a>(table: &'a Table, name: &str) -> Option<&'a Table> {
    table.get(name)?.as_table()
}

/// The tables of the array at a key, as far as they are tables.
pub(crate) fn tables_at<'a>(table: &'a Table, name: &str) -> &'a [Value] {
    match table.get(name) {
        Some(value) => match value.as_array() {
            Some(array) => array,
            None => &[],
        },
        None => &[],
    }
}

/// The whole number at a key.
pub(crate) fn number_at(table: &Table, name: &str) -> Option<i64> {
    table.get(name)?.as_integer()
}

/// The text at a key.
pub(crate) fn text_at<'a>(table: &'a Table, name: &str) -> Option<&'a str> {
    table.get(name)?.as_str()
}

/// An entry of an array of tables.
pub(crate) fn entry(place: usize, table: &Table) -> Entry {
    Entry {
        place: place.saturating_add(1),
        number: number_at(table, "number"),
    }
}

/// Looks at a font and its cells.
fn look_at_font(
    found: &mut Findings,
    document: &Table,
    font: Entry,
    table: &Table,
) -> Result<(), AllocError> {
    let cells = tables_at(table, "cell");
    look_at_count(found, Place::Font(font), "cell", cells.len(), 255)?;
    look_at_table(found, document, Place::Font(font), table, Home::Font)?;
    for (place, value) in cells.iter().enumerate() {
        if let Some(cell) = value.as_table() {
            let at = Place::Cell(font, entry(place, cell));
            look_at_table(found, document, at, cell, Home::Cell)?;
        }
    }
    Ok(())
}

/// Looks at the fonts.
fn look_at_fonts(found: &mut Findings, document: &Table) -> Result<(), AllocError> {
    for (place, value) in tables_at(document, "font").iter().enumerate() {
        if let Some(font) = value.as_table() {
            look_at_font(found, document, entry(place, font), font)?;
        }
    }
    Ok(())
}

/// Looks at the permanent messages.
fn look_at_permanents(found: &mut Findings, document: &Table) -> Result<(), AllocError> {
    for (place, value) in tables_at(document, "permanent").iter().enumerate() {
        if let Some(message) = value.as_table() {
            let at = Place::Permanent(entry(place, message));
            look_at_table(found, document, at, message, Home::Permanent)?;
        }
    }
    Ok(())
}

/// Looks at all keys of a sign file. If there are too many of a thing, this is told before what is wrong with each.
pub(crate) fn look_at_file(found: &mut Findings, document: &Table) -> Result<(), AllocError> {
    let fonts = tables_at(document, "font").len();
    look_at_count(found, Place::Sign, "font", fonts, 16)?;
    let messages = tables_at(document, "permanent").len();
    look_at_count(found, Place::Sign, "permanent", messages, 255)?;
    look_at_table(found, document, Place::Sign, document, Home::Sign)?;
    if let Some(defaults) = table_at(document, "defaults") {
        look_at_table(found, document, Place::Defaults, defaults, Home::Defaults)?;
    }
    look_at_fonts(found, document)?;
    look_at_permanents(found, document)?;
    look_at_order(found, document)
}
