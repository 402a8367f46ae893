//! What may not be meant by the permanent messages.

use crate::code::Code;
use crate::find::{entry, number_at, tables_at, text_at};
use crate::findings::Findings;
use crate::part::Part;
use crate::place::Place;
use std::alloc::AllocError;
use toml::{Table, Value};

/// How many permanent messages a sign may have.
const MOST: usize = 255;

/// Whether a key is true, if it is one of the two.
fn truth_at(table: &Table, name: &str) -> Option<bool> {
    table.get(name)?.as_bool()
}

/// Looks whether a permanent message asks for what the sign hasn't.
fn look_at_service(
    found: &mut Findings,
    table: &Table,
    sign_key: &str,
    message_key: &str,
    told: &str,
) -> Result<(), AllocError> {
    if let Some(true) = truth_at(table, sign_key) {
        return Ok(());
    }
    for (place, value) in tables_at(table, "permanent").iter().enumerate() {
        let Some(message) = value.as_table() else {
            continue;
        };
        if number_at(message, message_key) == Some(1) {
            let at = Place::Permanent(entry(place, message));
            found.warn(Code::NoService, at, message_key, told, &[])?;
        }
    }
    Ok(())
}

/// Whether two permanent messages show the same.
fn are_alike(one: &Value, other: &Value) -> bool {
    let (Some(one), Some(other)) = (one.as_table(), other.as_table()) else {
        return false;
    };
    let texts = (text_at(one, "multi"), text_at(other, "multi"));
    let (Some(text), Some(known)) = texts else {
        return false;
    };
    text == known
        && number_at(one, "beacon").unwrap_or(0) == number_at(other, "beacon").unwrap_or(0)
        && number_at(one, "pixel").unwrap_or(0) == number_at(other, "pixel").unwrap_or(0)
}

/// Looks whether a permanent message is as one of those before it.
fn look_at_alike(
    found: &mut Findings,
    before: &[Value],
    message: &Value,
    at: Place,
) -> Result<(), AllocError> {
    match before.iter().position(|other| are_alike(other, message)) {
        Some(place) => {
            let parts = [Part::Count(place.saturating_add(1))];
            let told = "the same as permanent message @";
            found.warn(Code::Alike, at, "multi", told, &parts)
        }
        None => Ok(()),
    }
}

/// Whether a text has a line feed, or a backslash and an `n`.
fn has_line_feed(text: &str) -> bool {
    let mut before = 0;
    for octet in text.as_bytes() {
        if *octet == b'\n' || (*octet == b'n' && before == b'\\') {
            return true;
        }
        before = *octet;
    }
    false
}

/// Looks at each permanent message.
fn look_at_each(found: &mut Findings, messages: &[Value]) -> Result<(), AllocError> {
    for (place, value) in messages.iter().take(MOST).enumerate() {
        let Some(message) = value.as_table() else {
            continue;
        };
        let at = Place::Permanent(entry(place, message));
        if has_line_feed(text_at(message, "multi").unwrap_or("")) {
            let told = "has a line feed, \\n, which is [nl] in MULTI";
            found.warn(Code::LineFeed, at, "multi", told, &[])?;
        }
        look_at_alike(found, messages.get(..place).unwrap_or(&[]), value, at)?;
    }
    Ok(())
}

/// Looks at the permanent messages of a sign file.
pub(crate) fn look_at_messages(found: &mut Findings, table: &Table) -> Result<(), AllocError> {
    let beacons = "asks for beacons, and the sign has none";
    look_at_service(found, table, "beacons", "beacon", beacons)?;
    let pixels = "asks for pixel service, and the sign has none";
    look_at_service(found, table, "pixel_service", "pixel", pixels)?;
    look_at_each(found, tables_at(table, "permanent"))
}
