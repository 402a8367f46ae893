//! Keys that aren't known in their table.

use crate::code::Code;
use crate::find::{table_at, tables_at};
use crate::findings::Findings;
use crate::keys::{Key, SIGN};
use crate::names::{Home, key_named};
use crate::part::Part;
use crate::place::Place;
use std::alloc::{AllocError, Global};
use strsim::levenshtein;
use toml::{Table, Value};

/// Whether a table has a key that belongs to the sign.
fn strays_in(value: &Value, home: Home, name: &str) -> bool {
    let Some(table) = value.as_table() else {
        return false;
    };
    !home.has(name) && home.other_with(name) == Some(Home::Sign) && table.get(name).is_some()
}

/// Whether one of the cells of a font has such a key.
fn strays_in_cells(value: &Value, name: &str) -> bool {
    let Some(font) = value.as_table() else {
        return false;
    };
    tables_at(font, "cell")
        .iter()
        .any(|cell| strays_in(cell, Home::Cell, name))
}

/// Whether a key of the sign stands in another table of a sign file.
pub(crate) fn strays(document: &Table, name: &str) -> bool {
    let of_defaults = match document.get("defaults") {
        Some(defaults) => strays_in(defaults, Home::Defaults, name),
        None => false,
    };
    let fonts = tables_at(document, "font");
    of_defaults
        || fonts.iter().any(|font| strays_in(font, Home::Font, name))
        || fonts.iter().any(|font| strays_in_cells(font, name))
        || tables_at(document, "permanent")
            .iter()
            .any(|message| strays_in(message, Home::Permanent, name))
}

/// Whether a sign file lacks a key of the sign that it must have.
fn lacks(document: &Table, name: &str) -> bool {
    SIGN.iter().any(|key| key.0 == name && key.2) && document.get(name).is_none()
}

/// The key whose name has the fewest changes from this one, if they are at most half its octets.
fn nearest(alloc: Global, name: &str, keys: &[Key]) -> Result<Option<&'static str>, AllocError> {
    let mut nearest = None;
    let mut least = name.len() / 2 + 1;
    for Key(key, _, _) in keys {
        let Ok(changes) = levenshtein(alloc, name, key) else {
            return Err(AllocError);
        };
        if changes < least {
            nearest = Some(*key);
            least = changes;
        }
    }
    Ok(nearest)
}

/// Tells of a key that belongs to another table. It is a fault if the sign has to have it, and lacks it.
fn tell_misplaced(
    found: &mut Findings,
    document: &Table,
    place: Place,
    name: &str,
    home: Home,
) -> Result<(), AllocError> {
    let parts = [Part::Words(home.place())];
    if home == Home::Sign && lacks(document, name) {
        return found.fault(Code::Misplaced, place, name, "belongs @", &parts);
    }
    found.warn(
        Code::Misplaced,
        place,
        name,
        "not known here; it belongs @",
        &parts,
    )
}

/// Tells of a name that stands elsewhere for a key.
fn tell_named(
    found: &mut Findings,
    place: Place,
    name: &str,
    key: &'static str,
    home: Option<Home>,
) -> Result<(), AllocError> {
    let told = "not known; its key is @ @";
    match home {
        Some(home) => {
            let parts = [Part::Words(key), Part::Words(home.place())];
            found.warn(Code::Unknown, place, name, told, &parts)
        }
        None => {
            let parts = [Part::Words(key)];
            found.warn(
                Code::Unknown,
                place,
                name,
                "not known; its key is @",
                &parts,
            )
        }
    }
}

/// Tells of a name that is no other key, with the nearest one.
fn tell_unknown(
    found: &mut Findings,
    place: Place,
    name: &str,
    keys: &[Key],
) -> Result<(), AllocError> {
    match nearest(found.alloc, name, keys)? {
        Some(nearest) => {
            let parts = [Part::Words(nearest)];
            let told = "not known; the nearest key is @";
            found.warn(Code::Unknown, place, name, told, &parts)
        }
        None => found.warn(Code::Unknown, place, name, "not known", &[]),
    }
}

/// Whether a name is a key of the sign, and of no other table.
fn is_of_sign_alone(name: &str) -> bool {
    Home::Sign.has(name) && Home::Sign.other_with(name).is_none()
}

/// Whether a value is a table of its own for keys of the sign.
fn has_sign_keys(document: &Table, name: &str) -> bool {
    let Some(table) = table_at(document, name) else {
        return false;
    };
    table.keys().any(|key| is_of_sign_alone(key.as_str()))
}

/// What is told of the number of a permanent message.
const NUMBERED: &str = "not known; permanent messages are numbered as they stand, from 1";

/// Tells of a key of a table that isn't known there.
pub(crate) fn look_at_unknown(
    found: &mut Findings,
    document: &Table,
    place: Place,
    home: Home,
    name: &str,
) -> Result<(), AllocError> {
    if home == Home::Permanent && (name == "number" || name == "id" || name == "index") {
        return found.warn(Code::Unknown, place, name, NUMBERED, &[]);
    }
    if let Some(other) = home.other_with(name) {
        return tell_misplaced(found, document, place, name, other);
    }
    if let Some((key, table)) = key_named(home, name) {
        let other = if table == home { None } else { Some(table) };
        return tell_named(found, place, name, key, other);
    }
    if home == Home::Sign && has_sign_keys(document, name) {
        let told = "not known; its keys belong before the first table";
        return found.warn(Code::Misplaced, place, name, told, &[]);
    }
    tell_unknown(found, place, name, home.keys())
}
