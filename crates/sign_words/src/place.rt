//! Where something stands in a sign file.

ghost use Rattle.std.specs.Prelude.{◌≡◌, ◌++◌, OnOk, string_bytes};
ghost use Rattle.sign_words.specs.Names.{entry_text, place_text};

use crate::address::{Address, TableKind};
use crate::told::{push_count, push_signed, push_text};
use std::alloc::AllocError;

/// An entry of an array of tables: its place, counted from 1, and its number, if it has one.
#[derive(Clone, Copy)]
pub(crate) struct Entry {
    pub(crate) place: usize,
    pub(crate) number: Option<i64>,
}

/// A table of a sign file.
#[derive(Clone, Copy)]
pub(crate) enum Place {
    /// None: the text itself.
    Text,
    /// The document.
    Sign,
    /// `[defaults]`.
    Defaults,
    /// One of `[[font]]`.
    Font(Entry),
    /// A cell of a font.
    Cell(Entry, Entry),
    /// One of `[[permanent]]`.
    Permanent(Entry),
}

/// The address of an entry.
fn entry_at(kind: TableKind, entry: usize, cell: usize) -> Address {
    Address { kind, entry, cell }
}

impl Place {
    /// Where it stands, as the text is read.
    pub(crate) fn address(self) -> Address {
        match self {
            Place::Text => Address::of(TableKind::Other),
            Place::Sign => Address::of(TableKind::Sign),
            Place::Defaults => Address::of(TableKind::Defaults),
            Place::Font(font) => entry_at(TableKind::Font, font.place, 0),
            Place::Cell(font, cell) => entry_at(TableKind::Cell, font.place, cell.place),
            Place::Permanent(message) => entry_at(TableKind::Permanent, message.place, 0),
        }
    }
}

/// Appends an entry: its number, or its place if it has none.
fn push_entry(text: &mut String, name: &str, entry: Entry) -> Result<(), AllocError>
    ensures { OnOk result (string_bytes text.new ≡ string_bytes text.old ++ entry_text name.now entry) }
{
    push_text(text, name)?;
    match entry.number {
        Some(number) => {
            push_text(text, " ")?;
            push_signed(text, number)
        }
        None => {
            push_text(text, " at place ")?;
            push_count(text, entry.place)
        }
    }
}

/// Appends the name of a table, which is empty for the document and for the text.
#[tactic(auto, unfolding(crate::specs::Names::place_text))]
pub(crate) fn push_place(text: &mut String, place: Place) -> Result<(), AllocError>
    ensures { OnOk result (string_bytes text.new ≡ string_bytes text.old ++ place_text place) }
{
    match place {
        Place::Text | Place::Sign => Ok(()),
        Place::Defaults => push_text(text, "[defaults]"),
        Place::Font(font) => push_entry(text, "font", font),
        Place::Cell(font, cell) => {
            push_entry(text, "font", font)?;
            push_entry(text, ", cell", cell)
        }
        Place::Permanent(message) => {
            push_text(text, "permanent message ")?;
            push_count(text, message.place)
        }
    }
}

/// What stands between the name of a table and a key.
pub(crate) fn before_key(place: Place) -> &'static str {
    match place {
        Place::Text | Place::Sign => "",
        Place::Defaults => " ",
        _ => ", ",
    }
}
