//! The keys of a table of a sign file, by their kinds.

ghost use Rattle.std.specs.Prelude.{◌≡◌, ◌++◌, ◌∷◌, [], Option, OnOk, IfErr, map, option_map};
ghost use Rattle.std.specs.Option.{option_copied};
ghost use Rattle.toml.specs.Data.{Members, get_member};
ghost use Rattle.toml.specs.View.{array_view, table_view, view};
ghost use Rattle.sign_file.specs.Keys.{Gives, each_of, entry_of, flag_at, line_fill_at, line_fill_named, list_at, number_at, number_or, octets_at, scheme_of, text_at};

use crate::fault::FileFault;
use hex::FromHexError;
use sign_font::LineFill;
use std::alloc::Global;
use toml::value::Array;
use toml::{Table, Value};

/// A table that may stand more than once in a sign file (own).
pub(crate) trait Entry: Sized + Drop {
    // What it is, wherever it lies in memory.
    ghost Plain: { Type 0 };

    ghost plain: { Self → Plain };

    // What the keys of a table say.
    ghost written: { Members → Option Plain };

    /// Reads it from the keys of a table.
    fn read(alloc: Global, table: &Table) -> Result<Self, FileFault>
        ensures { Gives plain result (written (table_view table.now)) };
}

/// The value at a key.
pub(crate) fn member<'a>(table: &'a Table, key: &str) -> Option<&'a Value>
    ensures { option_map (λ v. view v.now) result ≡ get_member key.now (table_view table.now) }
{
    table.get(key)
}

/// The number at a key, which must be there: 0 to 255.
pub(crate) fn u8_at(table: &Table, key: &str) -> Option<u8>
    ensures { result ≡ number_at 255 key.now (table_view table.now) }
{
    let integer = member(table, key)?.as_integer()?;
    u8::try_from(integer).ok()
}

/// The number at a key, which must be there: 0 to 65,535.
pub(crate) fn u16_at(table: &Table, key: &str) -> Option<u16>
    ensures { result ≡ number_at 65535 key.now (table_view table.now) }
{
    let integer = member(table, key)?.as_integer()?;
    u16::try_from(integer).ok()
}

/// The number at a key, which must be there: 0 to 4,294,967,295.
pub(crate) fn u32_at(table: &Table, key: &str) -> Option<u32>
    ensures { result ≡ number_at 4294967295 key.now (table_view table.now) }
{
    let integer = member(table, key)?.as_integer()?;
    u32::try_from(integer).ok()
}

/// The number at a key, or `absent` where the key isn't there: 0 to 255.
pub(crate) fn u8_or(table: &Table, key: &str, absent: u8) -> Option<u8>
    ensures { result ≡ number_or 255 absent key.now (table_view table.now) }
{
    match member(table, key) {
        None => Some(absent),
        Some(value) => u8::try_from(value.as_integer()?).ok(),
    }
}

/// The number at a key, or `absent` where the key isn't there: 0 to 65,535.
pub(crate) fn u16_or(table: &Table, key: &str, absent: u16) -> Option<u16>
    ensures { result ≡ number_or 65535 absent key.now (table_view table.now) }
{
    match member(table, key) {
        None => Some(absent),
        Some(value) => u16::try_from(value.as_integer()?).ok(),
    }
}

/// The truth value at a key, false where the key isn't there.
pub(crate) fn flag_at(table: &Table, key: &str) -> Option<bool>
    ensures { result ≡ flag_at key.now (table_view table.now) }
{
    match member(table, key) {
        None => Some(false),
        Some(value) => value.as_bool(),
    }
}

/// The text at a key, which must be there.
pub(crate) fn text_at<'a>(table: &'a Table, key: &str) -> Option<&'a str>
    ensures { option_copied result ≡ text_at key.now (table_view table.now) }
{
    member(table, key)?.as_str()
}

/// Whether a text names the classic scheme; it may name that or the monochrome one.
pub(crate) fn scheme_of(text: &str) -> Option<bool>
    ensures { result ≡ scheme_of text.now }
{
    if text == "monochrome" {
        Some(false)
    } else if text == "classic" {
        Some(true)
    } else {
        None
    }
}

/// Whether a text says that lines are broken between words; it may say that they are or that they aren't.
fn line_fill_named(text: &str) -> Option<LineFill>
    ensures { result ≡ line_fill_named text.now }
{
    if text == "none" {
        Some(LineFill::Off)
    } else if text == "words" {
        Some(LineFill::Words)
    } else {
        None
    }
}

/// How lines are filled by the text at a key, not at all where the key isn't there.
pub(crate) fn line_fill_at(table: &Table, key: &str) -> Option<LineFill>
    ensures { result ≡ line_fill_at key.now (table_view table.now) }
{
    match member(table, key) {
        None => Some(LineFill::Off),
        Some(value) => line_fill_named(value.as_str()?),
    }
}

/// The octets at a key, which must be there, in hexadecimal.
pub(crate) fn octets_at(alloc: Global, table: &Table, key: &str) -> Result<Vec<u8>, FileFault>
    ensures { Gives (λ octets. octets.items) result (octets_at key.now (table_view table.now)) }
{
    let text = text_at(table, key).ok_or(FileFault::Bad)?;
    match hex::decode(alloc, text) {
        Ok(octets) => Ok(octets),
        Err(FromHexError::OutOfMemory) => Err(FileFault::Memory),
        Err(_) => Err(FileFault::Bad),
    }
}

/// Adds an entry.
fn push_entry<T: Entry>(entries: &mut Vec<T>, entry: T) -> Result<(), FileFault>
    ensures ok { OnOk result (entries.new.items ≡ entries.old.items ++ entry ∷ []) }
    ensures err { IfErr result (λ e. e ≡ FileFault.Memory) }
{
    match entries.push(entry) {
        Ok(()) => Ok(()),
        Err(_) => Err(FileFault::Memory),
    }
}

/// The entry that a value is, which must be a table.
fn entry_of<T: Entry>(alloc: Global, value: &Value) -> Result<T, FileFault>
    ensures { Gives T.plain result (entry_of T.written (view value.now)) }
{
    match value.as_table() {
        Some(table) => T::read(alloc, table),
        None => Err(FileFault::Bad),
    }
}

/// The entries of an array.
fn each_of<T: Entry>(alloc: Global, array: &Array) -> Result<Vec<T>, FileFault>
    ensures { Gives (λ v. map T.plain v.items) result (each_of T.written (array_view array.now)) }
{
    let mut entries = Vec::new(alloc);
    for value in array {
        let entry = entry_of(alloc, value)?;
        push_entry(&mut entries, entry)?;
    }
    Ok(entries)
}

/// The entries of the array of tables at a key, none where the key isn't there.
pub(crate) fn list_at<T: Entry>(
    alloc: Global,
    table: &Table,
    key: &str,
) -> Result<Vec<T>, FileFault>
    ensures { Gives (λ v. map T.plain v.items) result (list_at T.written key.now (table_view table.now)) }
{
    match member(table, key) {
        None => Ok(Vec::new(alloc)),
        Some(value) => match value.as_array() {
            Some(array) => each_of(alloc, array),
            None => Err(FileFault::Bad),
        },
    }
}
