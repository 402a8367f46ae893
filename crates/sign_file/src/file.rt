//! A sign file, read from its octets.

ghost use Rattle.std.specs.Prelude.{◌≡◌};
ghost use Rattle.toml.specs.View.{table_view};
ghost use Rattle.sign_file.specs.Keys.{Gives};
ghost use Rattle.message_store.specs.Slot.{PermanentData, permanent_of};
ghost use Rattle.sign_file.specs.SignFile.{file_of, file_of_octets, file_of_table, limits_of_table, permanent_of_table};

use crate::fault::FileFault;
use crate::keys::{Entry, list_at, text_at, u8_or, u16_at, u32_at};
use crate::nesting::deep_at;
use crate::sign::parts_of;
use message_store::{Permanent, StoreLimits};
use sign_font::SignParts;
use std::alloc::Global;
use toml::Table;

/// A sign file as it was written, before its limits are checked (own).
#[derive(Debug, Drop)]
pub struct SignFile {
    /// The sign.
    pub sign: SignParts,
    /// The limits of its message store.
    pub limits: StoreLimits,
    /// Its permanent messages, numbered from 1.
    pub permanents: Vec<Permanent>,
}

impl Entry for Permanent {
    ghost Plain = { PermanentData };

    ghost plain = { permanent_of };

    ghost written = { permanent_of_table };

    #[tactic(auto, unfolding(crate::specs::SignFile::permanent_of_table))]
    fn read(alloc: Global, table: &Table) -> Result<Permanent, FileFault> {
        let text = text_at(table, "multi").ok_or(FileFault::Bad)?;
        let priority = u8_or(table, "priority", 1).ok_or(FileFault::Bad)?;
        let beacon = u8_or(table, "beacon", 0).ok_or(FileFault::Bad)?;
        let pixel = u8_or(table, "pixel", 0).ok_or(FileFault::Bad)?;
        let Ok(multi) = text.as_bytes().to_vec(alloc) else {
            return Err(FileFault::Memory);
        };
        Ok(Permanent {
            multi,
            priority,
            beacon,
            pixel,
        })
    }
}

/// The limits of the message store.
#[tactic(auto, unfolding(crate::specs::SignFile::limits_of_table))]
fn limits_of(table: &Table) -> Option<StoreLimits>
    ensures { result ≡ limits_of_table (table_view table.now) }
{
    Some(StoreLimits {
        slots: u16_at(table, "slots")?,
        bytes: u32_at(table, "bytes")?,
        max_string: u16_at(table, "max_string")?,
    })
}

/// A sign file, from the keys of its document.
#[tactic(auto, unfolding(crate::specs::SignFile::file_of_table))]
fn file_of(alloc: Global, table: &Table) -> Result<SignFile, FileFault>
    ensures { Gives file_of result (file_of_table (table_view table.now)) }
{
    let sign = parts_of(alloc, table)?;
    let limits = limits_of(table).ok_or(FileFault::Bad)?;
    let permanents = list_at(alloc, table, "permanent")?;
    Ok(SignFile {
        sign,
        limits,
        permanents,
    })
}

/// Reads a sign file from its octets: a TOML document in UTF-8 with the keys of a sign, of the limits of its message
/// store and of its permanent messages, which nests no deeper than [`crate::deep_at`] says (own).
///
/// Whether these are within their limits isn't judged here: [`sign_font::Sign::new`] says so of the sign, and
/// [`message_store::Store::new`] of the limits and the permanent messages.
///
/// The error is `Bad` for octets that are no sign file, and `Memory` where memory was refused.
#[tactic(auto, unfolding(crate::specs::SignFile::file_of_octets))]
pub fn read_sign_file(alloc: Global, octets: &[u8]) -> Result<SignFile, FileFault>
    ensures read { Gives file_of result (file_of_octets octets.now) }
{
    let Ok(text) = str::from_utf8(octets) else {
        return Err(FileFault::Bad);
    };
    if deep_at(alloc, text)?.is_some() {
        return Err(FileFault::Bad);
    }
    match toml::table_from_str(alloc, text) {
        Ok(table) => file_of(alloc, &table),
        Err(error) if error.is_memory() => Err(FileFault::Memory),
        Err(_) => Err(FileFault::Bad),
    }
}
