//! A sign, read from the keys of its tables.

ghost use Rattle.std.specs.Prelude.{◌≡◌};
ghost use Rattle.toml.specs.View.{table_view};
ghost use Rattle.sign_font.specs.Sign.{CellData, FontData, cell_of, font_of, sign_of};
ghost use Rattle.sign_file.specs.Keys.{Gives};
ghost use Rattle.sign_file.specs.SignKeys.{cell_of_table, defaults_of_table, font_of_table, sign_of_table};

use crate::fault::FileFault;
use crate::keys::{
    Entry, flag_at, line_fill_at, list_at, member, octets_at, scheme_of, text_at, u8_at, u16_at,
    u16_or,
};
use sign_font::{CellPart, Defaults, FontPart, SignParts};
use std::alloc::Global;
use toml::Table;

impl Entry for CellPart {
    ghost Plain = { CellData };

    ghost plain = { cell_of };

    ghost written = { cell_of_table };

    #[tactic(auto, unfolding(crate::specs::SignKeys::cell_of_table))]
    fn read(alloc: Global, table: &Table) -> Result<CellPart, FileFault> {
        let number = u16_at(table, "number").ok_or(FileFault::Bad)?;
        let width = u8_at(table, "width").ok_or(FileFault::Bad)?;
        let bits = octets_at(alloc, table, "bits")?;
        Ok(CellPart {
            number,
            width,
            bits,
        })
    }
}

impl Entry for FontPart {
    ghost Plain = { FontData };

    ghost plain = { font_of };

    ghost written = { font_of_table };

    #[tactic(auto, unfolding(crate::specs::SignKeys::font_of_table))]
    fn read(alloc: Global, table: &Table) -> Result<FontPart, FileFault> {
        let number = u8_at(table, "number").ok_or(FileFault::Bad)?;
        let version = u16_or(table, "version", 0).ok_or(FileFault::Bad)?;
        let height = u8_at(table, "height").ok_or(FileFault::Bad)?;
        let char_spacing = u8_at(table, "char_spacing").ok_or(FileFault::Bad)?;
        let line_spacing = u8_at(table, "line_spacing").ok_or(FileFault::Bad)?;
        let cells = list_at(alloc, table, "cell")?;
        Ok(FontPart {
            number,
            version,
            height,
            char_spacing,
            line_spacing,
            cells,
        })
    }
}

/// The defaults of messages, from the keys of their table.
#[tactic(auto, unfolding(crate::specs::SignKeys::defaults_of_table))]
fn defaults_of(table: &Table) -> Option<Defaults>
    ensures { result ≡ defaults_of_table (table_view table.now) }
{
    Some(Defaults {
        font: u8_at(table, "font")?,
        line: u8_at(table, "line")?,
        page: u8_at(table, "page")?,
        page_on: u8_at(table, "page_on")?,
        page_off: u8_at(table, "page_off")?,
        flash_on: u8_at(table, "flash_on")?,
        flash_off: u8_at(table, "flash_off")?,
        fore: u8_at(table, "fore")?,
        back: u8_at(table, "back")?,
    })
}

/// The parts of a sign.
#[tactic(auto, unfolding(crate::specs::SignKeys::sign_of_table))]
pub(crate) fn parts_of(alloc: Global, table: &Table) -> Result<SignParts, FileFault>
    ensures { Gives sign_of result (sign_of_table (table_view table.now)) }
{
    let width = u16_at(table, "width").ok_or(FileFault::Bad)?;
    let height = u16_at(table, "height").ok_or(FileFault::Bad)?;
    let scheme = text_at(table, "scheme").ok_or(FileFault::Bad)?;
    let classic = scheme_of(scheme).ok_or(FileFault::Bad)?;
    let max_pages = u8_at(table, "max_pages").ok_or(FileFault::Bad)?;
    let beacons = flag_at(table, "beacons").ok_or(FileFault::Bad)?;
    let pixel_service = flag_at(table, "pixel_service").ok_or(FileFault::Bad)?;
    let line_fill = line_fill_at(table, "line_fill").ok_or(FileFault::Bad)?;
    let value = member(table, "defaults").ok_or(FileFault::Bad)?;
    let inner = value.as_table().ok_or(FileFault::Bad)?;
    let defaults = defaults_of(inner).ok_or(FileFault::Bad)?;
    let fonts = list_at(alloc, table, "font")?;
    Ok(SignParts {
        width,
        height,
        classic,
        max_pages,
        beacons,
        pixel_service,
        line_fill,
        defaults,
        fonts,
    })
}
