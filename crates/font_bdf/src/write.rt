//! A font as a table of a sign file.

ghost use Rattle.std.specs.Prelude.{◌≡◌, ◌≢◌, ◌++◌, ◌∷◌, [], IfErr, IfOk, IsTrue, None, OnOk, is_none, map, true};
ghost use Rattle.sign_font.specs.Limits.{first_fault};
ghost use Rattle.sign_font.specs.Sign.{font_of, sign_of};
ghost use Rattle.font_bdf.specs.Reading.{IsLater};
ghost use Rattle.font_bdf.specs.Tables.{IsFontTable, IsRefused, IsTable, IsTableOf, front, is_one_font, is_spaced, is_told, with_font};

use crate::fault::{BdfFault, BdfProblem};
use crate::read::read_font;
use crate::same::is_same_font;
use crate::setting::{FontSetting, Outside};
use crate::told::{not_fitting, unused_rows, word_of};
use itoa::Buffer;
use sign_file::{FileFault, read_sign_file};
use sign_font::{CellPart, Defaults, FontPart, Sign, SignFault, SignParts};
use std::alloc::{AllocError, Global};

/// The keys of a sign file before its fonts.
const FRONT: &str =
    "width = 1024\nheight = 128\nscheme = 'classic'\nmax_pages = 1\nslots = 1\nbytes = 0\nmax_string = 1\n\
    [defaults]\nfont = 1\nline = 3\npage = 3\npage_on = 0\npage_off = 0\nflash_on = 0\nflash_off = 0\nfore = 1\nback = 0\n";

/// What stands at a mark of a text.
#[derive(Clone, Copy)]
enum Part<'a> {
    /// A number in decimal.
    Number(u16),
    /// These octets.
    Octets(&'a [u8]),
}

/// Appends a part.
fn push_part(text: &mut Vec<u8>, part: Part<'_>) -> Result<(), AllocError> {
    match part {
        Part::Number(number) => text.extend_from_slice(Buffer::new().format(number).as_bytes()),
        Part::Octets(octets) => text.extend_from_slice(octets),
    }
}

/// Appends a text, with these parts in the place of its marks `@`.
fn push_parts(text: &mut Vec<u8>, marked: &[u8], parts: &[Part<'_>]) -> Result<(), AllocError> {
    for (place, octets) in marked.split(|octet| *octet == b'@').enumerate() {
        text.extend_from_slice(octets)?;
        if let Some(part) = parts.get(place) {
            push_part(text, *part)?;
        }
    }
    Ok(())
}

/// Appends the line of a cell, with the character after it where ASCII has a sign for it.
fn push_cell(alloc: Global, text: &mut Vec<u8>, cell: &CellPart) -> Result<(), AllocError> {
    let bits = hex::encode(alloc, cell.bits.as_slice())?;
    let parts = [
        Part::Number(cell.number),
        Part::Number(u16::from(cell.width)),
        Part::Octets(bits.as_bytes()),
    ];
    push_parts(text, b"  { number = @, width = @, bits = \"@\" },", &parts)?;
    if cell.number > 32 && cell.number < 127 {
        text.extend_from_slice(&[b' ', b'#', b' ', cell.number as u8])?;
    }
    text.extend_from_slice(b"\n")
}

/// Where the spacing between characters comes from if none was told.
fn spacing_source(font: &FontPart, setting: &FontSetting<'_>) -> &'static [u8] {
    match setting.char_spacing {
        Some(_) => b"",
        None if setting.written_spacing.is_some() => b"",
        None if font.char_spacing == 0 => b" # not every cell had a dark last column",
        None => b" # each cell had a dark last column",
    }
}

/// Appends a line that tells which characters didn't fit, and what was done with them.
fn push_told(
    text: &mut Vec<u8>,
    setting: &FontSetting<'_>,
    numbers: &[u16],
) -> Result<(), AllocError> {
    if numbers.is_empty() {
        return Ok(());
    }
    let word = word_of(setting.outside).as_bytes();
    push_parts(text, b"# @:", &[Part::Octets(word)])?;
    for number in numbers {
        push_parts(text, b" @", &[Part::Number(*number)])?;
    }
    text.extend_from_slice(b"\n")
}

/// Appends a line that tells which rows no character uses, if there are some.
fn push_unused(
    text: &mut Vec<u8>,
    setting: &FontSetting<'_>,
    font: &FontPart,
) -> Result<(), AllocError> {
    let (above, below) = unused_rows(setting, font);
    if above == 0 && below == 0 {
        return Ok(());
    }
    let parts = [
        Part::Number(u16::from(above)),
        Part::Number(u16::from(below)),
    ];
    let told =
        b"# rows in which no character has a pixel: @ at the top, @ at the bottom; --crop takes them off\n";
    push_parts(text, told, &parts)
}

/// Appends the table of a font.
fn push_font(
    alloc: Global,
    text: &mut Vec<u8>,
    font: &FontPart,
    setting: &FontSetting<'_>,
) -> Result<(), AllocError> {
    let parts = [
        Part::Number(u16::from(font.number)),
        Part::Number(font.version),
        Part::Number(u16::from(font.height)),
        Part::Number(u16::from(font.char_spacing)),
        Part::Octets(spacing_source(font, setting)),
        Part::Number(u16::from(font.line_spacing)),
    ];
    let head =
        b"[[font]]\nnumber = @\nversion = @\nheight = @\nchar_spacing = @@\nline_spacing = @\ncell = [\n";
    push_parts(text, head, &parts)?;
    for cell in &font.cells {
        push_cell(alloc, text, cell)?;
    }
    text.extend_from_slice(b"]\n")
}

/// The table of a font, and before it what is told of the characters that didn't fit, and of rows that none uses.
fn text_of(
    alloc: Global,
    octets: &[u8],
    font: &FontPart,
    setting: &FontSetting<'_>,
) -> Result<Vec<u8>, AllocError> {
    let mut text = Vec::new(alloc);
    let numbers = not_fitting(alloc, octets, setting, font)?;
    push_told(&mut text, setting, &numbers)?;
    push_unused(&mut text, setting, font)?;
    push_font(alloc, &mut text, font, setting)?;
    Ok(text)
}

/// Whether this spacing is the one that was told, or where none was, at most 1.
fn is_spaced(told: Option<u8>, spacing: u8) -> bool
    ensures { result ≡ is_spaced told spacing }
{
    match told {
        None => spacing <= 1,
        Some(told) => spacing == told,
    }
}

/// Whether this spacing is the one that is to be written.
fn is_told(setting: &FontSetting<'_>, spacing: u8) -> bool
    ensures { result ≡ is_told setting.now spacing }
{
    match setting.written_spacing {
        None => is_spaced(setting.char_spacing, spacing),
        Some(columns) => spacing == columns,
    }
}

/// Whether these fonts are one, by a setting.
fn is_one_font(fonts: &[FontPart], setting: &FontSetting<'_>) -> bool
    ensures { result ≡ is_one_font setting.now (map font_of fonts.now) }
{
    match fonts {
        [font] => {
            font.number == setting.number
                && font.version == setting.version
                && is_told(setting, font.char_spacing)
                && font.line_spacing == setting.line_spacing
        }
        _ => false,
    }
}

/// Whether these fonts are this one.
fn is_only_font(fonts: &[FontPart], font: &FontPart) -> bool
    ensures { IsTrue result → map font_of fonts.now ≡ font_of font.now ∷ [] }
{
    match fonts {
        [only] => is_same_font(only, font),
        _ => false,
    }
}

/// The sign file that ends with this table.
#[tactic(auto, unfolding(crate::specs::Tables::front))]
fn file_with(alloc: Global, table: &[u8]) -> Result<Vec<u8>, AllocError>
    ensures { IfOk result (λ octets. octets.items ≡ front ++ table.now) }
{
    let mut octets = Vec::new(alloc);
    octets.extend_from_slice(FRONT.as_bytes())?;
    octets.extend_from_slice(table)?;
    Ok(octets)
}

/// Makes a sign whose default font has this number.
fn take_sign(alloc: Global, sign: SignParts, number: u8) -> Result<(), BdfProblem>
    ensures sound { OnOk result (is_none (first_fault (with_font (sign_of sign) number)) ≡ true) }
    ensures problem { IfErr result IsLater }
{
    let defaults = Defaults {
        font: number,
        ..sign.defaults
    };
    match Sign::new(alloc, SignParts { defaults, ..sign }) {
        Ok(_) => Ok(()),
        Err(SignFault::Memory) => Err(BdfProblem::Memory),
        Err(_) => Err(BdfProblem::Unread),
    }
}

/// Reads the sign file that ends with this table, compares its font with the one that was read, sees that it has no permanent
/// message, and makes its sign.
fn take_table(
    alloc: Global,
    table: &[u8],
    font: &FontPart,
    setting: &FontSetting<'_>,
) -> Result<(), BdfProblem>
    ensures taken { OnOk result (IsTableOf setting.now (font_of font.now) table.now) }
    ensures problem { IfErr result IsLater }
{
    let Ok(octets) = file_with(alloc, table) else {
        return Err(BdfProblem::Memory);
    };
    match read_sign_file(alloc, &octets) {
        Ok(file) => {
            if !is_one_font(&file.sign.fonts, setting) || !is_only_font(&file.sign.fonts, font) {
                return Err(BdfProblem::Unread);
            }
            if !file.permanents.is_empty() {
                return Err(BdfProblem::Unread);
            }
            match take_sign(alloc, file.sign, setting.number) {
                Ok(()) => Ok(()),
                Err(problem) => Err(problem),
            }
        }
        Err(FileFault::Bad) => Err(BdfProblem::Unread),
        Err(FileFault::Memory) => Err(BdfProblem::Memory),
    }
}

/// The table of a font, which signs take.
fn table_of(
    alloc: Global,
    octets: &[u8],
    font: &FontPart,
    setting: &FontSetting<'_>,
) -> Result<Vec<u8>, BdfProblem>
    ensures table { IfOk result (λ table. IsTableOf setting.now (font_of font.now) table.items) }
    ensures problem { IfErr result IsLater }
{
    let Ok(table) = text_of(alloc, octets, font, setting) else {
        return Err(BdfProblem::Memory);
    };
    match take_table(alloc, &table, font, setting) {
        Ok(()) => Ok(table),
        Err(problem) => Err(problem),
    }
}

/// Writes a font as the `[[font]]` table of a sign file, which was read back after the other keys of a sign file.
pub(crate) fn table_of_font(alloc: Global, font: &FontPart) -> Result<Vec<u8>, BdfProblem>
    ensures { IfOk result (λ table. IsTable (font_of font.now) table.items) }
{
    let setting = FontSetting {
        number: font.number,
        version: font.version,
        char_spacing: Some(font.char_spacing),
        written_spacing: None,
        line_spacing: font.line_spacing,
        characters: &[],
        outside: Outside::Refuse,
        crop: false,
        height: Some(font.height),
    };
    match table_of(alloc, &[], font, &setting) {
        Ok(table) => Ok(table),
        Err(problem) => Err(problem),
    }
}

/// Reads a font in BDF, as [`read_font`] does, and writes it as the `[[font]]` table of a sign file.
///
/// What is written was read back after the other keys of a sign file: it has this one font and no permanent message, and a sign
/// takes it.
///
/// The error has a line that is wrong, and what is wrong there. It is `NotTaken` if the font is read
/// and its number is 0, and `Unread` if the table isn't read back as this font, which no test has seen. If it is none of these and not
/// `Memory`, the octets are no font in BDF that is taken with this setting.
pub fn font_tables(
    alloc: Global,
    octets: &[u8],
    setting: &FontSetting<'_>,
) -> Result<Vec<u8>, BdfFault>
    ensures table { IfOk result (λ text. IsFontTable setting.now octets.now text.items) }
    ensures numbered { OnOk result (setting.now.number ≢ 0) }
    ensures refused { IfErr result (λ fault. fault.problem ≢ BdfProblem.Memory → fault.problem ≢ BdfProblem.Unread
        → IsRefused setting.now octets.now fault.problem) }
{
    let font = match read_font(alloc, octets, setting) {
        Ok(font) => font,
        Err(fault) => return Err(fault),
    };
    if setting.number == 0 {
        return Err(BdfFault {
            line: 0,
            problem: BdfProblem::NotTaken,
        });
    }
    match table_of(alloc, octets, &font, setting) {
        Ok(table) => Ok(table),
        Err(problem) => Err(BdfFault { line: 0, problem }),
    }
}
