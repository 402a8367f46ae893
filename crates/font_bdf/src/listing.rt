//! A font in a table of NTCIP 1203, as makers keep it.

ghost use Rattle.std.specs.Prelude.{◌≡◌, ◌≢◌, ◌<◌, ◌≤◌, ◌+◌, ◌++◌, ◌∷◌, [], None, IfErr, IfOk, OnOk, drop, length, map};
ghost use Rattle.sign_font.specs.Sign.{cell_of, font_of};
ghost use Rattle.font_bdf.specs.Listed.{cell_in_row, cells_in_rows, cells_listed, font_in, font_listed, font_with_head, number_in_row, octets_in};
ghost use Rattle.font_bdf.specs.Parts.{texts};
ghost use Rattle.font_bdf.specs.Reading.{Gives};
ghost use Rattle.font_bdf.specs.Tables.{IsListedTable};
ghost use Rattle.font_bdf.specs.declared.fault.Untaken.{Untaken};

use crate::fault::{BdfFault, BdfProblem, Untaken, fault_at};
use crate::listed::{
    Columns, Head, column_named, columns_in, head_in, number_in_row, row_at, row_with, text_of,
};
use crate::read::last_line;
use crate::rows::is_set;
use crate::start::kind_of;
use crate::words::{lines_of, word_at};
use crate::write::table_of_font;
use hex::FromHexError;
use sign_font::{CellPart, FontPart};
use std::alloc::Global;

/// The octets of a bitmap. What is wrong with it is told of the line `line`.
fn octets_in(alloc: Global, digits: &[u8], line: usize) -> Result<Vec<u8>, BdfFault>
    ensures { Gives (λ octets. octets.items) result (octets_in digits.now) }
{
    match hex::decode(alloc, digits) {
        Ok(octets) => Ok(octets),
        Err(FromHexError::OutOfMemory) => Err(fault_at(0, 0, BdfProblem::Memory)),
        Err(_) => Err(fault_at(line, 0, BdfProblem::BadBitmap)),
    }
}

/// The number in a column of a row, or that this is wrong with the line `line`.
fn number_of(
    high: u16,
    column: usize,
    row: &[u8],
    line: usize,
    wrong: BdfProblem,
) -> Result<u16, BdfFault>
    ensures number { Gives (λ number. number) result (number_in_row 1 high column row.now) }
    ensures most { IfOk result (λ number. number ≤ high) }
{
    match number_in_row(1, high, column, row) {
        Some(number) => Ok(number),
        None => Err(fault_at(line, 0, wrong)),
    }
}

/// The character of a row, which is the line `line`.
#[tactic(auto, unfolding(crate::specs::Listed::cell_in_row))]
fn cell_in_row(
    alloc: Global,
    height: u8,
    columns: Columns,
    row: &[u8],
    line: usize,
) -> Result<CellPart, BdfFault>
    ensures { Gives cell_of result (cell_in_row height columns row.now) }
{
    let number = number_of(
        65535,
        columns.number,
        row,
        line,
        BdfProblem::NoCharacterNumber,
    )?;
    let width = number_of(64, columns.width, row, line, BdfProblem::NoCharacterWidth)?;
    let bits = octets_in(alloc, word_at(row, columns.bitmap), line)?;
    let needs = (usize::from(height) * usize::from(width) + 7) / 8;
    if column_named(row, b"") != columns.count {
        return Err(fault_at(line, 0, BdfProblem::BadFields(columns.count)));
    }
    if bits.len() != needs {
        let has = bits.len();
        return Err(fault_at(line, 0, BdfProblem::BadBits { has, needs }));
    }
    Ok(CellPart {
        number,
        width: width as u8,
        bits,
    })
}

/// Adds a cell.
fn push_cell(cells: &mut Vec<CellPart>, cell: CellPart) -> Result<(), BdfFault>
    ensures pushed { OnOk result (map cell_of cells.new.items ≡ map cell_of cells.old.items ++ cell_of cell ∷ []) }
    ensures refused { IfErr result (λ fault. fault.problem ≡ BdfProblem.Memory) }
{
    match cells.push(cell) {
        Ok(()) => Ok(()),
        Err(_) => Err(fault_at(0, 0, BdfProblem::Memory)),
    }
}

/// The characters of rows, of which the first one is the line `first`. A row without a field is passed over.
fn cells_in_rows(
    alloc: Global,
    height: u8,
    columns: Columns,
    rows: &[&[u8]],
    first: usize,
) -> Result<Vec<CellPart>, BdfFault>
    ensures { Gives (λ cells. map cell_of cells.items) result (cells_in_rows height columns (texts rows.now)) }
{
    let mut cells = Vec::new(alloc);
    let mut next = first;
    for row in rows {
        let line = next;
        next = line.saturating_add(1);
        if column_named(row, b"") == 0 {
            continue;
        }
        let cell = match cell_in_row(alloc, height, columns, row, line) {
            Ok(cell) => cell,
            Err(fault) => return Err(fault),
        };
        match push_cell(&mut cells, cell) {
            Ok(()) => {}
            Err(fault) => return Err(fault),
        }
    }
    Ok(cells)
}

/// The rows after a place, which one of them has.
fn rows_behind<'a, 'b>(rows: &'a [&'b [u8]], place: usize) -> &'a [&'b [u8]]
    requires there { place < length rows.now }
    ensures rows { texts result.now ≡ drop (place + 1) (texts rows.now) }
{
    &rows[place + 1..]
}

/// The characters of a table of so many rows of pixels.
#[tactic(auto, unfolding(crate::specs::Listed::cells_listed))]
fn cells_listed(alloc: Global, height: u8, rows: &[&[u8]]) -> Result<Vec<CellPart>, BdfFault>
    ensures { Gives (λ cells. map cell_of cells.items) result (cells_listed height (texts rows.now)) }
{
    let Some(place) = row_with(rows, b"characterNumber") else {
        return Err(fault_at(0, last_line(rows), BdfProblem::NoCharacters));
    };
    let Some(columns) = columns_in(row_at(rows, place)) else {
        return Err(fault_at(1, place, BdfProblem::NoCharacters));
    };
    let first = place.saturating_add(2);
    cells_in_rows(alloc, height, columns, rows_behind(rows, place), first)
}

/// The font of these numbers, with these characters, if there are some. What is wrong with none is told of the line `line`.
fn font_with_head(head: Head, cells: Vec<CellPart>, line: usize) -> Result<FontPart, BdfFault>
    ensures { Gives font_of result (font_with_head head (map cell_of cells.items)) }
{
    if cells.is_empty() {
        return Err(fault_at(line, 0, BdfProblem::NoRow));
    }
    Ok(FontPart {
        number: head.number,
        version: head.version,
        height: head.height,
        char_spacing: head.char_spacing,
        line_spacing: head.line_spacing,
        cells,
    })
}

/// The font in the rows of a table.
#[tactic(auto, unfolding(crate::specs::Listed::font_in))]
fn font_in(alloc: Global, rows: &[&[u8]]) -> Result<FontPart, BdfFault>
    ensures { Gives font_of result (font_in (texts rows.now)) }
{
    let head = head_in(rows)?;
    let cells = cells_listed(alloc, head.height, rows)?;
    font_with_head(head, cells, last_line(rows))
}

/// A fault of octets, or what they are if they are another kind of file.
fn named(octets: &[u8], fault: BdfFault) -> BdfFault
    ensures { fault.problem ≡ BdfProblem.Memory → result.problem ≡ BdfProblem.Memory }
{
    let BdfProblem::NoFontNumber = fault.problem else {
        return fault;
    };
    match kind_of(octets) {
        Some(problem) => fault_at(1, 0, problem),
        None => fault,
    }
}

/// Reads a font in a table of NTCIP 1203.
///
/// A table has rows of fields, with a comma, a semicolon or a tab between them: the names of the objects, and below them or beside them
/// their values. Below `characterNumber` stands a character in each row that isn't empty. Spaces, quotation marks and what isn't ASCII
/// don't count, and neither do columns with other names.
///
/// The error has a line that is wrong, and what is wrong there. If it isn't `Memory`, the octets are no such table.
#[tactic(auto, unfolding(crate::specs::Listed::rows_of))]
pub fn read_listed(alloc: Global, octets: &[u8]) -> Result<FontPart, BdfFault>
    ensures { Gives font_of result (font_listed octets.now) }
{
    let Ok(text) = text_of(alloc, octets) else {
        return Err(fault_at(0, 0, BdfProblem::Memory));
    };
    let Ok(rows) = lines_of(alloc, &text) else {
        return Err(fault_at(0, 0, BdfProblem::Memory));
    };
    match font_in(alloc, &rows) {
        Ok(font) => Ok(font),
        Err(fault) => Err(named(octets, fault)),
    }
}

/// Whether the spare bits of the octets after so many pixels are 0.
fn is_clear_behind(octets: &[u8], pixels: usize) -> bool {
    let end = octets.len().saturating_mul(8);
    for place in pixels..end {
        if is_set(octets, place) {
            return false;
        }
    }
    true
}

/// Why no sign takes a character of a font after the character of a number, if none does.
fn untaken_cell(height: u8, before: u16, cell: &CellPart) -> Option<Untaken> {
    let number = cell.number;
    if number <= before {
        return Some(Untaken::NotAbove { number, before });
    }
    let pixels = usize::from(cell.width) * usize::from(height);
    if is_clear_behind(&cell.bits, pixels) {
        return None;
    }
    let spare = cell.bits.len().saturating_mul(8).saturating_sub(pixels);
    Some(Untaken::SpareBits(spare))
}

/// Which character of a font is the first that no sign takes, counted from 0, and why.
fn untaken(font: &FontPart) -> (usize, Untaken) {
    let mut place: usize = 0;
    let mut before = 0;
    for cell in &font.cells {
        if let Some(why) = untaken_cell(font.height, before, cell) {
            return (place, why);
        }
        before = cell.number;
        place = place.saturating_add(1);
    }
    (255, Untaken::TooMany(place))
}

/// The line of the character at a place, counted from 0, or 0 if memory is refused.
fn line_of(alloc: Global, octets: &[u8], place: usize) -> usize {
    let Ok(text) = text_of(alloc, octets) else {
        return 0;
    };
    let Ok(rows) = lines_of(alloc, &text) else {
        return 0;
    };
    let heading = row_with(&rows, b"characterNumber").unwrap_or(0);
    let mut left = place;
    for at in heading.saturating_add(1)..rows.len() {
        if column_named(row_at(&rows, at), b"") != 0 {
            if left == 0 {
                return at + 1;
            }
            left -= 1;
        }
    }
    0
}

/// Reads a font in a table of NTCIP 1203, as [`read_listed`] does, and writes it as the `[[font]]` table of a sign file.
///
/// What is written was read back after the other keys of a sign file: it has this one font and no permanent message, and a sign
/// takes it.
///
/// The error has a line that is wrong, and what is wrong there. If it is neither `CellNotTaken` nor `Memory`, the octets are no such table.
pub fn listed_tables(alloc: Global, octets: &[u8]) -> Result<Vec<u8>, BdfFault>
    ensures table { IfOk result (λ text. IsListedTable octets.now text.items) }
    ensures refused { IfErr result
        (λ fault. fault.problem ≢ BdfProblem.Memory → ((why : Untaken) → fault.problem ≢ BdfProblem.CellNotTaken why)
        → font_listed octets.now ≡ None) }
{
    let font = match read_listed(alloc, octets) {
        Ok(font) => font,
        Err(fault) => return Err(fault),
    };
    match table_of_font(alloc, &font) {
        Ok(table) => Ok(table),
        Err(BdfProblem::Memory) => Err(fault_at(0, 0, BdfProblem::Memory)),
        Err(_) => {
            let (place, why) = untaken(&font);
            Err(fault_at(
                line_of(alloc, octets, place),
                0,
                BdfProblem::CellNotTaken(why),
            ))
        }
    }
}
