//! The rows of a font table of NTCIP 1203, and the numbers and columns in them.

ghost use Rattle.std.specs.Prelude.{◌≡◌, ◌<◌, ◌≤◌, ◌++◌, IfOk, IfSome, OnOk, length};
ghost use Rattle.std.specs.List.{flat_map, position};
ghost use Rattle.std.specs.Str.{bytes_eq};
ghost use Rattle.font_bdf.specs.Listed.{column_in, column_named, columns_in, counted, has_name, head_in, is_counted, number_below, number_in_row, parting, row_at, value_at, value_of};
ghost use Rattle.font_bdf.specs.Lines.{word_at};
ghost use Rattle.font_bdf.specs.Parts.{texts};
ghost use Rattle.font_bdf.specs.Reading.{Gives};

use crate::fault::{BdfFault, BdfProblem, fault_at};
use crate::numbers::{number_at, within};
use crate::read::last_line;
use crate::words::word_at;
use std::alloc::{AllocError, Global};

/// The numbers of a font in a table (NTCIP 1203 v03, object fontTable).
#[derive(Clone, Copy)]
pub(crate) struct Head {
    pub(crate) number: u8,
    pub(crate) height: u8,
    pub(crate) char_spacing: u8,
    pub(crate) line_spacing: u8,
    pub(crate) version: u16,
}

/// The columns of the characters of a table, and how many fields each of their rows has (NTCIP 1203 v03, object characterTable).
#[derive(Clone, Copy)]
pub(crate) struct Columns {
    pub(crate) number: usize,
    pub(crate) width: usize,
    pub(crate) bitmap: usize,
    pub(crate) count: usize,
}

/// The columns of a row that are looked at.
const MOST_COLUMNS: usize = 16;

/// Whether an octet of a table counts.
fn is_counted(octet: u8) -> bool
    ensures { result ≡ is_counted octet }
{
    octet == 9 || (octet == 10 || (octet >= 33 && (octet <= 126 && octet != 34)))
}

/// What an octet that counts stands for.
fn parting(octet: u8) -> u8
    ensures { result ≡ parting octet }
{
    if octet == 44 || octet == 59 { 9 } else { octet }
}

/// Appends what an octet of a table is read as.
#[tactic(auto, unfolding(crate::specs::Listed::counted))]
fn push_counted(text: &mut Vec<u8>, octet: u8) -> Result<(), AllocError>
    ensures { OnOk result (text.new.items ≡ text.old.items ++ counted octet) }
{
    if is_counted(octet) {
        text.push(parting(octet))?;
    }
    Ok(())
}

/// What the octets of a table are read as. Its lines are the rows of the table.
pub(crate) fn text_of(alloc: Global, octets: &[u8]) -> Result<Vec<u8>, AllocError>
    ensures { IfOk result (λ text. text.items ≡ flat_map counted octets.now) }
{
    let mut text = Vec::new(alloc);
    for octet in octets {
        push_counted(&mut text, *octet)?;
    }
    Ok(text)
}

/// Whether the field in a column of a row is this one.
fn is_field(row: &[u8], column: usize, name: &[u8]) -> bool
    ensures { result ≡ bytes_eq (word_at column row.now) name.now }
{
    word_at(row, column) == name
}

/// Which of the first 16 fields of a row this one is, counted from 0, or 16.
#[tactic(auto, unfolding(crate::specs::Listed::column_named))]
pub(crate) fn column_named(row: &[u8], name: &[u8]) -> usize
    ensures column { result ≡ column_named name.now row.now }
    ensures most { result ≤ 16 }
{
    for column in 0..MOST_COLUMNS {
        if is_field(row, column, name) {
            return column;
        }
    }
    MOST_COLUMNS
}

/// Whether a row has a name.
#[tactic(auto, unfolding(crate::specs::Listed::has_name))]
fn has_name(row: &[u8], name: &[u8]) -> bool
    ensures { result ≡ has_name name.now row.now }
{
    column_named(row, name) < MOST_COLUMNS
}

/// Which of these rows is the first that has a name, counted from 0.
fn first_with(rows: &[&[u8]], name: &[u8]) -> Option<usize>
    ensures { result ≡ position (λ row. has_name name.now row.now) rows.now }
{
    rows.iter().position(|row| has_name(row, name))
}

/// The first row that has a name, counted from 0.
pub(crate) fn row_with(rows: &[&[u8]], name: &[u8]) -> Option<usize>
    ensures place { result ≡ position (has_name name.now) (texts rows.now) }
    ensures there { IfSome result (λ place. place < length rows.now) }
{
    match first_with(rows, name) {
        Some(place) => Some(place),
        None => None,
    }
}

/// The row at a place, empty where there is none.
pub(crate) fn row_at<'a>(rows: &[&'a [u8]], place: usize) -> &'a [u8]
    ensures { result.now ≡ row_at (texts rows.now) place }
{
    match rows.get(place) {
        Some(row) => *row,
        None => &[],
    }
}

/// The number in a column of a row, from a lowest to a highest.
pub(crate) fn number_in_row(low: u16, high: u16, column: usize, row: &[u8]) -> Option<u16>
    ensures number { result ≡ number_in_row low high column row.now }
    ensures most { IfSome result (λ number. number ≤ high) }
{
    let number = number_at(row, column)?;
    within(low, high, i64::from(number))
}

/// The number in a column of the row below a heading.
fn number_below(low: u16, high: u16, column: usize, heading: &[u8], row: &[u8]) -> Option<u16>
    ensures number { result ≡ number_below low high column heading.now row.now }
    ensures most { IfSome result (λ number. number ≤ high) }
{
    if column_named(heading, b"") != column_named(row, b"") {
        return None;
    }
    number_in_row(low, high, column, row)
}

/// The number of a name, beside it in its row or below it in the next one.
fn value_at(low: u16, high: u16, name: &[u8], heading: &[u8], row: &[u8]) -> Option<u16>
    ensures number { result ≡ value_at low high name.now heading.now row.now }
    ensures most { IfSome result (λ number. number ≤ high) }
{
    let column = column_named(heading, name);
    match number_in_row(low, high, column + 1, heading) {
        Some(number) => Some(number),
        None => number_below(low, high, column, heading, row),
    }
}

/// The number of a name in the first row that has the name.
#[tactic(auto, unfolding(crate::specs::Listed::value_of))]
fn value_of(rows: &[&[u8]], name: &[u8], low: u16, high: u16) -> Option<u16>
    ensures number { result ≡ value_of name.now low high (texts rows.now) }
    ensures most { IfSome result (λ number. number ≤ high) }
{
    let place = row_with(rows, name)?;
    let heading = row_at(rows, place);
    value_at(low, high, name, heading, row_at(rows, place + 1))
}

/// Where the number of a name is wrong: in the row of the name if it stands beside it, and else below. That row may have other fields.
fn wrong_value(rows: &[&[u8]], name: &[u8], wrong: BdfProblem) -> BdfFault {
    let Some(place) = row_with(rows, name) else {
        return fault_at(0, last_line(rows), wrong);
    };
    let count = column_named(row_at(rows, place), b"");
    if count <= 2 {
        return fault_at(1, place, wrong);
    }
    let below = place.saturating_add(1);
    let is_other = column_named(row_at(rows, below), b"") != count;
    let problem = if is_other {
        BdfProblem::BadFields(count)
    } else {
        wrong
    };
    fault_at(1, below.min(last_line(rows).saturating_sub(1)), problem)
}

/// The number of a name, or that this is wrong with it.
fn value_in(
    rows: &[&[u8]],
    name: &[u8],
    low: u16,
    high: u16,
    wrong: BdfProblem,
) -> Result<u16, BdfFault>
    ensures number { Gives (λ number. number) result (value_of name.now low high (texts rows.now)) }
    ensures most { IfOk result (λ number. number ≤ high) }
{
    match value_of(rows, name, low, high) {
        Some(number) => Ok(number),
        None => Err(wrong_value(rows, name, wrong)),
    }
}

/// The numbers of a font.
#[tactic(auto, unfolding(crate::specs::Listed::head_in))]
pub(crate) fn head_in(rows: &[&[u8]]) -> Result<Head, BdfFault>
    ensures { Gives (λ head. head) result (head_in (texts rows.now)) }
{
    let number = value_in(rows, b"fontNumber", 1, 255, BdfProblem::NoFontNumber)?;
    let height = value_in(rows, b"fontHeight", 1, 64, BdfProblem::NoFontHeight)?;
    let char_spacing = value_in(rows, b"fontCharSpacing", 0, 255, BdfProblem::NoCharSpacing)?;
    let line_spacing = value_in(rows, b"fontLineSpacing", 0, 255, BdfProblem::NoLineSpacing)?;
    let version = value_in(rows, b"fontVersionID", 0, 65535, BdfProblem::NoVersion)?;
    Ok(Head {
        number: number as u8,
        height: height as u8,
        char_spacing: char_spacing as u8,
        line_spacing: line_spacing as u8,
        version,
    })
}

/// The column of a name in a heading, where that has it.
#[tactic(auto, unfolding(crate::specs::Listed::column_in))]
fn column_in(heading: &[u8], name: &[u8]) -> Option<usize>
    ensures { result ≡ column_in name.now heading.now }
{
    if has_name(heading, name) {
        Some(column_named(heading, name))
    } else {
        None
    }
}

/// The columns of the characters, by their heading.
#[tactic(auto, unfolding(crate::specs::Listed::columns_in))]
pub(crate) fn columns_in(heading: &[u8]) -> Option<Columns>
    ensures { result ≡ columns_in heading.now }
{
    let number = column_in(heading, b"characterNumber")?;
    let width = column_in(heading, b"characterWidth")?;
    let bitmap = column_in(heading, b"characterBitmap")?;
    let count = column_named(heading, b"");
    Some(Columns {
        number,
        width,
        bitmap,
        count,
    })
}
