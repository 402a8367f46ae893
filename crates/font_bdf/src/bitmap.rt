//! The bitmap of a character, and the pixels that it lights.

ghost use Rattle.std.specs.Prelude.{◌≡◌, ◌<◌, if◌then◌else◌, true, false, IfOk, MatchOption, MatchResult, ◌+ℤ◌, ◌-ℤ◌, ◌≤ℤ◌, ◌^◌, negsuc, pos};
ghost use Rattle.std.specs.List.{list_all};
ghost use Rattle.font_bdf.specs.Bitmap.{bits_value, column_of, digits_at, digits_of, drawing_of, hex_value, is_below, is_bit, is_fine, is_fine_row, is_hex, is_inside, is_lit, is_lit_at, is_row, is_set_at, is_whole, is_within, octets_of, row_of, top_of};

use crate::fault::{BdfFault, BdfProblem, fault_at};
use crate::numbers::PixelBox;
use crate::rows::FontBox;
use crate::words::word_at;
use std::alloc::{AllocError, Global};

/// The bitmap of a character (BDF, BITMAP).
#[derive(Clone, Copy)]
pub(crate) struct Bitmap<'a> {
    /// The box of the cells of the font.
    pub(crate) font: FontBox,
    /// Where the cell begins, counted in columns from the origin.
    pub(crate) left: i32,
    /// The box of the character.
    pub(crate) pixels: PixelBox,
    /// Its columns.
    pub(crate) columns: u8,
    /// Its rows.
    pub(crate) count: u8,
    /// The lines of its rows, from the top.
    pub(crate) rows: &'a [&'a [u8]],
}

/// What a hexadecimal digit is worth.
fn hex_value(octet: u8) -> u8
    ensures { result ≡ hex_value octet }
{
    if octet <= 57 {
        octet.saturating_sub(48)
    } else if octet <= 70 {
        octet.saturating_sub(55)
    } else {
        octet.saturating_sub(87)
    }
}

/// Whether the bit of a column is set in the digits of a row.
#[tactic(auto, unfolding(crate::specs::Bitmap::is_bit))]
fn is_bit(digits: &[u8], column: usize) -> bool
    ensures { result ≡ is_bit digits.now column }
{
    let digit = match digits.get(column / 4) {
        Some(digit) => *digit,
        None => 0,
    };
    (hex_value(digit) >> (3 - column % 4)) & 1 == 1
}

/// Whether an octet is a hexadecimal digit.
fn is_hex(octet: u8) -> bool
    ensures { result ≡ is_hex octet }
{
    (octet >= 48 && octet <= 57) || (octet >= 65 && octet <= 70) || (octet >= 97 && octet <= 102)
}

/// Whether each of these octets is a hexadecimal digit.
fn are_hex(digits: &[u8]) -> bool
    ensures { result ≡ list_all is_hex digits.now }
{
    digits.iter().all(|octet| is_hex(*octet))
}

/// How many digits the row of a box of this many columns has.
fn digits_of(columns: u8) -> usize
    ensures { result ≡ digits_of columns }
{
    2 * ((usize::from(columns) + 7) / 8)
}

/// Whether these are the digits of a row of this many columns.
#[tactic(auto, unfolding(crate::specs::Bitmap::is_row))]
fn is_row(columns: u8, digits: &[u8]) -> bool
    ensures { result ≡ is_row columns digits.now }
{
    digits.len() == digits_of(columns) && are_hex(digits)
}

impl<'a> Bitmap<'a> {
    /// The digits of a row.
    fn digits_at(&self, row: usize) -> &[u8]
        ensures { result.now ≡ digits_at (drawing_of self.now) row }
    {
        match self.rows.get(row) {
            Some(line) => word_at(line, 0),
            None => word_at(&[], 0),
        }
    }

    /// The column of the cell in which a column of the box stands.
    fn column_of(&self, column: u8) -> i64
        ensures { result ≡ column_of (drawing_of self.now) column }
    {
        i64::from(self.pixels.x) - i64::from(self.left) + i64::from(column)
    }

    /// The row of the cell in which the upper row of the box stands.
    fn top_of(&self) -> i64
        ensures top { result ≡ top_of (drawing_of self.now) }
        ensures low { negsuc 17179869184 ≤ℤ result }
        ensures high { result ≤ℤ pos 17179869184 }
    {
        cells_edge(self.font) - upper_edge(self.pixels)
    }

    /// The row of the cell in which a row of the box stands.
    fn row_of(&self, row: u8) -> i64
        ensures { result ≡ row_of (drawing_of self.now) row }
    {
        self.top_of() + i64::from(row)
    }

    /// Whether a pixel of the box stands in the cell.
    #[tactic(auto, unfolding(crate::specs::Bitmap::is_inside))]
    fn is_inside(&self, width: u8, height: u8, column: u8, row: u8) -> bool
        ensures { result ≡ is_inside (drawing_of self.now) width height column row }
    {
        is_below(width, self.column_of(column)) && is_below(height, self.row_of(row))
    }

    /// Whether a pixel of the box is dark or stands in the cell.
    fn is_fine(&self, width: u8, height: u8, row: u8, column: u8) -> bool
        ensures { result ≡ is_fine (drawing_of self.now) width height row column }
    {
        !is_bit(self.digits_at(usize::from(row)), usize::from(column))
            || self.is_inside(width, height, column, row)
    }

    /// The first pixel of a row that is lit outside the cell.
    fn outside_in(&self, width: u8, height: u8, row: u8) -> Option<u8>
        ensures { MatchOption result
            (is_fine_row (drawing_of self.now) width height row ≡ true)
            (λ column. is_fine_row (drawing_of self.now) width height row ≡ false) }
    {
        for column in 0..self.columns {
            if !self.is_fine(width, height, row, column) {
                return Some(column);
            }
        }
        None
    }

    /// The first pixel that is lit outside the cell: its column and its row in the cell.
    #[tactic(auto, unfolding(crate::specs::Bitmap::is_within))]
    pub(crate) fn outside(&self, width: u8, height: u8) -> Option<(i64, i64)>
        ensures { MatchOption result
            (is_within (drawing_of self.now) width height ≡ true)
            (λ place. is_within (drawing_of self.now) width height ≡ false) }
    {
        for row in 0..self.count {
            match self.outside_in(width, height, row) {
                Some(column) => return Some((self.column_of(column), self.row_of(row))),
                None => {}
            }
        }
        None
    }

    /// Whether the bit of a place in the box is set.
    #[tactic(auto, unfolding(crate::specs::Bitmap::is_set_at))]
    fn is_set_at(&self, column: i64, row: i64) -> bool
        ensures { result ≡ is_set_at (drawing_of self.now) column row }
    {
        if column < 0 || row < 0 {
            return false;
        }
        let column = column as usize;
        let row = row as usize;
        column < usize::from(self.columns)
            && (row < self.rows.len() && is_bit(self.digits_at(row), column))
    }

    /// The column of the box in which a column of the cell stands.
    fn across(&self, column: u8) -> i64
        ensures { result ≡ (pos column +ℤ self.now.left) -ℤ self.now.pixels.x }
    {
        i64::from(column) + i64::from(self.left) - i64::from(self.pixels.x)
    }

    /// The row of the box in which a row of the cell stands.
    fn down(&self, row: u8) -> i64
        ensures { result ≡ pos row -ℤ top_of (drawing_of self.now) }
    {
        i64::from(row) - self.top_of()
    }

    /// Whether the pixel of a column and a row of the cell is lit.
    #[tactic(auto, unfolding(crate::specs::Bitmap::is_lit))]
    fn is_lit(&self, column: u8, row: u8) -> bool
        ensures { result ≡ is_lit (drawing_of self.now) column row }
    {
        self.is_set_at(self.across(column), self.down(row))
    }

    /// Whether the pixel at a place among those of the cell is lit.
    fn is_lit_at(&self, width: u8, height: u8, place: usize) -> bool
        requires wide { 0 < width }
        ensures lit { result ≡ is_lit_at (drawing_of self.now) width height place }
    {
        let width = usize::from(width);
        place < width * usize::from(height)
            && self.is_lit((place % width) as u8, (place / width) as u8)
    }

    /// Whether a line is a row of the box.
    fn is_row_at(&self, row: usize) -> bool
        ensures { result ≡ is_row self.now.columns (digits_at (drawing_of self.now) row) }
    {
        is_row(self.columns, self.digits_at(row))
    }

    /// Whether each line is a row of the box, and there is one for each row of the box. The first of them is the line `first` of the
    /// font.
    #[tactic(auto, unfolding(crate::specs::Bitmap::is_whole), using(crate::proofs::BitmapLemmas::all_stops))]
    pub(crate) fn check_rows(&self, first: usize) -> Result<(), BdfFault>
        ensures { MatchResult result (λ _. is_whole (drawing_of self.now) ≡ true) (λ _. is_whole (drawing_of self.now) ≡ false) }
    {
        let digits = digits_of(self.columns);
        for row in 0..self.rows.len() {
            if row >= usize::from(self.count) {
                return Err(fault_at(first, row, BdfProblem::BadRows));
            }
            if !self.is_row_at(row) {
                return Err(fault_at(first, row, BdfProblem::BadRow(digits)));
            }
        }
        if self.rows.len() < usize::from(self.count) {
            return Err(fault_at(first, self.rows.len(), BdfProblem::BadRow(digits)));
        }
        Ok(())
    }

    /// The pixel at a place among those of the cell, as a bit.
    fn bit_at(&self, width: u8, height: u8, place: usize) -> u32
        requires wide { 0 < width }
        ensures bit { result ≡ (if is_lit_at (drawing_of self.now) width height place then 1 else 0) }
    {
        if self.is_lit_at(width, height, place) {
            1
        } else {
            0
        }
    }

    /// The octet of eight pixels of the cell from a place on.
    #[tactic(auto, using(crate::proofs::BitmapLemmas::bits_more, crate::proofs::BitmapLemmas::bits_none))]
    fn octet_at(&self, width: u8, height: u8, first: usize) -> u8
        requires wide { 0 < width }
        requires near { first < 2 ^ 32 }
        ensures octet { result ≡ bits_value (is_lit_at (drawing_of self.now) width height) first 8 }
    {
        let mut octet = 0;
        for place in 0..8usize {
            octet = 2 * octet + self.bit_at(width, height, first + place);
        }
        octet as u8
    }

    /// The octets of the pixels of the cell.
    #[tactic(auto, unfolding(crate::specs::Bitmap::octets_of))]
    pub(crate) fn octets_of(
        &self,
        alloc: Global,
        width: u8,
        height: u8,
    ) -> Result<Vec<u8>, AllocError>
        requires wide { 0 < width }
        ensures octets { IfOk result (λ octets. octets.items ≡ octets_of (drawing_of self.now) width height) }
    {
        let mut octets = Vec::new(alloc);
        let count = (usize::from(width) * usize::from(height) + 7) / 8;
        for place in 0..count {
            octets.push(self.octet_at(width, height, 8 * place))?;
        }
        Ok(octets)
    }
}

/// The row above the upper edge of a box, counted from the base line.
fn upper_edge(pixels: PixelBox) -> i64
    ensures edge { result ≡ pixels.y +ℤ pixels.height }
    ensures low { negsuc 4294967296 ≤ℤ result }
    ensures high { result ≤ℤ pos 4294967296 }
{
    i64::from(pixels.y) + i64::from(pixels.height)
}

/// How many rows are added to a font at its top, less than 0 if some are taken off.
fn rows_added(font: FontBox) -> i64
    ensures rows { result ≡ pos font.added -ℤ pos font.above }
    ensures low { negsuc 256 ≤ℤ result }
    ensures high { result ≤ℤ pos 256 }
{
    i64::from(font.added) - i64::from(font.above)
}

/// The row above the upper edge of the cells of a font, counted from the base line.
fn cells_edge(font: FontBox) -> i64
    ensures edge { result ≡ (font.whole.y +ℤ font.whole.height) +ℤ (pos font.added -ℤ pos font.above) }
    ensures low { negsuc 8589934592 ≤ℤ result }
    ensures high { result ≤ℤ pos 8589934592 }
{
    upper_edge(font.whole) + rows_added(font)
}

/// Whether a number is at least 0 and below a limit.
fn is_below(limit: u8, number: i64) -> bool
    ensures { result ≡ is_below limit number }
{
    number >= 0 && number < i64::from(limit)
}
