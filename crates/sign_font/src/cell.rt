//! A character's cell, as a sign keeps it and as it is asked for.

ghost use Rattle.std.specs.Prelude.{◌≡◌, ℕ, ◌<◌, ◌≤◌, length, slice_index, IfOk};
ghost use Rattle.sign_font.specs.Cell.{is_lit, IsRowOf};

use crate::bits::{is_set, rows_of};
use crate::parts::CellPart;
use std::alloc::{AllocError, Global};
use std::marker::Model;

/// A cell as a sign keeps it: as it was written, and each of its rows as one word, so that a row is drawn by
/// one operation.
#[derive(Drop)]
pub(crate) struct Glyph {
    number: u16,
    width: u8,
    bits: Vec<u8>,
    rows: Vec<u64>,
}

impl Model for Glyph {
    ghost use Rattle.std.specs.Prelude.{length};
    ghost use Rattle.sign_font.specs.Cell.{SizedCell};
    ghost use Rattle.sign_font.specs.internal.Rows.{AreRowsOf};

    ghost Value = { SizedCell };

    ghost view = { λ g. record {
      number = g.number;
      width = g.width;
      height = length g.rows.items;
      bits = g.bits.items;
    } };

    ghost invariant = { λ g. AreRowsOf g.bits.items g.width g.rows.items };
}

impl Glyph {
    /// Makes the rows of a cell in a font of this height.
    pub(crate) fn new(alloc: Global, part: CellPart, height: u8) -> Result<Glyph, AllocError>
        requires { part.width ≤ 64 }
        ensures { IfOk result (λ glyph.
            glyph ≡ record { number = part.number; width = part.width; height = height; bits = part.bits.items }) }
    {
        let rows = rows_of(alloc, &part.bits, part.width, height)?;
        Ok(Glyph {
            number: part.number,
            width: part.width,
            bits: part.bits,
            rows,
        })
    }

    /// The character.
    pub(crate) fn number(&self) -> u16
        ensures { result ≡ self.now.number }
    {
        self.number
    }

    /// Columns, in pixels.
    pub(crate) fn width(&self) -> u8
        ensures { result ≡ self.now.width }
    {
        self.width
    }
}

/// A character's cell in a font of a sign (NTCIP 1203 v03, object characterTable).
#[derive(Drop)]
pub struct Cell<'a> {
    glyph: &'a Glyph,
}

impl<'a> Model for Cell<'a> {
    ghost use Rattle.sign_font.specs.Cell.{SizedCell};

    ghost Value = { SizedCell };

    ghost view = { λ c. c.glyph.now };
}

impl<'a> Cell<'a> {
    /// The cell that is kept so.
    pub(crate) fn new(glyph: &'a Glyph) -> Cell<'a>
        ensures { result ≡ glyph.now }
    {
        Cell { glyph }
    }

    /// Columns, in pixels.
    pub fn width(&self) -> u8
        ensures { result ≡ self.now.width }
    {
        let glyph = self.glyph;
        glyph.width
    }

    /// The pixels of a row, counted from 0 at the top, as one word: bit `63 - j` is column `j`, and all other bits are 0.
    pub fn row(&self, r: u8) -> u64
        requires { r < self.now.height }
        ensures { IsRowOf self.now r result }
    {
        let glyph = self.glyph;
        glyph.rows[r as usize]
    }

    /// All rows from the top, each as one word as `row` answers it.
    pub fn rows(&self) -> &[u64]
        ensures count { length result.now ≡ self.now.height }
        ensures each { (r : ℕ) → r < self.now.height → IsRowOf self.now r (slice_index result.now r) }
    {
        let glyph = self.glyph;
        &glyph.rows
    }

    /// Whether a pixel is lit. Its column is counted from 0 at the left, and its row from 0 at the top.
    pub fn bit(&self, column: u8, row: u8) -> bool
        requires column { column < self.now.width }
        requires row { row < self.now.height }
        ensures { result ≡ is_lit self.now column row }
    {
        let glyph = self.glyph;
        is_set(
            &glyph.bits,
            row as usize * glyph.width as usize + column as usize,
        )
    }
}
