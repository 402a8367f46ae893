//! The rows of the cells of a font.

ghost use Rattle.std.specs.Prelude.{◌≡◌, ◌<◌, ◌+◌, ◌-◌, ◌*◌, if◌then◌else◌, map, not};
ghost use Rattle.std.specs.List.{list_all};
ghost use Rattle.sign_font.specs.Cell.{is_set};
ghost use Rattle.sign_font.specs.Sign.{cell_of};
ghost use Rattle.font_bdf.specs.Font.{padded};
ghost use Rattle.font_bdf.specs.Rows.{dark_rows, is_dark_in, is_dark_row, without_dark_rows};

use crate::numbers::PixelBox;
use sign_font::CellPart;

/// The box of the cells of a font (own).
#[derive(Clone, Copy)]
pub(crate) struct FontBox {
    /// The box of the font.
    pub(crate) whole: PixelBox,
    /// The advance of each character that tells none.
    pub(crate) advance: Option<i32>,
    /// How many rows of the box are taken off at its top.
    pub(crate) above: u8,
    /// How many rows are added there.
    pub(crate) added: u8,
    /// The rows of each cell.
    pub(crate) height: u8,
}

/// Whether the bit at a place among the bits of these octets is set.
pub(crate) fn is_set(octets: &[u8], place: usize) -> bool
    ensures { result ≡ is_set octets.now place }
{
    let octet = match octets.get(place / 8) {
        Some(octet) => *octet,
        None => 0,
    };
    (octet >> (7 - place % 8)) & 1 == 1
}

/// Whether a pixel of a cell is dark.
fn is_dark_at(cell: &CellPart, row: u8, column: u8) -> bool
    ensures { result ≡ not (is_set cell.now.bits.items (row * cell.now.width + column)) }
{
    !is_set(
        &cell.bits,
        usize::from(row) * usize::from(cell.width) + usize::from(column),
    )
}

/// Whether a cell has no pixel in a row.
fn is_dark_in(cell: &CellPart, row: u8) -> bool
    ensures { result ≡ is_dark_in (cell_of cell.now) row }
{
    for column in 0..cell.width {
        if !is_dark_at(cell, row, column) {
            return false;
        }
    }
    true
}

/// Whether each cell has no pixel in a row.
fn are_dark_in(cells: &[CellPart], row: u8) -> bool
    ensures { result ≡ list_all (λ cell. is_dark_in (cell_of cell) row) cells.now }
{
    cells.iter().all(|cell| is_dark_in(cell, row))
}

/// Whether no cell has a pixel in a row.
fn is_dark_row(cells: &[CellPart], row: u8) -> bool
    ensures { result ≡ is_dark_row (map cell_of cells.now) row }
{
    are_dark_in(cells, row)
}

/// A row of so many, counted from the top or from the bottom.
fn row_from(height: u8, row: u8, below: bool) -> u8
    requires within { row < height }
    ensures row { result ≡ (if below then (height - 1) - row else row) }
{
    if below { height - 1 - row } else { row }
}

/// How many rows of so many have no pixel, before one that has: from the top, or from the bottom.
#[tactic(auto, unfolding(crate::specs::Rows::dark_rows))]
pub(crate) fn dark_rows(cells: &[CellPart], height: u8, below: bool) -> u8
    ensures { result ≡ dark_rows (map cell_of cells.now) height below }
{
    for row in 0..height {
        if !is_dark_row(cells, row_from(height, row, below)) {
            return row;
        }
    }
    height
}

/// The box without the rows at its top and at its bottom in which no cell has a pixel.
pub(crate) fn without_dark_rows(font: FontBox, cells: &[CellPart]) -> FontBox
    ensures { result ≡ without_dark_rows font (map cell_of cells.now) }
{
    let above = dark_rows(cells, font.height, false);
    let below = dark_rows(cells, font.height, true);
    FontBox {
        above,
        height: font.height.saturating_sub(above).saturating_sub(below),
        ..font
    }
}

/// The box with as many rows as are asked for, or `None` if it has more.
pub(crate) fn padded(rows: Option<u8>, font: FontBox) -> Option<FontBox>
    ensures { result ≡ padded rows font }
{
    match rows {
        None => Some(font),
        Some(rows) if rows < font.height => None,
        Some(rows) => Some(FontBox {
            added: (rows - font.height) / 2,
            height: rows,
            ..font
        }),
    }
}
