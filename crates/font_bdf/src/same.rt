//! Whether two fonts are the same.

ghost use Rattle.std.specs.Prelude.{◌≡◌, IsTrue, map};
ghost use Rattle.sign_font.specs.Sign.{cell_of, font_of};

use sign_font::{CellPart, FontPart};

/// Whether two cells have the same number, width and octets.
fn is_same_cell(cell: &CellPart, other: &CellPart) -> bool
    ensures { IsTrue result → cell_of cell.now ≡ cell_of other.now }
{
    cell.number == other.number
        && cell.width == other.width
        && cell.bits.as_slice() == other.bits.as_slice()
}

/// Whether cells are the same as others, one after the other.
fn are_same_cells(cells: &[CellPart], others: &[CellPart]) -> bool
    ensures { IsTrue result → map cell_of cells.now ≡ map cell_of others.now }
{
    if cells.len() != others.len() {
        return false;
    }
    for place in 0..cells.len() {
        if !is_same_cell(&cells[place], &others[place]) {
            return false;
        }
    }
    true
}

/// Whether two fonts have the same numbers and the same cells.
pub(crate) fn is_same_font(font: &FontPart, other: &FontPart) -> bool
    ensures { IsTrue result → font_of font.now ≡ font_of other.now }
{
    font.number == other.number
        && font.version == other.version
        && font.height == other.height
        && font.char_spacing == other.char_spacing
        && font.line_spacing == other.line_spacing
        && are_same_cells(&font.cells, &other.cells)
}
