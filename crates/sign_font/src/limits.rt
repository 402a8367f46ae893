//! The limits of a sign, over its parts.

ghost use Rattle.std.specs.Prelude.{◌≡◌, ℕ, ◌*◌, ◌^◌, ◌<◌, ◌∷◌, ◌==◌, length, map, find, is_some};
ghost use Rattle.std.specs.List.{list_all};
ghost use Rattle.sign_font.specs.Sign.{cell_of, font_of, sign_of};
ghost use Rattle.sign_font.specs.Limits.{is_rising, is_font, is_cell, is_clear_behind, has_size, has_fonts, has_cells, are_known, has_defaults, first_fault};

use crate::bits::is_set;
use crate::fault::SignFault;
use crate::parts::{CellPart, Defaults, FontPart, SignParts};

/// The fault of the first limit, in their order over the whole sign, that the parts are outside.
pub(crate) fn first_fault(parts: &SignParts) -> Option<SignFault>
    ensures { result ≡ first_fault (sign_of parts.now) }
{
    if !has_size(parts) {
        Some(SignFault::BadSize)
    } else if !has_fonts(parts) {
        Some(SignFault::BadFont)
    } else if !have_cells(&parts.fonts) {
        Some(SignFault::BadCell)
    } else if !has_defaults(parts) {
        Some(SignFault::BadDefault)
    } else if parts.max_pages == 0 {
        Some(SignFault::BadLimit)
    } else {
        None
    }
}

fn has_size(parts: &SignParts) -> bool
    ensures { result ≡ has_size (sign_of parts.now) }
{
    (1..=1024).contains(&parts.width) && (1..=128).contains(&parts.height)
}

fn has_fonts(parts: &SignParts) -> bool
    ensures { result ≡ has_fonts (sign_of parts.now) }
{
    (1..=16).contains(&parts.fonts.len())
        && are_fonts(&parts.fonts)
        && are_fonts_rising(&parts.fonts)
}

fn are_fonts(fonts: &[FontPart]) -> bool
    ensures { result ≡ list_all is_font (map font_of fonts.now) }
{
    fonts.iter().all(|font| is_font(font))
}

fn is_font(font: &FontPart) -> bool
    ensures { result ≡ is_font (font_of font.now) }
{
    font.number != 0 && (1..=64).contains(&font.height)
}

/// Whether the fonts' numbers rise strictly from above 0.
fn are_fonts_rising(fonts: &[FontPart]) -> bool
    ensures { result ≡ is_rising (0 ∷ map (λ font. font.number) fonts.now) }
{
    let mut last = 0;
    for font in fonts {
        if font.number <= last {
            return false;
        }
        last = font.number;
    }
    true
}

fn have_cells(fonts: &[FontPart]) -> bool
    ensures { result ≡ list_all has_cells (map font_of fonts.now) }
{
    fonts.iter().all(|font| has_cells(font))
}

fn has_cells(font: &FontPart) -> bool
    ensures { result ≡ has_cells (font_of font.now) }
{
    font.cells.len() <= 255 && are_cells(font.height, &font.cells) && are_cells_rising(&font.cells)
}

fn are_cells(height: u8, cells: &[CellPart]) -> bool
    ensures { result ≡ list_all (is_cell height) (map cell_of cells.now) }
{
    cells.iter().all(|cell| is_cell(height, cell))
}

fn is_cell(height: u8, cell: &CellPart) -> bool
    ensures { result ≡ is_cell height (cell_of cell.now) }
{
    let pixels = height as usize * cell.width as usize;
    (1..=65535).contains(&cell.number)
        && (1..=64).contains(&cell.width)
        && cell.bits.len() == (pixels + 7) / 8
        && is_clear_behind(&cell.bits, pixels)
}

/// Whether no bit from a place on is set.
fn is_clear_behind(octets: &[u8], pixels: usize) -> bool
    requires { 8 * length octets.now < 2 ^ 64 }
    ensures { result ≡ is_clear_behind octets.now pixels }
{
    (pixels..8 * octets.len()).all(|place| !is_set(octets, place))
}

/// Whether the cells' numbers rise strictly from above 0.
fn are_cells_rising(cells: &[CellPart]) -> bool
    ensures { result ≡ is_rising (0 ∷ map (λ cell. cell.number) cells.now) }
{
    let mut last = 0;
    for cell in cells {
        if cell.number <= last {
            return false;
        }
        last = cell.number;
    }
    true
}

fn has_defaults(parts: &SignParts) -> bool
    ensures { result ≡ has_defaults (sign_of parts.now) }
{
    is_defined(parts.defaults.font, &parts.fonts) && are_known(parts.defaults)
}

/// Whether a font has this number.
fn is_defined(number: u8, fonts: &[FontPart]) -> bool
    ensures { result ≡ is_some (find (λ font. font.number == number) (map font_of fonts.now)) }
{
    fonts.iter().any(|font| font.number == number)
}

/// Whether the justifications and the colours are those that a sign may have.
pub(crate) fn are_known(defaults: Defaults) -> bool
    ensures { result ≡ are_known defaults }
{
    (2..=5).contains(&defaults.line)
        && (2..=4).contains(&defaults.page)
        && defaults.fore <= 9
        && defaults.back <= 9
}
