//! The cells of a font, listed for their CRC.

use multi_token::Source;
use sign_font::{Cell, FontInfo, Sign};
use std::alloc::{AllocError, Global};

/// The pixel at a place among those of a cell, which stand row by row: 1 if it is lit, and 0 after the last.
pub(crate) fn pixel(cell: &Cell<'_>, place: usize) -> u8 {
    let width = usize::from(cell.width()).max(1);
    let row = cell.rows().get(place / width).copied().unwrap_or(0);
    let shift = 63u32.saturating_sub((place % width) as u32);
    (row.checked_shr(shift).unwrap_or(0) % 2) as u8
}

/// The octet of eight pixels from a place on, the first in its highest bit.
fn octet_at(cell: &Cell<'_>, first: usize) -> u8 {
    let mut octet: u8 = 0;
    for place in 0..8usize {
        octet = octet % 128 * 2 + pixel(cell, first.saturating_add(place)) % 2;
    }
    octet
}

/// Appends the pixels of a cell as a sign file has them: row by row with no gap, the highest bit of each octet first, and the bits
/// after the last pixel 0.
fn push_pixels(octets: &mut Vec<u8>, cell: &Cell<'_>) -> Result<(), AllocError> {
    let pixels = cell.rows().len().saturating_mul(usize::from(cell.width()));
    for place in 0..pixels.saturating_add(7) / 8 {
        octets.push(octet_at(cell, place.saturating_mul(8)))?;
    }
    Ok(())
}

/// The pixels of a cell as a sign file has them.
pub(crate) fn cell_octets(alloc: Global, cell: &Cell<'_>) -> Result<Vec<u8>, AllocError> {
    let mut octets = Vec::new(alloc);
    push_pixels(&mut octets, cell)?;
    Ok(octets)
}

/// Appends a cell: its number in two octets, the high one first, its width, and its pixels.
fn push_cell(octets: &mut Vec<u8>, number: u16, cell: &Cell<'_>) -> Result<(), AllocError> {
    for octet in number.to_be_bytes() {
        octets.push(octet)?;
    }
    octets.push(cell.width())?;
    push_pixels(octets, cell)
}

/// What one more octet makes of the register of a CRC (ISO/IEC 3309).
fn after(register: u16, octet: u8) -> u16 {
    let mut register = register ^ u16::from(octet);
    for _ in 0..8u8 {
        let half = register / 2;
        register = if register % 2 == 1 {
            half ^ 0x8408
        } else {
            half
        };
    }
    register
}

/// The CRC of octets (ISO/IEC 3309). `message_crc` has at least two: a beacon and a pixel service.
fn crc_of(octets: &[u8]) -> u16 {
    let mut register: u16 = 0xffff;
    for octet in octets {
        register = after(register, *octet);
    }
    register ^ 0xffff
}

/// The CRC of a font's cells (ISO/IEC 3309; what it is over is own): over the height of the font, and then, in the order of their
/// numbers, over each cell's number in two octets, the high one first, its width, and its pixels as a sign file has them. It changes
/// as the cells do, and not with the font's number, version and spacings.
pub(crate) fn cells_crc(alloc: Global, sign: &Sign, font: FontInfo) -> Result<u16, AllocError> {
    let mut source = Source::new(b"");
    let mut octets = Vec::new(alloc);
    octets.push(font.height)?;
    for number in 1..=65535u16 {
        if let Some(cell) = sign.cell(&mut source, font.number, number) {
            push_cell(&mut octets, number, &cell)?;
        }
    }
    Ok(crc_of(&octets))
}
