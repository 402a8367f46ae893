//! Bits of octets, the highest of each octet first.

ghost use Rattle.std.specs.Prelude.{◌≡◌, ℕ, ◌+◌, ◌^◌, ◌<◌, ◌≤◌, length, IfOk};
ghost use Rattle.sign_font.specs.Cell.{is_set};
ghost use Rattle.sign_font.specs.internal.Rows.{AreRowsOf, IsWordOf};

use std::alloc::{AllocError, Global};

/// Whether the bit at a place is set; past the last octet none is.
pub(crate) fn is_set(octets: &[u8], place: usize) -> bool
    ensures { result ≡ is_set octets.now place }
{
    match octets.get(place / 8) {
        Some(octet) => (*octet >> (7 - place % 8)) & 1 == 1,
        None => false,
    }
}

/// The bits from a place on, at most 64, as one word: the first in bit 63, and no other bit.
pub(crate) fn word_of(octets: &[u8], first: usize, width: u8) -> u64
    requires width { width ≤ 64 }
    requires room { first + width < 2 ^ 64 }
    ensures { IsWordOf octets.now first width result }
{
    let mut word = 0;
    for column in 0..width {
        if is_set(octets, first + column as usize) {
            word |= 1 << (63 - column);
        }
    }
    word
}

/// The rows of a cell from the top, each as one word.
pub(crate) fn rows_of(
    alloc: Global,
    octets: &[u8],
    width: u8,
    height: u8,
) -> Result<Vec<u64>, AllocError>
    requires { width ≤ 64 }
    ensures len { IfOk result (λ rows. length rows.items ≡ height) }
    ensures rows { IfOk result (λ rows. AreRowsOf octets.now width rows.items) }
{
    let mut rows = Vec::with_capacity(alloc, height as usize)?;
    for row in 0..height {
        rows.push(word_of(octets, row as usize * width as usize, width))?;
    }
    Ok(rows)
}
