//! The digits of a cell, which have its pixels.

use crate::code::Code;
use crate::find::{is_hexadecimal, number_at, text_at};
use crate::findings::Findings;
use crate::part::Part;
use crate::place::Place;
use std::alloc::AllocError;
use toml::Table;

/// The size of a cell in pixels.
#[derive(Clone, Copy)]
struct Size {
    width: usize,
    height: usize,
}

impl Size {
    /// How many pixels there are.
    fn pixels(self) -> usize {
        self.width.saturating_mul(self.height)
    }

    /// How many hexadecimal digits they need, two for each octet.
    fn digits(self) -> usize {
        (self.pixels().saturating_add(7) / 8).saturating_mul(2)
    }

    /// How many a row would have that began an octet.
    fn row_digits(self) -> usize {
        (self.width.saturating_add(7) / 8).saturating_mul(2)
    }

    /// How many bits of the last octet no pixel has.
    fn spare(self) -> usize {
        self.digits()
            .saturating_mul(4)
            .saturating_sub(self.pixels())
    }
}

/// The size of a cell in a font of this height, if it is within its limits.
fn size_of(cell: &Table, height: i64) -> Option<Size> {
    let width = usize::try_from(number_at(cell, "width")?).ok()?;
    let height = usize::try_from(height).ok()?;
    if (1..=64).contains(&width) && (1..=64).contains(&height) {
        Some(Size { width, height })
    } else {
        None
    }
}

/// What a hexadecimal digit is worth.
fn worth(digit: u8) -> Option<u32> {
    char::from(digit).to_digit(16)
}

/// Whether one of the last bits, fewer than eight, of hexadecimal digits is set.
fn is_spare_set(digits: &[u8], spare: u32) -> bool {
    let [.., high, low] = digits else {
        return false;
    };
    let (Some(high), Some(low)) = (worth(*high), worth(*low)) else {
        return false;
    };
    let octet = high.saturating_mul(16).saturating_add(low);
    let unit = 1u32.checked_shl(spare).unwrap_or(1);
    octet & unit.saturating_sub(1) != 0
}

/// Whether a text is binary digits, so many.
fn is_binary(digits: &str, count: usize) -> bool {
    digits.len() == count
        && digits
            .as_bytes()
            .iter()
            .all(|digit| *digit == b'0' || *digit == b'1')
}

/// Whether digits are rows of pixels of which each begins an octet, and has spare bits that are 0.
fn are_rows(digits: &[u8], size: Size) -> bool {
    let each = size.row_digits();
    let spare = each.saturating_mul(4).saturating_sub(size.width);
    for row in 0..size.height {
        let end = row.saturating_add(1).saturating_mul(each);
        let rows = digits.get(..end).unwrap_or(b"");
        if is_spare_set(rows, u32::try_from(spare).unwrap_or(0)) {
            return false;
        }
    }
    digits.len() == each.saturating_mul(size.height)
}

/// Looks at digits for a cell of a size.
fn look_at_digits(
    found: &mut Findings,
    at: Place,
    digits: &str,
    size: Size,
) -> Result<(), AllocError> {
    if digits.len() != size.digits() {
        if is_binary(digits, size.pixels()) {
            let told = "a binary digit for each pixel; in hexadecimal it is \"@\"";
            let parts = [Part::Binary(digits)];
            return found.fault(Code::WrongBits, at, "bits", told, &parts);
        }
        let told = if are_rows(digits.as_bytes(), size) {
            "has @ hexadecimal digits, as if each row began an octet; with no gap @ by @ pixels need @"
        } else {
            "has @ hexadecimal digits, and @ by @ pixels need @"
        };
        let parts = [
            Part::Count(digits.len()),
            Part::Count(size.width),
            Part::Count(size.height),
            Part::Count(size.digits()),
        ];
        return found.fault(Code::WrongBits, at, "bits", told, &parts);
    }
    if is_spare_set(digits.as_bytes(), u32::try_from(size.spare()).unwrap_or(0)) {
        let told = "a bit after the last pixel is 1; the last @ must be 0";
        let parts = [Part::Count(size.spare())];
        return found.fault(Code::WrongBits, at, "bits", told, &parts);
    }
    Ok(())
}

/// Looks at the digits of a cell in a font of this height, if they are hexadecimal.
pub(crate) fn look_at_bits(
    found: &mut Findings,
    at: Place,
    cell: &Table,
    height: i64,
) -> Result<(), AllocError> {
    match (size_of(cell, height), text_at(cell, "bits")) {
        (Some(size), Some(digits)) if is_hexadecimal(digits) => {
            look_at_digits(found, at, digits, size)
        }
        _ => Ok(()),
    }
}
