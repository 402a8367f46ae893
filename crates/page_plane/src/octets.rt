//! Bits in octets: eight places an octet, from its highest bit on.

ghost use Rattle.std.specs.Prelude.{◌≡◌, ℕ, ◌+◌, ◌-◌, ◌*◌, ◌/◌, ◌%◌, ◌<◌, ◌≤◌, ◌==◌, ◌&&◌, min, nat_le, nat_lt, if◌then◌else◌, length, replicate};
ghost use Rattle.std.specs.Int.{bit_at};
ghost use Rattle.page_plane.specs.Octets.{row_octets, is_bit_set, bit_place};
ghost use Rattle.page_plane.specs.Put.{IsBlockPutAt, IsStripPutAt};

use crate::words::put_words;

/// The octets of a row of this width in pixels.
pub(crate) fn row_len(width: u16) -> usize
    ensures { result ≡ row_octets width }
{
    (usize::from(width) + 7) / 8
}

/// The place of a pixel in the octets of a plane of this width.
pub(crate) fn bit_place(width: u16, x: u16, y: u16) -> usize
    ensures { result ≡ bit_place width x y }
{
    8 * (usize::from(y) * row_len(width)) + usize::from(x)
}

/// The bit at a place.
pub(crate) fn bit(octets: &[u8], place: usize) -> bool
    requires { place < 8 * length octets.now }
    ensures { result ≡ is_bit_set octets.now place }
{
    octets[place / 8] >> (7 - place % 8) & 1 == 1
}

/// Fills rows of this width: every pixel, and no spare bit.
pub(crate) fn fill_rows(octets: &mut [u8], width: u16, height: u16, on: bool)
    requires width { 1 ≤ width }
    requires count { length octets.old ≡ row_octets width * height }
    ensures { (place : ℕ) → place < 8 * length octets.old
        → is_bit_set octets.new place ≡ (on && nat_lt (place % (8 * row_octets width)) width) }
{
    if on {
        octets.fill(u8::MAX);
        if width % 8 != 0 {
            end_rows(octets, width, height);
        }
    } else {
        octets.fill(0);
    }
}

/// Clears the spare bits of rows of this width, all of whose bits are set.
fn end_rows(octets: &mut [u8], width: u16, height: u16)
    requires count { length octets.old ≡ row_octets width * height }
    requires spare { width < 8 * row_octets width }
    requires full { octets.old ≡ replicate (length octets.old) 255 }
    ensures bits { (place : ℕ) → place < 8 * length octets.old
        → is_bit_set octets.new place ≡ nat_lt (place % (8 * row_octets width)) width }
    ensures len { length octets.new ≡ length octets.old }
{
    let len = row_len(width);
    let last = u8::MAX << (8 * len - usize::from(width));
    for y in 0..height {
        octets[usize::from(y) * len + (len - 1)] = last;
    }
}

/// Puts rows one under the other, the first at column `x` of row `y` of octets of this many columns: a whole row at once where each
/// stands in eight octets, as those of characters do, and else one octet of each after the other.
pub(crate) fn put_rows(
    octets: &mut [u8],
    columns: u16,
    x: u16,
    y: u16,
    width: u8,
    rows: &[u64],
    on: bool,
)
    requires width { width ≤ 64 }
    requires column { x + width ≤ columns }
    requires room { row_octets columns * (y + length rows.now) ≤ length octets.old }
    ensures pixels { IsBlockPutAt octets.old octets.new columns x y width rows.now (length rows.now) on }
    ensures len { length octets.new ≡ length octets.old }
{
    let len = row_len(columns);
    let behind = (usize::from(y) + rows.len()) * len + usize::from(x) / 8;
    if width > 0 && u32::from(x) % 8 + u32::from(width) <= 64 && behind + 8 <= octets.len() + len {
        put_words(octets, columns, x, y, width, rows, on);
    } else {
        put_strips(octets, columns, x, y, width, rows, on);
    }
}

/// Puts the rows one octet of each row of octets after the other. Few rows are put in this way, and the registers that it wants would be
/// saved for all others.
#[inline(never)]
fn put_strips(octets: &mut [u8], columns: u16, x: u16, y: u16, width: u8, rows: &[u64], on: bool)
    requires width { width ≤ 64 }
    requires column { x + width ≤ columns }
    requires room { row_octets columns * (y + length rows.now) ≤ length octets.old }
    ensures pixels { IsBlockPutAt octets.old octets.new columns x y width rows.now (length rows.now) on }
    ensures len { length octets.new ≡ length octets.old }
{
    let first = usize::from(x) / 8;
    let end = (usize::from(x) + usize::from(width) + 7) / 8;
    for strip in first..end {
        put_strip(octets, columns, x, y, width, rows, on, strip);
    }
}

/// Puts what comes of these rows to octet `strip` of each row of octets. Some of their columns must stand there. What turns and
/// masks a row for this octet is worked out once for all rows.
fn put_strip(
    octets: &mut [u8],
    columns: u16,
    x: u16,
    y: u16,
    width: u8,
    rows: &[u64],
    on: bool,
    strip: usize,
)
    requires width { width ≤ 64 }
    requires column { x + width ≤ columns }
    requires room { row_octets columns * (y + length rows.now) ≤ length octets.old }
    requires left { 8 * strip < x + width }
    requires right { x < 8 * strip + 8 }
    ensures pixels { IsStripPutAt octets.old octets.new columns strip x y width rows.now (length rows.now) on }
    ensures len { length octets.new ≡ length octets.old }
{
    let len = row_len(columns);
    let turn = (8 * strip + 8 - usize::from(x)) as u32;
    let mask = strip_mask(x, width, strip);
    let mut at = usize::from(y) * len + strip;
    for bits in rows {
        octets[at] = painted(octets[at], part_of(*bits, turn, mask), on);
        at += len;
    }
}

/// The bits of octet `strip` of a row of octets that lie under a row of this width at column `x`.
fn strip_mask(x: u16, width: u8, strip: usize) -> u8
    requires left { 8 * strip < x + width }
    requires right { x < 8 * strip + 8 }
    ensures { (j : ℕ) → j < 8 → (bit_at result (7 - j) == 1) ≡ (nat_le x (8 * strip + j) && nat_lt (8 * strip + j) (x + width)) }
{
    let start = usize::from(x);
    let before = start.saturating_sub(8 * strip);
    let after = (8 * strip + 8).saturating_sub(start + usize::from(width));
    u8::MAX >> before & u8::MAX << after
}

/// The lowest octet of a row that is turned to the left, under a mask. Its highest bit is for pixel `turn - 8` of the row, and
/// each bit below for the next one's. The mask hides the bits for which the row has no pixel.
fn part_of(bits: u64, turn: u32, mask: u8) -> u8
    requires { turn < 72 }
    ensures shown { (j : ℕ) → j < 8 → 8 ≤ turn + j → turn + j < 72
        → bit_at result (7 - j) ≡ min (bit_at mask (7 - j)) (bit_at bits (71 - (turn + j))) }
    ensures hidden { (j : ℕ) → j < 8 → bit_at mask (7 - j) ≡ 0 → bit_at result (7 - j) ≡ 0 }
{
    (bits.rotate_left(turn) & 0xff) as u8 & mask
}

/// An octet with the set bits of `part` made `on`, and the others kept. There is no branch, since rows are many.
fn painted(octet: u8, part: u8, on: bool) -> u8
    ensures { (i : ℕ) → i < 8 → (bit_at result i == 1) ≡ (if bit_at part i == 1 then on else bit_at octet i == 1) }
{
    (octet & !part) | (part & ink(on))
}

/// An octet all of whose bits are this.
fn ink(on: bool) -> u8
    ensures { result ≡ if on then 255 else 0 }
{
    if on { u8::MAX } else { 0 }
}
