//! Rows that are put at once, each into eight octets.

ghost use Rattle.std.specs.Prelude.{◌≡◌, ℕ, ◌+◌, ◌-◌, ◌*◌, ◌/◌, ◌%◌, ◌^◌, ◌<◌, ◌≤◌, ◌==◌, ◌&&◌, ◌++◌, drop, min, nat_le, nat_lt, if◌then◌else◌, length, take};
ghost use Rattle.std.specs.Int.{bit_at};
ghost use Rattle.page_plane.specs.Octets.{row_octets, is_bit_set};
ghost use Rattle.page_plane.specs.Put.{IsBlockPutAt, is_in_word};

use crate::octets::row_len;

/// Puts rows one under the other, the first at column `x` of row `y` of octets of this many columns. Each must stand in eight octets,
/// and all of these must be there. What turns and masks a row is worked out once for all rows.
pub(crate) fn put_words(
    octets: &mut [u8],
    columns: u16,
    x: u16,
    y: u16,
    width: u8,
    rows: &[u64],
    on: bool,
)
    requires some { 0 < width }
    requires word { x % 8 + width ≤ 64 }
    requires column { x + width ≤ columns }
    requires room { (y + length rows.now) * row_octets columns + x / 8 + 8 ≤ length octets.old + row_octets columns }
    ensures pixels { IsBlockPutAt octets.old octets.new columns x y width rows.now (length rows.now) on }
    ensures len { length octets.new ≡ length octets.old }
{
    let len = row_len(columns);
    let turn = u32::from(x) % 8;
    let mask = word_mask(turn, width);
    let mut at = usize::from(y) * len + usize::from(x) / 8;
    for bits in rows {
        put_word(octets, at, word_of(*bits, turn, mask), on);
        at += len;
    }
}

/// The bits of a word that lie under a row of this width that begins `turn` pixels after the word.
fn word_mask(turn: u32, width: u8) -> u64
    requires some { 0 < width }
    requires word { turn + width ≤ 64 }
    ensures { (m : ℕ) → m < 64 → (bit_at result (63 - m) == 1) ≡ (nat_le turn m && nat_lt m (turn + width)) }
{
    u64::MAX >> turn & u64::MAX << (64 - (turn + u32::from(width)))
}

/// A row that is turned to the right, under a mask.
fn word_of(bits: u64, turn: u32, mask: u64) -> u64
    requires { turn < 64 }
    ensures { (i : ℕ) → i < 64 → bit_at result i ≡ min (bit_at mask i) (bit_at bits (turn + i)) }
{
    bits >> turn & mask
}

/// Makes the set bits of a word `on` in the eight octets from octet `at` on. Its highest bit is for the first of their bits.
fn put_word(octets: &mut [u8], at: usize, part: u64, on: bool)
    requires { at + 8 ≤ length octets.old }
    ensures bits { (place : ℕ)
        → is_bit_set octets.new place ≡ (if is_in_word at part place then on else is_bit_set octets.old place) }
    ensures len { length octets.new ≡ length octets.old }
{
    put_first(&mut octets[at..], part, on);
}

/// Makes the set bits of a word `on` in the first eight octets.
fn put_first(octets: &mut [u8], part: u64, on: bool)
    requires { 8 ≤ length octets.old }
    ensures bits { (place : ℕ)
        → is_bit_set octets.new place ≡ (if is_in_word 0 part place then on else is_bit_set octets.old place) }
    ensures len { length octets.new ≡ length octets.old }
{
    let mut eight = [0; 8];
    copy_eight(&mut eight, octets);
    copy_eight(octets, &painted_word(&eight, part, on));
}

/// Copies eight octets over the first ones.
fn copy_eight(to: &mut [u8], from: &[u8])
    requires to { 8 ≤ length to.old }
    requires from { 8 ≤ length from.now }
    ensures { to.new ≡ take 8 from.now ++ drop 8 to.old }
{
    for place in 0..8 {
        to[place] = from[place];
    }
}

/// Eight octets with the set bits of a word made `on`, and the others kept. There is no branch, since rows are many; and the octets are
/// read with the lowest first, so that the word alone is turned round.
fn painted_word(octets: &[u8; 8], part: u64, on: bool) -> [u8; 8]
    ensures len { length result ≡ 8 }
    ensures bits { (m : ℕ) → m < 64 → is_bit_set result m ≡ (if bit_at part (63 - m) == 1 then on else is_bit_set octets.now m) }
{
    let part = part.swap_bytes();
    let word = u64::from_le_bytes(*octets);
    ((word & !part) | (part & word_ink(on))).to_le_bytes()
}

/// A word all of whose bits are this.
fn word_ink(on: bool) -> u64
    ensures { result ≡ if on then 2 ^ 64 - 1 else 0 }
{
    if on { u64::MAX } else { 0 }
}
