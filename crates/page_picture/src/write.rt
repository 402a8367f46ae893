//! The colours of what is shown of a text, written over lent octets.
ghost use Rattle.std.specs.List.{list_all};
ghost use Rattle.std.specs.Int.{bit_at};
ghost use Rattle.std.specs.Prelude.{◌≡◌, ◌+◌, ◌-◌, ◌*◌, ◌/◌, ◌%◌, ◌<◌, ◌≤◌, ◌==◌, ◌&&◌, ◌++◌, true, false, nat_le, length, drop, replicate, set, slice_index, if◌then◌else◌};
ghost use Rattle.multi_token.specs.Counted.{RisesBetween};
ghost use Rattle.page_plane.specs.Plane.{is_lit};
ghost use Rattle.multi_meaning.specs.Picture.{picture};
ghost use Rattle.multi_layout.specs.Limits.{plane_limit, reading_limit};
ghost use Rattle.multi_layout.specs.Pages.{IsSized, page_count};
ghost use Rattle.page_picture.specs.Colours.{page_colour};
ghost use Rattle.page_picture.specs.Painted.{HaveValues, IsPainted, TakesSteps, pixel_count};
ghost use Rattle.page_picture.specs.Shown.{IsThere, colours};

use crate::rows::is_word_of;
use multi_layout::{Checked, Shown};
use page_plane::Plane;

/// The colours besides black.
const COLOURS: u8 = 9;

/// Gives an octet this colour where `lit`.
fn paint(octets: &mut [u8], place: usize, lit: bool, colour: u8)
    requires { place < length octets.old }
    ensures { octets.new ≡ set octets.old place (if lit then colour else slice_index octets.old place) }
{
    if lit {
        octets[place] = colour;
    }
}

/// Whether no bit of octets is set.
fn has_no_bit(octets: &[u8]) -> bool
    ensures { result ≡ list_all (λ octet. octet == 0) octets.now }
{
    octets.iter().all(|octet| *octet == 0)
}

/// Whether the octets of a row have no pixel, as many at once as a word has.
fn is_dark(octets: &[u8]) -> bool
    ensures { result ≡ list_all (λ octet. octet == 0) octets.now }
{
    let words = octets.len() / 8;
    for word in 0..words {
        if !is_word_of(&octets[8 * word..8 * word + 8], 0) {
            return false;
        }
    }
    has_no_bit(&octets[8 * words..])
}

/// Whether the bit of a column is set in the octet in which it stands.
fn has_bit(octet: u8, column: usize) -> bool
    ensures { result ≡ (bit_at octet (7 - column % 8) == 1) }
{
    octet >> (7 - column % 8) & 1 == 1
}

/// Gives the pixels that a plane has lit in an octet of a row this colour. Most octets have none.
fn paint_octet(octets: &mut [u8], plane: &Plane, row: u16, place: usize, colour: u8)
    requires whole { plane.now.width * plane.now.height ≤ length octets.old }
    requires row { row < plane.now.height }
    requires place { 8 * place < plane.now.width }
    ensures { IsPainted plane.now.width plane.now.height colour
        (λ x y. (y == row) && ((x / 8 == place) && is_lit plane.now x y)) octets.old octets.new }
{
    let octet = plane.row(row)[place];
    if octet == 0 {
        return;
    }
    let width = usize::from(plane.width());
    let start = width * usize::from(row);
    for column in 8 * place..width.min(8 * place + 8) {
        paint(octets, start + column, has_bit(octet, column), colour);
    }
}

/// Gives the pixels of a row that a plane has lit this colour. Most rows have none.
fn paint_row(octets: &mut [u8], plane: &Plane, row: u16, colour: u8)
    requires whole { plane.now.width * plane.now.height ≤ length octets.old }
    requires row { row < plane.now.height }
    ensures { IsPainted plane.now.width plane.now.height colour (λ x y. (y == row) && is_lit plane.now x y) octets.old octets.new }
{
    let bits = plane.row(row);
    if is_dark(bits) {
        return;
    }
    for place in 0..bits.len() {
        paint_octet(octets, plane, row, place, colour);
    }
}

/// Gives the pixels that a plane has lit this colour.
fn paint_lit(octets: &mut [u8], plane: &Plane, colour: u8)
    requires { plane.now.width * plane.now.height ≤ length octets.old }
    ensures { IsPainted plane.now.width plane.now.height colour (is_lit plane.now) octets.old octets.new }
{
    for row in 0..plane.height() {
        paint_row(octets, plane, row, colour);
    }
}

/// Gives the pixels of a page at a phase that have this colour, 1 to 9, their colour. A monochrome sign shows none but the first, so that
/// nothing is drawn for any other. The string must have the page.
fn paint_colour(
    checked: &mut Checked<'_>,
    classic: bool,
    page: u8,
    phase: u64,
    colour: u8,
    plane: &mut Plane,
    octets: &mut [u8],
)
    requires size { IsSized plane.old checked.old.sign }
    requires classic { classic ≡ checked.old.sign.classic }
    requires page { page < page_count checked.old }
    requires whole { pixel_count checked.old.sign ≤ length octets.old }
    ensures painted { IsPainted checked.old.sign.width checked.old.sign.height colour
        (picture checked.old.sign checked.old.source.octets page phase colour) octets.old octets.new }
    ensures kept { checked.new.sign ≡ checked.old.sign }
    ensures size { (plane.new.width ≡ plane.old.width) × (plane.new.height ≡ plane.old.height) }
    ensures steps { RisesBetween checked.old.source checked.new.source 0 (reading_limit (length checked.old.source.octets)) }
    ensures plane_steps { TakesSteps plane.old plane.new (plane_limit checked.old.sign (length checked.old.source.octets)) }
{
    if !classic && colour > 1 {
        return;
    }
    if !checked.draw(page, phase, colour, plane) {
        // The string has the page.
        unreachable!();
    }
    paint_lit(octets, plane, colour);
}

/// Gives the pixels of a page at a phase their colours, where all are black. The string must have the page.
fn write_page(
    checked: &mut Checked<'_>,
    classic: bool,
    page: u8,
    phase: u64,
    plane: &mut Plane,
    octets: &mut [u8],
)
    requires size { IsSized plane.old checked.old.sign }
    requires classic { classic ≡ checked.old.sign.classic }
    requires page { page < page_count checked.old }
    requires whole { pixel_count checked.old.sign ≤ length octets.old }
    requires black { HaveValues checked.old.sign.width checked.old.sign.height (λ column row. 0) octets.old }
    ensures colours { HaveValues checked.old.sign.width checked.old.sign.height
        (page_colour checked.old.sign checked.old.source.octets page phase) octets.new }
    ensures count { length octets.new ≡ length octets.old }
    ensures behind { drop (pixel_count checked.old.sign) octets.new ≡ drop (pixel_count checked.old.sign) octets.old }
    ensures kept { checked.new.sign ≡ checked.old.sign }
    ensures size { (plane.new.width ≡ plane.old.width) × (plane.new.height ≡ plane.old.height) }
    ensures steps { RisesBetween checked.old.source checked.new.source 0 (9 * reading_limit (length checked.old.source.octets)) }
    ensures plane_steps { TakesSteps plane.old plane.new (9 * plane_limit checked.old.sign (length checked.old.source.octets)) }
{
    for done in 0..COLOURS {
        paint_colour(checked, classic, page, phase, COLOURS - done, plane, octets);
    }
}

/// Gives the first octets the value 0.
fn blacken(octets: &mut [u8], count: usize)
    requires { count ≤ length octets.old }
    ensures { octets.new ≡ replicate count 0 ++ drop count octets.old }
{
    octets[..count].fill(0);
}

/// Writes the colours of all pixels of what is shown of a string into the first octets: 0 to 9, an octet each, row by row from the top, and
/// each row from the left. In an off time all are 0. The octets after them stay as they are.
///
/// `classic` says whether the sign's colours are those of the classic scheme. The plane, in which the page is drawn, must have the
/// sign's size, and what is shown must be a page of the string or an off time. The answer is false if there are fewer octets than pixels,
/// and then nothing changes. This takes no memory. For a string of n octets it takes at most 9 times the steps of [`Checked::draw`] over
/// the string and over the plane.
pub fn write_colours(
    checked: &mut Checked<'_>,
    classic: bool,
    shown: Shown,
    plane: &mut Plane,
    octets: &mut [u8],
) -> bool
    requires size { IsSized plane.old checked.old.sign }
    requires classic { classic ≡ checked.old.sign.classic }
    requires there { IsThere checked.old.source.octets shown }
    ensures room { result ≡ nat_le (pixel_count checked.old.sign) (length octets.old) }
    ensures colours { result ≡ true → octets.new ≡ colours checked.old.sign checked.old.source.octets shown
        ++ drop (pixel_count checked.old.sign) octets.old }
    ensures refused { result ≡ false → (checked.new ≡ checked.old) × (plane.new ≡ plane.old) × (octets.new ≡ octets.old) }
    ensures kept { checked.new.sign ≡ checked.old.sign }
    ensures size { (plane.new.width ≡ plane.old.width) × (plane.new.height ≡ plane.old.height) }
    ensures steps { RisesBetween checked.old.source checked.new.source 0 (9 * reading_limit (length checked.old.source.octets)) }
    ensures plane_steps { TakesSteps plane.old plane.new (9 * plane_limit checked.old.sign (length checked.old.source.octets)) }
{
    let count = usize::from(plane.width()) * usize::from(plane.height());
    if octets.len() < count {
        return false;
    }
    blacken(octets, count);
    if let Shown::Page { page, phase } = shown {
        write_page(checked, classic, page, phase, plane, octets);
    }
    true
}
