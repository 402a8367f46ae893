//! The rows of a plane as lines of text.
ghost use Rattle.std.specs.Prelude.{◌≡◌, ℕ, ◌+◌, ◌-◌, ◌*◌, ◌<◌, ◌≤◌, ◌==◌, [], ◌++◌, ◌∷◌, drop, length, replicate, take, true};
ghost use Rattle.std.specs.List.{list_all};
ghost use Rattle.page_plane.specs.Octets.{row_octets};
ghost use Rattle.page_plane.specs.Plane.{is_lit};
ghost use Rattle.page_picture.specs.Rows.{marked_rows, octet_marks, octet_of};
ghost use Rattle.page_picture.specs.internal.Marks.{IsTable, WritesMarks, WritesRows, eight_marks};

use page_plane::Plane;

/// What stands for a lit pixel in a row of text (own).
#[derive(Clone, Copy)]
pub enum Mark {
    /// `#`, octet 35.
    Hash,
    /// The digit 1, octet 49, as a pixel of colour 1 has it where pages are shown in all their colours.
    One,
}

/// What stands for the eight pixels of each octet, from its highest bit on. For each bit, from the lowest on, what there is stands twice:
/// after a point, and after the mark.
macro_rules! eights {
    ($mark:tt [] $([$($pixel:tt)*])*) => {
        &[$([$($pixel),*]),*]
    };
    ($mark:tt [$bit:tt $($bits:tt)*] $([$($pixel:tt)*])*) => {
        eights!($mark [$($bits)*] $([b'.' $($pixel)*])* $([$mark $($pixel)*])*)
    };
}

const HASHES: &[[u8; 8]; 256] = eights!(b'#' [0 1 2 3 4 5 6 7] []);

const ONES: &[[u8; 8]; 256] = eights!(b'1' [0 1 2 3 4 5 6 7] []);

/// What stands for the eight pixels of each octet.
fn table(mark: Mark) -> &'static [[u8; 8]; 256]
    ensures { IsTable (octet_of mark) result.now }
{
    match mark {
        Mark::Hash => HASHES,
        Mark::One => ONES,
    }
}

/// The marks of the eight pixels of an octet, from its highest bit on.
fn eight_marks(octet: u8, marks: &[[u8; 8]; 256]) -> [u8; 8]
    ensures { (mark : ℕ) → IsTable mark marks.now → result ≡ eight_marks mark octet }
{
    marks[usize::from(octet)]
}

/// Writes eight marks over the first octets.
fn put_eight(text: &mut [u8], eight: [u8; 8])
    requires { 8 ≤ length text.old }
    ensures { text.new ≡ eight ++ drop 8 text.old }
{
    for place in 0..8 {
        text[place] = eight[place];
    }
}

/// Writes the marks of the pixels of octets, eight after eight.
#[inline(always)]
fn mark_octets(text: &mut [u8], octets: &[u8], marks: &[[u8; 8]; 256])
    requires room { 8 * length octets.now ≤ length text.old }
    ensures { WritesMarks marks.now octets.now text.old text.new }
{
    for place in 0..octets.len() {
        put_eight(&mut text[8 * place..], eight_marks(octets[place], marks));
    }
}

/// Whether each of eight octets is this one.
// Inlined, so that the word of an octet that is known is a constant in it.
#[inline(always)]
pub(crate) fn is_word_of(octets: &[u8], octet: u8) -> bool
    requires { length octets.now ≡ 8 }
    ensures { result ≡ list_all (λ other. other == octet) octets.now }
{
    let Some((eight, _)) = octets.split_first_chunk::<8>() else {
        // There are eight octets.
        unreachable!();
    };
    u64::from_le_bytes(*eight) == u64::from_le_bytes([octet; 8])
}

/// Writes a mark over all octets.
fn fill(text: &mut [u8], mark: u8)
    ensures { text.new ≡ replicate (length text.old) mark }
{
    text.fill(mark);
}

/// Whether each of these octets, at least eight, is this one. They are looked at a word at once, and the last word may lie over the one
/// before it.
// Inlined, so that a number of octets that is known is a constant in it.
#[inline(always)]
fn are_all(octets: &[u8], octet: u8) -> bool
    requires { 8 ≤ length octets.now }
    ensures { result ≡ true → list_all (λ other. other == octet) octets.now ≡ true }
{
    let count = octets.len();
    let mut same = is_word_of(&octets[count - 8..], octet);
    for word in 0..count / 8 {
        same &= is_word_of(&octets[8 * word..8 * word + 8], octet);
    }
    same
}

/// Writes the marks of the pixels of octets that have all their pixels.
// Inlined, so that a number of octets that is known is a constant in it.
#[inline(always)]
fn mark_full(text: &mut [u8], octets: &[u8], marks: &[[u8; 8]; 256])
    requires room { 8 * length octets.now ≤ length text.old }
    requires full { list_all (λ octet. octet == 255) octets.now ≡ true }
    ensures { WritesMarks marks.now octets.now text.old text.new }
{
    let mark = eight_marks(u8::MAX, marks)[0];
    fill(&mut text[..8 * octets.len()], mark);
}

/// Writes the marks of the pixels of octets of which all but the last have all their pixels.
// Inlined, so that a number of octets that is known is a constant in it.
#[inline(always)]
fn mark_filled(text: &mut [u8], octets: &[u8], marks: &[[u8; 8]; 256])
    requires room { 8 * length octets.now ≤ length text.old }
    requires some { 1 ≤ length octets.now }
    requires full { list_all (λ octet. octet == 255) (take (length octets.now - 1) octets.now) ≡ true }
    ensures { WritesMarks marks.now octets.now text.old text.new }
{
    let last = octets.len() - 1;
    mark_full(text, &octets[..last], marks);
    mark_octets(&mut text[8 * last..], &octets[last..], marks);
}

/// Writes the marks of the pixels of a piece. Most of a page is dark, and areas may be filled, which a large piece shows at once. A row's
/// last octet may have spare bits, which are never set.
#[inline(always)]
fn mark_piece(text: &mut [u8], octets: &[u8], marks: &[[u8; 8]; 256])
    requires room { 8 * length octets.now ≤ length text.old }
    ensures { WritesMarks marks.now octets.now text.old text.new }
{
    let count = octets.len();
    if count >= 8 && are_all(octets, 0) {
        fill(&mut text[..8 * count], b'.');
    } else if count > 8 && are_all(&octets[..count - 1], u8::MAX) {
        mark_filled(text, octets, marks);
    } else {
        mark_octets(text, octets, marks);
    }
}

/// Writes the marks of the pixels of the octets of a long row: those of sixteen octets at once, and then those of the rest.
fn mark_pixels(text: &mut [u8], octets: &[u8], marks: &[[u8; 8]; 256])
    requires room { 8 * length octets.now ≤ length text.old }
    ensures { WritesMarks marks.now octets.now text.old text.new }
{
    if octets.len() >= 16 {
        mark_piece(text, &octets[..16], marks);
        mark_pixels(&mut text[128..], &octets[16..], marks);
    } else {
        mark_octets(text, octets, marks);
    }
}

/// Writes the marks of the pixels of the octets of a row, N or, if N is 0, any number.
// Inlined, so that a number of octets that is known is a constant in it.
#[inline(always)]
fn mark_row<const N: usize>(text: &mut [u8], octets: &[u8], marks: &[[u8; 8]; 256])
    requires room { 8 * length octets.now ≤ length text.old }
    requires count { 0 < N → length octets.now ≡ N }
    ensures { WritesMarks marks.now octets.now text.old text.new }
{
    if N > 0 {
        mark_piece(text, &octets[..N], marks);
    } else {
        mark_pixels(text, octets, marks);
    }
}

/// Writes the first pixels of a row, as many as this width, and the line feed after them. The row has N octets, or any number if N is 0.
// Inlined, so that a number of octets that is known is a constant in it.
#[inline(always)]
fn write_row<const N: usize>(text: &mut [u8], octets: &[u8], width: usize, marks: &[[u8; 8]; 256])
    requires room { 8 * length octets.now < length text.old }
    requires width { width ≤ 8 * length octets.now }
    requires count { 0 < N → length octets.now ≡ N }
    ensures len { length text.new ≡ length text.old }
    ensures written { (mark : ℕ) → IsTable mark marks.now → take (width + 1) text.new ≡ octet_marks mark octets.now width ++ 10 ∷ [] }
{
    mark_row::<N>(text, octets, marks);
    text[width] = b'\n';
}

/// Writes as many rows of this width, each of which has N octets, or any number if N is 0.
fn write_lines<const N: usize>(
    text: &mut [u8],
    octets: &[u8],
    width: usize,
    height: u16,
    marks: &[[u8; 8]; 256],
)
    requires room { (width + 1) * height + 8 ≤ length text.old }
    requires width { (1 ≤ width) × (width ≤ 1024) }
    requires octets { row_octets width * height ≤ length octets.now }
    requires count { 0 < N → row_octets width ≡ N }
    ensures { (mark : ℕ) → IsTable mark marks.now → WritesRows mark octets.now width height text.old text.new }
{
    if height > 0 {
        let len = (width + 7) / 8;
        write_row::<N>(&mut text[..width + 9], &octets[..len], width, marks);
        write_lines::<N>(
            &mut text[width + 1..],
            &octets[len..],
            width,
            height - 1,
            marks,
        );
    }
}

/// Writes rows by the code for their number of octets. There each place is a constant where it is compiled, and the number isn't looked at
/// again for each row. All other rows are long.
macro_rules! write_by {
    ($len:expr, $text:expr, $octets:expr, $width:expr, $height:expr, $marks:expr, $($n:literal)*) => {
        match $len {
            $($n => write_lines::<$n>($text, $octets, $width, $height, $marks),)*
            _ => write_lines::<0>($text, $octets, $width, $height, $marks),
        }
    };
}

/// Writes as many rows of this width.
fn write_all(text: &mut [u8], octets: &[u8], width: usize, height: u16, marks: &[[u8; 8]; 256])
    requires room { (width + 1) * height + 8 ≤ length text.old }
    requires width { (1 ≤ width) × (width ≤ 1024) }
    requires octets { row_octets width * height ≤ length octets.now }
    ensures { (mark : ℕ) → IsTable mark marks.now → WritesRows mark octets.now width height text.old text.new }
{
    write_by!((width + 7) / 8, text, octets, width, height, marks,
        1 2 3 4 5 6 7 8 9 10 11 12 13 14 15 16 17 18 19 20 21 22 23 24 25 26 27 28 29 30 31 32);
}

/// Writes the rows of a plane as lines of text into the first octets: from the top, and each row from the left, with this mark for a lit
/// pixel and a point for another, and a line feed after each row.
///
/// For a plane of w by h pixels these are `(w + 1) * h` octets. There must be eight octets more, since the pixels of an octet are written
/// at once, and nothing is said of what they are then; those after them stay as they are. This takes no memory.
pub fn write_rows(text: &mut [u8], plane: &Plane, mark: Mark)
    requires room { (plane.now.width + 1) * plane.now.height + 8 ≤ length text.old }
    ensures len { length text.new ≡ length text.old }
    ensures written { take ((plane.now.width + 1) * plane.now.height) text.new
        ≡ marked_rows (octet_of mark) (is_lit plane.now) plane.now.width plane.now.height }
    ensures behind { drop ((plane.now.width + 1) * plane.now.height + 8) text.new
        ≡ drop ((plane.now.width + 1) * plane.now.height + 8) text.old }
{
    write_all(
        text,
        plane.octets(),
        usize::from(plane.width()),
        plane.height(),
        table(mark),
    );
}
