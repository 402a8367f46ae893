//! A page drawn by marks: in all its colours at once, or in the one that a monochrome sign has.
ghost use Rattle.std.specs.Prelude.{◌≡◌, ◌++◌, ◌<◌, ◌≤◌, OnOk, drop, length, map, take};
ghost use Rattle.std.specs.List.{All};
ghost use Rattle.page_plane.specs.Plane.{is_lit};
ghost use Rattle.page_picture.specs.Rows.{marked_rows, row_text, rows_text};
ghost use Rattle.message_report.specs.Pictures.{mark, mark_at};

use crate::explanation::{Explanation, make_room, push_octet};
use page_picture::{Mark, PageColours, write_rows};
use page_plane::Plane;
use std::alloc::AllocError;

/// The mark of a colour: its digit, or a point for black.
fn mark(colour: u8) -> u8
    requires { colour ≤ 9 }
    ensures { result ≡ mark colour }
{
    if colour == 0 { b'.' } else { b'0' + colour }
}

/// Writes the marks of colours at the front of a line.
fn write_marks(line: &mut [u8], colours: &[u8])
    requires room { length colours.now ≤ length line.old }
    requires small { All (λ colour. colour ≤ 9) colours.now }
    ensures len { length line.new ≡ length line.old }
    ensures written { take (length colours.now) line.new ≡ map mark colours.now }
    ensures behind { drop (length colours.now) line.new ≡ drop (length colours.now) line.old }
{
    for (place, colour) in colours.iter().enumerate() {
        line[place] = mark(*colour);
    }
}

/// Appends a row of pixels, which are written where they stand.
fn push_row(text: &mut Explanation, colours: &PageColours, row: u16) -> Result<(), AllocError>
    requires { row < colours.now.height }
    ensures { OnOk result (text.new ≡ text.old ++ row_text (mark_at colours.now) colours.now.width row) }
{
    let colours = colours.row(row);
    let end = text.len + colours.len();
    make_room(&mut text.octets, end)?;
    write_marks(&mut text.octets[text.len..], colours);
    text.len = end;
    push_octet(text, b'\n')?;
    Ok(())
}

/// Appends the rows of pixels from the top.
pub(crate) fn push_rows(text: &mut Explanation, colours: &PageColours) -> Result<(), AllocError>
    ensures { OnOk result (text.new ≡ text.old ++ rows_text (mark_at colours.now) colours.now.width colours.now.height) }
{
    for row in 0..colours.height() {
        push_row(text, colours, row)?;
    }
    Ok(())
}

/// Appends the rows of pixels of a plane from the top, with the mark of colour 1 for a lit pixel and that of black for another. They are
/// written where they stand.
pub(crate) fn push_lit(text: &mut Explanation, plane: &Plane) -> Result<(), AllocError>
    ensures { OnOk result (text.new ≡ text.old ++ marked_rows 49 (is_lit plane.now) plane.now.width plane.now.height) }
{
    let count = (usize::from(plane.width()) + 1) * usize::from(plane.height());
    make_room(&mut text.octets, text.len + count + 8)?;
    write_rows(&mut text.octets[text.len..], plane, Mark::One);
    text.len += count;
    Ok(())
}
