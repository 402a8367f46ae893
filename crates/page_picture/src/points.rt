//! The points of a picture of a sign.
ghost use Rattle.std.specs.Prelude.{◌≡◌, ◌++◌, ◌+◌, ◌*◌, ◌<◌, ◌≤◌, length, OnOk, IfOk};
ghost use Rattle.std.specs.List.{All};
ghost use Rattle.page_picture.specs.Dots.{dot_line, dots, line_points, row_points, value_at};

use crate::dots::point_of;
use octet_text::push_octet;
use std::alloc::{AllocError, Global};

/// Appends a line of a pixel.
fn push_dot_line(points: &mut Vec<u8>, side: u8, colour: u8, line: u8) -> Result<(), AllocError>
    requires { colour < 15 }
    ensures { OnOk result (points.new.items ≡ points.old.items ++ dot_line side colour line side) }
{
    for point in 0..side {
        push_octet(points, point_of(side, colour, line, point))?;
    }
    Ok(())
}

/// Appends a line of points through a row of pixels.
fn push_line(
    points: &mut Vec<u8>,
    side: u8,
    colours: &[u8],
    width: u16,
    row: u16,
    line: u8,
) -> Result<(), AllocError>
    requires colours { All (λ colour. colour < 15) colours.now }
    requires there { width * row + width ≤ length colours.now }
    ensures { OnOk result (points.new.items ≡ points.old.items ++ line_points side (value_at colours.now width) row line width) }
{
    let start = usize::from(width) * usize::from(row);
    for column in 0..width {
        push_dot_line(points, side, colours[start + usize::from(column)], line)?;
    }
    Ok(())
}

/// Appends the lines of points of a row of pixels.
fn push_row(
    points: &mut Vec<u8>,
    side: u8,
    colours: &[u8],
    width: u16,
    row: u16,
) -> Result<(), AllocError>
    requires colours { All (λ colour. colour < 15) colours.now }
    requires there { width * row + width ≤ length colours.now }
    ensures { OnOk result (points.new.items ≡ points.old.items ++ row_points side (value_at colours.now width) width row side) }
{
    for line in 0..side {
        push_line(points, side, colours, width, row, line)?;
    }
    Ok(())
}

/// The points of a picture of a sign, by the colours of its pixels, row by row: `side` by `side`
/// points for each pixel, each by its number in the palette. The error says that memory was refused.
pub fn dot_points(
    alloc: Global,
    colours: &[u8],
    width: u16,
    height: u16,
    side: u8,
) -> Result<Vec<u8>, AllocError>
    requires colours { All (λ colour. colour < 15) colours.now }
    requires whole { length colours.now ≡ width * height }
    ensures points { IfOk result (λ points. points.items ≡ dots side (value_at colours.now width) width height) }
    ensures range { IfOk result (λ points. All (λ point. point < 16) points.items) }
    ensures count { IfOk result (λ points. length points.items ≡ side * width * (side * height)) }
{
    let mut points = Vec::new(alloc);
    for row in 0..height {
        push_row(&mut points, side, colours, width, row)?;
    }
    Ok(points)
}
