//! A picture of a page in PPM.
ghost use Rattle.std.specs.Prelude.{◌≡◌, ◌++◌, ◌*◌, ◌<◌, ◌≤◌, OnOk};
ghost use Rattle.std.specs.List.{flat_map};
ghost use Rattle.page_picture.specs.Colours.{colour_at};
ghost use Rattle.page_picture.specs.Dots.{dot_line, dots, line_points, row_points};
ghost use Rattle.page_picture.specs.Palette.{shares};
ghost use Rattle.page_picture.specs.Ppm.{head_of, ppm_of, scaled_ppm};

use crate::colours::PageColours;
use crate::dots::point_of;
use crate::palette::shares;
use octet_text::{push_number, push_octets};
use std::alloc::AllocError;

/// The points of a pixel's side, if nothing else is asked for.
const SIDE: u8 = 8;

/// Appends a line of a pixel.
fn push_dot_line(
    text: &mut Vec<u8>,
    side: u8,
    classic: bool,
    colour: u8,
    line: u8,
) -> Result<(), AllocError>
    requires { colour < 15 }
    ensures { OnOk result (text.new.items ≡ text.old.items ++ flat_map (shares classic) (dot_line side colour line side)) }
{
    for point in 0..side {
        push_octets(text, shares(classic, point_of(side, colour, line, point)))?;
    }
    Ok(())
}

/// Appends a line of points through a row of pixels.
fn push_line(
    text: &mut Vec<u8>,
    side: u8,
    classic: bool,
    colours: &PageColours,
    row: u16,
    line: u8,
) -> Result<(), AllocError>
    requires { row < colours.now.height }
    ensures { OnOk result
        (text.new.items
        ≡ text.old.items ++ flat_map (shares classic) (line_points side (colour_at colours.now) row line colours.now.width)) }
{
    for column in 0..colours.width() {
        push_dot_line(text, side, classic, colours.colour(column, row), line)?;
    }
    Ok(())
}

/// Appends the lines of points of a row of pixels.
fn push_row(
    text: &mut Vec<u8>,
    side: u8,
    classic: bool,
    colours: &PageColours,
    row: u16,
) -> Result<(), AllocError>
    requires { row < colours.now.height }
    ensures { OnOk result
        (text.new.items
        ≡ text.old.items ++ flat_map (shares classic) (row_points side (colour_at colours.now) colours.now.width row side)) }
{
    for line in 0..side {
        push_line(text, side, classic, colours, row, line)?;
    }
    Ok(())
}

/// Appends the lines of points of all rows.
fn push_rows(
    text: &mut Vec<u8>,
    side: u8,
    classic: bool,
    colours: &PageColours,
) -> Result<(), AllocError>
    ensures { OnOk result
        (text.new.items
        ≡ text.old.items ++ flat_map (shares classic) (dots side (colour_at colours.now) colours.now.width colours.now.height)) }
{
    for row in 0..colours.height() {
        push_row(text, side, classic, colours, row)?;
    }
    Ok(())
}

/// Appends what a file in PPM begins with, for a picture of this size in points.
#[tactic(auto, unfolding(crate::specs::Ppm::head_of))]
fn push_head(text: &mut Vec<u8>, width: u64, height: u64) -> Result<(), AllocError>
    ensures { OnOk result (text.new.items ≡ text.old.items ++ head_of width height) }
{
    push_octets(text, b"P6\n")?;
    push_number(text, width)?;
    push_octets(text, b" ")?;
    push_number(text, height)?;
    push_octets(text, b"\n255\n")
}

impl PageColours {
    /// Appends a picture of the page as a file in PPM: `side` by `side` points for each pixel, with a dot that shines in the pixel's
    /// colour, or is dark, and is round from 4 points on. With `classic` these are the ten classic colours, and else all but 0 is
    /// amber. The text grows by three octets for each point, and up to 19 before them. The error says that memory was refused.
    #[tactic(auto, unfolding(crate::specs::Ppm::scaled_ppm))]
    pub fn push_scaled_ppm(
        &self,
        text: &mut Vec<u8>,
        classic: bool,
        side: u8,
    ) -> Result<(), AllocError>
        ensures { OnOk result (text.new.items ≡ text.old.items ++ scaled_ppm side classic self.now) }
    {
        let scale = u64::from(side);
        push_head(
            text,
            scale * u64::from(self.width()),
            scale * u64::from(self.height()),
        )?;
        push_rows(text, side, classic, self)
    }

    /// Appends the same picture with 8 by 8 points for each pixel. The text grows by at most 25,165,841 octets: 192 for each pixel, and up
    /// to 17 before them. The error says that memory was refused.
    pub fn push_ppm(&self, text: &mut Vec<u8>, classic: bool) -> Result<(), AllocError>
        ensures { OnOk result (text.new.items ≡ text.old.items ++ ppm_of classic self.now) }
    {
        self.push_scaled_ppm(text, classic, SIDE)
    }
}
