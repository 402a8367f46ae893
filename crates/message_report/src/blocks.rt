//! A page in the sign's colours, by half blocks: two rows of pixels a line.
ghost use Rattle.std.specs.Prelude.{◌≡◌, ◌++◌, ◌+◌, ◌*◌, ◌/◌, ◌<◌, ◌≤◌, ◌^◌, length, OnOk};
ghost use Rattle.page_picture.specs.Colours.{colour_at};
ghost use Rattle.message_report.specs.Blocks.{block_text, blocks_text, change_text, colour_text, colour_within, goes_on, lines_text, two_rows};

use crate::explanation::Piece::{Number, Octets};
use crate::explanation::{Explanation, push_all, push_octets};
use page_picture::PageColours;
use std::alloc::AllocError;

/// What takes back the colours at the end of a line.
const RESET: &[u8] = b"\x1b[0m\n";

/// The number by which an escape gives a colour to the foreground (ISO/IEC 8613-6, select graphic rendition).
const FOREGROUND: u8 = 38;

/// The number by which it gives one to the background.
const BACKGROUND: u8 = 48;

/// The upper half block in UTF-8.
const HALF_BLOCK: &[u8] = &[0xe2, 0x96, 0x80];

/// Appends the escape for a colour, as the foreground or as the background.
#[tactic(auto, unfolding(crate::specs::Blocks::colour_text, crate::specs::Blocks::rgb_text))]
fn push_colour(
    text: &mut Explanation,
    shares: &[u8],
    rendition: u8,
    colour: u8,
) -> Result<(), AllocError>
    requires shares { length shares.now ≡ 48 }
    requires colour { colour ≤ 9 }
    ensures { OnOk result (text.new ≡ text.old ++ colour_text shares.now rendition colour) }
{
    let red = 3 * (usize::from(colour) + 1);
    push_all(
        text,
        &[
            Octets(b"\x1b["),
            Number(u64::from(rendition)),
            Octets(b";2;"),
            Number(u64::from(shares[red])),
            Octets(b";"),
            Number(u64::from(shares[red + 1])),
            Octets(b";"),
            Number(u64::from(shares[red + 2])),
            Octets(b"m"),
        ],
    )
}

/// The colour of a pixel, which is black below the last row.
fn colour_within(colours: &PageColours, row: u16, column: u16) -> u8
    requires { column < colours.now.width }
    ensures colour { result ≡ colour_within (colour_at colours.now) colours.now.height row column }
    ensures range { result ≤ 9 }
{
    if row < colours.height() {
        colours.colour(column, row)
    } else {
        0
    }
}

/// Whether a colour is that of the column to the left, if there is one.
fn goes_on(colours: &PageColours, row: u16, column: u16) -> bool
    requires { column < colours.now.width }
    ensures { result ≡ goes_on (colour_within (colour_at colours.now) colours.now.height row) column }
{
    column > 0 && colour_within(colours, row, column - 1) == colour_within(colours, row, column)
}

/// Appends the escape for a pixel's colour, unless that is the colour of the column to the left.
fn push_change(
    text: &mut Explanation,
    shares: &[u8],
    colours: &PageColours,
    rendition: u8,
    row: u16,
    column: u16,
) -> Result<(), AllocError>
    requires shares { length shares.now ≡ 48 }
    requires column { column < colours.now.width }
    ensures { OnOk result (text.new ≡ text.old
        ++ change_text shares.now rendition (colour_within (colour_at colours.now) colours.now.height row) column) }
{
    if goes_on(colours, row, column) {
        return Ok(());
    }
    push_colour(text, shares, rendition, colour_within(colours, row, column))
}

/// Appends two pixels, one above the other.
#[tactic(auto, unfolding(crate::specs::Blocks::block_text))]
fn push_block(
    text: &mut Explanation,
    shares: &[u8],
    colours: &PageColours,
    row: u16,
    column: u16,
) -> Result<(), AllocError>
    requires shares { length shares.now ≡ 48 }
    requires row { row + 1 < 2 ^ 16 }
    requires column { column < colours.now.width }
    ensures { OnOk result (text.new ≡ text.old
        ++ block_text shares.now (colour_within (colour_at colours.now) colours.now.height row)
        (colour_within (colour_at colours.now) colours.now.height (row + 1)) column) }
{
    push_change(text, shares, colours, FOREGROUND, row, column)?;
    push_change(text, shares, colours, BACKGROUND, row + 1, column)?;
    push_octets(text, HALF_BLOCK)
}

/// Appends a row of pixels and the one below it.
fn push_blocks(
    text: &mut Explanation,
    shares: &[u8],
    colours: &PageColours,
    row: u16,
) -> Result<(), AllocError>
    requires shares { length shares.now ≡ 48 }
    requires row { row + 1 < 2 ^ 16 }
    ensures { OnOk result (text.new ≡ text.old
        ++ blocks_text shares.now (colour_within (colour_at colours.now) colours.now.height row)
        (colour_within (colour_at colours.now) colours.now.height (row + 1)) colours.now.width) }
{
    for column in 0..colours.width() {
        push_block(text, shares, colours, row, column)?;
    }
    Ok(())
}

/// Appends a line.
fn push_two_rows(
    text: &mut Explanation,
    shares: &[u8],
    colours: &PageColours,
    line: u16,
) -> Result<(), AllocError>
    requires shares { length shares.now ≡ 48 }
    requires line { 2 * line + 1 < 2 ^ 16 }
    ensures { OnOk result (text.new ≡ text.old
        ++ two_rows shares.now (colour_at colours.now) colours.now.width colours.now.height line) }
{
    push_blocks(text, shares, colours, 2 * line)?;
    push_octets(text, RESET)
}

/// Appends all lines from the top.
pub(crate) fn push_lines(
    text: &mut Explanation,
    shares: &[u8],
    colours: &PageColours,
) -> Result<(), AllocError>
    requires shares { length shares.now ≡ 48 }
    ensures { OnOk result (text.new ≡ text.old
        ++ lines_text shares.now (colour_at colours.now) colours.now.width colours.now.height ((colours.now.height + 1) / 2)) }
{
    let lines = (colours.height() + 1) / 2;
    for line in 0..lines {
        push_two_rows(text, shares, colours, line)?;
    }
    Ok(())
}
