//! The lines of a character, and its cell.

ghost use Rattle.std.specs.Prelude.{◌≡◌, ◌≤ℤ◌, IfOk, negsuc, pos};
ghost use Rattle.std.specs.Option.{option_map, option_to_list};
ghost use Rattle.sign_font.specs.Sign.{cell_of};
ghost use Rattle.font_bdf.specs.Bitmap.{drawing_of};
ghost use Rattle.font_bdf.specs.Character.{advance_in, cells_in, cells_of_block, drawing_in, size_of};
ghost use Rattle.font_bdf.specs.Chosen.{width_of};
ghost use Rattle.font_bdf.specs.Lines.{after, before};
ghost use Rattle.font_bdf.specs.Parts.{texts};
ghost use Rattle.font_bdf.specs.Reading.{Gives};

use crate::bitmap::Bitmap;
use crate::fault::{BdfFault, BdfProblem, fault_at};
use crate::numbers::{PixelBox, box_in, number_in, within};
use crate::placed::placed;
use crate::rows::FontBox;
use crate::setting::{FontSetting, chosen, spacing_of};
use crate::words::{line_with, place_with};
use sign_font::CellPart;
use std::alloc::Global;

/// The lines before the first one that begins with a word, and those after it.
#[tactic(auto, unfolding(crate::specs::Lines::before, crate::specs::Lines::after))]
pub(crate) fn parted_at<'a, 'b>(
    lines: &'a [&'b [u8]],
    word: &[u8],
) -> Option<(&'a [&'b [u8]], &'a [&'b [u8]])>
    ensures before { option_map (λ parts. texts parts.0.now) result ≡ before word.now (texts lines.now) }
    ensures after { option_map (λ parts. texts parts.1.now) result ≡ after word.now (texts lines.now) }
{
    match line_with(lines, word) {
        Some(place) => Some((&lines[..place], &lines[place + 1..])),
        None => None,
    }
}

/// The columns of the cell of a character: its advance less the spacing between characters.
fn width_of(setting: &FontSetting<'_>, advance: i32) -> i64
    ensures width { result ≡ width_of setting.now advance }
    ensures low { negsuc 8589934592 ≤ℤ result }
    ensures high { result ≤ℤ pos 8589934592 }
{
    i64::from(advance) - i64::from(spacing_of(setting))
}

/// The columns and the rows of a box, each 0 to 255.
fn size_of(pixels: PixelBox) -> Option<(u8, u8)>
    ensures { result ≡ size_of pixels }
{
    let columns = within(0, 255, i64::from(pixels.width))?;
    let rows = within(0, 255, i64::from(pixels.height))?;
    Some((columns as u8, rows as u8))
}

/// The advance of a character: its own, or that of the head of the font. The first line of its header is the line `first` of the font.
#[tactic(auto, unfolding(crate::specs::Character::advance_in))]
fn advance_in(
    font: FontBox,
    header: &[&[u8]],
    first: usize,
    missing: BdfFault,
) -> Result<i32, BdfFault>
    ensures { Gives (λ advance. advance) result (advance_in font (texts header.now)) }
{
    if line_with(header, b"DWIDTH").is_some() {
        return number_in(header, first, b"DWIDTH", missing);
    }
    match font.advance {
        Some(advance) => Ok(advance),
        None => Err(missing),
    }
}

/// The bitmap of a character. The first line of its header is the line `first` of the font, and its first row the line `at`.
#[tactic(auto, unfolding(crate::specs::Character::drawing_in))]
fn drawing_in<'a>(
    font: FontBox,
    header: &[&[u8]],
    rows: &'a [&'a [u8]],
    first: usize,
    missing: BdfFault,
    at: usize,
) -> Result<Bitmap<'a>, BdfFault>
    ensures drawing { Gives drawing_of result (drawing_in font (texts header.now) (texts rows.now)) }
    ensures font { IfOk result (λ bitmap. bitmap.font ≡ font) }
{
    let pixels = box_in(header, first, b"BBX", missing)?;
    let Some((columns, count)) = size_of(pixels) else {
        let place = place_with(header, b"BBX");
        return Err(fault_at(first, place, BdfProblem::BadBox));
    };
    let bitmap = Bitmap {
        font,
        left: 0,
        pixels,
        columns,
        count,
        rows,
    };
    match bitmap.check_rows(at) {
        Ok(()) => Ok(bitmap),
        Err(fault) => Err(fault),
    }
}

/// The cell of a character of this number, or `None` where it is left out. The first line of its header is the line `first` of the
/// font.
#[tactic(auto, unfolding(crate::specs::Character::cells_in))]
fn cell_in(
    alloc: Global,
    setting: &FontSetting<'_>,
    font: FontBox,
    number: u16,
    header: &[&[u8]],
    rows: &[&[u8]],
    first: usize,
) -> Result<Option<CellPart>, BdfFault>
    ensures { Gives (λ cell. option_to_list (option_map cell_of cell)) result
        (cells_in setting.now font number (texts header.now) (texts rows.now)) }
{
    let at = first.saturating_add(header.len());
    let missing = fault_at(at, 0, BdfProblem::NoNumbers);
    let advance = advance_in(font, header, first, missing)?;
    let bitmap = drawing_in(font, header, rows, first, missing, at.saturating_add(1))?;
    let wide = width_of(setting, advance);
    placed(alloc, setting.outside, &bitmap, number, wide, at)
}

/// The cell of a character, or `None` where it isn't taken. Its first line is the line `first` of the font.
#[tactic(auto, unfolding(crate::specs::Character::cells_of_block))]
pub(crate) fn cell_of_block(
    alloc: Global,
    setting: &FontSetting<'_>,
    font: FontBox,
    block: &[&[u8]],
    first: usize,
) -> Result<Option<CellPart>, BdfFault>
    ensures { Gives (λ cell. option_to_list (option_map cell_of cell)) result (cells_of_block setting.now font (texts block.now)) }
{
    let Some((character, _)) = parted_at(block, b"ENDCHAR") else {
        return Err(fault_at(first, block.len(), BdfProblem::NoBitmap));
    };
    let Some((header, rows)) = parted_at(character, b"BITMAP") else {
        return Err(fault_at(first, character.len(), BdfProblem::NoBitmap));
    };
    let missing = fault_at(first, header.len(), BdfProblem::NoNumbers);
    let number = number_in(header, first, b"ENCODING", missing)?;
    match chosen(setting, i64::from(number)) {
        None => Ok(None),
        Some(number) => cell_in(alloc, setting, font, number, header, rows, first),
    }
}
