//! A font in BDF.

ghost use Rattle.std.specs.Prelude.{◌≡◌, ◌≢◌, [], IfErr, IfOk, OnOk, map, slice_index_or, codes};
ghost use Rattle.std.specs.List.{slice_split};
ghost use Rattle.sign_font.specs.Sign.{cell_of, font_of};
ghost use Rattle.font_bdf.specs.Font.{cropped, font_of_bdf, font_of_lines, font_of_parts, font_spaced, font_with, head_of, rows_in};
ghost use Rattle.font_bdf.specs.Lines.{begins};
ghost use Rattle.font_bdf.specs.Parts.{blocks_of, texts};
ghost use Rattle.font_bdf.specs.Reading.{Gives};

use crate::cells::{in_order, read_cells};
use crate::character::parted_at;
use crate::fault::{BdfFault, BdfProblem, fault_at};
use crate::numbers::{box_in, number_found, within};
use crate::rows::{FontBox, padded, without_dark_rows};
use crate::setting::{FontSetting, Outside, spacing_written};
use crate::start::start_problem;
use crate::words::{begins, line_with, lines_of, place_with};
use sign_font::{CellPart, FontPart};
use std::alloc::{AllocError, Global};

/// The parts of lines between those that begin a character: the head of the font, and the lines of each character.
fn parts_of<'a>(alloc: Global, lines: &'a [&'a [u8]]) -> Result<Vec<&'a [&'a [u8]]>, AllocError>
    ensures { IfOk result (λ parts. blocks_of parts.items ≡ slice_split (begins (codes "STARTCHAR")) (texts lines.now)) }
{
    lines
        .split(|line| begins(line, b"STARTCHAR"))
        .collect(alloc)
}

/// The box of the head of a font, 1 to 255 rows high, with the advance that stands there.
#[tactic(auto, unfolding(crate::specs::Font::head_of))]
fn head_of(head: &[&[u8]], missing: BdfFault) -> Result<FontBox, BdfFault>
    ensures { Gives (λ font. font) result (head_of (texts head.now)) }
{
    let whole = box_in(head, 1, b"FONTBOUNDINGBOX", missing)?;
    let Some(height) = within(1, 255, i64::from(whole.height)) else {
        let at = place_with(head, b"FONTBOUNDINGBOX");
        return Err(fault_at(1, at, BdfProblem::BadHeight(whole.height)));
    };
    let advance = number_found(head, b"DWIDTH");
    Ok(FontBox {
        whole,
        advance,
        above: 0,
        added: 0,
        height: height as u8,
    })
}

/// The box of a font without the rows at its top and at its bottom in which no cell has a pixel, where those are to be taken off.
#[tactic(auto, unfolding(crate::specs::Font::cropped))]
fn cropped(
    alloc: Global,
    setting: &FontSetting<'_>,
    font: FontBox,
    blocks: &[&[&[u8]]],
    first: usize,
) -> Result<FontBox, BdfFault>
    ensures { Gives (λ rows. rows) result (cropped setting.now font (blocks_of blocks.now)) }
{
    if !setting.crop {
        return Ok(font);
    }
    match read_cells(alloc, setting, font, blocks, first) {
        Ok(cells) => Ok(without_dark_rows(font, &cells)),
        Err(fault) => Err(fault),
    }
}

/// The box of the cells of a font, 1 to 64 rows high. What is wrong with another is told of the line `at` of the font.
#[tactic(auto, unfolding(crate::specs::Font::rows_in))]
fn rows_in(
    alloc: Global,
    setting: &FontSetting<'_>,
    font: FontBox,
    blocks: &[&[&[u8]]],
    first: usize,
    at: usize,
) -> Result<FontBox, BdfFault>
    ensures { Gives (λ rows. rows) result (rows_in setting.now font (blocks_of blocks.now)) }
{
    let some = cropped(alloc, setting, font, blocks, first)?;
    let Some(all) = padded(setting.height, some) else {
        return Err(fault_at(at, 0, BdfProblem::TooHigh(some.height)));
    };
    if all.height >= 1 && all.height <= 64 {
        Ok(all)
    } else {
        Err(fault_at(at, 0, BdfProblem::BadHeight(i32::from(all.height))))
    }
}

/// The font of these cells, if there are some. What is wrong with none is told of the line `at` of the font.
fn font_with(
    alloc: Global,
    setting: &FontSetting<'_>,
    height: u8,
    cells: Vec<CellPart>,
    at: usize,
) -> Result<FontPart, BdfFault>
    ensures { Gives font_of result (font_with setting.now height (map cell_of cells.items)) }
{
    if cells.is_empty() {
        return Err(fault_at(at, 0, BdfProblem::NoCharacter));
    }
    let Ok(cells) = in_order(alloc, cells) else {
        return Err(fault_at(0, 0, BdfProblem::Memory));
    };
    Ok(FontPart {
        number: setting.number,
        version: setting.version,
        height,
        char_spacing: spacing_written(setting),
        line_spacing: setting.line_spacing,
        cells,
    })
}

/// The font of its head and its characters.
fn font_of_parts(
    alloc: Global,
    setting: &FontSetting<'_>,
    parts: &[&[&[u8]]],
    missing: BdfFault,
) -> Result<FontPart, BdfFault>
    ensures { Gives font_of result (font_of_parts setting.now (blocks_of parts.now)) }
{
    let [head, blocks @ ..] = parts else {
        return Err(missing);
    };
    let font = head_of(head, missing)?;
    let first = head.len().saturating_add(2);
    let at = place_with(head, b"FONTBOUNDINGBOX").saturating_add(1);
    let rows = rows_in(alloc, setting, font, blocks, first, at)?;
    let cells = read_cells(alloc, setting, rows, blocks, first)?;
    font_with(
        alloc,
        setting,
        rows.height,
        cells,
        head.len().saturating_add(1),
    )
}

/// What is said of a font without a box: it is missing before the first bitmap, or before the end.
fn no_box(lines: &[&[u8]]) -> BdfFault {
    match line_with(lines, b"BITMAP") {
        Some(place) => fault_at(1, place, BdfProblem::NoBox),
        None => fault_at(1, lines.len(), BdfProblem::NoBox),
    }
}

/// The first of these lines, or an empty one.
fn first_line<'a>(lines: &[&'a [u8]]) -> &'a [u8]
    ensures { result.now ≡ slice_index_or (texts lines.now) 0 [] }
{
    match lines {
        [line, ..] => line,
        [] => &[],
    }
}

/// The font of the lines before ENDFONT.
#[tactic(auto, unfolding(crate::specs::Font::font_of_lines))]
fn font_of_lines(
    alloc: Global,
    setting: &FontSetting<'_>,
    lines: &[&[u8]],
) -> Result<FontPart, BdfFault>
    ensures { Gives font_of result (font_of_lines setting.now (texts lines.now)) }
{
    let start = first_line(lines);
    if !begins(start, b"STARTFONT") {
        return Err(fault_at(1, 0, start_problem(start)));
    }
    let Ok(parts) = parts_of(alloc, lines) else {
        return Err(fault_at(0, 0, BdfProblem::Memory));
    };
    font_of_parts(alloc, setting, &parts, no_box(lines))
}

/// How many lines there are, without an empty one at the end.
pub(crate) fn last_line(lines: &[&[u8]]) -> usize {
    match lines {
        [.., last] if last.is_empty() => (lines.len() - 1).max(1),
        _ => lines.len(),
    }
}

/// Passes over each fault but that memory was refused.
fn unless_memory(fault: BdfFault) -> Result<(), BdfFault>
    ensures other { OnOk result (fault.problem ≢ BdfProblem.Memory) }
    ensures memory { IfErr result (λ refused. refused.problem ≡ BdfProblem.Memory) }
{
    match fault.problem {
        BdfProblem::Memory => Err(fault),
        _ => Ok(()),
    }
}

/// The font of the lines before ENDFONT: where it isn't told by how much cells are narrower, that by one column, of which each character
/// must fit its cell, or else that by none.
#[tactic(auto, unfolding(crate::specs::Font::font_spaced))]
fn font_spaced(
    alloc: Global,
    setting: &FontSetting<'_>,
    lines: &[&[u8]],
) -> Result<FontPart, BdfFault>
    ensures { Gives font_of result (font_spaced setting.now (texts lines.now)) }
{
    if setting.char_spacing.is_some() {
        return font_of_lines(alloc, setting, lines);
    }
    let narrow = FontSetting {
        char_spacing: Some(1),
        outside: Outside::Refuse,
        ..*setting
    };
    match font_of_lines(alloc, &narrow, lines) {
        Ok(font) => Ok(font),
        Err(fault) => {
            unless_memory(fault)?;
            font_of_lines(alloc, setting, lines)
        }
    }
}

/// Reads a font in BDF.
///
/// A character is taken if one of the ranges of the setting has its number, `ENCODING`. Its cell begins at the origin, and is as wide as
/// its advance, `DWIDTH`, less the spacing between characters, and as high as the box of the font, `FONTBOUNDINGBOX`, but for the rows
/// that `crop` takes off and `height` adds. A pixel of the cell is lit if the bit of the bitmap is set that stands there by `BBX`; what
/// `outside` does with a character that doesn't fit is said there. A font has characters. Other lines are passed over.
///
/// The error has a line that is wrong, of the first character that has one, and what is wrong there. Of one character these are
/// looked at in this order: `ENDCHAR` and `BITMAP`, `ENCODING`, `DWIDTH`, `BBX`, the rows of the bitmap, whether it fits its cell, and
/// whether a character has its number already. If the error isn't `Memory`, the octets are no such font.
#[tactic(auto, unfolding(crate::specs::Font::font_of_bdf))]
pub fn read_font(
    alloc: Global,
    octets: &[u8],
    setting: &FontSetting<'_>,
) -> Result<FontPart, BdfFault>
    ensures { Gives font_of result (font_of_bdf setting.now octets.now) }
{
    let Ok(lines) = lines_of(alloc, octets) else {
        return Err(fault_at(0, 0, BdfProblem::Memory));
    };
    match parted_at(&lines, b"ENDFONT") {
        Some((font, _)) => font_spaced(alloc, setting, font),
        None => Err(no_end(alloc, setting, &lines)),
    }
}

/// What is said of a font without an end: what is wrong before it, or that the end is missing.
fn no_end(alloc: Global, setting: &FontSetting<'_>, lines: &[&[u8]]) -> BdfFault {
    let end = fault_at(0, last_line(lines), BdfProblem::NoEndOfFont);
    match font_spaced(alloc, setting, lines) {
        Err(fault) if fault.line <= end.line => fault,
        _ => end,
    }
}
