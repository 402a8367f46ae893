//! A bitmap in its cell.

ghost use Rattle.std.specs.Prelude.{◌≡◌, ◌≢◌, ◌<◌, ◌≤ℤ◌, ◌+ℤ◌, ◌-ℤ◌, ◌∷◌, [], IfErr, IfOk, Some, negsuc, pos};
ghost use Rattle.std.specs.Int.{int_max, int_min};
ghost use Rattle.std.specs.Option.{option_map, option_to_list};
ghost use Rattle.sign_font.specs.Sign.{cell_of};
ghost use Rattle.font_bdf.specs.Bitmap.{drawing_of};
ghost use Rattle.font_bdf.specs.Placed.{cell_with, cropped_cells, fitting, placed, wide_of, widened, widened_cells};
ghost use Rattle.font_bdf.specs.Numbers.{within};
ghost use Rattle.font_bdf.specs.Reading.{Gives};

use crate::bitmap::Bitmap;
use crate::fault::{BdfFault, BdfProblem, fault_at};
use crate::numbers::within;
use crate::setting::Outside;
use sign_font::CellPart;
use std::alloc::Global;

/// The columns of a cell, 1 to 64. What is wrong with others is told of the line `at` of the font.
fn columns_of(number: u16, wide: i64, at: usize) -> Result<u8, BdfFault>
    ensures width { Gives (λ width. width) result (within 1 64 wide) }
    ensures some { IfOk result (λ width. 0 < width) }
    ensures fault { IfErr result (λ fault. fault.problem ≢ BdfProblem.Memory) }
{
    match within(1, 64, wide) {
        Some(width) => Ok(width as u8),
        None => {
            let problem = BdfProblem::BadWidth {
                character: number,
                width: wide,
            };
            Err(fault_at(at, 0, problem))
        }
    }
}

/// The columns of a cell outside which the bitmap lights no pixel.
#[tactic(auto, unfolding(crate::specs::Placed::fitting))]
fn fitting(bitmap: &Bitmap<'_>, number: u16, wide: i64, at: usize) -> Result<u8, BdfFault>
    ensures width { Gives (λ width. width) result (fitting (drawing_of bitmap.now) wide bitmap.now.font.height) }
    ensures some { IfOk result (λ width. 0 < width) }
    ensures fault { IfErr result (λ fault. fault.problem ≢ BdfProblem.Memory) }
{
    let width = columns_of(number, wide, at)?;
    let height = bitmap.font.height;
    match bitmap.outside(width, height) {
        None => Ok(width),
        Some((column, row)) => {
            let problem = BdfProblem::Outside {
                character: number,
                column,
                row,
                width,
                height,
            };
            Err(fault_at(at, 0, problem))
        }
    }
}

/// The cell in which a bitmap is drawn.
fn cell_with(
    alloc: Global,
    bitmap: &Bitmap<'_>,
    number: u16,
    width: u8,
) -> Result<Option<CellPart>, BdfFault>
    requires some { 0 < width }
    ensures { Gives (λ cell. option_to_list (option_map cell_of cell)) result
        (Some (cell_with (drawing_of bitmap.now) number bitmap.now.font.height width ∷ [])) }
{
    match bitmap.octets_of(alloc, width, bitmap.font.height) {
        Ok(bits) => Ok(Some(CellPart {
            number,
            width,
            bits,
        })),
        Err(_) => Err(fault_at(0, 0, BdfProblem::Memory)),
    }
}

/// The bitmap in a cell that begins no further to the right than its box.
fn widened<'a>(bitmap: &Bitmap<'a>) -> Bitmap<'a>
    ensures drawing { drawing_of result ≡ widened (drawing_of bitmap.now) }
    ensures font { result.font ≡ bitmap.now.font }
{
    Bitmap {
        left: bitmap.left.min(bitmap.pixels.x),
        ..*bitmap
    }
}

/// The column where a wider cell begins.
fn begin_of(bitmap: &Bitmap<'_>) -> i64
    ensures begin { result ≡ int_min bitmap.now.left bitmap.now.pixels.x }
    ensures low { negsuc 4294967296 ≤ℤ result }
    ensures high { result ≤ℤ pos 4294967296 }
{
    i64::from(bitmap.left.min(bitmap.pixels.x))
}

/// The column after the cell.
fn end_of(bitmap: &Bitmap<'_>, wide: i64) -> i64
    requires low { negsuc 8589934592 ≤ℤ wide }
    requires high { wide ≤ℤ pos 8589934592 }
    ensures end { result ≡ bitmap.now.left +ℤ wide }
    ensures low { negsuc 17179869184 ≤ℤ result }
    ensures high { result ≤ℤ pos 17179869184 }
{
    i64::from(bitmap.left) + wide
}

/// The column after the box of the character.
fn edge_of(bitmap: &Bitmap<'_>) -> i64
    ensures edge { result ≡ bitmap.now.pixels.x +ℤ pos bitmap.now.columns }
    ensures low { negsuc 17179869184 ≤ℤ result }
    ensures high { result ≤ℤ pos 17179869184 }
{
    i64::from(bitmap.pixels.x) + i64::from(bitmap.columns)
}

/// The last of two columns.
fn last_of(one: i64, other: i64) -> i64
    requires one_low { negsuc 17179869184 ≤ℤ one }
    requires one_high { one ≤ℤ pos 17179869184 }
    requires other_low { negsuc 17179869184 ≤ℤ other }
    requires other_high { other ≤ℤ pos 17179869184 }
    ensures last { result ≡ int_max one other }
    ensures low { negsuc 17179869184 ≤ℤ result }
    ensures high { result ≤ℤ pos 17179869184 }
{
    one.max(other)
}

/// How many columns there are from one to another.
fn apart(last: i64, begin: i64) -> i64
    requires last_low { negsuc 17179869184 ≤ℤ last }
    requires last_high { last ≤ℤ pos 17179869184 }
    requires begin_low { negsuc 4294967296 ≤ℤ begin }
    requires begin_high { begin ≤ℤ pos 4294967296 }
    ensures columns { result ≡ last -ℤ begin }
{
    last - begin
}

/// The columns of that cell, which ends no further to the left than the box.
fn wide_of(bitmap: &Bitmap<'_>, wide: i64) -> i64
    requires low { negsuc 8589934592 ≤ℤ wide }
    requires high { wide ≤ℤ pos 8589934592 }
    ensures wide { result ≡ wide_of (drawing_of bitmap.now) wide }
{
    let last = last_of(end_of(bitmap, wide), edge_of(bitmap));
    apart(last, begin_of(bitmap))
}

/// The cell of a bitmap in a wider cell, where it fits that.
fn widened_cell(
    alloc: Global,
    bitmap: &Bitmap<'_>,
    number: u16,
    wide: i64,
    at: usize,
) -> Result<Option<CellPart>, BdfFault>
    requires low { negsuc 8589934592 ≤ℤ wide }
    requires high { wide ≤ℤ pos 8589934592 }
    ensures cells { Gives (λ cell. option_to_list (option_map cell_of cell)) result
        (widened_cells (drawing_of bitmap.now) number wide bitmap.now.font.height) }
{
    let wider = widened(bitmap);
    match fitting(&wider, number, wide_of(bitmap, wide), at) {
        Ok(width) => cell_with(alloc, &wider, number, width),
        Err(fault) => Err(fault),
    }
}

/// The cell of a bitmap, whatever is lit outside.
fn cropped_cell(
    alloc: Global,
    bitmap: &Bitmap<'_>,
    number: u16,
    wide: i64,
    at: usize,
) -> Result<Option<CellPart>, BdfFault>
    ensures { Gives (λ cell. option_to_list (option_map cell_of cell)) result
        (cropped_cells (drawing_of bitmap.now) number wide bitmap.now.font.height) }
{
    match columns_of(number, wide, at) {
        Ok(width) => cell_with(alloc, bitmap, number, width),
        Err(fault) => Err(fault),
    }
}

/// The cell of a bitmap in a cell so many columns wide, or `None` if the character is left out. What is wrong is told of the line `at`
/// of the font.
#[tactic(auto, unfolding(crate::specs::Placed::placed))]
pub(crate) fn placed(
    alloc: Global,
    outside: Outside,
    bitmap: &Bitmap<'_>,
    number: u16,
    wide: i64,
    at: usize,
) -> Result<Option<CellPart>, BdfFault>
    requires low { negsuc 8589934592 ≤ℤ wide }
    requires high { wide ≤ℤ pos 8589934592 }
    ensures cells { Gives (λ cell. option_to_list (option_map cell_of cell)) result
        (placed outside (drawing_of bitmap.now) number wide bitmap.now.font.height) }
{
    match fitting(bitmap, number, wide, at) {
        Ok(width) => cell_with(alloc, bitmap, number, width),
        Err(fault) => match outside {
            Outside::Refuse => Err(fault),
            Outside::Widen => widened_cell(alloc, bitmap, number, wide, at),
            Outside::Crop => cropped_cell(alloc, bitmap, number, wide, at),
            Outside::Skip => Ok(None),
        },
    }
}
