//! The numbers on the lines of a font in BDF.

ghost use Rattle.std.specs.Prelude.{◌≡◌, ◌<◌, ◌≤◌, ◌^◌, IfSome};
ghost use Rattle.std.specs.List.{find};
ghost use Rattle.std.specs.Option.{option_map};
ghost use Rattle.font_bdf.specs.Lines.{begins};
ghost use Rattle.font_bdf.specs.Numbers.{box_in, box_of, natural_of, number_at, number_in, number_of, within};
ghost use Rattle.font_bdf.specs.Parts.{texts};
ghost use Rattle.font_bdf.specs.Reading.{Gives};

use crate::fault::{BdfFault, BdfProblem, fault_at};
use crate::words::{line_with, word_at};
use octet_text::digits_number;

/// A box of pixels (BDF, FONTBOUNDINGBOX and BBX).
#[derive(Clone, Copy)]
pub(crate) struct PixelBox {
    /// Columns.
    pub(crate) width: i32,
    /// Rows.
    pub(crate) height: i32,
    /// Columns from the origin to the left edge; fewer than 0 to the left of it.
    pub(crate) x: i32,
    /// Rows from the base line to the lower edge; fewer than 0 below it.
    pub(crate) y: i32,
}

/// The number that 1 to 9 decimal digits write.
fn natural_of(digits: &[u8]) -> Option<u32>
    ensures number { result ≡ natural_of digits.now }
    ensures small { IfSome result (λ number. number < 10 ^ 9) }
{
    if digits.is_empty() || digits.len() > 9 {
        return None;
    }
    let number = digits_number(digits)?;
    Some(number as u32)
}

/// The number that a word writes.
#[tactic(auto, unfolding(crate::specs::Numbers::number_of))]
fn number_of(word: &[u8]) -> Option<i32>
    ensures { result ≡ number_of word.now }
{
    match word {
        [] => None,
        [b'-', digits @ ..] => {
            let size = natural_of(digits)?;
            Some(-(size as i32))
        }
        _ => {
            let size = natural_of(word)?;
            Some(size as i32)
        }
    }
}

/// A number as a count, where it is from a lowest to a highest.
pub(crate) fn within(low: u16, high: u16, number: i64) -> Option<u16>
    ensures count { result ≡ within low high number }
    ensures least { IfSome result (λ count. low ≤ count) }
    ensures most { IfSome result (λ count. count ≤ high) }
{
    if number < i64::from(low) || number > i64::from(high) {
        return None;
    }
    Some(number as u16)
}

/// The number that the word of a line at a place writes.
pub(crate) fn number_at(line: &[u8], place: usize) -> Option<i32>
    ensures { result ≡ number_at place line.now }
{
    number_of(word_at(line, place))
}

/// The box of the four numbers after the first word of a line.
#[tactic(auto, unfolding(crate::specs::Numbers::box_of))]
fn box_of(line: &[u8]) -> Option<PixelBox>
    ensures { result ≡ box_of line.now }
{
    let width = number_at(line, 1)?;
    let height = number_at(line, 2)?;
    let x = number_at(line, 3)?;
    let y = number_at(line, 4)?;
    Some(PixelBox {
        width,
        height,
        x,
        y,
    })
}

/// The first of these lines that begins with a word, and which one it is, counted from 0.
#[tactic(auto, using(crate::proofs::WordLemmas::found_some, crate::proofs::WordLemmas::found_none))]
fn found<'a>(lines: &[&'a [u8]], word: &[u8]) -> Option<(usize, &'a [u8])>
    ensures { option_map (λ found. found.1.now) result ≡ find (begins word.now) (texts lines.now) }
{
    match line_with(lines, word) {
        Some(place) => Some((place, lines[place])),
        None => None,
    }
}

/// The number on the first of these lines that begins with a word, if one stands there.
#[tactic(auto, unfolding(crate::specs::Numbers::number_in))]
pub(crate) fn number_found(lines: &[&[u8]], word: &[u8]) -> Option<i32>
    ensures { result ≡ number_in word.now (texts lines.now) }
{
    match found(lines, word) {
        Some((_, line)) => number_at(line, 1),
        None => None,
    }
}

/// The number on the first of these lines that begins with a word. The first of them is the line `first` of the font.
#[tactic(auto, unfolding(crate::specs::Numbers::number_in))]
pub(crate) fn number_in(
    lines: &[&[u8]],
    first: usize,
    word: &[u8],
    missing: BdfFault,
) -> Result<i32, BdfFault>
    ensures { Gives (λ number. number) result (number_in word.now (texts lines.now)) }
{
    let Some((place, line)) = found(lines, word) else {
        return Err(missing);
    };
    match number_at(line, 1) {
        Some(number) => Ok(number),
        None => Err(fault_at(first, place, BdfProblem::BadNumbers)),
    }
}

/// The box on the first of these lines that begins with a word. The first of them is the line `first` of the font.
#[tactic(auto, unfolding(crate::specs::Numbers::box_in))]
pub(crate) fn box_in(
    lines: &[&[u8]],
    first: usize,
    word: &[u8],
    missing: BdfFault,
) -> Result<PixelBox, BdfFault>
    ensures { Gives (λ pixels. pixels) result (box_in word.now (texts lines.now)) }
{
    let Some((place, line)) = found(lines, word) else {
        return Err(missing);
    };
    match box_of(line) {
        Some(pixels) => Ok(pixels),
        None => Err(fault_at(first, place, BdfProblem::BadNumbers)),
    }
}
