//! The sample sign, which a program can make without a file and which tests make and change.

ghost use Rattle.std.specs.Prelude.{◌≡◌, IfOk};
ghost use Rattle.sign_font.specs.Sign.{cell_of, font_of, sign_of};
ghost use Rattle.sign_font.specs.Sample.{sample, small_font, large_font};

use crate::parts::{CellPart, Defaults, FontPart, LineFill, SignParts};
use std::alloc::{AllocError, Global};

/// The parts of the sample sign: monochrome, 12 columns and 7 rows, with two fonts (own).
pub fn sample_sign(alloc: Global) -> Result<SignParts, AllocError>
    ensures { IfOk result (λ parts. sign_of parts ≡ sample) }
{
    Ok(SignParts {
        width: 12,
        height: 7,
        classic: false,
        max_pages: 2,
        beacons: false,
        pixel_service: false,
        line_fill: LineFill::Off,
        defaults: Defaults {
            font: 1,
            line: 3,
            page: 3,
            page_on: 30,
            page_off: 0,
            flash_on: 5,
            flash_off: 5,
            fore: 1,
            back: 0,
        },
        fonts: vec![in alloc; small(alloc)?, large(alloc)?]?,
    })
}

fn small(alloc: Global) -> Result<FontPart, AllocError>
    ensures { IfOk result (λ part. font_of part ≡ small_font) }
{
    Ok(FontPart {
        number: 1,
        version: 6699,
        height: 3,
        char_spacing: 1,
        line_spacing: 1,
        cells: vec![in alloc;
            cell(alloc, 32, 2, &[0x00])?,
            cell(alloc, 65, 3, &[0x5e, 0x80])?,
            cell(alloc, 73, 1, &[0xe0])?,
            cell(alloc, 91, 2, &[0xec])?,
            cell(alloc, 93, 2, &[0xdc])?,
        ]?,
    })
}

fn large(alloc: Global) -> Result<FontPart, AllocError>
    ensures { IfOk result (λ part. font_of part ≡ large_font) }
{
    Ok(FontPart {
        number: 2,
        version: 0,
        height: 5,
        char_spacing: 2,
        line_spacing: 2,
        cells: vec![in alloc; cell(alloc, 65, 4, &[0x69, 0xf9, 0x90])?]?,
    })
}

fn cell(alloc: Global, number: u16, width: u8, bits: &[u8]) -> Result<CellPart, AllocError>
    ensures { IfOk result (λ part. cell_of part ≡ record { number = number; width = width; bits = bits.now }) }
{
    Ok(CellPart {
        number,
        width,
        bits: bits.to_vec(alloc)?,
    })
}
