//! `signctl font`, which makes a font of a sign file from a font in BDF or a font table of NTCIP 1203.

use command_line::{Characters, FontRequest, OutsideChoice};
use file_aids::{FontFault, run_font, run_listing};
use font_bdf::{CharacterRange, FontSetting, Outside};
use std::alloc::{AllocError, Global};
use std::io::{Read, Write};
use tool_streams::ToolFault;

/// The characters that are taken.
fn ranges_of(alloc: Global, named: &[Characters]) -> Result<Vec<CharacterRange>, AllocError> {
    let mut ranges = Vec::new(alloc);
    for Characters { first, last } in named {
        ranges.push(CharacterRange {
            first: *first,
            last: *last,
        })?;
    }
    Ok(ranges)
}

/// Writes the table of the font.
pub(crate) fn answer_font<R: Read, W: Write>(
    alloc: Global,
    asked: &FontRequest<'_>,
    reader: &mut R,
    writer: &mut W,
) -> Result<(), FontFault> {
    if asked.is_table {
        return run_listing(alloc, reader, writer);
    }
    let Ok(characters) = ranges_of(alloc, &asked.characters) else {
        return Err(FontFault::Tool(ToolFault::Memory));
    };
    let setting = FontSetting {
        number: asked.number,
        version: asked.version,
        char_spacing: asked.char_spacing,
        written_spacing: asked.written_spacing,
        line_spacing: asked.line_spacing,
        characters: &characters,
        outside: match asked.outside {
            OutsideChoice::Refuse => Outside::Refuse,
            OutsideChoice::Widen => Outside::Widen,
            OutsideChoice::Crop => Outside::Crop,
            OutsideChoice::Skip => Outside::Skip,
        },
        crop: asked.crop,
        height: asked.height,
    };
    run_font(alloc, &setting, reader, writer)
}
