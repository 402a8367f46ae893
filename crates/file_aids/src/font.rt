//! A font in BDF, written as the table of a sign file.
ghost use Rattle.file_aids.specs.Fonts.{WritesTable};

use font_bdf::{BdfFault, BdfProblem, FontSetting, font_tables};
use std::alloc::Global;
use std::io::{Read, Write};
use thiserror::Error;
use tool_streams::{ToolFault, read_whole, write_whole};

/// Why no table was written (own).
#[derive(Clone, Copy, Debug, PartialEq, Eq, Error)]
pub enum FontFault {
    /// The reader or the writer failed, the input is too long, or memory was refused.
    #[error("{0}")]
    Tool(ToolFault),
    /// The input isn't a font in BDF, or a font table of NTCIP 1203, that a sign takes.
    #[error("{0}")]
    Font(BdfFault),
}

/// Reads a font in BDF to the end of the input, and writes it as the `[[font]]` table of a sign file.
///
/// Nothing is written of a font that isn't taken. After the fault `Write` the writer has taken a beginning of the table.
pub fn run_font<R: Read, W: Write>(
    alloc: Global,
    setting: &FontSetting<'_>,
    reader: &mut R,
    writer: &mut W,
) -> Result<(), FontFault>
    ensures written { WritesTable setting.now
        (R.remaining reader.old) (R.remaining reader.new) (W.contents writer.old) (W.contents writer.new) result }
{
    let octets = match read_whole(alloc, reader) {
        Ok(octets) => octets,
        Err(fault) => return Err(FontFault::Tool(fault)),
    };
    let table = match font_tables(alloc, &octets, setting) {
        Ok(table) => table,
        Err(fault) => match fault.problem {
            BdfProblem::Memory => return Err(FontFault::Tool(ToolFault::Memory)),
            _ => return Err(FontFault::Font(fault)),
        },
    };
    match write_whole(writer, &table) {
        Ok(()) => Ok(()),
        Err(fault) => Err(FontFault::Tool(fault)),
    }
}
