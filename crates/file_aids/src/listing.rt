//! A font in a table of NTCIP 1203, written as the table of a sign file.
ghost use Rattle.file_aids.specs.Fonts.{WritesListing};

use crate::font::FontFault;
use font_bdf::{BdfProblem, listed_tables};
use std::alloc::Global;
use std::io::{Read, Write};
use tool_streams::{ToolFault, read_whole, write_whole};

/// Reads a font table of NTCIP 1203 to the end of the input, and writes it as the `[[font]]` table of a sign file.
///
/// Nothing is written of a font that isn't taken. After the fault `Write` the writer has taken a beginning of the table.
pub fn run_listing<R: Read, W: Write>(
    alloc: Global,
    reader: &mut R,
    writer: &mut W,
) -> Result<(), FontFault>
    ensures written { WritesListing
        (R.remaining reader.old) (R.remaining reader.new) (W.contents writer.old) (W.contents writer.new) result }
{
    let octets = match read_whole(alloc, reader) {
        Ok(octets) => octets,
        Err(fault) => return Err(FontFault::Tool(fault)),
    };
    let table = match listed_tables(alloc, &octets) {
        Ok(table) => table,
        Err(fault) => match fault.problem {
            BdfProblem::Memory => return Err(FontFault::Tool(ToolFault::Memory)),
            _ => return Err(FontFault::Font(fault)),
        },
    };
    match write_whole(writer, &table) {
        Ok(()) => Ok(()),
        Err(fault) => Err(FontFault::Tool(fault)),
    }
}
