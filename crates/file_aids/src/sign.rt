//! A sign file, and what is told of it.
ghost use Rattle.file_aids.specs.Signs.{TellsSign};

use sign_report::sign_report;
use sign_words::SignView;
use std::alloc::Global;
use std::io::{Read, Write};
use tool_streams::{ToolFault, read_whole, write_whole};

/// How a sign file was found (own).
#[derive(Clone, Copy, Debug, PartialEq, Eq)]
pub struct SignFound {
    /// Whether it has no fault, and its sign accepts each of its permanent messages.
    pub is_sound: bool,
    /// Whether nothing in it is warned of.
    pub is_clean: bool,
}

/// Reads a sign file to the end of the input, and writes what it describes, or the faults that it has, with the permanent messages that its
/// sign refuses and with warnings. `view` says how: in words, by the characters of one of its fonts, in JSON, or in lines for editors.
///
/// If the answer is that it is sound, the other modes take it too, and the sign shows each of its permanent messages.
///
/// The errors are `Read`, `InputTooLong`, `Memory` and `Write`. Before `Write` the writer has taken a beginning of what is told, and
/// before the others nothing.
pub fn run_sign<R: Read, W: Write>(
    alloc: Global,
    view: SignView<'_>,
    reader: &mut R,
    writer: &mut W,
) -> Result<SignFound, ToolFault>
    ensures told { TellsSign view.entry (R.remaining reader.old) (R.remaining reader.new)
        (W.contents writer.old) (W.contents writer.new) result }
{
    let octets = match read_whole(alloc, reader) {
        Ok(octets) => octets,
        Err(fault) => return Err(fault),
    };
    let Ok(report) = sign_report(alloc, &octets, view) else {
        return Err(ToolFault::Memory);
    };
    match write_whole(writer, report.text.as_bytes()) {
        Ok(()) => Ok(SignFound {
            is_sound: report.is_taken && report.refusals.is_empty(),
            is_clean: report.found.warnings.is_empty(),
        }),
        Err(fault) => Err(fault),
    }
}
