//! Answers that are written.
ghost use Rattle.std.specs.Prelude.{◌≡◌, [], OnOk};
ghost use Rattle.sign_tool.specs.internal.Blocks.{EndsRefused, WritesReady};

use crate::first::FirstLine;
use crate::ready::Ready;
use std::io::Write;
use tool_streams::{BLOCK, ToolFault, write_whole};

/// How many octets of answers are kept before they are written (own). The shortest answers to a block are fewer.
pub(crate) const MAX_READY: usize = 6 * BLOCK;

/// Writes the answers that are ready, and clears them, if there are many or if no line is left to answer before the next
/// read. After an `Err`, which is `Write`, the writer has taken a beginning of them.
pub(crate) fn write_ready<W: Write>(
    writer: &mut W,
    ready: &mut Ready,
    first: FirstLine,
) -> Result<(), ToolFault>
    requires { ready.old.begun ≡ [] }
    ensures written { WritesReady (W.contents writer.old) (W.contents writer.new) first ready.old.whole ready.new.whole result }
    ensures begun { OnOk result (ready.new.begun ≡ []) }
{
    if let FirstLine::Answered(_) = first
        && ready.whole().len() < MAX_READY
    {
        return Ok(());
    }
    write_whole(writer, ready.whole())?;
    ready.clear();
    Ok(())
}

/// Writes the answers to the lines before the one for whose answer memory was refused, and says how the run ends: `Memory`, or `Write`
/// if the writer fails, which has then taken a beginning of them.
pub(crate) fn end_refused<W: Write>(writer: &mut W, ready: &Ready) -> ToolFault
    ensures { EndsRefused (W.contents writer.old) (W.contents writer.new) ready.now.whole result }
{
    match write_whole(writer, ready.whole()) {
        Ok(()) => ToolFault::Memory,
        Err(fault) => fault,
    }
}
