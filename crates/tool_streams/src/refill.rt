//! What follows a block that has no whole line.
ghost use Rattle.std.specs.Prelude.{◌≡◌, ◌+◌, ◌<◌, ◌≤◌, IfErr, length, take};
ghost use Rattle.std.specs.Io.KnownBytes.{prepend_known};
ghost use Rattle.tool_streams.specs.Blocks.{EndsWith, HoldsUnfinished, ReadsOn};
ghost use Rattle.tool_streams.specs.Lines.{IsOneLine};

use crate::block::Block;
use crate::fault::ToolFault;
use crate::lines::{LineStart, MAX_KEPT, NextLine, next_line};
use std::alloc::Global;
use std::io::Read;

/// Reads up to the end of a line that has too many octets already, and says how the run ends there.
fn end_of_long<R: Read>(alloc: Global, reader: &mut R, held: &[u8], place: LineStart) -> ToolFault
    requires long { 8301 < length held.now }
    requires most { length held.now ≤ place.left }
    requires one { IsOneLine held.now }
    ensures ends { EndsWith (prepend_known held.now (R.remaining reader.old)) (R.remaining reader.new) place.number place.left result }
    ensures unfinished { HoldsUnfinished (prepend_known held.now (R.remaining reader.old)) (R.remaining reader.new) place.left
        held.now result }
{
    let mut line = Vec::new(alloc);
    let mut left = place.left - held.len() as u32;
    match next_line(reader, &mut line, &mut left) {
        Ok(NextLine::Line) => ToolFault::LineTooLong { line: place.number },
        Ok(NextLine::TooLong) => ToolFault::LineTooLong { line: place.number },
        Ok(NextLine::Unfinished) => ToolFault::BadLine { line: place.number },
        Ok(NextLine::End) => ToolFault::BadLine { line: place.number },
        Ok(NextLine::InputTooLong) => ToolFault::InputTooLong,
        Err(fault) => fault,
    }
}

/// Reads on where no line ends among the octets that wait, and says whether there are more of them now or the input is
/// at its end. The errors are the faults of the line and its input, `Read`, and `Memory`, which only a line that is too long needs.
/// After `BadLine`, where the input ends within the line, its octets wait, or the first `MAX_KEPT` at least.
///
/// At most `left` octets are taken as lines. One more is read to see whether the input goes on.
pub fn read_on<R: Read>(
    alloc: Global,
    reader: &mut R,
    block: &mut Block,
    place: LineStart,
) -> Result<bool, ToolFault>
    requires most { length block.old ≤ place.left + 1 }
    requires one { IsOneLine (take place.left block.old) }
    ensures on { ReadsOn (R.remaining reader.old) (R.remaining reader.new) place.number place.left block.old block.new result }
    ensures unfinished { IfErr result
        (HoldsUnfinished (prepend_known block.old (R.remaining reader.old)) (R.remaining reader.new) place.left block.new) }
{
    let held = block.len();
    let left = place.left as usize;
    if held > left {
        return Err(ToolFault::InputTooLong);
    }
    if held > MAX_KEPT {
        return Err(end_of_long(alloc, reader, block.first(held), place));
    }
    let count = block.read_more(reader, left - held + 1)?;
    if count > 0 {
        return Ok(true);
    }
    if held > 0 {
        return Err(ToolFault::BadLine { line: place.number });
    }
    Ok(false)
}
