//! Octets that are written in as many writes as it takes.
ghost use Rattle.tool_streams.specs.Streams.{WritesWhole};

use crate::fault::ToolFault;
use std::io::Write;

/// Writes all octets. After an `Err`, which is `Write`, the writer has taken a beginning of them.
pub fn write_whole<W: Write>(writer: &mut W, octets: &[u8]) -> Result<(), ToolFault>
    ensures written { WritesWhole (W.contents writer.old) (W.contents writer.new) octets.now result }
{
    let mut rest = octets;
    while !rest.is_empty() {
        match writer.write(rest) {
            Ok(0) | Err(_) => return Err(ToolFault::Write),
            Ok(count) => rest = &rest[count..],
        }
    }
    Ok(())
}
