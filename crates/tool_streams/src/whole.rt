//! An input that is read as a whole.
ghost use Rattle.std.specs.Prelude.{◌≤◌, length, IfErr, IfOk, OnOk};
ghost use Rattle.std.specs.Io.KnownBytes.{Consumes, IsAtEnd};
ghost use Rattle.tool_streams.specs.Lines.{input_limit};
ghost use Rattle.tool_streams.specs.Streams.{IsReadFault, IsSignPart};

use crate::fault::ToolFault;
use crate::lines::MAX_INPUT;
use std::alloc::Global;
use std::io::Read;

/// Reads all of an input. The errors are `Read`, `InputTooLong` and `Memory`.
pub fn read_whole<R: Read>(alloc: Global, reader: &mut R) -> Result<Vec<u8>, ToolFault>
    ensures read { IfOk result (λ octets. Consumes (R.remaining reader.old) (R.remaining reader.new) octets.items) }
    ensures end { OnOk result (IsAtEnd (R.remaining reader.new)) }
    ensures most { IfOk result (λ octets. length octets.items ≤ input_limit) }
    ensures fault { IfErr result (IsReadFault (R.remaining reader.old) (R.remaining reader.new)) }
{
    let mut octets = Vec::new(alloc);
    let mut part = [0; 4096];
    // Each read but the last gives an octet or more.
    for reads in 0..MAX_INPUT + 1 {
        let count = match reader.read(&mut part) {
            Ok(0) => return Ok(octets),
            Ok(count) => count,
            Err(_) => return Err(ToolFault::Read),
        };
        let Ok(()) = octets.extend_from_slice(&part[..count]) else {
            return Err(ToolFault::Memory);
        };
        if octets.len() > MAX_INPUT as usize {
            return Err(ToolFault::InputTooLong);
        }
    }
    Err(ToolFault::InputTooLong)
}

/// Reads a sign file to its end, and appends a line feed and the mark that stands after a sign file in an input. So what is read of the
/// answer and then of another reader is an input that begins with the sign file. The errors are `Read`, `InputTooLong` and `Memory`.
pub fn read_sign<R: Read>(alloc: Global, reader: &mut R) -> Result<Vec<u8>, ToolFault>
    ensures read { IfOk result (λ front. IsSignPart (R.remaining reader.old) (R.remaining reader.new) front.items) }
    ensures fault { IfErr result (IsReadFault (R.remaining reader.old) (R.remaining reader.new)) }
{
    let mut front = match read_whole(alloc, reader) {
        Ok(octets) => octets,
        Err(fault) => return Err(fault),
    };
    match front.extend_from_slice(b"\n%%\n") {
        Ok(()) => Ok(front),
        Err(_) => Err(ToolFault::Memory),
    }
}
