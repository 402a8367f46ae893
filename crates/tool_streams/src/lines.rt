//! The lines of an input, and how one is read an octet at a time.
ghost use Rattle.std.specs.Prelude.{◌≡◌};
ghost use Rattle.tool_streams.specs.Lines.{is_mark, text_of};
ghost use Rattle.tool_streams.specs.Streams.{KeepsUnfinished, TakesOctet, TakesLine};

use crate::fault::ToolFault;
use octet_text::push_octet;
use std::io::Read;

/// The most octets of an input that are taken as lines (own).
pub const MAX_INPUT: u32 = 16_777_216;

/// The most octets of a line before its end (own).
pub const MAX_LINE: usize = 8_300;

/// The most octets that a string may have to be judged (own).
pub const MAX_STRING: usize = 4_096;

/// The most octets that are kept of a line: those of the longest line and a carriage return.
pub const MAX_KEPT: usize = MAX_LINE + 1;

/// Where a line begins in an input (own).
#[derive(Clone, Copy)]
pub struct LineStart {
    /// The number of the line, counted from 1.
    pub number: u32,
    /// How many more octets are taken as lines.
    pub left: u32,
}

/// The start of an input.
pub const FIRST_LINE: LineStart = LineStart {
    number: 1,
    left: MAX_INPUT,
};

/// What comes next in an input (own).
#[derive(Clone, Copy)]
pub enum NextLine {
    /// A line.
    Line,
    /// A line with too many octets.
    TooLong,
    /// Octets after which the input ends, without a line feed.
    Unfinished,
    /// The end.
    End,
    /// More octets than an input may have.
    InputTooLong,
}

/// The next octet, or `None` at the end.
fn next_octet<R: Read>(reader: &mut R) -> Result<Option<u8>, ToolFault>
    ensures taken { TakesOctet (R.remaining reader.old) (R.remaining reader.new) result }
{
    let mut octet = [0u8; 1];
    match reader.read(&mut octet) {
        Ok(0) => Ok(None),
        Ok(_) => Ok(Some(octet[0])),
        Err(_) => Err(ToolFault::Read),
    }
}

/// A line without the carriage return at its end.
pub fn text_of(line: &[u8]) -> &[u8]
    ensures text { result.now ≡ text_of line.now }
{
    match line {
        [text @ .., b'\r'] => text,
        _ => line,
    }
}

/// Whether a line is the mark that ends a sign file.
pub fn is_mark(line: &[u8]) -> bool
    ensures { result ≡ is_mark line.now }
{
    text_of(line) == b"%%".as_slice()
}

/// Reads up to the end of a line. Its octets are then in `line`, with the carriage return if it has
/// one. At `NextLine::Unfinished` its first `MAX_KEPT` octets are.
///
/// At most `left` octets are taken as lines. If all of them are present, one more is read to see whether the input goes
/// on. At `NextLine::Line` `left` falls by the octets of the line and its line feed. The errors are `Read` and `Memory`.
pub fn next_line<R: Read>(
    reader: &mut R,
    line: &mut Vec<u8>,
    left: &mut u32,
) -> Result<NextLine, ToolFault>
    ensures taken { TakesLine (R.remaining reader.old) (R.remaining reader.new) left.old left.new line.new.items result }
    ensures unfinished { KeepsUnfinished (R.remaining reader.old) (R.remaining reader.new) left.old line.new.items result }
{
    line.clear();
    let mut is_cut = false;
    let most = *left;
    for taken in 0..most {
        match next_octet(reader)? {
            None if taken == 0 => return Ok(NextLine::End),
            None => return Ok(NextLine::Unfinished),
            Some(b'\n') => {
                if is_cut || text_of(line).len() > MAX_LINE {
                    return Ok(NextLine::TooLong);
                }
                *left = most - taken - 1;
                return Ok(NextLine::Line);
            }
            Some(octet) if line.len() < MAX_KEPT => {
                push_octet(line, octet)?;
            }
            Some(_) => is_cut = true,
        }
    }
    match next_octet(reader)? {
        None if most == 0 => Ok(NextLine::End),
        None => Ok(NextLine::Unfinished),
        Some(_) => Ok(NextLine::InputTooLong),
    }
}
