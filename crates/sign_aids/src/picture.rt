//! A message, drawn and written as a file.
ghost use Rattle.std.specs.Prelude.{◌≡◌, ◌+◌, ◌≤◌, IfOk, IfErr};
ghost use Rattle.message_picture.specs.Drawn.{AllowsSeconds, HasPoints};
ghost use Rattle.tool_streams.specs.Lines.{input_limit};
ghost use Rattle.sign_aids.specs.Pictures.{DrawsInput, DrawsLit, DrawsMessage, IsFaultOf, IsFaultOfLit, IsNoMessage, IsPicture, IsUndrawn, TakesLast, picture_fault};

use crate::lit::{Lit, lit_file};
use message_picture::{DrawFault, View, draw_message};
use multi_layout::check;
use multi_token::Source;
use sign_font::Sign;
use sign_tool::{Start, begin};
use std::alloc::Global;
use std::io::{Read, Write};
use thiserror::Error;
use tool_streams::{LineStart, MAX_STRING, NextLine, ToolFault, next_line, text_of, write_whole};

/// Why no picture was written (own).
#[derive(Clone, Copy, Debug, PartialEq, Eq, Error)]
pub enum PictureFault {
    /// There is no sign or no line, the reader or the writer failed, or memory was refused.
    #[error("{0}")]
    Tool(ToolFault),
    /// The input ends before a message.
    #[error("no message")]
    NoMessage,
    /// A second message begins in this line, counted from 1.
    #[error("line {line}: a second message")]
    SecondMessage { line: u32 },
    /// The message has more than 4,096 octets.
    #[error("too long: a message has at most 4096 octets")]
    TooLong,
    /// The sign refuses the message: the number of the error, and the octet where it stands, counted from 0.
    #[error("refused: error {code} at octet {at}; signctl explain tells why")]
    Refused { code: u8, at: usize },
    /// The message has no such page, but this many.
    #[error("no such page: the last is {pages}")]
    NoPage { pages: u8 },
    /// The message begins anew after so many tenths of a second, and a film lasts for at most 6,000. `u32::MAX` stands for that long or
    /// longer.
    #[error("too long: the message begins anew after {tenths} tenths of a second, and a film lasts for at most 6000; \
        --seconds N takes the first N")]
    LongFilm { tenths: u32 },
    /// A film of so many tenths of a second may have more than 64,000,000 octets.
    #[error("too large: a film of {tenths} tenths of a second has more than 64 MB; --seconds N takes the first N")]
    LargeFilm { tenths: u16 },
    /// A colour of lit pixels was asked for, and the sign has the classic colours.
    #[error("the sign has the classic colours; --lit is for a sign of one colour")]
    ManyColours,
}

/// Reads the one message of an input, from this line on, and sees that the input ends after it.
fn read_message<R: Read>(
    alloc: Global,
    place: LineStart,
    reader: &mut R,
) -> Result<Vec<u8>, PictureFault>
    requires { place.number + place.left ≤ input_limit + 1 }
    ensures last { IfOk result (λ line. TakesLast (R.remaining reader.old) (R.remaining reader.new) line.items) }
    ensures fault { IfErr result (IsNoMessage place (R.remaining reader.old) (R.remaining reader.new)) }
{
    let mut line = Vec::new(alloc);
    let mut left = place.left;
    match next_line(reader, &mut line, &mut left) {
        Ok(NextLine::Line) => {}
        Ok(NextLine::End) => return Err(PictureFault::NoMessage),
        Ok(NextLine::TooLong) => {
            return Err(PictureFault::Tool(ToolFault::LineTooLong { line: place.number }));
        }
        Ok(NextLine::Unfinished) => {
            return Err(PictureFault::Tool(ToolFault::BadLine { line: place.number }));
        }
        Ok(NextLine::InputTooLong) => return Err(PictureFault::Tool(ToolFault::InputTooLong)),
        Err(fault) => return Err(PictureFault::Tool(fault)),
    }
    let second = PictureFault::SecondMessage {
        line: place.number + 1,
    };
    let mut more = Vec::new(alloc);
    match next_line(reader, &mut more, &mut left) {
        Ok(NextLine::End) => Ok(line),
        Ok(NextLine::Line) => Err(second),
        Ok(NextLine::TooLong) => Err(second),
        Ok(NextLine::Unfinished) => Err(second),
        Ok(NextLine::InputTooLong) => Err(PictureFault::Tool(ToolFault::InputTooLong)),
        Err(fault) => Err(PictureFault::Tool(fault)),
    }
}

/// Why a message is not drawn, as this crate says it.
fn picture_fault(fault: DrawFault) -> PictureFault
    ensures { result ≡ picture_fault fault }
{
    match fault {
        DrawFault::Memory => PictureFault::Tool(ToolFault::Memory),
        DrawFault::NoPage { pages } => PictureFault::NoPage { pages },
        DrawFault::TooLarge { tenths } => PictureFault::LargeFilm { tenths },
        DrawFault::TooLong { tenths } => PictureFault::LongFilm { tenths },
    }
}

/// The file of a message.
fn picture_of(
    alloc: Global,
    sign: &Sign,
    message: &[u8],
    view: View,
    side: u8,
) -> Result<Vec<u8>, PictureFault>
    requires side { side ≤ 16 }
    requires seconds { AllowsSeconds view }
    requires points { HasPoints side view }
    ensures drawn { IfOk result (λ file. DrawsMessage side sign.now message.now view file.items) }
    ensures fault { IfErr result (λ e. IsFaultOf side sign.now message.now view e) }
{
    if message.len() > MAX_STRING {
        return Err(PictureFault::TooLong);
    }
    let mut checked = match check(sign, Source::new(message)) {
        Ok(checked) => checked,
        Err(fault) => {
            return Err(PictureFault::Refused {
                code: fault.code,
                at: fault.at,
            });
        }
    };
    match draw_message(alloc, sign, &mut checked, message, view, side) {
        Ok(file) => Ok(file),
        Err(fault) => Err(picture_fault(fault)),
    }
}

/// The file of a message, in a colour if one is asked for.
fn lit_picture(
    alloc: Global,
    sign: &Sign,
    message: &[u8],
    view: View,
    side: u8,
    lit: Option<Lit>,
) -> Result<Vec<u8>, PictureFault>
    requires side { side ≤ 16 }
    requires seconds { AllowsSeconds view }
    requires points { HasPoints side view }
    ensures drawn { IfOk result (λ file. DrawsLit lit side sign.now message.now view file.items) }
    ensures fault { IfErr result (λ e. IsFaultOfLit lit side sign.now message.now view e) }
{
    let Some(lit) = lit else {
        return picture_of(alloc, sign, message, view, side);
    };
    if sign.classic() {
        return Err(PictureFault::ManyColours);
    }
    let plain = match picture_of(alloc, sign, message, view, side) {
        Ok(plain) => plain,
        Err(fault) => return Err(fault),
    };
    match lit_file(alloc, lit, view, &plain) {
        Ok(file) => Ok(file),
        Err(_) => Err(PictureFault::Tool(ToolFault::Memory)),
    }
}

/// Reads an input to its end, and draws its one message: the octets of a file in PPM, GIF or PNG,
/// with `side` by `side` points for each pixel, 1 to 16. The input is that of `check`, with one message.
/// `lit` is the colour of the lit pixels of a sign of one colour, which are amber without it.
pub fn draw_picture<R: Read>(
    alloc: Global,
    sample: bool,
    view: View,
    side: u8,
    lit: Option<Lit>,
    reader: &mut R,
) -> Result<Vec<u8>, PictureFault>
    requires side { side ≤ 16 }
    requires seconds { AllowsSeconds view }
    requires points { HasPoints side view }
    ensures drawn { IfOk result (λ file. IsPicture lit sample side view (R.remaining reader.old) (R.remaining reader.new) file.items) }
    ensures fault { IfErr result (IsUndrawn lit sample side view (R.remaining reader.old) (R.remaining reader.new)) }
{
    let start = match begin(alloc, sample, reader) {
        Ok(start) => start,
        Err(fault) => return Err(PictureFault::Tool(fault)),
    };
    let Start { setup, place } = start;
    let line = match read_message(alloc, place, reader) {
        Ok(line) => line,
        Err(fault) => return Err(fault),
    };
    match lit_picture(alloc, &setup.sign, text_of(&line), view, side, lit) {
        Ok(file) => Ok(file),
        Err(fault) => Err(fault),
    }
}

/// Draws the one message of an input as [`draw_picture`] does, and writes the file. Nothing is written of a message that isn't drawn. After
/// the fault `Write` the writer has taken a beginning of the file.
pub fn run_picture<R: Read, W: Write>(
    alloc: Global,
    sample: bool,
    view: View,
    side: u8,
    lit: Option<Lit>,
    reader: &mut R,
    writer: &mut W,
) -> Result<(), PictureFault>
    requires side { side ≤ 16 }
    requires seconds { AllowsSeconds view }
    requires points { HasPoints side view }
    ensures drawn { DrawsInput lit sample side view
        (R.remaining reader.old) (R.remaining reader.new) (W.contents writer.old) (W.contents writer.new) result }
{
    let file = match draw_picture(alloc, sample, view, side, lit, reader) {
        Ok(file) => file,
        Err(fault) => return Err(fault),
    };
    match write_whole(writer, &file) {
        Ok(()) => Ok(()),
        Err(fault) => Err(PictureFault::Tool(fault)),
    }
}
