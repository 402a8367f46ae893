//! Messages, explained one after the other.
ghost use Rattle.std.specs.Prelude.{◌≡◌, ◌+◌, ◌-◌, ◌^◌, ◌≤◌, min, ◌++◌, [], OnOk, IfOk, if◌then◌else◌, take};
ghost use Rattle.std.specs.Io.KnownBytes.{prepend_known};
ghost use Rattle.message_cures.specs.Taking.{takes};
ghost use Rattle.message_report.specs.Explanation.{Explains};
ghost use Rattle.sign_aids.specs.Explain.{ExplainsInput, ExplainsRest, asking_of, proposed_one};
ghost use Rattle.sign_aids.specs.internal.Explaining.{EndsAfter, ExplainsNext, IsFurther, IsHeld, TellsLast, TellsMessage, WritesFront};
ghost use Rattle.tool_streams.specs.Lines.{IsOneLine, input_limit, text_of};
ghost use Rattle.tool_streams.specs.Streams.{WritesWhole};

use message_cures::Kind;
use message_report::{Explainer, Explanation, Format, Telling, Told};
use message_words::MessageLine;
use sign_tool::{Setup, Start, begin};
use std::alloc::{AllocError, Global};
use std::io::{Read, Write};
use std::marker::Model;
use tool_streams::{
    BLOCK, Block, LineStart, MAX_LINE, ToolFault, line_end, read_on, text_of, write_whole,
};

/// What was told of the messages of an input (own).
#[derive(Clone, Copy, Debug, PartialEq, Eq)]
pub struct Counts {
    /// How many messages there were.
    pub messages: u32,
    /// How many of them the sign doesn't take.
    pub refused: u32,
    /// How many warnings are told of the others.
    pub warnings: u64,
    /// In place of how many of those that the sign doesn't take something is proposed.
    pub mended: u32,
}

/// A sign whose messages are explained, as they are asked for.
#[derive(Drop)]
struct Asker {
    explainer: Explainer,
    telling: Telling,
    /// The name of the file of the messages.
    name: Vec<u8>,
    /// How many lines stand before them in the input.
    before: u32,
}

impl Model for Asker {
    ghost use Rattle.sign_aids.specs.Explain.{Asking};

    ghost Value = { Asking };

    ghost view = { λ a. record {
      sign = a.explainer.sign;
      most = a.explainer.most;
      telling = a.telling;
      name = a.name.items;
      before = a.before;
    } };
}

/// What was done with what comes next in an input.
#[derive(Clone, Copy)]
enum NextTold {
    /// This was told of a line.
    Whole(Told),
    /// More was read.
    More,
    /// This was told of what stands after the last line feed.
    Last(Told),
    /// There is nothing more.
    End,
}

/// What was read of an input and isn't told of yet.
#[derive(Drop)]
struct Unread {
    /// Where it stands in the input.
    place: LineStart,
    block: Block,
    /// How many of its first octets have no line feed.
    seen: usize,
}

/// What was told and isn't written yet.
#[derive(Drop)]
struct Gathered {
    /// What was told of messages.
    ready: Vec<u8>,
    /// Room for what is told of the next one.
    text: Explanation,
}

/// How many octets are gathered before they are written (own).
const MAX_READY: usize = 6 * BLOCK;

/// How many octets a text has that is written by itself (own): to gather it would take longer.
const LONG_TEXT: usize = 4_096;

impl Gathered {
    /// With nothing told, and all the room that is gathered in. The error says that memory was refused.
    fn new(alloc: Global) -> Result<Gathered, AllocError>
        ensures { IfOk result (λ gathered. gathered.ready.items ≡ []) }
    {
        Ok(Gathered {
            ready: Vec::with_capacity(alloc, MAX_READY + LONG_TEXT)?,
            text: Explanation::new(alloc),
        })
    }

    /// Writes what is ready. After an `Err`, which is `Write`, the writer has taken a beginning of it.
    fn write<W: Write>(&mut self, writer: &mut W) -> Result<(), ToolFault>
        ensures written { WritesWhole (W.contents writer.old) (W.contents writer.new) self.old.ready.items result }
        ensures none { OnOk result (self.new.ready.items ≡ []) }
        ensures text { self.new.text ≡ self.old.text }
    {
        match write_whole(writer, &self.ready) {
            Ok(()) => {
                self.ready.clear();
                Ok(())
            }
            Err(fault) => Err(fault),
        }
    }

    /// Adds the text to what is ready, unless it is long or much is ready. The answer is whether it is added.
    fn gather(&mut self) -> bool
        ensures ready { self.new.ready.items ≡ (if result then self.old.ready.items ++ self.old.text else self.old.ready.items) }
        ensures text { self.new.text ≡ self.old.text }
    {
        if self.text.octets().len() >= LONG_TEXT || self.ready.len() >= MAX_READY {
            return false;
        }
        self.ready.extend_from_slice(self.text.octets()).is_ok()
    }

    /// Adds the text to what is ready, or writes both.
    fn keep<W: Write>(&mut self, writer: &mut W) -> Result<(), ToolFault>
        ensures { WritesFront (W.contents writer.old) (W.contents writer.new) (self.old.ready.items ++ self.old.text)
            self.new.ready.items result }
    {
        if self.gather() {
            return Ok(());
        }
        match self.write(writer) {
            Ok(()) => write_whole(writer, self.text.octets()),
            Err(fault) => Err(fault),
        }
    }

    /// Writes what is ready before a run ends with this fault, and says how it ends: so, or with `Write` if the writer fails.
    fn end_with<W: Write>(&mut self, writer: &mut W, fault: ToolFault) -> ToolFault
        ensures { EndsAfter (W.contents writer.old) (W.contents writer.new) self.old.ready.items fault result }
    {
        match self.write(writer) {
            Ok(()) => fault,
            Err(failed) => failed,
        }
    }
}

impl Asker {
    /// Explains the message of a line, which has this number in the input.
    fn explain(
        &self,
        alloc: Global,
        number: u32,
        line: &[u8],
        text: &mut Explanation,
    ) -> Result<Told, AllocError>
        ensures told { IfOk result (λ told.
            Explains self.now.telling self.now.sign self.now.most self.now.name (number - self.now.before) (text_of line.now) told
            text.new) }
        ensures taken { IfOk result (λ told. told.is_taken ≡ takes self.now.sign (text_of line.now)) }
    {
        text.clear();
        self.explainer.explain(
            alloc,
            self.telling,
            &self.name,
            number.saturating_sub(self.before),
            text_of(line),
            text,
        )
    }

    /// Says what became of a message that the sign doesn't take, if messages are written mended. What is written is the same even if that
    /// can't be said.
    fn say<E: Write>(&self, number: u32, line: &[u8], told: Told, errors: &mut E) {
        let (Format::Mended | Format::Changed) = self.telling.format else {
            return;
        };
        if told.is_taken {
            return;
        }
        let words = match told.proposal {
            Some(Kind::OtherLetters) => "mended, with other letters",
            Some(_) => "mended",
            None => "refused, with no proposal",
        };
        let number = number.saturating_sub(self.before);
        let message = MessageLine(text_of(line));
        let _ = writeln!(errors, "signctl: line {number}: {words}: {message}");
    }

    /// Explains the message of a line, and gathers or writes what is told.
    fn tell<W: Write, E: Write>(
        &self,
        alloc: Global,
        number: u32,
        line: &[u8],
        gathered: &mut Gathered,
        writer: &mut W,
        errors: &mut E,
    ) -> Result<Told, ToolFault>
        ensures { TellsMessage self.now number line.now gathered.old.ready.items gathered.new.ready.items
            (W.contents writer.old) (W.contents writer.new) result }
    {
        let Ok(told) = self.explain(alloc, number, line, &mut gathered.text) else {
            return Err(gathered.end_with(writer, ToolFault::Memory));
        };
        self.say(number, line, told, errors);
        match gathered.keep(writer) {
            Ok(()) => Ok(told),
            Err(fault) => Err(fault),
        }
    }

    /// Explains what stands after the last line feed, where nothing is ready, and writes what is told.
    fn tell_last<W: Write, E: Write>(
        &self,
        alloc: Global,
        number: u32,
        line: &[u8],
        gathered: &mut Gathered,
        writer: &mut W,
        errors: &mut E,
    ) -> Result<Told, ToolFault>
        ensures { TellsLast self.now number line.now (W.contents writer.old) (W.contents writer.new) result }
    {
        if line.len() > MAX_LINE {
            return Err(ToolFault::LineTooLong { line: number });
        }
        let Ok(told) = self.explain(alloc, number, line, &mut gathered.text) else {
            return Err(ToolFault::Memory);
        };
        self.say(number, line, told, errors);
        match write_whole(writer, gathered.text.octets()) {
            Ok(()) => Ok(told),
            Err(fault) => Err(fault),
        }
    }
}

/// Writes what is ready and reads on, where no line ends among the octets that are held. What the input ends with is explained.
fn explain_more<R: Read, W: Write, E: Write>(
    alloc: Global,
    asker: &Asker,
    unread: &mut Unread,
    gathered: &mut Gathered,
    reader: &mut R,
    writer: &mut W,
    errors: &mut E,
) -> Result<NextTold, ToolFault>
    requires held { IsHeld unread.old.place unread.old.block unread.old.seen }
    requires none { IsOneLine (take unread.old.place.left unread.old.block) }
    ensures explains { ExplainsNext asker.now unread.old.place unread.new.place (prepend_known unread.old.block (R.remaining reader.old))
        (R.remaining reader.new) unread.new.block (W.contents writer.old) (W.contents writer.new) gathered.old.ready.items
        gathered.new.ready.items result }
    ensures further { IfOk result
        (IsFurther unread.old.place unread.new.place unread.old.block unread.new.block unread.new.seen) }
{
    match gathered.write(writer) {
        Ok(()) => {}
        Err(fault) => return Err(fault),
    }
    unread.seen = unread.block.len();
    let fault = match read_on(alloc, reader, &mut unread.block, unread.place) {
        Ok(true) => return Ok(NextTold::More),
        Ok(false) => return Ok(NextTold::End),
        Err(fault) => fault,
    };
    let ToolFault::BadLine { line } = fault else {
        return Err(fault);
    };
    match asker.tell_last(alloc, line, unread.block.all(), gathered, writer, errors) {
        Ok(told) => Ok(NextTold::Last(told)),
        Err(failed) => Err(failed),
    }
}

/// Explains the next message, if a line ends among the octets that are held, or reads on.
fn explain_next<R: Read, W: Write, E: Write>(
    alloc: Global,
    asker: &Asker,
    unread: &mut Unread,
    gathered: &mut Gathered,
    reader: &mut R,
    writer: &mut W,
    errors: &mut E,
) -> Result<NextTold, ToolFault>
    requires { IsHeld unread.old.place unread.old.block unread.old.seen }
    ensures explains { ExplainsNext asker.now unread.old.place unread.new.place (prepend_known unread.old.block (R.remaining reader.old))
        (R.remaining reader.new) unread.new.block (W.contents writer.old) (W.contents writer.new) gathered.old.ready.items
        gathered.new.ready.items result }
    ensures further { IfOk result
        (IsFurther unread.old.place unread.new.place unread.old.block unread.new.block unread.new.seen) }
{
    let LineStart { number, left } = unread.place;
    let octets = unread.block.first(left as usize);
    let Some(end) = line_end(octets, unread.seen) else {
        return explain_more(alloc, asker, unread, gathered, reader, writer, errors);
    };
    let line = &octets[..end];
    if text_of(line).len() > MAX_LINE {
        return Err(gathered.end_with(writer, ToolFault::LineTooLong { line: number }));
    }
    match asker.tell(alloc, number, line, gathered, writer, errors) {
        Ok(told) => {
            unread.block.pass(end + 1);
            unread.place = LineStart {
                number: number + 1,
                left: left - (end + 1) as u32,
            };
            unread.seen = 0;
            Ok(NextTold::Whole(told))
        }
        Err(fault) => Err(fault),
    }
}

/// 1 if something is proposed.
fn proposed_one(proposal: Option<Kind>) -> u32
    ensures one { result ≡ proposed_one proposal }
    ensures few { result ≤ 1 }
{
    match proposal {
        Some(_) => 1,
        None => 0,
    }
}

impl Counts {
    /// With one more message, of which this was told. Where there are too many warnings to be counted, `u64::MAX` stands for them.
    fn with(self, told: Told) -> Counts
        requires messages { self.messages ≤ input_limit + 1 }
        requires refused { self.refused ≤ self.messages }
        requires mended { self.mended ≤ self.messages }
        ensures messages { result.messages ≡ self.messages + 1 }
        ensures refused { result.refused ≡ self.refused + (if told.is_taken then 0 else 1) }
        ensures mended { result.mended ≡ self.mended + proposed_one told.proposal }
        ensures warnings { result.warnings ≡ min (self.warnings + told.warnings) (2 ^ 64 - 1) }
    {
        Counts {
            messages: self.messages + 1,
            refused: self.refused + u32::from(!told.is_taken),
            warnings: self.warnings.saturating_add(told.warnings as u64),
            mended: self.mended + proposed_one(told.proposal),
        }
    }
}

/// Explains the messages from this line on, up to a fault or the end, and counts them.
///
/// What is read is kept in a block, and each message is explained where it stands there. What is told of short texts is written together,
/// before more is read or as soon as it has 98,304 octets.
fn explain_rest<R: Read, W: Write, E: Write>(
    alloc: Global,
    asker: &Asker,
    place: LineStart,
    reader: &mut R,
    writer: &mut W,
    errors: &mut E,
) -> Result<Counts, ToolFault>
    requires { place.number + place.left ≤ input_limit + 1 }
    ensures { ExplainsRest asker.now place (R.remaining reader.old) (R.remaining reader.new) (W.contents writer.old) (W.contents writer.new)
        result }
{
    let Ok(mut gathered) = Gathered::new(alloc) else {
        return Err(ToolFault::Memory);
    };
    let mut unread = Unread {
        place,
        block: Block::new(),
        seen: 0,
    };
    let mut counts = Counts {
        messages: 0,
        refused: 0,
        warnings: 0,
        mended: 0,
    };
    loop {
        match explain_next(
            alloc,
            asker,
            &mut unread,
            &mut gathered,
            reader,
            writer,
            errors,
        ) {
            Ok(NextTold::Whole(told)) => counts = counts.with(told),
            Ok(NextTold::More) => {}
            Ok(NextTold::Last(told)) => return Ok(counts.with(told)),
            Ok(NextTold::End) => return Ok(counts),
            Err(fault) => return Err(fault),
        }
    }
}

/// Makes what explains the messages of a sign as they are asked for.
fn asker_of(
    alloc: Global,
    setup: Setup,
    telling: Telling,
    name: &[u8],
    before: u32,
) -> Result<Asker, AllocError>
    ensures { IfOk result (λ asker. asker ≡ asking_of setup telling name.now before) }
{
    let Setup { sign, store } = setup;
    let explainer = Explainer::new(sign, store.limits().max_string);
    let name = name.to_vec(alloc)?;
    Ok(Asker {
        explainer,
        telling,
        name,
        before,
    })
}

/// Reads an input up to its end or its first fault, and explains its messages, one to a line, as they are asked for.
/// What stands after the last line feed is a message too. Messages are told by the name of their file, and by their
/// lines, which are counted after the first `before` lines of the input. The answer is how many messages there were.
///
/// If messages are written mended, what became of those that the sign doesn't take is said on the errors.
///
/// The input is that of `check`, with its faults but for one. An explanation is written before
/// more is read than the block of octets in which its line has ended.
pub fn run_explain<R: Read, W: Write, E: Write>(
    alloc: Global,
    sample: bool,
    telling: Telling,
    name: &[u8],
    before: u32,
    reader: &mut R,
    writer: &mut W,
    errors: &mut E,
) -> Result<Counts, ToolFault>
    ensures explained { ExplainsInput sample telling name.now before (R.remaining reader.old) (R.remaining reader.new)
        (W.contents writer.old) (W.contents writer.new) result }
{
    let start = match begin(alloc, sample, reader) {
        Ok(start) => start,
        Err(fault) => return Err(fault),
    };
    let Start { setup, place } = start;
    let Ok(asker) = asker_of(alloc, setup, telling, name, before) else {
        return Err(ToolFault::Memory);
    };
    explain_rest(alloc, &asker, place, reader, writer, errors)
}
