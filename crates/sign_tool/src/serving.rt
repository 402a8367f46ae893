//! The loop that answers the lines of a served sign, over a reader and a writer.
ghost use Rattle.std.specs.Prelude.{◌≡◌, ◌^◌, ◌≤◌, ◌++◌, ◌⊎◌, [], List, ℕ, IfErr, IfSome, OnOk, Some, length, take};
ghost use Rattle.std.specs.Io.KnownBytes.{Appends, Consumes};
ghost use Rattle.tool_streams.specs.Lines.{IsOneLine};
ghost use Rattle.sign_tool.specs.Runs.{IsFront, WritesLines, fault_of};
ghost use Rattle.sign_tool.specs.internal.Blocks.{EndsRefused, WritesReady};
ghost use Rattle.sign_tool.specs.Talk.{SaysLast, SaysReady, SaysSome, ServesInTime};
ghost use Rattle.sign_tool.specs.Serving.{AnswersLast, AnswersNext, EndsServed, PassesCut, Serves, at_start, last_reply, replies_so_far, replies_to_all};

use crate::first::FirstLine;
use crate::output::MAX_READY;
use crate::ready::Ready;
use crate::server::Server;
use crate::setup::Setup;
use crate::talk::{Streams, Talk};
use std::alloc::{AllocError, Global};
use std::io::{Read, Write};
use tool_streams::{Block, MAX_KEPT, ToolFault, line_end};

/// Answers the next line if it ends here, and adds its reply to those that are ready. The first `seen` octets have no line feed. Of a line
/// that is cut, too many octets were passed over.
fn answer_next(
    server: &mut Server,
    octets: &[u8],
    seen: usize,
    is_cut: bool,
    ready: &mut Ready,
) -> Result<FirstLine, AllocError>
    requires seen { seen ≤ length octets.now }
    requires none { IsOneLine (take seen octets.now) }
    requires begun { ready.old.begun ≡ [] }
    ensures next { AnswersNext server.old server.new is_cut octets.now ready.old.whole ready.new.whole result }
    ensures begun { OnOk result (ready.new.begun ≡ []) }
{
    let Some(end) = line_end(octets, seen) else {
        return Ok(FirstLine::Open);
    };
    server.answer(&octets[..end], is_cut, ready)?;
    ready.end_answer();
    Ok(FirstLine::Answered(end + 1))
}

/// Answers what stands after the last line feed, if anything does, and adds the reply to those that are ready.
fn answer_last(
    server: &mut Server,
    line: &[u8],
    is_cut: bool,
    ready: &mut Ready,
) -> Result<(), AllocError>
    requires begun { ready.old.begun ≡ [] }
    ensures last { AnswersLast server.old is_cut line.now ready.old.whole ready.new.whole result }
{
    if is_cut || !line.is_empty() {
        server.answer(line, is_cut, ready)?;
        ready.end_answer();
    }
    Ok(())
}

/// Writes the replies that are ready, and clears them, if there are many or if no line is left to answer before the next read. After an
/// `Err`, which is `Write`, a beginning of them was written.
fn say_ready<T: Talk>(talk: &mut T, ready: &mut Ready, first: FirstLine) -> Result<(), ToolFault>
    requires { ready.old.begun ≡ [] }
    ensures written { WritesReady (T.contents talk.old) (T.contents talk.new) first ready.old.whole ready.new.whole result }
    ensures begun { OnOk result (ready.new.begun ≡ []) }
    ensures kept { T.remaining talk.new ≡ T.remaining talk.old }
    ensures says { SaysReady (T.did talk.old talk.new) ready.old.whole ready.new.whole result }
    ensures same { (T.reads_by talk.new ≡ T.reads_by talk.old) × (T.writes_by talk.new ≡ T.writes_by talk.old) }
{
    if let FirstLine::Answered(_) = first
        && ready.whole().len() < MAX_READY
    {
        return Ok(());
    }
    talk.say(ready.whole())?;
    ready.clear();
    Ok(())
}

/// Writes the replies to the lines before the one for whose reply memory was refused, and says how the run ends: `Memory`, or `Write` if
/// that fails, where a beginning of them was written.
fn say_refused<T: Talk>(talk: &mut T, ready: &Ready) -> ToolFault
    ensures ends { EndsRefused (T.contents talk.old) (T.contents talk.new) ready.now.whole result }
    ensures kept { T.remaining talk.new ≡ T.remaining talk.old }
    ensures says { SaysSome (T.did talk.old talk.new) }
    ensures same { (T.reads_by talk.new ≡ T.reads_by talk.old) × (T.writes_by talk.new ≡ T.writes_by talk.old) }
{
    match talk.say(ready.whole()) {
        Ok(()) => ToolFault::Memory,
        Err(fault) => fault,
    }
}

/// Ends the run at the end of its input: what stands after the last line feed is answered, and what is ready is written.
fn end_served<T: Talk>(
    server: &mut Server,
    line: &[u8],
    is_cut: bool,
    ready: &mut Ready,
    talk: &mut T,
) -> Result<(), ToolFault>
    requires begun { ready.old.begun ≡ [] }
    ensures ends { EndsServed server.old is_cut line.now ready.old.whole (T.contents talk.old) (T.contents talk.new) result }
    ensures kept { T.remaining talk.new ≡ T.remaining talk.old }
    ensures says { SaysLast (T.did talk.old talk.new) (ready.old.whole ++ last_reply server.old is_cut line.now) result }
    ensures same { (T.reads_by talk.new ≡ T.reads_by talk.old) × (T.writes_by talk.new ≡ T.writes_by talk.old) }
{
    match answer_last(server, line, is_cut, ready) {
        Ok(()) => talk.say(ready.whole()),
        Err(_) => Err(say_refused(talk, ready)),
    }
}

/// Passes over what waits of a line that has too many octets, and says whether it did.
fn pass_cut(block: &mut Block, is_cut: bool) -> bool
    ensures { PassesCut block.old block.new is_cut result }
{
    let held = block.len();
    if is_cut || held > MAX_KEPT {
        block.pass(held);
        return true;
    }
    false
}

/// Answers lines up to a fault or the end.
///
/// What is read is kept in a block, and each line is answered where it stands there. The replies to the lines of a block are written
/// together before more is read, or as soon as they have 98,304 octets, or if memory is refused for the reply after them. What a line has
/// more than 8,301 octets is passed over.
fn serve_lines<T: Talk>(
    server: &mut Server,
    ready: &mut Ready,
    talk: &mut T,
) -> Result<(), ToolFault>
    requires empty { ready.old ≡ record { whole = []; begun = [] } }
    ensures serves { Serves server.old
        (T.remaining talk.old) (T.remaining talk.new) (T.contents talk.old) (T.contents talk.new) (fault_of result) }
    ensures timely { ServesInTime server.old (T.did talk.old talk.new) (fault_of result) }
    ensures same { (T.reads_by talk.new ≡ T.reads_by talk.old) × (T.writes_by talk.new ≡ T.writes_by talk.old) }
{
    let mut block = Block::new();
    let mut seen = 0;
    let mut is_cut = false;
    // Each round answers a line, or reads an octet or more.
    for round in 0..u64::MAX {
        let next = match answer_next(server, block.all(), seen, is_cut, ready) {
            Ok(next) => next,
            Err(_) => return Err(say_refused(talk, ready)),
        };
        say_ready(talk, ready, next)?;
        if let FirstLine::Answered(count) = next {
            block.pass(count);
            is_cut = false;
            seen = 0;
        } else {
            is_cut = pass_cut(&mut block, is_cut);
            seen = block.len();
            if talk.hear(&mut block)? == 0 {
                return end_served(server, block.all(), is_cut, ready, talk);
            }
        }
    }
    Err(ToolFault::InputTooLong)
}

/// The most octets of a reply: those of the row of the longest text and owner, or else of a frame of the largest sign.
const LONGEST_REPLY: usize = 131_300;

/// Serves a sign as [`serve`] does, over one that tells in which order it was read from and written to. Nothing is read while the reply to
/// a whole line that was read isn't written, and if nothing fails, what is written is the replies to all lines of what is read.
pub fn serve_talk<T: Talk>(alloc: Global, setup: Setup, talk: &mut T) -> Result<(), ToolFault>
    ensures serves { Serves (at_start setup)
        (T.remaining talk.old) (T.remaining talk.new) (T.contents talk.old) (T.contents talk.new) (fault_of result) }
    ensures timely { ServesInTime (at_start setup) (T.did talk.old talk.new) (fault_of result) }
    ensures same { (T.reads_by talk.new ≡ T.reads_by talk.old) × (T.writes_by talk.new ≡ T.writes_by talk.old) }
{
    let mut ready = Ready::with_room(alloc, MAX_READY + LONGEST_REPLY)?;
    let mut server = Server::new(alloc, setup)?;
    serve_lines(&mut server, &mut ready, talk)
}

/// Serves a sign over a reader and a writer.
fn serve_both<R: Read, W: Write>(
    alloc: Global,
    setup: Setup,
    reader: &mut R,
    writer: &mut W,
) -> Result<(), ToolFault>
    ensures { Serves (at_start setup)
        (R.remaining reader.old) (R.remaining reader.new) (W.contents writer.old) (W.contents writer.new) (fault_of result) }
{
    let mut talk = Streams { reader, writer };
    serve_talk(alloc, setup, &mut talk)
}

/// Serves a sign: answers each line of an input by one reply, up to the end of the input or the first fault from outside
/// (own). The reply to each line is written before more is read than the block of octets in which the line has ended.
///
/// A line is one of the table of `sign_script`, for a served sign. An empty line and a comment are answered `ok`, a line of another
/// kind `bad line`, and one with more than 8,300 octets `too long`; none of these changes anything. What stands after the last line
/// feed is a line too. The faults are `Read`, `Write`, `Memory`, and, after 9,223,372,036,854,775,808 octets or more, `InputTooLong`.
pub fn serve<R: Read, W: Write>(
    alloc: Global,
    setup: Setup,
    reader: &mut R,
    writer: &mut W,
) -> Result<(), ToolFault>
    // If nothing outside fails, what is written is the replies to all lines of the input.
    ensures whole { OnOk result (IfSome (R.remaining reader.old) (λ input.
        Appends (W.contents writer.old) (W.contents writer.new) (replies_to_all (at_start setup) input))) }

    // After a failed read it is the replies to the whole lines that were read.
    ensures read { fault_of result ≡ Some ToolFault.Read → (taken : List ℕ)
        × Consumes (R.remaining reader.old) (R.remaining reader.new) taken
        × Appends (W.contents writer.old) (W.contents writer.new) (replies_so_far (at_start setup) taken) }

    // After a failed write, or if memory was refused, what was written is a beginning of the replies.
    ensures front { (fault_of result ≡ Some ToolFault.Write) ⊎ (fault_of result ≡ Some ToolFault.Memory) →
        IfSome (R.remaining reader.old) (λ input. (sent : List ℕ)
        × Appends (W.contents writer.old) (W.contents writer.new) sent
        × IsFront sent (replies_to_all (at_start setup) input)) }

    // If memory was refused, it is the replies to some number of whole lines, the first of those that were read.
    ensures lines { fault_of result ≡ Some ToolFault.Memory →
        WritesLines (replies_so_far (at_start setup))
        (R.remaining reader.old) (R.remaining reader.new) (W.contents writer.old) (W.contents writer.new) }

    // There is no other fault, except `InputTooLong`, for which no run lasts long enough.
    ensures only { IfErr result (λ e. (e ≡ ToolFault.Read) ⊎ (e ≡ ToolFault.Write) ⊎ (e ≡ ToolFault.Memory)
        ⊎ (e ≡ ToolFault.InputTooLong)) }
    ensures long { fault_of result ≡ Some ToolFault.InputTooLong → (taken : List ℕ)
        × Consumes (R.remaining reader.old) (R.remaining reader.new) taken × (2 ^ 63 ≤ length taken) }
{
    serve_both(alloc, setup, reader, writer)
}
