//! A run of the tool: an answer for each line.
ghost use Rattle.std.specs.Prelude.{◌≡◌, ◌+◌, ◌≤◌, ◌⊎◌, List, ℕ, Some, IfSome, length};
ghost use Rattle.std.specs.Io.KnownBytes.{Appends, Consumes};
ghost use Rattle.tool_streams.specs.Lines.{input_limit};
ghost use Rattle.sign_tool.specs.Output.{outcome, output_of_whole};
ghost use Rattle.sign_tool.specs.Runs.{IsFront, Runs, WritesLines, fault_of};
ghost use Rattle.sign_tool.specs.Tool.{IsOfInput, answers_of, outcome_of, output_so_far};
ghost use Rattle.sign_tool.specs.declared.tool.Mode.TheVariants as mode;

use crate::answer::Answer;
use crate::check::Checker;
use crate::first::{FirstLine, answer_whole};
use crate::output::{end_refused, write_ready};
use crate::ready::Ready;
use crate::script::Operator;
use crate::setup::Setup;
use crate::show::Shower;
use crate::start::{Start, begin};
use multi_layout::Judge;
use std::alloc::Global;
use std::io::{Read, Write};
use tool_streams::{Block, LineStart, ToolFault, read_on};

/// What is done with each line (own).
#[derive(Clone, Copy, Debug, PartialEq, Eq)]
pub enum Mode {
    /// Each line is a MULTI string, and the answer is the verdict on it.
    Check,
    /// Each line is a MULTI string, and the answer to one that the sign accepts is what it shows: the page at a clock
    /// and its phase, or `off`, and a line for each pixel row.
    Show {
        /// The colour whose pixels are shown, 0 to 9.
        colour: u8,
        /// In tenths of a second since the string began to be shown.
        clock: u32,
    },
    /// Each line is a line of a script, and one controller replies to all of them.
    Run,
}

/// Answers the lines from this one on, up to a fault or the end.
///
/// What is read is kept in a block, and each line is answered where it stands there. The answers to the lines of a block
/// are written together before more is read, or as soon as they have 98,304 octets, or if memory is refused for the answer after them.
fn answer_lines<A: Answer, R: Read, W: Write>(
    alloc: Global,
    answer: &mut A,
    place: LineStart,
    reader: &mut R,
    writer: &mut W,
) -> Result<(), ToolFault>
    requires { place.number + place.left ≤ input_limit + 1 }
    ensures runs { Runs (outcome (A.answers answer.old) place.number place.left)
        (output_of_whole (A.answers answer.old) place.number) place.left
        (R.remaining reader.old) (R.remaining reader.new) (W.contents writer.old) (W.contents writer.new) (fault_of result) }
{
    let mut block = Block::new();
    let mut ready = Ready::new(alloc);
    let mut place = place;
    let mut seen = 0;
    loop {
        let octets = block.first(place.left as usize);
        let front = match answer_whole(answer, octets, seen, &mut ready) {
            Ok(front) => front,
            Err(_) => return Err(end_refused(writer, &ready)),
        };
        block.pass(front.at);
        place.left -= front.at as u32;
        place.number += front.lines;
        write_ready(writer, &mut ready, front.last)?;
        match front.last {
            FirstLine::Answered(_) => seen = 0,
            FirstLine::Open => {
                seen = block.len();
                if !read_on(alloc, reader, &mut block, place)? {
                    return Ok(());
                }
            }
            FirstLine::TooLong => return Err(ToolFault::LineTooLong { line: place.number }),
            FirstLine::Bad => return Err(ToolFault::BadLine { line: place.number }),
        }
    }
}

/// Answers the lines by what was set up for them.
fn run_on<R: Read, W: Write>(
    alloc: Global,
    mode: Mode,
    start: Start,
    reader: &mut R,
    writer: &mut W,
) -> Result<(), ToolFault>
    requires { start.place.number + start.place.left ≤ input_limit + 1 }
    ensures { Runs (outcome (answers_of mode start.setup) start.place.number start.place.left)
        (output_of_whole (answers_of mode start.setup) start.place.number) start.place.left
        (R.remaining reader.old) (R.remaining reader.new) (W.contents writer.old) (W.contents writer.new) (fault_of result) }
{
    let Start { setup, place } = start;
    let Setup { sign, store } = setup;
    match mode {
        Mode::Check => {
            let mut answer = Checker {
                judge: Judge::new(&sign),
            };
            answer_lines(alloc, &mut answer, place, reader, writer)
        }
        Mode::Show { colour, clock } => {
            let mut answer = Shower::new(alloc, sign, colour, clock)?;
            answer_lines(alloc, &mut answer, place, reader, writer)
        }
        Mode::Run => {
            let mut answer = Operator::new(alloc, sign, store)?;
            answer_lines(alloc, &mut answer, place, reader, writer)
        }
    }
}

/// Runs the tool from the start of its input.
fn run<R: Read, W: Write>(
    alloc: Global,
    mode: Mode,
    sample: bool,
    reader: &mut R,
    writer: &mut W,
) -> Result<(), ToolFault>
    ensures { Runs (outcome_of mode sample) (output_so_far mode sample) input_limit
        (R.remaining reader.old) (R.remaining reader.new) (W.contents writer.old) (W.contents writer.new) (fault_of result) }
{
    let start = begin(alloc, sample, reader)?;
    run_on(alloc, mode, start, reader, writer)
}

/// Reads an input up to its end or its first fault, and answers its lines (own). The answer to each line is written before
/// more is read than the block of octets in which the line has ended.
///
/// With `sample` the input has only lines, for the sample sign. Otherwise it begins with a sign file and a line `%%`, and
/// the lines after it are for the sign of that file. All lines are counted, those of the sign file too.
///
/// At most 16,777,216 octets are taken as lines. If all of them are present, one more octet is read to see whether the
/// input goes on. The faults are those of the input (`LineTooLong`, `BadLine`, `InputTooLong`), those of its sign file
/// (`BadSign`, `SignRefused`), before which nothing is written, and those from outside (`Read`, `Write`, `Memory`).
pub fn run_tool<R: Read, W: Write>(
    alloc: Global,
    mode: Mode,
    sample: bool,
    reader: &mut R,
    writer: &mut W,
) -> Result<(), ToolFault>
    // If nothing outside fails, what is written is the whole output of the input, and the result is its fault.
    ensures whole { IsOfInput (fault_of result) → IfSome (R.remaining reader.old) (λ input.
        Appends (W.contents writer.old) (W.contents writer.new) (outcome_of mode sample input).output
        × (fault_of result ≡ (outcome_of mode sample input).fault)) }

    // After a failed read it is the output of the whole lines that were read.
    ensures read { fault_of result ≡ Some ToolFault.Read → (taken : List ℕ)
        × Consumes (R.remaining reader.old) (R.remaining reader.new) taken
        × Appends (W.contents writer.old) (W.contents writer.new) (output_so_far mode sample taken) }

    // After a failed write, or if memory was refused, what was written is a beginning of the output.
    ensures front { (fault_of result ≡ Some ToolFault.Write) ⊎ (fault_of result ≡ Some ToolFault.Memory) →
        IfSome (R.remaining reader.old) (λ input. (sent : List ℕ)
        × Appends (W.contents writer.old) (W.contents writer.new) sent
        × IsFront sent (outcome_of mode sample input).output) }

    // If memory was refused, it is the answers to some number of whole lines, the first of those that were read.
    ensures lines { fault_of result ≡ Some ToolFault.Memory →
        WritesLines (output_so_far mode sample)
        (R.remaining reader.old) (R.remaining reader.new) (W.contents writer.old) (W.contents writer.new) }

    // No more is read than what shows that an input is too long.
    ensures most { (taken : List ℕ) × Consumes (R.remaining reader.old) (R.remaining reader.new) taken
        × (length taken ≤ input_limit + 1) }
{
    run(alloc, mode, sample, reader, writer)
}

/// Runs a script: it is `run_tool` with `Mode::Run` (own).
pub fn run_script<R: Read, W: Write>(
    alloc: Global,
    sample: bool,
    reader: &mut R,
    writer: &mut W,
) -> Result<(), ToolFault>
    // If nothing outside fails, what is written is the whole output of the script, and the result is its fault.
    ensures whole { IsOfInput (fault_of result) → IfSome (R.remaining reader.old) (λ input.
        Appends (W.contents writer.old) (W.contents writer.new) (outcome_of mode.Run sample input).output
        × (fault_of result ≡ (outcome_of mode.Run sample input).fault)) }

    // After a failed read it is the output of the whole lines that were read.
    ensures read { fault_of result ≡ Some ToolFault.Read → (taken : List ℕ)
        × Consumes (R.remaining reader.old) (R.remaining reader.new) taken
        × Appends (W.contents writer.old) (W.contents writer.new) (output_so_far mode.Run sample taken) }

    // After a failed write, or if memory was refused, what was written is a beginning of the output.
    ensures front { (fault_of result ≡ Some ToolFault.Write) ⊎ (fault_of result ≡ Some ToolFault.Memory) →
        IfSome (R.remaining reader.old) (λ input. (sent : List ℕ)
        × Appends (W.contents writer.old) (W.contents writer.new) sent
        × IsFront sent (outcome_of mode.Run sample input).output) }

    // If memory was refused, it is the answers to some number of whole lines, the first of those that were read.
    ensures lines { fault_of result ≡ Some ToolFault.Memory →
        WritesLines (output_so_far mode.Run sample)
        (R.remaining reader.old) (R.remaining reader.new) (W.contents writer.old) (W.contents writer.new) }

    // No more is read than what shows that an input is too long.
    ensures most { (taken : List ℕ) × Consumes (R.remaining reader.old) (R.remaining reader.new) taken
        × (length taken ≤ input_limit + 1) }
{
    run_tool(alloc, Mode::Run, sample, reader, writer)
}
