//! The first lines of a block.
ghost use Rattle.std.specs.Prelude.{◌≡◌, ◌≤◌, ◌<◌, ◌^◌, [], IfOk, OnOk, length, take};
ghost use Rattle.sign_tool.specs.internal.Blocks.{AnswersFirst, AnswersWhole, StopsAtMany};
ghost use Rattle.tool_streams.specs.Lines.{IsOneLine};

use crate::answer::{Answer, LineAnswer};
use crate::output::MAX_READY;
use crate::ready::Ready;
use std::alloc::AllocError;
use tool_streams::{MAX_LINE, line_end, text_of};

/// What was done with the first line of a block (own).
#[derive(Clone, Copy)]
pub(crate) enum FirstLine {
    /// It was answered. This is the number of its octets, with its line feed.
    Answered(usize),
    /// Nothing: it doesn't end in the block.
    Open,
    /// Nothing: it has too many octets.
    TooLong,
    /// Nothing: it is bad.
    Bad,
}

/// The first lines of a block that were answered.
#[derive(Clone, Copy)]
pub(crate) struct Front {
    /// Their octets, with their line feeds.
    pub(crate) at: usize,
    /// How many they are.
    pub(crate) lines: u32,
    /// What was done last: with the last of them, after which there are many answers, or with the line after them.
    pub(crate) last: FirstLine,
}

/// Answers the first line if it ends here, and adds its answer to those that are ready. The first `seen` octets have no line feed.
#[inline(always)]
pub(crate) fn answer_first<A: Answer>(
    answer: &mut A,
    octets: &[u8],
    seen: usize,
    ready: &mut Ready,
) -> Result<FirstLine, AllocError>
    requires seen { seen ≤ length octets.now }
    requires none { IsOneLine (take seen octets.now) }
    requires begun { ready.old.begun ≡ [] }
    ensures first { AnswersFirst (A.answers answer.old) (A.answers answer.new) octets.now ready.old.whole ready.new.whole result }
    ensures begun { OnOk result (ready.new.begun ≡ []) }
{
    let Some(end) = line_end(octets, seen) else {
        return Ok(FirstLine::Open);
    };
    let line = text_of(&octets[..end]);
    if line.len() > MAX_LINE {
        return Ok(FirstLine::TooLong);
    }
    match answer.answer(line, ready)? {
        LineAnswer::Text => {
            ready.end_answer();
            Ok(FirstLine::Answered(end + 1))
        }
        LineAnswer::BadLine => Ok(FirstLine::Bad),
    }
}

/// Answers the lines that end here, up to the first that can't be answered, and adds their answers to those that are ready, until there
/// are many. The first `seen` octets have no line feed.
pub(crate) fn answer_whole<A: Answer>(
    answer: &mut A,
    octets: &[u8],
    seen: usize,
    ready: &mut Ready,
) -> Result<Front, AllocError>
    requires few { length octets.now < 2 ^ 32 }
    requires seen { seen ≤ length octets.now }
    requires none { IsOneLine (take seen octets.now) }
    requires begun { ready.old.begun ≡ [] }
    requires waiting { length ready.old.whole < 98304 }
    ensures lines { AnswersWhole (A.answers answer.old) (A.answers answer.new) octets.now ready.old.whole ready.new.whole result }
    ensures begun { OnOk result (ready.new.begun ≡ []) }
    ensures many { IfOk result (λ front. StopsAtMany front.last ready.new.whole) }
{
    let mut at = 0;
    let mut lines = 0;
    let mut seen = seen;
    loop {
        let last = answer_first(answer, &octets[at..], seen, ready)?;
        let FirstLine::Answered(count) = last else {
            return Ok(Front { at, lines, last });
        };
        at += count;
        lines += 1;
        seen = 0;
        if ready.whole().len() >= MAX_READY {
            return Ok(Front { at, lines, last });
        }
    }
}
