//! What answers lines.
ghost use Rattle.std.specs.Prelude.{◌≡◌, List, ℕ, Option};
ghost use Rattle.sign_tool.specs.Runs.{AnswersLine};

use crate::ready::Ready;
use std::alloc::AllocError;

/// What a line is answered by (own).
#[derive(Clone, Copy)]
pub(crate) enum LineAnswer {
    /// The text that was appended. It is empty where a line gets no reply.
    Text,
    /// Nothing: the line is bad, and the run ends there.
    BadLine,
}

/// Answers the lines of an input one after the other (own).
pub(crate) trait Answer {
    // The answers to all the lines that are still to come, None at a bad line.
    ghost answers: { Self → List (List ℕ) → List (Option (List ℕ)) };

    /// Answers the line, and appends the text of its answer.
    fn answer(&mut self, line: &[u8], text: &mut Ready) -> Result<LineAnswer, AllocError>
        ensures answered { AnswersLine (answers self.old) (answers self.new) line.now text.old.begun text.new.begun result }
        ensures whole { text.new.whole ≡ text.old.whole };
}
