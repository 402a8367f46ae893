//! The answers that count pages.
ghost use Rattle.std.specs.Prelude.{◌≡◌, ◌++◌, OnOk, Some, map};
ghost use Rattle.sign_tool.specs.Reply.{check_answer};

use crate::answer::{Answer, LineAnswer};
use crate::ready::Ready;
use crate::reply::{push_pages, push_refused, push_too_long};
use multi_layout::Judge;
use multi_token::Source;
use std::alloc::AllocError;
use tool_streams::MAX_STRING;

/// Answers each string by the verdict on it, and an accepted one by the number of its pages.
#[derive(Drop)]
pub(crate) struct Checker<'a> {
    pub(crate) judge: Judge<'a>,
}

/// Appends the answer to the line.
fn push_verdict(judge: &Judge<'_>, line: &[u8], text: &mut Ready) -> Result<(), AllocError>
    ensures text { OnOk result (text.new.begun ≡ text.old.begun ++ check_answer judge.now line.now) }
    ensures whole { text.new.whole ≡ text.old.whole }
{
    if line.len() > MAX_STRING {
        return push_too_long(text);
    }
    match judge.pages(&mut Source::new(line)) {
        Ok(pages) => push_pages(text, pages),
        Err(offence) => push_refused(text, offence.error.code(), offence.at),
    }
}

impl<'a> Answer for Checker<'a> {
    ghost answers = { λ s lines. map (λ line. Some (check_answer s.judge line)) lines };

    fn answer(&mut self, line: &[u8], text: &mut Ready) -> Result<LineAnswer, AllocError> {
        push_verdict(&self.judge, line, text)?;
        Ok(LineAnswer::Text)
    }
}
