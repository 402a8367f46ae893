//! A sign that is served: its controller, and the reply to each line.
ghost use Rattle.std.specs.Prelude.{◌≡◌, ◌≤◌, ◌*◌, ◌++◌, IfOk, OnOk, length};
ghost use Rattle.sign_tool.specs.Served.{told_ask, told_line, told_question};
ghost use Rattle.sign_tool.specs.Serving.{at_start, told_cut};

use crate::answers::{
    push_colours, push_help, push_message_code, push_next, push_text_crc, push_verdict_by,
};
use crate::decoded::{push_crc_of, push_restored, push_saved, push_verdict_of};
use crate::ready::{Ready, push_octets};
use crate::reply::push_too_long;
use crate::script::push_told;
use crate::setup::Setup;
use sign_control::Controller;
use sign_script::{Ask, LineFault, Question, read_question};
use std::alloc::{AllocError, Global};
use std::marker::Model;
use tool_streams::{MAX_LINE, text_of};

/// A sign that is served (own). Its room for a line and for the colours of all pixels is made once.
#[derive(Drop)]
pub(crate) struct Server {
    controller: Controller,
    /// Room for the octets that a line writes in hexadecimal.
    octets: Vec<u8>,
    /// Room for the colour of each pixel.
    pixels: Vec<u8>,
    /// Room for a state, and for a text that a question writes in hexadecimal.
    saved: Vec<u8>,
}

impl Model for Server {
    ghost use Rattle.std.specs.Prelude.{◌≡◌, ◌*◌, length};
    ghost use Rattle.sign_tool.specs.Serving.{ServerData};

    ghost Value = { ServerData };

    ghost view = { λ s. record { sign = s.controller.sign; state = s.controller.state } };

    ghost invariant = { λ s. length s.pixels.items ≡ s.controller.sign.width * s.controller.sign.height };
}

/// Does what a line of a script asks for, and appends the reply.
fn push_asked(text: &mut Ready, controller: &mut Controller, ask: Ask<'_>) -> Result<(), AllocError>
    ensures text { OnOk result (text.new.begun ≡ text.old.begun ++ (told_ask controller.old.sign controller.old.state ask.entry).text) }
    ensures state { controller.new.state ≡ (told_ask controller.old.sign controller.old.state ask.entry).state }
    ensures sign { controller.new.sign ≡ controller.old.sign }
    ensures whole { text.new.whole ≡ text.old.whole }
{
    match ask {
        Ask::Nothing => push_octets(text, b"ok\n"),
        ask => push_told(text, controller, &ask),
    }
}

/// Does what is asked of a served sign, and appends the reply. There is an octet of room for each pixel, and `saved` is room for octets.
fn push_question(
    text: &mut Ready,
    controller: &mut Controller,
    pixels: &mut Vec<u8>,
    saved: &mut Vec<u8>,
    question: Question<'_>,
) -> Result<(), AllocError>
    requires room { length pixels.old.items ≡ controller.old.sign.width * controller.old.sign.height }
    ensures text { OnOk result
        (text.new.begun ≡ text.old.begun ++ (told_question controller.old.sign controller.old.state question.entry).text) }
    ensures state { OnOk result
        (controller.new.state ≡ (told_question controller.old.sign controller.old.state question.entry).state) }
    ensures sign { controller.new.sign ≡ controller.old.sign }
    ensures whole { text.new.whole ≡ text.old.whole }
    ensures room { length pixels.new.items ≡ length pixels.old.items }
{
    match question {
        Question::Script(ask) => push_asked(text, controller, ask),
        Question::Colours => push_colours(text, controller, pixels),
        Question::Verdict(line) => {
            push_verdict_by(text, controller.sign(), controller.defaults(), line)
        }
        Question::Crc(line) => push_text_crc(text, line),
        Question::Next => push_next(text, controller),
        Question::Code(message, duration, priority) => {
            push_message_code(text, controller, message, duration, priority)
        }
        Question::Help => push_help(text),
        Question::VerdictHex(digits) => {
            push_verdict_of(
                text,
                controller.sign(),
                controller.defaults(),
                saved,
                digits,
            )
        }
        Question::CrcHex(digits) => push_crc_of(text, saved, digits),
        Question::Save => push_saved(text, controller, saved),
        Question::Restore(digits) => push_restored(text, controller, saved, digits),
    }
}

impl Server {
    /// With a controller that was just made. The error says that memory was refused.
    pub(crate) fn new(alloc: Global, setup: Setup) -> Result<Server, AllocError>
        ensures { IfOk result (λ server. server ≡ at_start setup) }
    {
        let Setup { sign, store } = setup;
        let count = usize::from(sign.width()) * usize::from(sign.height());
        let pixels = Vec::from_elem(alloc, 0u8, count)?;
        let octets = Vec::with_capacity(alloc, MAX_LINE / 2)?;
        let Ok(controller) = Controller::new(alloc, sign, store) else {
            return Err(AllocError);
        };
        Ok(Server {
            controller,
            octets,
            pixels,
            saved: Vec::new(alloc),
        })
    }

    /// Answers a line of at most 8,300 octets, and appends the reply. The error says that memory was refused.
    fn answer_short(&mut self, line: &[u8], text: &mut Ready) -> Result<(), AllocError>
        requires short { length line.now ≤ 8300 }
        ensures text { OnOk result (text.new.begun ≡ text.old.begun ++ (told_line self.old.sign self.old.state line.now).text) }
        ensures server { OnOk result
            (self.new ≡ record { sign = self.old.sign; state = (told_line self.old.sign self.old.state line.now).state }) }
        ensures whole { text.new.whole ≡ text.old.whole }
    {
        match read_question(line, &mut self.octets) {
            Ok(question) => {
                push_question(
                    text,
                    &mut self.controller,
                    &mut self.pixels,
                    &mut self.saved,
                    question,
                )
            }
            Err(LineFault::Bad) => push_octets(text, b"bad line\n"),
            Err(LineFault::Memory) => Err(AllocError),
        }
    }

    /// Answers a line, without its line feed, and appends the reply: of a line that is cut, too many octets were passed over. The error
    /// says that memory was refused.
    pub(crate) fn answer(
        &mut self,
        line: &[u8],
        is_cut: bool,
        text: &mut Ready,
    ) -> Result<(), AllocError>
        ensures text { OnOk result (text.new.begun ≡ text.old.begun ++ (told_cut self.old is_cut line.now).text) }
        ensures server { OnOk result (self.new ≡ record { sign = self.old.sign; state = (told_cut self.old is_cut line.now).state }) }
        ensures whole { text.new.whole ≡ text.old.whole }
    {
        let line = text_of(line);
        if is_cut || line.len() > MAX_LINE {
            return push_too_long(text);
        }
        self.answer_short(line, text)
    }
}
