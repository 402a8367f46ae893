//! The answers that a controller gives to a script.
ghost use Rattle.std.specs.Prelude.{◌≡◌, ◌++◌, OnOk, IfOk, ◌⊎◌};
ghost use Rattle.page_plane.specs.Plane.{is_lit};
ghost use Rattle.sign_control.specs.State.{started};
ghost use Rattle.sign_script.specs.Asks.{ask_of};
ghost use Rattle.sign_tool.specs.Frame.{frame_rows, head_text};
ghost use Rattle.sign_tool.specs.Script.{AnswersAsk, display_text, replies, told};

use crate::answer::{Answer, LineAnswer};
use crate::ready::Ready;
use crate::replies::{push_defaults, push_reply, push_report, push_row};
use crate::show::{push_head, push_rows};
use message_store::Store;
use sign_control::{Controller, Frame};
use sign_font::Sign;
use sign_script::{Ask, LineFault, read_ask};
use std::alloc::{AllocError, Global};

/// Answers the lines of a script by a controller.
#[derive(Drop)]
pub(crate) struct Operator {
    controller: Controller,
    /// Room for the octets that a line writes in hexadecimal.
    octets: Vec<u8>,
}

impl Operator {
    /// With a controller that was just made.
    pub(crate) fn new(alloc: Global, sign: Sign, store: Store) -> Result<Operator, AllocError>
        ensures sign { IfOk result (λ operator. operator.controller.sign ≡ sign) }
        ensures state { IfOk result (λ operator. operator.controller.state ≡ started sign.defaults store) }
    {
        let Ok(controller) = Controller::new(alloc, sign, store) else {
            return Err(AllocError);
        };
        Ok(Operator {
            controller,
            octets: Vec::new(alloc),
        })
    }
}

/// Appends a frame.
fn push_lent(text: &mut Ready, frame: Frame<'_>) -> Result<(), AllocError>
    ensures text { OnOk result (text.new.begun ≡ text.old.begun ++ (head_text frame.entry.shown
        ++ frame_rows (is_lit frame.entry.plane.now) frame.entry.plane.now.width frame.entry.plane.now.height)) }
    ensures whole { text.new.whole ≡ text.old.whole }
{
    push_head(text, frame.shown)?;
    push_rows(text, frame.plane)
}

/// Appends the frame of a colour of what the display shows.
fn push_display(text: &mut Ready, controller: &mut Controller, colour: u8) -> Result<(), AllocError>
    ensures text { OnOk result (text.new.begun ≡ text.old.begun ++ display_text controller.old.sign controller.old.state colour) }
    ensures kept { (controller.new.sign ≡ controller.old.sign) × (controller.new.state ≡ controller.old.state) }
    ensures whole { text.new.whole ≡ text.old.whole }
{
    push_lent(text, controller.frame(colour))
}

/// Does what is asked for, and appends the reply.
pub(crate) fn push_told(
    text: &mut Ready,
    controller: &mut Controller,
    ask: &Ask<'_>,
) -> Result<(), AllocError>
    ensures text { OnOk result (text.new.begun ≡ text.old.begun ++ (told controller.old.sign controller.old.state ask.now).text) }
    ensures state { controller.new.state ≡ (told controller.old.sign controller.old.state ask.now).state }
    ensures sign { controller.new.sign ≡ controller.old.sign }
    ensures whole { text.new.whole ≡ text.old.whole }
{
    match ask {
        Ask::Nothing => Ok(()),
        Ask::Command(command) => push_reply(text, controller.apply(command)),
        Ask::Frame(colour) => push_display(text, controller, *colour),
        Ask::Row(message) => push_row(text, *message, &controller.row(*message)),
        Ask::Report => push_report(text, &controller.report()),
        Ask::Defaults => push_defaults(text, controller.defaults()),
    }
}

/// Answers a line of a script.
fn answer_line(
    line: &[u8],
    octets: &mut Vec<u8>,
    controller: &mut Controller,
    text: &mut Ready,
) -> Result<LineAnswer, AllocError>
    ensures told { AnswersAsk controller.old.sign controller.old.state (ask_of line.now)
        text.old.begun text.new.begun controller.new.state result }
    ensures sign { controller.new.sign ≡ controller.old.sign }
    ensures whole { text.new.whole ≡ text.old.whole }
{
    match read_ask(line, octets) {
        Ok(ask) => {
            push_told(text, controller, &ask)?;
            Ok(LineAnswer::Text)
        }
        Err(LineFault::Bad) => Ok(LineAnswer::BadLine),
        Err(LineFault::Memory) => Err(AllocError),
    }
}

impl Answer for Operator {
    ghost answers = { λ s lines. replies s.controller.sign s.controller.state lines };

    fn answer(&mut self, line: &[u8], text: &mut Ready) -> Result<LineAnswer, AllocError> {
        answer_line(line, &mut self.octets, &mut self.controller, text)
    }
}
