//! A command to the controller of a handle.
ghost use Rattle.std.specs.Prelude.{◌≡◌};
ghost use Rattle.latsefur_c.specs.Held.{Applies, Asks};

use crate::handle::LatsefurController;
use crate::outcome::{DONE, NO_CONTROLLER};
use crate::reply::{LatsefurReply, told};
use sign_control::{Command, Reply};
use std::alloc::Global;

/// Does a command, if the handle holds a controller.
fn apply(alloc: Global, handle: &mut LatsefurController, command: &Command<'_>) -> Option<Reply>
    ensures { Applies handle.old.slot.held command.now handle.new.slot.held result }
{
    let Some(mut held) = handle.take(alloc) else {
        return None;
    };
    let reply = held.apply(command);
    *handle = LatsefurController::of(held);
    Some(reply)
}

/// Does a command and tells the reply.
pub(crate) fn ask(
    alloc: Global,
    handle: &mut LatsefurController,
    command: &Command<'_>,
    reply: &mut LatsefurReply,
) -> u8
    ensures { Asks command.now handle.old.slot.held handle.new.slot.held reply.old reply.new result }
{
    match apply(alloc, handle, command) {
        Some(answer) => {
            *reply = told(answer);
            DONE
        }
        None => NO_CONTROLLER,
    }
}
