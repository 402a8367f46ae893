//! The exports that command a controller.
ghost use Rattle.std.specs.Prelude.{◌≡◌};
ghost use Rattle.sign_control.specs.declared.command.Command.TheVariants as command;
ghost use Rattle.latsefur_c.specs.Field.{SetsDefault, field_numbered};
ghost use Rattle.latsefur_c.specs.Held.{Asks, AsksByCode};

use crate::command::ask;
use crate::defaults::field_numbered;
use crate::handle::LatsefurController;
use crate::outcome::{BAD_LENGTH, NO_DEFAULT};
use crate::reply::LatsefurReply;
use message_store::MsgRef;
use sign_control::Command;
use std::alloc::Global;

/// Asks for a status of a message: 6 modifyReq, 7 validateReq or 8 notUsedReq (NTCIP 1203 v03, dmsMessageStatus).
#[unsafe(no_mangle)]
pub extern "C" fn latsefur_request(
    alloc: Global,
    handle: &mut LatsefurController,
    memory: u8,
    number: u16,
    status: u8,
    reply: &mut LatsefurReply,
) -> u8
    ensures asked { Asks (command.Request (record { memory = memory; number = number }) status)
        handle.old.slot.held handle.new.slot.held reply.old reply.new result }
{
    let message = MsgRef { memory, number };
    ask(alloc, handle, &Command::Request(message, status), reply)
}

/// Replaces the text of a message (NTCIP 1203 v03, dmsMessageMultiString).
#[unsafe(no_mangle)]
pub extern "C" fn latsefur_set_multi(
    alloc: Global,
    handle: &mut LatsefurController,
    memory: u8,
    number: u16,
    text: &[u8],
    reply: &mut LatsefurReply,
) -> u8
    ensures asked { Asks (command.SetMulti (record { memory = memory; number = number }) text.entry)
        handle.old.slot.held handle.new.slot.held reply.old reply.new result }
{
    let message = MsgRef { memory, number };
    ask(alloc, handle, &Command::SetMulti(message, text), reply)
}

/// Replaces the owner of a message (NTCIP 1203 v03, dmsMessageOwner).
#[unsafe(no_mangle)]
pub extern "C" fn latsefur_set_owner(
    alloc: Global,
    handle: &mut LatsefurController,
    memory: u8,
    number: u16,
    owner: &[u8],
    reply: &mut LatsefurReply,
) -> u8
    ensures asked { Asks (command.SetOwner (record { memory = memory; number = number }) owner.entry)
        handle.old.slot.held handle.new.slot.held reply.old reply.new result }
{
    let message = MsgRef { memory, number };
    ask(alloc, handle, &Command::SetOwner(message, owner), reply)
}

/// Sets the run-time priority of a message, 1 to 255 (NTCIP 1203 v03, dmsMessageRunTimePriority).
#[unsafe(no_mangle)]
pub extern "C" fn latsefur_set_priority(
    alloc: Global,
    handle: &mut LatsefurController,
    memory: u8,
    number: u16,
    value: u8,
    reply: &mut LatsefurReply,
) -> u8
    ensures asked { Asks (command.SetPriority (record { memory = memory; number = number }) value)
        handle.old.slot.held handle.new.slot.held reply.old reply.new result }
{
    let message = MsgRef { memory, number };
    ask(alloc, handle, &Command::SetPriority(message, value), reply)
}

/// Sets whether a message asks for the beacons, 0 or 1 (NTCIP 1203 v03, dmsMessageBeacon).
#[unsafe(no_mangle)]
pub extern "C" fn latsefur_set_beacon(
    alloc: Global,
    handle: &mut LatsefurController,
    memory: u8,
    number: u16,
    value: u8,
    reply: &mut LatsefurReply,
) -> u8
    ensures asked { Asks (command.SetBeacon (record { memory = memory; number = number }) value)
        handle.old.slot.held handle.new.slot.held reply.old reply.new result }
{
    let message = MsgRef { memory, number };
    ask(alloc, handle, &Command::SetBeacon(message, value), reply)
}

/// Sets whether a message asks for the pixel service, 0 or 1 (NTCIP 1203 v03, dmsMessagePixelService).
#[unsafe(no_mangle)]
pub extern "C" fn latsefur_set_pixel_service(
    alloc: Global,
    handle: &mut LatsefurController,
    memory: u8,
    number: u16,
    value: u8,
    reply: &mut LatsefurReply,
) -> u8
    ensures asked { Asks (command.SetPixelService (record { memory = memory; number = number }) value)
        handle.old.slot.held handle.new.slot.held reply.old reply.new result }
{
    let message = MsgRef { memory, number };
    ask(
        alloc,
        handle,
        &Command::SetPixelService(message, value),
        reply,
    )
}

/// Makes every changeable message one that isn't used (NTCIP 1203 v03, dmsMemoryMgmt).
#[unsafe(no_mangle)]
pub extern "C" fn latsefur_clear(
    alloc: Global,
    handle: &mut LatsefurController,
    reply: &mut LatsefurReply,
) -> u8
    ensures asked { Asks (command.Clear) handle.old.slot.held handle.new.slot.held reply.old reply.new result }
{
    ask(alloc, handle, &Command::Clear, reply)
}

/// Judges the message that waits with the lowest number, if one does.
#[unsafe(no_mangle)]
pub extern "C" fn latsefur_work(
    alloc: Global,
    handle: &mut LatsefurController,
    reply: &mut LatsefurReply,
) -> u8
    ensures asked { Asks (command.Work) handle.old.slot.held handle.new.slot.held reply.old reply.new result }
{
    ask(alloc, handle, &Command::Work, reply)
}

/// Some tenths of a second pass.
#[unsafe(no_mangle)]
pub extern "C" fn latsefur_tick(
    alloc: Global,
    handle: &mut LatsefurController,
    tenths: u32,
    reply: &mut LatsefurReply,
) -> u8
    ensures asked { Asks (command.Tick tenths) handle.old.slot.held handle.new.slot.held reply.old reply.new result }
{
    ask(alloc, handle, &Command::Tick(tenths), reply)
}

/// Shows a message, named by a code of 12 octets: duration in minutes, priority, memory type, number, CRC and source address, numbers
/// with the high octet first (NTCIP 1203 v03, dmsActivateMessage).
#[unsafe(no_mangle)]
pub extern "C" fn latsefur_activate(
    alloc: Global,
    handle: &mut LatsefurController,
    code: &[u8],
    reply: &mut LatsefurReply,
) -> u8
    ensures asked { AsksByCode 12 command.Activate code.now handle.old.slot.held handle.new.slot.held reply.old reply.new result }
{
    if code.len() != 12 {
        return BAD_LENGTH;
    }
    let mut octets = [0; 12];
    octets.copy_from_slice(code);
    ask(alloc, handle, &Command::Activate(octets), reply)
}

/// Names the message that follows a duration, by a code of 5 octets: memory type, number and CRC, numbers with the high octet first
/// (NTCIP 1203 v03, dmsEndDurationMessage).
#[unsafe(no_mangle)]
pub extern "C" fn latsefur_set_end(
    alloc: Global,
    handle: &mut LatsefurController,
    code: &[u8],
    reply: &mut LatsefurReply,
) -> u8
    ensures asked { AsksByCode 5 command.SetEnd code.now handle.old.slot.held handle.new.slot.held reply.old reply.new result }
{
    if code.len() != 5 {
        return BAD_LENGTH;
    }
    let mut octets = [0; 5];
    octets.copy_from_slice(code);
    ask(alloc, handle, &Command::SetEnd(octets), reply)
}

/// Sets one of the defaults (NTCIP 1203 v03, group multiCfg). They are numbered from 1, in the order of `LatsefurDefaults`.
#[unsafe(no_mangle)]
pub extern "C" fn latsefur_set_default(
    alloc: Global,
    handle: &mut LatsefurController,
    field: u8,
    value: u8,
    reply: &mut LatsefurReply,
) -> u8
    ensures asked { SetsDefault (field_numbered field) value handle.old.slot.held handle.new.slot.held reply.old reply.new result }
{
    let Some(field) = field_numbered(field) else {
        return NO_DEFAULT;
    };
    ask(alloc, handle, &Command::SetDefault(field, value), reply)
}
