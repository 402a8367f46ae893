//! The exports that ask a controller.
ghost use Rattle.std.specs.Prelude.{◌≡◌};
ghost use Rattle.message_store.specs.Crc.{message_crc};
ghost use Rattle.sign_control.specs.Report.{report_of};
ghost use Rattle.latsefur_c.specs.Framed.{Frames, Paints};
ghost use Rattle.latsefur_c.specs.Told.{Rows, Tells, TellsChange, default_numbers, report_numbers};

use crate::defaults::{LatsefurDefaults, default_numbers};
use crate::handle::LatsefurController;
use crate::outcome::{DONE, NO_CONTROLLER};
use crate::paint::paint_frame;
use crate::plane::draw_frame;
use crate::report::{LatsefurReport, reported};
use crate::row::{LatsefurRow, tell_row};
use crate::shown::LatsefurShown;
use message_store::{MsgRef, message_crc};
use std::alloc::Global;

/// Tells the state of the sign.
#[unsafe(no_mangle)]
pub extern "C" fn latsefur_report(
    alloc: Global,
    handle: &mut LatsefurController,
    report: &mut LatsefurReport,
) -> u8
    ensures told { Tells (λ held. report_numbers (report_of held.state))
        handle.old.slot.held handle.new.slot.held report.old report.new result }
{
    let Some(held) = handle.take(alloc) else {
        return NO_CONTROLLER;
    };
    *report = reported(held.report());
    *handle = LatsefurController::of(held);
    DONE
}

/// Tells the defaults in force.
#[unsafe(no_mangle)]
pub extern "C" fn latsefur_defaults(
    alloc: Global,
    handle: &mut LatsefurController,
    defaults: &mut LatsefurDefaults,
) -> u8
    ensures told { Tells (λ held. default_numbers held.state.defaults)
        handle.old.slot.held handle.new.slot.held defaults.old defaults.new result }
{
    let Some(held) = handle.take(alloc) else {
        return NO_CONTROLLER;
    };
    *defaults = default_numbers(held.defaults());
    *handle = LatsefurController::of(held);
    DONE
}

/// Tells all steps that the controller has counted since it was made; `u64::MAX` may stand for more.
#[unsafe(no_mangle)]
pub extern "C" fn latsefur_steps(
    alloc: Global,
    handle: &mut LatsefurController,
    steps: &mut u64,
) -> u8
    ensures told { Tells (λ held. held.steps) handle.old.slot.held handle.new.slot.held steps.old steps.new result }
{
    let Some(held) = handle.take(alloc) else {
        return NO_CONTROLLER;
    };
    *steps = held.steps();
    *handle = LatsefurController::of(held);
    DONE
}

/// Tells a message, with its text and its owner in two buffers. The currentBuffer, memory type 5 and number 1, is what the display shows.
#[unsafe(no_mangle)]
pub extern "C" fn latsefur_row(
    alloc: Global,
    handle: &mut LatsefurController,
    memory: u8,
    number: u16,
    row: &mut LatsefurRow,
    text: &mut [u8],
    owner: &mut [u8],
) -> u8
    ensures told { Rows handle.old.slot.held (record { memory = memory; number = number }) handle.new.slot.held
        row.old row.new text.old text.new owner.old owner.new result }
{
    let Some(held) = handle.take(alloc) else {
        return NO_CONTROLLER;
    };
    let message = MsgRef { memory, number };
    let outcome = tell_row(held.row(message), row, text, owner);
    *handle = LatsefurController::of(held);
    outcome
}

/// Draws the plane of a colour of what the display shows, straight into a buffer, and tells which page that is.
#[unsafe(no_mangle)]
pub extern "C" fn latsefur_frame(
    alloc: Global,
    handle: &mut LatsefurController,
    colour: u8,
    shown: &mut LatsefurShown,
    plane: &mut [u8],
) -> u8
    ensures drawn { Frames handle.old.slot.held colour handle.new.slot.held shown.old shown.new plane.old plane.new result }
{
    let Some(mut held) = handle.take(alloc) else {
        return NO_CONTROLLER;
    };
    let outcome = draw_frame(&mut held, colour, shown, plane);
    *handle = LatsefurController::of(held);
    outcome
}

/// Draws what the display shows in all its colours, straight into a buffer, and tells which page that is.
#[unsafe(no_mangle)]
pub extern "C" fn latsefur_colours(
    alloc: Global,
    handle: &mut LatsefurController,
    shown: &mut LatsefurShown,
    colours: &mut [u8],
) -> u8
    ensures drawn { Paints handle.old.slot.held handle.new.slot.held shown.old shown.new colours.old colours.new result }
{
    let Some(mut held) = handle.take(alloc) else {
        return NO_CONTROLLER;
    };
    let outcome = paint_frame(&mut held, shown, colours);
    *handle = LatsefurController::of(held);
    outcome
}

/// Tells for how many tenths of a second from now on, at most this many, what the display shows stays as it is.
#[unsafe(no_mangle)]
pub extern "C" fn latsefur_next_change(
    alloc: Global,
    handle: &mut LatsefurController,
    most: u32,
    tenths: &mut u32,
) -> u8
    ensures told { TellsChange handle.old.slot.held most handle.new.slot.held tenths.old tenths.new result }
{
    let Some(mut held) = handle.take(alloc) else {
        return NO_CONTROLLER;
    };
    *tenths = held.next_change(most);
    *handle = LatsefurController::of(held);
    DONE
}

/// The CRC of a message (NTCIP 1203 v03, dmsMessageCRC): of its text, its beacon and its pixel service.
#[unsafe(no_mangle)]
pub extern "C" fn latsefur_message_crc(text: &[u8], beacon: u8, pixel: u8) -> u16
    ensures crc { result ≡ message_crc text.now beacon pixel }
{
    message_crc(text, beacon, pixel)
}
