//! The exports that save the state of a controller, and restore it.
ghost use Rattle.sign_control.specs.Saved.{save_size};
ghost use Rattle.latsefur_c.specs.Saved.{RestoresHeld, SavesHeld, SavesState, TellsEnd};
ghost use Rattle.latsefur_c.specs.Told.{Tells};

use crate::buffer::write_front;
use crate::handle::LatsefurController;
use crate::outcome::{DONE, NO_CONTROLLER, REFUSED, TOO_SMALL};
use sign_control::Controller;
use std::alloc::Global;

/// Tells how many octets the saved state of the controller has at most.
#[unsafe(no_mangle)]
pub extern "C" fn latsefur_save_size(
    alloc: Global,
    handle: &mut LatsefurController,
    size: &mut usize,
) -> u8
    ensures told { Tells (λ held. save_size held.state.store.limits) handle.old.slot.held handle.new.slot.held size.old size.new result }
{
    let Some(held) = handle.take(alloc) else {
        return NO_CONTROLLER;
    };
    *size = held.save_size();
    *handle = LatsefurController::of(held);
    DONE
}

/// Tells a number that rises with each change of what is saved, but for time.
#[unsafe(no_mangle)]
pub extern "C" fn latsefur_revision(
    alloc: Global,
    handle: &mut LatsefurController,
    revision: &mut u64,
) -> u8
    ensures told { Tells (λ held. held.revision) handle.old.slot.held handle.new.slot.held revision.old revision.new result }
{
    let Some(held) = handle.take(alloc) else {
        return NO_CONTROLLER;
    };
    *revision = held.revision();
    *handle = LatsefurController::of(held);
    DONE
}

/// Tells the message that follows a duration, and its CRC, in five octets (NTCIP 1203 v03, dmsEndDurationMessage).
#[unsafe(no_mangle)]
pub extern "C" fn latsefur_end(
    alloc: Global,
    handle: &mut LatsefurController,
    code: &mut [u8],
) -> u8
    ensures told { TellsEnd handle.old.slot.held handle.new.slot.held code.old code.new result }
{
    let Some(held) = handle.take(alloc) else {
        return NO_CONTROLLER;
    };
    let outcome = write_front(code, &held.end_message());
    *handle = LatsefurController::of(held);
    outcome
}

/// Saves a state at the front of a buffer, and tells how many octets that are.
fn save_state(held: &Controller, octets: &mut [u8], count: &mut usize) -> u8
    ensures { SavesState held.now.state octets.old octets.new count.old count.new result }
{
    match held.save(octets) {
        Some(saved) => {
            *count = saved;
            DONE
        }
        None => TOO_SMALL,
    }
}

/// Saves the state of the controller at the front of a buffer, and tells how many octets that are.
#[unsafe(no_mangle)]
pub extern "C" fn latsefur_save(
    alloc: Global,
    handle: &mut LatsefurController,
    octets: &mut [u8],
    count: &mut usize,
) -> u8
    ensures saved { SavesHeld handle.old.slot.held handle.new.slot.held octets.old octets.new count.old count.new result }
{
    let Some(held) = handle.take(alloc) else {
        return NO_CONTROLLER;
    };
    let outcome = save_state(&held, octets, count);
    *handle = LatsefurController::of(held);
    outcome
}

/// Restores a state that was saved, and tells why not, or 0.
#[unsafe(no_mangle)]
pub extern "C" fn latsefur_restore(
    alloc: Global,
    handle: &mut LatsefurController,
    octets: &[u8],
    fault: &mut u8,
) -> u8
    ensures restored { RestoresHeld handle.old.slot.held octets.now handle.new.slot.held fault.old fault.new result }
{
    let Some(mut held) = handle.take(alloc) else {
        return NO_CONTROLLER;
    };
    let outcome = match held.restore(octets) {
        Ok(()) => {
            *fault = 0;
            DONE
        }
        Err(why) => {
            *fault = why.code();
            REFUSED
        }
    };
    *handle = LatsefurController::of(held);
    outcome
}
