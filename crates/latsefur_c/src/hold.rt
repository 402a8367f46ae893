//! The exports that make and free a controller.
ghost use Rattle.std.specs.Prelude.{◌≡◌, None};
ghost use Rattle.latsefur_c.specs.Held.{IsMade};

use crate::handle::LatsefurController;
use crate::outcome::{DONE, NO_MEMORY};
use crate::setup::controller_of;
use std::alloc::Global;

/// Makes the controller of a sign file. One that the handle held is freed, once the new one is made.
#[unsafe(no_mangle)]
pub extern "C" fn latsefur_controller_new(
    alloc: Global,
    sign_file: &[u8],
    handle: &mut LatsefurController,
) -> u8
    ensures made { IsMade sign_file.now handle.old.slot.held handle.new.slot.held result }
{
    let controller = match controller_of(alloc, sign_file) {
        Ok(controller) => controller,
        Err(outcome) => return outcome,
    };
    match Box::new(alloc, controller) {
        Ok(held) => {
            *handle = LatsefurController::of(held);
            DONE
        }
        Err(_) => NO_MEMORY,
    }
}

/// Frees the controller, if the handle holds one.
#[unsafe(no_mangle)]
pub extern "C" fn latsefur_controller_free(alloc: Global, handle: &mut LatsefurController)
    ensures freed { handle.new.slot.held ≡ None }
{
    *handle = LatsefurController::empty(alloc);
}
