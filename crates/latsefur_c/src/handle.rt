//! The handle of a host.
ghost use Rattle.std.specs.Prelude.{◌≡◌, ◌<◌, Some, None, IfSome, IsSome};

use held_controller::Slot;
use sign_control::Controller;
use std::alloc::Global;
use std::mem::replace;

/// A handle, in the memory of a host, which sets it to zeros before the first call.
#[repr(C)]
pub struct LatsefurController {
    pub(crate) slot: Slot,
    /// 1 if it holds a controller, and 0 if it doesn't.
    full: u8,
    ghost empty: { (full ≡ 0) → (slot.held ≡ None) },
    ghost held: { (0 < full) → IsSome slot.held },
}

impl Drop for LatsefurController {
    fn drop(self) {
        drop(self.into_held());
    }
}

impl LatsefurController {
    /// A handle that holds no controller.
    pub(crate) fn empty(alloc: Global) -> LatsefurController
        ensures { result.slot.held ≡ None }
    {
        LatsefurController {
            slot: Slot::empty(alloc),
            full: 0,
        }
    }

    /// The handle of a controller.
    pub(crate) fn of(held: Box<Controller>) -> LatsefurController
        ensures { result.slot.held ≡ Some held.value }
    {
        LatsefurController {
            slot: Slot::of(held),
            full: 1,
        }
    }

    /// The controller that it held.
    fn into_held(self) -> Option<Box<Controller>>
        ensures some { IfSome result (λ held. self.slot.held ≡ Some held.value) }
        ensures none { result ≡ None → self.slot.held ≡ None }
    {
        let LatsefurController { slot, full } = self;
        if full == 0 {
            slot.unused();
            return None;
        }
        Some(slot.into_box())
    }

    /// Takes the controller out, if it holds one. It holds none after this.
    pub(crate) fn take(&mut self, alloc: Global) -> Option<Box<Controller>>
        ensures some { IfSome result (λ held. self.old.slot.held ≡ Some held.value) }
        ensures none { result ≡ None → self.old.slot.held ≡ None }
        ensures after { self.new.slot.held ≡ None }
    {
        replace(self, LatsefurController::empty(alloc)).into_held()
    }
}

/// For the proof alone: what crosses threads.
fn crosses<T: Send>(_crossing: &T) {}

/// A handle may go to another thread.
pub(crate) fn handle_crosses(handle: &LatsefurController) {
    crosses(handle);
}
