//! A controller on the heap, as its pointer, or nothing.
ghost use Rattle.std.specs.Prelude.{◌≡◌, Option, Some, None, IsSome};
ghost use Rattle.sign_control.specs.State.{ControllerData};
ghost use Rattle.held_controller.specs.Slot.{slot_owns};

use crate::parts::Parts;
use sign_control::Controller;
use std::alloc::Global;
use std::marker::{Model, Send};
use std::ptr::null_mut;

/// A controller on the heap, as its pointer, or nothing. C sees the pointer alone, as that of an octet.
///
/// A slot isn't dropped: the box of one that holds a controller is taken out, and one that holds nothing is let go of by
/// `unused`.
#[repr(C)]
pub struct Slot {
    at: *mut u8,
    alloc: Global,
    pub ghost held: { Option ControllerData },
}

impl Model for Slot {
    ghost also_owns = { λ slot. slot_owns slot.alloc slot.at slot.held };
}

impl Slot {
    /// A slot that holds nothing.
    pub fn empty(alloc: Global) -> Slot
        ensures held { result.held ≡ None }
    {
        Slot {
            at: null_mut(),
            alloc,
        }
    }

    /// The slot of the parts of a box.
    fn of_parts(parts: Parts<Controller, Global>) -> Slot
        ensures held { result.held ≡ Some parts.value }
    {
        let Parts { at, alloc } = parts;
        Slot {
            at: at as *mut u8,
            alloc,
        }
    }

    /// The parts of the box again.
    fn into_parts(self) -> Parts<Controller, Global>
        requires full { IsSome self.held }
        ensures held { self.held ≡ Some result.value }
    {
        let Slot { at, alloc } = self;
        Parts {
            at: at as *mut Controller,
            alloc,
        }
    }

    /// The slot of a box.
    pub fn of(boxed: Box<Controller>) -> Slot
        ensures held { result.held ≡ Some boxed.value }
    {
        Slot::of_parts(Parts::of(boxed))
    }

    /// The box again.
    pub fn into_box(self) -> Box<Controller>
        requires full { IsSome self.held }
        ensures held { self.held ≡ Some result.value }
    {
        self.into_parts().into_box()
    }

    /// Lets go of a slot that holds nothing.
    pub fn unused(self)
        requires empty { self.held ≡ None }
    {
        let Slot { at: _, alloc: _ } = self;
    }
}

// It may go to another thread, as a box of a controller may.
unsafe impl Send for Slot {}
