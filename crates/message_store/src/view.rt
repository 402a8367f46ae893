//! A changeable message with its texts, as a whole.

ghost use Rattle.std.specs.Prelude.{◌≡◌, ◌+◌, ◌<◌, ◌≤◌, length};
ghost use Rattle.message_store.specs.Limits.{IsKept};
ghost use Rattle.message_store.specs.Ranged.{AreRanged};
ghost use Rattle.message_store.specs.Slot.{slot_at, used_bytes};
ghost use Rattle.message_store.specs.Step.{with_slot};
ghost use Rattle.message_store.specs.View.{seen};

use crate::slot::{Slot, Status};
use crate::store::Store;

/// A changeable message with its texts (NTCIP 1203 v03, object dmsMessageTable).
#[derive(Clone, Copy)]
pub struct SlotView<'a> {
    /// Its status.
    pub status: Status,
    /// Its MULTI text.
    pub multi: &'a [u8],
    /// Its owner, at most 127 octets.
    pub owner: &'a [u8],
    /// Its run-time priority, 1 to 255.
    pub priority: u8,
    /// Whether it asks for the beacons: 0 no, 1 yes.
    pub beacon: u8,
    /// Whether it asks for the pixel service: 0 no, 1 yes.
    pub pixel: u8,
}

impl Store {
    /// The changeable message of an index, counted from 0.
    pub fn slot_view(&self, index: usize) -> SlotView<'_>
        requires { index < length self.now.slots }
        ensures view { seen result ≡ slot_at self.now index }
        ensures ranged { AreRanged result.priority result.beacon result.pixel }
        ensures multi { length result.multi.now ≤ self.now.limits.max_string }
        ensures owner { length result.owner.now ≤ 127 }
    {
        let slot = self.slot(index);
        SlotView {
            status: slot.status,
            multi: self.multi(index),
            owner: self.owner(index),
            priority: slot.priority,
            beacon: slot.beacon,
            pixel: slot.pixel,
        }
    }

    /// Replaces the changeable message of an index, counted from 0, as a whole, its status too: it isn't judged. The texts must have
    /// room beside all that are there.
    pub fn replace(&mut self, index: usize, view: &SlotView<'_>)
        requires index { index < length self.old.slots }
        requires multi { length view.now.multi.now ≤ self.old.limits.max_string }
        requires owner { length view.now.owner.now ≤ 127 }
        requires room { used_bytes self.old + length view.now.multi.now + length view.now.owner.now ≤ self.old.limits.bytes }
        requires ranged { AreRanged view.now.priority view.now.beacon view.now.pixel }
        ensures put { self.new ≡ with_slot self.old index (seen view.now) }
        ensures kept { IsKept self.new }
        ensures limits { self.new.limits ≡ self.old.limits }
    {
        self.put_slot(
            index,
            Slot {
                status: view.status,
                priority: view.priority,
                beacon: view.beacon,
                pixel: view.pixel,
            },
        );
        self.put_multi(index, view.multi);
        self.put_owner(index, view.owner);
    }
}
