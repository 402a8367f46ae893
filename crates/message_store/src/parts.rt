//! Where the fields of a slot are kept.

ghost use Rattle.std.specs.Prelude.{◌≡◌, ◌+◌, ◌<◌, ◌≤◌, length, IfSome};
ghost use Rattle.message_store.specs.Limits.{IsKept};
ghost use Rattle.message_store.specs.Ranged.{AreRanged};
ghost use Rattle.message_store.specs.Slot.{empty_slot, slot_at, used_bytes};
ghost use Rattle.message_store.specs.Step.{cleared, with_slot};
ghost use Rattle.message_store.specs.internal.Stored.{crc_of, slot_of};
ghost use Rattle.message_store.specs.Work.{waiting};

use crate::crc::crc_behind;
use crate::slot::{EMPTY, Slot, Status};
use crate::store::Store;

impl Store {
    /// What a slot holds beside its texts.
    pub(crate) fn slot(&self, index: usize) -> Slot
        requires { index < length self.now.slots }
        ensures slot { slot_at self.now index ≡ slot_of result (slot_at self.now index).multi (slot_at self.now index).owner }
        ensures ranged { AreRanged result.priority result.beacon result.pixel }
    {
        self.slots.get(index)
    }

    /// How many changeable messages there are, used or not.
    pub fn count(&self) -> usize
        ensures count { result ≡ length self.now.slots }
        ensures kept { IsKept self.now }
    {
        self.slots.all().len()
    }

    /// The slot that waits to be judged, the lowest number first, counted from 0.
    pub(crate) fn waiting(&mut self) -> Option<usize>
        ensures index { result ≡ waiting self.old }
        ensures within { IfSome result (λ index. index < length self.old.slots) }
        ensures same { self.new ≡ self.old }
        ensures kept { IsKept self.new }
    {
        self.slots.waiting()
    }

    /// A slot's MULTI text.
    pub(crate) fn multi(&self, index: usize) -> &[u8]
        requires { index < length self.now.slots }
        ensures text { result.now ≡ (slot_at self.now index).multi }
        ensures short { length result.now ≤ self.now.limits.max_string }
        ensures kept { IsKept self.now }
    {
        self.texts.get(2 * index)
    }

    /// A slot's owner.
    pub(crate) fn owner(&self, index: usize) -> &[u8]
        requires { index < length self.now.slots }
        ensures text { result.now ≡ (slot_at self.now index).owner }
        ensures short { length result.now ≤ 127 }
    {
        self.texts.get(2 * index + 1)
    }

    /// The CRC of a slot's message.
    pub(crate) fn crc(&self, index: usize) -> u16
        requires { index < length self.now.slots }
        ensures { result ≡ crc_of (slot_at self.now index) }
    {
        let slot = self.slot(index);
        crc_behind(self.texts.register(2 * index), slot.beacon, slot.pixel)
    }

    /// Keeps what makes a slot's CRC until its text is replaced, for speed.
    pub(crate) fn keep_crc(&mut self, index: usize)
        requires { index < length self.old.slots }
        ensures { self.new ≡ self.old }
    {
        self.texts.keep_register(2 * index);
    }

    /// Replaces a slot's MULTI text.
    pub(crate) fn put_multi(&mut self, index: usize, text: &[u8])
        requires index { index < length self.old.slots }
        requires short { length text.now ≤ self.old.limits.max_string }
        requires room { used_bytes self.old + length text.now ≤ self.old.limits.bytes + length (slot_at self.old index).multi }
        ensures put { self.new ≡ with_slot self.old index (record (slot_at self.old index) { multi = text.now }) }
        ensures kept { IsKept self.new }
    {
        self.texts.replace(2 * index, text);
    }

    /// Replaces a slot's owner.
    pub(crate) fn put_owner(&mut self, index: usize, text: &[u8])
        requires index { index < length self.old.slots }
        requires short { length text.now ≤ 127 }
        requires room { used_bytes self.old + length text.now ≤ self.old.limits.bytes + length (slot_at self.old index).owner }
        ensures put { self.new ≡ with_slot self.old index (record (slot_at self.old index) { owner = text.now }) }
        ensures kept { IsKept self.new }
    {
        self.texts.replace(2 * index + 1, text);
    }

    /// Replaces what a slot holds beside its texts.
    pub(crate) fn put_slot(&mut self, index: usize, slot: Slot)
        requires index { index < length self.old.slots }
        requires ranged { AreRanged slot.priority slot.beacon slot.pixel }
        ensures put { self.new ≡ with_slot self.old index (slot_of slot (slot_at self.old index).multi (slot_at self.old index).owner) }
        ensures kept { IsKept self.new }
    {
        self.slots.put(index, slot);
    }

    /// Sets the status of a slot.
    pub(crate) fn put_status(&mut self, index: usize, status: Status)
        requires { index < length self.old.slots }
        ensures put { self.new ≡ with_slot self.old index (record (slot_at self.old index) { status = status }) }
        ensures kept { IsKept self.new }
    {
        let slot = self.slot(index);
        self.put_slot(index, Slot { status, ..slot });
    }

    /// Makes a slot one that isn't used. The gaps of its texts are closed.
    pub(crate) fn put_empty(&mut self, index: usize)
        requires { index < length self.old.slots }
        ensures put { self.new ≡ with_slot self.old index empty_slot }
        ensures kept { IsKept self.new }
    {
        self.put_slot(index, EMPTY);
        self.put_multi(index, &[]);
        self.put_owner(index, &[]);
    }

    /// Makes every slot one that isn't used.
    pub(crate) fn put_all_empty(&mut self)
        ensures put { self.new ≡ cleared self.old }
        ensures kept { IsKept self.new }
    {
        self.texts.clear();
        self.slots.clear();
    }
}
