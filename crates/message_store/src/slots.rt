//! The slots of a store, and from where on one may wait to be judged.

ghost use Rattle.std.specs.Prelude.{◌≡◌, ◌==◌, ◌+◌, ◌<◌, ◌≤◌, ◌^◌, true, not, if◌then◌else◌, length, position, replicate, slice_index_or, slice_set, IfOk};
ghost use Rattle.std.specs.List.{count_by, position_or_len};
ghost use Rattle.message_store.specs.Ranged.{AreRanged};
ghost use Rattle.message_store.specs.Slot.{is_not_used, is_validating};
ghost use Rattle.message_store.specs.internal.Stored.{unused_slot};

use crate::slot::{EMPTY, Slot};
use std::alloc::{AllocError, Global};
use std::marker::Model;

/// What slots hold beside their texts, in the order of their numbers.
#[derive(Drop)]
pub(crate) struct Slots {
    slots: Vec<Slot>,
    /// No slot before this one waits to be judged, counted from 0.
    from: usize,
    /// How many wait to be judged.
    waiting: usize,
    /// How many are used.
    used: usize,
}

impl Model for Slots {
    ghost use Rattle.std.specs.Prelude.{List};
    ghost use Rattle.message_store.specs.declared.slot.Slot.{Slot};
    ghost use Rattle.message_store.specs.internal.Counted.{AreCounted};

    ghost Value = { List Slot };

    ghost view = { λ s. s.slots.items };

    ghost invariant = { λ s. AreCounted s.slots.items s.from s.waiting s.used };
}

/// The first slot that waits to be judged, where none before `from` does; the number of slots where none waits.
fn first_validating(slots: &[Slot], from: usize) -> usize
    requires { from ≤ position_or_len (λ slot. is_validating slot.status) slots.now }
    ensures { result ≡ position_or_len (λ slot. is_validating slot.status) slots.now }
{
    for index in from..slots.len() {
        if slots[index].status.is_validating() {
            return index;
        }
    }
    slots.len()
}

/// Where to look first for a slot that waits, before the one of an index does: there if none waits.
fn look_from(from: usize, waiting: usize, index: usize) -> usize
    ensures { result ≡ (if waiting == 0 then index else from) }
{
    if waiting == 0 { index } else { from }
}

/// How many slots count once one is replaced, by whether the old one and the new one do.
fn recounted(count: usize, old: bool, new: bool) -> usize
    requires some { old ≡ true → 1 ≤ count }
    requires fits { count < 2 ^ 63 }
    ensures { result + (if old then 1 else 0) ≡ count + (if new then 1 else 0) }
{
    count - usize::from(old) + usize::from(new)
}

impl Slots {
    /// This many slots that aren't used.
    pub(crate) fn new(alloc: Global, count: usize) -> Result<Slots, AllocError>
        ensures { IfOk result (λ slots. slots ≡ replicate count unused_slot) }
    {
        Ok(Slots {
            slots: Vec::from_elem(alloc, EMPTY, count)?,
            from: 0,
            waiting: 0,
            used: 0,
        })
    }

    /// All of them.
    pub(crate) fn all(&self) -> &[Slot]
        ensures { result.now ≡ self.now }
    {
        &self.slots
    }

    /// How many are used.
    pub(crate) fn used(&self) -> usize
        ensures { result ≡ count_by (λ slot. not (is_not_used slot.status)) self.now }
    {
        self.used
    }

    /// One of them.
    pub(crate) fn get(&self, index: usize) -> Slot
        requires { index < length self.now }
        ensures slot { result ≡ slice_index_or self.now index unused_slot }
        ensures ranged { AreRanged result.priority result.beacon result.pixel }
    {
        self.slots[index]
    }

    /// Replaces a slot.
    pub(crate) fn put(&mut self, index: usize, slot: Slot)
        requires index { index < length self.old }
        requires ranged { AreRanged slot.priority slot.beacon slot.pixel }
        ensures { self.new ≡ slice_set self.old index slot }
    {
        let old = self.slots[index].status;
        let new = slot.status;
        if new.is_validating() {
            self.from = look_from(self.from, self.waiting, index).min(index);
        }
        self.waiting = recounted(self.waiting, old.is_validating(), new.is_validating());
        self.used = recounted(self.used, !old.is_not_used(), !new.is_not_used());
        self.slots[index] = slot;
    }

    /// Makes every slot one that isn't used.
    pub(crate) fn clear(&mut self)
        ensures { self.new ≡ replicate (length self.old) unused_slot }
    {
        self.slots.fill(EMPTY);
        self.from = self.slots.len();
        self.waiting = 0;
        self.used = 0;
    }

    /// The first slot that waits to be judged, counted from 0. The next call begins there.
    pub(crate) fn waiting(&mut self) -> Option<usize>
        ensures index { result ≡ position (λ slot. is_validating slot.status) self.old }
        ensures same { self.new ≡ self.old }
    {
        if self.waiting == 0 {
            return None;
        }
        self.from = first_validating(&self.slots, self.from);
        if self.from < self.slots.len() {
            Some(self.from)
        } else {
            None
        }
    }
}
