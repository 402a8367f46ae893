//! The calls of a centre that change slots.

ghost use Rattle.std.specs.Prelude.{◌≡◌, ◌<◌, ◌≤◌, length, IfOk};
ghost use Rattle.message_store.specs.Limits.{IsKept};
ghost use Rattle.message_store.specs.Codes.{memory_numbered};
ghost use Rattle.message_store.specs.Step.{StepsTo, addressed, beacon_set, cleared, found, found_in, last_number, multi_set, numbered, owner_set, pixel_service_set, priority_set, requested, slot_found, writable};
ghost use Rattle.message_store.specs.declared.message.MemoryType.TheVariants as memory;

use crate::fault::StoreFault;
use crate::message::{MemoryType, MsgRef};
use crate::slot::{Request, Slot, Status};
use crate::store::Store;

/// The highest number of a memory type's messages.
fn last_number(permanent: usize, slots: usize, memory: MemoryType) -> usize
    ensures { result ≡ last_number permanent slots memory }
{
    match memory {
        MemoryType::Permanent => permanent,
        MemoryType::Changeable => slots,
        MemoryType::CurrentBuffer => 1,
        MemoryType::Blank => 255,
    }
}

/// The memory type of a message that there is among this many permanent messages and slots.
fn found_in(permanent: usize, slots: usize, message: MsgRef) -> Result<MemoryType, StoreFault>
    ensures found { result ≡ found_in permanent slots message.number (memory_numbered message.memory) }
    ensures within { IfOk result (λ memory. (1 ≤ message.number) × (message.number ≤ last_number permanent slots memory)) }
{
    let Some(memory) = MemoryType::numbered(message.memory) else {
        return Err(StoreFault::MemoryType);
    };
    let number = usize::from(message.number);
    if 1 <= number && number <= last_number(permanent, slots, memory) {
        Ok(memory)
    } else {
        Err(StoreFault::Number)
    }
}

impl Store {
    /// The memory type of a message that there is.
    pub(crate) fn found(&self, message: MsgRef) -> Result<MemoryType, StoreFault>
        ensures found { result ≡ found self.now message }
        ensures within { IfOk result (λ memory. (1 ≤ message.number)
            × (message.number ≤ last_number (length self.now.permanent) (length self.now.slots) memory)) }
        ensures kept { IsKept self.now }
    {
        found_in(self.permanent.len(), self.slots.all().len(), message)
    }

    /// The slot of a number, counted from 0.
    fn numbered(&self, number: u16) -> Result<usize, StoreFault>
        ensures index { result ≡ slot_found number (numbered number (length self.now.slots) memory.Changeable) }
        ensures within { IfOk result (λ index. index < length self.now.slots) }
        ensures kept { IsKept self.now }
    {
        let count = self.count();
        let number = usize::from(number);
        if 1 <= number && number <= count {
            Ok(number - 1)
        } else {
            Err(StoreFault::Number)
        }
    }

    /// The slot that a call is for, counted from 0. Almost every one is for a slot, which is looked up first, for speed.
    fn addressed(&self, message: MsgRef) -> Result<usize, StoreFault>
        ensures index { result ≡ addressed self.now message }
        ensures within { IfOk result (λ index. index < length self.now.slots) }
        ensures kept { IsKept self.now }
    {
        if message.memory == 3 {
            return self.numbered(message.number);
        }
        match self.found(message) {
            Ok(_) => Err(StoreFault::ReadOnly),
            Err(fault) => Err(fault),
        }
    }

    /// The slot that a write of a field is for, counted from 0.
    fn writable(&self, message: MsgRef) -> Result<usize, StoreFault>
        ensures index { result ≡ writable self.now message }
        ensures within { IfOk result (λ index. index < length self.now.slots) }
        ensures kept { IsKept self.now }
    {
        match self.addressed(message) {
            Ok(index) if self.slot(index).status.is_modifying() => Ok(index),
            Ok(_) => Err(StoreFault::WrongState),
            Err(fault) => Err(fault),
        }
    }

    /// Asks for a status by its number: 6 modifyReq, 7 validateReq or 8 notUsedReq (NTCIP 1203 v03, dmsMessageStatus).
    ///
    /// modifyReq is taken in every status but validating and keeps the fields, validateReq in modifying, and
    /// notUsedReq always; it empties the slot. Refused by `MemoryType`, `Number`, `ReadOnly`, `WrongState` and, where the
    /// number is no request, by `BadValue`.
    pub fn request(&mut self, message: MsgRef, code: u8) -> Result<(), StoreFault>
        ensures step { StepsTo (requested self.old message code) self.old self.new result }
        ensures kept { IsKept self.new }
        ensures limits { self.new.limits ≡ self.old.limits }
    {
        let index = self.addressed(message)?;
        let status = self.slot(index).status;
        match Request::numbered(code) {
            Some(Request::Modify) if !status.is_validating() => {
                self.put_status(index, Status::Modifying);
            }
            Some(Request::Validate) if status.is_modifying() => {
                self.put_status(index, Status::Validating);
            }
            Some(Request::NotUse) => self.put_empty(index),
            Some(_) => return Err(StoreFault::WrongState),
            None => return Err(StoreFault::BadValue),
        }
        Ok(())
    }

    /// Replaces the MULTI text of a slot in modifying (NTCIP 1203 v03, dmsMessageMultiString).
    ///
    /// Refused by `MemoryType`, `Number`, `ReadOnly`, `WrongState`, `TooLong` above `max_string` octets, and `NoSpace`
    /// where the used bytes, the old text's given back and the new text's taken, would pass the budget.
    pub fn set_multi(&mut self, message: MsgRef, text: &[u8]) -> Result<(), StoreFault>
        ensures step { StepsTo (multi_set self.old message text.now) self.old self.new result }
        ensures kept { IsKept self.new }
        ensures limits { self.new.limits ≡ self.old.limits }
    {
        let index = self.writable(message)?;
        if text.len() > usize::from(self.limits().max_string) {
            return Err(StoreFault::TooLong);
        }
        let used = self.used_bytes() as usize - self.multi(index).len() + text.len();
        if used > self.limits().bytes as usize {
            return Err(StoreFault::NoSpace);
        }
        self.put_multi(index, text);
        Ok(())
    }

    /// Replaces the owner of a slot in modifying (NTCIP 1203 v03, dmsMessageOwner).
    ///
    /// Refused as `set_multi` is; `TooLong` comes above 127 octets.
    pub fn set_owner(&mut self, message: MsgRef, owner: &[u8]) -> Result<(), StoreFault>
        ensures step { StepsTo (owner_set self.old message owner.now) self.old self.new result }
        ensures kept { IsKept self.new }
        ensures limits { self.new.limits ≡ self.old.limits }
    {
        let index = self.writable(message)?;
        if owner.len() > 127 {
            return Err(StoreFault::TooLong);
        }
        let used = self.used_bytes() as usize - self.owner(index).len() + owner.len();
        if used > self.limits().bytes as usize {
            return Err(StoreFault::NoSpace);
        }
        self.put_owner(index, owner);
        Ok(())
    }

    /// Sets the run-time priority, 1 to 255, of a slot in modifying (NTCIP 1203 v03, dmsMessageRunTimePriority).
    ///
    /// Refused by `MemoryType`, `Number`, `ReadOnly`, `WrongState`, and `BadValue` where it is 0.
    pub fn set_priority(&mut self, message: MsgRef, priority: u8) -> Result<(), StoreFault>
        ensures step { StepsTo (priority_set self.old message priority) self.old self.new result }
        ensures kept { IsKept self.new }
        ensures limits { self.new.limits ≡ self.old.limits }
    {
        let index = self.writable(message)?;
        if priority == 0 {
            return Err(StoreFault::BadValue);
        }
        let slot = self.slot(index);
        self.put_slot(index, Slot { priority, ..slot });
        Ok(())
    }

    /// Sets whether a slot in modifying asks for the beacons, 0 or 1 (NTCIP 1203 v03, dmsMessageBeacon).
    ///
    /// Refused by `MemoryType`, `Number`, `ReadOnly`, `WrongState`, and `BadValue` above 1.
    pub fn set_beacon(&mut self, message: MsgRef, beacon: u8) -> Result<(), StoreFault>
        ensures step { StepsTo (beacon_set self.old message beacon) self.old self.new result }
        ensures kept { IsKept self.new }
        ensures limits { self.new.limits ≡ self.old.limits }
    {
        let index = self.writable(message)?;
        if beacon > 1 {
            return Err(StoreFault::BadValue);
        }
        let slot = self.slot(index);
        self.put_slot(index, Slot { beacon, ..slot });
        Ok(())
    }

    /// Sets whether a slot in modifying asks for the pixel service, 0 or 1 (NTCIP 1203 v03, dmsMessagePixelService).
    ///
    /// Refused by `MemoryType`, `Number`, `ReadOnly`, `WrongState`, and `BadValue` above 1.
    pub fn set_pixel_service(&mut self, message: MsgRef, pixel: u8) -> Result<(), StoreFault>
        ensures step { StepsTo (pixel_service_set self.old message pixel) self.old self.new result }
        ensures kept { IsKept self.new }
        ensures limits { self.new.limits ≡ self.old.limits }
    {
        let index = self.writable(message)?;
        if pixel > 1 {
            return Err(StoreFault::BadValue);
        }
        let slot = self.slot(index);
        self.put_slot(index, Slot { pixel, ..slot });
        Ok(())
    }

    /// Makes every slot one that isn't used: its texts are empty, its priority is 1, and it asks for nothing.
    pub fn clear(&mut self)
        ensures cleared { self.new ≡ cleared self.old }
        ensures kept { IsKept self.new }
        ensures limits { self.new.limits ≡ self.old.limits }
    {
        self.put_all_empty();
    }
}
