//! The store: what it is made of, and what it tells of itself.

ghost use Rattle.std.specs.Prelude.{◌≡◌, ◌≤◌, ◌+◌, length, map, true, false, IfOk, IfErr, OnOk, Err};
ghost use Rattle.message_store.specs.Limits.{IsKept, can_be_made, made};
ghost use Rattle.message_store.specs.Slot.{used_bytes, used_slots, permanent_of};

use crate::fault::StoreMade;
use crate::limits::{StoreLimits, can_be_made};
use crate::message::Permanent;
use crate::slots::Slots;
use crate::texts::Texts;
use std::alloc::Global;
use std::marker::Model;

/// The messages of a sign (NTCIP 1203 v03, object dmsMessageTable).
#[derive(Drop)]
pub struct Store {
    pub(crate) limits: StoreLimits,
    pub(crate) permanent: Vec<Permanent>,
    pub(crate) slots: Slots,
    /// Of slot k, counted from 0, the MULTI text at 2k and the owner at 2k + 1.
    pub(crate) texts: Texts,
}

impl Model for Store {
    ghost use Rattle.message_store.specs.Slot.{StoreData};
    ghost use Rattle.message_store.specs.internal.Stored.{stored, IsStored};

    ghost Value = { StoreData };

    ghost view = { λ s. stored s.limits s.permanent.items s.slots s.texts };

    ghost invariant = { λ s. IsStored s.limits s.permanent.items s.slots s.texts };
}

impl Store {
    /// Makes a store in which no slot is used. It reserves here the memory of all texts, and no later call takes any.
    ///
    /// `BadLimit` comes exactly where a limit is passed: 1 to 1,000 slots, at most 1,000,000 bytes, `max_string` 1 to
    /// 4,096, at most 255 permanent messages, each with at most `max_string` octets, a priority from 1, and 0 or 1 for
    /// beacon and pixel service. `Memory` comes only where memory was refused.
    pub fn new(
        alloc: Global,
        limits: StoreLimits,
        permanent: Vec<Permanent>,
    ) -> Result<Store, StoreMade>
        ensures made { IfOk result (λ store. store ≡ made limits (map permanent_of permanent.items)) }
        ensures kept { IfOk result IsKept }
        ensures sound { OnOk result (can_be_made limits (map permanent_of permanent.items) ≡ true) }
        ensures bad { can_be_made limits (map permanent_of permanent.items) ≡ false → result ≡ Err StoreMade.BadLimit }
        ensures memory { can_be_made limits (map permanent_of permanent.items) ≡ true → IfErr result (λ fault. fault ≡ StoreMade.Memory) }
    {
        if !can_be_made(limits, &permanent) {
            return Err(StoreMade::BadLimit);
        }
        let count = usize::from(limits.slots);
        let Ok(slots) = Slots::new(alloc, count) else {
            return Err(StoreMade::Memory);
        };
        let Ok(texts) = Texts::new(alloc, 2 * count, limits.bytes as usize) else {
            return Err(StoreMade::Memory);
        };
        Ok(Store {
            limits,
            permanent,
            slots,
            texts,
        })
    }

    /// The limits, as they were handed in.
    pub fn limits(&self) -> StoreLimits
        ensures limits { result ≡ self.now.limits }
        ensures kept { IsKept self.now }
    {
        self.limits
    }

    /// The permanent messages, as they were handed in, in the order of their numbers from 1 on; at most 255.
    pub fn permanents(&self) -> &[Permanent]
        ensures permanents { map permanent_of result.now ≡ self.now.permanent }
        ensures few { length result.now ≤ 255 }
    {
        &self.permanent
    }

    /// The used bytes: the octets of all texts and owners.
    pub fn used_bytes(&self) -> u32
        ensures used { result ≡ used_bytes self.now }
        ensures kept { IsKept self.now }
    {
        self.texts.used() as u32
    }

    /// The free bytes: the octets that texts and owners may still take (NTCIP 1203 v03, dmsFreeChangeableMemory).
    pub fn free_bytes(&self) -> u32
        ensures free { used_bytes self.now + result ≡ self.now.limits.bytes }
        ensures kept { IsKept self.now }
    {
        let budget = self.limits.bytes;
        budget - self.used_bytes()
    }

    /// The slots that aren't in notUsed (NTCIP 1203 v03, dmsNumChangeableMsg).
    pub fn used_slots(&self) -> u16
        ensures used { result ≡ used_slots self.now }
        ensures kept { IsKept self.now }
    {
        self.slots.used() as u16
    }
}
