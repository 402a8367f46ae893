//! The changeable messages of a store in saved octets.

ghost use Rattle.std.specs.Prelude.{◌≡◌, ℕ, List, ◌+◌, ◌*◌, ◌≤◌, length, Ok};
ghost use Rattle.std.specs.List.{All};
ghost use Rattle.message_store.specs.declared.limits.StoreLimits.{StoreLimits};
ghost use Rattle.message_store.specs.Slot.{SlotData, used_bytes};
ghost use Rattle.saved_octets.specs.Field.{Gives, placed};
ghost use Rattle.saved_octets.specs.Slots.{IsRanged, Replaces, counted_in, slots_in, table_in, table_octets};
ghost use Rattle.saved_octets.specs.internal.Reading.{rest_of};

use crate::fault::StateFault;
use crate::field::put;
use crate::slot::{put_slot, slot_of};
use byteorder::{BigEndian, ByteOrder};
use message_store::{Store, StoreLimits};

/// Puts the changeable messages of a store at a place of a buffer, which has room for them, and answers where they end.
pub fn put_table(store: &Store, buffer: &mut [u8], at: usize) -> usize
    requires room { at + 2 + 8 * length store.now.slots + used_bytes store.now ≤ length buffer.old }
    ensures put { buffer.new ≡ placed buffer.old at (table_octets store.now.slots) }
    ensures end { result ≡ at + length (table_octets store.now.slots) }
    ensures ranged { All IsRanged store.now.slots }
{
    put(buffer, at, &store.limits().slots.to_be_bytes());
    let mut end = at + 2;
    for index in 0..store.count() {
        let slot = store.slot_view(index);
        put_slot(buffer, end, &slot);
        end += 8 + slot.multi.len() + slot.owner.len();
    }
    end
}

/// The octets of the messages after their number, which must be the table's.
#[tactic(auto, unfolding(crate::specs::Slots::counted_in))]
fn counted_of(octets: &[u8], limits: StoreLimits) -> Result<&[u8], StateFault>
    ensures { Gives (λ rest. rest.now) result (counted_in limits octets.now) }
{
    if octets.len() < 2 {
        return Err(StateFault::Length);
    }
    if BigEndian::read_u16(octets) != limits.slots {
        return Err(StateFault::Slots);
    }
    Ok(&octets[2..])
}

/// The octets after the messages of a table, if these are within its limits.
fn behind_slots(octets: &[u8], limits: StoreLimits) -> Result<&[u8], StateFault>
    ensures { Gives (λ rest. rest.now) result (rest_of (slots_in limits limits.slots limits.bytes octets.now)) }
{
    let mut rest = octets;
    let mut left = limits.bytes as usize;
    for _ in 0..limits.slots {
        let (slot, after) = slot_of(rest, limits, left)?;
        left -= slot.multi.len() + slot.owner.len();
        rest = after;
    }
    Ok(rest)
}

/// Replaces the messages of a store by those that the octets begin with.
fn fill(store: &mut Store, octets: &[u8])
    requires read { let limits = store.old.limits in
        (slots : List SlotData) × (rest : List ℕ) × (slots_in limits limits.slots limits.bytes octets.now ≡ Ok (slots, rest)) }
    ensures filled { let limits = store.old.limits in
        (slots : List SlotData) (rest : List ℕ) → slots_in limits limits.slots limits.bytes octets.now ≡ Ok (slots, rest)
        → store.new ≡ record store.old { slots = slots } }
{
    store.clear();
    let limits = store.limits();
    let mut rest = octets;
    let mut left = limits.bytes as usize;
    for index in 0..store.count() {
        let Ok((slot, after)) = slot_of(rest, limits, left) else {
            // They were read before.
            unreachable!();
        };
        store.replace(index, &slot);
        left -= slot.multi.len() + slot.owner.len();
        rest = after;
    }
}

/// Replaces the changeable messages of a store by those of saved octets, all of which they must be. A refusal changes nothing.
pub fn restore_table(store: &mut Store, octets: &[u8]) -> Result<(), StateFault>
    ensures replaced { Replaces (table_in store.old.limits octets.now) store.old store.new result }
{
    let limits = store.limits();
    let slots = counted_of(octets, limits)?;
    let rest = behind_slots(slots, limits)?;
    if !rest.is_empty() {
        return Err(StateFault::Length);
    }
    fill(store, slots);
    Ok(())
}
