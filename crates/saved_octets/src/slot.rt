//! A changeable message in saved octets.

ghost use Rattle.std.specs.Prelude.{◌≡◌, ◌+◌, ◌≤◌, ◌<◌, length, IfOk};
ghost use Rattle.message_store.specs.Ranged.{AreRanged};
ghost use Rattle.message_store.specs.View.{seen};
ghost use Rattle.saved_octets.specs.Field.{Gives, placed};
ghost use Rattle.saved_octets.specs.Slots.{head_in, slot_in, slot_octets};

use crate::fault::StateFault;
use crate::field::{put, put_text, text_of};
use message_store::{SlotView, Status, StoreLimits};

/// What a changeable message has beside its texts.
#[derive(Clone, Copy)]
pub(crate) struct Head {
    pub(crate) status: Status,
    pub(crate) priority: u8,
    pub(crate) beacon: u8,
    pub(crate) pixel: u8,
}

/// Reads what a changeable message has beside its texts from the first four octets.
#[tactic(auto, unfolding(crate::specs::Slots::head_in))]
fn head_of(octets: &[u8]) -> Result<Head, StateFault>
    ensures head { Gives (λ head. head) result (head_in octets.now) }
    ensures ranged { IfOk result (λ head. AreRanged head.priority head.beacon head.pixel) }
    ensures long { IfOk result (λ head. 4 ≤ length octets.now) }
{
    if octets.len() < 4 {
        return Err(StateFault::Length);
    }
    let Some(status) = Status::numbered(octets[0]) else {
        return Err(StateFault::Value);
    };
    let head = Head {
        status,
        priority: octets[1],
        beacon: octets[2],
        pixel: octets[3],
    };
    if head.priority == 0 || head.beacon > 1 || head.pixel > 1 {
        return Err(StateFault::Value);
    }
    Ok(head)
}

/// Reads the changeable message at the front, whose texts are within the limits and have so many octets at most, and answers it with the
/// octets after it.
#[tactic(auto, unfolding(crate::specs::Slots::slot_in))]
pub(crate) fn slot_of<'a>(
    octets: &'a [u8],
    limits: StoreLimits,
    left: usize,
) -> Result<(SlotView<'a>, &'a [u8]), StateFault>
    ensures slot { Gives (λ x. (seen x.0, x.1.now)) result (slot_in limits left octets.now) }
    ensures ranged { IfOk result (λ x. AreRanged x.0.priority x.0.beacon x.0.pixel) }
    ensures multi { IfOk result (λ x. length x.0.multi.now ≤ limits.max_string) }
    ensures owner { IfOk result (λ x. length x.0.owner.now ≤ 127) }
    ensures room { IfOk result (λ x. length x.0.multi.now + length x.0.owner.now ≤ left) }
{
    let head = head_of(octets)?;
    let (multi, rest) = text_of(&octets[4..], usize::from(limits.max_string))?;
    let (owner, rest) = text_of(rest, 127)?;
    if left < multi.len() + owner.len() {
        return Err(StateFault::NoSpace);
    }
    let slot = SlotView {
        status: head.status,
        multi,
        owner,
        priority: head.priority,
        beacon: head.beacon,
        pixel: head.pixel,
    };
    Ok((slot, rest))
}

/// Puts a changeable message at a place of a buffer, which has room for it.
pub(crate) fn put_slot(buffer: &mut [u8], at: usize, slot: &SlotView<'_>)
    requires multi { length slot.now.multi.now ≤ 4096 }
    requires owner { length slot.now.owner.now ≤ 127 }
    requires room { at + length slot.now.multi.now + length slot.now.owner.now + 8 ≤ length buffer.old }
    ensures put { buffer.new ≡ placed buffer.old at (slot_octets (seen slot.now)) }
{
    put(
        buffer,
        at,
        &[slot.status.code(), slot.priority, slot.beacon, slot.pixel],
    );
    put_text(buffer, at + 4, slot.multi);
    put_text(buffer, at + 6 + slot.multi.len(), slot.owner);
}
