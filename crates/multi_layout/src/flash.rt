//! When a flash changes next.

ghost use Rattle.std.specs.Prelude.{◌≡◌, true, if◌then◌else◌};
ghost use Rattle.multi_layout.specs.Prelude.{meant_by};
ghost use Rattle.multi_layout.specs.Change.{flash_left, is_shown, sooner};

use multi_judge::KnownItem;
use multi_meaning::FlashTimes;

/// The sooner of two changes, in tenths of a second.
pub(crate) fn sooner(one: Option<u64>, other: Option<u64>) -> Option<u64>
    ensures { result ≡ sooner one other }
{
    match (one, other) {
        (Some(one), Some(other)) => Some(one.min(other)),
        (Some(one), None) => Some(one),
        (None, other) => other,
    }
}

/// The tenths of a second from a phase to the next change of a flash, if it changes.
fn flash_left(phase: u64, flash: Option<FlashTimes>) -> Option<u64>
    ensures { result ≡ flash_left phase flash }
{
    let FlashTimes { off_first, on, off } = flash?;
    if on == 0 || off == 0 {
        return None;
    }
    let first = u64::from(if off_first { off } else { on });
    let whole = u64::from(on) + u64::from(off);
    let time = phase % whole;
    if time < first {
        Some(first - time)
    } else {
        Some(whole - time)
    }
}

/// The soonest change of a page with one more item, where flashes are asked for: a character changes with the flash in force.
#[inline(always)]
pub(crate) fn sooner_with<const FLASHES: bool>(
    soonest: Option<u64>,
    item: KnownItem,
    phase: u64,
    flash: Option<FlashTimes>,
) -> Option<u64>
    ensures { FLASHES ≡ true
        → result ≡ (if is_shown (meant_by item) then sooner soonest (flash_left phase flash) else soonest) }
{
    if !FLASHES {
        return soonest;
    }
    match item {
        KnownItem::Char(_) => sooner(soonest, flash_left(phase, flash)),
        KnownItem::Tag(_) => soonest,
    }
}
