//! A state that is saved, and restored.

use super::{CURRENT, FIRST, SHOW_A, sample, showing_a};
use crate::tests::so;
use message_store::{Store, StoreLimits};
use multi_layout::Shown;
use saved_octets::{StateFault, crc32, put_seal};
use sign_control::{Command, Controller, DefaultField, Reply};
use sign_font::{Sign, sample_sign};
use std::alloc::Global;
use std::test::Fail;

/// What is asked before the state is saved: the display shows a copy of a message, and another waits in its slot.
const BEFORE: [Command<'static>; 7] = [
    Command::Tick(12),
    Command::SetEnd([3, 0, 1, 0x9a, 0x66]),
    Command::SetDefault(DefaultField::PageOn, 7),
    Command::Request(FIRST, 6),
    Command::SetMulti(FIRST, b"AI"),
    Command::SetOwner(FIRST, b"o"),
    Command::Request(FIRST, 7),
];

/// What is asked of both controllers then.
const AFTER: [Command<'static>; 10] = [
    Command::Tick(7),
    Command::Work,
    Command::Work,
    Command::SetBeacon(FIRST, 1),
    Command::Activate(SHOW_A),
    Command::Activate([0, 1, 0xff, 2, 0, 1, 0, 0, 0, 0, 0, 9]),
    Command::Activate([0, 1, 0xff, 5, 0, 1, 0x9a, 0x66, 0, 0, 0, 9]),
    Command::Tick(599),
    Command::Tick(9),
    Command::Clear,
];

/// The octets of the state: the version and how many they are; the defaults, the message that follows a duration, the registers, the
/// display with its defaults, its text; one message; and the CRC-32 of all of them.
const SAVED: [u8; 78] = [
    0x01, 0x00, 0x00, 0x00, 0x4e, 0x01, 0x03, 0x03, 0x07, 0x00, 0x05, 0x05, 0x01, 0x00, 0x03, 0x00,
    0x01, 0x9a, 0x66, 0x02, 0x02, 0x02, 0x00, 0x00, 0x03, 0x00, 0x01, 0x01, 0x00, 0x00, 0x08, 0x9a,
    0x66, 0x7f, 0x00, 0x00, 0x01, 0xff, 0xff, 0xff, 0xff, 0x00, 0x00, 0x00, 0x00, 0x00, 0x00, 0x00,
    0x0c, 0x01, 0x03, 0x03, 0x1e, 0x00, 0x05, 0x05, 0x01, 0x00, 0x00, 0x01, 0x41, 0x00, 0x01, 0x03,
    0x01, 0x00, 0x00, 0x00, 0x02, 0x41, 0x49, 0x00, 0x01, 0x6f, 0xa2, 0x41, 0xd4, 0x82,
];

/// A controller with this state.
fn waiting(alloc: Global) -> Result<Controller, Fail> {
    let mut controller = showing_a(alloc)?;
    for command in BEFORE {
        controller.apply(&command);
    }
    Ok(controller)
}

/// The octets of its state.
fn saved(alloc: Global, controller: &Controller) -> Result<Vec<u8>, Fail> {
    let mut octets = Vec::from_elem(alloc, 0, controller.save_size())?;
    let count = controller
        .save(octets.as_mut_slice())
        .ok_or("the buffer is too small")?;
    octets.truncate(count);
    Ok(octets)
}

/// Whether both have the same report, defaults, display and message that follows a duration.
fn are_alike(one: &Controller, other: &Controller) -> bool {
    one.report() == other.report()
        && one.defaults() == other.defaults()
        && one.end_message() == other.end_message()
        && are_rows_alike(one, other)
}

fn are_rows_alike(one: &Controller, other: &Controller) -> bool {
    [FIRST, CURRENT].iter().all(|message| {
        match (one.row(*message), other.row(*message)) {
            (Ok(row), Ok(same)) => {
                row.status == same.status && row.multi == same.multi && row.owner == same.owner
            }
            _ => false,
        }
    })
}

#[test]
fn the_octets_of_a_state_are_known(rt: HostRuntime) -> Result<(), Fail> {
    let alloc = rt.alloc();
    let controller = waiting(alloc)?;
    let octets = saved(alloc, &controller)?;
    so(&rt, octets.as_slice() == SAVED.as_slice(), "the octets");
    so(&rt, crc32(b"123456789") == 0xcbf4_3926, "a known CRC-32");
    so(
        &rt,
        controller.end_message() == [3, 0, 1, 0x9a, 0x66],
        "the end",
    );
    let mut short = Vec::from_elem(alloc, 0, controller.save_size() - 1)?;
    let none = controller.save(short.as_mut_slice()).is_none();
    so(&rt, none, "a buffer that is too small");
    Ok(())
}

#[test]
fn a_restored_controller_answers_as_the_one_that_was_saved(rt: HostRuntime) -> Result<(), Fail> {
    let alloc = rt.alloc();
    let mut first = waiting(alloc)?;
    let mut second = sample(alloc)?;
    let done = second.restore(&SAVED).is_ok();
    so(&rt, done && are_alike(&first, &second), "the state");
    for command in AFTER {
        let same = first.apply(&command) == second.apply(&command);
        so(&rt, same && are_alike(&first, &second), "a command");
        let shown = first.frame(1).shown;
        so(&rt, shown == second.frame(1).shown, "a frame");
    }
    Ok(())
}

#[test]
fn a_truncation_is_refused(rt: HostRuntime) -> Result<(), Fail> {
    let alloc = rt.alloc();
    let fresh = sample(alloc)?;
    let mut controller = sample(alloc)?;
    for count in 0..SAVED.len() {
        let refused = controller.restore(&SAVED[..count]) == Err(StateFault::Length);
        so(
            &rt,
            refused && are_alike(&controller, &fresh),
            "a truncation",
        );
    }
    Ok(())
}

#[test]
fn a_changed_octet_is_refused(rt: HostRuntime) -> Result<(), Fail> {
    let alloc = rt.alloc();
    let fresh = sample(alloc)?;
    let mut controller = sample(alloc)?;
    for at in 0..SAVED.len() {
        let mut bit = 1u8;
        for _place in 0..8 {
            let mut octets = SAVED;
            octets[at] ^= bit;
            bit = bit.wrapping_mul(2);
            let refused = controller.restore(&octets).is_err();
            so(
                &rt,
                refused && are_alike(&controller, &fresh),
                "a changed octet",
            );
        }
    }
    Ok(())
}

/// Octets of which one is another, with the CRC-32 that is theirs then.
fn sealed_with(at: usize, octet: u8) -> [u8; 78] {
    let mut octets = SAVED;
    if let Some(place) = octets.get_mut(at) {
        *place = octet;
    }
    put_seal(&mut octets, 74);
    octets
}

#[test]
fn what_no_sign_has_is_refused(rt: HostRuntime) -> Result<(), Fail> {
    let alloc = rt.alloc();
    let fresh = sample(alloc)?;
    let mut controller = sample(alloc)?;
    for (at, octet, fault) in [
        (0, 2, StateFault::Version),
        (4, 87, StateFault::Length),
        (5, 9, StateFault::Defaults),
        (19, 1, StateFault::Value),
        (30, 9, StateFault::Value),
        (37, 3, StateFault::Value),
        (49, 9, StateFault::Defaults),
        (59, 65, StateFault::TooLong),
        (60, b'[', StateFault::Text),
        (62, 2, StateFault::Slots),
        (63, 6, StateFault::Value),
        (64, 0, StateFault::Value),
        (65, 2, StateFault::Value),
        (66, 2, StateFault::Value),
        (68, 65, StateFault::TooLong),
        (72, 4, StateFault::Length),
    ] {
        let refused = controller.restore(&sealed_with(at, octet)) == Err(fault);
        so(&rt, refused && are_alike(&controller, &fresh), "a number");
    }
    Ok(())
}

#[test]
fn what_passes_the_limits_of_another_table_is_refused(rt: HostRuntime) -> Result<(), Fail> {
    let alloc = rt.alloc();
    for (slots, bytes, max_string, fault) in [
        (1, 2, 64, StateFault::NoSpace),
        (2, 4, 64, StateFault::Slots),
        (1, 4, 1, StateFault::TooLong),
    ] {
        let limits = StoreLimits {
            slots,
            bytes,
            max_string,
        };
        let sign = Sign::new(alloc, sample_sign(alloc)?)?;
        let store = Store::new(alloc, limits, Vec::new(alloc))?;
        let mut controller = Controller::new(alloc, sign, store)?;
        let report = controller.report();
        let refused = controller.restore(&SAVED) == Err(fault);
        so(&rt, refused && controller.report() == report, "a limit");
    }
    Ok(())
}

/// The octets of the state, with the clock two tenths before its last value.
fn late() -> [u8; 78] {
    let mut octets = SAVED;
    octets[41..49].copy_from_slice(&(u64::MAX - 2).to_be_bytes());
    put_seal(&mut octets, 74);
    octets
}

/// No caller can wait for the last value, so a state is restored that is just before it.
#[test]
fn the_clock_stays_at_its_last_value(rt: HostRuntime) -> Result<(), Fail> {
    let mut controller = sample(rt.alloc())?;
    so(&rt, controller.restore(&late()).is_ok(), "the state");
    for (tenths, clock) in [
        (1, u64::MAX - 1),
        (0, u64::MAX - 1),
        (2, u64::MAX),
        (1, u64::MAX),
        (u32::MAX, u64::MAX),
    ] {
        let told = controller.apply(&Command::Tick(tenths)) == Reply::Ticked;
        let same = controller.report().clock == clock;
        let phase = clock;
        let shown = controller.frame(1).shown == Shown::Page { page: 0, phase };
        so(&rt, told && same && shown, "a tick");
    }
    let blank = [0xff, 0xff, 0xff, 7, 0, 1, 0x0f, 0x47, 0, 0, 0, 0];
    let told = controller.apply(&Command::Activate(blank)) == Reply::Shown;
    let is_begun = told && controller.report().clock == 0;
    so(&rt, is_begun, "the clock is 0 again");
    Ok(())
}
