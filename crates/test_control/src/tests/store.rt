//! The store of the sample sign: one slot, 4 bytes, texts of at most 64 octets, and the permanent message `AAAI`.

mod memory;
mod pool;
mod waiting;

use crate::tests::so;
use message_store::{Judged, MsgRef, Permanent, Store, StoreLimits, message_crc};
use sign_font::{Sign, sample_sign};
use std::alloc::{AllocError, Global};
use std::test::Fail;

/// A call that changes a store.
#[derive(Clone, Copy)]
enum Call<'a> {
    Request(MsgRef, u8),
    Multi(MsgRef, &'a [u8]),
    Owner(MsgRef, &'a [u8]),
    Priority(MsgRef, u8),
    Beacon(MsgRef, u8),
    PixelService(MsgRef, u8),
}

/// Makes a call, and gives the number of its refusal, or 0 where it was done.
fn told(store: &mut Store, call: Call<'_>) -> u8 {
    let answer = match call {
        Call::Request(message, code) => store.request(message, code),
        Call::Multi(message, text) => store.set_multi(message, text),
        Call::Owner(message, owner) => store.set_owner(message, owner),
        Call::Priority(message, priority) => store.set_priority(message, priority),
        Call::Beacon(message, beacon) => store.set_beacon(message, beacon),
        Call::PixelService(message, pixel) => store.set_pixel_service(message, pixel),
    };
    match answer {
        Ok(()) => 0,
        Err(fault) => fault.code(),
    }
}

fn changeable(number: u16) -> MsgRef {
    message(3, number)
}

fn message(memory: u8, number: u16) -> MsgRef {
    MsgRef { memory, number }
}

fn limits(slots: u16, bytes: u32, max_string: u16) -> StoreLimits {
    StoreLimits {
        slots,
        bytes,
        max_string,
    }
}

/// A permanent message of this text.
fn permanent(alloc: Global, multi: &[u8]) -> Result<Permanent, AllocError> {
    Ok(Permanent {
        multi: multi.to_vec(alloc)?,
        priority: 5,
        beacon: 0,
        pixel: 0,
    })
}

fn sample(alloc: Global) -> Result<Sign, Fail> {
    Ok(Sign::new(alloc, sample_sign(alloc)?)?)
}

fn sample_store(alloc: Global) -> Result<Store, Fail> {
    let mut messages = Vec::new(alloc);
    messages.push(permanent(alloc, b"AAAI")?)?;
    Ok(Store::new(alloc, limits(1, 4, 64), messages)?)
}

/// Whether a message has this status, priority, beacon and pixel service, and this CRC.
fn has(store: &Store, of: MsgRef, fields: [u8; 4], crc: u16) -> bool {
    match store.row(of) {
        Ok(row) => fields == [row.status, row.priority, row.beacon, row.pixel] && row.crc == crc,
        Err(_) => false,
    }
}

/// The number of the refusal of a row, or 0 where there is a row.
fn told_row(store: &Store, memory: u8, number: u16) -> u8 {
    match store.row(message(memory, number)) {
        Ok(_) => 0,
        Err(fault) => fault.code(),
    }
}

/// Whether each call is answered so, in this order.
fn are_told(store: &mut Store, calls: &[(Call<'_>, u8)]) -> bool {
    for (call, answer) in calls {
        if told(store, *call) != *answer {
            return false;
        }
    }
    true
}

/// Whether a message has this text and this owner.
fn holds(store: &Store, of: MsgRef, multi: &[u8], owner: &[u8]) -> bool {
    match store.row(of) {
        Ok(row) => row.multi == multi && row.owner == owner,
        Err(_) => false,
    }
}

/// Whether a store has these used bytes, free bytes and used slots.
fn counts(store: &Store, used: u32, free: u32, slots: u16) -> bool {
    store.used_bytes() == used && store.free_bytes() == free && store.used_slots() == slots
}

/// Judges a message by the sign's own defaults.
fn work(store: &mut Store, sign: &Sign) -> Option<Judged> {
    let defaults = sign.defaults();
    if sign.refuses(&defaults).is_some() {
        return None;
    }
    store.work(sign, &defaults)
}

#[test]
fn the_crc_of_known_messages(rt: HostRuntime) {
    so(
        &rt,
        message_crc(b"1234567", b'8', b'9') == 0x906e,
        "of the nine digits",
    );
    so(&rt, message_crc(b"", 0, 0) == 0x0f47, "of no text");
    so(&rt, message_crc(b"A", 0, 0) == 0x9a66, "of `A`");
    so(&rt, message_crc(b"AAAA", 0, 0) == 0x6db5, "of `AAAA`");
    so(&rt, message_crc(b"AAAI", 0, 0) == 0xab77, "of `AAAI`");
}

#[test]
fn a_new_store_has_blanks_and_what_was_handed_in(rt: HostRuntime) -> Result<(), Fail> {
    let store = sample_store(rt.alloc())?;
    so(
        &rt,
        store.limits() == limits(1, 4, 64) && counts(&store, 0, 4, 0),
        "limits and counts",
    );
    so(
        &rt,
        has(&store, message(2, 1), [4, 5, 0, 0], 0xab77),
        "permanent 1",
    );
    so(
        &rt,
        has(&store, message(3, 1), [1, 1, 0, 0], 0x0f47),
        "slot 1",
    );
    so(&rt, has(&store, message(7, 9), [4, 9, 0, 0], 0), "blank 9");
    so(
        &rt,
        holds(&store, message(2, 1), b"AAAI", b""),
        "the text of permanent 1",
    );
    so(
        &rt,
        holds(&store, message(3, 1), b"", b""),
        "no text in slot 1",
    );
    so(
        &rt,
        holds(&store, message(7, 9), b"", b""),
        "no text in blank 9",
    );
    Ok(())
}

/// The refusals of rows, or 0 where there is one.
fn told_rows(store: &Store) -> [u8; 9] {
    [
        told_row(store, 2, 2),
        told_row(store, 2, 0),
        told_row(store, 3, 0),
        told_row(store, 5, 1),
        told_row(store, 5, 2),
        told_row(store, 7, 0),
        told_row(store, 7, 255),
        told_row(store, 7, 256),
        told_row(store, 4, 1),
    ]
}

#[test]
fn a_row_that_is_not_there_is_refused(rt: HostRuntime) -> Result<(), Fail> {
    let store = sample_store(rt.alloc())?;
    so(
        &rt,
        told_rows(&store) == [2, 2, 2, 1, 1, 2, 0, 2, 1],
        "what each row is told",
    );
    Ok(())
}
