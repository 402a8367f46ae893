//! Texts of many slots in one pool.

use super::{Call, are_told, changeable, counts, holds, limits, told};
use crate::tests::so;
use message_store::Store;
use std::alloc::{AllocError, Global};
use std::test::Fail;

#[test]
fn a_text_of_4096_octets(rt: HostRuntime) -> Result<(), Fail> {
    let mut store = Store::new(rt.alloc(), limits(2, 4100, 4096), Vec::new(rt.alloc()))?;
    let long = Vec::from_elem(rt.alloc(), b'A', 4097)?;
    let calls = [
        (Call::Request(changeable(1), 6), 0),
        (Call::Request(changeable(2), 6), 0),
        (Call::Multi(changeable(1), &long), 6),
        (Call::Multi(changeable(1), &long[1..]), 0),
        (Call::Multi(changeable(2), b"AAAA"), 0),
    ];
    so(
        &rt,
        are_told(&mut store, &calls) && counts(&store, 4100, 0, 2),
        "two texts",
    );
    so(
        &rt,
        holds(&store, changeable(1), &long[1..], b""),
        "the long text",
    );
    so(
        &rt,
        holds(&store, changeable(2), b"AAAA", b""),
        "the short text",
    );
    Ok(())
}

/// The text of a slot in a round, of two octets more than this: the round again and again, and the number at last.
fn text_of(alloc: Global, number: u16, round: u8, len: usize) -> Result<Vec<u8>, AllocError> {
    let mut text = Vec::from_elem(alloc, round, len)?;
    text.extend_from_slice(&number.to_be_bytes())?;
    Ok(text)
}

/// Whether a slot is filled with a text of 900 octets and an owner of 100.
fn fill(alloc: Global, store: &mut Store, number: u16, round: u8) -> Result<bool, AllocError> {
    let slot = changeable(number);
    let multi = text_of(alloc, number, round, 898)?;
    let owner = text_of(alloc, number, round, 98)?;
    Ok(
        told(store, Call::Request(slot, 6)) == 0
            && told(store, Call::Multi(slot, &multi)) == 0
            && told(store, Call::Owner(slot, &owner)) == 0,
    )
}

/// Whether every slot has the text and the owner of a round.
fn is_full(alloc: Global, store: &Store, round: u8) -> Result<bool, AllocError> {
    for number in 1..1001 {
        let multi = text_of(alloc, number, round, 898)?;
        let owner = text_of(alloc, number, round, 98)?;
        if !holds(store, changeable(number), &multi, &owner) {
            return Ok(false);
        }
    }
    Ok(true)
}

/// Whether every slot is filled, the numbers in the order of the multiples of this.
fn fill_all(alloc: Global, store: &mut Store, order: u16, round: u8) -> Result<bool, AllocError> {
    let order = u32::from(order);
    for k in 0..1000u32 {
        let number = (k * order % 1000 + 1) as u16;
        if !fill(alloc, store, number, round)? {
            return Ok(false);
        }
    }
    Ok(counts(store, 1_000_000, 0, 1000))
}

/// Whether every slot is emptied, the last first.
fn empty_all(store: &mut Store) -> bool {
    for k in 0..1000 {
        if told(store, Call::Request(changeable(1000 - k), 8)) != 0 {
            return false;
        }
    }
    counts(store, 0, 1_000_000, 0)
}

#[test]
fn a_full_store_is_emptied_and_filled_again(rt: HostRuntime) -> Result<(), Fail> {
    let alloc = rt.alloc();
    let mut store = Store::new(alloc, limits(1000, 1_000_000, 4096), Vec::new(alloc))?;
    so(
        &rt,
        fill_all(alloc, &mut store, 1, 65)? && is_full(alloc, &store, 65)?,
        "filled",
    );
    so(&rt, empty_all(&mut store), "emptied");
    so(
        &rt,
        fill_all(alloc, &mut store, 377, 66)? && is_full(alloc, &store, 66)?,
        "filled again",
    );
    let longer = text_of(alloc, 500, 67, 99)?;
    so(
        &rt,
        told(&mut store, Call::Owner(changeable(500), &longer)) == 7,
        "no space",
    );
    so(&rt, is_full(alloc, &store, 66)?, "still full");
    Ok(())
}
