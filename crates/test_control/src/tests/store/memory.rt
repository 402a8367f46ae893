//! The memory that a store takes.

use super::{Call, are_told, changeable, counts, has, holds, limits, message, permanent, work};
use crate::tests::so;
use message_store::Store;
use sign_font::{Sign, sample_sign};

/// `.ci/refused-calls` refuses its memory.
#[test]
fn only_making_a_store_takes_memory(rt: HostRuntime) {
    let alloc = rt.alloc();
    let parts = sample_sign(alloc).expect(&rt, "the parts");
    let sign = Sign::new(alloc, parts).expect(&rt, "a sign");
    let text = permanent(alloc, b"AAAI").expect(&rt, "a message");
    let mut messages = Vec::new(alloc);
    messages.push(text).expect(&rt, "the messages");
    let mut store = Store::new(alloc, limits(2, 10, 64), messages).expect(&rt, "a store");
    let first = changeable(1);
    let calls = [
        (Call::Request(first, 6), 0),
        (Call::Multi(first, b"A"), 0),
        (Call::Owner(first, b"me"), 0),
        (Call::Priority(first, 9), 0),
        (Call::Beacon(first, 0), 0),
        (Call::PixelService(first, 0), 0),
        (Call::Multi(first, b"AAAAAAAAAAA"), 7),
        (Call::Request(first, 7), 0),
    ];
    so(&rt, are_told(&mut store, &calls), "the calls");
    so(&rt, work(&mut store, &sign).is_some(), "it is judged");
    so(
        &rt,
        has(&store, first, [4, 9, 0, 0], 0x9a66) && holds(&store, first, b"A", b"me"),
        "what is stored",
    );
    so(
        &rt,
        holds(&store, message(2, 1), b"AAAI", b""),
        "permanent 1",
    );
    store.clear();
    so(&rt, counts(&store, 0, 10, 0), "nothing is used");
}
