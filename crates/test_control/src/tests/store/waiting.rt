//! Messages that wait to be judged, the lowest number first.

use super::{Call, are_told, changeable, limits, sample, work};
use crate::tests::so;
use message_store::Store;
use sign_font::Sign;
use std::test::Fail;

/// Whether messages of these numbers were made to wait, in this order.
fn wait(store: &mut Store, numbers: &[u16]) -> bool {
    for number in numbers {
        let slot = changeable(*number);
        let calls = [
            (Call::Request(slot, 6), 0),
            (Call::Multi(slot, b"A"), 0),
            (Call::Request(slot, 7), 0),
        ];
        if !are_told(store, &calls) {
            return false;
        }
    }
    true
}

/// Whether work judges these messages, in this order, and then none.
fn are_judged(store: &mut Store, sign: &Sign, numbers: &[u16]) -> bool {
    for number in numbers {
        match work(store, sign) {
            Some(judged) if judged.number == *number && judged.status == 4 => {}
            _ => return false,
        }
    }
    work(store, sign).is_none()
}

#[test]
fn the_waiting_message_with_the_lowest_number_is_judged(rt: HostRuntime) -> Result<(), Fail> {
    let sign = sample(rt.alloc())?;
    let mut store = Store::new(rt.alloc(), limits(6, 6, 64), Vec::new(rt.alloc()))?;
    so(
        &rt,
        wait(&mut store, &[5, 3, 2]) && are_judged(&mut store, &sign, &[2, 3, 5]),
        "they began to wait in falling order",
    );
    so(
        &rt,
        wait(&mut store, &[1, 4, 6]) && are_judged(&mut store, &sign, &[1, 4, 6]),
        "they began to wait in rising order",
    );
    so(
        &rt,
        wait(&mut store, &[6, 4])
            && work(&mut store, &sign).is_some_and(|judged| judged.number == 4)
            && wait(&mut store, &[5, 2])
            && are_judged(&mut store, &sign, &[2, 5, 6]),
        "some began to wait between",
    );
    so(
        &rt,
        wait(&mut store, &[3])
            && are_told(&mut store, &[(Call::Request(changeable(3), 8), 0)])
            && are_judged(&mut store, &sign, &[]),
        "it waits no more",
    );
    so(
        &rt,
        wait(&mut store, &[2, 3]),
        "they wait before all are cleared",
    );
    store.clear();
    so(
        &rt,
        are_judged(&mut store, &sign, &[])
            && wait(&mut store, &[1])
            && are_judged(&mut store, &sign, &[1]),
        "all were cleared",
    );
    Ok(())
}
