//! The memory that a controller takes.

use super::{AT_FIRST, CURRENT, FIRST, SHOW_A, VALID, is_row};
use crate::tests::so;
use message_store::{MsgRef, Permanent, Store, StoreFault, StoreLimits};
use multi_layout::Shown;
use sign_control::{Command, Controller, DefaultField, Reply};
use sign_font::{Sign, SignParts, sample_sign};
use std::alloc::Global;
use std::process::Abort;
use std::test::Fail;

/// The sample sign, and its store: one slot, 4 bytes, and the permanent message `AAAI`.
fn made(rt: &impl Abort, alloc: Global) -> (Sign, Store) {
    let limits = StoreLimits {
        slots: 1,
        bytes: 4,
        max_string: 64,
    };
    let parts = sample_sign(alloc).expect(rt, "the parts");
    let sign = Sign::new(alloc, parts).expect(rt, "a sign");
    let text = Permanent {
        multi: b"AAAI".to_vec(alloc).expect(rt, "a message"),
        priority: 5,
        beacon: 0,
        pixel: 0,
    };
    let mut messages = Vec::new(alloc);
    messages.push(text).expect(rt, "the messages");
    let store = Store::new(alloc, limits, messages).expect(rt, "a store");
    (sign, store)
}

/// The second slot of a store that has one.
const NO_SLOT: MsgRef = MsgRef {
    memory: 3,
    number: 2,
};

const PERMANENT: MsgRef = MsgRef {
    memory: 2,
    number: 1,
};

const NO_MEMORY: MsgRef = MsgRef {
    memory: 4,
    number: 1,
};

/// The slot is filled, and one octet more has no room.
pub(crate) const FILLED: [(Command<'static>, Reply); 3] = [
    (Command::Request(FIRST, 6), Reply::Done),
    (Command::SetMulti(FIRST, b"AAAA"), Reply::Done),
    (
        Command::SetMulti(FIRST, b"AAAAA"),
        Reply::Refused(StoreFault::NoSpace),
    ),
];

/// Calls are refused for each reason.
pub(crate) const REFUSED: [(Command<'static>, Reply); 8] = [
    (
        Command::Request(NO_SLOT, 6),
        Reply::Refused(StoreFault::Number),
    ),
    (
        Command::SetMulti(PERMANENT, b"A"),
        Reply::Refused(StoreFault::ReadOnly),
    ),
    (
        Command::SetMulti(NO_MEMORY, b"A"),
        Reply::Refused(StoreFault::MemoryType),
    ),
    (
        Command::SetPriority(FIRST, 0),
        Reply::Refused(StoreFault::BadValue),
    ),
    (
        Command::SetMulti(FIRST, &[b'A'; 65]),
        Reply::Refused(StoreFault::TooLong),
    ),
    (Command::Request(FIRST, 7), Reply::Done),
    (
        Command::SetMulti(FIRST, b"A"),
        Reply::Refused(StoreFault::WrongState),
    ),
    (Command::Clear, Reply::Done),
];

/// A message is written and judged.
const WRITTEN: [(Command<'static>, Reply); 12] = [
    (Command::Activate(SHOW_A), Reply::NotShown(4)),
    (Command::Request(FIRST, 6), Reply::Done),
    (Command::SetMulti(FIRST, b"A"), Reply::Done),
    (Command::SetOwner(FIRST, b"me"), Reply::Done),
    (Command::SetPriority(FIRST, 200), Reply::Done),
    (Command::SetBeacon(FIRST, 0), Reply::Done),
    (Command::SetPixelService(FIRST, 0), Reply::Done),
    (Command::Request(FIRST, 7), Reply::Done),
    (Command::Work, VALID),
    (Command::Work, Reply::Idle),
    (Command::SetDefault(DefaultField::Fore, 2), Reply::Done),
    (Command::Activate([0; 12]), Reply::NotShown(5)),
];

/// It is shown for a minute and then with no time at all, after which blank 1 is shown; and again, after which it is shown itself.
const SHOWN: [(Command<'static>, Reply); 8] = [
    (
        Command::Activate([0, 1, 0x80, 3, 0, 1, 0x66, 0x9a, 0x7f, 0, 0, 1]),
        Reply::Shown,
    ),
    (Command::Tick(599), Reply::Ticked),
    (Command::Tick(6), Reply::Ended),
    (Command::Activate(NO_TIME), Reply::Shown),
    (Command::Tick(0), Reply::Ended),
    (Command::SetEnd([3, 0, 1, 0x9a, 0x66]), Reply::Done),
    (Command::Activate(NO_TIME), Reply::Shown),
    (Command::Tick(0), Reply::Ended),
];

/// Changeable 1 with the CRC of `A`, for 0 minutes.
const NO_TIME: [u8; 12] = [0, 0, 0x80, 3, 0, 1, 0x9a, 0x66, 0x7f, 0, 0, 1];

/// Applies commands, each of which must have its reply, and asks after each what the sign tells.
fn ask_each(rt: &impl Abort, controller: &mut Controller, rows: &[(Command<'_>, Reply)]) {
    for (command, want) in rows {
        assert!(rt; controller.apply(command) == *want, "{command:?}");
        controller.frame(1);
        controller.report();
        controller.defaults();
        controller.steps();
        assert!(rt; controller.row(CURRENT).is_ok(), "{command:?}");
    }
}

/// `.ci/refused-calls` refuses its memory.
#[test]
fn only_making_and_a_run_take_memory(rt: HostRuntime) {
    let alloc = rt.alloc();
    let (sign, store) = made(&rt, alloc);
    let mut controller = Controller::new(alloc, sign, store).expect(&rt, "a controller");
    let [(first, _), (second, _), (third, _)] = FILLED;
    match controller.run(alloc, &[first, second, third]) {
        Ok(replies) => {
            let [(_, first), (_, second), (_, third)] = FILLED;
            so(
                &rt,
                replies.as_slice() == [first, second, third].as_slice(),
                "the replies",
            );
        }
        Err(fault) => {
            so(&rt, controller.report() == AT_FIRST, "the report");
            so(
                &rt,
                is_row(&controller, CURRENT, b"", 1, 0),
                "blank 1 is shown",
            );
            let unused = controller.row(FIRST).is_ok_and(|row| row.status == 1);
            so(&rt, unused, "the slot is not used");
            panic!(rt; "a run: {fault:?}");
        }
    }
    ask_each(&rt, &mut controller, &REFUSED);
    ask_each(&rt, &mut controller, &WRITTEN);
    ask_each(&rt, &mut controller, &SHOWN);
    let shown = controller
        .row(CURRENT)
        .is_ok_and(|row| row.multi == b"A".as_slice());
    so(&rt, shown, "the text is shown");
}

/// A store with the largest limits, and 255 permanent messages `A`.
fn largest_store(alloc: Global) -> Result<Store, Fail> {
    let limits = StoreLimits {
        slots: 1000,
        bytes: 1_000_000,
        max_string: 4096,
    };
    let mut messages = Vec::new(alloc);
    for _ in 0..255 {
        messages.push(Permanent {
            multi: b"A".to_vec(alloc)?,
            priority: 5,
            beacon: 0,
            pixel: 0,
        })?;
    }
    Ok(Store::new(alloc, limits, messages)?)
}

#[test]
fn the_largest_sign_shows_its_last_permanent_message(rt: HostRuntime) -> Result<(), Fail> {
    let alloc = rt.alloc();
    let parts = SignParts {
        width: 1024,
        height: 128,
        ..sample_sign(alloc)?
    };
    let mut controller = Controller::new(alloc, Sign::new(alloc, parts)?, largest_store(alloc)?)?;
    let show = [0xff, 0xff, 0x80, 2, 0, 255, 0x9a, 0x66, 0, 0, 0, 0];
    so(
        &rt,
        controller.apply(&Command::Activate(show)) == Reply::Shown,
        "it is shown",
    );
    let frame = controller.frame(1);
    so(
        &rt,
        frame.shown == Shown::Page { page: 0, phase: 0 },
        "page 0",
    );
    assert!(rt; frame.plane.width() == 1024 && frame.plane.height() == 128);
    // The three rows of the `A` in the middle: columns 510 to 512 of rows 62 to 64.
    for (y, octets) in [
        (61, [0, 0]),
        (62, [1, 0]),
        (63, [3, 0x80]),
        (64, [2, 0x80]),
        (65, [0, 0]),
    ] {
        let middle = &frame.plane.row(y)[63..65];
        assert!(rt; middle == octets.as_slice(), "row {y}");
    }
    Ok(())
}
