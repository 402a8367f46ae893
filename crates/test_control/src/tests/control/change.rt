//! When what the display shows changes.

use super::FIRST;
use message_store::{Store, StoreLimits, message_crc};
use sign_control::{Command, Controller, Reply};
use sign_font::{Sign, sample_sign};
use std::alloc::Global;
use std::test::Fail;

/// Two pages of 10 tenths, each with 5 dark ones after it.
const PAGES: &[u8] = b"[pt10o5]A[np]I";

/// A letter that is lit for 3 tenths and dark for 2.
const FLASH: &[u8] = b"[flt3o2]A";

/// The same two pages; the letter of the first is dark for 2 tenths and then lit for 4.
const BOTH: &[u8] = b"[pt10o5][flo2t4]A[/fl][np]I";

/// What is shown, for how many minutes, the tenths that have passed, the most that is asked for, and what is told.
type Row = (&'static [u8], u8, u32, u32, u32);

const ROWS: [Row; 25] = [
    // up to the end of an on time, and of an off time
    (PAGES, 9, 0, 600, 10),
    (PAGES, 9, 4, 600, 6),
    (PAGES, 9, 9, 600, 1),
    (PAGES, 9, 10, 600, 5),
    (PAGES, 9, 14, 600, 1),
    (PAGES, 9, 15, 600, 10),
    (PAGES, 9, 29, 600, 1),
    (PAGES, 9, 34, 600, 6),
    // up to the next change of a flash
    (FLASH, 9, 0, 600, 3),
    (FLASH, 9, 2, 600, 1),
    (FLASH, 9, 3, 600, 2),
    (FLASH, 9, 504, 600, 1),
    // whichever comes first
    (BOTH, 9, 0, 600, 2),
    (BOTH, 9, 2, 600, 4),
    (BOTH, 9, 7, 600, 1),
    (BOTH, 9, 8, 600, 2),
    (BOTH, 9, 11, 600, 4),
    (BOTH, 9, 16, 600, 9),
    // up to the end of the duration
    (b"A", 1, 0, 9999, 600),
    (b"A", 1, 590, 9999, 10),
    (PAGES, 1, 597, 600, 3),
    (b"A", 0, 0, 600, 0),
    // no later than what is asked for
    (b"A", 1, 590, 7, 7),
    (PAGES, 9, 0, 0, 0),
    (PAGES, 9, 0, 3, 3),
];

/// The sample sign with a slot for longer texts, which shows this one for some minutes.
fn showing(alloc: Global, text: &[u8], minutes: u8) -> Result<Controller, Fail> {
    let limits = StoreLimits {
        slots: 1,
        bytes: 64,
        max_string: 64,
    };
    let store = Store::new(alloc, limits, Vec::new(alloc))?;
    let mut controller = Controller::new(alloc, Sign::new(alloc, sample_sign(alloc)?)?, store)?;
    let [high, low] = message_crc(text, 0, 0).to_be_bytes();
    let commands = [
        Command::Request(FIRST, 6),
        Command::SetMulti(FIRST, text),
        Command::Request(FIRST, 7),
        Command::Work,
        Command::Activate([0, minutes, 255, 3, 0, 1, high, low, 0, 0, 0, 0]),
    ];
    for command in commands {
        controller.apply(&command);
    }
    Ok(controller)
}

#[test]
fn the_next_change_is_that_of_a_page_a_flash_or_a_duration(rt: HostRuntime) -> Result<(), Fail> {
    for (text, minutes, clock, most, wanted) in ROWS {
        let mut controller = showing(rt.alloc(), text, minutes)?;
        if clock > 0 {
            controller.apply(&Command::Tick(clock));
        }
        let before = controller.steps();
        let told = controller.next_change(most);
        let counted = controller.steps() > before;
        assert!(rt;
            told == wanted && counted,
            "{told} at {clock}, for {wanted}"
        );
    }
    Ok(())
}

#[test]
fn what_has_no_end_changes_no_more(rt: HostRuntime) -> Result<(), Fail> {
    let mut controller = showing(rt.alloc(), b"A", 1)?;
    let ended = controller.apply(&Command::Tick(600)) == Reply::Ended;
    let told = controller.next_change(u32::MAX);
    assert!(rt; ended && told == u32::MAX, "blank 1 stays");
    Ok(())
}
