//! The steps that a store and a controller report: those of the same judgement and the same drawing by the calls below.

use crate::tests::so;
use message_store::{Judged, MsgRef, Permanent, Store, StoreLimits, message_crc};
use multi_layout::{Shown, check};
use multi_token::Source;
use page_plane::Plane;
use sign_control::{Command, Controller};
use sign_font::{LineFill, Sign, SignParts, sample_sign};
use std::alloc::Global;
use std::process::Abort;
use std::test::Fail;

/// Texts for the sample sign, one a line, from `signs/sample.examples`.
const UNFILLED: &[u8] = b"
A
[sc0]AAAA
[sc0]AAAAA
A[sc4]A
A]B
]]]
[/f]
[hc41]
[hc5b]
[hc42]
[hc12345]
[hc41
A[hc41]AA
[hcffff]
[[[hc49]]]
[jp4][hc41][jp2]A
A[NP]
[np][np]
A[np]A[np]AAAAA
A[np]A[pt10]
[pt10o5]A[np]A
[pt0o5]A[np]A
[pt0o0]A[np]A
[fo1,1a2B]A
[fo256]
[fo2]A[fo1]A
[jl4]A[nl][jl2]
[jl5]AAI
[jl5]A[jl5]A
[jp2]A[jp4]A
[jp2]A[jp3]A
[jp4]A[np]A
[tr1,1,3,3]A[tr10,5,3,3]A
[tr1,1,3,3][np]A
[tr1,1,2,0]A
[tr13,1,0,0]
[cf3]A[pb1]
[pb1][cf3]A
[flt5o5]A[/fl]
[flo5t5]A
A[nl0]A
AAAAAAAAAAAAAAAAAAAAAAAAAAAAAAAAAAAAAAAA
[[[[[[[[[[[[[[[[[[[[[[[[[[[[[[[[[[[[[[[[";

/// Texts for the sample sign whose lines are filled by words, one a line, from `signs/words.examples`.
const BY_WORDS: &[u8] = b"
A A A
I I A A
 AAA
AA AAAA
AA AAA\x20
AA[hc20]AA
AA   A
AA AA[nl9]
AA AAA [nl]
AAA [fo2][nl]
AAA[nl] A
A[sc9] [/sc]A
AA[fo2] AA
AA[fl][cf1] [/fl]AA
 AA[sc9]A
[sc0] IAAAA
[jp2]A[jp4]AA AA
A [tr1,1,0,0]AAAA
[tr1,1,1,0]  I
[tr1,1,5,0]I I[tr1,1,0,0]AA AA
[tr1,1,3,0]A A[np]AA AA
[jl4]AAA [jl2]A
AAA [jl5]A
[jl5]AA  A
[jl2]A [jl4]A A
[jp2]AAA [jp4]A
AA AA AA";

/// The texts of a sign whose lines are filled so.
fn texts_of(line_fill: LineFill) -> &'static [u8] {
    match line_fill {
        LineFill::Off => UNFILLED,
        LineFill::Words => BY_WORDS,
    }
}

/// The sample sign, whose lines are filled so.
fn sign_of(alloc: Global, line_fill: LineFill) -> Result<Sign, Fail> {
    let parts = SignParts {
        line_fill,
        ..sample_sign(alloc)?
    };
    Ok(Sign::new(alloc, parts)?)
}

/// The most octets of these texts.
const LONGEST: usize = 64;

/// The steps of judging a text.
fn judging(sign: &Sign, text: &[u8]) -> u64 {
    if text.len() > LONGEST {
        return 0;
    }
    match check(sign, Source::new(text)) {
        Ok(checked) => checked.steps(),
        Err(fault) => fault.source.steps(),
    }
}

/// The steps of judging an accepted text, of finding what it shows at a clock, and of drawing this; else none.
fn drawing(
    alloc: Global,
    sign: &Sign,
    text: &[u8],
    clock: u64,
    colour: u8,
) -> Result<Option<u64>, Fail> {
    if text.len() > LONGEST {
        return Ok(None);
    }
    let mut plane = Plane::new(alloc, sign.width(), sign.height())?;
    let Ok(mut checked) = check(sign, Source::new(text)) else {
        return Ok(None);
    };
    match checked.locate(clock) {
        Shown::Page { page, phase } => {
            checked.draw(page, phase, colour, &mut plane);
        }
        Shown::Off => plane.fill(colour == 0),
    }
    Ok(Some(checked.steps().saturating_add(plane.steps())))
}

/// Changeable message 1.
const FIRST: MsgRef = MsgRef {
    memory: 3,
    number: 1,
};

/// A store of one slot, whose permanent messages have these texts.
fn store_of(alloc: Global, texts: &[u8]) -> Result<Store, Fail> {
    let mut messages = Vec::new(alloc);
    for text in texts.split(|octet| *octet == b'\n') {
        messages.push(Permanent {
            multi: text.to_vec(alloc)?,
            priority: 1,
            beacon: 0,
            pixel: 0,
        })?;
    }
    let limits = StoreLimits {
        slots: 1,
        bytes: 4096,
        max_string: 4096,
    };
    Ok(Store::new(alloc, limits, messages)?)
}

/// Writes a message with this text, beacon and pixel service, and judges it.
fn work(
    store: &mut Store,
    sign: &Sign,
    text: &[u8],
    beacon: u8,
    pixel: u8,
) -> Result<Option<Judged>, Fail> {
    store.request(FIRST, 6)?;
    store.set_multi(FIRST, text)?;
    store.set_beacon(FIRST, beacon)?;
    store.set_pixel_service(FIRST, pixel)?;
    store.request(FIRST, 7)?;
    let defaults = sign.defaults();
    if sign.refuses(&defaults).is_some() {
        return Ok(None);
    }
    Ok(store.work(sign, &defaults))
}

#[test]
fn a_judged_message_has_the_steps_of_its_check(rt: HostRuntime) -> Result<(), Fail> {
    let alloc = rt.alloc();
    for line_fill in [LineFill::Off, LineFill::Words] {
        let sign = sign_of(alloc, line_fill)?;
        let mut store = store_of(alloc, b"")?;
        for text in texts_of(line_fill).split(|octet| *octet == b'\n') {
            let steps = work(&mut store, &sign, text, 0, 0)?.map(|judged| judged.steps);
            let want = judging(&sign, text);
            assert!(rt; 0 < want && steps == Some(want), "{text:?}: {steps:?}");
        }
    }
    Ok(())
}

#[test]
fn a_message_that_asks_for_what_is_not_there_has_no_steps(rt: HostRuntime) -> Result<(), Fail> {
    let sign = sign_of(rt.alloc(), LineFill::Off)?;
    let mut store = store_of(rt.alloc(), b"")?;
    for (beacon, pixel, validate_error) in [(1, 0, 3), (0, 1, 4), (1, 1, 3)] {
        let want = Judged {
            number: 1,
            status: 5,
            validate_error,
            syntax: None,
            steps: 0,
        };
        let judged = work(&mut store, &sign, b"A", beacon, pixel)?;
        assert!(rt; judged == Some(want), "{judged:?}");
    }
    Ok(())
}

/// The permanent message of a number and a text, as five octets name it.
fn named(number: u16, text: &[u8]) -> [u8; 5] {
    let [high, low] = number.to_be_bytes();
    let [crc_high, crc_low] = message_crc(text, 0, 0).to_be_bytes();
    [2, high, low, crc_high, crc_low]
}

/// Shows a message for these minutes, with the highest priority.
fn show(minutes: u16, message: [u8; 5]) -> Command<'static> {
    let [long, short] = minutes.to_be_bytes();
    let [memory, high, low, crc_high, crc_low] = message;
    Command::Activate([
        long, short, 255, memory, high, low, crc_high, crc_low, 0, 0, 0, 0,
    ])
}

/// Blank 1.
const BLANK: [u8; 5] = [7, 0, 1, 0, 0];

/// The steps that a command adds.
fn added(controller: &mut Controller, command: &Command<'_>) -> u64 {
    let before = controller.steps();
    controller.apply(command);
    controller.steps().saturating_sub(before)
}

/// The steps that a run adds which writes and judges a message with this text.
fn run_added(alloc: Global, controller: &mut Controller, text: &[u8]) -> Result<u64, Fail> {
    let commands = [
        Command::Request(FIRST, 6),
        Command::SetMulti(FIRST, text),
        Command::Request(FIRST, 7),
        Command::Work,
        Command::Work,
    ];
    let before = controller.steps();
    controller.run(alloc, &commands)?;
    Ok(controller.steps().saturating_sub(before))
}

/// The steps that commands add which write and judge a message with a permanent message's text, show the permanent message,
/// name it to follow, show blank 1 for no time, and let this time pass.
fn all_added(
    alloc: Global,
    controller: &mut Controller,
    message: [u8; 5],
    text: &[u8],
) -> Result<[u64; 5], Fail> {
    Ok([
        run_added(alloc, controller, text)?,
        added(controller, &show(65535, message)),
        added(controller, &Command::SetEnd(message)),
        added(controller, &show(0, BLANK)),
        added(controller, &Command::Tick(0)),
    ])
}

/// Asserts that frames at two clocks have the steps of judging, finding and drawing what is shown, and add them.
fn assert_frames(
    rt: &impl Abort,
    alloc: Global,
    controller: &mut Controller,
    sign: &Sign,
    text: &[u8],
) -> Result<(), Fail> {
    for (clock, colour) in [(0, 1), (10, 0)] {
        let before = controller.steps();
        let steps = controller.frame(colour).steps;
        let want = drawing(alloc, sign, text, clock, colour)?;
        let risen = controller.steps().saturating_sub(before);
        assert!(rt;
            Some(steps) == want && steps == risen,
            "{text:?}: {steps} steps at {clock}"
        );
        controller.apply(&Command::Tick(10));
    }
    Ok(())
}

#[test]
fn a_controller_counts_the_steps_of_each_check_and_drawing(rt: HostRuntime) -> Result<(), Fail> {
    let alloc = rt.alloc();
    for line_fill in [LineFill::Off, LineFill::Words] {
        let sign = sign_of(alloc, line_fill)?;
        let store = store_of(alloc, texts_of(line_fill))?;
        let mut controller = Controller::new(alloc, sign_of(alloc, line_fill)?, store)?;
        let none = judging(&sign, b"");
        let texts = texts_of(line_fill).split(|octet| *octet == b'\n');
        for (number, text) in (1..256u16).zip(texts) {
            let all = all_added(alloc, &mut controller, named(number, text), text)?;
            let steps = judging(&sign, text);
            assert!(rt; all == [steps, steps, 0, none, steps], "{text:?}: {all:?}");
            let shown = match drawing(alloc, &sign, text, 0, 1)? {
                Some(_) => text,
                None => b"",
            };
            assert_frames(&rt, alloc, &mut controller, &sign, shown)?;
        }
    }
    Ok(())
}
