//! Films of messages.

use crate::tests::so;
use message_film::{FilmFault, as_it_plays, film, playing_time, still};
use multi_layout::{Shown, check};
use multi_token::Source;
use sign_font::{Sign, sample_sign};

/// What a picture begins with that is shown for 3 seconds.
const THREE_SECONDS: [u8; 8] = *b"\x21\xf9\x04\x04\x2c\x01\x00\x00";

/// How many pictures are shown for 3 seconds.
fn count(octets: &[u8]) -> usize {
    let mut count = 0usize;
    for place in 0..octets.len() {
        if octets[place..].starts_with(&THREE_SECONDS) {
            count = count.saturating_add(1);
        }
    }
    count
}

#[test]
fn two_pages_of_three_seconds_are_two_pictures(rt: HostRuntime) {
    let alloc = rt.alloc();
    let parts = sample_sign(alloc).expect(&rt, "the parts");
    let sign = Sign::new(alloc, parts).expect(&rt, "a sign");
    let Ok(mut checked) = check(&sign, Source::new(b"A[np]I")) else {
        panic!(rt; "the string is accepted");
    };
    let octets = film(alloc, &sign, &mut checked, 1, 60).expect(&rt, "a film");
    so(&rt, count(&octets) == 2, "two pictures");
    // the sign has 12 by 7 pixels
    so(
        &rt,
        octets.get(6..10).expect(&rt, "a head") == [12u8, 0, 7, 0].as_slice(),
        "the size",
    );
    let octets = still(alloc, &sign, &mut checked, Shown::Off, 2).expect(&rt, "a still");
    so(
        &rt,
        octets.get(6..10).expect(&rt, "a head") == [24u8, 0, 14, 0].as_slice(),
        "the size of a still",
    );
    so(
        &rt,
        octets.get(13..19).expect(&rt, "a head") == [12u8, 12, 12, 40, 40, 40].as_slice(),
        "what is dark",
    );
}

#[test]
fn a_message_plays_until_it_begins_anew(rt: HostRuntime) {
    let alloc = rt.alloc();
    let parts = sample_sign(alloc).expect(&rt, "the parts");
    let sign = Sign::new(alloc, parts).expect(&rt, "a sign");
    // The message and the tenths of a second: two pages of 3 seconds, an `A` without flashing, and flashes by their times. The sign's own
    // flash is on and off for half a second each. 251, 241, 239 and 233 have no common factor, and together are 3,368,562,317.
    let rows: [(&[u8], u32); 8] = [
        (b"A[np]I", 60),
        (b"A[pt10o5][np]I", 30),
        (b"A", 1),
        (b"[fl]I", 10),
        (b"[flt3o4]I[/fl][flt2o8]I", 70),
        (b"[flt6o4]I[flt8o7]I", 30),
        (b"A[pt0o0][np][flt3o4]I", 7),
        (b"[flt1o250][flt1o240][flt1o238][flt1o232]I", 3_368_562_317),
    ];
    for (message, tenths) in rows {
        let Ok(checked) = check(&sign, Source::new(message)) else {
            panic!(rt; "the string is accepted");
        };
        let told = playing_time(&sign, &checked, message);
        so(&rt, told == tenths, "how long a message plays");
    }
    let message = b"[flt1o250][flt1o240][flt1o238][flt1o232][flt1o228]I";
    let Ok(mut checked) = check(&sign, Source::new(message)) else {
        panic!(rt; "the string is accepted");
    };
    let long = as_it_plays(alloc, &sign, &mut checked, message, 1, None);
    so(
        &rt,
        long == Err(FilmFault::TooLong { tenths: u32::MAX }),
        "too long",
    );
}

#[test]
fn the_first_seconds_are_played(rt: HostRuntime) {
    let alloc = rt.alloc();
    let parts = sample_sign(alloc).expect(&rt, "the parts");
    let sign = Sign::new(alloc, parts).expect(&rt, "a sign");
    let message = b"A[np]I";
    let rows = [(None, 2), (Some(3), 1), (Some(6), 2), (Some(9), 3)];
    for (seconds, pictures) in rows {
        let Ok(mut checked) = check(&sign, Source::new(message)) else {
            panic!(rt; "the string is accepted");
        };
        let octets = as_it_plays(alloc, &sign, &mut checked, message, 1, seconds).expect(
            &rt, "a film",
        );
        so(&rt, count(&octets) == pictures, "pictures of three seconds");
    }
}
