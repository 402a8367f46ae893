mod judge;
mod lending;
mod memory;
mod picture;
mod steps;
mod wide;

use multi_layout::{Shown, check};
use multi_token::Source;
use page_plane::Plane;
use sign_font::{Sign, sample_sign};
use std::alloc::Global;
use std::process::Abort;
use std::test::Fail;

/// The sample sign.
fn sign(alloc: Global) -> Result<Sign, Fail> {
    Ok(Sign::new(alloc, sample_sign(alloc)?)?)
}

/// Asserts that something is so, and else tells what. It is proved once, where `assert!` is proved at each of its places.
fn so(rt: &impl Abort, is_so: bool, what: &str) {
    assert!(rt; is_so, "{what}");
}

#[test]
fn the_times_of_all_pages_are_a_cycle(rt: HostRuntime) -> Result<(), Fail> {
    let sign = sign(rt.alloc())?;
    let Ok(mut checked) = check(&sign, Source::new(b"[pt10o5]A[np]A")) else {
        panic!(rt; "the string is accepted");
    };
    so(&rt, checked.cycle() == 30, "twice 10 on and 5 off");
    let last = Shown::Page { page: 1, phase: 0 };
    so(&rt, checked.locate(u64::MAX) == last, "the greatest clock");
    Ok(())
}

#[test]
fn a_string_comes_back_with_its_steps(rt: HostRuntime) -> Result<(), Fail> {
    let sign = sign(rt.alloc())?;
    let Ok(checked) = check(&sign, Source::new(b"A[np]A")) else {
        panic!(rt; "the string is accepted");
    };
    // two for each character, three and four octets ahead for the tag, and one for the end
    let steps = checked.steps();
    assert!(rt; steps == 12, "{steps} steps");
    let Err(fault) = check(&sign, Source::new(b"A[nl2]A")) else {
        panic!(rt; "the string is refused");
    };
    // two for each character, of which the last offends, and three and five octets ahead for the tag
    let (at, steps, len) = (fault.at, fault.source.steps(), fault.source.len());
    assert!(rt;
        (at, steps, len) == (6, 12, 7),
        "at {at}: {steps} steps, {len} octets"
    );
    Ok(())
}

#[test]
fn a_page_is_found_in_few_steps(rt: HostRuntime) -> Result<(), Fail> {
    let sign = sign(rt.alloc())?;
    let rows: [(&[u8], u64, u64, u64); 2] = [(b"A", 0, 10, 10), (b"A[np]A", 30, 55, 55)];
    for (octets, clock, judging, finding) in rows {
        let Ok(mut checked) = check(&sign, Source::new(octets)) else {
            panic!(rt; "{octets:?} is accepted");
        };
        let before = checked.steps();
        checked.locate(clock);
        let after = checked.steps();
        assert!(rt;
            before <= judging && after <= before.saturating_add(finding),
            "{before} steps and then {after}"
        );
    }
    Ok(())
}

/// The left octets of the rows of one `A` in the middle of the sample sign.
const LETTER_A: [u8; 7] = [0, 0, 0b0000_0100, 0b0000_1110, 0b0000_1010, 0, 0];

/// The left octets of the rows of one `I` in the middle of the sample sign.
const LETTER_I: [u8; 7] = [0, 0, 0b0000_0100, 0b0000_0100, 0b0000_0100, 0, 0];

/// Whether a plane of the sample sign's size shows these left octets, and nothing to the right of them.
fn shows(plane: &Plane, rows: [u8; 7]) -> bool {
    if plane.width() != 12 || plane.height() != 7 {
        return false;
    }
    for y in 0..7 {
        if plane.row(y) != [rows[usize::from(y)], 0].as_slice() {
            return false;
        }
    }
    true
}

#[test]
fn the_pages_of_a_string_are_drawn_in_turn(rt: HostRuntime) -> Result<(), Fail> {
    let sign = sign(rt.alloc())?;
    let plane = Plane::new(rt.alloc(), sign.width(), sign.height())?;
    let Ok(mut checked) = check(&sign, Source::new(b"A[np]I")) else {
        panic!(rt; "the string is accepted");
    };
    checked.locate(30);
    let found = checked.steps();
    let mut pages = checked.each_page(0, 1, plane);
    for page in 0..2 {
        let Some(view) = pages.next_page() else {
            panic!(rt; "there are two pages");
        };
        let rows = if page == 0 { LETTER_A } else { LETTER_I };
        so(
            &rt,
            view.page == page && shows(view.plane, rows),
            "its letter",
        );
    }
    so(&rt, pages.next_page().is_none(), "no page is left");

    let drawn = pages.steps();
    let (checked, plane) = pages.finish();
    so(&rt, shows(&plane, LETTER_I), "the last page is given back");
    let (read, put) = (checked.steps(), plane.steps());
    let few = found <= 110 && drawn <= 168 && read <= 220 && put <= 58;
    assert!(rt;
        few,
        "{found} steps to judge and find, {drawn} to draw: {read} over the string in all, {put} over the plane"
    );
    Ok(())
}

#[test]
fn a_page_that_is_not_there_changes_nothing(rt: HostRuntime) -> Result<(), Fail> {
    let sign = sign(rt.alloc())?;
    let mut plane = Plane::new(rt.alloc(), sign.width(), sign.height())?;
    let Ok(mut checked) = check(&sign, Source::new(b"A[np]A")) else {
        panic!(rt; "the string is accepted");
    };
    so(&rt, checked.draw(1, 0, 1, &mut plane), "page 1 is there");
    let (read, put) = (checked.steps(), plane.steps());
    so(&rt, !checked.draw(2, 0, 0, &mut plane), "page 2 is not");
    so(
        &rt,
        (checked.steps(), plane.steps()) == (read, put),
        "both counts stay",
    );
    so(&rt, shows(&plane, LETTER_A), "page 1 is still shown");
    Ok(())
}

#[test]
fn a_frame_takes_few_steps(rt: HostRuntime) -> Result<(), Fail> {
    let sign = sign(rt.alloc())?;
    let mut plane = Plane::new(rt.alloc(), sign.width(), sign.height())?;
    let Ok(mut checked) = check(&sign, Source::new(b"A")) else {
        panic!(rt; "the string is accepted");
    };
    checked.locate(0);
    checked.draw(0, 0, 1, &mut plane);
    let (read, put) = (checked.steps(), plane.steps());
    assert!(rt;
        read <= 40 && put <= 19,
        "{read} steps over the string, {put} over the plane"
    );

    let Ok(three) = check(&sign, Source::new(b"AAA")) else {
        panic!(rt; "the string is accepted");
    };
    so(&rt, three.steps() <= 28, "three characters are judged");
    Ok(())
}
