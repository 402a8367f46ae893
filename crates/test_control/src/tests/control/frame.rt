//! The frame of what is shown, and pages of texts that aren't.

use super::{FIRST, showing_a};
use crate::tests::so;
use multi_layout::Shown;
use page_plane::Plane;
use sign_control::{Command, NoPage};
use std::test::Fail;

/// The left octets of the rows of one `A` in the middle of the sample sign.
const LETTER_A: [u8; 7] = [0, 0, 0b0000_0100, 0b0000_1110, 0b0000_1010, 0, 0];

/// The same of one `I`.
const LETTER_I: [u8; 7] = [0, 0, 0b0000_0100, 0b0000_0100, 0b0000_0100, 0, 0];

/// The pixels of the letters, counted from 0, row by row.
const PIXELS_OF_A: [usize; 6] = [29, 40, 41, 42, 52, 54];

const PIXELS_OF_I: [usize; 3] = [29, 41, 53];

/// Whether the colours of the sample sign are 1 at these places and else 0, and the octet after them is as it was.
fn are_lit(colours: [u8; 85], places: &[usize]) -> bool {
    for place in 0..84 {
        if colours[place] != u8::from(places.contains(&place)) {
            return false;
        }
    }
    colours[84] == 9
}

/// Whether a plane of the sample sign's size shows these left octets, and nothing to the right of them.
fn shows(plane: &Plane, rows: [u8; 7]) -> bool {
    if plane.width() != 12 || plane.height() != 7 {
        return false;
    }
    for y in 0..7 {
        if plane.row(y) != [rows[usize::from(y)], 0].as_slice() {
            return false;
        }
    }
    true
}

#[test]
fn a_message_that_is_gone_is_still_drawn(rt: HostRuntime) -> Result<(), Fail> {
    let mut controller = showing_a(rt.alloc())?;
    controller.apply(&Command::Request(FIRST, 8));
    let before = controller.steps();
    let frame = controller.frame(1);
    so(
        &rt,
        frame.shown == Shown::Page { page: 0, phase: 0 },
        "page 0",
    );
    so(
        &rt,
        shows(frame.plane, LETTER_A),
        "one letter in the middle",
    );
    let steps = frame.steps;
    so(&rt, 0 < steps && steps <= 59, "at most 59 steps");
    so(
        &rt,
        controller.steps() == before.saturating_add(steps),
        "they are counted",
    );
    let frame = controller.frame(0);
    so(&rt, !shows(frame.plane, LETTER_A), "the background");
    Ok(())
}

#[test]
fn a_display_is_told_in_all_colours(rt: HostRuntime) -> Result<(), Fail> {
    let mut controller = showing_a(rt.alloc())?;
    let mut colours = [9; 85];
    let few = controller.colours(&mut colours[..83]);
    so(
        &rt,
        few.is_none() && colours == [9; 85],
        "one octet too few",
    );
    let shown = controller.colours(&mut colours);
    let is_page = shown == Some(Shown::Page { page: 0, phase: 0 });
    so(&rt, is_page && are_lit(colours, &PIXELS_OF_A), "one letter");
    Ok(())
}

#[test]
fn a_text_is_drawn_beside_what_is_shown(rt: HostRuntime) -> Result<(), Fail> {
    let mut controller = showing_a(rt.alloc())?;
    let drawn = controller.draw_page(b"A[np]I", 1, 0, 1).is_ok();
    so(&rt, drawn && shows(controller.plane(), LETTER_I), "page 1");
    let mut colours = [9; 85];
    let written = controller.write_page(b"A[np]I", 1, 0, &mut colours) == Ok(true);
    so(
        &rt,
        written && are_lit(colours, &PIXELS_OF_I),
        "its colours",
    );
    let none = controller.draw_page(b"A", 1, 0, 1) == Err(NoPage::Number);
    let refused = controller.write_page(b"A[", 0, 0, &mut colours) == Err(NoPage::Refused);
    so(&rt, none && refused, "no such page, and no such text");
    so(
        &rt,
        shows(controller.frame(1).plane, LETTER_A),
        "the display",
    );
    let sign = controller.sign();
    let held = sign.width() == 12 && controller.limits().bytes == 4;
    so(&rt, held && controller.permanents().len() == 1, "the sign");
    Ok(())
}
