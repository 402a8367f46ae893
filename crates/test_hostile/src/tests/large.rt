//! A sign of the largest size, whose one character is one pixel.

use super::{Limits, Parts, Verdict, assert_rows, limits_of, written};
use crate::tests::so;
use multi_layout::check;
use multi_token::Source;
use page_plane::Plane;
use sign_font::{CellPart, FontPart, LineFill, Sign, sample_sign};
use std::alloc::Global;
use std::test::Fail;

/// The sample sign, but of 1,024 by 128 pixels and 255 pages, with one font: its `I` is one pixel, and nothing has a gap.
fn large_sign(alloc: Global, line_fill: LineFill) -> Result<Sign, Fail> {
    let letter = CellPart {
        number: 73,
        width: 1,
        bits: [0x80].to_vec(alloc)?,
    };
    let mut parts = sample_sign(alloc)?;
    parts.width = 1024;
    parts.height = 128;
    parts.max_pages = 255;
    parts.line_fill = line_fill;
    parts.defaults.font = 1;
    parts.fonts = vec![in alloc;
        FontPart {
            number: 1,
            version: 0,
            height: 1,
            char_spacing: 0,
            line_spacing: 0,
            cells: vec![in alloc; letter]?,
        },
    ]?;
    Ok(Sign::new(alloc, parts)?)
}

#[test]
fn long_strings_are_answered_in_few_steps(rt: HostRuntime) -> Result<(), Fail> {
    let lines: Parts<'_> = &[
        (1024, "I"),
        (1, "[nl]"),
        (1024, "I"),
        (1, "[nl]"),
        (1024, "I"),
        (1, "[nl]"),
        (1012, "I"),
    ];
    let rows: [(Parts<'_>, Verdict); 10] = [
        (&[(128, "[nl]")], Ok(1)),
        (&[(129, "[nl]")], Err((5, 512))),
        (&[(128, "[nl]"), (1, "I")], Err((5, 512))),
        (&[(127, "[nl]"), (1, "I")], Ok(1)),
        (&[(372, "[tr1,1,0,0]"), (4, "I")], Ok(1)),
        (&[(254, "[np]")], Ok(255)),
        (&[(1024, "[pb]")], Ok(1)),
        (&[(4096, "I")], Err((5, 1024))),
        (lines, Ok(1)),
        (&[(1, "["), (4095, "a")], Err((3, 0))),
    ];
    let plain = large_sign(rt.alloc(), LineFill::Off)?;
    assert_rows(&rt, rt.alloc(), &plain, &rows)?;
    let filled = large_sign(rt.alloc(), LineFill::Words)?;
    assert_rows(&rt, rt.alloc(), &filled, &rows)
}

#[test]
fn the_limits_are_these_numbers(rt: HostRuntime) -> Result<(), Fail> {
    let sign = large_sign(rt.alloc(), LineFill::Off)?;
    let longest = limits_of(&sign, 4096);
    let want = Limits {
        judge: 36_865,
        read: 73_730,
        // with those over the string 16,871,426
        put: 16_797_696,
    };
    so(&rt, longest == want, "of 4,096 octets");
    Ok(())
}

#[test]
fn all_of_255_pages_are_lent_in_few_steps(rt: HostRuntime) -> Result<(), Fail> {
    let sign = large_sign(rt.alloc(), LineFill::Off)?;
    let plane = Plane::new(rt.alloc(), sign.width(), sign.height())?;
    let octets = written(rt.alloc(), &[(254, "[np]")])?;
    assert!(rt; octets.len() == 1016);
    let Ok(checked) = check(&sign, Source::new(&octets)) else {
        panic!(rt; "the string is accepted");
    };
    let mut pages = checked.each_page(0, 1, plane);
    for page in 0..255 {
        let Some(view) = pages.next_page() else {
            panic!(rt; "page {page} is missing");
        };
        so(&rt, view.page == page, "the number of the page");
    }
    so(&rt, pages.next_page().is_none(), "there are 255 pages");
    let drawn = pages.steps();
    assert!(rt; drawn <= 4_197_226, "{drawn} steps");
    println!(rt; "255 pages are drawn in {drawn} steps")?;
    Ok(())
}

#[test]
fn characters_behind_many_rectangles_stand_in_the_last(rt: HostRuntime) -> Result<(), Fail> {
    let sign = large_sign(rt.alloc(), LineFill::Off)?;
    let mut plane = Plane::new(rt.alloc(), sign.width(), sign.height())?;
    let octets = written(rt.alloc(), &[(372, "[tr1,1,0,0]"), (4, "I")])?;
    assert!(rt; octets.len() == 4096);
    let Ok(mut checked) = check(&sign, Source::new(&octets)) else {
        panic!(rt; "the string is accepted");
    };
    so(&rt, checked.draw(0, 0, 1, &mut plane), "page 0 is there");
    assert!(rt; plane.height() == 128);
    // the columns 510 to 513
    let mut middle = [0; 128];
    middle[63] = 0b0000_0011;
    middle[64] = 0b1100_0000;
    for y in 0..128 {
        let want = if y == 63 { middle } else { [0; 128] };
        assert!(rt; plane.row(y) == want.as_slice(), "row {y}");
    }
    Ok(())
}
