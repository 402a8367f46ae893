//! Pages in all their colours.

use crate::tests::so;
use multi_layout::check;
use multi_token::Source;
use page_picture::PageColours;
use sign_font::{Sign, sample_sign};
use std::alloc::Global;
use std::test::Fail;

/// The sample sign with the ten classic colours.
fn classic_sign(alloc: Global) -> Result<Sign, Fail> {
    let mut parts = sample_sign(alloc)?;
    parts.classic = true;
    Ok(Sign::new(alloc, parts)?)
}

#[test]
fn a_page_has_its_colours_and_its_picture(rt: HostRuntime) -> Result<(), Fail> {
    let alloc = rt.alloc();
    let sign = classic_sign(alloc)?;
    let Ok(mut checked) = check(&sign, Source::new(b"[cf2]A[np]")) else {
        panic!(rt; "the string is accepted");
    };
    let page = PageColours::new(alloc, &sign, &mut checked, 0, 0)?;
    assert!(rt; page.width() == 12 && page.height() == 7);
    so(&rt, page.colour(5, 2) == 2, "yellow");
    // row 2, column 5
    let colours = page.octets(alloc)?;
    let octet = colours.get(29).copied();
    so(&rt, colours.len() == 84 && octet == Some(2), "all colours");
    let mut text = Vec::new(alloc);
    page.push_ppm(&mut text, true)?;
    so(&rt, text.len() == 13 + 84 * 192, "the picture");
    Ok(())
}
