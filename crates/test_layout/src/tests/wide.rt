//! Characters by their numbers.

use crate::tests::so;
use multi_layout::check;
use multi_token::Source;
use page_plane::Plane;
use sign_font::{CellPart, Sign, SignParts, sample_sign};
use std::alloc::{AllocError, Global};
use std::test::Fail;

/// Adds a cell to the first font.
fn add_cell(
    alloc: Global,
    parts: &mut SignParts,
    number: u16,
    width: u8,
    bits: &[u8],
) -> Result<(), AllocError> {
    let bits = bits.to_vec(alloc)?;
    if let Some(font) = parts.fonts.first_mut() {
        font.cells.push(CellPart {
            number,
            width,
            bits,
        })?;
    }
    Ok(())
}

/// The sample sign, whose first font has the cells 1 to 254 and the greatest number, each one lit pixel wide and three high.
fn with_full_font(alloc: Global) -> Result<Sign, Fail> {
    let mut parts = sample_sign(alloc)?;
    if let Some(font) = parts.fonts.first_mut() {
        font.cells.clear();
    }
    for number in 1..=254 {
        add_cell(alloc, &mut parts, number, 1, &[0xe0])?;
    }
    add_cell(alloc, &mut parts, 65535, 1, &[0xe0])?;
    Ok(Sign::new(alloc, parts)?)
}

#[test]
fn a_wide_number_takes_few_steps(rt: HostRuntime) -> Result<(), Fail> {
    let sign = with_full_font(rt.alloc())?;
    let mut plane = Plane::new(rt.alloc(), sign.width(), sign.height())?;
    // the bracket is read and looked up, the octet after it is read, and the seven ahead; the search for the cell takes eight, and the
    // end is read
    let Ok(mut checked) = check(&sign, Source::new(b"[hcffff]")) else {
        panic!(rt; "the string is accepted");
    };
    let judged = checked.steps();
    checked.draw(0, 0, 1, &mut plane);
    let read = checked.steps();
    assert!(rt;
        judged == 19 && read <= 19 + 146,
        "{judged} steps, and then {read}"
    );
    let Err(fault) = check(&sign, Source::new(b"[hcfffe]")) else {
        panic!(rt; "there is no such cell");
    };
    so(
        &rt,
        (fault.code, fault.at, fault.source.steps()) == (7, 0, 18),
        "there is no such cell",
    );
    Ok(())
}
