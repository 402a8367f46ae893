//! The sample sign.

use super::{Parts, Verdict, assert_rows, assert_told, limits_of};
use crate::tests::so;
use sign_font::{LineFill, Sign, sample_sign};
use std::alloc::Global;
use std::process::Abort;
use std::test::Fail;

/// The sample sign, whose lines may be filled by words.
fn sign(alloc: Global, line_fill: LineFill) -> Result<Sign, Fail> {
    let mut parts = sample_sign(alloc)?;
    parts.line_fill = line_fill;
    Ok(Sign::new(alloc, parts)?)
}

#[test]
fn a_string_of_millions_of_octets_is_judged_in_few_steps(rt: HostRuntime) -> Result<(), Fail> {
    let rows: [(Parts<'_>, Verdict); 2] = [
        (&[(3, "]")], Err((3, 2))),
        (&[(1_048_576, "[pb]"), (4, "A")], Err((5, 4_194_307))),
    ];
    let plain = sign(rt.alloc(), LineFill::Off)?;
    so(
        &rt,
        limits_of(&plain, 4_194_308).judge == 37_748_773,
        "the limit",
    );
    assert_rows(&rt, rt.alloc(), &plain, &rows)?;
    let filled = sign(rt.alloc(), LineFill::Words)?;
    assert_rows(&rt, rt.alloc(), &filled, &rows)
}

/// Asserts the verdicts on this octet alone, and after each bracket.
fn assert_short(rt: &impl Abort, alloc: Global, sign: &Sign, octet: u8) -> Result<(), Fail> {
    let alone = match octet {
        b' ' | b'A' | b'I' => Ok(1),
        b'[' | b']' => Err((3, 0)),
        _ => Err((7, 0)),
    };
    let open = if octet == b'[' { Ok(1) } else { Err((3, 0)) };
    let close = if octet == b']' { Ok(1) } else { Err((3, 0)) };
    assert_told(rt, alloc, sign, &[octet], alone)?;
    assert_told(rt, alloc, sign, &[b'[', octet], open)?;
    assert_told(rt, alloc, sign, &[b']', octet], close)?;
    Ok(())
}

#[test]
fn each_octet_alone_and_behind_a_bracket_has_its_verdict(rt: HostRuntime) -> Result<(), Fail> {
    let plain = sign(rt.alloc(), LineFill::Off)?;
    let filled = sign(rt.alloc(), LineFill::Words)?;
    for octet in 0..=255 {
        assert_short(&rt, rt.alloc(), &plain, octet)?;
        assert_short(&rt, rt.alloc(), &filled, octet)?;
    }
    Ok(())
}
