//! What a sign is asked for a string, and the limits on the steps that it takes.

mod large;
mod sample;

use multi_layout::{Shown, check};
use multi_token::Source;
use page_plane::Plane;
use sign_font::Sign;
use std::alloc::{AllocError, Global};
use std::process::Abort;
use std::test::Fail;

/// Asserts that something is so, and else tells what. It is proved once, where `assert!` is proved at each of its places.
fn so(rt: &impl Abort, is_so: bool, what: &str) {
    assert!(rt; is_so, "{what}");
}

/// The pages of a string, or its error and the error's offset.
type Verdict = Result<u8, (u8, usize)>;

/// A string as its parts: how often each is written, and the part.
type Parts<'a> = &'a [(usize, &'a str)];

/// The most octets of a string of these tests.
const LONGEST: usize = 4_194_308;

/// What a sign answers to a string, and the steps that each call adds.
#[derive(Clone, Copy, Debug)]
struct Told {
    verdict: Verdict,
    /// Those of `check`.
    judged: u64,
    /// Those of `locate`, at the last tenth of a second of the cycle.
    located: u64,
    /// Those of `draw` over the string, for the page that is shown then.
    read: u64,
    /// Those of `draw` over the plane.
    put: u64,
}

/// The limits on steps for a string of some octets.
#[derive(Clone, Copy, Debug, PartialEq, Eq)]
struct Limits {
    /// That of `check`, and that of `locate`.
    judge: u64,
    /// That of drawing, over the string.
    read: u64,
    /// That of drawing, over the plane.
    put: u64,
}

/// The limits of a sign for a string of this many octets.
fn limits_of(sign: &Sign, count: usize) -> Limits {
    let count = count as u64;
    let rows = u64::from(sign.tallest()).saturating_mul(count);
    let fill = u64::from(sign.width().div_ceil(8)).saturating_mul(u64::from(sign.height()));
    Limits {
        judge: count.saturating_mul(9).saturating_add(1),
        read: count.saturating_mul(18).saturating_add(2),
        put: fill.saturating_mul(count / 4 + 1).saturating_add(rows),
    }
}

/// The string of these parts.
fn written(alloc: Global, parts: Parts<'_>) -> Result<Vec<u8>, AllocError> {
    let mut octets = Vec::new(alloc);
    for &(times, part) in parts {
        let part = part.as_bytes().repeat(alloc, times)?;
        octets.extend_from_slice(&part)?;
    }
    Ok(octets)
}

/// Asks a sign for a string.
fn asked(rt: &impl Abort, alloc: Global, sign: &Sign, octets: &[u8]) -> Result<Told, Fail> {
    let mut plane = Plane::new(alloc, sign.width(), sign.height())?;
    assert!(rt; octets.len() <= LONGEST);
    let mut checked = match check(sign, Source::new(octets)) {
        Ok(checked) => checked,
        Err(fault) => {
            return Ok(Told {
                verdict: Err((fault.code, fault.at)),
                judged: fault.source.steps(),
                located: 0,
                read: 0,
                put: 0,
            });
        }
    };
    let judged = checked.steps();
    let last = u64::from(checked.cycle()).saturating_sub(1);
    let Shown::Page { page, phase } = checked.locate(last) else {
        panic!(rt; "no page is shown");
    };
    let found = checked.steps();
    assert!(rt;
        checked.draw(page, phase, 1, &mut plane),
        "page {page} is drawn"
    );
    assert!(rt; plane.width() == sign.width() && plane.height() == sign.height());
    Ok(Told {
        verdict: Ok(checked.pages()),
        judged,
        located: found.saturating_sub(judged),
        read: checked.steps().saturating_sub(found),
        put: plane.steps(),
    })
}

/// Asserts that a string has this verdict, that no call takes more steps than it may, and that each octet up to the error is
/// read. It tells what was taken.
fn assert_told(
    rt: &impl Abort,
    alloc: Global,
    sign: &Sign,
    octets: &[u8],
    want: Verdict,
) -> Result<Told, Fail> {
    let count = octets.len();
    let front = &octets[..count.min(8)];
    let told = asked(rt, alloc, sign, octets)?;
    assert!(rt; told.verdict == want, "{count} octets, {front:?}");
    let least = match want {
        Ok(_) => count,
        Err((_, at)) => at,
    };
    assert!(rt;
        told.judged > least as u64,
        "{told:?} for {count} octets, {front:?}"
    );
    let most = limits_of(sign, count);
    let few = told.judged <= most.judge
        && told.located <= most.judge
        && told.read <= most.read
        && told.put <= most.put;
    assert!(rt; few, "{told:?} for {count} octets, {front:?}");
    Ok(told)
}

/// Asserts that each string of a table has its verdict, in few steps, and prints how many it took.
fn assert_rows(
    rt: &(impl Abort + Print),
    alloc: Global,
    sign: &Sign,
    rows: &[(Parts<'_>, Verdict)],
) -> Result<(), Fail> {
    for &(parts, want) in rows {
        let octets = written(alloc, parts)?;
        let told = assert_told(rt, alloc, sign, &octets, want)?;
        let count = octets.len();
        println!(rt; "{count} octets: {told:?}")?;
    }
    Ok(())
}
