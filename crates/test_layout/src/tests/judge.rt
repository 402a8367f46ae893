//! One judge of many strings.

use crate::tests::so;
use multi_layout::{Judge, Offence, SyntaxError};
use multi_token::Source;
use sign_font::{Sign, sample_sign};
use std::test::Fail;

#[test]
fn each_string_is_judged_from_its_own_start(rt: HostRuntime) -> Result<(), Fail> {
    let alloc = rt.alloc();
    let sign = Sign::new(alloc, sample_sign(alloc)?)?;
    let judge = Judge::new(&sign);
    so(
        &rt,
        judge.pages(&mut Source::new(b"[jp4]A[np]A")) == Ok(2),
        "the first string has two pages",
    );
    // the page justification of the string before isn't in force
    so(
        &rt,
        judge.pages(&mut Source::new(b"A[jp3]A")) == Ok(1),
        "the second string has one page",
    );
    let offence = Offence {
        error: SyntaxError::UnsupportedTag,
        at: 1,
    };
    let mut source = Source::new(b"A[zz]A");
    so(
        &rt,
        judge.pages(&mut source) == Err(offence) && source.steps() > 1,
        "there is no tag `zz`",
    );
    so(
        &rt,
        judge.pages(&mut Source::new(b"")) == Ok(1),
        "a refused string leaves nothing",
    );
    Ok(())
}
