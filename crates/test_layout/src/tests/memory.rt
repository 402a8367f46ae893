//! The memory that judging and drawing take: the plane, and no more.

use crate::tests::so;
use multi_layout::{Shown, check, check_with};
use multi_token::Source;
use page_plane::Plane;
use sign_font::{LineFill, Sign, sample_sign};

/// `.ci/refused-calls` refuses its memory.
#[test]
fn only_making_a_sign_and_a_plane_takes_memory(rt: HostRuntime) {
    let alloc = rt.alloc();
    let mut parts = sample_sign(alloc).expect(&rt, "the parts");
    parts.line_fill = LineFill::Words;
    let sign = Sign::new(alloc, parts).expect(&rt, "a sign");
    let mut plane = Plane::new(alloc, sign.width(), sign.height()).expect(&rt, "a plane");
    so(
        &rt,
        check_with(&sign, sign.defaults(), Source::new(b"AI [zz]")).is_err(),
        "there is no tag `zz`",
    );
    // The five characters are two columns wider than the sign, so the second word stands in a line of its own.
    let Ok(mut checked) = check(&sign, Source::new(b"AI AI[np][fl]A[/fl]")) else {
        panic!(rt; "the string is accepted");
    };
    let second = Shown::Page { page: 1, phase: 0 };
    so(
        &rt,
        checked.locate(30) == second && checked.draw(0, 0, 1, &mut plane),
        "page 1 is found, and page 0 drawn",
    );
    let mut pages = checked.each_page(0, 1, plane);
    for page in 0..2 {
        assert!(rt;
            pages.next_page().is_some_and(|view| view.page == page),
            "page {page}"
        );
    }
    so(&rt, pages.next_page().is_none(), "there are two pages");
    let (checked, _) = pages.finish();
    so(&rt, checked.pages() == 2, "there are two pages");
}
