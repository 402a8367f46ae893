//! Messages as pictures in files.

ghost use Rattle.std.specs.Prelude.{◌≤◌};
ghost use Rattle.message_picture.specs.Drawn.{AllowsSeconds, HasPoints};

use crate::tests::so;
use message_picture::{DrawFault, Moment, View, draw_message};
use multi_layout::check;
use multi_token::Source;
use sign_font::{Sign, sample_sign};
use std::alloc::Global;
use std::process::Abort;

/// Two pages, of which the first is shown for a second and then is off for half a second. The sign has 12 by 7 pixels.
const MESSAGE: &[u8] = b"[pt10o5]I[np]A";

/// Red, green and blue of a dot that is lit on a monochrome sign, and of one that is dark.
const LIT: [u8; 3] = [255, 176, 0];

const DARK: [u8; 3] = [40, 40, 40];

/// What a file in PPM of 12 by 7 points begins with.
const HEAD: &[u8] = b"P6\n12 7\n255\n";

/// A short text as a picture, by a verdict of its own.
fn drawn(
    rt: &impl Abort,
    alloc: Global,
    sign: &Sign,
    text: &[u8],
    view: View,
    side: u8,
) -> Result<Vec<u8>, DrawFault>
    requires side { side ≤ 16 }
    requires seconds { AllowsSeconds view }
    requires points { HasPoints side view }
{
    assert!(rt; text.len() <= 100);
    let Ok(mut checked) = check(sign, Source::new(text)) else {
        panic!(rt; "the string is accepted");
    };
    draw_message(alloc, sign, &mut checked, text, view, side)
}

#[test]
fn a_moment_is_drawn_in_ppm(rt: HostRuntime) {
    let alloc = rt.alloc();
    let parts = sample_sign(alloc).expect(&rt, "the parts");
    let sign = Sign::new(alloc, parts).expect(&rt, "a sign");
    // The moment, and the shares of the points of row 2, column 5, and of row 3, column 4: an `I` has only the first, an `A` both, and an
    // off time none.
    let rows = [
        (Moment::Page { page: 0, phase: 0 }, LIT, DARK),
        (Moment::Page { page: 1, phase: 0 }, LIT, LIT),
        (Moment::Clock { clock: 9 }, LIT, DARK),
        (Moment::Clock { clock: 10 }, DARK, DARK),
        (Moment::Clock { clock: 14 }, DARK, DARK),
        (Moment::Clock { clock: 15 }, LIT, LIT),
    ];
    for (moment, first, second) in rows {
        let view = View::Ppm { moment };
        let file = drawn(&rt, alloc, &sign, MESSAGE, view, 1).expect(&rt, "a file");
        so(&rt, file.len() == 12 + 3 * 84, "the length of the file");
        so(
            &rt,
            file.get(..12).expect(&rt, "a head") == HEAD,
            "its head",
        );
        so(
            &rt,
            file.get(99..102).expect(&rt, "a point") == first.as_slice(),
            "row 2",
        );
        so(
            &rt,
            file.get(132..135).expect(&rt, "a point") == second.as_slice(),
            "row 3",
        );
    }
    let view = View::Ppm {
        moment: Moment::Page { page: 2, phase: 0 },
    };
    let missing = drawn(&rt, alloc, &sign, MESSAGE, view, 1);
    so(
        &rt,
        missing == Err(DrawFault::NoPage { pages: 2 }),
        "no third page",
    );
}

#[test]
fn a_moment_and_a_film_are_drawn_in_gif(rt: HostRuntime) {
    let alloc = rt.alloc();
    let parts = sample_sign(alloc).expect(&rt, "the parts");
    let sign = Sign::new(alloc, parts).expect(&rt, "a sign");
    let views = [
        View::Gif {
            moment: Moment::Clock { clock: 10 },
        },
        View::Film { seconds: None },
        View::Film { seconds: Some(1) },
    ];
    for view in views {
        let file = drawn(&rt, alloc, &sign, MESSAGE, view, 4).expect(&rt, "a file");
        let head = file.get(..10).expect(&rt, "a head");
        // 48 by 28 points
        so(
            &rt,
            head == b"GIF89a\x30\x00\x1c\x00".as_slice(),
            "its head",
        );
    }
    let message = b"[flt1o250][flt1o240][flt1o238][flt1o232]I";
    let view = View::Film { seconds: None };
    let long = drawn(&rt, alloc, &sign, message, view, 1);
    let want = DrawFault::TooLong {
        tenths: 3_368_562_317,
    };
    so(&rt, long == Err(want), "more than ten minutes");
}

#[test]
fn a_moment_is_drawn_in_png(rt: HostRuntime) {
    let alloc = rt.alloc();
    let parts = sample_sign(alloc).expect(&rt, "the parts");
    let sign = Sign::new(alloc, parts).expect(&rt, "a sign");
    let view = View::Png {
        moment: Moment::Page { page: 0, phase: 0 },
    };
    let file = drawn(&rt, alloc, &sign, MESSAGE, view, 1).expect(&rt, "a file");
    // 7 rows of 12 points, and an octet before each
    so(&rt, file.len() == 135 + 17 + 91, "the length of the file");
    so(
        &rt,
        file.starts_with(b"\x89PNG\r\n\x1a\n\x00\x00\x00\x0dIHDR\x00\x00\x00\x0c\x00\x00\x00\x07"),
        "its head",
    );
    // An `I` has the point of row 2, column 5, and not that of row 3, column 4; the palette has their shares.
    for (place, shares) in [(152, LIT), (164, DARK)] {
        let point = usize::from(*file.get(place).expect(&rt, "a point"));
        let colour = file
            .get(41 + 3 * point..44 + 3 * point)
            .expect(&rt, "a colour");
        so(&rt, colour == shares.as_slice(), "its colour");
    }
}
