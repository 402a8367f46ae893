//! Messages that are written as pictures.

use super::sign::SOUND;
use super::{FailingReader, NarrowWriter};
use message_picture::{Moment, View};
use sign_aids::{PictureFault, draw_picture, run_picture};
use std::alloc::{AllocError, Global};
use std::test::Fail;
use tool_streams::ToolFault;

/// Red, green and blue of what is between the dots, and of a dot that is lit.
const GROUND: &[u8] = &[12, 12, 12];

const LIT: &[u8] = &[255, 176, 0];

/// A sign file of a sign of one pixel, and a message that lights it.
fn small_input(alloc: Global) -> Result<Vec<u8>, AllocError> {
    let mut input = SOUND.as_bytes().to_vec(alloc)?;
    input.extend_from_slice(b"%%\nI\n")?;
    Ok(input)
}

/// Its picture.
fn small_picture(alloc: Global) -> Result<Vec<u8>, AllocError> {
    let rows = [
        "........", "..####..", ".######.", ".######.", ".######.", ".######.", "..####..",
        "........",
    ];
    let mut picture = b"P6\n8 8\n255\n".to_vec(alloc)?;
    for row in rows {
        for point in row.as_bytes() {
            picture.extend_from_slice(if *point == b'#' { LIT } else { GROUND })?;
        }
    }
    Ok(picture)
}

/// The first page as it begins.
const START: Moment = Moment::Page { page: 0, phase: 0 };

/// What is drawn in 8 by 8 points for each pixel.
const VIEWS: [View; 4] = [
    View::Ppm { moment: START },
    View::Gif { moment: START },
    View::Png { moment: START },
    View::Film { seconds: None },
];

#[test]
fn a_picture_has_its_dots(rt: HostRuntime) -> Result<(), Fail> {
    let alloc = rt.alloc();
    let input = small_input(alloc)?;
    let picture = small_picture(alloc)?;
    let [ppm, _, _, _] = VIEWS;
    let drawn = draw_picture(alloc, false, ppm, 8, None, &mut input.as_slice()).expect(
        &rt,
        "a picture",
    );
    assert!(rt; drawn.as_slice() == picture.as_slice());
    Ok(())
}

#[test]
fn a_picture_ends_where_its_streams_fail(rt: HostRuntime) -> Result<(), Fail> {
    let alloc = rt.alloc();
    let input = small_input(alloc)?;
    for view in VIEWS {
        let picture = draw_picture(alloc, false, view, 8, None, &mut input.as_slice()).expect(
            &rt,
            "a picture",
        );
        for room in 0..picture.len() + 1 {
            let mut writer = NarrowWriter {
                taken: Vec::new(alloc),
                room,
                fails: room % 2 == 1,
            };
            let result = run_picture(
                alloc,
                false,
                view,
                8,
                None,
                &mut input.as_slice(),
                &mut writer,
            );
            let want = if room == picture.len() {
                Ok(())
            } else {
                Err(PictureFault::Tool(ToolFault::Write))
            };
            let front = writer.taken.as_slice() == &picture[..room];
            assert!(rt; result == want && front, "room for {room}");
        }
        for read in 0..input.len() + 1 {
            let mut reader = FailingReader(&input[..read]);
            let mut output = Vec::new(alloc);
            let result = run_picture(alloc, false, view, 8, None, &mut reader, &mut output);
            let end = result == Err(PictureFault::Tool(ToolFault::Read));
            assert!(rt; end && output.is_empty(), "a failure after {read}");
        }
    }
    Ok(())
}
