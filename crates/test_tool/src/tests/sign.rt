//! Sign files, and what is told of them.

use super::{FailingReader, NarrowWriter};
use file_aids::{SignFound, run_sign};
use sign_words::SignView;
use tool_streams::ToolFault;

const FAULTY: &str = "width = 12\nheight = 129\n";

const FAULTS: &str = "line 2: height: 129; it should be a whole number from 1 to 128
line 1: scheme: missing; it should be \"monochrome\" or \"classic\"
line 1: max_pages: missing; it should be a whole number from 1 to 255
line 1: slots: missing; it should be a whole number from 1 to 1000
line 1: bytes: missing; it should be a whole number from 0 to 1000000
line 1: max_string: missing; it should be a whole number from 1 to 4096
line 1: defaults: missing; it should be a table, under [defaults]
line 1: font: there must be 1 to 16 fonts, each under [[font]]
";

/// A sign of one pixel.
pub(super) const SOUND: &str = "width = 1
height = 1
scheme = 'monochrome'
max_pages = 1
slots = 1
bytes = 0
max_string = 1
defaults = { font = 1, line = 3, page = 3, page_on = 0, page_off = 0, flash_on = 0, flash_off = 0, fore = 1, back = 0 }
font = [{ number = 1, height = 1, char_spacing = 0, line_spacing = 0, cell = [{ number = 73, width = 1, bits = '80' }] }]
";

#[test]
fn a_sign_file_ends_where_its_streams_fail(rt: HostRuntime) {
    let alloc = rt.alloc();
    for room in 0..FAULTS.len() + 1 {
        let mut writer = NarrowWriter {
            taken: Vec::new(alloc),
            room,
            fails: room % 2 == 1,
        };
        let end = run_sign(
            alloc,
            SignView::Description,
            &mut FAULTY.as_bytes(),
            &mut writer,
        );
        let want = if room == FAULTS.len() {
            Ok(SignFound {
                is_sound: false,
                is_clean: true,
            })
        } else {
            Err(ToolFault::Write)
        };
        let front = writer.taken.as_slice() == &FAULTS.as_bytes()[..room];
        assert!(rt; end == want && front, "room for {room}");
    }
    for read in 0..FAULTY.len() + 1 {
        let mut reader = FailingReader(&FAULTY.as_bytes()[..read]);
        let mut output = Vec::new(alloc);
        let end = run_sign(alloc, SignView::Description, &mut reader, &mut output);
        assert!(rt;
            end == Err(ToolFault::Read) && output.is_empty(),
            "a failure after {read}"
        );
    }
}
