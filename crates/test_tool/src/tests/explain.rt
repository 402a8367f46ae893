//! Messages that are explained.

use super::{FailingReader, NarrowWriter};
use crate::tests::so;
use message_report::{Format, Telling, USUAL_WARNINGS};
use sign_aids::{Counts, run_explain};
use std::alloc::Global;
use std::io::{Read, Write};
use tool_streams::ToolFault;

/// Messages in words and pictures, at the beginning of their pages.
const TELLING: Telling = Telling {
    format: Format::Text,
    phase: 0,
    refused_only: false,
    pictures: false,
    warnings: USUAL_WARNINGS,
};

/// One of two messages is refused.
const COUNTS: Counts = Counts {
    messages: 2,
    refused: 1,
    warnings: 0,
    mended: 0,
};

const MESSAGES: &str = "AI\nAB\n";

const EXPLAINED: &str = "line 1: accepted: 1 page
AI
page 1 of 1, shown all the time:
............
............
....1..1....
...111.1....
...1.1.1....
............
............
pixels: 1 lit, . dark

line 2: refused: characterNotDefined (7) at octet 1
AB
 ^
font 1 has no character 66 'B'; it has A I [ ] space
no proposal: the sign takes none of the texts that were tried

";

/// Explains messages on the sample sign.
fn explained<R: Read, W: Write>(
    alloc: Global,
    reader: &mut R,
    writer: &mut W,
) -> Result<Counts, ToolFault> {
    let mut errors: Vec<u8> = Vec::new(alloc);
    run_explain(alloc, true, TELLING, b"-", 0, reader, writer, &mut errors)
}

#[test]
fn explanations_end_where_their_streams_fail(rt: HostRuntime) {
    let alloc = rt.alloc();
    for room in (0..EXPLAINED.len()).step_by(29) {
        let mut writer = NarrowWriter {
            taken: Vec::new(alloc),
            room,
            fails: room % 2 == 1,
        };
        let end = explained(alloc, &mut MESSAGES.as_bytes(), &mut writer);
        let front = writer.taken.as_slice() == &EXPLAINED.as_bytes()[..room];
        assert!(rt; end == Err(ToolFault::Write) && front, "room for {room}");
    }
    let mut output = Vec::new(alloc);
    let end = explained(alloc, &mut MESSAGES.as_bytes(), &mut output);
    so(
        &rt,
        end == Ok(COUNTS) && output.as_slice() == EXPLAINED.as_bytes(),
        "the whole explanation",
    );
    let first = EXPLAINED.find("line 2").unwrap_or(0);
    for read in 0..MESSAGES.len() + 1 {
        let mut reader = FailingReader(&MESSAGES.as_bytes()[..read]);
        let mut output = Vec::new(alloc);
        let end = explained(alloc, &mut reader, &mut output);
        let whole = match read {
            0..=2 => "",
            3..=5 => &EXPLAINED[..first],
            _ => EXPLAINED,
        };
        assert!(rt;
            end == Err(ToolFault::Read) && output.as_slice() == whole.as_bytes(),
            "a failure after {read}"
        );
    }
}

#[test]
fn a_last_line_needs_no_end(rt: HostRuntime) {
    let alloc = rt.alloc();
    let mut output = Vec::new(alloc);
    let mut messages = "AI\nAB".as_bytes();
    let end = explained(alloc, &mut messages, &mut output);
    so(
        &rt,
        end == Ok(COUNTS) && output.as_slice() == EXPLAINED.as_bytes(),
        "the last message",
    );
    let mut output = Vec::new(alloc);
    let mut long = [b'A'; 8_301].as_slice();
    let end = explained(alloc, &mut long, &mut output);
    so(
        &rt,
        end == Err(ToolFault::LineTooLong { line: 1 }) && output.is_empty(),
        "a last line with too many octets",
    );
}
