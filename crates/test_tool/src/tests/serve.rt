//! A served sign over streams that fail, or give and take one octet at a time.

use super::{FailingReader, NarrowWriter, so};
use sign_tool::{begin, serve};
use std::alloc::Global;
use std::io::{Read, Write};
use tool_streams::ToolFault;

/// A line of each kind, and a last one without its end.
const LINES: &[u8] = b"\n# a comment\nnone\nclear\ncrc A\nverdict AAAA\nnext\ncode 3 1 1 2\nwork";

const REPLIES: &[u8] =
    b"ok\nok\nbad line\ndone\ncrc 9a66\nerror 5 3\nnext never\ncode 0001020300010f4700000000\nidle\n";

/// How the sample sign ends on these streams.
fn end<R: Read, W: Write>(alloc: Global, reader: &mut R, writer: &mut W) -> Result<(), ToolFault> {
    let start = begin(alloc, true, reader)?;
    serve(alloc, start.setup, reader, writer)
}

/// How many octets are written for the first lines of the input, if this many octets of it are read.
fn written_for(octets: usize) -> usize {
    let mut lines = LINES
        .iter()
        .take(octets)
        .filter(|octet| **octet == b'\n')
        .count();
    let mut written = 0usize;
    for octet in REPLIES {
        if lines == 0 {
            return written;
        }
        if *octet == b'\n' {
            lines -= 1;
        }
        written = written.saturating_add(1);
    }
    written
}

#[test]
fn a_failed_read_ends_a_served_sign_after_its_whole_lines(rt: HostRuntime) {
    for octets in 0..LINES.len() + 1 {
        let mut output = Vec::new(rt.alloc());
        let mut reader = FailingReader(&LINES[..octets]);
        let end = end(rt.alloc(), &mut reader, &mut output);
        so(&rt, end == Err(ToolFault::Read), "it ends with the read");
        let is_so = output.len() == written_for(octets) && REPLIES.starts_with(&output);
        so(&rt, is_so, "the whole lines are answered");
    }
}

#[test]
fn a_failed_write_ends_a_served_sign_after_a_front_of_its_replies(rt: HostRuntime) {
    for room in 0..REPLIES.len() + 1 {
        let mut reader = LINES;
        let mut writer = NarrowWriter {
            taken: Vec::new(rt.alloc()),
            room,
            fails: true,
        };
        let end = end(rt.alloc(), &mut reader, &mut writer);
        so(
            &rt,
            end.is_ok() == (room == REPLIES.len()),
            "it ends with the write",
        );
        so(
            &rt,
            writer.taken.as_slice() == &REPLIES[..room],
            "a front is written",
        );
    }
}
