mod explain;
mod font;
mod picture;
mod serve;
mod sign;
mod streams;

use sign_tool::{Mode, run_tool};
use std::io;
use std::io::{ErrorKind, Read, Write};
use std::process::Abort;
use std::test::Fail;
use tool_streams::ToolFault;

/// Asserts that something is so, and else tells what. It is proved once, where `assert!` is proved at each of its places.
fn so(rt: &impl Abort, is_so: bool, what: &str) {
    assert!(rt; is_so, "{what}");
}

/// The sample sign as its file, of 40 lines.
const SAMPLE: &str = r#"width = 12
height = 7
scheme = "monochrome"
max_pages = 2
slots = 1
bytes = 4
max_string = 64

[defaults]
font = 1
line = 3
page = 3
page_on = 30
page_off = 0
flash_on = 5
flash_off = 5
fore = 1
back = 0

[[font]]
number = 1
version = 6699
height = 3
char_spacing = 1
line_spacing = 1
cell = [
  { number = 32, width = 2, bits = "00" },
  { number = 65, width = 3, bits = "5e80" },
  { number = 73, width = 1, bits = "e0" },
  { number = 91, width = 2, bits = "ec" },
  { number = 93, width = 2, bits = "dc" },
]

[[font]]
number = 2
height = 5
char_spacing = 2
line_spacing = 2
cell = [ { number = 65, width = 4, bits = "69f990" } ]

[[permanent]]
multi = "AAAI"
priority = 5
"#;

/// A reader that gives one octet at a time, and fails where it has no more.
#[derive(Drop)]
struct FailingReader<'a>(&'a [u8]);

impl Read for FailingReader<'_> {
    fn read(&mut self, buf: &mut [u8]) -> io::Result<usize> {
        let Some((first, rest)) = self.0.split_first() else {
            return Err(ErrorKind::Interrupted.into());
        };
        if buf.is_empty() {
            return Ok(0);
        }
        buf[0] = *first;
        self.0 = rest;
        Ok(1)
    }
}

/// A reader that makes lines of so many letters until it has given so many octets, and counts its reads.
#[derive(Drop)]
struct LineMaker {
    letters: u64,
    column: u64,
    octets: u64,
    reads: u64,
}

impl LineMaker {
    fn new(letters: u64, octets: u64) -> LineMaker {
        LineMaker {
            letters,
            column: 0,
            octets,
            reads: 0,
        }
    }
}

impl Read for LineMaker {
    fn read(&mut self, buf: &mut [u8]) -> io::Result<usize> {
        self.reads = self.reads.saturating_add(1);
        if self.octets == 0 || buf.is_empty() {
            return Ok(0);
        }
        self.octets -= 1;
        if self.column == self.letters {
            self.column = 0;
            buf[0] = b'\n';
        } else {
            self.column = self.column.saturating_add(1);
            buf[0] = b'A';
        }
        Ok(1)
    }
}

/// A writer that takes one octet at a time, and fails or takes none where it has no more room.
#[derive(Drop)]
struct NarrowWriter {
    taken: Vec<u8>,
    room: usize,
    fails: bool,
}

impl Write for NarrowWriter {
    fn write(&mut self, buf: &[u8]) -> io::Result<usize> {
        if self.room == 0 {
            if self.fails {
                return Err(ErrorKind::BrokenPipe.into());
            }
            return Ok(0);
        }
        if buf.is_empty() {
            return Ok(0);
        }
        self.taken.push(buf[0])?;
        self.room -= 1;
        Ok(1)
    }

    fn flush(&mut self) -> io::Result<()> {
        Ok(())
    }
}

/// A reader that gives as many octets as it is asked for, and counts its reads.
#[derive(Drop)]
struct WideReader<'a> {
    octets: &'a [u8],
    reads: usize,
}

impl Read for WideReader<'_> {
    fn read(&mut self, buf: &mut [u8]) -> io::Result<usize> {
        self.reads = self.reads.saturating_add(1);
        self.octets.read(buf)
    }
}

/// A writer that counts its writes and their octets.
#[derive(Drop)]
struct WriteCounter {
    octets: usize,
    writes: usize,
}

impl Write for WriteCounter {
    fn write(&mut self, buf: &[u8]) -> io::Result<usize> {
        self.octets = self.octets.saturating_add(buf.len());
        self.writes = self.writes.saturating_add(1);
        Ok(buf.len())
    }

    fn flush(&mut self) -> io::Result<()> {
        Ok(())
    }
}

#[test]
fn an_input_has_a_greatest_length(rt: HostRuntime) {
    let alloc = rt.alloc();
    // Letters in a line, octets, lines that are answered, and the end.
    let rows: [(u64, u64, usize, Result<(), ToolFault>); 2] = [
        (8_191, 16_777_216, 2_048, Ok(())),
        (u64::MAX, u64::MAX, 0, Err(ToolFault::InputTooLong)),
    ];
    for (letters, octets, lines, end) in rows {
        let mut reader = LineMaker::new(letters, octets);
        let mut output = Vec::new(alloc);
        let result = run_tool(alloc, Mode::Check, true, &mut reader, &mut output);
        assert!(rt;
            result == end,
            "the end at {octets} octets in lines of {letters}"
        );
        assert!(rt;
            output.len() / 9 == lines,
            "the answers at {octets} octets in lines of {letters}"
        );
        assert!(rt;
            reader.reads == 16_777_217,
            "the reads at {octets} octets in lines of {letters}"
        );
    }
}

#[test]
fn a_script_of_empty_lines_has_a_greatest_length(rt: HostRuntime) {
    let alloc = rt.alloc();
    let mut reader = LineMaker::new(0, u64::MAX);
    let mut output = Vec::new(alloc);
    let result = run_tool(alloc, Mode::Run, true, &mut reader, &mut output);
    assert!(rt; result == Err(ToolFault::InputTooLong), "the end");
    assert!(rt; output.is_empty(), "what is written");
    assert!(rt; reader.reads == 16_777_217, "the reads");
}

#[test]
fn a_failed_write_ends_the_run(rt: HostRuntime) {
    let alloc = rt.alloc();
    let want = b"ok 1\nok 1\n";
    for fails in [false, true] {
        for room in 0..want.len() + 1 {
            let mut reader = FailingReader(b"A\nI\n");
            let mut writer = NarrowWriter {
                taken: Vec::new(alloc),
                room,
                fails,
            };
            let result = run_tool(alloc, Mode::Check, true, &mut reader, &mut writer);
            let end = if room < want.len() {
                ToolFault::Write
            } else {
                ToolFault::Read
            };
            assert!(rt; result == Err(end), "the end after {room}");
            assert!(rt;
                writer.taken.as_slice() == &want[..room],
                "what is written after {room}"
            );
            // Nothing of the second line is read before the first is answered.
            let left = if room < 5 { 2 } else { 0 };
            assert!(rt; reader.0.len() == left, "what isn't read after {room}");
        }
    }
}

#[test]
fn the_answers_to_a_block_are_written_together(rt: HostRuntime) -> Result<(), Fail> {
    let alloc = rt.alloc();
    // The line, how many lines, the reads, the writes, and the octets that are written.
    let rows: [(&[u8], usize, usize, usize, usize); 5] = [
        (b"", 0, 1, 0, 0),
        (b"A\n", 1, 2, 1, 5),
        (b"A\r\n", 1_000, 2, 1, 5_000),
        (b"\n", 16_384, 2, 1, 81_920),
        (b"\n", 163_840, 11, 10, 819_200),
    ];
    for (line, lines, reads, writes, written) in rows {
        let mut input = Vec::new(alloc);
        for _ in 0..lines {
            input.extend_from_slice(line)?;
        }
        let mut reader = WideReader {
            octets: &input,
            reads: 0,
        };
        let mut writer = WriteCounter {
            octets: 0,
            writes: 0,
        };
        let result = run_tool(alloc, Mode::Check, true, &mut reader, &mut writer);
        assert!(rt; result == Ok(()), "the end at {lines} of {line:?}");
        assert!(rt; reader.reads == reads, "the reads at {lines} of {line:?}");
        assert!(rt;
            writer.writes == writes,
            "the writes at {lines} of {line:?}"
        );
        assert!(rt;
            writer.octets == written,
            "what is written at {lines} of {line:?}"
        );
    }
    Ok(())
}
