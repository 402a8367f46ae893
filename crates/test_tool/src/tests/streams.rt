//! Runs of each mode, by the sample sign and by its file, whose streams fail and whose memory is refused.

use super::{FailingReader, NarrowWriter, SAMPLE};
use sign_tool::{Mode, run_script, run_tool};
use std::alloc::{AllocError, Global};
use std::io;
use std::io::{ErrorKind, Read, Write};
use std::process::Abort;
use std::test::Fail;
use tool_streams::ToolFault;

/// A run without a fault.
#[derive(Clone, Copy)]
struct Run {
    name: &'static str,
    /// None where it is a run of `run_script`.
    mode: Option<Mode>,
    /// The sign file, or nothing for the sample sign.
    file: &'static str,
    lines: &'static [u8],
    output: &'static [u8],
    /// How many lines of the output answer a line. The last line is answered by all that is left.
    rows: usize,
}

const STRINGS: &[u8] = b"A\nI\n";

const VERDICTS: &[u8] = b"ok 1\nok 1\n";

const FRAMES: &[u8] = b"\
page 0 phase 0
............
............
.....#......
....###.....
....#.#.....
............
............
page 0 phase 0
............
............
.....#......
.....#......
.....#......
............
............
";

const SCRIPT: &[u8] = b"\
request 3 1 6
multix 3 1 41
request 3 1 7
work
activate ffff800300019a6600000000
row 3 1
report
defaults
frame 1
";

const REPLIES: &[u8] = b"\
done
done
done
worked 1 4 2 2 0
shown
row 3 1 4 1 0 0 9a66 - 41
report used=1 free=3 mode=8 shown=3/1 crc=9a66 priority=1 remaining=65535 requester=00000000 \
activate=2 validate=2 multi=2 position=0 clock=0
defaults 1 3 3 30 0 5 5 1 0
page 0 phase 0
............
............
.....#......
....###.....
....#.#.....
............
............
";

/// A message that is stored, shown for a minute, and ended 5 tenths of a second before the script's last tick.
const MINUTE_SCRIPT: &[u8] = b"\
request 3 1 6
multi 3 1 A
priority 3 1 200
request 3 1 7
work
work
activate 000180030001669a7f000001
tick 599
tick 6
report
activate 0000800300019a667f000001
tick 0
";

/// The replies to it.
const MINUTE_REPLIES: &[u8] = b"\
done
done
done
done
worked 1 4 2 2 0
idle
shown
ticked
ended
report used=1 free=3 mode=14 shown=7/1 crc=0000 priority=1 remaining=65535 requester=7f000001 \
activate=2 validate=2 multi=2 position=0 clock=5
shown
ended
";

const CHECK: Run = Run {
    name: "check --sample",
    mode: Some(Mode::Check),
    file: "",
    lines: STRINGS,
    output: VERDICTS,
    rows: 1,
};

const SHOW: Run = Run {
    name: "show --sample",
    mode: Some(Mode::Show {
        colour: 1,
        clock: 0,
    }),
    output: FRAMES,
    rows: 8,
    ..CHECK
};

const RUN: Run = Run {
    name: "run --sample",
    mode: Some(Mode::Run),
    lines: SCRIPT,
    output: REPLIES,
    ..CHECK
};

const MINUTE: Run = Run {
    name: "run --sample, a minute",
    lines: MINUTE_SCRIPT,
    output: MINUTE_REPLIES,
    ..RUN
};

/// Each mode and `run_script`, with the sample sign and with its file, and a message that is shown for a minute.
fn runs() -> [Run; 10] {
    let script = Run {
        name: "run_script --sample",
        mode: None,
        ..RUN
    };
    let minute_script = Run {
        name: "run_script --sample, a minute",
        mode: None,
        ..MINUTE
    };
    [
        CHECK,
        SHOW,
        RUN,
        script,
        MINUTE,
        minute_script,
        filed(CHECK, "check"),
        filed(SHOW, "show"),
        filed(RUN, "run"),
        filed(script, "run_script"),
    ]
}

/// The run with the file of the sample sign.
fn filed(run: Run, name: &'static str) -> Run {
    Run {
        name,
        file: SAMPLE,
        ..run
    }
}

impl Run {
    /// The lines, after the sign file and the mark if there is a file.
    fn input(&self, alloc: Global) -> Result<Vec<u8>, AllocError> {
        let mut input = self.file.as_bytes().to_vec(alloc)?;
        if !self.file.is_empty() {
            input.extend_from_slice(b"%%\n")?;
        }
        input.extend_from_slice(self.lines)?;
        Ok(input)
    }

    /// How the run ends on these streams.
    fn end<R: Read, W: Write>(
        &self,
        alloc: Global,
        reader: &mut R,
        writer: &mut W,
    ) -> Result<(), ToolFault> {
        let sample = self.file.is_empty();
        match self.mode {
            Some(mode) => run_tool(alloc, mode, sample, reader, writer),
            None => run_script(alloc, sample, reader, writer),
        }
    }

    /// How many octets are written if this many octets are missing at the end of the input.
    fn written_without(&self, missing: usize) -> usize {
        if missing == 0 {
            return self.output.len();
        }
        let given = self.lines.len().saturating_sub(missing);
        let lines = lines_in(self.lines, given);
        octets_of(self.output, lines.saturating_mul(self.rows))
    }
}

/// How many lines end in the first octets of a text.
fn lines_in(text: &[u8], octets: usize) -> usize {
    let front = text.iter().take(octets);
    front.filter(|octet| **octet == b'\n').count()
}

/// How many octets the first lines of a text have.
fn octets_of(text: &[u8], lines: usize) -> usize {
    let mut left = lines;
    let mut octets = 0usize;
    for octet in text {
        if left == 0 {
            return octets;
        }
        if *octet == b'\n' {
            left -= 1;
        }
        octets = octets.saturating_add(1);
    }
    octets
}

/// The reader fails before each octet and at the end, and what is written is the answers to the whole lines.
fn check_reads(rt: &impl Abort, alloc: Global, run: &Run) -> Result<(), Fail> {
    let input = run.input(alloc)?;
    for k in 0..input.len() + 1 {
        let mut output = Vec::new(alloc);
        let mut reader = FailingReader(&input[..k]);
        let result = run.end(alloc, &mut reader, &mut output);
        assert!(rt;
            result == Err(ToolFault::Read),
            "{}: the end after {k}",
            run.name
        );
        let written = run.written_without(input.len() - k);
        assert!(rt;
            output.len() == written && run.output.starts_with(&output),
            "{}: what is written after {k}",
            run.name
        );
    }
    Ok(())
}

#[test]
fn a_failed_read_ends_each_run_after_its_whole_lines(rt: HostRuntime) -> Result<(), Fail> {
    for run in runs() {
        check_reads(&rt, rt.alloc(), &run)?;
    }
    Ok(())
}

/// The writer takes one octet a write, and fails or takes none after each number of octets, which are what is written.
fn check_writes(rt: &impl Abort, alloc: Global, run: &Run, fails: bool) -> Result<(), Fail> {
    let input = run.input(alloc)?;
    for room in 0..run.output.len() + 1 {
        let mut reader = input.as_slice();
        let mut writer = NarrowWriter {
            taken: Vec::new(alloc),
            room,
            fails,
        };
        let result = run.end(alloc, &mut reader, &mut writer);
        let end = if room < run.output.len() {
            Err(ToolFault::Write)
        } else {
            Ok(())
        };
        assert!(rt; result == end, "{}: the end after {room}", run.name);
        assert!(rt;
            writer.taken.as_slice() == &run.output[..room],
            "{}: what is written after {room}",
            run.name
        );
    }
    Ok(())
}

#[test]
fn a_failed_write_ends_each_run_after_a_front_of_its_output(rt: HostRuntime) -> Result<(), Fail> {
    for run in runs() {
        check_writes(&rt, rt.alloc(), &run, false)?;
        check_writes(&rt, rt.alloc(), &run, true)?;
    }
    Ok(())
}

/// A writer that takes only what its text goes on with. It takes no memory.
#[derive(Drop)]
struct FrontWriter<'a>(&'a [u8]);

impl Write for FrontWriter<'_> {
    fn write(&mut self, buf: &[u8]) -> io::Result<usize> {
        let Some(rest) = self.0.strip_prefix(buf) else {
            return Err(ErrorKind::InvalidData.into());
        };
        self.0 = rest;
        Ok(buf.len())
    }

    fn flush(&mut self) -> io::Result<()> {
        Ok(())
    }
}

/// `.ci/refused-calls` refuses its memory.
#[test]
fn each_run_writes_a_front_of_its_output(rt: HostRuntime) {
    let alloc = rt.alloc();
    for run in runs() {
        let input = run.input(alloc).expect(&rt, "an input");
        let mut reader = input.as_slice();
        let mut writer = FrontWriter(run.output);
        if let Err(fault) = run.end(alloc, &mut reader, &mut writer) {
            panic!(rt; "{}: {fault:?}", run.name);
        }
        assert!(rt; writer.0.is_empty(), "{}: the whole output", run.name);
    }
}

#[test]
fn a_fault_comes_before_a_failed_read(rt: HostRuntime) -> Result<(), Fail> {
    let alloc = rt.alloc();
    let mut refused_sign = SAMPLE.replacen(alloc, "width = 12", "width = 0", 1)?;
    refused_sign.push_str("%%\n")?;
    let mut long_line = vec![in alloc; b'#'; 8_301]?;
    long_line.push(b'\n')?;
    let refused = Err(ToolFault::SignRefused { number: 1 });
    let too_long = Err(ToolFault::LineTooLong { line: 1 });
    let rows: [(bool, &[u8], Result<(), ToolFault>); 4] = [
        (false, b"width = 0\n%%\n", Err(ToolFault::BadSign)),
        (false, refused_sign.as_bytes(), refused),
        (false, &long_line, too_long),
        (true, &long_line, too_long),
    ];
    for (sample, input, end) in rows {
        let mut output = Vec::new(alloc);
        let mut reader = FailingReader(input);
        let result = run_tool(alloc, Mode::Check, sample, &mut reader, &mut output);
        assert!(rt; result == end, "the end where {end:?} comes first");
        assert!(rt; output.is_empty(), "what is written before {end:?}");
    }
    Ok(())
}

/// The run's input, or only its sign file, and then a line of so many octets, which is a comment of either.
fn long_input(
    alloc: Global,
    run: &Run,
    in_file: bool,
    octets: usize,
) -> Result<Vec<u8>, AllocError> {
    let mut input = match in_file {
        true => run.file.as_bytes().to_vec(alloc)?,
        false => run.input(alloc)?,
    };
    let line = vec![in alloc; b'#'; octets]?;
    input.extend_from_slice(&line)?;
    input.push(b'\n')?;
    Ok(input)
}

/// A run ends with the number of the line that is too long, after the answers to the lines before it, however its reader gives the octets.
fn check_long(
    rt: &impl Abort,
    alloc: Global,
    run: &Run,
    in_file: bool,
    octets: usize,
) -> Result<(), Fail> {
    let input = long_input(alloc, run, in_file, octets)?;
    let line = u32::try_from(lines_in(&input, input.len())).unwrap_or(0);
    let end = Err(ToolFault::LineTooLong { line });
    let output: &[u8] = if in_file { b"" } else { run.output };
    let mut written = Vec::new(alloc);
    let mut reader = input.as_slice();
    let result = run.end(alloc, &mut reader, &mut written);
    let is_so = result == end && written.as_slice() == output;
    assert!(rt; is_so, "{}: the end of {octets}", run.name);
    let mut written = Vec::new(alloc);
    let mut reader = FailingReader(&input);
    let result = run.end(alloc, &mut reader, &mut written);
    let is_so = result == end && written.as_slice() == output && reader.0.is_empty();
    assert!(rt; is_so, "{}: the end of {octets} one by one", run.name);
    Ok(())
}

#[test]
fn a_line_that_comes_through_several_blocks_is_too_long(rt: HostRuntime) -> Result<(), Fail> {
    for run in runs() {
        for octets in [8_301, 20_000, 100_000] {
            check_long(&rt, rt.alloc(), &run, false, octets)?;
            if !run.file.is_empty() {
                check_long(&rt, rt.alloc(), &run, true, octets)?;
            }
        }
    }
    Ok(())
}
