//! `signctl explain`, which says of each message why it is refused, or draws its pages.

use crate::annotations::annotations_of;
use crate::beginning::Beginning;
use crate::ends::{DONE, FAULTED, UNREAD, say_of_file, say_tool};
use crate::front::{FileFault, Front};
use crate::sarif::{log_of, push_results};
use command_line::{ExplainRequest, ManyMessages, ReportFormat};
use message_report::{CODES, Format, Telling, USUAL_WARNINGS};
use sign_aids::{Counts, run_explain};
use std::alloc::Global;
use std::fs;
use std::io::{self, BufReader, Read, Write};
use std::rt::Files;
use tool_streams::{ToolFault, write_whole};

/// How messages are told of.
fn telling_of(asked: &ExplainRequest<'_>) -> Telling {
    Telling {
        format: match asked.format {
            ReportFormat::Text => Format::Text,
            ReportFormat::Ansi => Format::Ansi,
            ReportFormat::Lines | ReportFormat::Annotations | ReportFormat::Sarif => Format::Lines,
            ReportFormat::Json => Format::Json,
            ReportFormat::Mended => Format::Mended,
            ReportFormat::Changed => Format::Changed,
        },
        phase: u64::from(asked.phase),
        refused_only: asked.refused_only,
        pictures: asked.has_pictures,
        warnings: warnings_of(asked),
    }
}

/// Which warnings are told: those that are told where nothing is asked for, and those that are asked for, but none that is passed over.
fn warnings_of(asked: &ExplainRequest<'_>) -> [bool; CODES] {
    let mut told = USUAL_WARNINGS;
    for place in 0..CODES {
        told[place] = (told[place] || asked.selected[place]) && !asked.ignored[place];
    }
    told
}

/// Says how many messages there were.
fn say_counts<E: Write>(counts: Counts, is_mended: bool, errors: &mut E) {
    let Counts {
        messages,
        refused,
        warnings,
        mended,
    } = counts;
    if is_mended {
        let left = refused.saturating_sub(mended);
        let _ = writeln!(
            errors,
            "signctl: messages: {messages}, mended: {mended}, refused: {left}"
        );
        return;
    }
    let _ = writeln!(
        errors,
        "signctl: messages: {messages}, refused: {refused}, warnings: {warnings}"
    );
}

/// What was told of the messages of some files (own).
#[derive(Drop)]
struct Sum {
    counts: Counts,
    /// The results that are written as a log in SARIF, if one is asked for.
    results: Vec<u8>,
    /// Whether all of them were read, and what is told of them was written.
    is_whole: bool,
}

impl Sum {
    /// That of no file.
    fn new(alloc: Global) -> Sum {
        Sum {
            results: Vec::new(alloc),
            counts: Counts {
                messages: 0,
                refused: 0,
                warnings: 0,
                mended: 0,
            },
            is_whole: true,
        }
    }

    /// With what was told of one more file.
    fn add(&mut self, more: Counts) {
        let sum = &mut self.counts;
        sum.messages = sum.messages.saturating_add(more.messages);
        sum.refused = sum.refused.saturating_add(more.refused);
        sum.warnings = sum.warnings.saturating_add(more.warnings);
        sum.mended = sum.mended.saturating_add(more.mended);
    }
}

/// The exit status of a run that explains messages, with what is said of it.
fn end_of_explain<E: Write>(sum: &Sum, asked: &ExplainRequest<'_>, errors: &mut E) -> u8 {
    let counts = sum.counts;
    if !sum.is_whole {
        return UNREAD;
    }
    let is_mended = matches!(asked.format, ReportFormat::Mended | ReportFormat::Changed);
    if !asked.is_quiet {
        say_counts(counts, is_mended, errors);
    }
    let is_refused = if is_mended {
        counts.refused > counts.mended
    } else {
        counts.refused > 0
    };
    if is_refused || (asked.is_strict && counts.warnings > 0) {
        FAULTED
    } else {
        DONE
    }
}

/// Explains the messages of a text, or writes them mended. Its first octets are read.
fn explain_to<R: Read, W: Write, E: Write>(
    alloc: Global,
    asked: &ExplainRequest<'_>,
    name: &str,
    front: &Front<'_>,
    first: &[u8],
    reader: &mut R,
    writer: &mut W,
    errors: &mut E,
) -> Result<Counts, ToolFault> {
    let mut input = front.octets.as_slice().chain(first).chain(reader);
    let (sample, telling) = (asked.sign.is_sample(), telling_of(asked));
    let (name, before) = (name.as_bytes(), front.lines());
    if asked.is_quiet {
        let mut unsaid = io::sink();
        return run_explain(
            alloc,
            sample,
            telling,
            name,
            before,
            &mut input,
            writer,
            &mut unsaid,
        );
    }
    run_explain(
        alloc, sample, telling, name, before, &mut input, writer, errors,
    )
}

/// The same, and writes annotations in place of lines, or keeps their results, if these are asked for.
fn explain_text<R: Read, W: Write, E: Write>(
    alloc: Global,
    asked: &ExplainRequest<'_>,
    name: &str,
    front: &Front<'_>,
    first: &[u8],
    sum: &mut Sum,
    reader: &mut R,
    writer: &mut W,
    errors: &mut E,
) -> Result<(), ToolFault> {
    let is_log = matches!(asked.format, ReportFormat::Sarif);
    if !is_log && !matches!(asked.format, ReportFormat::Annotations) {
        sum.add(explain_to(alloc, asked, name, front, first, reader, writer, errors)?);
        return Ok(());
    }
    let mut lines = Vec::new(alloc);
    let end = explain_to(alloc, asked, name, front, first, reader, &mut lines, errors);
    if is_log {
        if push_results(alloc, &mut sum.results, name, &lines).is_err() {
            return Err(ToolFault::Memory);
        }
    } else {
        let Ok(annotations) = annotations_of(alloc, name, &lines) else {
            return Err(ToolFault::Memory);
        };
        write_whole(writer, &annotations)?;
    }
    sum.add(end?);
    Ok(())
}

/// Explains the messages of an input. If it is UTF-16, that is said, and the sum isn't whole. The error is another fault.
fn explain_input<R: Read, W: Write, E: Write>(
    alloc: Global,
    asked: &ExplainRequest<'_>,
    name: &str,
    front: &Front<'_>,
    sum: &mut Sum,
    reader: &mut R,
    writer: &mut W,
    errors: &mut E,
) -> Result<(), ToolFault> {
    let beginning = Beginning::read(reader)?;
    if beginning.is_utf16() {
        say_of_file(name, &FileFault::Utf16, errors);
        sum.is_whole = false;
        return Ok(());
    }
    let first = beginning.text();
    explain_text(
        alloc, asked, name, front, first, sum, reader, writer, errors,
    )
}

/// Explains the messages of a file. If it can't be read, why is said, and the sum isn't whole. The error is another fault.
fn explain_file<P: Files, W: Write, E: Write>(
    alloc: Global,
    files: &P,
    asked: &ExplainRequest<'_>,
    name: &str,
    front: &Front<'_>,
    sum: &mut Sum,
    writer: &mut W,
    errors: &mut E,
) -> Result<(), ToolFault> {
    let file = match fs::open(files, name) {
        Ok(file) => file,
        Err(refusal) => {
            say_of_file(name, &FileFault::Unopened(refusal), errors);
            sum.is_whole = false;
            return Ok(());
        }
    };
    let Ok(mut file) = BufReader::new(alloc, file) else {
        say_of_file(name, &ToolFault::Memory, errors);
        sum.is_whole = false;
        return Ok(());
    };
    explain_input(alloc, asked, name, front, sum, &mut file, writer, errors)
}

/// Writes the name of a file before what people are told of its messages, if there are several.
fn write_name<W: Write>(
    asked: &ExplainRequest<'_>,
    name: &str,
    writer: &mut W,
) -> Result<(), ToolFault> {
    let is_for_people = matches!(asked.format, ReportFormat::Text | ReportFormat::Ansi);
    if !is_for_people || !asked.messages.has_several() {
        return Ok(());
    }
    write_whole(writer, b"==> ")?;
    write_whole(writer, name.as_bytes())?;
    write_whole(writer, b" <==\n")
}

/// Explains the messages of a file, or of the input.
fn explain_named<P: Files, R: Read, W: Write, E: Write>(
    alloc: Global,
    files: &P,
    asked: &ExplainRequest<'_>,
    name: &str,
    front: &Front<'_>,
    sum: &mut Sum,
    reader: &mut R,
    writer: &mut W,
    errors: &mut E,
) -> Result<(), ToolFault> {
    write_name(asked, name, writer)?;
    if name != "-" {
        return explain_file(alloc, files, asked, name, front, sum, writer, errors);
    }
    explain_input(alloc, asked, name, front, sum, reader, writer, errors)
}

/// Explains the messages of all files, or those of the command line.
fn explain_all<P: Files, R: Read, W: Write, E: Write>(
    alloc: Global,
    files: &P,
    asked: &ExplainRequest<'_>,
    front: &Front<'_>,
    sum: &mut Sum,
    reader: &mut R,
    writer: &mut W,
    errors: &mut E,
) -> Result<(), ToolFault> {
    let names = match &asked.messages {
        ManyMessages::Files(names) => names,
        ManyMessages::Given(lines) => {
            let mut given = lines.as_slice();
            return explain_text(
                alloc, asked, "-", front, b"", sum, &mut given, writer, errors,
            );
        }
    };
    for name in names.iter() {
        explain_named(
            alloc, files, asked, *name, front, sum, reader, writer, errors,
        )?;
    }
    Ok(())
}

/// Writes what was told as a log in SARIF.
fn write_log<W: Write>(alloc: Global, sum: &Sum, writer: &mut W) -> Result<(), ToolFault> {
    let Ok(log) = log_of(alloc, &sum.results) else {
        return Err(ToolFault::Memory);
    };
    write_whole(writer, &log)
}

/// Explains the messages, and says how many there were. A file that can't be opened is passed over, and any other fault ends the run. The
/// answer is the exit status.
pub(crate) fn answer_explain<P: Files, R: Read, W: Write, E: Write>(
    alloc: Global,
    files: &P,
    asked: &ExplainRequest<'_>,
    front: &Front<'_>,
    reader: &mut R,
    writer: &mut W,
    errors: &mut E,
) -> u8 {
    let mut sum = Sum::new(alloc);
    let mut end = explain_all(alloc, files, asked, front, &mut sum, reader, writer, errors);
    if end.is_ok() && matches!(asked.format, ReportFormat::Sarif) {
        end = write_log(alloc, &sum, writer);
    }
    match end {
        Ok(()) => end_of_explain(&sum, asked, errors),
        Err(fault) => {
            say_tool(front, fault, errors);
            UNREAD
        }
    }
}
