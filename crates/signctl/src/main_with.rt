//! The tool over streams that are handed in.

use crate::beginning::Beginning;
use crate::ends::{
    FAULTED, UNREAD, answer_words, end_of, end_of_answer, end_of_lines, end_of_picture, say_of_file,
};
use crate::explain::answer_explain;
use crate::font::answer_font;
use crate::front::{FileFault, Front};
use crate::picture::answer_picture;
use command_line::{
    Messages, Request, SignFormat, SignRequest, SignSource, Surroundings, request_of,
};
use file_aids::{SignFound, run_sign};
use sign_tool::{Mode, begin, run_tool, serve};
use sign_words::SignView;
use std::alloc::Global;
use std::fs;
use std::io::{BufReader, Read, Write};
use std::rt::Files;
use tool_streams::{ToolFault, write_whole};

/// Where the sign of a request comes from.
fn sign_of<'a>(request: &Request<'a>) -> SignSource<'a> {
    match request {
        Request::Check { sign, .. } => *sign,
        Request::Show { sign, .. } => *sign,
        Request::Run { sign } => *sign,
        Request::Serve { sign } => *sign,
        Request::Explain(asked) => asked.sign,
        Request::Picture(asked) => asked.sign,
        Request::Sign(_) | Request::Font(_) | Request::Completions(_) => SignSource::Input,
    }
}

/// Answers the lines of an input by this mode. What is said of its end is its exit status.
fn answer_lines<R: Read, W: Write, E: Write>(
    alloc: Global,
    mode: Mode,
    sign: SignSource<'_>,
    front: &Front<'_>,
    input: &mut R,
    writer: &mut W,
    errors: &mut E,
) -> u8 {
    let end = run_tool(alloc, mode, sign.is_sample(), input, writer);
    end_of_lines(end, front, errors)
}

/// Serves the sign.
fn answer_serve<R: Read, W: Write>(
    alloc: Global,
    sign: SignSource<'_>,
    reader: &mut R,
    writer: &mut W,
) -> Result<(), ToolFault> {
    let start = begin(alloc, sign.is_sample(), reader)?;
    serve(alloc, start.setup, reader, writer)
}

/// Tells of the sign file. The answer is whether it has no fault, and with `--strict` no warning.
fn answer_sign<R: Read, W: Write>(
    alloc: Global,
    asked: SignRequest<'_>,
    reader: &mut R,
    writer: &mut W,
) -> Result<bool, ToolFault> {
    let view = match asked.format {
        SignFormat::Text => SignView::Description,
        SignFormat::Font(font) => SignView::Font(font),
        SignFormat::Lines => SignView::Lines(asked.file.unwrap_or("-")),
        SignFormat::Json(font) => SignView::Json(font),
    };
    let SignFound { is_sound, is_clean } = run_sign(alloc, view, reader, writer)?;
    Ok(is_sound && (is_clean || !asked.is_strict))
}

/// Answers a request over an input that begins with the sign file, if one is named. What is said of its end is its exit status.
fn answer_input<P: Files, R: Read, W: Write, E: Write>(
    alloc: Global,
    files: &P,
    request: &Request<'_>,
    front: &Front<'_>,
    input: &mut R,
    writer: &mut W,
    errors: &mut E,
) -> u8 {
    let mode = match request {
        Request::Check { .. } => Mode::Check,
        Request::Show { colour, clock, .. } => Mode::Show {
            colour: *colour,
            clock: *clock,
        },
        Request::Serve { sign } => {
            let end = answer_serve(alloc, *sign, input, writer);
            return end_of_lines(end, front, errors);
        }
        Request::Picture(asked) => {
            let end = answer_picture(alloc, files, asked, input, writer);
            return end_of_picture(end, front, errors);
        }
        Request::Sign(asked) => {
            let end = answer_sign(alloc, *asked, input, writer);
            return end_of_answer(end, front, errors);
        }
        Request::Font(asked) => return end_of(answer_font(alloc, asked, input, writer), errors),
        _ => Mode::Run,
    };
    answer_lines(alloc, mode, sign_of(request), front, input, writer, errors)
}

/// What a request reads (own).
#[derive(Clone, Copy)]
enum Reads<'a> {
    /// The input.
    Input,
    /// The file of this name.
    File(&'a str),
    /// These octets.
    Given(&'a [u8]),
}

/// Where these messages are read.
fn reads_of<'a>(messages: &'a Messages<'_>) -> Reads<'a> {
    match messages {
        Messages::Input => Reads::Input,
        Messages::File(name) => Reads::File(*name),
        Messages::Given(lines) => Reads::Given(lines.as_slice()),
    }
}

/// What a request reads. The messages of `explain` are read elsewhere.
fn reading_of<'a>(request: &'a Request<'_>) -> Reads<'a> {
    let file = match request {
        Request::Check { messages, .. } | Request::Show { messages, .. } => {
            return reads_of(messages);
        }
        Request::Picture(asked) => return reads_of(&asked.messages),
        Request::Sign(asked) => asked.file,
        Request::Font(asked) => asked.file,
        _ => None,
    };
    match file {
        Some(name) => Reads::File(name),
        None => Reads::Input,
    }
}

/// Answers a request over the file that it names. What is said of its end is its exit status.
fn answer_file<P: Files, W: Write, E: Write>(
    alloc: Global,
    files: &P,
    request: &Request<'_>,
    name: &str,
    front: &Front<'_>,
    writer: &mut W,
    errors: &mut E,
) -> u8 {
    let file = match fs::open(files, name) {
        Ok(file) => file,
        Err(refusal) => {
            say_of_file(name, &FileFault::Unopened(refusal), errors);
            return FAULTED;
        }
    };
    let Ok(mut file) = BufReader::new(alloc, file) else {
        say_of_file(name, &ToolFault::Memory, errors);
        return FAULTED;
    };
    let beginning = match Beginning::read(&mut file) {
        Ok(beginning) => beginning,
        Err(fault) => {
            say_of_file(name, &fault, errors);
            return FAULTED;
        }
    };
    if beginning.is_utf16() {
        say_of_file(name, &FileFault::Utf16, errors);
        return FAULTED;
    }
    let mut input = front.octets.as_slice().chain(beginning.text()).chain(file);
    answer_input(alloc, files, request, front, &mut input, writer, errors)
}

/// Answers a request, whose sign file is read first if one is named. What is said of its end is its exit status.
fn answer_request<P: Files, R: Read, W: Write, E: Write>(
    alloc: Global,
    files: &P,
    request: &Request<'_>,
    reader: &mut R,
    writer: &mut W,
    errors: &mut E,
) -> u8 {
    let front = match Front::read(alloc, files, sign_of(request)) {
        Ok(front) => front,
        Err((name, fault)) => {
            say_of_file(name, &fault, errors);
            return match request {
                Request::Explain(_) => UNREAD,
                _ => FAULTED,
            };
        }
    };
    if let Request::Explain(asked) = request {
        return answer_explain(alloc, files, asked, &front, reader, writer, errors);
    }
    let front_octets = front.octets.as_slice();
    match reading_of(request) {
        Reads::File(name) => answer_file(alloc, files, request, name, &front, writer, errors),
        Reads::Given(lines) => {
            let mut input = front_octets.chain(lines);
            answer_input(alloc, files, request, &front, &mut input, writer, errors)
        }
        Reads::Input => {
            let mut input = front_octets.chain(reader);
            answer_input(alloc, files, request, &front, &mut input, writer, errors)
        }
    }
}

/// Runs the tool as the words ask, and gives its exit status (own). The first word is the program's name.
///
/// The status is 0 after a run with no fault, and after help, which is written to `writer`. It is 1 after a fault, which is
/// written to `errors` after `signctl: `. It is 2 if the words are refused, or if there is no memory to read them, and then
/// `errors` gets the reason. What can't be written to `errors` is lost.
pub(crate) fn main_with<'a, P: Files, R: Read, W: Write, E: Write>(
    alloc: Global,
    files: &P,
    words: &'a [&'a str],
    around: Surroundings<'a>,
    reader: &mut R,
    writer: &mut W,
    errors: &mut E,
) -> u8 {
    match request_of(alloc, words, around) {
        Ok(Request::Completions(script)) => {
            end_of(write_whole(writer, script.as_bytes()), errors)
        }
        Ok(request) => answer_request(alloc, files, &request, reader, writer, errors),
        Err(answer) => answer_words(&answer, writer, errors),
    }
}
