//! Checks the messages of a roadside message sign, shows their pages, and runs the sign's controller.
//!
//! `signctl check` reads a sign file, a line `%%`, and message lines from standard input. `signctl check --sign FILE` reads message lines
//! alone, for the sign of that file, and `signctl check --sample` for the sample sign: so it is with each command that reads lines. A sign
//! file is a TOML document that describes one sign. Each message line is a MULTI string for that sign. It gets one line of answer on
//! standard output, which is written before more is read than the block of octets in which the message line has ended:
//!
//! | Answer | Meaning |
//! |---|---|
//! | `ok P` | the sign accepts the string, which has P pages |
//! | `error C A` | the sign refuses it, with the error code C for the item at offset A, counted in octets from 0 |
//! | `too long` | the string has more than 4,096 octets, and isn't judged |
//!
//! `signctl show` reads the same, and answers a page in place of `ok P`. `--clock` says which: it is the time in tenths of
//! a second since the string began to be shown, 0 to 4,294,967,295, or 0 if it isn't given. `page P phase F` is page P,
//! counted from 0, and F tenths of a second since that page began; in the off time of a page the line is `off` instead.
//! Then comes a line for each pixel row from the top, with `#` for a pixel of one colour and `.` for a pixel of any other.
//! `--colour` says which colour, 0 to 9, or 1 if it isn't given. In an off time every pixel has colour 0.
//!
//! `signctl run` reads a script in place of message lines: each line asks one thing of a controller of the sign, as
//! `sign_script` says, and gets its reply. The controller is made once, and each line finds the state that the lines before
//! it leave. An empty line and one that begins with `#` get no reply.
//!
//! `signctl serve` reads lines for one sign for as long as they come, and each gets one reply: those of a script, in which an empty line
//! and one that begins with `#` get `ok`, and the others of `sign_script`'s table. A line that is none of them gets `bad line`, and one
//! with too many octets `too long`; the sign goes on after it. What stands after the last line feed is a line.
//!
//! `signctl explain` reads what `check` reads, or in place of message lines the file that is named, or the messages of `-m`. It says of
//! each message why it is refused, or draws its pages, and warns of what can hardly be meant. `--phase` says when each page is drawn, in
//! tenths of a second since it began, and `--ansi` draws it in the sign's colours, for a terminal. `--format lines` writes lines as editors
//! read them, and `--format json` a record for each message, with the pictures of its pages by `--pages`. `--refused` leaves out what is
//! accepted without a warning, and `--strict` counts a warning as a refusal. How many messages there were is said on standard error.
//!
//! `signctl picture` reads what `check` reads, with one message, and writes it as a picture in PPM, or with `--gif` in GIF and with `--png`
//! in PNG. `--page` says which page, counted from 1, and `--phase` when, in tenths of a second since the page began; or `--clock` says
//! when, since the message began to be shown. With `--all` the picture is the message as it plays, until it begins anew or for its first
//! `--seconds`. A pixel has `--scale` by `--scale` points, 8 by 8 if it isn't given. `--output` names a file that is written in place of
//! standard output, and whose ending says the format.
//!
//! `signctl sign` reads a sign file alone, of the input or of the file that is named, and writes what it describes, or the faults that it
//! finds in it, the permanent messages that its sign refuses, and warnings, each with its line. `--font` shows the characters of a font in
//! place of the description, `--format lines` what was found as editors read it, `--format json` all of it in JSON, and with `--strict` a
//! warning counts as a fault.
//!
//! `signctl font` reads a font in BDF, of the input or of the file that is named, and writes it as the `[[font]]` table of a sign file.
//! `--number`, `--version`, `--char-spacing` and `--line-spacing` are the font's. `--first` and `--last`, or `--characters`, choose what is
//! taken, and `--outside` says what is done with a character that reaches outside its cell. `--crop` takes off the rows at the top and at
//! the bottom without a pixel, and `--height` adds such rows.
//!
//! `signctl --version` writes the version, and each command with `--help` its options.
//!
//! Where the command line names no sign, the variable `SIGNCTL_SIGN` names its file. `explain` draws pages in colours as with `--ansi` if
//! the output is a terminal whose `COLORTERM` is `truecolor` or `24bit`, unless `NO_COLOR` is set.
//!
//! A byte-order mark at the beginning of a file that is named, or of what `explain` reads, is passed over; one of UTF-16 is a fault.
//!
//! A line ends with a line feed, and one carriage return before that is dropped. What is left has at most 8,300 octets.
//! An input has at most 16,777,216 octets, with those of the sign file, but for the lines of `serve`. The first fault ends the run, after
//! the answers to the lines before it, and is said on standard error after `signctl: `:
//!
//! | Fault | When |
//! |---|---|
//! | `sign not read` | no line is `%%`, or what stands before the first one is no sign file, as `sign_file` says |
//! | `sign fault N` | the sign is outside its limit N, 1 to 5 (`sign_font::SignFault`), or its message table outside its own, which is 5 |
//! | `line N: too long` | the line has too many octets |
//! | `line N: bad line` | the input ends within the line, or the line is none of a script |
//! | `input too long` | the input has too many octets |
//! | `no message`, `line N: a second message` | there is none to be drawn, or more than one |
//! | `refused: error C at octet A; signctl explain tells why` | the sign refuses the message that is to be drawn |
//! | `too long: a message has at most 4096 octets` | the message that is to be drawn has more |
//! | `no such page: the last is N` | the message has no such page |
//! | `too long: ..`, `too large: ..` | the message plays for longer than a film lasts, or the film has too many octets |
//! | `read failed`, `write failed`, `out of memory` | what they say |
//! | `FILE: ` and what is wrong | the file that is named isn't read, or its sign has this fault: `signctl sign FILE` says more |
//! | `line N: ` and what is wrong | the line of a font in BDF is wrong, as `font_bdf::BdfProblem` says |
//!
//! Lines are counted from 1, from the start of the sign file where the input has one.
//!
//! | Exit status | When |
//! |---|---|
//! | 0 | there was no fault; also of help and of the version |
//! | 1 | there was a fault, also one that `sign` tells, or a permanent message that its sign refuses; `explain` told of a refused message |
//! | 2 | the command line was refused |
//! | 3 | of `explain`: the sign file or the messages weren't read, or what is told wasn't written |
#![tactic(auto)]

mod annotations;
mod beginning;
mod ends;
mod explain;
mod finding;
mod font;
mod front;
mod main_with;
mod picture;
mod sarif;

use command_line::Surroundings;
use std::alloc::AllocError;
use std::env::VarError;
use std::io::{BufReader, IsTerminal};
use std::process::ExitCode;
use std::{env, io};

/// The variable that names the sign file of command lines that name no sign (own).
const SIGN: &str = "SIGNCTL_SIGN";

/// A variable of the environment, if it has text. The error says that memory was refused.
fn text_of(rt: &HostRuntime, name: &str) -> Result<Option<String>, AllocError> {
    match env::var(rt, name) {
        Ok(text) => {
            if text.as_str().is_empty() {
                return Ok(None);
            }
            Ok(Some(text))
        }
        Err(VarError::OutOfMemory) => Err(AllocError),
        Err(_) => Ok(None),
    }
}

/// Whether a terminal says of itself that it has 24-bit colours.
fn is_coloured(rt: &HostRuntime) -> Result<bool, AllocError> {
    match text_of(rt, "COLORTERM")? {
        Some(kind) => Ok(kind.as_str() == "truecolor" || kind.as_str() == "24bit"),
        None => Ok(false),
    }
}

/// Whether a person reads the output, in colours that aren't turned off (https://no-color.org).
fn has_colours(rt: &HostRuntime) -> Result<bool, AllocError> {
    if !rt.stdout().is_terminal() || !is_coloured(rt)? {
        return Ok(false);
    }
    Ok(text_of(rt, "NO_COLOR")?.is_none())
}

/// Runs the tool over the standard streams. If there is no memory for a buffer, it asks the system for each octet of a sign
/// file. The error says that memory was refused for what the environment has.
fn run(rt: &HostRuntime, words: &[&str]) -> Result<u8, AllocError> {
    let alloc = rt.alloc();
    let sign = text_of(rt, SIGN)?;
    let around = Surroundings {
        sign: match &sign {
            Some(name) => Some(name.as_str()),
            None => None,
        },
        has_colours: has_colours(rt)?,
    };
    let mut output = rt.stdout();
    let mut errors = rt.stderr();
    let status = match BufReader::new(alloc, rt.stdin()) {
        Ok(mut input) => main_with::main_with(
            alloc,
            rt,
            words,
            around,
            &mut input,
            &mut output,
            &mut errors,
        ),
        Err(_) => main_with::main_with(
            alloc,
            rt,
            words,
            around,
            &mut rt.stdin(),
            &mut output,
            &mut errors,
        ),
    };
    Ok(status)
}

/// Runs the tool on the words of its command line. It is an `Err` if a word is no text, or if there is no memory for the
/// words.
fn run_words(rt: &HostRuntime) -> io::Result<u8> {
    let alloc = rt.alloc();
    let owned: Vec<String> = env::args(rt)?.collect(alloc)?;
    let mut words: Vec<&str> = Vec::new(alloc);
    for word in owned.iter() {
        words.push(word.as_str())?;
    }
    Ok(run(rt, &words)?)
}

fn main(rt: HostRuntime) -> ExitCode {
    match run_words(&rt) {
        Ok(status) => ExitCode::from(status),
        Err(refusal) => {
            let _ = eprintln!(rt; "signctl: {refusal}");
            ExitCode::from(ends::REFUSED)
        }
    }
}
