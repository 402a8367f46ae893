//! What the words of a command line ask for.

use crate::answer::Answer;
use crate::build::tool;
use crate::characters::NO_CHARACTERS;
use crate::completions::script_for;
use crate::explain::{ExplainRequest, explain_asked, explain_refusal};
use crate::font::{FontRequest, font_asked};
use crate::messages::{Messages, message_refusal, messages_of};
use crate::picture::{PictureRequest, picture_asked};
use crate::sign::{SignRequest, sign_asked};
use crate::source::{SignSource, Surroundings, number_of, octet_of, sign_source};
use clap::error::ErrorKind;
use clap::{ArgMatches, Error};
use std::alloc::{AllocError, Global};

/// What was asked for, a variant for each command (own).
#[derive(Drop)]
pub enum Request<'a> {
    /// The verdict on each message.
    Check {
        sign: SignSource<'a>,
        messages: Messages<'a>,
    },
    /// A page of each message: the pixels of a colour, 0 to 9, at a clock in tenths of a second.
    Show {
        sign: SignSource<'a>,
        messages: Messages<'a>,
        colour: u8,
        clock: u32,
    },
    /// The reply to each line of a script.
    Run {
        sign: SignSource<'a>,
    },
    /// A sign that is served.
    Serve {
        sign: SignSource<'a>,
    },
    /// Each message in words and pictures.
    Explain(ExplainRequest<'a>),
    /// A message as a picture.
    Picture(PictureRequest<'a>),
    /// What a sign file describes, or the characters of one of its fonts.
    Sign(SignRequest<'a>),
    /// The table of a font.
    Font(FontRequest<'a>),
    /// This script, by which a shell completes command lines.
    Completions(String),
}

/// What is asked for, or why it can't be answered.
type Asked<'a> = Result<Request<'a>, &'static str>;

/// What a command over lines, with this name, is asked for.
fn lines_asked<'a>(
    alloc: Global,
    name: &str,
    asked: &ArgMatches<'a>,
    sign: SignSource<'a>,
) -> Result<Request<'a>, AllocError> {
    Ok(match name {
        // both have a default
        "show" => Request::Show {
            sign,
            messages: messages_of(alloc, asked)?,
            colour: octet_of(asked, "colour").unwrap_or(1),
            clock: number_of(asked, "clock").unwrap_or(0),
        },
        "run" => Request::Run { sign },
        "serve" => Request::Serve { sign },
        _ => Request::Check {
            sign,
            messages: messages_of(alloc, asked)?,
        },
    })
}

/// What `signctl picture` is asked for, or why it can't be answered.
fn picture_of<'a>(
    alloc: Global,
    asked: &ArgMatches<'a>,
    sign: SignSource<'a>,
) -> Result<Asked<'a>, AllocError> {
    let messages = messages_of(alloc, asked)?;
    match picture_asked(asked, sign, messages) {
        Ok(picture) => Ok(Ok(Request::Picture(picture))),
        Err(why) => Ok(Err(why)),
    }
}

/// What a command with this name is asked for, or why it can't be answered.
fn asked_of<'a>(
    alloc: Global,
    name: &str,
    asked: &ArgMatches<'a>,
    around: Surroundings<'a>,
) -> Result<Asked<'a>, AllocError> {
    let sign = sign_source(asked, around);
    if let Some(why) = message_refusal(asked, sign) {
        return Ok(Err(why));
    }
    match name {
        "completions" => {
            let shell = asked.get_str("shell").unwrap_or("bash");
            Ok(Ok(Request::Completions(script_for(alloc, shell)?)))
        }
        "explain" => match explain_refusal(asked) {
            None => {
                let explain = explain_asked(alloc, asked, sign, around)?;
                Ok(Ok(Request::Explain(explain)))
            }
            Some(why) => Ok(Err(why)),
        },
        "font" => match font_asked(alloc, asked)? {
            Some(font) => Ok(Ok(Request::Font(font))),
            None => Ok(Err(NO_CHARACTERS)),
        },
        "picture" => picture_of(alloc, asked, sign),
        "sign" => match sign_asked(asked) {
            Ok(file) => Ok(Ok(Request::Sign(file))),
            Err(why) => Ok(Err(why)),
        },
        _ => Ok(Ok(lines_asked(alloc, name, asked, sign)?)),
    }
}

/// Reads the words.
fn read_words<'a>(
    alloc: Global,
    words: &'a [&'a str],
    around: Surroundings<'a>,
) -> Result<Request<'a>, Error> {
    let mut tool = tool(alloc)?;
    let matches = tool.try_get_matches_from_mut(words)?;
    let Some((name, asked)) = matches.subcommand() else {
        return Err(tool.error(ErrorKind::MissingSubcommand, "no command")?);
    };
    match asked_of(alloc, name, asked, around)? {
        Ok(request) => Ok(request),
        Err(why) => Err(tool.error(ErrorKind::ArgumentConflict, why)?),
    }
}

/// Reads the words of a command line, the program's name first. The answer says that help or the version was asked for, or why the words
/// are refused; so it says that memory was.
pub fn request_of<'a>(
    alloc: Global,
    words: &'a [&'a str],
    around: Surroundings<'a>,
) -> Result<Request<'a>, Answer> {
    match read_words(alloc, words, around) {
        Ok(request) => Ok(request),
        Err(error) => Err(Answer(error)),
    }
}
