//! Where a command line says that messages come from.

use crate::source::{SignSource, file_of};
use clap::ArgMatches;
use std::alloc::{AllocError, Global};

/// Where the messages come from (own).
#[derive(Drop)]
pub enum Messages<'a> {
    /// The input.
    Input,
    /// The file of this name.
    File(&'a str),
    /// These octets, each message with its line feed.
    Given(Vec<u8>),
}

/// Where the messages come from that are explained (own).
#[derive(Drop)]
pub enum ManyMessages<'a> {
    /// The files of these names, one after the other. A hyphen stands for the input.
    Files(Vec<&'a str>),
    /// These octets, each message with its line feed.
    Given(Vec<u8>),
}

impl ManyMessages<'_> {
    /// Whether there are several files.
    pub fn has_several(&self) -> bool {
        match self {
            ManyMessages::Files(names) => names.len() > 1,
            ManyMessages::Given(_) => false,
        }
    }
}

/// Messages as lines.
fn lines_of(alloc: Global, messages: &[&str]) -> Result<Vec<u8>, AllocError> {
    let mut lines = Vec::new(alloc);
    for message in messages {
        lines.extend_from_slice(message.as_bytes())?;
        lines.push(b'\n')?;
    }
    Ok(lines)
}

/// Where the messages come from.
pub(crate) fn messages_of<'a>(
    alloc: Global,
    asked: &ArgMatches<'a>,
) -> Result<Messages<'a>, AllocError> {
    if let Some(messages) = asked.get_strs("message") {
        return Ok(Messages::Given(lines_of(alloc, messages)?));
    }
    Ok(match file_of(asked) {
        Some(name) => Messages::File(name),
        None => Messages::Input,
    })
}

/// Where the messages come from that are explained.
pub(crate) fn many_messages_of<'a>(
    alloc: Global,
    asked: &ArgMatches<'a>,
) -> Result<ManyMessages<'a>, AllocError> {
    if let Some(messages) = asked.get_strs("message") {
        return Ok(ManyMessages::Given(lines_of(alloc, messages)?));
    }
    let mut names = Vec::new(alloc);
    match asked.get_strs("file") {
        Some(files) => names.extend_from_slice(files)?,
        None => names.push("-")?,
    }
    Ok(ManyMessages::Files(names))
}

/// Why messages can't be given on the command line, if they can't: without a sign the input would begin with it.
pub(crate) fn message_refusal(
    asked: &ArgMatches<'_>,
    sign: SignSource<'_>,
) -> Option<&'static str> {
    match (asked.get_strs("message"), sign) {
        (Some(_), SignSource::Input) => Some("--message goes with --sign FILE or --sample"),
        _ => None,
    }
}
