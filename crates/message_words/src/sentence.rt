//! Sentences with places for values.

use std::alloc::{AllocError, Global};
use std::fmt::Write;

/// What stands at a place of a sentence.
#[derive(Clone, Copy)]
pub(crate) enum Value<'a> {
    /// A number in decimal.
    Number(u64),
    /// A number in hexadecimal.
    Hex(u32),
    /// The number of a character in Unicode.
    Code(u32),
    /// A character.
    Char(char),
    /// Words.
    Words(&'a str),
}

/// Appends a value.
fn write_value(text: &mut String, value: Value<'_>) -> Result<(), AllocError> {
    match value {
        Value::Number(number) => text.push_str(itoa::Buffer::new().format(number)),
        Value::Hex(number) => write!(text, "{number:X}"),
        Value::Code(number) => write!(text, "U+{number:04X}"),
        Value::Char(character) => text.push(character),
        Value::Words(words) => text.push_str(words),
    }
}

/// Appends a sentence with these values in turn at its places, which are written `{}`.
pub(crate) fn write_sentence(
    text: &mut String,
    sentence: &str,
    values: &[Value<'_>],
) -> Result<(), AllocError> {
    let mut rest = sentence;
    for value in values {
        let Some((front, behind)) = rest.split_once("{}") else {
            break;
        };
        text.push_str(front)?;
        write_value(text, *value)?;
        rest = behind;
    }
    text.push_str(rest)
}

/// The same alone. The error says that memory was refused.
pub(crate) fn sentence_of(
    alloc: Global,
    sentence: &str,
    values: &[Value<'_>],
) -> Result<String, AllocError> {
    let mut text = String::new(alloc);
    write_sentence(&mut text, sentence, values)?;
    Ok(text)
}

/// Octets one after the other. The error says that memory was refused.
pub(crate) fn joined(alloc: Global, parts: &[&[u8]]) -> Result<Vec<u8>, AllocError> {
    let mut octets = Vec::new(alloc);
    for part in parts {
        octets.extend_from_slice(part)?;
    }
    Ok(octets)
}

/// The octets of a message from one offset to another, or none if these aren't its own.
pub(crate) fn between(message: &[u8], from: usize, end: usize) -> &[u8] {
    message.get(from..end).unwrap_or(b"")
}
