//! What is told to editors, as annotations of a workflow of GitHub.

use crate::finding::{Finding, findings_of};
use std::alloc::{AllocError, Global};

/// Appends a text, in which a workflow reads some signs by their numbers.
fn push_text(out: &mut Vec<u8>, text: &[u8]) -> Result<(), AllocError> {
    for octet in text {
        match *octet {
            b'%' => out.extend_from_slice(b"%25")?,
            b'\r' => out.extend_from_slice(b"%0D")?,
            other => out.push(other)?,
        }
    }
    Ok(())
}

/// Appends the name of a file, in which it reads two more so.
fn push_name(out: &mut Vec<u8>, name: &[u8]) -> Result<(), AllocError> {
    for octet in name {
        match *octet {
            b':' => out.extend_from_slice(b"%3A")?,
            b',' => out.extend_from_slice(b"%2C")?,
            other => push_text(out, &[other])?,
        }
    }
    Ok(())
}

/// What a workflow calls a kind.
fn word_of(kind: &[u8]) -> &'static [u8] {
    match kind.first() {
        Some(b'e') => b"::error file=",
        Some(b'w') => b"::warning file=",
        _ => b"::notice file=",
    }
}

/// Appends the annotation of what a line tells.
fn push_annotation(out: &mut Vec<u8>, name: &str, finding: Finding<'_>) -> Result<(), AllocError> {
    out.extend_from_slice(word_of(finding.kind))?;
    push_name(out, name.as_bytes())?;
    out.extend_from_slice(b",line=")?;
    out.extend_from_slice(finding.line)?;
    out.extend_from_slice(b",col=")?;
    out.extend_from_slice(finding.column)?;
    out.extend_from_slice(b"::")?;
    push_text(out, finding.words)?;
    out.push(b'\n')?;
    Ok(())
}

/// The annotations of what lines tell of a file, each of which begins with the file's name.
pub(crate) fn annotations_of(
    alloc: Global,
    name: &str,
    lines: &[u8],
) -> Result<Vec<u8>, AllocError> {
    let mut out = Vec::new(alloc);
    for finding in findings_of(alloc, name, lines)?.iter() {
        push_annotation(&mut out, name, *finding)?;
    }
    Ok(out)
}
