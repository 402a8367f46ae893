//! What lines for editors tell of a file.

use std::alloc::{AllocError, Global};

/// What is told of one place of a file.
#[derive(Clone, Copy)]
pub(crate) struct Finding<'a> {
    pub(crate) line: &'a [u8],
    pub(crate) column: &'a [u8],
    /// `error`, `warning` or `note`.
    pub(crate) kind: &'a [u8],
    pub(crate) words: &'a [u8],
}

/// What stands before the first colon, and what stands after it.
fn at_colon(octets: &[u8]) -> Option<(&[u8], &[u8])> {
    let place = octets.iter().position(|octet| *octet == b':')?;
    let front = octets.get(..place)?;
    let rest = octets.get(place.saturating_add(1)..)?;
    Some((front, rest))
}

/// What a line tells, which begins with the name of its file: `NAME:LINE:COLUMN: KIND: WORDS`.
fn finding_of<'a>(name: &str, told: &'a [u8]) -> Option<Finding<'a>> {
    let rest = told.get(name.len().saturating_add(1)..)?;
    let (line, rest) = at_colon(rest)?;
    let (column, rest) = at_colon(rest)?;
    let (kind, rest) = at_colon(rest.get(1..)?)?;
    let words = rest.get(1..)?;
    Some(Finding {
        line,
        column,
        kind,
        words,
    })
}

/// What lines tell of a file, each of which begins with the file's name.
pub(crate) fn findings_of<'a>(
    alloc: Global,
    name: &str,
    lines: &'a [u8],
) -> Result<Vec<Finding<'a>>, AllocError> {
    let mut findings = Vec::new(alloc);
    let mut begin: usize = 0;
    for (at, octet) in lines.iter().enumerate() {
        if *octet != b'\n' {
            continue;
        }
        let told = lines.get(begin..at).unwrap_or(b"");
        if let Some(finding) = finding_of(name, told) {
            findings.push(finding)?;
        }
        begin = at.saturating_add(1);
    }
    Ok(findings)
}
