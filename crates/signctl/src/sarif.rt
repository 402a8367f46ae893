//! What is told to editors, as a log in SARIF 2.1.0 (OASIS), which code scanners read.

use crate::finding::{Finding, findings_of};
use std::alloc::{AllocError, Global};

/// The rules by which messages are judged, each with what it finds (own).
const RULES: [(&str, &str); 28] = [
    ("unsupportedTag", "a tag that the sign doesn't have"),
    ("unsupportedTagValue", "a value that the sign doesn't take"),
    ("textTooBig", "text that doesn't fit"),
    ("fontNotDefined", "a font that the sign doesn't have"),
    (
        "characterNotDefined",
        "a character that the font doesn't have",
    ),
    ("tagConflict", "a justification that goes back"),
    ("tooManyPages", "more pages than the sign takes"),
    ("fontVersionID", "another version of a font"),
    ("tooLong", "a message that is too long to be judged"),
    ("W01", "more octets than the message table takes"),
    ("W02", "an off time in a message of one page"),
    ("W03", "a page that is too short to be read"),
    ("W04", "a long dark time between pages"),
    ("W05", "a space at the end of a line"),
    ("W06", "a space at the beginning of a line"),
    ("W07", "a colour on a sign of one colour"),
    ("W08", "a flash faster than twice a second"),
    ("W09", "a flash of 3 to 30 times a second"),
    ("W10", "a flash that never goes out"),
    ("W11", "a flash that goes on on the next page"),
    ("W12", "text that flashes as a whole"),
    ("W13", "more than two pages"),
    ("W14", "a font without its version"),
    ("W15", "a page on which nothing is lit"),
    ("W16", "text that is never lit"),
    ("W17", "text that is covered"),
    ("W18", "text in the colour of what it covers"),
    ("W19", "text that is covered in part"),
];

/// What the log begins with, up to the rules.
const FRONT: &[u8] =
    b"{\"$schema\":\"https://json.schemastore.org/sarif-2.1.0.json\",\"version\":\"2.1.0\",\"runs\":[{\"tool\":{\"driver\":{\"name\":\"signctl\",\"rules\":[";

/// What stands in a reference as it is, beside letters and digits.
const PLAIN: &[u8] = b"-._~/";

/// The digits of hexadecimal numbers.
const DIGITS: &[u8] = b"0123456789ABCDEF";

/// Appends a number below 16 as a hexadecimal digit.
fn push_digit(out: &mut Vec<u8>, number: u8) -> Result<(), AllocError> {
    if let Some(digit) = DIGITS.get(usize::from(number)) {
        out.push(*digit)?;
    }
    Ok(())
}

/// Appends an octet as two hexadecimal digits.
fn push_digits(out: &mut Vec<u8>, octet: u8) -> Result<(), AllocError> {
    push_digit(out, octet / 16)?;
    push_digit(out, octet % 16)
}

/// Appends a text in UTF-8 as JSON, between quotation marks that stand already.
fn push_text(out: &mut Vec<u8>, text: &[u8]) -> Result<(), AllocError> {
    for octet in text {
        if *octet == b'"' || *octet == b'\\' {
            out.push(b'\\')?;
            out.push(*octet)?;
        } else if *octet < 32 {
            out.extend_from_slice(b"\\u00")?;
            push_digits(out, *octet)?;
        } else {
            out.push(*octet)?;
        }
    }
    Ok(())
}

/// Appends the name of a file as a reference of the web (RFC 3986).
fn push_reference(out: &mut Vec<u8>, name: &str) -> Result<(), AllocError> {
    for octet in name.as_bytes() {
        if octet.is_ascii_alphanumeric() || PLAIN.contains(octet) {
            out.push(*octet)?;
        } else {
            out.push(b'%')?;
            push_digits(out, *octet)?;
        }
    }
    Ok(())
}

/// The rule of a finding: the code with which a warning ends, or the name with which an error begins.
fn rule_of<'a>(finding: Finding<'a>) -> &'a [u8] {
    let words = finding.words;
    if finding.kind.first() == Some(&b'w') {
        let end = words.len().saturating_sub(1);
        return words.get(end.saturating_sub(3)..end).unwrap_or(b"");
    }
    if words.starts_with(b"too long") {
        return b"tooLong";
    }
    let count = words.iter().position(|octet| *octet == b' ').unwrap_or(0);
    words.get(..count).unwrap_or(b"")
}

/// Appends a result, unless it is a note: it has no rule.
fn push_result(out: &mut Vec<u8>, name: &str, finding: Finding<'_>) -> Result<(), AllocError> {
    if finding.kind.first() == Some(&b'n') {
        return Ok(());
    }
    if !out.is_empty() {
        out.push(b',')?;
    }
    out.extend_from_slice(b"\n{\"ruleId\":\"")?;
    push_text(out, rule_of(finding))?;
    out.extend_from_slice(b"\",\"level\":\"")?;
    out.extend_from_slice(finding.kind)?;
    out.extend_from_slice(b"\",\"message\":{\"text\":\"")?;
    push_text(out, finding.words)?;
    out.extend_from_slice(
        b"\"},\"locations\":[{\"physicalLocation\":{\"artifactLocation\":{\"uri\":\"",
    )?;
    push_reference(out, name)?;
    out.extend_from_slice(b"\"},\"region\":{\"startLine\":")?;
    out.extend_from_slice(finding.line)?;
    out.extend_from_slice(b",\"startColumn\":")?;
    out.extend_from_slice(finding.column)?;
    out.extend_from_slice(b"}}}]}")
}

/// Appends the results of what lines tell of a file, each of which begins with the file's name.
pub(crate) fn push_results(
    alloc: Global,
    out: &mut Vec<u8>,
    name: &str,
    lines: &[u8],
) -> Result<(), AllocError> {
    for finding in findings_of(alloc, name, lines)?.iter() {
        push_result(out, name, *finding)?;
    }
    Ok(())
}

/// Appends texts.
fn push_all(out: &mut Vec<u8>, texts: &[&str]) -> Result<(), AllocError> {
    for text in texts {
        out.extend_from_slice(text.as_bytes())?;
    }
    Ok(())
}

/// Appends the rules.
fn push_rules(out: &mut Vec<u8>) -> Result<(), AllocError> {
    let mut gap = "";
    for (id, words) in &RULES {
        let middle = "\",\"shortDescription\":{\"text\":\"";
        push_all(out, &[gap, "\n{\"id\":\"", *id, middle, *words, "\"}}"])?;
        gap = ",";
    }
    Ok(())
}

/// The log with these results.
pub(crate) fn log_of(alloc: Global, results: &[u8]) -> Result<Vec<u8>, AllocError> {
    let mut out = Vec::new(alloc);
    out.extend_from_slice(FRONT)?;
    push_rules(&mut out)?;
    out.extend_from_slice(b"]}},\"results\":[")?;
    out.extend_from_slice(results)?;
    out.extend_from_slice(b"]}]}\n")?;
    Ok(out)
}
