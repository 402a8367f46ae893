//! What is told of the octets of a sign file, part by part.

use crate::code::Code;
use crate::find::look_at_file;
use crate::findings::{Finding, Findings};
use crate::refusal::{PermanentRefusal, refusal_found};
use crate::scan::number_lines;
use std::alloc::AllocError;
use toml::Table;
use tool_streams::{MAX_LINE, is_mark, text_of};

/// How deep a sign file may nest (own).
const NESTING: &str =
    "nested too deep; at most 16 brackets may be open at once, and a name may have 4 parts";

/// What is wrong with a line, if it can't stand in a sign file before a mark.
fn wrong_line(line: &[u8]) -> Option<(Code, &'static str)> {
    if is_mark(line) {
        let told = "the mark %% ends the sign file for signctl; a host's library reads on";
        Some((Code::MarkLine, told))
    } else if text_of(line).len() > MAX_LINE {
        let told = "signctl takes no line with more than 8300 octets; a host's library does";
        Some((Code::LongLine, told))
    } else {
        None
    }
}

/// Tells which lines can't stand in a sign file before a mark. The error says that memory was refused.
pub fn look_at_lines(found: &mut Findings, octets: &[u8]) -> Result<(), AllocError> {
    let mut at: usize = 0;
    for line in octets.split(|octet| *octet == b'\n') {
        if let Some((code, told)) = wrong_line(line) {
            found.fault_of_line(code, octets, at, told)?;
        }
        at = at.saturating_add(line.len()).saturating_add(1);
    }
    Ok(())
}

/// Tells each fault that is found in a document, which was read of this text, and what its maker may not have meant, with their lines.
/// The error says that memory was refused.
pub fn look_at_document(found: &mut Findings, text: &str, table: &Table) -> Result<(), AllocError> {
    look_at_file(found, table)?;
    number_lines(text.as_bytes(), found)
}

/// What is told of octets that are UTF-8 only up to this one. The error says that memory was refused.
pub fn encoding_fault(found: &Findings, octets: &[u8], at: usize) -> Result<Finding, AllocError> {
    let told = "no text in UTF-8; the file must be saved as UTF-8";
    found.at_octet(Code::NotText, octets, at, told, &[])
}

/// What is told of a text that nests too deep at this octet. The error says that memory was refused.
pub fn nesting_fault(found: &Findings, text: &str, at: usize) -> Result<Finding, AllocError> {
    found.at_octet(Code::TooDeep, text.as_bytes(), at, NESTING, &[])
}

/// What is told of octets that aren't taken, if no fault was found in them. The error says that memory was refused.
pub fn untaken_fault(found: &Findings, octets: &[u8]) -> Result<Finding, AllocError> {
    let told = "the sign file isn't taken";
    found.at_octet(Code::NotTaken, octets, 0, told, &[])
}

/// Adds the permanent messages of the octets that the sign refuses, each with why: lines.
pub fn add_refusals(
    found: &mut Findings,
    octets: &[u8],
    refusals: &[PermanentRefusal],
    explanations: &[String],
) -> Result<(), AllocError> {
    for (refusal, explanation) in refusals.iter().zip(explanations) {
        let finding = refusal_found(found, *refusal, explanation)?;
        found.refusals.push(finding)?;
    }
    number_lines(octets, found)
}
