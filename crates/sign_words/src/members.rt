//! What was found in a sign file, in JSON.

ghost use Rattle.std.specs.Prelude.{◌≡◌, ◌++◌, OnOk, string_bytes};
ghost use Rattle.sign_words.specs.Names.{code_word, place_text};
ghost use Rattle.sign_words.specs.Told.{finding_told, findings_told, found_told, key_told, list_told, others_told, position_told, quoted, table_told, truth_of};

use crate::code::Code;
use crate::findings::{Finding, Findings};
use crate::place::{Place, push_place};
use crate::told::{push_count, push_quoted, push_text};
use std::alloc::{AllocError, Global};

/// Appends where a finding stands.
#[tactic(auto, unfolding(crate::specs::Told::position_told))]
fn push_position(text: &mut String, finding: &Finding) -> Result<(), AllocError>
    ensures { OnOk result (string_bytes text.new ≡ string_bytes text.old ++ position_told finding.now) }
{
    push_text(text, "\n    {\n      \"line\": ")?;
    push_count(text, finding.line)?;
    push_text(text, ",\n      \"column\": ")?;
    push_count(text, finding.column)
}

/// Appends the name of a table as JSON writes a text.
fn push_place_text(alloc: Global, text: &mut String, place: Place) -> Result<(), AllocError>
    ensures { OnOk result (string_bytes text.new ≡ string_bytes text.old ++ quoted (place_text place)) }
{
    let mut table = String::new(alloc);
    push_place(&mut table, place)?;
    push_quoted(alloc, text, table.as_str())
}

/// Appends the word of a kind as JSON writes a text.
fn push_code(alloc: Global, text: &mut String, code: Code) -> Result<(), AllocError>
    ensures { OnOk result (string_bytes text.new ≡ string_bytes text.old ++ quoted (code_word code)) }
{
    push_quoted(alloc, text, code.word())
}

/// Appends a string as JSON writes a text.
fn push_string(alloc: Global, text: &mut String, words: &String) -> Result<(), AllocError>
    ensures { OnOk result (string_bytes text.new ≡ string_bytes text.old ++ quoted (string_bytes words.now)) }
{
    push_quoted(alloc, text, words.as_str())
}

/// Appends the name of the table of a finding.
#[tactic(auto, unfolding(crate::specs::Told::table_told))]
fn push_table(alloc: Global, text: &mut String, finding: &Finding) -> Result<(), AllocError>
    ensures { OnOk result (string_bytes text.new ≡ string_bytes text.old ++ table_told finding.now) }
{
    push_text(text, ",\n      \"table\": ")?;
    push_place_text(alloc, text, finding.place)
}

/// Appends the key of a finding, the word of its kind, and the sentence on it.
#[tactic(auto, unfolding(crate::specs::Told::key_told))]
fn push_key(alloc: Global, text: &mut String, finding: &Finding) -> Result<(), AllocError>
    ensures { OnOk result (string_bytes text.new ≡ string_bytes text.old ++ key_told finding.now) }
{
    push_text(text, ",\n      \"key\": ")?;
    push_string(alloc, text, &finding.key)?;
    push_text(text, ",\n      \"code\": ")?;
    push_code(alloc, text, finding.code)?;
    push_text(text, ",\n      \"sentence\": ")?;
    push_string(alloc, text, &finding.sentence)?;
    push_text(text, "\n    }")
}

/// Appends a finding.
#[tactic(auto, unfolding(crate::specs::Told::finding_told))]
fn push_finding(alloc: Global, text: &mut String, finding: &Finding) -> Result<(), AllocError>
    ensures { OnOk result (string_bytes text.new ≡ string_bytes text.old ++ finding_told finding.now) }
{
    push_position(text, finding)?;
    push_table(alloc, text, finding)?;
    push_key(alloc, text, finding)
}

/// Appends findings, each after a comma.
fn push_others(alloc: Global, text: &mut String, findings: &[Finding]) -> Result<(), AllocError>
    ensures { OnOk result (string_bytes text.new ≡ string_bytes text.old ++ others_told findings.now) }
{
    for finding in findings {
        push_text(text, ",")?;
        push_finding(alloc, text, finding)?;
    }
    Ok(())
}

/// Appends findings.
#[tactic(auto, unfolding(crate::specs::Told::findings_told))]
fn push_findings(alloc: Global, text: &mut String, findings: &[Finding]) -> Result<(), AllocError>
    ensures { OnOk result (string_bytes text.new ≡ string_bytes text.old ++ findings_told findings.now) }
{
    let [first, others @ ..] = findings else {
        return push_text(text, "[]");
    };
    push_text(text, "[")?;
    push_finding(alloc, text, first)?;
    push_others(alloc, text, others)?;
    push_text(text, "\n  ]")
}

/// Appends whether a sign file is taken.
#[tactic(auto, unfolding(crate::specs::Told::truth_of))]
fn push_truth(text: &mut String, is_taken: bool) -> Result<(), AllocError>
    ensures { OnOk result (string_bytes text.new ≡ string_bytes text.old ++ truth_of is_taken) }
{
    if is_taken {
        push_text(text, "true")
    } else {
        push_text(text, "false")
    }
}

/// Appends findings, and how many more there are, as the members that begin with a name.
#[tactic(auto, unfolding(crate::specs::Told::list_told))]
fn push_list(
    alloc: Global,
    text: &mut String,
    name: &str,
    findings: &[Finding],
    more: usize,
) -> Result<(), AllocError>
    ensures { OnOk result (string_bytes text.new ≡ string_bytes text.old ++ list_told name.now findings.now more) }
{
    push_text(text, ",\n  \"")?;
    push_text(text, name)?;
    push_text(text, "\": ")?;
    push_findings(alloc, text, findings)?;
    push_text(text, ",\n  \"more_")?;
    push_text(text, name)?;
    push_text(text, "\": ")?;
    push_count(text, more)
}

/// Appends a document in JSON up to the facts of the sign: whether the file is taken, and what was found.
#[tactic(auto, unfolding(crate::specs::Told::found_told))]
pub(crate) fn push_found(
    alloc: Global,
    text: &mut String,
    is_taken: bool,
    found: &Findings,
) -> Result<(), AllocError>
    ensures { OnOk result (string_bytes text.new ≡ string_bytes text.old ++ found_told is_taken found.now) }
{
    push_text(text, "{\n  \"taken\": ")?;
    push_truth(text, is_taken)?;
    let faults = found.faults.as_slice();
    push_list(alloc, text, "faults", faults, found.more_faults)?;
    let warnings = found.warnings.as_slice();
    push_list(alloc, text, "warnings", warnings, found.more_warnings)
}
