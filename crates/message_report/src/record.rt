//! Messages as records in JSON.
ghost use Rattle.std.specs.Prelude.{◌≡◌, ◌++◌, ◌∷◌, ◌<◌, ◌^◌, [], List, ℕ, length, IfOk, OnOk, string_bytes};
ghost use Rattle.serde_json.specs.Data.{Data, array, string};
ghost use Rattle.serde_json.specs.View.{items_of, view};
ghost use Rattle.serde_json.specs.Written.{compact_text};
ghost use Rattle.multi_meaning.specs.Verdict.{Accepted};
ghost use Rattle.multi_layout.specs.Pages.{page_count};
ghost use Rattle.message_cures.specs.declared.mending.Outcome.TheVariants.{Taken};
ghost use Rattle.message_words.specs.Codes.{code_text};
ghost use Rattle.message_report.specs.Names.{name_of};
ghost use Rattle.message_report.specs.Pictures.{page_text};
ghost use Rattle.message_report.specs.Records.{TellsPages, TellsRecord, TooLongRecord, accepted_json, all_pages, page_record, picture_data, refused_json, refused_record, warning_record, warning_records};
ghost use Rattle.message_report.specs.Fixes.{AreFixes, octets_data, text_data};
ghost use Rattle.message_report.specs.Words.{GrowsBy};

use crate::accepted::AcceptedMessage;
use crate::explanation::Piece::{Number, Octets};
use crate::explanation::{Explanation, push_all, push_number, push_octet, push_octets};
use crate::fixes::{fixes_value, octets_value, text_value};
use crate::format::Telling;
use crate::picture::{Picture, push_picture};
use crate::verdict::name_of;
use message_cures::Outcome;
use message_words::{Times, Warning, page_times};
use multi_layout::Checked;
use serde_json::{Value, json};
use sign_font::Sign;
use std::alloc::{AllocError, Global};

/// Words as JSON.
fn string_json(alloc: Global, words: &str) -> Result<Vec<u8>, AllocError>
    ensures { IfOk result (λ json. json.items ≡ compact_text (string words.now)) }
{
    Value::try_from_str(alloc, words)?.to_vec(alloc)
}

/// A message as text in JSON, or nothing if its octets are none in UTF-8.
fn message_json(alloc: Global, message: &[u8]) -> Result<Vec<u8>, AllocError>
    ensures { IfOk result (λ json. json.items ≡ compact_text (text_data message.now)) }
{
    let value = text_value(alloc, message)?;
    let json = value.to_vec(alloc)?;
    Ok(json)
}

/// The octets of a message in hexadecimal in JSON, or nothing if they are text in UTF-8.
fn octets_json(alloc: Global, message: &[u8]) -> Result<Vec<u8>, AllocError>
    ensures { IfOk result (λ json. json.items ≡ compact_text (octets_data message.now)) }
{
    let value = octets_value(alloc, message)?;
    let json = value.to_vec(alloc)?;
    Ok(json)
}

/// The record of a warning.
#[tactic(auto, unfolding(crate::specs::Records::warning_record))]
fn warning_value(alloc: Global, warning: &Warning) -> Result<Value, AllocError>
    ensures { IfOk result (λ v. view v ≡ warning_record (code_text warning.now.code) warning.now.at (string_bytes warning.now.words)) }
{
    let code = warning.code.text();
    json!(in alloc; {"code": code, "octet": warning.at, "text": &warning.words})
}

/// The records of all warnings.
fn warning_values(alloc: Global, warnings: &[Warning]) -> Result<Value, AllocError>
    ensures { IfOk result (λ v. view v ≡ array (items_of (warning_records warnings.now))) }
{
    let mut list = Vec::new(alloc);
    for warning in warnings {
        let value = warning_value(alloc, warning)?;
        list.push(value)?;
    }
    Ok(Value::Array(list))
}

/// The records of all warnings in JSON.
fn warnings_json(alloc: Global, warnings: &[Warning]) -> Result<Vec<u8>, AllocError>
    ensures { IfOk result (λ json. json.items ≡ compact_text (array (items_of (warning_records warnings.now)))) }
{
    let all = warning_values(alloc, warnings)?;
    let json = all.to_vec(alloc)?;
    Ok(json)
}

/// The records of what is proposed in place of a message in JSON.
fn fixes_json(
    alloc: Global,
    sign: &Sign,
    message: &[u8],
    outcome: &Outcome,
) -> Result<Vec<u8>, AllocError>
    ensures { IfOk result (λ json. (fixes : List Data) × AreFixes sign.now message.now outcome.now fixes
        × (json.items ≡ compact_text (array (items_of fixes)))) }
{
    let fixes = fixes_value(alloc, sign, message, outcome)?;
    let json = fixes.to_vec(alloc)?;
    Ok(json)
}

/// Appends the record of a refused message but for its line feed. Its text and octets, the name of its error, the words and what is
/// proposed are JSON.
#[tactic(auto, unfolding(crate::specs::Records::refused_json))]
fn push_refused<'a>(
    text: &mut Explanation,
    line: u32,
    message: &'a [u8],
    octets: &'a [u8],
    name: &'a [u8],
    code: u8,
    at: usize,
    reason: &'a [u8],
    fixes: &'a [u8],
) -> Result<(), AllocError>
    ensures { OnOk result (text.new ≡ text.old
        ++ refused_json line message.now octets.now name.now code at reason.now fixes.now) }
{
    push_all(
        text,
        &[
            Octets(b"{\"code\":"),
            Number(u64::from(code)),
            Octets(b",\"fixes\":"),
            Octets(fixes),
            Octets(b",\"line\":"),
            Number(u64::from(line)),
            Octets(b",\"message\":"),
            Octets(message),
            Octets(b",\"name\":"),
            Octets(name),
            Octets(b",\"octet\":"),
            Number(at as u64),
            Octets(b",\"octets\":"),
            Octets(octets),
            Octets(b",\"outcome\":\"refused\",\"reason\":"),
            Octets(reason),
            Octets(b"}"),
        ],
    )
}

/// Appends the record of a refused message.
pub(crate) fn push_refused_record(
    text: &mut Explanation,
    alloc: Global,
    sign: &Sign,
    line: u32,
    message: &[u8],
    code: u8,
    at: usize,
    reason: &String,
    outcome: &Outcome,
) -> Result<(), AllocError>
    ensures { OnOk result ((fixes : List Data) × (words : List ℕ) × AreFixes sign.now message.now outcome.now fixes
        × (text.new ≡ text.old ++ (compact_text (refused_record line message.now code at words (array (items_of fixes))) ++ 10 ∷ []))) }
{
    let shown = message_json(alloc, message)?;
    let octets = octets_json(alloc, message)?;
    let name = string_json(alloc, name_of(code))?;
    let words = string_json(alloc, reason)?;
    let fixes = fixes_json(alloc, sign, message, outcome)?;
    push_refused(text, line, &shown, &octets, &name, code, at, &words, &fixes)?;
    push_octet(text, b'\n')?;
    Ok(())
}

/// Appends the record of a message with too many octets.
pub(crate) fn push_too_long_record(text: &mut Explanation, line: u32) -> Result<(), AllocError>
    ensures { OnOk result (GrowsBy (TooLongRecord line) text.old text.new) }
{
    push_octets(text, b"{\"line\":")?;
    push_number(text, u64::from(line))?;
    push_octets(
        text,
        b",\"outcome\":\"too long\",\"reason\":\"a message has at most 4096 octets\"}\n",
    )?;
    Ok(())
}

/// The picture of a page, or nothing if it isn't asked for.
fn picture_value(
    alloc: Global,
    telling: Telling,
    sign: &Sign,
    checked: &mut Checked<'_>,
    page: u8,
) -> Result<Value, AllocError>
    requires sign { checked.old.sign ≡ sign.now }
    requires page { page < page_count checked.old }
    ensures ok { IfOk result (λ v.
        view v ≡ picture_data telling.pictures (page_text sign.now checked.old.source.octets page telling.phase)) }
    ensures kept { (checked.new.sign ≡ checked.old.sign) × (checked.new.source.octets ≡ checked.old.source.octets) }
{
    if !telling.pictures {
        return Ok(Value::Null);
    }
    let mut text = Explanation::new(alloc);
    push_picture(
        &mut text,
        alloc,
        sign,
        checked,
        Picture::Marks,
        page,
        telling.phase,
    )?;
    match String::from_utf8(text.into_octets()) {
        Ok(text) => Ok(Value::String(text)),
        // A mark is an octet of ASCII.
        Err(_) => Err(AllocError),
    }
}

/// The record of a page.
#[tactic(auto, unfolding(crate::specs::Records::page_record))]
fn page_value(alloc: Global, page: u8, times: Times, picture: Value) -> Result<Value, AllocError>
    ensures { IfOk result (λ v. view v ≡ page_record page times.on times.off (view picture)) }
{
    let Times { on, off } = times;
    json!(in alloc; {"number": u32::from(page) + 1, "off": off, "on": on, "picture": picture})
}

/// The records of all pages.
fn page_values(
    message: &AcceptedMessage<'_>,
    checked: &mut Checked<'_>,
) -> Result<Value, AllocError>
    requires sign { checked.old.sign ≡ message.now.sign.now }
    requires short { length checked.old.source.octets < 2 ^ 32 }
    requires octets { checked.old.source.octets ≡ message.now.message.now }
    ensures { IfOk result (λ v.
        view v ≡ array (items_of (all_pages message.now.telling message.now.sign.now checked.old.source.octets))) }
{
    let AcceptedMessage {
        alloc,
        telling,
        sign,
        ..
    } = *message;
    let all = page_times(alloc, sign, message.message)?;
    let mut list = Vec::new(alloc);
    let pages = checked.pages();
    for page in 0..pages {
        let times = all[usize::from(page)];
        let picture = picture_value(alloc, telling, sign, checked, page)?;
        let value = page_value(alloc, page, times, picture)?;
        list.push(value)?;
    }
    Ok(Value::Array(list))
}

/// Appends the record of an accepted message but for its line feed. Its text, octets, pages and warnings are JSON.
#[tactic(auto, unfolding(crate::specs::Records::accepted_json))]
fn push_accepted<'a>(
    text: &mut Explanation,
    line: u32,
    message: &'a [u8],
    octets: &'a [u8],
    pages: &'a [u8],
    warnings: &'a [u8],
) -> Result<(), AllocError>
    ensures { OnOk result (text.new ≡ text.old ++ accepted_json line message.now octets.now pages.now warnings.now) }
{
    push_all(
        text,
        &[
            Octets(b"{\"line\":"),
            Number(u64::from(line)),
            Octets(b",\"message\":"),
            Octets(message),
            Octets(b",\"octets\":"),
            Octets(octets),
            Octets(b",\"outcome\":\"accepted\",\"pages\":"),
            Octets(pages),
            Octets(b",\"warnings\":"),
            Octets(warnings),
            Octets(b"}"),
        ],
    )
}

/// The records of all pages in JSON.
fn pages_json(
    message: &AcceptedMessage<'_>,
    checked: &mut Checked<'_>,
) -> Result<Vec<u8>, AllocError>
    requires sign { checked.old.sign ≡ message.now.sign.now }
    requires short { length checked.old.source.octets < 2 ^ 32 }
    requires octets { checked.old.source.octets ≡ message.now.message.now }
    ensures { IfOk result (λ json.
        json.items ≡ compact_text (array (items_of (all_pages message.now.telling message.now.sign.now checked.old.source.octets)))) }
{
    let pages = page_values(message, checked)?;
    let json = pages.to_vec(message.alloc)?;
    Ok(json)
}

/// Appends the record of an accepted message with its pages.
fn push_pages_record(
    text: &mut Explanation,
    message: &AcceptedMessage<'_>,
    checked: &mut Checked<'_>,
) -> Result<(), AllocError>
    requires sign { checked.old.sign ≡ message.now.sign.now }
    requires short { length checked.old.source.octets < 2 ^ 32 }
    requires octets { checked.old.source.octets ≡ message.now.message.now }
    ensures { OnOk result (GrowsBy
        (TellsPages message.now.telling message.now.sign.now checked.old.source.octets message.now.line
        message.now.found.now.warnings.items)
        text.old text.new) }
{
    let alloc = message.alloc;
    let shown = message_json(alloc, message.message)?;
    let octets = octets_json(alloc, message.message)?;
    let pages = pages_json(message, checked)?;
    let all = warnings_json(alloc, &message.found.warnings)?;
    push_accepted(text, message.line, &shown, &octets, &pages, &all)?;
    push_octet(text, b'\n')?;
    Ok(())
}

/// Appends the record of an accepted message, unless only refused ones are asked for and there is no warning on it.
#[inline(never)]
pub(crate) fn push_accepted_record(
    text: &mut Explanation,
    message: &AcceptedMessage<'_>,
    checked: &mut Checked<'_>,
) -> Result<(), AllocError>
    requires sign { checked.old.sign ≡ message.now.sign.now }
    requires short { length checked.old.source.octets < 2 ^ 32 }
    requires octets { checked.old.source.octets ≡ message.now.message.now }
    ensures { OnOk result (GrowsBy
        (TellsRecord message.now.telling message.now.sign.now checked.old.source.octets message.now.line
        (Accepted (page_count checked.old)) Taken message.now.found.now.warnings.items)
        text.old text.new) }
{
    if message.telling.refused_only && message.found.warnings.is_empty() {
        return Ok(());
    }
    push_pages_record(text, message, checked)
}
