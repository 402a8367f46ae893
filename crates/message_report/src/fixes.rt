//! What is proposed in place of a message, as records in JSON.
ghost use Rattle.std.specs.Prelude.{◌≡◌, ◌∷◌, [], List, IfOk, map};
ghost use Rattle.serde_json.specs.Data.{Data, array};
ghost use Rattle.serde_json.specs.View.{items_of, view};
ghost use Rattle.message_cures.specs.Cures.{AreFurther};
ghost use Rattle.message_cures.specs.Edits.{IsEdited};
ghost use Rattle.message_cures.specs.declared.difference.Edit.{Edit};
ghost use Rattle.message_cures.specs.declared.proposal.Proposal.{Proposal};
ghost use Rattle.message_report.specs.Fixes.{AreFixes, AreFixesOf, edit_record, fix_record, kind_name, octets_data, text_data};

use message_cures::{Edit, Kind, Outcome, edits_of, further};
use serde_json::{Value, json};
use sign_font::Sign;
use std::alloc::{AllocError, Global};

/// Octets as text, or nothing if they are none in UTF-8.
pub(crate) fn text_value(alloc: Global, octets: &[u8]) -> Result<Value, AllocError>
    ensures { IfOk result (λ v. view v ≡ text_data octets.now) }
{
    match str::from_utf8(octets) {
        Ok(text) => Value::try_from_str(alloc, text),
        Err(_) => Ok(Value::Null),
    }
}

/// Octets in hexadecimal, or nothing if they are text in UTF-8.
pub(crate) fn octets_value(alloc: Global, octets: &[u8]) -> Result<Value, AllocError>
    ensures { IfOk result (λ v. view v ≡ octets_data octets.now) }
{
    match str::from_utf8(octets) {
        Ok(_) => Ok(Value::Null),
        Err(_) => Ok(Value::String(hex::encode(alloc, octets)?)),
    }
}

/// The name of what a proposal keeps.
fn name_of_kind(kind: Kind) -> &'static str
    ensures { result.now ≡ kind_name kind }
{
    match kind {
        Kind::Capitals => "capitals",
        Kind::SmallLetters => "small letters",
        Kind::SameLetters => "same letters",
        Kind::OtherLetters => "other letters",
    }
}

/// The record of an edit.
#[tactic(auto, unfolding(crate::specs::Fixes::edit_record))]
fn edit_value(alloc: Global, edit: &Edit) -> Result<Value, AllocError>
    ensures { IfOk result (λ v. view v ≡ edit_record edit.now) }
{
    let octets = octets_value(alloc, &edit.octets)?;
    let text = text_value(alloc, &edit.octets)?;
    json!(in alloc; {"from": edit.from, "octets": octets, "text": text, "to": edit.to})
}

/// The records of some edits.
fn edit_values(alloc: Global, edits: &[Edit]) -> Result<Value, AllocError>
    ensures { IfOk result (λ v. view v ≡ array (items_of (map (λ (e : Edit). edit_record e) edits.now))) }
{
    let mut list = Vec::new(alloc);
    for edit in edits {
        let value = edit_value(alloc, edit)?;
        list.push(value)?;
    }
    Ok(Value::Array(list))
}

/// The record of what is proposed, which these edits make.
#[tactic(auto, unfolding(crate::specs::Fixes::fix_record))]
fn record_value(
    alloc: Global,
    other: &[u8],
    kind: Kind,
    edits: &[Edit],
) -> Result<Value, AllocError>
    ensures { IfOk result (λ v. view v ≡ fix_record kind other.now edits.now) }
{
    let edits = edit_values(alloc, edits)?;
    let octets = octets_value(alloc, other)?;
    let text = text_value(alloc, other)?;
    let kind = name_of_kind(kind);
    json!(in alloc; {"edits": edits, "kind": kind, "octets": octets, "text": text})
}

/// The record of what is proposed in place of a message.
fn fix_value(alloc: Global, message: &[u8], other: &[u8], kind: Kind) -> Result<Value, AllocError>
    ensures { IfOk result (λ v. (edits : List Edit) × IsEdited message.now edits other.now
        × (view v ≡ fix_record kind other.now edits)) }
{
    let edits = edits_of(alloc, message, other)?;
    let value = record_value(alloc, other, kind, &edits)?;
    Ok(value)
}

/// The records of what is proposed in place of a message: of the first proposal, and of the others.
fn all_fixes(
    alloc: Global,
    sign: &Sign,
    message: &[u8],
    first: &Vec<u8>,
    kind: Kind,
) -> Result<Vec<Value>, AllocError>
    ensures { IfOk result (λ list. (proposals : List Proposal) × AreFurther sign.now message.now first.now.items proposals
        × AreFixesOf message.now (record { text = first.now; kind = kind } ∷ proposals) (map view list.items)) }
{
    let others = further(alloc, sign, message, first)?;
    let mut list = Vec::new(alloc);
    let value = fix_value(alloc, message, first, kind)?;
    list.push(value)?;
    for other in &others {
        let value = fix_value(alloc, message, &other.text, other.kind)?;
        list.push(value)?;
    }
    Ok(list)
}

/// The records of what is proposed in place of a message.
pub(crate) fn fixes_value(
    alloc: Global,
    sign: &Sign,
    message: &[u8],
    outcome: &Outcome,
) -> Result<Value, AllocError>
    ensures { IfOk result (λ v. (fixes : List Data) × AreFixes sign.now message.now outcome.now fixes × (view v ≡ array (items_of fixes))) }
{
    match outcome {
        Outcome::Mended { text, kind } => {
            let list = all_fixes(alloc, sign, message, text, *kind)?;
            Ok(Value::Array(list))
        }
        Outcome::Taken | Outcome::Unknown => Ok(Value::Array(Vec::new(alloc))),
    }
}
