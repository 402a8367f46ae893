//! A refused message, changed until the sign takes it.

ghost use Rattle.std.specs.Prelude.{◌≡◌, ◌+◌, ◌++◌, ◌∷◌, [], ◌<◌, ◌≤◌, true, false, IfOk, IfSome, MatchOption};
ghost use Rattle.message_cures.specs.Cures.{AreRefused, FailsAll, IsChanged, Mends, Tries, found_one, judged_of, texts};
ghost use Rattle.message_cures.specs.Shown.{in_lines, made};
ghost use Rattle.message_cures.specs.Taking.{takes};

use crate::change::changed;
use crate::shown::{Change, made_of};
use crate::trial::{Answer, tried};
use crate::way::Way;
use multi_layout::{Judge, Offence};
use sign_font::Sign;
use std::alloc::{AllocError, Global};

/// How often a message is changed at most where its first offence stands (own).
pub(crate) const MOST_CHANGES: u8 = 90;

/// What a proposal keeps of a message (own).
#[derive(Clone, Copy, Debug, PartialEq, Eq)]
pub enum Kind {
    /// It is the message in capitals; tags stay.
    Capitals,
    /// It is the message in small letters; tags stay.
    SmallLetters,
    /// It shows the same letters and digits, apart from their case.
    SameLetters,
    /// It shows other letters or digits.
    OtherLetters,
}

/// What becomes of a message (own).
#[derive(Drop)]
pub enum Outcome {
    /// The sign takes it as it is.
    Taken,
    /// The sign doesn't take it, and takes this one.
    Mended { text: Vec<u8>, kind: Kind },
    /// The sign doesn't take it, and what to write in its place isn't known.
    Unknown,
}

/// What becomes of a message, and what that took (own).
#[derive(Drop)]
pub struct Mending {
    pub outcome: Outcome,
    /// The texts that were judged in its place and refused, in their order.
    pub refused: Vec<Vec<u8>>,
    /// How many texts were judged, with the message and what is proposed.
    pub judged: u8,
}

/// What is made of a message, if the sign takes that. Else it is added to what was refused.
pub(crate) fn made_taken(
    alloc: Global,
    judge: &Judge<'_>,
    refused: &mut Vec<Vec<u8>>,
    judged: &mut u8,
    text: &[u8],
    change: Change,
) -> Result<Option<Vec<u8>>, AllocError>
    requires few { judged.old < 200 }
    ensures made { IfOk result (λ found. MatchOption found (takes judge.now (made change text.now) ≡ false)
        (λ other. (other.items ≡ made change text.now) × (takes judge.now other.items ≡ true))) }
    ensures refused { IfOk result (λ found. MatchOption found
        (texts refused.new.items ≡ texts refused.old.items ++ made change text.now ∷ [])
        (λ other. texts refused.new.items ≡ texts refused.old.items)) }
    ensures counted { IfOk result (λ found. judged.new ≡ judged.old + 1) }
    ensures few { judged.new ≤ judged.old + 1 }
{
    let other = made_of(alloc, change, text)?;
    match tried(judge, judged, &other) {
        Answer::Taken => Ok(Some(other)),
        Answer::Refused(_) | Answer::TooLong => {
            refused.push(other)?;
            Ok(None)
        }
    }
}

/// The message that the sign takes after some changes to one that it refuses, if there is one. The others are added to what was refused.
pub(crate) fn mended(
    alloc: Global,
    sign: &Sign,
    judge: &Judge<'_>,
    refused: &mut Vec<Vec<u8>>,
    judged: &mut u8,
    text: &[u8],
    first: Offence,
    way: Way,
) -> Result<Option<Vec<u8>>, AllocError>
    requires few { judged.old < 100 }
    ensures taken { IfOk result (λ found. IfSome found (λ other. takes judge.now other.items ≡ true)) }
    ensures tries { IfOk result (λ found. Tries judge.now (texts refused.old.items) (texts refused.new.items) judged.old judged.new
        (found_one found)) }
    ensures few { judged.new ≤ judged.old + 90 }
{
    let mut last = changed(alloc, sign, text, first, way)?;
    for _change in 0..MOST_CHANGES {
        let Some(other) = last else {
            return Ok(None);
        };
        if other.is_empty() {
            return Ok(None);
        }
        match tried(judge, judged, &other) {
            Answer::Taken => return Ok(Some(other)),
            Answer::TooLong => {
                refused.push(other)?;
                return Ok(None);
            }
            Answer::Refused(offence) => {
                last = changed(alloc, sign, &other, offence, way)?;
                refused.push(other)?;
            }
        }
    }
    Ok(None)
}

/// The message that the sign takes after some changes, or else with each word on a line of its own.
fn found(
    alloc: Global,
    sign: &Sign,
    judge: &Judge<'_>,
    refused: &mut Vec<Vec<u8>>,
    judged: &mut u8,
    text: &[u8],
    first: Option<Offence>,
) -> Result<Option<Vec<u8>>, AllocError>
    requires few { judged.old < 9 }
    ensures found { IfOk result (λ found. MatchOption found (takes judge.now (in_lines text.now) ≡ false)
        (λ other. takes judge.now other.items ≡ true)) }
    ensures tries { IfOk result (λ found. MatchOption found
        (FailsAll judge.now text.now (texts refused.old.items) (texts refused.new.items) judged.old judged.new)
        (λ other. Tries judge.now (texts refused.old.items) (texts refused.new.items) judged.old judged.new 1)) }
    ensures few { judged.new ≤ judged.old + 91 }
{
    if let Some(offence) = first {
        let way = Way::Break;
        if let Some(other) = mended(alloc, sign, judge, refused, judged, text, offence, way)? {
            return Ok(Some(other));
        }
    }
    made_taken(alloc, judge, refused, judged, text, Change::Lines)
}

/// Whether a text shows the letters of a message, apart from their case.
pub(crate) fn kind_of(alloc: Global, text: &[u8], other: &[u8]) -> Result<Kind, AllocError>
    ensures { IfOk result (λ kind. IsChanged kind text.now other.now) }
{
    let letters = made_of(alloc, Change::Letters, text)?;
    let others = made_of(alloc, Change::Letters, other)?;
    if others == letters {
        Ok(Kind::SameLetters)
    } else {
        Ok(Kind::OtherLetters)
    }
}

/// What becomes of a message that the sign doesn't take.
fn outcome_of(
    alloc: Global,
    sign: &Sign,
    judge: &Judge<'_>,
    refused: &mut Vec<Vec<u8>>,
    judged: &mut u8,
    text: &[u8],
    first: Option<Offence>,
) -> Result<Outcome, AllocError>
    requires few { judged.old ≡ 1 }
    requires none { refused.old.items ≡ [] }
    requires refused { takes judge.now text.now ≡ false }
    ensures mends { IfOk result (Mends judge.now text.now) }
    ensures refused { IfOk result (λ outcome. AreRefused judge.now text.now outcome (texts refused.new.items)) }
    ensures judged { IfOk result (λ outcome. judged.new ≡ judged_of outcome (texts refused.new.items)) }
    ensures few { judged.new ≤ 94 }
{
    if let Some(text) = made_taken(alloc, judge, refused, judged, text, Change::Capitals)? {
        let kind = Kind::Capitals;
        return Ok(Outcome::Mended { text, kind });
    }
    if let Some(text) = made_taken(alloc, judge, refused, judged, text, Change::SmallLetters)? {
        let kind = Kind::SmallLetters;
        return Ok(Outcome::Mended { text, kind });
    }
    match found(alloc, sign, judge, refused, judged, text, first)? {
        Some(other) => {
            let kind = kind_of(alloc, text, &other)?;
            Ok(Outcome::Mended { text: other, kind })
        }
        None => Ok(Outcome::Unknown),
    }
}

/// Mends a message for a sign, by the sign's own defaults.
///
/// A message that the sign doesn't take is proposed in capitals if it takes that, or else in small letters. If it takes neither, the
/// message is changed where its first offence stands, and judged again, until the sign takes it; or its words stand on a line each.
/// Texts are judged at most [`crate::MOST_JUDGED`] times. The error says that memory was refused.
pub fn mend(alloc: Global, sign: &Sign, text: &[u8]) -> Result<Mending, AllocError>
    ensures mends { IfOk result (λ mending. Mends sign.now text.now mending.outcome) }
    ensures refused { IfOk result (λ mending. AreRefused sign.now text.now mending.outcome (texts mending.refused.items)) }
    ensures judged { IfOk result (λ mending. mending.judged ≡ judged_of mending.outcome (texts mending.refused.items)) }
    ensures few { IfOk result (λ mending. mending.judged ≤ 100) }
{
    let judge = Judge::new(sign);
    let mut refused = Vec::new(alloc);
    let mut judged = 0;
    let first = match tried(&judge, &mut judged, text) {
        Answer::Taken => {
            return Ok(Mending {
                outcome: Outcome::Taken,
                refused,
                judged,
            });
        }
        Answer::Refused(offence) => Some(offence),
        Answer::TooLong => None,
    };
    let outcome = outcome_of(alloc, sign, &judge, &mut refused, &mut judged, text, first)?;
    Ok(Mending {
        outcome,
        refused,
        judged,
    })
}
