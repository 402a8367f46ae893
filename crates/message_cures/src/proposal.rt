//! What is proposed beside the first proposal.

ghost use Rattle.std.specs.Prelude.{◌≡◌, ◌≢◌, ◌+◌, ◌<◌, ◌≤◌, true, All, IfOk, OnOk};
ghost use Rattle.message_cures.specs.Cures.{AreFurther, IsOfKind};
ghost use Rattle.message_cures.specs.Taking.{takes};

use crate::mending::{Kind, kind_of, made_taken, mended};
use crate::shown::Change;
use crate::trial::{Answer, tried};
use crate::way::Way;
use multi_layout::{Judge, Offence};
use sign_font::Sign;
use std::alloc::{AllocError, Global};

/// A message that the sign takes in place of a refused one (own).
#[derive(Drop)]
pub struct Proposal {
    pub text: Vec<u8>,
    /// What it keeps.
    pub kind: Kind,
}

/// How many messages are proposed at most beside the first one (own).
const MOST_FURTHER: usize = 2;

/// Whether a text is none of those that are proposed.
fn is_other(first: &[u8], proposals: &[Proposal], text: &[u8]) -> bool
    ensures first { result ≡ true → text.now ≢ first.now }
    ensures others { result ≡ true → All (λ proposal. text.now ≢ proposal.text.items) proposals.now }
{
    if *text == *first {
        return false;
    }
    for proposal in proposals {
        if *proposal.text == *text {
            return false;
        }
    }
    true
}

/// Adds a text that the sign takes to what is proposed, if it is another one and there is room.
fn offer(
    judge: &Judge<'_>,
    text: &[u8],
    first: &[u8],
    proposals: &mut Vec<Proposal>,
    other: Vec<u8>,
    kind: Kind,
) -> Result<(), AllocError>
    requires taken { takes judge.now other.items ≡ true }
    requires kind { IsOfKind kind text.now other.items }
    requires so_far { AreFurther judge.now text.now first.now proposals.old.items }
    ensures { OnOk result (AreFurther judge.now text.now first.now proposals.new.items) }
{
    if proposals.len() < MOST_FURTHER && is_other(first, proposals, &other) {
        proposals.push(Proposal { text: other, kind })?;
    }
    Ok(())
}

/// Adds what the message becomes in a way to what is proposed, if the sign takes that.
fn offer_way(
    alloc: Global,
    sign: &Sign,
    judge: &Judge<'_>,
    judged: &mut u8,
    text: &[u8],
    first: &[u8],
    proposals: &mut Vec<Proposal>,
    offence: Offence,
    way: Way,
) -> Result<(), AllocError>
    requires few { judged.old < 100 }
    requires so_far { AreFurther judge.now text.now first.now proposals.old.items }
    ensures further { OnOk result (AreFurther judge.now text.now first.now proposals.new.items) }
    ensures few { judged.new ≤ judged.old + 90 }
{
    let mut refused = Vec::new(alloc);
    let found = mended(alloc, sign, judge, &mut refused, judged, text, offence, way)?;
    let Some(other) = found else {
        return Ok(());
    };
    let kind = kind_of(alloc, text, &other)?;
    offer(judge, text, first, proposals, other, kind)
}

/// Adds what is made of the message to what is proposed, if the sign takes that.
fn offer_made(
    alloc: Global,
    judge: &Judge<'_>,
    judged: &mut u8,
    text: &[u8],
    first: &[u8],
    proposals: &mut Vec<Proposal>,
    change: Change,
) -> Result<(), AllocError>
    requires few { judged.old < 200 }
    requires so_far { AreFurther judge.now text.now first.now proposals.old.items }
    ensures further { OnOk result (AreFurther judge.now text.now first.now proposals.new.items) }
    ensures few { judged.new ≤ judged.old + 1 }
{
    let mut refused = Vec::new(alloc);
    let found = made_taken(alloc, judge, &mut refused, judged, text, change)?;
    let Some(other) = found else {
        return Ok(());
    };
    let kind = kind_of(alloc, text, &other)?;
    offer(judge, text, first, proposals, other, kind)
}

/// What may stand in place of a message beside what is proposed first: the message in small letters, with its wide lines written narrower,
/// with shorter words, and in capitals with each word on a line of its own. Of these at most two that the sign takes are proposed, in this
/// order, and none that was proposed before. At most 183 texts are judged. The error says that memory was refused.
pub fn further(
    alloc: Global,
    sign: &Sign,
    text: &[u8],
    first: &[u8],
) -> Result<Vec<Proposal>, AllocError>
    ensures { IfOk result (λ proposals. AreFurther sign.now text.now first.now proposals.items) }
{
    let judge = Judge::new(sign);
    let mut judged = 0;
    let mut proposals = Vec::new(alloc);
    let Answer::Refused(offence) = tried(&judge, &mut judged, text) else {
        return Ok(proposals);
    };
    let list = &mut proposals;
    let small = Change::SmallLetters;
    offer_made(alloc, &judge, &mut judged, text, first, list, small)?;
    let way = Way::Narrow;
    offer_way(
        alloc,
        sign,
        &judge,
        &mut judged,
        text,
        first,
        list,
        offence,
        way,
    )?;
    let way = Way::Shorten;
    offer_way(
        alloc,
        sign,
        &judge,
        &mut judged,
        text,
        first,
        list,
        offence,
        way,
    )?;
    offer_made(alloc, &judge, &mut judged, text, first, list, Change::Lines)?;
    Ok(proposals)
}
