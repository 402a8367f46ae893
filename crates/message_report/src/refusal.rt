//! Refused messages in words.
ghost use Rattle.std.specs.Prelude.{◌≡◌, ◌++◌, ◌∷◌, ◌-◌, [], List, ℕ, drop, OnOk};
ghost use Rattle.message_report.specs.Explanation.{TellsRefused};
ghost use Rattle.message_report.specs.Phrases.{no_proposal_text, proposal_line};
ghost use Rattle.message_report.specs.Notes.{caret_text, from_text};
ghost use Rattle.message_report.specs.Words.{GrowsBy, GrowsByLineOf, IsLineOf};

use crate::explanation::Piece::{Number, Octets};
use crate::explanation::{Explanation, push_all, push_octet, push_octets};
use crate::text::push_line_of;
use crate::verdict::{push_line_head, push_refused};
use message_cures::Outcome;
use message_words::Refusal;
use std::alloc::AllocError;

/// Appends a message as a line.
#[inline(always)]
pub(crate) fn push_as_it_is(text: &mut Explanation, message: &[u8]) -> Result<(), AllocError>
    ensures { OnOk result (text.new ≡ text.old ++ (message.now ++ 10 ∷ [])) }
{
    push_octets(text, message)?;
    push_octet(text, b'\n')
}

/// Appends that nothing is proposed, as a line.
#[tactic(auto, unfolding(crate::specs::Phrases::no_proposal_text))]
fn push_no_proposal(text: &mut Explanation) -> Result<(), AllocError>
    ensures { OnOk result (text.new ≡ text.old ++ no_proposal_text) }
{
    push_octets(
        text,
        b"no proposal: the sign takes none of the texts that were tried\n",
    )
}

/// Appends what is proposed in place of a message, after a place and a word, or that nothing is.
pub(crate) fn push_proposal(
    text: &mut Explanation,
    place: &[u8],
    word: &[u8],
    outcome: &Outcome,
) -> Result<(), AllocError>
    ensures { OnOk result (text.new ≡ text.old ++ proposal_line place.now word.now outcome.now) }
{
    match outcome {
        Outcome::Mended { text: other, .. } => {
            push_octets(text, place)?;
            push_octets(text, word)?;
            push_as_it_is(text, other)
        }
        Outcome::Taken => Ok(()),
        Outcome::Unknown => {
            push_octets(text, place)?;
            push_no_proposal(text)
        }
    }
}

/// The octets of a message from an offset on.
fn from(message: &[u8], first: usize) -> &[u8]
    ensures { result.now ≡ drop first message.now }
{
    match message.get(first..) {
        Some(rest) => rest,
        None => b"",
    }
}

/// Appends the octet with which what is shown of a message begins, as a line, unless it is the first one.
#[tactic(auto, unfolding(crate::specs::Notes::from_text))]
fn push_first(text: &mut Explanation, first: usize) -> Result<(), AllocError>
    ensures { OnOk result (text.new ≡ text.old ++ from_text first) }
{
    if first == 0 {
        return Ok(());
    }
    push_all(
        text,
        &[Octets(b"from octet "), Number(first as u64), Octets(b":\n")],
    )
}

/// Appends a caret after so many spaces, as a line.
#[tactic(auto, unfolding(crate::specs::Notes::caret_text))]
fn push_caret(text: &mut Explanation, before: usize) -> Result<(), AllocError>
    ensures { OnOk result (text.new ≡ text.old ++ caret_text before) }
{
    for _ in 0..before {
        push_octet(text, b' ')?;
    }
    push_octets(text, b"^\n")
}

/// Appends what is shown of a refused message, and under it a caret at the place.
fn push_excerpt(text: &mut Explanation, refusal: &Refusal<'_>) -> Result<(), AllocError>
    ensures { OnOk result ((shown : List ℕ) × (before : ℕ) × IsLineOf (drop (refusal.now.at - 60) refusal.now.message.now) shown
        × (text.new ≡ text.old ++ (from_text (refusal.now.at - 60) ++ shown ++ 10 ∷ caret_text before))) }
{
    let excerpt = refusal.excerpt()?;
    push_first(text, excerpt.first)?;
    let rest = from(refusal.message, excerpt.first);
    push_line_of(text, refusal.alloc, rest, excerpt.words.as_bytes())?;
    push_caret(text, excerpt.before)?;
    Ok(())
}

/// Appends the sentence that says why a message is refused, as a line.
fn push_reason(text: &mut Explanation, refusal: &Refusal<'_>) -> Result<(), AllocError>
    ensures { OnOk result (GrowsByLineOf [] text.old text.new) }
{
    let words = refusal.reason()?;
    push_line_of(text, refusal.alloc, b"", words.as_bytes())
}

/// Appends a refusal in words, and what is proposed in place of the message.
pub(crate) fn push_refusal_words(
    text: &mut Explanation,
    line: u32,
    refusal: &Refusal<'_>,
    outcome: &Outcome,
) -> Result<(), AllocError>
    ensures { OnOk result (GrowsBy
        (TellsRefused refusal.now.message.now line refusal.now.code refusal.now.at outcome.now)
        text.old text.new) }
{
    push_line_head(text, line)?;
    push_refused(text, refusal.code, refusal.at)?;
    push_excerpt(text, refusal)?;
    push_reason(text, refusal)?;
    push_proposal(text, b"", b"try: ", outcome)?;
    push_octet(text, b'\n')?;
    Ok(())
}
