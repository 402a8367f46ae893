//! The explanation of a message.
ghost use Rattle.std.specs.Prelude.{◌≡◌, ◌++◌, ◌∷◌, ◌<◌, ◌^◌, [], List, ℕ, codes, false, true, length, OnOk, IfOk};
ghost use Rattle.multi_meaning.specs.Verdict.{Accepted, Refused};
ghost use Rattle.multi_layout.specs.Pages.{page_count};
ghost use Rattle.message_cures.specs.Taking.{takes};
ghost use Rattle.message_report.specs.Explanation.{Explains, Tells, TellsTooLong};
ghost use Rattle.message_report.specs.Phrases.{change_head, diff_text, error_text, kind_of, mended_text, place_text, proposal_line};
ghost use Rattle.message_cures.specs.declared.mending.Outcome.TheVariants as outcomes;
ghost use Rattle.message_report.specs.Words.{GrowsBy, IsOneLine};

use crate::accepted::AcceptedMessage;
use crate::canvas::Canvas;
use crate::explanation::Piece::{Number, Octets};
use crate::explanation::{Explanation, push_all, push_octets};
use crate::format::{Format, Telling, Told};
use crate::lines::{push_error_line, push_warning_lines};
use crate::pages::push_told;
use crate::picture::Picture;
use crate::record::{push_accepted_record, push_refused_record, push_too_long_record};
use crate::refusal::{push_as_it_is, push_proposal, push_refusal_words};
use crate::verdict::{push_line_head, push_place, push_too_long};
use crate::wording::Wording;
use message_cures::{Kind, Outcome, mend};
use message_words::{Findings, Refusal, Warning, warnings_on};
use multi_layout::{Checked, Fault, check};
use multi_token::Source;
use sign_font::Sign;
use std::alloc::{AllocError, Global};
use std::cell::{Cell, OnceCell};
use std::marker::Model;

/// The most octets that a message may have to be judged (own).
const MAX_MESSAGE: usize = 4_096;

/// The answer of a message that isn't taken.
fn not_taken(proposal: Option<Kind>) -> Told
    ensures refused { result.is_taken ≡ false }
    ensures warnings { result.warnings ≡ 0 }
    ensures proposal { result.proposal ≡ proposal }
{
    Told {
        is_taken: false,
        warnings: 0,
        proposal,
    }
}

/// The answer of a message that is taken.
fn taken(found: &Findings) -> Told
    ensures taken { result.is_taken ≡ true }
    ensures warnings { result.warnings ≡ length found.now.warnings.items }
    ensures proposal { result.proposal ≡ None }
{
    let warnings: &[Warning] = &found.warnings;
    Told {
        is_taken: true,
        warnings: warnings.len(),
        proposal: None,
    }
}

/// What is kept by what is proposed, if something is.
fn kind_of(outcome: &Outcome) -> Option<Kind>
    ensures { result ≡ kind_of outcome.now }
{
    match outcome {
        Outcome::Mended { kind, .. } => Some(*kind),
        Outcome::Taken | Outcome::Unknown => None,
    }
}

/// A sign whose messages are explained (own).
#[derive(Drop)]
pub struct Explainer {
    sign: Sign,
    /// What the words of its refusals are taken from, once there was one.
    wording: OnceCell<Wording>,
    /// What pages are drawn with, once one was drawn.
    canvas: Cell<Option<Box<Canvas>>>,
    /// The most octets of a text that its message table takes.
    max_string: u16,
}

impl Model for Explainer {
    ghost use Rattle.message_report.specs.Explained.{ExplainerData};

    ghost Value = { ExplainerData };

    ghost view = { λ e. record { sign = e.sign; most = e.max_string } };
}

impl Explainer {
    /// An explainer for a sign whose message table takes texts of at most this many octets.
    pub fn new(sign: Sign, max_string: u16) -> Explainer
        ensures { result ≡ record { sign = sign; most = max_string } }
    {
        Explainer {
            sign,
            wording: OnceCell::new(),
            canvas: Cell::new(None),
            max_string,
        }
    }
}

/// Appends that a message has too many octets.
#[inline(never)]
fn push_unjudged(
    text: &mut Explanation,
    alloc: Global,
    format: Format,
    name: &[u8],
    line: u32,
    message: &[u8],
) -> Result<(), AllocError>
    ensures { OnOk result (GrowsBy (TellsTooLong format name.now message.now line) text.old text.new) }
{
    match format {
        Format::Text | Format::Ansi => {
            push_line_head(text, line)?;
            push_too_long(text)?;
            push_octets(text, b"\n")
        }
        Format::Lines => {
            push_place(text, name, line, MAX_MESSAGE)?;
            push_octets(text, b"error: ")?;
            push_too_long(text)
        }
        Format::Json => push_too_long_record(text, line),
        Format::Mended => push_as_it_is(text, message),
        Format::Changed => Ok(()),
    }
}

/// Appends what is proposed in place of a message, or else itself, as a line.
fn push_mended(text: &mut Explanation, message: &[u8], outcome: &Outcome) -> Result<(), AllocError>
    ensures { OnOk result (text.new ≡ text.old ++ (mended_text message.now outcome.now ++ 10 ∷ [])) }
{
    match outcome {
        Outcome::Mended { text: other, .. } => push_as_it_is(text, other),
        Outcome::Taken | Outcome::Unknown => push_as_it_is(text, message),
    }
}

/// Appends how a change of a line of a file begins.
#[tactic(auto, unfolding(crate::specs::Phrases::change_head))]
fn push_change_head(text: &mut Explanation, name: &[u8], line: u32) -> Result<(), AllocError>
    ensures { OnOk result (text.new ≡ text.old ++ change_head name.now line) }
{
    push_all(
        text,
        &[
            Octets(b"--- "),
            Octets(name),
            Octets(b"\n+++ "),
            Octets(name),
            Octets(b"\n@@ -"),
            Number(u64::from(line)),
            Octets(b" +"),
            Number(u64::from(line)),
            Octets(b" @@\n-"),
        ],
    )
}

/// Appends the change of a line of a file to what is proposed in place of its message, if something is.
fn push_change(
    text: &mut Explanation,
    name: &[u8],
    line: u32,
    message: &[u8],
    outcome: &Outcome,
) -> Result<(), AllocError>
    ensures { OnOk result (text.new ≡ text.old ++ diff_text name.now line message.now outcome.now) }
{
    match outcome {
        Outcome::Mended { text: other, .. } => {
            push_change_head(text, name, line)?;
            push_octets(text, message)?;
            push_octets(text, b"\n+")?;
            push_octets(text, other)?;
            push_octets(text, b"\n")
        }
        Outcome::Taken | Outcome::Unknown => Ok(()),
    }
}

/// Appends the explanation of an accepted message.
#[inline(always)]
fn push_accepted(
    text: &mut Explanation,
    name: &[u8],
    message: &AcceptedMessage<'_>,
    checked: &mut Checked<'_>,
) -> Result<(), AllocError>
    requires sign { checked.old.sign ≡ message.now.sign.now }
    requires short { length checked.old.source.octets < 2 ^ 32 }
    requires octets { checked.old.source.octets ≡ message.now.message.now }
    ensures { OnOk result (GrowsBy
        (Tells message.now.telling message.now.telling.format message.now.sign.now name.now checked.old.source.octets
        message.now.line (Accepted (page_count checked.old)) outcomes.Taken message.now.found.now.warnings.items)
        text.old text.new) }
{
    match message.telling.format {
        Format::Text => push_told(text, message, checked, Picture::Marks),
        Format::Ansi => push_told(text, message, checked, Picture::Blocks),
        Format::Lines => push_warning_lines(text, name, message.line, &message.found.warnings),
        Format::Json => push_accepted_record(text, message, checked),
        Format::Mended => push_as_it_is(text, message.message),
        Format::Changed => Ok(()),
    }
}

/// Appends a refusal to the lines of editors, with a note of what is proposed in place of the message.
fn push_refusal_lines(
    text: &mut Explanation,
    name: &[u8],
    line: u32,
    refusal: &Refusal<'_>,
    outcome: &Outcome,
) -> Result<(), AllocError>
    requires small { refusal.now.at < 2 ^ 63 }
    ensures { OnOk result ((words : List ℕ) × IsOneLine words
        × (text.new ≡ text.old ++ (place_text name.now line refusal.now.at ++ codes "error: " ++ error_text refusal.now.code
        ++ codes ": " ++ words ++ 10 ∷ proposal_line (place_text name.now line refusal.now.at ++ codes "note: ") (codes "try ")
        outcome.now))) }
{
    let reason = refusal.reason()?;
    push_error_line(text, name, line, refusal.code, refusal.at, &reason)?;
    let mut note = Explanation::new(refusal.alloc);
    push_place(&mut note, name, line, refusal.at)?;
    push_octets(&mut note, b"note: ")?;
    push_proposal(text, note.octets(), b"try ", outcome)
}

/// Appends the explanation of a refused message.
fn push_refusal(
    text: &mut Explanation,
    telling: Telling,
    name: &[u8],
    line: u32,
    refusal: &Refusal<'_>,
    outcome: &Outcome,
) -> Result<(), AllocError>
    requires small { refusal.now.at < 2 ^ 63 }
    ensures { OnOk result (GrowsBy
        (Tells telling telling.format refusal.now.sign.now name.now refusal.now.message.now line
        (Refused refusal.now.code refusal.now.at) outcome.now [])
        text.old text.new) }
{
    match telling.format {
        Format::Text | Format::Ansi => push_refusal_words(text, line, refusal, outcome),
        Format::Lines => push_refusal_lines(text, name, line, refusal, outcome),
        Format::Mended => push_mended(text, refusal.message, outcome),
        Format::Changed => push_change(text, name, line, refusal.message, outcome),
        Format::Json => {
            let reason = refusal.reason()?;
            push_refused_record(
                text,
                refusal.alloc,
                refusal.sign,
                line,
                refusal.message,
                refusal.code,
                refusal.at,
                &reason,
                outcome,
            )
        }
    }
}

impl Explainer {
    /// What the words of a refusal are taken from, which is made once. The error says that memory was refused.
    fn wording(&self, alloc: Global) -> Result<&Wording, AllocError> {
        self.wording
            .get_or_try_init(|| Wording::new(alloc, &self.sign))
    }

    /// Appends the explanation of a message that the sign refuses so.
    #[inline(never)]
    fn push_fault(
        &self,
        alloc: Global,
        telling: Telling,
        name: &[u8],
        line: u32,
        message: &[u8],
        fault: &Fault<'_>,
        outcome: &Outcome,
        text: &mut Explanation,
    ) -> Result<(), AllocError>
        requires small { fault.now.at < 2 ^ 63 }
        ensures { OnOk result (GrowsBy
            (Tells telling telling.format self.now.sign name.now message.now line (Refused fault.now.code fault.now.at) outcome.now [])
            text.old text.new) }
    {
        let wording = self.wording(alloc)?;
        let refusal = Refusal {
            alloc,
            sign: &self.sign,
            large: wording.large.as_ref(),
            fonts: &wording.fonts,
            message,
            code: fault.code,
            at: fault.at,
        };
        push_refusal(text, telling, name, line, &refusal, outcome)
    }

    /// Appends the explanation of the message of a line, as it is asked for: the sign's verdict on it, and where it is refused and why, or
    /// else its pages, each with its times and its picture in all colours at once, and what its writer can't have meant. A picture shows
    /// the page as it is at the phase, in tenths of a second since the page began. The name is that of the file of the messages. The answer
    /// is whether the sign takes the message, and the number of warnings.
    ///
    /// A message with more than 4,096 octets isn't judged, and not taken. The error says that memory was refused.
    pub fn explain(
        &self,
        alloc: Global,
        telling: Telling,
        name: &[u8],
        line: u32,
        message: &[u8],
        text: &mut Explanation,
    ) -> Result<Told, AllocError>
        ensures told { IfOk result (λ told.
            GrowsBy (Explains telling self.now.sign self.now.most name.now line message.now told) text.old text.new) }
        ensures taken { IfOk result (λ told. told.is_taken ≡ takes self.now.sign message.now) }
    {
        if message.len() > MAX_MESSAGE {
            push_unjudged(text, alloc, telling.format, name, line, message)?;
            return Ok(not_taken(None));
        }
        let sign = &self.sign;
        match check(sign, Source::new(message)) {
            Ok(mut checked) => {
                let told = telling.warnings;
                let found = warnings_on(alloc, sign, message, &checked, self.max_string, told)?;
                let accepted = AcceptedMessage {
                    alloc,
                    telling,
                    sign,
                    line,
                    message,
                    found: &found,
                    canvas: &self.canvas,
                };
                push_accepted(text, name, &accepted, &mut checked)?;
                Ok(taken(&found))
            }
            Err(fault) => {
                let outcome = mend(alloc, sign, message)?.outcome;
                self.push_fault(alloc, telling, name, line, message, &fault, &outcome, text)?;
                Ok(not_taken(kind_of(&outcome)))
            }
        }
    }
}
