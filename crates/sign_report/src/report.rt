//! The report on a sign file.

ghost use Rattle.std.specs.Prelude.{◌≡◌, ◌↔◌, [], true, IfOk, string_bytes};
ghost use Rattle.sign_report.specs.Permanents.{refusals_of};
ghost use Rattle.sign_report.specs.Setup.{is_taken, sign_taken};
ghost use Rattle.sign_words.specs.Told.{IsTold};

use crate::explanations::explanations_of;
use crate::find::{hold_to, look_at_octets};
use crate::judged::{Judged, judged_of};
use sign_words::{Findings, PermanentRefusal, SignView, SignWords, add_refusals};
use std::alloc::{AllocError, Global};

/// What is told of a sign file (own).
#[derive(Drop)]
pub struct SignReport {
    /// Whether the program takes it.
    pub is_taken: bool,
    /// The permanent messages that its sign refuses, in the order of their numbers; none if the file isn't taken.
    pub refusals: Vec<PermanentRefusal>,
    /// The faults, of which there is none exactly if the file is taken, and the warnings: what is no fault, and its maker may not have
    /// meant. Of each there are 50 at most.
    pub found: Findings,
    /// What it describes, or each fault that was found; the refusals and the warnings.
    pub text: String,
}

/// Says of the octets of a sign file what they describe, or each fault that is found in them, and which of its permanent messages the
/// sign refuses, and why.
///
/// `view` says whether the description, the pictures of a font's characters, a document in JSON, or lines for editors are asked for. A
/// file is taken if its sign and its message table are, and if each of its lines can stand before a mark. A refused permanent
/// message is no fault of the file: the program takes it, but the sign never shows that message. The error says that memory was
/// refused.
pub fn sign_report(
    alloc: Global,
    octets: &[u8],
    view: SignView<'_>,
) -> Result<SignReport, AllocError>
    ensures taken { IfOk result (λ report. report.is_taken ≡ is_taken octets.now) }
    ensures refusals { IfOk result (λ report. report.refusals.items ≡ refusals_of octets.now) }
    ensures exact { IfOk result (λ report. report.found.faults.items ≡ [] ↔ is_taken octets.now ≡ true) }
    ensures told { IfOk result (λ report. IsTold view.entry (sign_taken octets.now) report.found (string_bytes report.text)) }
{
    let Judged { setup, refusals } = judged_of(alloc, octets)?;
    let mut found = Findings::new(alloc);
    look_at_octets(alloc, &mut found, octets)?;
    let explanations = explanations_of(alloc, octets, &refusals)?;
    add_refusals(&mut found, octets, &refusals, &explanations)?;
    hold_to(&mut found, octets, setup.is_some())?;
    let words = SignWords {
        alloc,
        view,
        found: &found,
        setup: setup.as_ref(),
        refusals: &refusals,
        explanations: &explanations,
    };
    let text = words.text()?;
    Ok(SignReport {
        is_taken: setup.is_some(),
        refusals,
        found,
        text,
    })
}
