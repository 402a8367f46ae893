//! Why permanent messages are refused, in words.

use crate::setup::setup_of;
use message_report::{Explainer, Explanation, Format, Telling, USUAL_WARNINGS};
use message_store::Permanent;
use sign_words::{PermanentRefusal, Setup};
use std::alloc::{AllocError, Global};

/// Words for people, without pictures.
const WORDS: Telling = Telling {
    format: Format::Text,
    phase: 0,
    refused_only: true,
    pictures: false,
    warnings: USUAL_WARNINGS,
};

/// The last line of an explanation without a proposal. A report on a sign file ends with the reason.
const NO_PROPOSAL: &str = "no proposal: the sign takes none of the texts that were tried\n";

/// Why a permanent message is refused: lines, in the words of `explain`.
fn explanation_of(
    alloc: Global,
    explainer: &Explainer,
    permanents: &[Permanent],
    refusal: PermanentRefusal,
) -> Result<String, AllocError> {
    let place = usize::from(refusal.number).saturating_sub(1);
    let message = match permanents.get(place) {
        Some(permanent) => permanent.multi.as_slice(),
        None => b"",
    };
    let mut text = Explanation::new(alloc);
    explainer.explain(alloc, WORDS, b"", 1, message, &mut text)?;
    let words = str::from_utf8(text.octets()).unwrap_or("");
    // it is no line of a file of messages
    let words = words.strip_prefix("line 1: ").unwrap_or(words);
    // an empty line stands after each explanation
    let words = words.strip_suffix("\n").unwrap_or(words);
    String::from_str(alloc, words.strip_suffix(NO_PROPOSAL).unwrap_or(words))
}

/// Why each of these permanent messages is refused. The octets are read anew, since an explainer keeps its sign.
pub(crate) fn explanations_of(
    alloc: Global,
    octets: &[u8],
    refusals: &[PermanentRefusal],
) -> Result<Vec<String>, AllocError> {
    let mut explanations = Vec::new(alloc);
    if refusals.is_empty() {
        return Ok(explanations);
    }
    let Some(Setup { sign, store }) = setup_of(alloc, octets)? else {
        return Ok(explanations);
    };
    let explainer = Explainer::new(sign, store.limits().max_string);
    for refusal in refusals {
        let explanation = explanation_of(alloc, &explainer, store.permanents(), *refusal)?;
        explanations.push(explanation)?;
    }
    Ok(explanations)
}
