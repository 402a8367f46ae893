//! A permanent message that its sign refuses.

use crate::code::Code;
use crate::findings::{Finding, Findings};
use crate::part::Part;
use crate::place::{Entry, Place};
use std::alloc::AllocError;

/// That a sign refuses one of its permanent messages (own).
#[derive(Clone, Copy, Debug, PartialEq, Eq)]
pub struct PermanentRefusal {
    /// The number of the message, counted from 1.
    pub number: u16,
    /// The number of the error (NTCIP 1203 v03, dmsMultiSyntaxError).
    pub code: u8,
    /// The octet where it stands, counted from 0.
    pub at: usize,
}

/// A refusal with its explanation, whose lines follow from its first line on.
pub(crate) fn refusal_found(
    found: &Findings,
    refusal: PermanentRefusal,
    explanation: &str,
) -> Result<Finding, AllocError> {
    let place = Place::Permanent(Entry {
        place: usize::from(refusal.number),
        number: None,
    });
    let explanation = explanation.strip_suffix("\n").unwrap_or(explanation);
    let parts = [Part::Words(explanation)];
    found.finding(Code::Refused, place, "multi", "@", &parts)
}
