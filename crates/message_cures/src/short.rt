//! Shorter forms of words on road signs.

use crate::edit::{between, replaced};
use std::alloc::{AllocError, Global};

/// Words and their abbreviations (own; the usual ones of messages on road signs).
const SHORT: [(&str, &str); 44] = [
    ("ACCIDENT", "ACCDT"),
    ("AHEAD", "AHD"),
    ("ALTERNATE", "ALT"),
    ("AVENUE", "AVE"),
    ("BLOCKED", "BLKD"),
    ("BOULEVARD", "BLVD"),
    ("BRIDGE", "BRDG"),
    ("CENTER", "CNTR"),
    ("CLOSED", "CLSD"),
    ("CONDITIONS", "COND"),
    ("CONGESTION", "CONG"),
    ("CONSTRUCTION", "CONST"),
    ("DOWNTOWN", "DWNTN"),
    ("EASTBOUND", "EB"),
    ("EMERGENCY", "EMER"),
    ("ENTRANCE", "ENT"),
    ("EXPRESS", "EXP"),
    ("FREEWAY", "FRWY"),
    ("HAZARDOUS", "HAZ"),
    ("HIGHWAY", "HWY"),
    ("INFORMATION", "INFO"),
    ("JUNCTION", "JCT"),
    ("MAINTENANCE", "MAINT"),
    ("MAXIMUM", "MAX"),
    ("MILES", "MI"),
    ("MINUTES", "MIN"),
    ("NORTHBOUND", "NB"),
    ("PARKING", "PKNG"),
    ("PAVEMENT", "PVMT"),
    ("PEDESTRIANS", "PED"),
    ("PREPARE", "PREP"),
    ("ROADWORK", "RDWK"),
    ("ROUTE", "RTE"),
    ("SERVICE", "SERV"),
    ("SHOULDER", "SHLDR"),
    ("SLIPPERY", "SLIP"),
    ("SOUTHBOUND", "SB"),
    ("SPEED", "SPD"),
    ("STREET", "ST"),
    ("TEMPORARY", "TEMP"),
    ("TRAFFIC", "TRAF"),
    ("VEHICLES", "VEH"),
    ("WARNING", "WARN"),
    ("WESTBOUND", "WB"),
];

/// Whether a letter stands at an offset.
fn is_letter(text: &[u8], at: usize) -> bool {
    match text.get(at) {
        Some(octet) => octet.is_ascii_alphabetic(),
        None => false,
    }
}

/// The shorter form of the word that begins at an offset, and the word, if it has one.
fn short_at(text: &[u8], at: usize) -> Option<(&'static str, &'static str)> {
    for (word, short) in &SHORT {
        let end = at.saturating_add(word.len());
        if between(text, at, end).eq_ignore_ascii_case(word.as_bytes()) && !is_letter(text, end) {
            return Some((*word, *short));
        }
    }
    None
}

/// A message with the first word from an offset on that has a shorter form in that form.
pub(crate) fn shorten(
    alloc: Global,
    text: &[u8],
    from: usize,
) -> Result<Option<Vec<u8>>, AllocError> {
    let mut is_inside = false;
    for at in from..text.len() {
        if !is_inside {
            if let Some((word, short)) = short_at(text, at) {
                let end = at.saturating_add(word.len());
                return replaced(alloc, text, at, end, short.as_bytes());
            }
        }
        is_inside = is_letter(text, at);
    }
    Ok(None)
}
