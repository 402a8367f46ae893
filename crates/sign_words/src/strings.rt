//! Texts and comments of TOML, whose octets mean nothing else.

/// The octet at a place, or 0 after the last.
pub(crate) fn octet_at(octets: &[u8], at: usize) -> u8 {
    octets.get(at).copied().unwrap_or(0)
}

/// Where the line ends in which a place is: its line feed, or the end.
pub(crate) fn line_end(octets: &[u8], at: usize) -> usize {
    for place in at..octets.len() {
        if octet_at(octets, place) == b'\n' {
            return place;
        }
    }
    octets.len()
}

/// Where the line begins in which a place is.
pub(crate) fn line_start(octets: &[u8], at: usize) -> usize {
    let before = octets.get(..at).unwrap_or(octets);
    match before.iter().rposition(|octet| *octet == b'\n') {
        Some(place) => place.saturating_add(1),
        None => 0,
    }
}

/// Whether three quotes stand at a place.
fn is_long(octets: &[u8], at: usize) -> bool {
    let quote = octet_at(octets, at);
    octet_at(octets, at.saturating_add(1)) == quote
        && octet_at(octets, at.saturating_add(2)) == quote
}

/// Whether a text between these quotes has escapes.
fn escapes(quote: u8, octet: u8) -> bool {
    octet == b'\\' && quote == b'"'
}

/// Where a text on one line ends that begins at a place: after its second quote, or at the end of the line if it has none.
fn short_end(octets: &[u8], at: usize) -> usize {
    let quote = octet_at(octets, at);
    let mut is_escaped = false;
    for place in at.saturating_add(1)..octets.len() {
        let octet = octet_at(octets, place);
        if octet == b'\n' {
            return place;
        }
        if octet == quote && !is_escaped {
            return place.saturating_add(1);
        }
        is_escaped = escapes(quote, octet) && !is_escaped;
    }
    octets.len()
}

/// Where a text of several lines ends that begins at a place: after its last quotes, or at the end if it has none.
fn long_end(octets: &[u8], at: usize) -> usize {
    let quote = octet_at(octets, at);
    let mut is_escaped = false;
    let mut quotes: u8 = 0;
    for place in at.saturating_add(3)..octets.len() {
        let octet = octet_at(octets, place);
        let is_quote = octet == quote && !is_escaped;
        if quotes > 2 && !is_quote {
            return place;
        }
        quotes = if is_quote {
            quotes.saturating_add(1)
        } else {
            0
        };
        is_escaped = escapes(quote, octet) && !is_escaped;
    }
    octets.len()
}

/// Where the text ends whose first quote stands at a place.
pub(crate) fn text_end(octets: &[u8], at: usize) -> usize {
    if is_long(octets, at) {
        long_end(octets, at)
    } else {
        short_end(octets, at)
    }
}

/// How many octets stand at the front that only say how the others are ordered.
pub(crate) fn mark_len(octets: &[u8]) -> usize {
    if octets.starts_with(b"\xef\xbb\xbf") {
        3
    } else {
        0
    }
}
