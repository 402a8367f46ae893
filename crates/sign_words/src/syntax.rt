//! Why a text is no TOML, in words that help to mend it.

use crate::code::Code;
use crate::findings::{Finding, Findings};
use crate::part::Part;
use crate::strings::{line_end, line_start, mark_len, octet_at, text_end};
use std::alloc::{AllocError, Global};

/// What is open before an octet.
#[derive(Drop)]
struct Before {
    /// Where the brackets stand that are open.
    brackets: Vec<usize>,
    /// Where the text between quotes begins in which the octet is, if it is in one.
    text: Option<usize>,
}

/// What is open before a place in a text.
fn open_before(alloc: Global, octets: &[u8], end: usize) -> Result<Before, AllocError> {
    let mut brackets = Vec::new(alloc);
    let mut text = None;
    let mut next = mark_len(octets);
    for at in 0..end.min(octets.len()) {
        if at < next {
            continue;
        }
        next = at.saturating_add(1);
        match octet_at(octets, at) {
            b'"' | b'\'' => {
                next = text_end(octets, at);
                text = if next >= end { Some(at) } else { None };
            }
            b'#' => next = line_end(octets, at),
            b'[' | b'{' => brackets.push(at)?,
            b']' | b'}' => {
                let _ = brackets.pop();
            }
            _ => {}
        }
    }
    Ok(Before { brackets, text })
}

/// Whether an octet may stand in a word: a letter, a digit, `_`, `-`, `+` or a point.
fn is_of_word(octet: u8) -> bool {
    octet.is_ascii_alphanumeric() || matches!(octet, b'_' | b'-' | b'+' | b'.')
}

/// The octets of a word at a place.
fn word_at(octets: &[u8], at: usize) -> &[u8] {
    let rest = octets.get(at..).unwrap_or(b"");
    let len = rest.iter().take_while(|octet| is_of_word(**octet)).count();
    rest.get(..len).unwrap_or(b"")
}

/// The first octet of a line that is no blank: its place.
fn first_of_line(octets: &[u8], at: usize) -> usize {
    let start = line_start(octets, at);
    let line = octets.get(start..line_end(octets, start)).unwrap_or(b"");
    let blanks = line
        .iter()
        .take_while(|octet| **octet == b' ' || **octet == b'\t')
        .count();
    start.saturating_add(blanks)
}

/// Whether a name and `=` stand at a place.
fn is_key(octets: &[u8], at: usize) -> bool {
    let behind = at.saturating_add(word_at(octets, at).len());
    let rest = octets.get(behind..).unwrap_or(b"");
    let blanks = rest.iter().take_while(|octet| **octet == b' ').count();
    behind > at && octet_at(rest, blanks) == b'='
}

/// Whether a header stands at a place: brackets, a name and a closing bracket.
fn is_header(octets: &[u8], at: usize) -> bool {
    let rest = octets.get(at..).unwrap_or(b"");
    let brackets = rest.iter().take_while(|octet| **octet == b'[').count();
    let name = word_at(rest, brackets).len();
    brackets > 0 && name > 0 && octet_at(rest, brackets.saturating_add(name)) == b']'
}

/// Whether a closing brace stands in the line from a place on, and none before it opens.
fn closes_brace(octets: &[u8], at: usize) -> bool {
    let line = octets.get(at..line_end(octets, at)).unwrap_or(b"");
    let brace = line.iter().find(|octet| **octet == b'{' || **octet == b'}');
    brace == Some(&b'}')
}

/// Whether the line of a place begins as no line within brackets does: with a header, or with a key that isn't one of a table between
/// braces.
fn begins_anew(octets: &[u8], at: usize) -> bool {
    let first = first_of_line(octets, at);
    is_header(octets, first) || (is_key(octets, first) && !closes_brace(octets, first))
}

/// Whether one of these brackets is of a kind.
fn has_kind(octets: &[u8], brackets: &[usize], kind: u8) -> bool {
    brackets
        .iter()
        .any(|bracket| octet_at(octets, *bracket) == kind)
}

/// Whether a bracket at a place shows that the last of these isn't closed.
fn is_other(octets: &[u8], brackets: &[usize], last: usize, at: usize) -> bool {
    let octet = octet_at(octets, at);
    match octet_at(octets, last) {
        b'{' => octet == b'{' || octet == b']',
        _ => octet == b'}' && has_kind(octets, brackets, b'{'),
    }
}

/// Whether a bracket at a place closes none of these, which are open.
fn closes_none(octets: &[u8], brackets: &[usize], at: usize) -> bool {
    match octet_at(octets, at) {
        b']' => !has_kind(octets, brackets, b'['),
        b'}' => !has_kind(octets, brackets, b'{'),
        _ => false,
    }
}

/// The bracket that isn't closed, if that is what is wrong at a place: it is open where the text ends, before a bracket of another kind, or
/// where a line begins anew.
fn unclosed(octets: &[u8], brackets: &[usize], at: usize) -> Option<usize> {
    let rest = octets.get(at..).unwrap_or(b"");
    let last = *brackets.last()?;
    let is_end = rest.iter().all(|octet| octet.is_ascii_whitespace());
    if is_end || is_other(octets, brackets, last, at) {
        return Some(last);
    }
    let start = line_start(octets, at);
    let place = brackets.iter().rposition(|bracket| *bracket < start)?;
    let bracket = *brackets.get(place)?;
    if octet_at(octets, bracket) == b'[' && begins_anew(octets, at) {
        Some(bracket)
    } else {
        None
    }
}

/// Whether a word is one of these, in small or capital letters.
fn is_one_of(word: &[u8], words: &[&str]) -> bool {
    words
        .iter()
        .any(|known| word.eq_ignore_ascii_case(known.as_bytes()))
}

/// What stands in place of the kit's words where a word is no value.
fn of_word(word: &[u8]) -> &'static str {
    if is_one_of(word, &["true", "false"]) {
        return "no value; true and false are written in small letters";
    }
    if is_one_of(word, &["yes", "no", "on", "off"]) {
        return "no value; write true or false";
    }
    if is_one_of(word, &["null", "none", "nil"]) {
        return "no value; a key without a value is left out";
    }
    match (octet_at(word, 0), octet_at(word, 1)) {
        (b'0', second) if second.is_ascii_digit() => {
            "no value; a number has no 0 before its other digits, and a text stands between quotes"
        }
        (b'0', b'x' | b'X') => "no value; a number in hexadecimal digits begins with 0x",
        (first, _) if first.is_ascii_alphabetic() => "no value; a text stands between quotes",
        _ => "no value; a number stands alone, and a text between quotes",
    }
}

/// Whether curved quotes stand at a place, in UTF-8.
fn has_curved_quotes(octets: &[u8], at: usize) -> bool {
    let last = octet_at(octets, at.saturating_add(2));
    octet_at(octets, at) == 0xe2
        && octet_at(octets, at.saturating_add(1)) == 0x80
        && (0x98..=0x9f).contains(&last)
}

/// The same for the octets at which the text is wrong, where a value should stand.
fn of_value(octets: &[u8], at: usize) -> &'static str {
    if has_curved_quotes(octets, at) {
        return "curved quotes; a text stands between \" and \", or ' and '";
    }
    match octet_at(octets, at) {
        0 | b'\n' | b'\r' | b'#' => "no value stands after the =",
        b'(' => "no value; cells stand between [ and ], and each between { and }",
        b'=' | b'>' => "one = stands between a key and its value",
        b',' => "a value is missing before this comma",
        b'`' => "no value; a text stands between \" and \", or ' and '",
        _ if is_key(octets, at) => "no value; keys with their values stand between { and }",
        _ => of_word(word_at(octets, at)),
    }
}

/// What is told of a mark that a merge leaves where two files differ.
const MERGED: &str = "no key; a merge left this mark, and the lines of both files";

/// The same where a key or a header should stand.
fn of_key(octets: &[u8], at: usize) -> &'static str {
    match (octet_at(octets, at), octet_at(octets, at.saturating_add(1))) {
        (b'/' | b';' | b'-' | b'*', _) => "no key; a comment begins with #",
        (b'{', _) => "no key; a sign file is TOML, and not JSON",
        (b'<', b'<') => MERGED,
        (b'>', b'>') => MERGED,
        (b'=', b'=') => MERGED,
        (b'<', _) => "no key; a sign file is TOML, and not XML",
        (b'=', _) => "a key is missing before the =",
        (b',', _) => "a key is missing before this comma",
        (b'.', _) => "a name is missing before this dot",
        (b']', _) => "a name is missing before this bracket",
        (b'[', _) => "the brackets of a header stand together, as in [[font]]",
        _ => "no key; a line begins with a key, with [ or with #",
    }
}

/// The same where `=` should stand.
fn of_equals(octets: &[u8], at: usize) -> Option<&'static str> {
    if octets.starts_with(b"STARTFONT") {
        return Some("a font in BDF; 'signctl font' makes a table of it");
    }
    match octet_at(octets, at) {
        b':' => Some("write = in place of : between a key and its value"),
        b'{' => Some(
            "no = stands between a key and its value; a table begins with its name between [ and ]",
        ),
        _ => Some("no = stands between a key and its value"),
    }
}

/// The octet before a place.
fn octet_before(octets: &[u8], at: usize) -> u8 {
    octet_at(octets, at.saturating_sub(1))
}

/// The same where a line should end.
fn of_line_end(octets: &[u8], at: usize) -> Option<&'static str> {
    match octet_at(octets, at) {
        b',' | b';' => Some("no comma stands after a value; each key has a line of its own"),
        b'/' => Some("a comment begins with #"),
        first if first.is_ascii_alphanumeric() && octet_before(octets, at) == b'\'' => Some(
            "a text with ' stands between \" and \"",
        ),
        first if first.is_ascii_alphanumeric() && octet_before(octets, at) == b'"' => Some(
            "a text with \" stands between ' and '",
        ),
        _ => Some(
            "nothing but a comment stands after a value or a header; each key has a line of its own",
        ),
    }
}

/// What is told of an octet that may stand nowhere in a sign file, or only in a text.
fn of_octet(octets: &[u8], at: usize) -> Option<&'static str> {
    let octet = *octets.get(at)?;
    if octet == b'\r' && octet_at(octets, at.saturating_add(1)) != b'\n' {
        return Some("a carriage return alone ends no line; a line ends with a line feed");
    }
    if octet == 127 || (octet < 32 && !octet.is_ascii_whitespace()) {
        return Some("a control character stands here; no sign file has one");
    }
    if octet >= 128 && !has_curved_quotes(octets, at) {
        return Some("a sign that isn't ASCII, as a wide space or a dash, stands in texts alone");
    }
    None
}

/// What is told of a text that is wrong at a place, in place of the kit's words, if there is something that helps more.
fn hint(octets: &[u8], at: usize, words: &str) -> Option<&'static str> {
    if let Some(told) = of_octet(octets, at) {
        return Some(told);
    }
    if words.starts_with("unclosed table") && octet_at(octets, at).is_ascii_alphanumeric() {
        return Some("the name of a table has no spaces");
    }
    if words.starts_with("number out of range") {
        return Some("a number out of range; none has more than 18 digits");
    }
    if words.starts_with("invalid value") {
        return Some(of_value(octets, at));
    }
    if words.starts_with("invalid key") {
        return Some(of_key(octets, at));
    }
    if words.starts_with("key with no value") {
        return of_equals(octets, at);
    }
    if words.starts_with("unexpected key") {
        return of_line_end(octets, at);
    }
    if words.starts_with("invalid escape") {
        return Some("no escape; a text with \\ stands between ' and '");
    }
    if words.starts_with("duplicate key") {
        return Some("the key or the table stands twice");
    }
    if words.starts_with("cannot extend") {
        return Some("a part of the name is a value before, and no table");
    }
    None
}

/// What stands where a comma or a bracket is missing: the last octet before a place that is no blank.
fn end_before(octets: &[u8], at: usize) -> usize {
    let before = octets.get(..at).unwrap_or(octets);
    before
        .iter()
        .rposition(|octet| !octet.is_ascii_whitespace())
        .unwrap_or(at)
}

/// What is told of a text that is no TOML: the place at which the kit finds it, and what it says. The error says that memory was refused.
pub fn syntax_fault(
    found: &Findings,
    octets: &[u8],
    at: usize,
    words: &str,
) -> Result<Finding, AllocError> {
    let Before { brackets, text } = open_before(found.alloc, octets, at)?;
    let is_open = text.is_some() && of_octet(octets, at).is_none();
    if let (Some(from), true) = (text, is_open && words.starts_with("invalid string")) {
        let told = "a text begins here whose closing quotes are missing";
        return found.at_octet(Code::NotToml, octets, from, told, &[]);
    }
    if let Some(bracket) = unclosed(octets, &brackets, at) {
        let told = if octet_at(octets, bracket) == b'[' {
            "the bracket [ isn't closed"
        } else {
            "the bracket { isn't closed"
        };
        return found.at_octet(Code::NotToml, octets, bracket, told, &[]);
    }
    if closes_none(octets, &brackets, at) {
        let told = "no bracket is open that this one closes";
        return found.at_octet(Code::NotToml, octets, at, told, &[]);
    }
    if words.starts_with("missing comma") {
        let told = "a comma or a closing bracket is missing after this";
        let end = end_before(octets, at);
        return found.at_octet(Code::NotToml, octets, end, told, &[]);
    }
    let told = hint(octets, at, words).unwrap_or(words);
    found.at_octet(Code::NotToml, octets, at, "@", &[Part::Words(told)])
}
