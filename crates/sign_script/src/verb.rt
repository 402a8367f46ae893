//! The words that lines begin with, and the names of the defaults.

ghost use Rattle.std.specs.Prelude.{◌≡◌, ◌≢◌, ◌++◌, ℕ, List, IfNone, IfSome, option_map, slice_index_or, true};
ghost use Rattle.sign_script.specs.Fields.{is_ended, left, parted};
ghost use Rattle.std.specs.List.{find};
ghost use Rattle.std.specs.Str.{bytes_eq};
ghost use Rattle.sign_script.specs.Verbs.{field_of, name, verb_of, word};
ghost use Rattle.sign_script.specs.internal.Likely.{likely};

use crate::fields::is_ended;
use sign_control::DefaultField;

/// The word that a line begins with (own).
#[derive(Clone, Copy)]
pub(crate) enum Verb {
    Request,
    Multi,
    MultiHex,
    Owner,
    Priority,
    Beacon,
    Pixel,
    Clear,
    Work,
    Activate,
    End,
    Tick,
    Frame,
    Row,
    Report,
    Default,
    Defaults,
}

/// What follows a word at the front of a line. It is compared octet by octet with a word that is known, for speed.
#[inline(always)]
fn after<'a>(word: &[u8], line: &'a [u8]) -> Option<&'a [u8]>
    ensures some { IfSome result (λ rest. line.now ≡ word.now ++ rest.now) }
    ensures none { IfNone result ((rest : List ℕ) → line.now ≢ word.now ++ rest) }
{
    if line.len() < word.len() {
        return None;
    }
    for index in 0..word.len() {
        if line[index] != word[index] {
            return None;
        }
    }
    Some(&line[word.len()..])
}

/// What follows a word that is the first field of a line. It is part of the call, so that each word's rest goes straight to what the word
/// asks for.
#[inline(always)]
fn field_after<'a>(word: &[u8], line: &'a [u8]) -> Option<&'a [u8]>
    ensures some { IfSome result (λ rest. (line.now ≡ word.now ++ rest.now) × (is_ended rest.now ≡ true)) }
    ensures none { IfNone result ((rest : List ℕ) → is_ended rest ≡ true → line.now ≢ word.now ++ rest) }
{
    let rest = after(word, line)?;
    if is_ended(rest) { Some(rest) } else { None }
}

/// What follows the word of a verb that is the first field of a line.
fn after_verb(verb: Verb, line: &[u8]) -> Option<&[u8]>
    ensures some { IfSome result (λ rest. (line.now ≡ word verb ++ rest.now) × (is_ended rest.now ≡ true)) }
    ensures none { IfNone result ((rest : List ℕ) → is_ended rest ≡ true → line.now ≢ word verb ++ rest) }
{
    match verb {
        Verb::Request => field_after(b"request", line),
        Verb::Multi => field_after(b"multi", line),
        Verb::MultiHex => field_after(b"multix", line),
        Verb::Owner => field_after(b"owner", line),
        Verb::Priority => field_after(b"priority", line),
        Verb::Beacon => field_after(b"beacon", line),
        Verb::Pixel => field_after(b"pixel", line),
        Verb::Clear => field_after(b"clear", line),
        Verb::Work => field_after(b"work", line),
        Verb::Activate => field_after(b"activate", line),
        Verb::End => field_after(b"end", line),
        Verb::Tick => field_after(b"tick", line),
        Verb::Frame => field_after(b"frame", line),
        Verb::Row => field_after(b"row", line),
        Verb::Report => field_after(b"report", line),
        Verb::Default => field_after(b"default", line),
        Verb::Defaults => field_after(b"defaults", line),
    }
}

/// The octet at an index of a line, or 0 past its end.
fn octet_at(line: &[u8], index: usize) -> u8
    ensures { result ≡ slice_index_or line.now index 0 }
{
    match line.get(index) {
        Some(octet) => *octet,
        None => 0,
    }
}

/// The one verb whose word may stand at the front of a line, by the octets that tell words apart.
fn likely(line: &[u8]) -> Option<Verb>
    ensures { result ≡ likely line.now }
{
    match (octet_at(line, 0), octet_at(line, 2)) {
        (b'r', b'q') => Some(Verb::Request),
        (b'm', _) if octet_at(line, 5) == b'x' => Some(Verb::MultiHex),
        (b'm', _) => Some(Verb::Multi),
        (b'o', _) => Some(Verb::Owner),
        (b'p', b'i') => Some(Verb::Priority),
        (b'b', _) => Some(Verb::Beacon),
        (b'p', b'x') => Some(Verb::Pixel),
        (b'c', _) => Some(Verb::Clear),
        (b'w', _) => Some(Verb::Work),
        (b'a', _) => Some(Verb::Activate),
        (b'e', _) => Some(Verb::End),
        (b't', _) => Some(Verb::Tick),
        (b'f', _) => Some(Verb::Frame),
        (b'r', b'w') => Some(Verb::Row),
        (b'r', b'p') => Some(Verb::Report),
        (b'd', _) if octet_at(line, 7) == b's' => Some(Verb::Defaults),
        (b'd', _) => Some(Verb::Default),
        _ => None,
    }
}

impl Verb {
    /// The verb that is the first field of a line, and what is left from the space on that ends it.
    pub(crate) fn begin(line: &[u8]) -> Option<(Verb, &[u8])>
        ensures verb { option_map (λ found. found.0) result ≡ verb_of (parted line.now).field }
        ensures rest { IfSome result (λ found. left found.1.now ≡ (parted line.now).rest) }
    {
        let verb = likely(line)?;
        let rest = after_verb(verb, line)?;
        Some((verb, rest))
    }
}

const FIELDS: [DefaultField; 9] = [
    DefaultField::Font,
    DefaultField::Line,
    DefaultField::Page,
    DefaultField::PageOn,
    DefaultField::PageOff,
    DefaultField::FlashOn,
    DefaultField::FlashOff,
    DefaultField::Fore,
    DefaultField::Back,
];

/// The name of a default, as sign files write it.
fn name(field: DefaultField) -> &'static [u8]
    ensures { result.now ≡ name field }
{
    match field {
        DefaultField::Font => b"font",
        DefaultField::Line => b"line",
        DefaultField::Page => b"page",
        DefaultField::PageOn => b"page_on",
        DefaultField::PageOff => b"page_off",
        DefaultField::FlashOn => b"flash_on",
        DefaultField::FlashOff => b"flash_off",
        DefaultField::Fore => b"fore",
        DefaultField::Back => b"back",
    }
}

/// The first of these defaults that has this name.
fn first_named(fields: &[DefaultField], text: &[u8]) -> Option<DefaultField>
    ensures { result ≡ find (λ field. bytes_eq text.now (name field)) fields.now }
{
    fields.iter().copied().find(|field| text == name(*field))
}

/// The default of a name.
#[tactic(auto, unfolding(crate::specs::Verbs::field_of))]
pub(crate) fn field_of(text: &[u8]) -> Option<DefaultField>
    ensures { result ≡ field_of text.now }
{
    first_named(&FIELDS, text)
}
