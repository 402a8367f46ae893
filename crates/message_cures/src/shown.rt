//! The octets of a message, in tags and outside of them.

ghost use Rattle.std.specs.Prelude.{◌≡◌, ◌++◌, ◌∷◌, [], OnOk, IfOk};
ghost use Rattle.message_cures.specs.declared.shown.Change.TheVariants.{Letters, Lines};
ghost use Rattle.message_cures.specs.Shown.{behind_bracket, in_tag, in_text, is_closed, is_open, made, made_of, next_place};

use std::alloc::{AllocError, Global};

/// Where an octet of a message stands (own).
#[derive(Clone, Copy)]
pub(crate) enum Place {
    /// Outside of tags, where it is shown, or begins a tag.
    Text,
    /// Behind an opening bracket that it doubles.
    Second,
    /// In a tag, after its opening bracket.
    Tag,
}

/// What is made of the octets of a message (own).
#[derive(Clone, Copy)]
pub(crate) enum Change {
    /// The letters and digits that it shows, in small letters.
    Letters,
    /// The message in capitals.
    Capitals,
    /// The message in small letters.
    SmallLetters,
    /// The message in capitals, with each word on a line of its own.
    Lines,
}

/// Whether the first octet is an opening bracket.
fn is_open(octets: &[u8]) -> bool
    ensures { result ≡ is_open octets.now }
{
    match octets.first() {
        Some(octet) => *octet == b'[',
        None => false,
    }
}

/// Whether the first bracket is a closing one.
fn is_closed(octets: &[u8]) -> bool
    ensures { result ≡ is_closed octets.now }
{
    for octet in octets {
        if *octet == b']' {
            return true;
        }
        if *octet == b'[' {
            return false;
        }
    }
    false
}

/// Where the octet after an opening bracket stands.
fn behind_bracket(octets: &[u8]) -> Place
    ensures { result ≡ behind_bracket octets.now }
{
    if is_open(octets) {
        Place::Second
    } else if is_closed(octets) {
        Place::Tag
    } else {
        Place::Text
    }
}

/// Where the octet after one at a place stands.
fn next_place(place: Place, octet: u8, octets: &[u8]) -> Place
    ensures { result ≡ next_place place octet octets.now }
{
    match place {
        Place::Text => {
            if octet == b'[' {
                behind_bracket(octets)
            } else {
                Place::Text
            }
        }
        Place::Second => Place::Text,
        Place::Tag => {
            if octet == b']' {
                Place::Text
            } else {
                Place::Tag
            }
        }
    }
}

/// Appends an octet.
fn push_octet(out: &mut Vec<u8>, octet: u8) -> Result<(), AllocError>
    ensures { OnOk result (out.new.items ≡ out.old.items ++ octet ∷ []) }
{
    out.push(octet)?;
    Ok(())
}

/// Appends what is made of an octet of a tag.
fn push_in_tag(out: &mut Vec<u8>, change: Change, octet: u8) -> Result<(), AllocError>
    ensures { OnOk result (out.new.items ≡ out.old.items ++ in_tag change octet) }
{
    match change {
        Change::Letters => Ok(()),
        Change::Capitals | Change::SmallLetters | Change::Lines => push_octet(out, octet),
    }
}

/// Appends a letter or a digit as a small letter, and nothing else.
fn push_letter(out: &mut Vec<u8>, octet: u8) -> Result<(), AllocError>
    ensures { OnOk result (out.new.items ≡ out.old.items ++ in_text Letters octet) }
{
    if octet.is_ascii_alphanumeric() {
        push_octet(out, octet.to_ascii_lowercase())
    } else {
        Ok(())
    }
}

/// Appends a capital, or a line break in place of a space.
fn push_in_line(out: &mut Vec<u8>, octet: u8) -> Result<(), AllocError>
    ensures { OnOk result (out.new.items ≡ out.old.items ++ in_text Lines octet) }
{
    if octet == b' ' {
        out.extend_from_slice(b"[nl]")
    } else {
        push_octet(out, octet.to_ascii_uppercase())
    }
}

/// Appends what is made of an octet outside of tags.
fn push_in_text(out: &mut Vec<u8>, change: Change, octet: u8) -> Result<(), AllocError>
    ensures { OnOk result (out.new.items ≡ out.old.items ++ in_text change octet) }
{
    match change {
        Change::Letters => push_letter(out, octet),
        Change::Capitals => push_octet(out, octet.to_ascii_uppercase()),
        Change::SmallLetters => push_octet(out, octet.to_ascii_lowercase()),
        Change::Lines => push_in_line(out, octet),
    }
}

/// Appends what is made of an octet at a place.
fn push_made(out: &mut Vec<u8>, change: Change, place: Place, octet: u8) -> Result<(), AllocError>
    ensures { OnOk result (out.new.items ≡ out.old.items ++ made_of change place octet) }
{
    match place {
        Place::Text | Place::Second => push_in_text(out, change, octet),
        Place::Tag => push_in_tag(out, change, octet),
    }
}

/// What is made of a message. The error says that memory was refused.
pub(crate) fn made_of(alloc: Global, change: Change, text: &[u8]) -> Result<Vec<u8>, AllocError>
    ensures { IfOk result (λ out. out.items ≡ made change text.now) }
{
    let mut out = Vec::new(alloc);
    let mut place = Place::Text;
    for (at, octet) in text.iter().enumerate() {
        push_made(&mut out, change, place, *octet)?;
        place = next_place(place, *octet, &text[at + 1..]);
    }
    Ok(out)
}
