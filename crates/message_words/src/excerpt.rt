//! A message as a line, with a caret under a place.
ghost use Rattle.std.specs.Prelude.{◌≡◌, ◌≢◌, ◌-◌, ◌≤◌, All, IfOk, IfSome, length, nat_lt, take};

use crate::utf8::{encoded_at, is_shown};
use crate::words::MORE;
use std::alloc::{AllocError, Global};
use std::fmt;
use std::fmt::{Formatter, Write};

/// The most octets before the place, and the most characters in all, that are shown (own).
const BEFORE: usize = 60;

const MOST: usize = 76;

/// How what stands at an offset is shown, and where the next begins: a character in UTF-8 as itself, and as `?` if it isn't seen or if the
/// octet is of none.
fn shown_at(message: &[u8], at: usize) -> (char, usize) {
    match encoded_at(message, at) {
        Some(encoded) => {
            let character = if is_shown(encoded.character) {
                encoded.character
            } else {
                '?'
            };
            (character, at.saturating_add(encoded.count))
        }
        None => ('?', at.saturating_add(1)),
    }
}

/// The octets of a message that are shown and whether more stand after them, if each of these is shown as itself. All are looked at,
/// several at once.
#[inline(always)]
pub(crate) fn plain_line(message: &[u8]) -> Option<(&[u8], bool)>
    ensures shown { IfSome result (λ (front, more). (front.now ≡ take 76 message.now) × (more ≡ nat_lt 76 (length message.now))) }
    ensures plain { IfSome result (λ (front, more). All (λ c. c ≢ 10) front.now) }
{
    let front = &message[..MOST.min(message.len())];
    let (least, most) = reach(front);
    if least < b' ' || most > b'~' {
        return None;
    }
    Some((front, MOST < message.len()))
}

/// The least octet and the largest, or `~` and a space where none is less or larger.
fn reach(octets: &[u8]) -> (u8, u8)
    ensures { All (λ c. result.0 ≤ c) octets.now }
{
    let (mut least, mut most) = (b'~', b' ');
    for octet in octets {
        least = least.min(*octet);
        most = most.max(*octet);
    }
    (least, most)
}

/// Writes the first characters of a message.
pub(crate) fn write_message<W: Write>(f: &mut Formatter<W>, message: &[u8]) -> fmt::Result {
    let mut at = 0;
    for _ in 0..MOST {
        if at < message.len() {
            let (character, next) = shown_at(message, at);
            f.write_char(character)?;
            at = next;
        }
    }
    f.write_str(if message.len() > at { MORE } else { "" })
}

/// What is shown of a message around a place (own).
#[derive(Drop)]
pub struct Excerpt {
    /// The octet with which it begins, counted from 0.
    pub first: usize,
    /// Its characters.
    pub words: String,
    /// How many of them stand before the place.
    pub before: usize,
}

/// The characters of a message around a place.
pub(crate) fn excerpt_of(alloc: Global, message: &[u8], at: usize) -> Result<Excerpt, AllocError>
    ensures { IfOk result (λ excerpt. excerpt.first ≡ at - 60) }
{
    let first = at.saturating_sub(BEFORE);
    let mut words = String::new(alloc);
    let mut next = first;
    let mut before: usize = 0;
    for _ in 0..MOST {
        if next < message.len() {
            let (character, behind) = shown_at(message, next);
            words.push(character)?;
            if behind <= at {
                before = before.saturating_add(1);
            }
            next = behind;
        }
    }
    Ok(Excerpt {
        first,
        words,
        before,
    })
}
