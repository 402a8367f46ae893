//! The lines of a font in BDF, and their words.

ghost use Rattle.std.specs.Prelude.{◌≡◌, ◌<◌, ◌∷◌, length, IfOk, IfSome};
ghost use Rattle.std.specs.List.{position, slice_split};
ghost use Rattle.std.specs.Option.{option_copied};
ghost use Rattle.font_bdf.specs.Lines.{begins, is_blank, lines, word_at};
ghost use Rattle.font_bdf.specs.Parts.{parts_of, texts};

use std::alloc::{AllocError, Global};

/// Whether an octet stands between words: a space, a tab or a carriage return.
fn is_blank(octet: u8) -> bool
    ensures { result ≡ is_blank octet }
{
    octet == b' ' || octet == b'\t' || octet == b'\r'
}

/// The lines of a text.
#[tactic(auto, unfolding(crate::specs::Lines::lines))]
pub(crate) fn lines_of(alloc: Global, octets: &[u8]) -> Result<Vec<&[u8]>, AllocError>
    ensures { IfOk result (λ found. texts found.items ≡ lines octets.now) }
{
    octets.split(|octet| *octet == b'\n').collect(alloc)
}

/// Where the first blank of a text stands, counted from 0.
fn first_blank(text: &[u8]) -> Option<usize>
    ensures { result ≡ position is_blank text.now }
{
    text.iter().position(|octet| is_blank(*octet))
}

/// What stands before the first blank of a text, and what stands after it, where there is one.
#[tactic(auto, using(crate::proofs::WordLemmas::parted_some, crate::proofs::WordLemmas::parted_none))]
fn parted(text: &[u8]) -> (&[u8], Option<&[u8]>)
    ensures parts { slice_split is_blank text.now ≡ result.0.now ∷ parts_of (option_copied result.1) }
    ensures shorter { IfSome result.1 (λ rest. length rest.now < length text.now) }
{
    match first_blank(text) {
        Some(at) => (&text[..at], Some(&text[at + 1..])),
        None => (text, None),
    }
}

/// The word of a line at a place, counted from 0; empty where there is none.
pub(crate) fn word_at(line: &[u8], place: usize) -> &[u8]
    ensures { result.now ≡ word_at place line.now }
{
    let mut rest = Some(line);
    let mut left = place;
    while let Some(text) = rest {
        let (part, after) = parted(text);
        rest = after;
        if part.is_empty() {
            continue;
        }
        if left == 0 {
            return part;
        }
        left -= 1;
    }
    &[]
}

/// Whether a line begins with a word.
#[tactic(auto, unfolding(crate::specs::Lines::begins))]
pub(crate) fn begins(line: &[u8], word: &[u8]) -> bool
    ensures { result ≡ begins word.now line.now }
{
    word_at(line, 0) == word
}

/// Which of these lines is the first that begins with a word, counted from 0.
#[tactic(auto, using(crate::proofs::WordLemmas::position_texts))]
pub(crate) fn line_with(lines: &[&[u8]], word: &[u8]) -> Option<usize>
    ensures { result ≡ position (begins word.now) (texts lines.now) }
{
    lines.iter().position(|line| begins(line, word))
}

/// Which of these lines is the first that begins with a word, counted from 0; where none does, the one after the last.
pub(crate) fn place_with(lines: &[&[u8]], word: &[u8]) -> usize {
    match line_with(lines, word) {
        Some(place) => place,
        None => lines.len(),
    }
}
