//! Which spaces of a message take room at the ends of its lines.
ghost use Rattle.std.specs.Prelude.{◌≡◌, ◌++◌, ◌∷◌, [], IfOk, List, None, OnOk, false, true};
ghost use Rattle.std.specs.List.{cons_option, filter_map};
ghost use Rattle.message_words.specs.OnLines.{ends_line, is_character, just_set, line_texts, moved_by, moving_spaces, text_after, with_character};
ghost use Rattle.message_words.specs.declared.said.Said.{Said};

use crate::items::is_letter;
use crate::said::Said;
use multi_tag::Tag;
use sign_font::Defaults;
use std::alloc::{AllocError, Global};

/// The number of left justification (NTCIP 1203 v03, MULTI tag 'jl').
const LEFT: u8 = 2;

/// The number of right justification (NTCIP 1203 v03, MULTI tag 'jl').
const RIGHT: u8 = 4;

/// A line of a message (own).
#[derive(Clone, Copy)]
pub(crate) struct LineText {
    /// Where the space stands with which it begins, if it does.
    pub(crate) lead: Option<usize>,
    /// Where the first of the spaces stands with which it ends, if it has other characters.
    pub(crate) trail: Option<usize>,
    /// Whether it has no character.
    pub(crate) is_empty: bool,
    /// Whether it has a character that is no space.
    pub(crate) has_letters: bool,
    /// The number of its justification.
    pub(crate) just: u8,
}

/// Whether an item ends a line.
fn ends_line(tag: Option<Tag>) -> bool
    ensures { result ≡ ends_line tag }
{
    match tag {
        Some(Tag::NewPage | Tag::NewLine(_) | Tag::Rect { .. }) => true,
        _ => false,
    }
}

/// Whether an item shows a character.
fn is_character(tag: Option<Tag>) -> bool
    ensures { result ≡ is_character tag }
{
    match tag {
        Some(Tag::HexChar(_)) => true,
        _ => false,
    }
}

/// The number of the justification that an item sets, if it sets one.
fn just_set(defaults: Defaults, tag: Option<Tag>) -> Option<u8>
    ensures { result ≡ just_set defaults tag }
{
    match tag {
        Some(Tag::LineJust(None)) => Some(defaults.line),
        Some(Tag::LineJust(Some(just))) => Some(just.number()),
        _ => None,
    }
}

/// A line without characters.
fn empty_line(just: u8) -> LineText
    ensures { result ≡ record { lead = None; trail = None; is_empty = true; has_letters = false; just = just } }
{
    LineText {
        lead: None,
        trail: None,
        is_empty: true,
        has_letters: false,
        just,
    }
}

impl LineText {
    /// The line with one more character: a letter, or a space.
    fn with_character(self, letter: bool, at: usize) -> LineText
        ensures { result ≡ with_character self letter at }
    {
        LineText {
            lead: if self.is_empty && !letter {
                Some(at)
            } else {
                self.lead
            },
            trail: if letter || !self.has_letters {
                None
            } else {
                Some(self.trail.unwrap_or(at))
            },
            is_empty: false,
            has_letters: self.has_letters || letter,
            just: self.just,
        }
    }

    /// The line on which items end, with one more item.
    fn with_item(self, defaults: Defaults, one: &Said) -> LineText
        ensures { (before : List Said) → self ≡ text_after defaults before → result ≡ text_after defaults (before ++ one.now ∷ []) }
    {
        let just = just_set(defaults, one.tag).unwrap_or(self.just);
        if ends_line(one.tag) {
            return empty_line(just);
        }
        let line = LineText { just, ..self };
        if is_character(one.tag) {
            return line.with_character(is_letter(one.tag), one.at);
        }
        line
    }

    /// The space with which it begins, or the first of those with which it ends, if that moves it.
    fn moved_by(self, at_end: bool) -> Option<usize>
        ensures { result ≡ moved_by at_end self }
    {
        if at_end {
            return if self.just > LEFT { self.trail } else { None };
        }
        if self.has_letters && self.just != RIGHT {
            self.lead
        } else {
            None
        }
    }
}

/// Adds a place, if there is one. The error says that memory was refused.
fn add_some(places: &mut Vec<usize>, place: Option<usize>) -> Result<(), AllocError>
    ensures { OnOk result (places.new.items ≡ places.old.items ++ cons_option place []) }
{
    if let Some(at) = place {
        places.push(at)?;
    }
    Ok(())
}

/// The lines of a message, the items of which say this. The error says that memory was refused.
fn line_texts(alloc: Global, defaults: Defaults, said: &[Said]) -> Result<Vec<LineText>, AllocError>
    ensures { IfOk result (λ lines. lines.items ≡ line_texts defaults said.now) }
{
    let mut lines = Vec::new(alloc);
    let mut here = empty_line(defaults.line);
    for one in said {
        if ends_line(one.tag) {
            lines.push(here)?;
        }
        here = here.with_item(defaults, one);
    }
    lines.push(here)?;
    Ok(lines)
}

/// Where spaces at the beginnings of these lines move them, or those at their ends. The error says that memory was refused.
fn moved_places(alloc: Global, at_end: bool, lines: &[LineText]) -> Result<Vec<usize>, AllocError>
    ensures { IfOk result (λ places. places.items ≡ filter_map (moved_by at_end) lines.now) }
{
    let mut places = Vec::new(alloc);
    for line in lines {
        add_some(&mut places, line.moved_by(at_end))?;
    }
    Ok(places)
}

/// Where spaces at the beginnings of lines move them, or those at their ends. The error says that memory was refused.
pub(crate) fn moving_spaces(
    alloc: Global,
    at_end: bool,
    defaults: Defaults,
    said: &[Said],
) -> Result<Vec<usize>, AllocError>
    ensures { IfOk result (λ places. places.items ≡ moving_spaces at_end defaults said.now) }
{
    let lines = line_texts(alloc, defaults, said)?;
    moved_places(alloc, at_end, &lines)
}
