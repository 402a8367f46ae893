//! What is in force after some items of a message, as far as words tell it.

use crate::piece::{Piece, piece_at};
use multi_tag::{PageJust, Tag};
use sign_font::Sign;

/// What is in force after some items.
#[derive(Clone, Copy)]
pub(crate) struct Standing {
    /// The pages so far, the present one with them.
    pub(crate) pages: u32,
    /// Where the present area begins.
    pub(crate) area: usize,
    /// Where the present line begins, and the word at its end: after the last space of the line, or where the line begins.
    pub(crate) line: usize,
    pub(crate) word: usize,
    /// The number of the font.
    pub(crate) font: u8,
    pub(crate) line_just: u8,
    pub(crate) page_just: u8,
    /// The largest page justification of the characters and line ends of the area, and the largest line justification of the
    /// characters of the line; 0 where there is none.
    pub(crate) group: u8,
    pub(crate) segment: u8,
    /// The columns and rows of the rectangle.
    pub(crate) width: u32,
    pub(crate) height: u32,
}

/// The number of the space.
const SPACE: u16 = 32;

/// The pixels of a rectangle's side of a tag: its length, or all that remains.
fn side(whole: u16, first: u32, length: u32) -> u32 {
    if length == 0 {
        u32::from(whole).saturating_sub(first.saturating_sub(1))
    } else {
        length
    }
}

/// The number of the page justification of a tag.
fn page_just_of(sign: &Sign, just: Option<PageJust>) -> u8 {
    match just {
        Some(just) => just.number(),
        None => sign.defaults().page,
    }
}

impl Standing {
    /// What is in force before the first item.
    fn new(sign: &Sign) -> Standing {
        let defaults = sign.defaults();
        Standing {
            pages: 1,
            area: 0,
            line: 0,
            word: 0,
            font: defaults.font,
            line_just: defaults.line,
            page_just: defaults.page,
            group: 0,
            segment: 0,
            width: u32::from(sign.width()),
            height: u32::from(sign.height()),
        }
    }

    /// Begins a line at an offset.
    fn begin_line(&mut self, at: usize) {
        self.line = at;
        self.word = at;
        self.segment = 0;
    }

    /// Begins an area after an offset.
    fn begin_area(&mut self, behind: usize) {
        self.begin_line(behind);
        self.area = behind;
        self.group = 0;
    }

    /// Goes past characters that begin at an offset, with the offset after the last space of them.
    fn pass_characters(&mut self, at: usize, word: Option<usize>) {
        if self.page_just > self.group {
            self.begin_line(at);
        }
        self.group = self.page_just;
        self.segment = self.line_just;
        self.word = word.unwrap_or(self.word);
    }

    /// Goes past characters that aren't written by their numbers.
    fn pass_text(&mut self, text: &[u8], at: usize) {
        let mut word = None;
        let mut next = at;
        for octet in text {
            next = next.saturating_add(1);
            if *octet == b' ' {
                word = Some(next);
            }
        }
        self.pass_characters(at, word);
    }

    /// Goes past the end of a line.
    fn pass_break(&mut self, behind: usize) {
        self.begin_line(behind);
        self.group = self.page_just;
    }

    /// Goes past a tag that stands from one offset to another.
    fn pass_tag(&mut self, sign: &Sign, tag: Tag, at: usize, behind: usize) {
        match tag {
            Tag::NewPage => {
                self.begin_area(behind);
                self.pages = self.pages.saturating_add(1);
                self.width = u32::from(sign.width());
                self.height = u32::from(sign.height());
            }
            Tag::Rect { x, y, w, h } => {
                self.begin_area(behind);
                self.width = side(sign.width(), x, w);
                self.height = side(sign.height(), y, h);
            }
            Tag::NewLine(_) => self.pass_break(behind),
            Tag::HexChar(number) => self.pass_characters(at, (number == SPACE).then_some(behind)),
            _ => self.set(sign, tag),
        }
    }

    /// Takes the value that a tag sets.
    fn set(&mut self, sign: &Sign, tag: Tag) {
        let defaults = sign.defaults();
        match tag {
            Tag::LineJust(None) => self.line_just = defaults.line,
            Tag::LineJust(Some(just)) => self.line_just = just.number(),
            Tag::PageJust(just) => self.page_just = page_just_of(sign, just),
            Tag::Font(None) => self.font = defaults.font,
            Tag::Font(Some(pick)) => self.font = pick.number,
            _ => {}
        }
    }

    /// Where the line begins on which an item at this offset stands, or if lines are filled by words its word.
    pub(crate) fn line_of(&self, at: usize, is_filled: bool) -> usize {
        if self.page_just > self.group {
            at
        } else if is_filled {
            self.word
        } else {
            self.line
        }
    }
}

/// What is in force after the items of a message, or of its front.
pub(crate) fn standing_behind(sign: &Sign, message: &[u8]) -> Standing {
    let mut standing = Standing::new(sign);
    let mut at = 0;
    for _ in 0..message.len() {
        let Some((piece, behind)) = piece_at(message, at) else {
            return standing;
        };
        match piece {
            Piece::Text(text) => standing.pass_text(text, at),
            Piece::Tag(tag) => standing.pass_tag(sign, tag, at, behind),
            Piece::Unknown => {}
        }
        at = behind;
    }
    standing
}

/// The offset of the first space among characters that begin at an offset, if there is one.
fn space_in(text: &[u8], at: usize) -> Option<usize> {
    let mut next = at;
    for octet in text {
        if *octet == b' ' {
            return Some(next);
        }
        next = next.saturating_add(1);
    }
    None
}

/// A part of a message.
#[derive(Clone, Copy)]
pub(crate) enum Part {
    Area,
    Line,
    /// The characters of a line between two spaces.
    Word,
}

impl Part {
    /// Whether it ends before an item, which is in its group or not.
    fn ends_before(self, tag: Tag, is_in_group: bool) -> bool {
        match tag {
            Tag::NewPage | Tag::Rect { .. } => true,
            Tag::NewLine(_) => self != Part::Area,
            Tag::HexChar(number) => match self {
                Part::Area => false,
                Part::Line => !is_in_group,
                Part::Word => !is_in_group || number == SPACE,
            },
            _ => false,
        }
    }

    /// Where it ends among characters that begin at an offset, which are in its group or not, if it does.
    fn end_in(self, text: &[u8], at: usize, is_in_group: bool) -> Option<usize> {
        match self {
            Part::Area => None,
            _ if !is_in_group => Some(at),
            Part::Line => None,
            Part::Word => space_in(text, at),
        }
    }

    /// Where it ends at a piece that begins at an offset and is in its group or not, if it does.
    fn end_at(self, piece: Piece<'_>, at: usize, is_in_group: bool) -> Option<usize> {
        match piece {
            Piece::Text(text) => self.end_in(text, at, is_in_group),
            Piece::Tag(tag) => self.ends_before(tag, is_in_group).then_some(at),
            Piece::Unknown => None,
        }
    }

    /// Where it ends if it goes on at an offset, where the page justification of its group is in force; `None` if a broken bracket
    /// comes first.
    pub(crate) fn end(self, sign: &Sign, message: &[u8], from: usize, group: u8) -> Option<usize> {
        let mut at = from;
        let mut page_just = group;
        for _ in 0..message.len() {
            if at >= message.len() {
                return Some(at);
            }
            let (piece, behind) = piece_at(message, at)?;
            let end = self.end_at(piece, at, page_just == group);
            if end.is_some() {
                return end;
            }
            if let Piece::Tag(Tag::PageJust(just)) = piece {
                page_just = page_just_of(sign, just);
            }
            at = behind;
        }
        Some(at)
    }
}
