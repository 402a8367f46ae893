//! The line of a message that goes up to an offset.

use crate::edit::{body_at, has_name, item_end};

/// What stands before an offset of a message, on its line (own).
#[derive(Clone, Copy)]
pub(crate) struct LineBefore {
    /// Where the tag begins that begins the line, if it is an 'nl'.
    pub(crate) break_at: Option<usize>,
    /// Where the line begins, after that tag.
    pub(crate) start: usize,
    /// Where its last space stands.
    pub(crate) space: Option<usize>,
    /// Whether it has a character.
    pub(crate) any: bool,
    /// Whether a font was chosen on it.
    pub(crate) has_font: bool,
    /// Whether the room between characters was set, on any line.
    pub(crate) has_spacing: bool,
    /// Where the last tag for a font stands, on any line.
    pub(crate) font_at: Option<usize>,
    /// Where the last tag for a justification stands, on any line.
    pub(crate) just_at: Option<usize>,
}

impl LineBefore {
    /// A line that begins at an offset, after a tag at another one.
    fn begin(&mut self, break_at: Option<usize>, start: usize) {
        self.break_at = break_at;
        self.start = start;
        self.space = None;
        self.any = false;
        self.has_font = false;
    }

    /// Takes a tag with this body.
    fn take_tag(&mut self, body: &[u8], at: usize, end: usize) {
        if has_name(body, b"nl") {
            self.begin(Some(at), end);
        } else if has_name(body, b"np") || has_name(body, b"tr") {
            self.begin(None, end);
        } else if has_name(body, b"fo") {
            self.font_at = Some(at);
            self.has_font = true;
        } else if has_name(body, b"sc") {
            self.has_spacing = true;
        } else if has_name(body, b"jl") || has_name(body, b"jp") {
            self.just_at = Some(at);
        }
    }

    /// Takes the item at an offset.
    fn take(&mut self, text: &[u8], at: usize, end: usize) {
        match body_at(text, at) {
            Some((body, _)) if !has_name(body, b"hc") => self.take_tag(body, at, end),
            _ => {
                self.any = true;
                if text.get(at) == Some(&b' ') {
                    self.space = Some(at);
                }
            }
        }
    }
}

/// The line that goes up to an offset.
pub(crate) fn line_before(text: &[u8], to: usize) -> LineBefore {
    let mut line = LineBefore {
        break_at: None,
        start: 0,
        space: None,
        any: false,
        has_font: false,
        has_spacing: false,
        font_at: None,
        just_at: None,
    };
    let mut at: usize = 0;
    for _octet in text {
        if at >= to {
            break;
        }
        let end = item_end(text, at);
        line.take(text, at, end);
        at = end;
    }
    line
}
