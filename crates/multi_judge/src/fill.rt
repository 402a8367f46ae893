//! Lines that are filled by words: the open line is broken at its last space, which is dropped.

ghost use Rattle.std.specs.Prelude.{◌≡◌, ℕ, ◌+◌, ◌^◌, true};
ghost use Rattle.multi_judge.specs.Prelude.{FillsGroup, GoesOnBehind, character_of, IsBehindOne, IsOpenAround, IsMost};

use crate::area::Group;
use crate::attributes::Attributes;
use crate::line::{Line, room_for};
use sign_font::FontInfo;

/// The parts of the open line around its last space.
#[derive(Clone, Copy)]
pub(crate) struct Split {
    /// The characters before the space.
    pub(crate) before: Line,
    /// The space's font.
    pub(crate) font: FontInfo,
    /// The characters after the space.
    pub(crate) behind: Line,
}

impl Group {
    /// Adds a character with these attributes, whose cell has this width in pixels, where lines are filled. Where it doesn't fit the
    /// present line, the line is ended: before the character, a space that is dropped, or else at its last space. Without one it stays,
    /// and doesn't fit. The parts are those of the present line around its last space, and then those of the new present line, and so is
    /// the most that its present segment may have. The answer is the line that is ended, if one is.
    #[inline(always)]
    pub(crate) fn fill_character(
        &mut self,
        here: &Attributes,
        cell_width: u8,
        space: bool,
        split: &mut Option<Split>,
        most: &mut u32,
    ) -> Option<Line>
        requires open { IsOpenAround here.now.line_just self.old.line split.old }
        ensures sum { IsMost here.now.rectangle.width self.old.line most.old
            → FillsGroup here.now.rectangle.width self.old split.old (character_of here.now cell_width) space self.new split.new result }
        ensures most { IsMost here.now.rectangle.width self.old.line most.old → IsMost here.now.rectangle.width self.new.line most.new }
        ensures behind { self.new.line.any ≡ true → IsBehindOne here.now.line_just here.now.font self.new.line }
        ensures goes_on { GoesOnBehind here.now.line_just here.now.font split.new }
    {
        let before = self.line;
        self.line.put(here, cell_width, most);
        if self.line.part.width <= *most {
            if space {
                *split = Some(Split {
                    before,
                    font: here.font,
                    behind: Line::default(),
                });
            } else if let Some(parts) = split {
                parts.behind.add(here, cell_width);
            }
            return None;
        }
        if space {
            self.line = before;
            self.add_break(None, &here.font);
            *split = None;
            return Some(before);
        }
        let parts = (*split)?;
        self.line = parts.before;
        self.add_break(None, &parts.font);
        let mut line = parts.behind;
        line.add(here, cell_width);
        *most = room_for(line.present, line.left, line.centre, here.rectangle.width);
        self.line = line;
        *split = None;
        Some(parts.before)
    }
}
