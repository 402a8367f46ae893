//! The running sums of a line's characters: widths saturate, and a count begins again after its last number.

ghost use Rattle.std.specs.Prelude.{◌≡◌, ℕ, ◌+◌, ◌^◌, ◌<◌, ◌≤◌, true, false, not, Some, List, [], ◌∷◌, ◌++◌};
ghost use Rattle.multi_judge.specs.Prelude.{AllPass, list_any, unwrap_or, line_number, Spot, is_glyph, room_for, average, clashes, IsSameBefore, PutsCharacter, IsBehindOne, IsOpen, kept_width, IsMost, line_sum, IsCharacter, character_of, TellsClash};

use crate::attributes::Attributes;

/// The characters of a line with one line justification.
#[derive(Clone, Copy, Default)]
pub(crate) struct Segment {
    /// Their width in pixels, with the gaps between them.
    pub(crate) width: u32,
    /// How many there are.
    pub(crate) count: u64,
    /// The character spacing of the last one's font, in pixels, if there is one.
    pub(crate) last: Option<u8>,
}

/// The characters of a line. Line justifications don't go back on a line, so only one segment grows, and of those before it
/// only the widths are kept.
#[derive(Clone, Copy, Default)]
pub struct Line {
    /// The line justification of the present segment, the largest so far; 0 where there is no character.
    pub(crate) present: u8,
    /// The widths in pixels of the segments before the present one.
    pub(crate) left: u32,
    pub(crate) centre: u32,
    pub(crate) right: u32,
    /// The present segment.
    pub(crate) part: Segment,
    /// Whether a character isn't full.
    pub(crate) has_parts: bool,
    /// The height of the tallest font, in pixels; 0 where there is no character.
    pub(crate) height: u8,
    /// The largest line spacing of the fonts, in pixels; 0 where there is no character.
    pub(crate) spacing: u8,
    /// Whether there is a character.
    pub any: bool,
}

impl Line {
    /// Adds a character with these attributes, whose cell has this width in pixels and whose line justification isn't before that of an
    /// earlier one.
    #[inline(always)]
    pub(crate) fn add(&mut self, here: &Attributes, cell_width: u8)
        ensures sum { (line : List Spot) (s : Spot) → AllPass is_glyph line → IsCharacter s (character_of here.now cell_width)
            → self.old ≡ line_sum line → list_any (clashes s) line ≡ false → self.new ≡ line_sum (line ++ s ∷ []) }
        ensures behind { (self.old.any ≡ true → IsOpen here.now.line_just self.old)
            → IsBehindOne here.now.line_just here.now.font self.new }
        ensures before { self.old.any ≡ false → (self.new.left ≡ 0) × (self.new.centre ≡ 0) }
        ensures same { self.old.any ≡ true → line_number here.now.line_just ≡ self.old.present → IsSameBefore self.old self.new }
    {
        let just = here.line_just.number();
        let spacing = here.font.char_spacing;
        if !self.any {
            (self.present, self.left, self.centre) = (just, 0, 0);
            self.part.width = u32::from(cell_width);
            self.part.count = 1;
            self.part.last = Some(spacing);
            self.has_parts = just < 5;
            self.height = here.font.height;
            self.spacing = here.font.line_spacing;
            self.any = true;
            return;
        }
        if just > self.present {
            let (before, width) = (self.present, self.part.width);
            self.part = Segment::default();
            self.present = just;
            match before {
                2 => self.left = width,
                3 => self.centre = width,
                4 => self.right = width,
                _ => {}
            }
        }
        let gap = match self.part.last {
            Some(earlier) => gap_or_average(here.spacing, earlier, spacing),
            None => 0,
        };
        let more = u32::from(gap) + u32::from(cell_width);
        self.part.width = self.part.width.saturating_add(more);
        self.part.count = self.part.count.wrapping_add(1);
        self.part.last = Some(spacing);
        self.has_parts |= just < 5;
        self.height = self.height.max(here.font.height);
        self.spacing = self.spacing.max(here.font.line_spacing);
    }

    /// Puts a character with these attributes, whose cell has this width in pixels, on the line, and works out the most that the present
    /// segment may have then. If it clashes, nothing changes, and the answer is false.
    #[inline(always)]
    pub(crate) fn put(&mut self, here: &Attributes, cell_width: u8, most: &mut u32) -> bool
        ensures apart { TellsClash here.now.line_just self.old (not result) }
        ensures open { (self.old.any ≡ true → IsOpen here.now.line_just self.old) → result ≡ true }
        ensures put { result ≡ true → PutsCharacter self.old (character_of here.now cell_width) self.new }
        ensures most { IsMost here.now.rectangle.width self.old most.old → IsMost here.now.rectangle.width self.new most.new }
    {
        if !self.any {
            self.add(here, cell_width);
            *most = u32::from(here.rectangle.width);
            return true;
        }
        let just = here.line_just.number();
        // its segment is before that of an earlier one, or one of them is full and the other isn't
        if (just < self.present) | ((just == 5) & self.has_parts) {
            return false;
        }
        let stays = just == self.present;
        self.add(here, cell_width);
        if !stays {
            *most = room_for(self.present, self.left, self.centre, here.rectangle.width);
        }
        true
    }

    /// The width of the characters with a line justification, in pixels: left 2, centre 3, right 4, full 5.
    pub(crate) fn width(&self, just: u8) -> u32
        ensures { result ≡ kept_width just self.now }
    {
        match just {
            _ if just == self.present => self.part.width,
            2 => self.left,
            3 => self.centre,
            4 => self.right,
            _ => 0,
        }
    }
}

/// The pixels between two things: the number that is given, else the average of their spacings, rounded up.
pub(crate) fn gap_or_average(given: Option<u8>, earlier: u8, later: u8) -> u8
    ensures { result ≡ unwrap_or given (average earlier later) }
{
    given.unwrap_or(((u16::from(earlier) + u16::from(later) + 1) / 2) as u8)
}

/// The most that a part may have within a length into which those before it fit: in the middle 3, at the end 4, else at the start or alone.
pub(crate) fn room_for(just: u8, start: u32, middle: u32, length: u16) -> u32
    ensures room { result ≡ room_for just start middle length }
{
    let length = u32::from(length);
    if (start == 0) & (middle == 0) {
        return length;
    }
    match just {
        3 => length.saturating_sub(start).saturating_sub(start),
        4 if middle == 0 => length.saturating_sub(start),
        4 => {
            let rest = length.saturating_sub(middle);
            rest - rest / 2
        }
        _ => length,
    }
}
