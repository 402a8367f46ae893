//! The running sums of an area's groups: heights saturate, and a count begins again after its last number.

ghost use Rattle.std.specs.Prelude.{◌≡◌, ◌≢◌, ℕ, ◌+◌, ◌^◌, ◌<◌, ◌≤◌, ◌&&◌, true, false, List, [], ◌∷◌, ◌++◌};
ghost use Rattle.multi_judge.specs.Prelude.{All, page_number, Spot, in_group, lines_of, held, height_of, IsPlacing, ReachesGroup, kept_height, group_sum, area_sum, IsBreak};

use crate::attributes::Attributes;
use crate::line::{Line, gap_or_average, room_for};
use multi_tag::PageJust;
use sign_font::FontInfo;

/// The last line that an `nl` ended.
#[derive(Clone, Copy)]
pub(crate) struct Ended {
    /// The gap that its `nl` gave, in pixels, if it gave one.
    pub(crate) gap: Option<u8>,
    /// The line's spacing, in pixels.
    pub(crate) spacing: u8,
}

/// The placing items of an area with one page justification.
#[derive(Clone, Copy, Default)]
pub struct Group {
    /// How many lines an `nl` ended.
    pub(crate) ended: u64,
    /// The height of the ended lines in pixels, with the gaps between them.
    pub closed: u32,
    /// The last ended line, if there is one.
    pub(crate) last: Option<Ended>,
    /// What stands after the last `nl`.
    pub line: Line,
}

/// The placing items of an area. Page justifications don't go back in an area, so only one group grows, and of those before it
/// only the heights are kept.
#[derive(Clone, Copy, Default)]
pub struct Area {
    /// The page justification of the present group, the largest so far; 0 where there is no item.
    pub present: u8,
    /// The heights in pixels of the groups before the present one.
    pub(crate) top: u32,
    pub(crate) middle: u32,
    /// The present group.
    pub group: Group,
}

impl Group {
    /// Adds an `nl` of this group.
    #[inline(always)]
    pub(crate) fn add_break(&mut self, gap: Option<u8>, font: &FontInfo)
        ensures sum { (group : List Spot) (s : Spot) → All IsPlacing group → self.old ≡ group_sum group → IsBreak s gap font.now
            → self.new ≡ group_sum (group ++ s ∷ []) }
        ensures none { self.new.line.any ≡ false }
    {
        if !self.line.any {
            // a line without a character is as high as the font in force
            self.line.height = font.height;
            self.line.spacing = font.line_spacing;
            self.line.any = true;
        }
        self.closed = self.height();
        self.ended = self.ended.wrapping_add(1);
        self.last = Some(Ended {
            gap,
            spacing: self.line.spacing,
        });
        self.line = Line::default();
    }

    /// The height of the group's lines in pixels, with the gaps between them.
    #[inline(always)]
    pub fn height(self) -> u32
        ensures sum { (group : List Spot) → All IsPlacing group → self ≡ group_sum group
            → result ≡ held (height_of (lines_of group)) }
        ensures kept { result ≡ kept_height self }
    {
        if !self.line.any {
            return self.closed;
        }
        let gap = match self.last {
            Some(ended) => gap_or_average(ended.gap, ended.spacing, self.line.spacing),
            None => 0,
        };
        let more = u32::from(gap) + u32::from(self.line.height);
        self.closed.saturating_add(more)
    }
}

impl Area {
    /// Goes on to the group in force, unless it is before the present one, and works out the most that it may have then in its rectangle.
    /// The answer is whether it isn't before.
    #[inline(always)]
    pub(crate) fn reach(&mut self, here: &Attributes, most: &mut u32) -> bool
        ensures reached { ReachesGroup (page_number here.now.page_just) here.now.rectangle.height
            self.old most.old result self.new most.new }
    {
        let page_just = here.page_just.number();
        if page_just <= self.present {
            return page_just == self.present;
        }
        match self.present {
            2 => self.top = self.group.height(),
            3 => self.middle = self.group.height(),
            _ => {}
        }
        self.group = Group::default();
        self.present = page_just;
        *most = room_for(self.present, self.top, self.middle, here.rectangle.height);
        true
    }

    /// The group with this page justification, which isn't before the present one.
    #[inline(always)]
    pub fn group_for(&self, page_just: PageJust) -> Group
        ensures sum { (area : List Spot) → self.now ≡ area_sum area → self.now.present ≤ page_number page_just
            → result ≡ group_sum (in_group (page_number page_just) area) }
    {
        if page_just.number() == self.present {
            self.group
        } else {
            Group::default()
        }
    }
}
