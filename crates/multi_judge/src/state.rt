//! What is kept of the items that were read.

ghost use Rattle.std.specs.Prelude.{◌≡◌, ◌+◌, ◌*◌, ◌^◌, ◌≤◌, [], List, true, false, not};
ghost use Rattle.multi_judge.specs.Prelude.{IsSound, Spot, area_of, is_glyph, conflicts, AddsBreak, AddsCharacter, area_sum, IsLimited, IsStateOf, whole_times};

use crate::area::Area;
use crate::attributes::Attributes;
use crate::terms::Terms;

/// The running state after some items of a string.
#[derive(Clone, Copy)]
pub struct State {
    /// The pages so far, the present one with them: 1 to the sign's limit.
    pub pages: u8,
    /// The times of the pages before the present one, in tenths of a second.
    pub cycle: u32,
    pub attributes: Attributes,
    pub area: Area,
    /// What may stand in that area.
    pub(crate) limits: Limits,
}

/// The most that the present segment of a line and the present group of an area may have, in pixels.
#[derive(Clone, Copy, Default)]
pub(crate) struct Limits {
    pub(crate) width: u32,
    pub(crate) height: u32,
}

impl State {
    /// The state before the first item.
    pub fn new(sign: &Terms<'_>) -> State
        ensures start { IsStateOf sign.now [] result }
        ensures limited { IsLimited result }
        ensures font { result.attributes.font.number ≡ sign.now.defaults.font }
        ensures sound { IsSound sign.now }
    {
        State {
            pages: 1,
            cycle: 0,
            attributes: sign.start,
            area: Area::default(),
            // known where there is a character, and where there is a group
            limits: Limits::default(),
        }
    }

    /// Puts a character whose cell has this width in pixels, if it doesn't conflict with the items before it: whether it doesn't.
    #[inline(always)]
    pub fn put_character(&mut self, cell_width: u8) -> bool
        ensures conflicts { (before : List Spot) (s : Spot) → self.old.area ≡ area_sum (area_of s before) → is_glyph s ≡ true
            → s.at.page_just ≡ self.old.attributes.page_just → s.at.line_just ≡ self.old.attributes.line_just
            → not result ≡ conflicts before s }
        ensures added { result ≡ true → AddsCharacter self.old cell_width self.new }
        ensures limited { IsLimited self.old → IsLimited self.new }
    {
        let (here, limits) = (&self.attributes, &mut self.limits);
        if !self.area.reach(here, &mut limits.height) {
            return false;
        }
        self.area
            .group
            .line
            .put(here, cell_width, &mut limits.width)
    }

    /// Puts an `nl` with the gap that it gives, if it doesn't conflict with the items before it: whether it doesn't.
    #[inline(always)]
    pub fn put_break(&mut self, gap: Option<u8>) -> bool
        ensures conflicts { (before : List Spot) (s : Spot) → self.old.area ≡ area_sum (area_of s before) → is_glyph s ≡ false
            → s.at.page_just ≡ self.old.attributes.page_just → not result ≡ conflicts before s }
        ensures added { result ≡ true → AddsBreak self.old gap self.new }
        ensures limited { IsLimited self.old → IsLimited self.new }
    {
        let here = &self.attributes;
        if !self.area.reach(here, &mut self.limits.height) {
            return false;
        }
        self.area.group.add_break(gap, &here.font);
        true
    }

    /// The times of all pages of a string that ends here, in tenths of a second.
    pub fn whole_cycle(self) -> u32
        requires short { self.cycle ≤ 510 * self.pages }
        ensures { result ≡ whole_times self }
    {
        self.cycle + u32::from(self.attributes.on) + u32::from(self.attributes.off)
    }
}
