//! Characters after one with the same attributes: each only lengthens the line that they share, as long as it goes into what is left.

ghost use Rattle.std.specs.Prelude.{◌≡◌, ◌+◌, ◌-◌, ◌*◌, ◌^◌, ◌<◌, ◌≤◌, length, min, option_map, slice_get, take, drop, IfSome};
ghost use Rattle.multi_judge.specs.Prelude.{charged, entry_in, look_steps, IsLastSpaceOf, AreWidthsOf, InEachSign, gap_here, width_in, longer_line, split_by, with_run, IsPassBehind, IsPassOf, IsAt, IsBehind, IsBehindCharacter, IsRunPassed, lengthened_by, IsLimited};

use crate::attributes::Attributes;
use crate::fill::Split;
use crate::line::Line;
use crate::pass::Pass;
use crate::state::State;
use crate::terms::Terms;
use multi_token::{Entry, Run, Source, Space};
use sign_font::FontCells;

impl State {
    /// Goes along the octets from an offset on that only lengthen the line of the last character, in the font of these cells: none is a
    /// bracket, each has a cell, and together they go into what the line has left. Each of these octets takes two steps, and so does the
    /// octet after them; the end takes one.
    #[inline(always)]
    pub fn go_along(&mut self, cells: &FontCells<'_>, source: &mut Source<'_>, at: usize) -> Run
        requires character { IsBehindCharacter self.old }
        requires limited { IsLimited self.old }
        requires short { length source.old.octets < 2 ^ 32 }
        requires within { at ≤ length source.old.octets }
        ensures within { at + result.len ≤ length source.old.octets }
        ensures run { InEachSign cells.now self.old.attributes.font.number (λ sign.
            IsRunPassed sign source.old.octets at result.width self.old (at + result.len) self.new) }
        ensures next { result.next ≡ option_map (entry_in cells.now) (slice_get source.old.octets (at + result.len)) }
        ensures steps { source.new ≡ charged source.old (2 * result.len + look_steps (length source.old.octets) (at + result.len)) }
    {
        let gap = u32::from(self.attributes.gap());
        let run = source.read_run(at, cells.advances(), gap, self.room());
        self.lengthen(run.width, run.len as u64);
        run
    }

    /// The same, with the last space of these octets.
    fn go_along_words(
        &mut self,
        cells: &FontCells<'_>,
        source: &mut Source<'_>,
        at: usize,
    ) -> (Run, Option<Space>)
        requires character { IsBehindCharacter self.old }
        requires limited { IsLimited self.old }
        requires short { length source.old.octets < 2 ^ 32 }
        requires within { at ≤ length source.old.octets }
        ensures within { at + result.0.len ≤ length source.old.octets }
        ensures run { InEachSign cells.now self.old.attributes.font.number (λ sign.
            IsRunPassed sign source.old.octets at result.0.width self.old (at + result.0.len) self.new) }
        ensures space { InEachSign cells.now self.old.attributes.font.number (λ sign.
            IsLastSpaceOf (width_in sign self.old.attributes.font.number) (gap_here self.old)
            (take result.0.len (drop at source.old.octets)) result.0.width result.1) }
        ensures inside { IfSome result.1 (λ space. (space.at < result.0.len) × (space.through ≤ result.0.width)) }
        ensures next { result.0.next ≡ option_map (entry_in cells.now) (slice_get source.old.octets (at + result.0.len)) }
        ensures steps { source.new ≡ charged source.old (2 * result.0.len + look_steps (length source.old.octets) (at + result.0.len)) }
    {
        let gap = u32::from(self.attributes.gap());
        let (run, space) = source.read_words(at, cells.advances(), gap, self.room());
        self.lengthen(run.width, run.len as u64);
        (run, space)
    }

    /// The pixels that the present line has left; no line has as many as the largest of these numbers.
    fn room(&self) -> u32
        ensures { result ≡ min (self.now.limits.width - self.now.area.group.line.part.width) 32767 }
    {
        let left = self
            .limits
            .width
            .saturating_sub(self.area.group.line.part.width);
        left.min(0x7fff)
    }

    /// Adds a width and a number of characters to the present segment.
    pub fn lengthen(&mut self, width: u32, count: u64)
        ensures { self.new ≡ lengthened_by width count self.old }
    {
        self.area.group.line.lengthen(width, count);
    }
}

impl Pass {
    /// Takes a run after this line, with this gap before each of its characters, of which this is the last space: the line may be broken
    /// there then.
    fn take(&mut self, gap: u8, line: Line, run: Run, space: Option<Space>)
        requires inside { IfSome space (λ space. (space.at < run.len) × (space.through ≤ run.width)) }
        ensures { self.new
            ≡ record self.old { split = split_by self.old.state.attributes gap run.width run.len space line self.old.split } }
    {
        let here = &self.state.attributes;
        let (pixels, count) = (run.width, run.len as u64);
        match space {
            Some(space) => {
                let mut before = line;
                before.lengthen(space.before, space.at as u64);
                let mut behind = Line::default();
                let rest = count - (space.at as u64 + 1);
                behind.lengthen_or_begin(here, gap, pixels - space.through, rest);
                self.split = Some(Split {
                    before,
                    font: here.font,
                    behind,
                });
            }
            None => {
                if let Some(parts) = &mut self.split {
                    parts.behind.lengthen_or_begin(here, gap, pixels, count);
                }
            }
        }
    }
}

impl Line {
    /// Adds a width and a number of characters to the present segment.
    pub(crate) fn lengthen(&mut self, width: u32, count: u64)
        ensures { self.new ≡ longer_line width count self.old }
    {
        self.part.width = self.part.width.saturating_add(width);
        self.part.count = self.part.count.wrapping_add(count);
    }

    /// Adds so many characters with these attributes, of so many pixels with this gap before each: on a line of no character the first
    /// one has none.
    fn lengthen_or_begin(&mut self, here: &Attributes, gap: u8, pixels: u32, count: u64)
        ensures { self.new ≡ with_run here.now gap pixels count self.old }
    {
        if self.any {
            self.lengthen(pixels, count);
        } else if count > 0 {
            self.present = here.line_just.number();
            self.part.width = pixels.saturating_sub(u32::from(gap));
            self.part.count = count;
            self.part.last = Some(here.font.char_spacing);
            self.has_parts = here.line_just.number() < 5;
            self.height = here.font.height;
            self.spacing = here.font.line_spacing;
            self.any = true;
        }
    }
}

/// Judges the characters after one that only lengthen its line: the offset after them, and what stands there, which was read and looked
/// up. It is a bracket, has no cell or doesn't fit, or is the end.
#[inline(always)]
pub fn judge_run<const WORDS: bool>(
    sign: &Terms<'_>,
    cells: &FontCells<'_>,
    pass: &mut Pass,
    source: &mut Source<'_>,
    at: usize,
) -> (usize, Option<Entry>)
    requires short { length source.old.octets < 2 ^ 32 }
    requires behind { IsBehind sign.now source.old.octets at (IsPassOf WORDS sign.now pass.old) source.old }
    requires character { IsPassBehind WORDS pass.old }
    requires cells { AreWidthsOf sign.now pass.old.state.attributes.font.number cells.now }
    ensures further { at ≤ result.0 }
    ensures at { IsAt sign.now source.old.octets result.0 cells.now result.1 (IsPassOf WORDS sign.now pass.new) source.new }
    ensures same { pass.new.state.attributes ≡ pass.old.state.attributes }
{
    if !WORDS {
        let run = pass.state.go_along(cells, source, at);
        return (at + run.len, run.next);
    }
    if !pass.state.area.group.line.any {
        // a space was dropped
        return (at, source.look(at, cells.advances()));
    }
    let gap = pass.state.attributes.gap();
    let line = pass.state.area.group.line;
    let (run, space) = pass.state.go_along_words(cells, source, at);
    pass.take(gap, line, run, space);
    (at + run.len, run.next)
}
