//! The counted lines of an area, as drawing needs them.

ghost use Rattle.std.specs.Prelude.{◌≡◌, ℕ, ◌<◌, ◌≤◌, ◌==◌, length, List, [], ◌∷◌, ◌++◌, if◌then◌else◌};
ghost use Rattle.multi_judge.specs.Prelude.{page_number, Spot, IsNarrow, line_sum, group_lines, HasNoLine, HasNoLineBehind, line_count, line_entry, TableLines, IsOrdered, split_lines};
ghost use Rattle.multi_judge.specs.internal.Table.{width_in};

use crate::line::Line;
use arrayvec::ArrayVec;
use multi_tag::PageJust;
use std::marker::Model;

/// What is kept of a counted line, in pixels.
#[derive(Clone, Copy, Default)]
pub struct CountedLine {
    /// The widths of its segments.
    pub(crate) left: u16,
    pub(crate) centre: u16,
    pub(crate) right: u16,
    pub(crate) full: u16,
    /// How many characters its full segment has.
    pub(crate) characters: u16,
    /// The height of its group down to its bottom.
    pub(crate) bottom: u16,
}

/// The counted lines of an area: those of the top group, of the middle one and of the bottom one.
#[derive(Drop)]
pub struct LineTable {
    lines: ArrayVec<CountedLine, 128>,
    /// Where the lines of the middle group begin, and those of the bottom one.
    middle: usize,
    bottom: usize,
}

impl Model for LineTable {
    ghost Value = { TableLines };

    ghost view = { λ t. split_lines t.lines.items t.middle t.bottom };

    ghost invariant = { λ t. IsOrdered t.lines.items t.middle t.bottom };
}

impl CountedLine {
    /// What is kept of a line with this height of its group down to its bottom.
    pub fn of(line: &Line, bottom: u32) -> CountedLine
        requires narrow { (spots : List Spot) × (line.now ≡ line_sum spots) × IsNarrow spots }
        requires low { bottom ≤ 1024 }
        ensures entry { (spots : List Spot) → line.now ≡ line_sum spots → IsNarrow spots → result ≡ line_entry spots bottom }
        ensures bottom { result.bottom ≡ bottom }
    {
        CountedLine {
            left: line.width(2) as u16,
            centre: line.width(3) as u16,
            right: line.width(4) as u16,
            full: line.width(5) as u16,
            characters: if line.present == 5 {
                line.part.count as u16
            } else {
                0
            },
            bottom: bottom as u16,
        }
    }

    /// The width of its segment with this line justification: left 2, centre 3, right 4, full 5.
    pub(crate) fn width(&self, just: u8) -> u16
        ensures { result ≡ width_in just self.now }
    {
        match just {
            2 => self.left,
            3 => self.centre,
            4 => self.right,
            _ => self.full,
        }
    }
}

impl LineTable {
    /// A table of no line.
    pub fn new() -> LineTable
        ensures none { HasNoLine result }
    {
        LineTable {
            lines: ArrayVec::new(),
            middle: 0,
            bottom: 0,
        }
    }

    /// Takes all lines out.
    pub fn clear(&mut self)
        ensures none { HasNoLine self.new }
    {
        self.lines.clear();
        self.middle = 0;
        self.bottom = 0;
    }

    /// Puts a line after those of the group with this page justification, top 2, middle 3 or bottom 4. No group after it has a line.
    pub fn push(&mut self, page_just: u8, line: CountedLine)
        requires known { (2 ≤ page_just) × (page_just ≤ 4) }
        requires room { line_count self.old < 128 }
        requires last { HasNoLineBehind page_just self.old }
        ensures pushed { (just : ℕ) → (2 ≤ just) × (just ≤ 4) → group_lines just self.new
            ≡ (if just == page_just then group_lines just self.old ++ line ∷ [] else group_lines just self.old) }
    {
        self.lines.push(line);
        match page_just {
            2 => {
                self.middle = self.lines.len();
                self.bottom = self.lines.len();
            }
            3 => self.bottom = self.lines.len(),
            _ => {}
        }
    }

    /// The lines of the group with this page justification.
    pub fn group(&self, page_just: PageJust) -> &[CountedLine]
        ensures lines { result.now ≡ group_lines (page_number page_just) self.now }
        ensures few { length result.now ≤ 128 }
    {
        let lines = self.lines.as_slice();
        match page_just {
            PageJust::Top => &lines[..self.middle],
            PageJust::Middle => &lines[self.middle..self.bottom],
            PageJust::Bottom => &lines[self.bottom..],
        }
    }
}
