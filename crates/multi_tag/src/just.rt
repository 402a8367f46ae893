//! Justifications of lines and pages.

ghost use Rattle.std.specs.Prelude.{◌≡◌, ◌≤◌};
ghost use Rattle.multi_tag.specs.Just.{line_just_of, line_number, page_just_of, page_number};

/// Where the characters of a line stand between its sides (NTCIP 1203 v03, MULTI tag 'jl').
#[derive(Clone, Copy, Debug, PartialEq, Eq)]
pub enum LineJust {
    /// At the left side.
    Left = 2,
    /// In the middle of the line.
    Centre = 3,
    /// At the right side.
    Right = 4,
    /// From side to side, with the room that is left between the characters.
    Full = 5,
}

/// Where the lines of an area stand between its top and its bottom (NTCIP 1203 v03, MULTI tag 'jp').
#[derive(Clone, Copy, Debug, PartialEq, Eq)]
pub enum PageJust {
    /// At the top.
    Top = 2,
    /// In the middle.
    Middle = 3,
    /// At the bottom.
    Bottom = 4,
}

impl LineJust {
    /// The justification of a number from 2 to 5.
    #[inline(always)]
    pub fn of(number: u8) -> LineJust
        ensures { result ≡ line_just_of number }
    {
        match number {
            2 => LineJust::Left,
            3 => LineJust::Centre,
            4 => LineJust::Right,
            _ => LineJust::Full,
        }
    }

    /// The number of the justification: left 2, centre 3, right 4, full 5 (NTCIP 1203 v03, MULTI tag 'jl').
    #[inline(always)]
    pub fn number(self) -> u8
        ensures number { result ≡ line_number self }
        ensures known { (2 ≤ result) × (result ≤ 5) }
    {
        self as u8
    }
}

impl PageJust {
    /// The justification of a number from 2 to 4.
    #[inline(always)]
    pub fn of(number: u8) -> PageJust
        ensures { result ≡ page_just_of number }
    {
        match number {
            2 => PageJust::Top,
            3 => PageJust::Middle,
            _ => PageJust::Bottom,
        }
    }

    /// The number of the justification: top 2, middle 3, bottom 4 (NTCIP 1203 v03, MULTI tag 'jp').
    #[inline(always)]
    pub fn number(self) -> u8
        ensures number { result ≡ page_number self }
        ensures known { (2 ≤ result) × (result ≤ 4) }
    {
        self as u8
    }
}
