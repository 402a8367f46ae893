//! What a text shows at a clock, in numbers.
ghost use Rattle.latsefur_c.specs.Drawn.{IsShownAs};

use multi_layout::Shown;

/// What a text shows at a clock. In the off time of a page all are 0.
#[repr(C)]
#[derive(Clone, Copy)]
pub struct LatsefurShown {
    /// The time since the page began, in tenths of a second.
    pub phase: u64,
    /// The page, counted from 0.
    pub page: u8,
    /// 1 if a page is shown, and 0 in the off time of one.
    pub is_on: u8,
}

/// What is shown, in numbers.
pub(crate) fn told(shown: Shown) -> LatsefurShown
    ensures { IsShownAs shown result }
{
    match shown {
        Shown::Page { page, phase } => LatsefurShown {
            phase,
            page,
            is_on: 1,
        },
        Shown::Off => LatsefurShown {
            phase: 0,
            page: 0,
            is_on: 0,
        },
    }
}
