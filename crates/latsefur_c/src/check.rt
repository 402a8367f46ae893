//! The verdict on a text.
ghost use Rattle.std.specs.Prelude.{◌≡◌, None};
ghost use Rattle.sign_font.specs.Defaults.{default_fault, under};
ghost use Rattle.latsefur_c.specs.Judged.{IsJudged};

use crate::outcome::{DONE, REFUSED, TOO_LONG};
use multi_layout::check_with;
use multi_token::Source;
use sign_font::{Defaults, Sign};

/// What a sign says of a text. What isn't named for an outcome is 0.
#[repr(C)]
#[derive(Clone, Copy)]
pub struct LatsefurVerdict {
    /// Of a refused text, the octet where the first item stands that offends, counted from 0.
    pub at: usize,
    /// Of an accepted text, the sum of the on times and off times of its pages, in tenths of a second.
    pub cycle: u32,
    /// 0 if the text is accepted, 1 if it is refused, and 7 if it is too long to be judged.
    pub outcome: u8,
    /// Of a refused text, the number of its error (NTCIP 1203 v03, dmsMultiSyntaxError).
    pub code: u8,
    /// Of an accepted text, the number of its pages, 1 to 255.
    pub pages: u8,
}

/// The most octets that a text may have.
pub(crate) const MAX_TEXT: usize = 4_294_967_295;

/// What is told of no text.
const NOTHING: LatsefurVerdict = LatsefurVerdict {
    at: 0,
    cycle: 0,
    outcome: 0,
    code: 0,
    pages: 0,
};

/// What a sign says of a text by its own defaults.
pub(crate) fn judged(sign: &Sign, text: &[u8]) -> LatsefurVerdict
    ensures { IsJudged sign.now text.now result }
{
    judged_by(sign, sign.defaults(), text)
}

/// What a sign says of a text by these defaults.
pub(crate) fn judged_by(sign: &Sign, defaults: Defaults, text: &[u8]) -> LatsefurVerdict
    requires taken { default_fault sign.now defaults ≡ None }
    ensures { IsJudged (under sign.now defaults) text.now result }
{
    if text.len() > MAX_TEXT {
        return LatsefurVerdict {
            outcome: TOO_LONG,
            ..NOTHING
        };
    }
    match check_with(sign, defaults, Source::new(text)) {
        Ok(checked) => LatsefurVerdict {
            outcome: DONE,
            cycle: checked.cycle(),
            pages: checked.pages(),
            ..NOTHING
        },
        Err(fault) => LatsefurVerdict {
            outcome: REFUSED,
            code: fault.code,
            at: fault.at,
            ..NOTHING
        },
    }
}
