//! The judgement of a text.

ghost use Rattle.std.specs.Prelude.{◌≡◌, ◌≤◌, length, None};
ghost use Rattle.sign_font.specs.Defaults.{default_fault, under};
ghost use Rattle.multi_meaning.specs.Steps.{judging_steps};
ghost use Rattle.multi_meaning.specs.Verdict.{verdict};
ghost use Rattle.message_store.specs.Judged.{error_of, is_accepted, position_of};

use multi_layout::check_with;
use multi_token::Source;
use sign_font::{Defaults, Sign};

/// What a sign says of a text.
#[derive(Clone, Copy)]
pub struct TextJudgement {
    /// Whether it accepts the text.
    pub accepted: bool,
    /// The MULTI error of the text, 2 where it is accepted (NTCIP 1203 v03, dmsMultiSyntaxError).
    pub error: u8,
    /// The offset of that error in octets, from 0, and 0 where there is none (NTCIP 1203 v03, dmsMultiSyntaxErrorPosition).
    pub position: u16,
    /// The steps of judging the text.
    pub steps: u64,
}

/// What a sign says of a text of at most 4,096 octets by these defaults, which it must not refuse.
pub fn judge_text(sign: &Sign, defaults: Defaults, text: &[u8]) -> TextJudgement
    requires taken { default_fault sign.now defaults ≡ None }
    requires short { length text.now ≤ 4096 }
    ensures accepted { result.accepted ≡ is_accepted (verdict (under sign.now defaults) text.now) }
    ensures error { result.error ≡ error_of (verdict (under sign.now defaults) text.now) }
    ensures position { result.position ≡ position_of (verdict (under sign.now defaults) text.now) }
    ensures steps { result.steps ≡ judging_steps (under sign.now defaults) text.now }
{
    match check_with(sign, defaults, Source::new(text)) {
        Ok(checked) => TextJudgement {
            accepted: true,
            error: 2,
            position: 0,
            steps: checked.steps(),
        },
        Err(fault) => TextJudgement {
            accepted: false,
            error: fault.code,
            position: fault.at as u16,
            steps: fault.source.steps(),
        },
    }
}
