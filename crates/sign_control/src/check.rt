//! The check of a text.

ghost use Rattle.std.specs.Prelude.{◌≡◌, ℕ, ◌^◌, ◌<◌, None, length, IfOk, IfErr};
ghost use Rattle.multi_meaning.specs.Steps.{judging_steps};
ghost use Rattle.multi_meaning.specs.Verdict.{Accepted, IsVerdict, Refused};
ghost use Rattle.sign_font.specs.Defaults.{default_fault, under};
ghost use Rattle.sign_control.specs.internal.Ready.{IsAccepted};

use multi_layout::{Checked, Fault, check_with};
use multi_token::Source;
use sign_font::{Defaults, Sign};

/// Whether a sign accepts a text whose pages are drawn, by these defaults. The steps of the source that comes back are reported by
/// whoever asks.
#[inline(always)]
pub(crate) fn check_text<'a>(
    sign: &'a Sign,
    defaults: Defaults,
    text: &'a [u8],
) -> Result<Checked<'a>, Fault<'a>>
    requires taken { default_fault sign.now defaults ≡ None }
    requires short { length text.now < 2 ^ 32 }
    ensures accepted { IfOk result (λ checked. (pages : ℕ) × IsVerdict (under sign.now defaults) text.now (Accepted pages)) }
    ensures refused { IfErr result (λ fault. IsVerdict (under sign.now defaults) text.now (Refused fault.code fault.at)) }
    ensures kept { IfOk result (λ checked. (checked.sign ≡ under sign.now defaults) × (checked.source.octets ≡ text.now)) }
    ensures steps { IfOk result (λ checked. checked.source.steps ≡ judging_steps (under sign.now defaults) text.now) }
    ensures fault_steps { IfErr result (λ fault. fault.source.steps ≡ judging_steps (under sign.now defaults) text.now) }
{
    check_with(sign, defaults, counted(text))
}

/// A text as a source that counts what is read of it. All of this crate's are made here.
pub(crate) fn counted(text: &[u8]) -> Source<'_>
    ensures { result ≡ record { octets = text.now; steps = 0 } }
{
    Source::new(text)
}

/// A text that a sign accepts by these defaults, as it is judged once more.
pub(crate) fn accepted_text<'a>(sign: &'a Sign, defaults: Defaults, text: &'a [u8]) -> Checked<'a>
    requires taken { default_fault sign.now defaults ≡ None }
    requires accepted { IsAccepted (under sign.now defaults) text.now }
    requires short { length text.now < 2 ^ 32 }
    ensures kept { (result.sign ≡ under sign.now defaults) × (result.source.octets ≡ text.now) }
    ensures steps { result.source.steps ≡ judging_steps (under sign.now defaults) text.now }
{
    let Ok(checked) = check_text(sign, defaults, text) else {
        unreachable!();
    };
    checked
}
