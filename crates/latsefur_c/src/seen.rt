//! What is seen of a text.
ghost use Rattle.std.specs.Prelude.{◌≡◌, ◌<◌, ◌^◌, length, None, IfOk, IfErr, IfSome, OnOk};
ghost use Rattle.page_picture.specs.Shown.{IsThere};
ghost use Rattle.latsefur_c.specs.Drawn.{HasPage, IsAccepted, IsNotAccepted, LacksPage, seen};

use crate::check::MAX_TEXT;
use crate::outcome::{REFUSED, TOO_LONG};
use multi_layout::{Checked, Shown, check};
use multi_token::Source;
use sign_font::Sign;

/// When a text is looked at.
#[derive(Clone, Copy)]
pub(crate) enum When {
    /// At a clock, in tenths of a second since the text began to be shown.
    Clock(u64),
    /// A page, counted from 0, at a phase, in tenths of a second since the page began.
    Page { page: u8, phase: u64 },
}

/// A text that a sign accepts, or the number that says why it doesn't.
pub(crate) fn accepted<'a>(sign: &'a Sign, text: &'a [u8]) -> Result<Checked<'a>, u8>
    ensures ok { IfOk result (λ checked. (checked.sign ≡ sign.now) × (checked.source.octets ≡ text.now) × (length text.now < 2 ^ 32)) }
    ensures accepted { OnOk result (IsAccepted sign.now text.now) }
    ensures err { IfErr result (IsNotAccepted sign.now text.now) }
{
    if text.len() > MAX_TEXT {
        return Err(TOO_LONG);
    }
    match check(sign, Source::new(text)) {
        Ok(checked) => Ok(checked),
        Err(_) => Err(REFUSED),
    }
}

/// What is seen of a text, or `None` if it has no such page.
pub(crate) fn seen(checked: &mut Checked<'_>, when: When) -> Option<Shown>
    requires short { length checked.old.source.octets < 2 ^ 32 }
    ensures some { IfSome result (λ shown. (shown ≡ seen checked.old.sign checked.old.source.octets when)
        × IsThere checked.old.source.octets shown
        × HasPage checked.old.source.octets when) }
    ensures none { result ≡ None → LacksPage checked.old.source.octets when }
    ensures kept { (checked.new.sign ≡ checked.old.sign) × (checked.new.source.octets ≡ checked.old.source.octets) }
{
    match when {
        When::Clock(clock) => Some(checked.locate(clock)),
        When::Page { page, phase } => {
            if page < checked.pages() {
                Some(Shown::Page { page, phase })
            } else {
                None
            }
        }
    }
}
