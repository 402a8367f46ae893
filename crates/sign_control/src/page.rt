//! The pages of a text that isn't shown, on the sign that a controller holds.

ghost use Rattle.std.specs.Prelude.{◌≡◌, ◌≤◌, ◌-◌, None, length, IfErr, IfOk, OnErr, OnOk};
ghost use Rattle.step_count.specs.Count.{raised};
ghost use Rattle.multi_meaning.specs.Picture.{Lights, picture};
ghost use Rattle.multi_layout.specs.Pages.{IsSized};
ghost use Rattle.sign_font.specs.Defaults.{default_fault, under};
ghost use Rattle.sign_font.specs.Sound.{IsSound};
ghost use Rattle.sign_control.specs.Change.{IsCounted};
ghost use Rattle.sign_control.specs.TextPage.{HasPage, LacksPage, in_force, page_limit, tried_steps};

use crate::check::check_text;
use crate::controller::Controller;
use multi_layout::Checked;
use page_plane::Plane;
use sign_font::{Defaults, Sign};
use step_count::raised;
use thiserror::Error;

/// Why a text has no page to be drawn (own).
#[derive(Clone, Copy, Debug, PartialEq, Eq, Error)]
pub enum NoPage {
    /// The text has 4,294,967,296 octets or more, and isn't judged.
    #[error("the text is too long")]
    TooLong,
    /// The sign refuses the text.
    #[error("the sign refuses the text")]
    Refused,
    /// The text has no page of this number.
    #[error("no such page")]
    Number,
}

/// The most octets of a text that is judged.
const MAX_TEXT: usize = 4_294_967_295;

/// A page of a text, counted from 0, at a phase, in tenths of a second since the page began.
#[derive(Clone, Copy)]
pub(crate) struct PageAt {
    pub(crate) page: u8,
    pub(crate) phase: u64,
}

/// A text that a sign accepts by these defaults and that has a page; or why there is none, and the steps of finding that.
pub(crate) fn text_with_page<'a>(
    sign: &'a Sign,
    defaults: Defaults,
    text: &'a [u8],
    page: u8,
) -> Result<Checked<'a>, (NoPage, u64)>
    requires taken { default_fault sign.now defaults ≡ None }
    ensures found { OnOk result (HasPage (under sign.now defaults) text.now page) }
    ensures kept { IfOk result (λ checked. (checked.sign ≡ under sign.now defaults) × (checked.source.octets ≡ text.now)) }
    ensures steps { IfOk result (λ checked. checked.source.steps ≡ tried_steps (under sign.now defaults) text.now) }
    ensures missing { IfErr result (λ why. LacksPage (under sign.now defaults) text.now page why.0) }
    ensures missing_steps { IfErr result (λ why. why.1 ≡ tried_steps (under sign.now defaults) text.now) }
{
    if text.len() > MAX_TEXT {
        return Err((NoPage::TooLong, 0));
    }
    match check_text(sign, defaults, text) {
        Ok(checked) => {
            if page < checked.pages() {
                Ok(checked)
            } else {
                Err((NoPage::Number, checked.steps()))
            }
        }
        Err(fault) => Err((NoPage::Refused, fault.source.steps())),
    }
}

/// Draws the plane of a colour of a page of a text by these defaults, and counts the steps of this, or of finding that there is none.
#[tactic(auto, using(crate::proofs::CountLemmas::tried_few))]
pub(crate) fn draw_text(
    sign: &Sign,
    defaults: Defaults,
    text: &[u8],
    at: PageAt,
    colour: u8,
    plane: &mut Plane,
) -> (Result<(), NoPage>, u64)
    requires sound { IsSound sign.now }
    requires taken { default_fault sign.now defaults ≡ None }
    requires size { IsSized plane.old sign.now }
    ensures found { OnOk result.0 (HasPage (under sign.now defaults) text.now at.page) }
    ensures drawn { OnOk result.0 (Lights plane.new (picture (under sign.now defaults) text.now at.page at.phase colour)) }
    ensures missing { IfErr result.0 (LacksPage (under sign.now defaults) text.now at.page) }
    ensures undrawn { OnErr result.0 (plane.new ≡ plane.old) }
    ensures size { (plane.new.width ≡ plane.old.width) × (plane.new.height ≡ plane.old.height) }
    ensures least { raised (tried_steps (under sign.now defaults) text.now) (plane.new.steps - plane.old.steps) ≤ result.1 }
    ensures most { result.1 ≤ page_limit sign.now (length text.now) }
{
    let mut checked = match text_with_page(sign, defaults, text, at.page) {
        Ok(checked) => checked,
        Err((why, steps)) => return (Err(why), steps),
    };
    let before = plane.steps();
    if !checked.draw(at.page, at.phase, colour, plane) {
        // The text has the page.
        unreachable!();
    }
    (Ok(()), raised(checked.steps(), plane.steps() - before))
}

impl Controller {
    /// The plane that was drawn last, which has the size of the sign.
    pub fn plane(&self) -> &Plane
        ensures plane { result.now ≡ self.now.plane }
        ensures size { IsSized result.now self.now.sign }
    {
        &self.plane
    }

    /// Draws the plane of a colour, 0 to 255, of a page of a text, counted from 0, at a phase, in tenths of a second since the page began.
    /// The text is judged by the defaults in force, and what the display shows stays. [`Controller::plane`] lends it then.
    ///
    /// The first error that is true comes: `TooLong` from 4,294,967,296 octets on, `Refused` if the sign refuses the text, `Number` if it
    /// has no such page; then the plane stays as it is. For n octets this takes at most 27n + 3 + R * n + B * (n / 4 + 1) steps. R is the
    /// height of the tallest font, and B the number of octets of the plane.
    pub fn draw_page(&mut self, text: &[u8], page: u8, phase: u64, colour: u8) -> Result<(), NoPage>
        ensures found { OnOk result (HasPage (in_force self.old.sign self.old.state) text.now page) }
        ensures drawn { OnOk result (Lights self.new.plane (picture (in_force self.old.sign self.old.state) text.now page phase colour)) }
        ensures missing { IfErr result (LacksPage (in_force self.old.sign self.old.state) text.now page) }
        ensures undrawn { OnErr result (self.new.plane ≡ self.old.plane) }
        ensures kept { (self.new.sign ≡ self.old.sign) × (self.new.state ≡ self.old.state) }
        ensures revision { self.new.revision ≡ self.old.revision }
        ensures steps { IsCounted self.old.steps
            (raised (tried_steps (in_force self.old.sign self.old.state) text.now) (self.new.plane.steps - self.old.plane.steps))
            (page_limit self.old.sign (length text.now)) self.new.steps }
    {
        let at = PageAt { page, phase };
        let (drawn, steps) = draw_text(
            &self.sign,
            self.defaults,
            text,
            at,
            colour,
            &mut self.plane,
        );
        self.steps = raised(self.steps, steps);
        drawn
    }
}
