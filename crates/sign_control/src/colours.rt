//! The colours of all pixels, of what the display shows and of a text's page.

ghost use Rattle.std.specs.Prelude.{◌≡◌, ◌≤◌, ◌-◌, None, false, length, IfErr, IfOk, OnErr, OnOk};
ghost use Rattle.step_count.specs.Count.{raised};
ghost use Rattle.multi_meaning.specs.Steps.{judging_steps};
ghost use Rattle.multi_meaning.specs.Times.{shown};
ghost use Rattle.multi_meaning.specs.declared.times.Shown.TheVariants.{Page};
ghost use Rattle.multi_layout.specs.Pages.{IsSized};
ghost use Rattle.sign_font.specs.Defaults.{default_fault, under};
ghost use Rattle.sign_font.specs.Sound.{IsSound};
ghost use Rattle.sign_control.specs.Change.{IsCounted};
ghost use Rattle.sign_control.specs.Colours.{TellsColours, WritesColours, colours_limit, page_colours_limit};
ghost use Rattle.sign_control.specs.Headline.{shown_by, shown_now};
ghost use Rattle.sign_control.specs.internal.Ready.{IsAccepted};
ghost use Rattle.sign_control.specs.TextPage.{HasPage, LacksPage, in_force, tried_steps};

use crate::check::accepted_text;
use crate::controller::Controller;
use crate::page::{NoPage, PageAt, text_with_page};
use multi_layout::Shown;
use page_picture::write_colours;
use page_plane::Plane;
use sign_font::{Defaults, Sign};
use step_count::raised;

/// Writes the colours of what an accepted text shows at a clock, tells which page that is, and counts the steps of this.
#[tactic(auto, using(crate::proofs::CountLemmas::judging_few))]
fn write_shown(
    sign: &Sign,
    defaults: Defaults,
    text: &[u8],
    clock: u64,
    plane: &mut Plane,
    octets: &mut [u8],
) -> (Option<Shown>, u64)
    requires sound { IsSound sign.now }
    requires taken { default_fault sign.now defaults ≡ None }
    requires accepted { IsAccepted (under sign.now defaults) text.now }
    requires short { length text.now ≤ 4096 }
    requires size { IsSized plane.old sign.now }
    ensures colours { TellsColours (under sign.now defaults) text.now (shown (under sign.now defaults) text.now clock)
        octets.old octets.new result.0 }
    ensures size { (plane.new.width ≡ plane.old.width) × (plane.new.height ≡ plane.old.height) }
    ensures undrawn { result.0 ≡ None → plane.new ≡ plane.old }
    ensures least { raised (judging_steps (under sign.now defaults) text.now) (plane.new.steps - plane.old.steps) ≤ result.1 }
    ensures most { result.1 ≤ colours_limit sign.now (length text.now) }
{
    let mut checked = accepted_text(sign, defaults, text);
    let before = plane.steps();
    let shown = checked.locate(clock);
    let told = if write_colours(&mut checked, sign.classic(), shown, plane, octets) {
        Some(shown)
    } else {
        None
    };
    (told, raised(checked.steps(), plane.steps() - before))
}

/// Writes the colours of a page of a text by these defaults, and counts the steps of this, or of finding that there is none.
#[tactic(auto, using(crate::proofs::CountLemmas::tried_few))]
fn write_text(
    sign: &Sign,
    defaults: Defaults,
    text: &[u8],
    at: PageAt,
    plane: &mut Plane,
    octets: &mut [u8],
) -> (Result<bool, NoPage>, u64)
    requires sound { IsSound sign.now }
    requires taken { default_fault sign.now defaults ≡ None }
    requires size { IsSized plane.old sign.now }
    ensures found { OnOk result.0 (HasPage (under sign.now defaults) text.now at.page) }
    ensures colours { IfOk result.0 (WritesColours (under sign.now defaults) text.now (Page at.page at.phase) octets.old octets.new) }
    ensures missing { IfErr result.0 (LacksPage (under sign.now defaults) text.now at.page) }
    ensures unwritten { IfErr result.0 (λ why. octets.new ≡ octets.old) }
    ensures size { (plane.new.width ≡ plane.old.width) × (plane.new.height ≡ plane.old.height) }
    ensures undrawn { (OnErr result.0 (plane.new ≡ plane.old)) × IfOk result.0 (λ written. written ≡ false → plane.new ≡ plane.old) }
    ensures least { raised (tried_steps (under sign.now defaults) text.now) (plane.new.steps - plane.old.steps) ≤ result.1 }
    ensures most { result.1 ≤ page_colours_limit sign.now (length text.now) }
{
    let mut checked = match text_with_page(sign, defaults, text, at.page) {
        Ok(checked) => checked,
        Err((why, steps)) => return (Err(why), steps),
    };
    let before = plane.steps();
    let shown = Shown::Page {
        page: at.page,
        phase: at.phase,
    };
    let written = write_colours(&mut checked, sign.classic(), shown, plane, octets);
    (Ok(written), raised(checked.steps(), plane.steps() - before))
}

impl Controller {
    /// Writes the colours of all pixels of what the display shows at its clock into the first octets, and tells which page that is: 0 to
    /// 9, an octet each, row by row from the top, and each row from the left. In an off time all are 0. The octets after them stay as
    /// they are.
    ///
    /// The display's own text is drawn by the defaults with which it is shown. `None` if there are fewer octets than pixels, and then
    /// nothing is written. For n octets this takes at most 9 times the steps of drawing one colour, and those of judging the text and
    /// finding the page.
    pub fn colours(&mut self, octets: &mut [u8]) -> Option<Shown>
        ensures colours { TellsColours (shown_by self.old.sign self.old.state) self.old.state.text (shown_now self.old.sign self.old.state)
            octets.old octets.new result }
        ensures undrawn { result ≡ None → self.new.plane ≡ self.old.plane }
        ensures kept { (self.new.sign ≡ self.old.sign) × (self.new.state ≡ self.old.state) }
        ensures revision { self.new.revision ≡ self.old.revision }
        ensures steps { IsCounted self.old.steps
            (raised (judging_steps (shown_by self.old.sign self.old.state) self.old.state.text)
            (self.new.plane.steps - self.old.plane.steps))
            (colours_limit self.old.sign (length self.old.state.text)) self.new.steps }
    {
        let (shown, steps) = write_shown(
            &self.sign,
            self.display.defaults,
            &self.text,
            self.display.clock,
            &mut self.plane,
            octets,
        );
        self.steps = raised(self.steps, steps);
        shown
    }

    /// Writes the colours of all pixels of a page of a text at a phase, as [`Controller::colours`] writes them, by the defaults in force.
    /// What the display shows stays. The answer is false if there are fewer octets than pixels, and then nothing is written.
    ///
    /// The first error that is true comes, as in [`Controller::draw_page`], and then nothing is written either.
    pub fn write_page(
        &mut self,
        text: &[u8],
        page: u8,
        phase: u64,
        octets: &mut [u8],
    ) -> Result<bool, NoPage>
        ensures found { OnOk result (HasPage (in_force self.old.sign self.old.state) text.now page) }
        ensures colours { IfOk result (WritesColours (in_force self.old.sign self.old.state) text.now (Page page phase)
            octets.old octets.new) }
        ensures missing { IfErr result (LacksPage (in_force self.old.sign self.old.state) text.now page) }
        ensures unwritten { IfErr result (λ why. octets.new ≡ octets.old) }
        ensures undrawn { (OnErr result (self.new.plane ≡ self.old.plane))
            × IfOk result (λ written. written ≡ false → self.new.plane ≡ self.old.plane) }
        ensures kept { (self.new.sign ≡ self.old.sign) × (self.new.state ≡ self.old.state) }
        ensures revision { self.new.revision ≡ self.old.revision }
        ensures steps { IsCounted self.old.steps
            (raised (tried_steps (in_force self.old.sign self.old.state) text.now) (self.new.plane.steps - self.old.plane.steps))
            (page_colours_limit self.old.sign (length text.now)) self.new.steps }
    {
        let at = PageAt { page, phase };
        let (written, steps) = write_text(
            &self.sign,
            self.defaults,
            text,
            at,
            &mut self.plane,
            octets,
        );
        self.steps = raised(self.steps, steps);
        written
    }
}
