//! When what the display shows changes.

ghost use Rattle.std.specs.Prelude.{◌≡◌, ◌+◌, ◌≤◌, None, length};
ghost use Rattle.sign_font.specs.Defaults.{default_fault, under};
ghost use Rattle.sign_font.specs.Sound.{IsSound};
ghost use Rattle.multi_meaning.specs.Meaning.{meanings};
ghost use Rattle.multi_meaning.specs.Steps.{judging_steps};
ghost use Rattle.step_count.specs.Count.{raised};
ghost use Rattle.multi_layout.specs.Change.{change_at};
ghost use Rattle.multi_layout.specs.Finding.{change_steps};
ghost use Rattle.sign_control.specs.Change.{change_limit, next_change, next_change_steps, no_later};
ghost use Rattle.sign_control.specs.internal.Ready.{IsAccepted};

use crate::check::accepted_text;
use crate::controller::Controller;
use sign_font::{Defaults, Sign};
use step_count::raised;

/// The tenths of a second from a clock to the next change of what an accepted text shows, if it changes, and the steps of finding it.
#[tactic(auto, using(crate::proofs::CountLemmas::judging_few))]
fn change_left(sign: &Sign, defaults: Defaults, text: &[u8], clock: u64) -> (Option<u64>, u64)
    requires sound { IsSound sign.now }
    requires taken { default_fault sign.now defaults ≡ None }
    requires accepted { IsAccepted (under sign.now defaults) text.now }
    requires short { length text.now ≤ 4096 }
    ensures change { result.0 ≡ change_at (under sign.now defaults) (meanings text.now) clock }
    ensures steps { result.1
        ≡ judging_steps (under sign.now defaults) text.now + change_steps (under sign.now defaults) text.now clock }
    ensures most { result.1 ≤ change_limit (length text.now) }
{
    let mut checked = accepted_text(sign, defaults, text);
    let left = checked.next_change(clock);
    (left, checked.steps())
}

/// A number of tenths, or those to a change that comes before.
fn no_later(most: u32, left: Option<u64>) -> u32
    ensures { result ≡ no_later most left }
{
    match left {
        Some(left) => u64::from(most).min(left) as u32,
        None => most,
    }
}

/// A number of tenths, or those to the end of a duration that comes before.
fn no_later_than_end(most: u32, remaining: Option<u32>) -> u32
    ensures { result ≡ no_later most remaining }
{
    match remaining {
        Some(left) => most.min(left),
        None => most,
    }
}

impl Controller {
    /// For how many tenths of a second from now on, at most as many as are given, what the display shows stays as it is: up to the end of a
    /// page's on time or off time, to the next change of a flash, or to the end of the duration, whichever comes first. 0 where the
    /// duration ends with the next tick, even of 0 tenths.
    ///
    /// It goes by the times of the pages and flashes, and draws nothing: the text is judged, and its pages are passed up to the one that is
    /// shown. For n octets of the text this takes at most 18n + 2 steps.
    pub fn next_change(&mut self, most: u32) -> u32
        ensures next { result ≡ next_change self.old.sign self.old.state most }
        ensures kept { (self.new.sign ≡ self.old.sign) × (self.new.state ≡ self.old.state) × (self.new.plane ≡ self.old.plane) }
        ensures revision { self.new.revision ≡ self.old.revision }
        ensures steps { self.new.steps ≡ raised self.old.steps (next_change_steps self.old.sign self.old.state) }
        ensures most { next_change_steps self.old.sign self.old.state ≤ change_limit (length self.old.state.text) }
    {
        let (left, steps) = change_left(
            &self.sign,
            self.display.defaults,
            &self.text,
            self.display.clock,
        );
        self.steps = raised(self.steps, steps);
        no_later(no_later_than_end(most, self.display.remaining), left)
    }
}
