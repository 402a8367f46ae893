//! Laws of the step of commands, which no call has to be trusted for.

ghost use Rattle.sign_control.specs.Change.{StaysUntilNextChange};
ghost use Rattle.sign_control.specs.Headline.{Headline};
ghost use Rattle.sign_control.specs.Restored.{AnswersAsSaved};
ghost use Rattle.sign_control.specs.Revision.{ChangesTheTimeAtMost};
ghost use Rattle.sign_control.specs.Run.{EveryRunStaysWithin};

use multi_layout::stays;

/// After every command of every list of them the used bytes are at most the store's budget, the used slots at most its
/// slots, and used and free bytes together are the budget.
pub fn every_run_stays_within()
    ensures { EveryRunStaysWithin }
{}

/// After every list of commands, from the making of a controller on: the store is within its budget and its slots; whatever is
/// asked next takes at most the check limit of the longest text, 36,865 steps, and each command before it did; the text that is shown
/// has at most 4,096 octets, and is accepted by the defaults with which it is shown; and a frame shows a page of that text, or an off
/// time, in which each pixel has one colour, of 0 to 9.
pub fn headline()
    ensures { Headline }
{}

/// At each time before [`crate::Controller::next_change`] the duration goes on, the display shows the same page or stays in its off time,
/// and every pixel keeps its colour.
pub fn stays_until_next_change()
    ensures { StaysUntilNextChange }
{
    stays();
}

/// Commands after which [`crate::Controller::revision`] is as it was before have changed the time at most: each tick among them has added
/// its tenths to the display's clock and taken them from what is left of its duration, and all else that is saved is as it was. This holds
/// of every revision but `u64::MAX`.
pub fn changes_the_time_at_most()
    ensures { ChangesTheTimeAtMost }
{}

/// A controller that restores what another one of the same sign file has saved answers as that one: after every list of commands, ticks
/// among them, its replies are the same, and its frames too, pixel by pixel.
pub fn answers_as_saved()
    ensures { AnswersAsSaved }
{}
