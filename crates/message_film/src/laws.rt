//! What holds of the definitions.
ghost use Rattle.message_film.specs.Period.{CycleIsPeriod, FlashesHavePeriod};

/// A law of the definitions: what is shown of several pages is the same at each clock and one cycle after it. So a film of one cycle goes
/// round without a seam.
pub fn cycle_is_period()
    ensures { CycleIsPeriod }
{}

/// A law of the definitions: what is shown of one page, or of pages with a cycle of 0, is the same at each clock and some time after it, if
/// every flash of the string is over a whole number of times by then. Without flashing that is any time, so that one picture is enough.
pub fn flashes_have_period()
    ensures { FlashesHavePeriod }
{}
