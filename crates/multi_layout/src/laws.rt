//! What holds of the definitions.
ghost use Rattle.multi_layout.specs.Change.{ComesLater, DoesChange, Stays};

/// A law of the definitions: until the next change a string shows the same page, or stays in its off time, and every pixel keeps its
/// colour.
pub fn stays()
    ensures { Stays }
{}

/// A law of the definitions: the next change is at least one tenth of a second away, so that whoever sleeps until then makes progress.
pub fn comes_later()
    ensures { ComesLater }
{}

/// A law of the definitions: at the next change something does change. The on time or the off time of a page ends, or a flash of a
/// character of the page that is shown turns.
pub fn does_change()
    ensures { DoesChange }
{}
