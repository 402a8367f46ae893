//! Texts that are tried on a sign.

ghost use Rattle.std.specs.Prelude.{◌≡◌, ◌+◌, ◌<◌};
ghost use Rattle.message_cures.specs.Cures.{IsTried};

use multi_layout::{Judge, Offence};
use multi_token::Source;

/// The most octets that a message may have to be judged (own).
pub(crate) const MAX_MESSAGE: usize = 4_096;

/// How often texts are judged at most while a message is mended (own).
pub const MOST_JUDGED: u8 = 100;

/// What a sign makes of a text (own).
#[derive(Clone, Copy)]
pub(crate) enum Answer {
    /// It takes it.
    Taken,
    /// It refuses it, and this is its first offence.
    Refused(Offence),
    /// It has too many octets.
    TooLong,
}

/// Tries a text on a sign, and counts that.
pub(crate) fn tried(judge: &Judge<'_>, judged: &mut u8, text: &[u8]) -> Answer
    requires few { judged.old < 200 }
    ensures tried { IsTried judge.now text.now result }
    ensures counted { judged.new ≡ judged.old + 1 }
{
    *judged += 1;
    if text.len() > MAX_MESSAGE {
        return Answer::TooLong;
    }
    match judge.pages(&mut Source::new(text)) {
        Ok(_) => Answer::Taken,
        Err(offence) => Answer::Refused(offence),
    }
}
