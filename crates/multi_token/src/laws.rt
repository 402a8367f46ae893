//! What holds of every spelling.

ghost use Rattle.multi_token.specs.Broken.{OpenIsMended, OpenOrBroken};
ghost use Rattle.multi_token.specs.Spelling.{OneReading};
ghost use Rattle.multi_token.specs.Tokens.{NoSpellingBeginsAnother};
ghost use Rattle.multi_token.specs.Reading.{EachStringHasAReading};

/// A law of the definitions: no item's spelling begins another's.
pub fn no_spelling_begins_another()
    ensures { NoSpellingBeginsAnother }
{}

/// A law of the definitions: every string has a reading.
pub fn each_string_has_a_reading()
    ensures { EachStringHasAReading }
{}

/// A law of the definitions: a string has no two readings.
pub fn one_reading()
    ensures { OneReading }
{}

/// A law of the definitions: a bracket with which no item begins is open, so that what follows can make an item of it, or it stays
/// broken whatever follows. Open are a `]` at the end of a string, and a `[` with nothing but octets of a body between it and the
/// end.
pub fn what_can_be_mended()
    ensures broken { OpenOrBroken }
    ensures mended { OpenIsMended }
{}
