//! Laws of the definitions.

ghost use Rattle.message_cures.specs.Cures.{CaseKeepsLetters};

/// A law of the definitions: a message in capitals, and one in small letters, shows the same letters and digits of ASCII, apart from their
/// case.
pub fn case_keeps_letters()
    ensures { CaseKeepsLetters }
{}
