//! Why a string is refused.

ghost use Rattle.std.specs.Prelude.{◌≡◌};

use thiserror::Error;

/// What is wrong with a string (NTCIP 1203 v03, dmsMultiSyntaxError).
#[derive(Clone, Copy, Debug, PartialEq, Eq, Error)]
pub enum SyntaxError {
    /// A tag that the sign doesn't support, or a broken bracket.
    #[error("unsupported tag")]
    UnsupportedTag,
    /// A tag whose value is in no listed form, or a rectangle that isn't inside the sign.
    #[error("unsupported tag value")]
    UnsupportedTagValue,
    /// A line no longer fits the width of its rectangle, or an area no longer fits its height.
    #[error("text too big")]
    TextTooBig,
    /// The sign has no font of this number.
    #[error("font not defined")]
    FontNotDefined,
    /// The font in force has no cell for the character.
    #[error("character not defined")]
    CharacterNotDefined,
    /// A page justification goes back within an area, or a line justification goes back within a line, or a line has
    /// full justification beside another one.
    #[error("tag conflict")]
    TagConflict,
    /// The tag `np` would begin a page past the sign's limit.
    #[error("too many pages")]
    TooManyPages,
    /// The font doesn't have the version that the tag asks for.
    #[error("font version")]
    FontVersionId,
}

impl SyntaxError {
    ghost use Rattle.multi_meaning.specs.Codes.{code_of};

    /// The number of the error: 3 unsupportedTag, 4 unsupportedTagValue, 5 textTooBig, 6 fontNotDefined,
    /// 7 characterNotDefined, 11 tagConflict, 12 tooManyPages, 13 fontVersionID.
    pub fn code(self) -> u8
        ensures { result ≡ code_of self }
    {
        match self {
            SyntaxError::UnsupportedTag => 3,
            SyntaxError::UnsupportedTagValue => 4,
            SyntaxError::TextTooBig => 5,
            SyntaxError::FontNotDefined => 6,
            SyntaxError::CharacterNotDefined => 7,
            SyntaxError::TagConflict => 11,
            SyntaxError::TooManyPages => 12,
            SyntaxError::FontVersionId => 13,
        }
    }
}
