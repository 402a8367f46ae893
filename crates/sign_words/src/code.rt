//! The codes of what is found in a sign file.

ghost use Rattle.std.specs.Prelude.{◌≡◌};
ghost use Rattle.sign_words.specs.Names.{code_word};

/// What kind of thing is found in a sign file (own).
#[derive(Clone, Copy)]
pub(crate) enum Code {
    /// The octets are no text in UTF-8.
    NotText,
    /// The text nests too deep.
    TooDeep,
    /// The text is no TOML.
    NotToml,
    /// The program doesn't take the file, and nothing says why.
    NotTaken,
    /// A line has too many octets for the commands that read lines.
    LongLine,
    /// A line is the mark at which those commands end the file.
    MarkLine,
    /// A key isn't there, and has no default.
    Missing,
    /// A key stands in a table to which it doesn't belong.
    Misplaced,
    /// A value is of another kind, or outside its limits.
    WrongValue,
    /// There are too many of a thing.
    TooMany,
    /// A text has too many octets.
    TooLong,
    /// The digits of a cell are more or fewer than its pixels need, or a bit after the last pixel is 1.
    WrongBits,
    /// A number isn't greater than the one before it.
    NotRising,
    /// There is no font, or none with the number of the default font.
    NoFont,
    /// The sign refuses a permanent message.
    Refused,
    /// A key isn't known.
    Unknown,
    /// Text in the default colours can't be seen.
    SameColour,
    /// The longest message can't be stored.
    FewBytes,
    /// A permanent message asks for what the sign hasn't.
    NoService,
    /// The default font has no space.
    NoSpace,
    /// The default font has no characters.
    EmptyFont,
    /// The default font is taller than the sign.
    TallFont,
    /// A default time is 0.
    NoTime,
    /// Two permanent messages are alike.
    Alike,
    /// A text has a line feed, or what is one elsewhere.
    LineFeed,
}

impl Code {
    /// Its word, by which programs know it.
    #[tactic(auto, unfolding(crate::specs::Names::code_word))]
    pub(crate) fn word(self) -> &'static str
        ensures { result.now ≡ code_word self }
    {
        match self {
            Code::NotText => "not-text",
            Code::TooDeep => "too-deep",
            Code::NotToml => "not-toml",
            Code::NotTaken => "not-taken",
            Code::LongLine => "long-line",
            Code::MarkLine => "mark-line",
            Code::Missing => "missing",
            Code::Misplaced => "misplaced",
            Code::WrongValue => "wrong-value",
            Code::TooMany => "too-many",
            Code::TooLong => "too-long",
            Code::WrongBits => "wrong-bits",
            Code::NotRising => "not-rising",
            Code::NoFont => "no-font",
            Code::Refused => "refused",
            Code::Unknown => "unknown",
            Code::SameColour => "same-colour",
            Code::FewBytes => "few-bytes",
            Code::NoService => "no-service",
            Code::NoSpace => "no-space",
            Code::EmptyFont => "empty-font",
            Code::TallFont => "tall-font",
            Code::NoTime => "no-time",
            Code::Alike => "alike",
            Code::LineFeed => "line-feed",
        }
    }
}
