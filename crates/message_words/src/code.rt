//! The codes of warnings.
ghost use Rattle.std.specs.Prelude.{◌≡◌, ◌≤◌};
ghost use Rattle.message_words.specs.Codes.{code_number, code_text, is_decided, is_told};

/// What a warning is on (own). A code never comes to stand for another warning.
#[derive(Clone, Copy)]
pub enum WarningCode {
    /// `W01`: the message has more octets than the message table takes.
    LongText,
    /// `W02`: a message of one page has an off time.
    IdleOff,
    /// `W03`: a page is shown for too short a time to be read.
    ShortPage,
    /// `W04`: the sign is dark for long between pages.
    LongDark,
    /// `W05`: a space at the end of a line moves the line.
    SpaceAtEnd,
    /// `W06`: a space at the beginning of a line moves the line.
    SpaceAtBegin,
    /// `W07`: a colour of characters on a sign of one colour.
    NoColours,
    /// `W08`: a flash lights more often than twice a second.
    FastFlash,
    /// `W09`: a flash lights 3 to 30 times a second.
    RapidFlash,
    /// `W10`: a flash never goes out.
    EndlessFlash,
    /// `W11`: a flash goes on on the next page.
    OpenFlash,
    /// `W12`: all text flashes.
    AllFlashes,
    /// `W13`: the message has more than two pages.
    ManyPages,
    /// `W14`: a font with a version is asked for without it.
    AnyVersion,
    /// `W15`: nothing is lit on a page.
    DarkPage,
    /// `W16`: text is never lit.
    UnlitText,
    /// `W17`: text is covered.
    CoveredText,
    /// `W18`: text has the colour of what it covers.
    SameColour,
    /// `W19`: text covers a part of other text.
    OverText,
}

/// How many codes there are (own).
pub const CODES: usize = 19;

/// The codes that are told where nothing else is asked for (own): all but `W14`, by their numbers, the first of which is 1.
pub const USUAL_WARNINGS: [bool; CODES] = [
    true, true, true, true, true, true, true, true, true, true, true, true, true, false, true,
    true, true, true, true,
];

impl WarningCode {
    /// Its number, which counts from 1.
    pub fn number(self) -> usize
        ensures number { result ≡ code_number self }
        ensures least { 1 ≤ result }
        ensures most { result ≤ 19 }
    {
        match self {
            WarningCode::LongText => 1,
            WarningCode::IdleOff => 2,
            WarningCode::ShortPage => 3,
            WarningCode::LongDark => 4,
            WarningCode::SpaceAtEnd => 5,
            WarningCode::SpaceAtBegin => 6,
            WarningCode::NoColours => 7,
            WarningCode::FastFlash => 8,
            WarningCode::RapidFlash => 9,
            WarningCode::EndlessFlash => 10,
            WarningCode::OpenFlash => 11,
            WarningCode::AllFlashes => 12,
            WarningCode::ManyPages => 13,
            WarningCode::AnyVersion => 14,
            WarningCode::DarkPage => 15,
            WarningCode::UnlitText => 16,
            WarningCode::CoveredText => 17,
            WarningCode::SameColour => 18,
            WarningCode::OverText => 19,
        }
    }

    /// The code as people and programs read it: a `W`, and its number in two digits.
    pub fn text(self) -> &'static str
        ensures { result.now ≡ code_text self }
    {
        match self {
            WarningCode::LongText => "W01",
            WarningCode::IdleOff => "W02",
            WarningCode::ShortPage => "W03",
            WarningCode::LongDark => "W04",
            WarningCode::SpaceAtEnd => "W05",
            WarningCode::SpaceAtBegin => "W06",
            WarningCode::NoColours => "W07",
            WarningCode::FastFlash => "W08",
            WarningCode::RapidFlash => "W09",
            WarningCode::EndlessFlash => "W10",
            WarningCode::OpenFlash => "W11",
            WarningCode::AllFlashes => "W12",
            WarningCode::ManyPages => "W13",
            WarningCode::AnyVersion => "W14",
            WarningCode::DarkPage => "W15",
            WarningCode::UnlitText => "W16",
            WarningCode::CoveredText => "W17",
            WarningCode::SameColour => "W18",
            WarningCode::OverText => "W19",
        }
    }

    /// Whether it is among the codes that are told.
    pub(crate) fn is_told(self, told: [bool; CODES]) -> bool
        ensures { result ≡ is_told told self }
    {
        match told.get(self.number() - 1) {
            Some(is_told) => *is_told,
            None => false,
        }
    }

    /// Whether definitions decide where its warnings stand. The others are found by drawing pages.
    pub(crate) fn is_decided(self) -> bool
        ensures { result ≡ is_decided self }
    {
        match self {
            WarningCode::DarkPage
            | WarningCode::UnlitText
            | WarningCode::CoveredText
            | WarningCode::SameColour
            | WarningCode::OverText => false,
            _ => true,
        }
    }
}

/// The codes whose warnings definitions decide, in the order in which they are told.
pub(crate) const DECIDED: [WarningCode; 14] = [
    WarningCode::LongText,
    WarningCode::IdleOff,
    WarningCode::ShortPage,
    WarningCode::LongDark,
    WarningCode::SpaceAtEnd,
    WarningCode::SpaceAtBegin,
    WarningCode::NoColours,
    WarningCode::FastFlash,
    WarningCode::RapidFlash,
    WarningCode::EndlessFlash,
    WarningCode::OpenFlash,
    WarningCode::AllFlashes,
    WarningCode::ManyPages,
    WarningCode::AnyVersion,
];
