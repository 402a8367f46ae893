//! What tags mean, and why a body means nothing.

ghost use Rattle.std.specs.Prelude.{◌≡◌};
ghost use Rattle.multi_tag.specs.Fault.{fault_code};

use crate::just::{LineJust, PageJust};
use thiserror::Error;

/// A font, and the version that it must have (NTCIP 1203 v03, MULTI tag 'fo').
#[derive(Clone, Copy, Debug, PartialEq, Eq)]
pub struct FontPick {
    /// The font's number: 1 to 255.
    pub number: u8,
    /// The version that the font must have; `None` asks for no version.
    pub version: Option<u16>,
}

/// The value of a tag (NTCIP 1203 v03, MULTI). `None` stands for the sign's default.
#[derive(Clone, Copy, Debug, PartialEq, Eq)]
pub enum Tag {
    /// A new page ('np').
    NewPage,
    /// A new line, and the gap above it in pixels; `None` is the usual gap ('nl').
    NewLine(Option<u8>),
    /// Line justification ('jl').
    LineJust(Option<LineJust>),
    /// Page justification ('jp').
    PageJust(Option<PageJust>),
    /// A font ('fo').
    Font(Option<FontPick>),
    /// Character spacing in pixels ('sc').
    CharSpacing(u8),
    /// The end of character spacing ('/sc').
    CharSpacingEnd,
    /// How long a page is shown, and how long the sign is dark after it, in tenths of a second ('pt').
    PageTime {
        on: Option<u8>,
        off: Option<u8>,
    },
    /// Flashing text, how long it is on and how long off, in tenths of a second, and which comes first ('fl').
    Flash {
        off_first: bool,
        on: Option<u8>,
        off: Option<u8>,
    },
    /// The end of flashing ('/fl').
    FlashEnd,
    /// The foreground's colour: 0 to 9 ('cf').
    Fore(Option<u8>),
    /// The page background's colour: 0 to 9 ('pb').
    Back(Option<u8>),
    /// A text rectangle: the column and the row of its first pixel, its width and its height, each 0 to
    /// 99999 pixels ('tr').
    Rect {
        x: u32,
        y: u32,
        w: u32,
        h: u32,
    },
    /// The character of a number: 1 to 65,535 ('hc').
    HexChar(u16),
}

/// Why a tag has no value.
#[derive(Clone, Copy, Debug, PartialEq, Eq, Error)]
pub enum TagFault {
    /// No name of the table begins the body.
    #[error("unsupported tag")]
    Unsupported,
    /// A name of the table begins the body, but the rest has none of its forms, or a number is outside its range.
    #[error("unsupported tag value")]
    Value,
}

impl TagFault {
    /// The number of the fault: 3 unsupportedTag, 4 unsupportedTagValue
    /// (NTCIP 1203 v03, dmsMultiSyntaxError).
    pub fn code(self) -> u8
        ensures { result ≡ fault_code self }
    {
        match self {
            TagFault::Unsupported => 3,
            TagFault::Value => 4,
        }
    }
}
