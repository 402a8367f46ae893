//! The words on a message.
ghost use Rattle.std.specs.Prelude.{◌≡◌, ◌≢◌, ◌-◌, All, IfOk, IfSome, length, nat_lt, take};

use crate::characters::FontCharacters;
use crate::excerpt::{Excerpt, excerpt_of, plain_line, write_message};
use sign_font::Sign;
use std::alloc::{AllocError, Global};
use std::fmt;
use std::fmt::{Display, Formatter, Write};

/// What tells that more octets of a message stand after those that are shown (own).
pub const MORE: &str = " ..";

/// The first octets of a message, for a line: each as itself, or as `?` if it isn't a sign or a space of ASCII (own). Written by
/// `Display`.
#[derive(Clone, Copy)]
pub struct MessageLine<'a>(pub &'a [u8]);

impl<'a> MessageLine<'a> {
    /// The octets that are shown and whether more stand after them, which [`MORE`] tells, if each is shown as it is.
    #[inline(always)]
    pub fn as_plain(&self) -> Option<(&'a [u8], bool)>
        ensures shown { IfSome result (λ (front, more). (front.now ≡ take 76 self.now.0.now) × (more ≡ nat_lt 76 (length self.now.0.now))) }
        ensures plain { IfSome result (λ (front, more). All (λ c. c ≢ 10) front.now) }
    {
        plain_line(self.0)
    }
}

impl Display for MessageLine<'_> {
    fn fmt<W: Write>(&self, f: &mut Formatter<W>) -> fmt::Result {
        write_message(f, self.0)
    }
}

/// Why a message is refused (own): what is shown of the message around the octet where it is refused, and the reason with its numbers.
#[derive(Clone, Copy)]
pub struct Refusal<'a> {
    /// Where memory comes from.
    pub alloc: Global,
    /// The sign that refuses it.
    pub sign: &'a Sign,
    /// A sign of [`LARGE_COLUMNS`](crate::LARGE_COLUMNS) and [`LARGE_ROWS`](crate::LARGE_ROWS) with its fonts and defaults, if there is
    /// one: by it is told how much room the message lacks.
    pub large: Option<&'a Sign>,
    /// The characters of its fonts.
    pub fonts: &'a [FontCharacters],
    /// The message.
    pub message: &'a [u8],
    /// The number of the error (NTCIP 1203 v03, dmsMultiSyntaxError).
    pub code: u8,
    /// The octet where it stands, counted from 0.
    pub at: usize,
}

impl Refusal<'_> {
    /// What is shown of the message: its characters from at most 60 octets before the place. The error says that memory was refused.
    pub fn excerpt(&self) -> Result<Excerpt, AllocError>
        ensures { IfOk result (λ excerpt. excerpt.first ≡ self.now.at - 60) }
    {
        excerpt_of(self.alloc, self.message, self.at)
    }

    /// The sentence that says why, without the message. The error says that memory was refused.
    pub fn reason(&self) -> Result<String, AllocError> {
        let mut words = String::new(self.alloc);
        self.write_reason(&mut words)?;
        Ok(words)
    }
}

/// That pages don't change, since the sum of all on times and off times is 0 (own): a line.
pub const NO_TIMES: &str = "all times are 0, so page 1 is shown all the time\n";

/// That text flashes, before and after the number of tenths of a second after which its page is drawn (own): a line.
pub const FLASHING: [&str; 2] = [
    "text flashes, and is drawn as it is ",
    " tenths of a second after its page began\n",
];

/// What the marks of the pictures of a classic sign's pages mean (own): a line.
pub const COLOUR_MARKS: &str =
    "colours: 1 red, 2 yellow, 3 green, 4 cyan, 5 blue, 6 magenta, 7 white, 8 orange, 9 amber, . black\n";

/// The same of a monochrome sign (own).
pub const PIXEL_MARKS: &str = "pixels: 1 lit, . dark\n";
