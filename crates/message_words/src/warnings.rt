//! What the writer of an accepted message can hardly have meant, or what is hard to read.
ghost use Rattle.std.specs.Prelude.{◌≡◌, ◌++◌, ◌<◌, ◌≤◌, List, All, IfOk, OnOk, length};
ghost use Rattle.message_words.specs.Warned.{AreWarnings, IsSeen, is_seen};
ghost use Rattle.message_words.specs.declared.warnings.Warning.{Warning};

use crate::code::{CODES, WarningCode};
use crate::decided::decided;
use crate::piece::tag_of;
use crate::plain::is_seen_in;
use crate::sentence::Value::Number;
use crate::sentence::{Value, sentence_of};
use crate::sight::{Run, Sight};
use multi_layout::Checked;
use multi_tag::Tag;
use sign_font::Sign;
use std::alloc::{AllocError, Global};

/// A warning on an accepted message (own).
#[derive(Drop)]
pub struct Warning {
    /// The octet where it stands, counted from 0.
    pub at: usize,
    /// What it is on.
    pub code: WarningCode,
    /// A sentence.
    pub words: String,
}

/// What is found in an accepted message (own).
#[derive(Drop)]
pub struct Findings {
    /// What its writer can't have meant.
    pub warnings: Vec<Warning>,
    /// Whether a character has a flash with an off time (NTCIP 1203 v03, MULTI tag 'fl').
    pub flashes: bool,
}

/// The number of the space.
const SPACE: u16 = 32;

/// What has been read of a message.
#[derive(Drop)]
struct Reading<'a> {
    alloc: Global,
    sign: &'a Sign,
    message: &'a [u8],
    /// The codes that are told.
    told: [bool; CODES],
    /// How many pages it has.
    pages: u8,
    found: Findings,
    /// The page, counted from 0, and the octet where it begins.
    page: u8,
    begin: usize,
    /// Whether no tag so far can hide text, and each page before this one has a character that is no space.
    is_plain: bool,
    /// Whether this page has one.
    has_text: bool,
    /// Whether a flash with an off time is in force.
    is_flashing: bool,
}

impl<'a> Reading<'a> {
    /// A message before its first item.
    #[inline(always)]
    fn new(
        alloc: Global,
        sign: &'a Sign,
        message: &'a [u8],
        told: [bool; CODES],
        pages: u8,
    ) -> Reading<'a> {
        let defaults = sign.defaults();
        Reading {
            alloc,
            sign,
            message,
            told,
            pages,
            found: Findings {
                warnings: Vec::new(alloc),
                flashes: false,
            },
            page: 0,
            begin: 0,
            is_plain: is_seen_in(sign, defaults.fore),
            has_text: false,
            is_flashing: false,
        }
    }

    /// Adds a warning in a sentence with these values, if its code is told.
    fn say(
        &mut self,
        at: usize,
        code: WarningCode,
        sentence: &str,
        values: &[Value<'_>],
    ) -> Result<(), AllocError> {
        if !code.is_told(self.told) {
            return Ok(());
        }
        let words = sentence_of(self.alloc, sentence, values)?;
        Ok(self.found.warnings.push(Warning { at, code, words })?)
    }

    /// The number of the page, counted from 1.
    fn page_number(&self) -> Value<'static> {
        Number(u64::from(self.page).saturating_add(1))
    }

    /// Passes a character.
    fn pass_character(&mut self, number: u16) {
        if self.is_flashing {
            self.found.flashes = true;
        }
        if number != SPACE {
            self.has_text = true;
        }
    }

    /// Passes characters that aren't written by their numbers.
    #[inline(always)]
    fn pass_text(&mut self, text: &[u8]) {
        if self.is_flashing {
            self.found.flashes = true;
        }
        if text.iter().any(|octet| *octet != b' ') {
            self.has_text = true;
        }
    }

    /// The offset at which the last octets of the message begin.
    #[inline(always)]
    fn offset(&self, rest: &[u8]) -> usize {
        self.message.len().saturating_sub(rest.len())
    }

    /// Passes a tag that begins a page. On these pages nothing is lit.
    #[inline(always)]
    fn pass_page(&mut self, behind: &[u8], dark: &[u8]) -> Result<(), AllocError> {
        self.look_back(dark)?;
        self.is_plain = self.is_plain && self.has_text;
        self.has_text = false;
        self.begin = self.offset(behind);
        self.page = self.page.saturating_add(1);
        Ok(())
    }

    /// Passes a tag that begins no page and shows no character.
    #[inline(always)]
    fn set(&mut self, tag: Tag) {
        match tag {
            Tag::Back(colour) => {
                // the same background hides nothing where no text stands before it
                let usual = self.sign.defaults().back;
                let is_same = colour.unwrap_or(usual) == usual;
                self.is_plain = self.is_plain && is_same && !self.has_text;
            }
            Tag::Fore(colour) => {
                let fore = colour.unwrap_or(self.sign.defaults().fore);
                self.is_plain = self.is_plain && is_seen_in(self.sign, fore);
            }
            Tag::Flash { on, off, .. } => {
                let defaults = self.sign.defaults();
                self.is_flashing = off.unwrap_or(defaults.flash_off) > 0;
                self.is_plain = self.is_plain && on.unwrap_or(defaults.flash_on) > 0;
            }
            Tag::FlashEnd => self.is_flashing = false,
            _ => {}
        }
    }

    /// Passes a tag after which these octets of the message stand. On these pages nothing is lit.
    #[inline(always)]
    fn pass_tag(&mut self, tag: Tag, behind: &[u8], dark: &[u8]) -> Result<(), AllocError> {
        match tag {
            Tag::NewPage => return self.pass_page(behind, dark),
            Tag::Rect { .. } => self.is_plain = false,
            Tag::HexChar(number) => self.pass_character(number),
            _ => self.set(tag),
        }
        Ok(())
    }

    /// Warns of a page if it is one of those on which nothing is lit.
    #[inline(never)]
    fn look_at_page(&mut self, dark: &[u8]) -> Result<(), AllocError> {
        if !dark.contains(&self.page) {
            return Ok(());
        }
        self.say(
            self.begin,
            WarningCode::DarkPage,
            "nothing is lit on page {}",
            &[self.page_number()],
        )
    }

    /// Warns at the end of a page. On these pages nothing is lit.
    #[inline(always)]
    fn look_back(&mut self, dark: &[u8]) -> Result<(), AllocError> {
        if !dark.is_empty() {
            self.look_at_page(dark)?;
        }
        Ok(())
    }

    /// Passes what begins with a bracket: a tag, or a doubled bracket. It gives what stands after it. On these pages nothing is lit.
    #[inline(always)]
    fn pass_bracket(&mut self, rest: &'a [u8], dark: &[u8]) -> Result<&'a [u8], AllocError>
        requires { 1 ≤ length rest.now }
        ensures { IfOk result (λ behind. length behind.now < length rest.now) }
    {
        let Some((tag, len)) = tag_of(rest) else {
            self.pass_text(b"[");
            return Ok(rest.get(2..).unwrap_or(b""));
        };
        let behind = &rest[len..];
        self.pass_tag(tag, behind, dark)?;
        Ok(behind)
    }

    /// Passes the octet with which the last octets of the message begin, and those up to the next opening bracket. It gives what stands
    /// after them.
    #[inline(always)]
    fn pass_run(&mut self, rest: &'a [u8]) -> &'a [u8]
        requires { 1 ≤ length rest.now }
        ensures { length result.now < length rest.now }
    {
        let others = &rest[1..];
        let plain = others.iter().position(|octet| *octet == b'[');
        let len = 1 + plain.unwrap_or(others.len());
        self.pass_text(&rest[..len]);
        &rest[len..]
    }

    /// Reads the message. The sign accepts it, so each of its brackets is doubled or stands around a tag. On these pages nothing is lit.
    fn read(&mut self, dark: &[u8]) -> Result<(), AllocError> {
        let mut rest = self.message;
        while let [first, ..] = rest {
            rest = if *first == b'[' {
                self.pass_bracket(rest, dark)?
            } else {
                self.pass_run(rest)
            };
        }
        self.look_back(dark)
    }

    /// Warns of text that isn't seen, or of which a part is covered.
    fn look_at_run(&mut self, sight: &Sight<'a>, run: Run) -> Result<(), AllocError> {
        let (code, words) = if sight.is_seen(run)? {
            if !sight.is_partly_covered(run)? {
                return Ok(());
            }
            (
                WarningCode::OverText,
                "a part of this text can't be seen: text behind it covers it",
            )
        } else if run.is_never_lit() {
            (
                WarningCode::UnlitText,
                "this text is never lit: its flash has no on time",
            )
        } else if sight.is_covered(run)? {
            (
                WarningCode::CoveredText,
                "this text can't be seen: what comes behind it covers it",
            )
        } else {
            (
                WarningCode::SameColour,
                "this text can't be seen: it has the colour of what it covers",
            )
        };
        self.say(run.from, code, words, &[])
    }

    /// Looks at all text that was gathered.
    fn look_at_text(&mut self, sight: &Sight<'a>) -> Result<(), AllocError> {
        for run in &sight.runs {
            self.look_at_run(sight, *run)?;
        }
        Ok(())
    }

    /// Reads the message again, with these pages on which nothing is lit.
    fn read_again(&mut self, dark: &[u8]) -> Result<(), AllocError> {
        let Reading {
            alloc,
            sign,
            message,
            told,
            pages,
            ..
        } = *self;
        *self = Reading::new(alloc, sign, message, told, pages);
        self.read(dark)
    }

    /// Looks at pages without text, and at text that tags can hide. Few messages have any.
    #[inline(never)]
    fn look_closely(&mut self) -> Result<(), AllocError> {
        let sight = Sight::of(self.alloc, self.sign, self.message)?;
        let dark = sight.dark_pages(self.pages)?;
        if !dark.is_empty() {
            self.read_again(&dark)?;
        }
        self.look_at_text(&sight)
    }

    /// Looks at the message.
    fn look(&mut self) -> Result<(), AllocError> {
        self.read(b"")?;
        if !self.is_plain || !self.has_text {
            self.look_closely()?;
        }
        Ok(())
    }
}

/// Whether warnings with a code are told, and found by drawing pages.
fn is_seen(code: WarningCode, told: [bool; CODES]) -> bool
    ensures { result ≡ is_seen told code }
{
    !code.is_decided() && code.is_told(told)
}

/// Adds the warnings that were found by drawing pages.
fn add_seen(
    found: &mut Vec<Warning>,
    seen: Vec<Warning>,
    told: [bool; CODES],
) -> Result<(), AllocError>
    ensures { OnOk result ((more : List Warning) × All (IsSeen told) more × (found.new.items ≡ found.old.items ++ more)) }
{
    for warning in seen {
        if is_seen(warning.code, told) {
            found.push(warning)?;
        }
    }
    Ok(())
}

/// The warnings on a message that a sign accepts (own), of those codes that are told; `docs/writing.md` has each code with its limit. What
/// the sign made of the message is handed in. The error says that memory was refused.
pub fn warnings_on(
    alloc: Global,
    sign: &Sign,
    message: &[u8],
    checked: &Checked<'_>,
    max_string: u16,
    told: [bool; CODES],
) -> Result<Findings, AllocError>
    ensures { IfOk result (λ found. AreWarnings told sign.now max_string message.now found.warnings.items) }
{
    let mut warnings = decided(alloc, sign, message, max_string, told)?;
    let mut reading = Reading::new(alloc, sign, message, told, checked.pages());
    reading.look()?;
    let Findings {
        warnings: seen,
        flashes,
    } = reading.found;
    add_seen(&mut warnings, seen, told)?;
    Ok(Findings { warnings, flashes })
}
