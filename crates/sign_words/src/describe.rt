//! What a sign file describes.

ghost use Rattle.std.specs.Prelude.{◌≡◌, ◌++◌, OnOk, string_bytes};
ghost use Rattle.sign_words.specs.Told.{size_told};

use crate::cells::cells_crc;
use crate::keys::{COLOURS, GROUPS, LIGHTS, LINES};
use crate::part::{Part, tell};
use crate::told::{push_count, push_text};
use message_store::{Permanent, Store, StoreLimits, message_crc};
use multi_token::Source;
use sign_font::{FontInfo, LineFill, Sign};
use std::alloc::{AllocError, Global};
use std::fmt;
use std::fmt::{Display, Formatter, Write};

/// What a sign file sets up, as far as words tell of it (own).
#[derive(Drop)]
pub struct Setup {
    /// The sign.
    pub sign: Sign,
    /// Its messages, none of which is changed yet.
    pub store: Store,
}

/// The name of a number, if it has one; the first name is that of the number `first`.
fn name_of(names: &[&'static str], first: u8, number: u8) -> Part<'static> {
    let place = usize::from(number).wrapping_sub(usize::from(first));
    Part::Words(names.get(place).copied().unwrap_or(""))
}

/// A number of an octet.
fn small<'a>(number: u8) -> Part<'a> {
    Part::Number(i64::from(number))
}

/// A number of two octets.
fn short<'a>(number: u16) -> Part<'a> {
    Part::Number(i64::from(number))
}

/// `yes` or `no`.
fn truth(is_so: bool) -> Part<'static> {
    Part::Words(if is_so { "yes" } else { "no" })
}

/// Appends the size of a sign in pixels.
pub(crate) fn push_size(text: &mut String, sign: &Sign) -> Result<(), AllocError>
    ensures { OnOk result (string_bytes text.new ≡ string_bytes text.old ++ size_told sign.now) }
{
    push_text(text, "sign: ")?;
    push_count(text, usize::from(sign.width()))?;
    push_text(text, " by ")?;
    push_count(text, usize::from(sign.height()))?;
    push_text(text, " pixels ")
}

/// Writes what a sign is, from its scheme on.
fn describe_sign(text: &mut String, sign: &Sign) -> Result<(), AllocError> {
    let scheme = if sign.classic() {
        "in the classic colours"
    } else {
        "of one colour"
    };
    let filling = match sign.line_fill() {
        LineFill::Off => "not filled",
        LineFill::Words => "filled by words",
    };
    let told = "@\nmessages: up to @ pages\nlines: @\nbeacons: @\npixel service: @\n";
    let parts = [
        Part::Words(scheme),
        small(sign.max_pages()),
        Part::Words(filling),
        truth(sign.beacons()),
        truth(sign.pixel_service()),
    ];
    tell(text, told, &parts)
}

/// Writes how much the message table of a sign holds.
fn describe_limits(text: &mut String, limits: StoreLimits) -> Result<(), AllocError> {
    let told = "changeable messages: @ with @ octets together\ntexts: up to @ octets\n";
    let parts = [
        short(limits.slots),
        Part::Number(i64::from(limits.bytes)),
        short(limits.max_string),
    ];
    tell(text, told, &parts)
}

/// The name of a colour of a sign, which has the classic colours, or lit and dark pixels alone.
fn colour_of(sign: &Sign, colour: u8) -> Part<'static> {
    if sign.classic() {
        name_of(&COLOURS, 0, colour)
    } else {
        name_of(&LIGHTS, 0, colour.min(1))
    }
}

/// Writes the defaults.
fn describe_defaults(text: &mut String, sign: &Sign) -> Result<(), AllocError> {
    let defaults = sign.defaults();
    let told = "default font: @\ndefault lines: @, @\ndefault groups: @, @\n\
        default page times: @ tenths of a second on, @ off\ndefault flash times: @ tenths of a second on, @ off\n\
        default foreground: @, @\ndefault background: @, @\n";
    let parts = [
        small(defaults.font),
        small(defaults.line),
        name_of(&LINES, 2, defaults.line),
        small(defaults.page),
        name_of(&GROUPS, 2, defaults.page),
        small(defaults.page_on),
        small(defaults.page_off),
        small(defaults.flash_on),
        small(defaults.flash_off),
        small(defaults.fore),
        colour_of(sign, defaults.fore),
        small(defaults.back),
        colour_of(sign, defaults.back),
    ];
    tell(text, told, &parts)
}

/// The characters that a font of a sign has, as runs of numbers with a space before each, or ` none` (own). Written by `Display`.
#[derive(Clone, Copy)]
pub struct Characters<'a> {
    /// The sign.
    pub sign: &'a Sign,
    /// The number of the font.
    pub font: u8,
}

impl Characters<'_> {
    /// Whether the font has a character.
    fn has(&self, number: u16) -> bool {
        let mut source = Source::new(b"");
        self.sign
            .cell_width(&mut source, self.font, number)
            .is_some()
    }
}

impl Display for Characters<'_> {
    fn fmt<W: Write>(&self, f: &mut Formatter<W>) -> fmt::Result {
        let mut is_empty = true;
        // whether the character before is there, and this one
        let (mut before, mut is_there) = (false, self.has(1));
        for number in 1..=65535u16 {
            let is_next = number < 65535 && self.has(number.saturating_add(1));
            let mark = match (before, is_there, is_next) {
                (false, true, _) => " ",
                (true, true, false) => "-",
                _ => "",
            };
            if !mark.is_empty() {
                is_empty = false;
                write!(f, "{mark}{number}")?;
            }
            before = is_there;
            is_there = is_next;
        }
        f.write_str(if is_empty { " none" } else { "" })
    }
}

/// Writes a font and which characters it has.
fn describe_font(
    alloc: Global,
    text: &mut String,
    sign: &Sign,
    font: FontInfo,
) -> Result<(), AllocError> {
    let told = "font @: version @, in MULTI [fo@,@]\n\
        font @: height @, character spacing @, line spacing @\nfont @: characters@\nfont @: CRC of its cells @\n";
    let characters = Characters {
        sign,
        font: font.number,
    };
    let characters = format!(in alloc; "{characters}")?;
    let number = small(font.number);
    let parts = [
        number,
        short(font.version),
        number,
        Part::Version(font.version),
        number,
        small(font.height),
        small(font.char_spacing),
        small(font.line_spacing),
        number,
        Part::Words(&characters),
        number,
        Part::Crc(cells_crc(alloc, sign, font)?),
    ];
    tell(text, told, &parts)
}

/// Writes how many permanent messages there are, by which CRC each is activated, and its priority.
fn describe_permanents(text: &mut String, permanents: &[Permanent]) -> Result<(), AllocError> {
    let count = Part::Count(permanents.len());
    tell(text, "permanent messages: @\n", &[count])?;
    for (place, message) in permanents.iter().enumerate() {
        let crc = message_crc(&message.multi, message.beacon, message.pixel);
        let parts = [
            Part::Count(place.saturating_add(1)),
            Part::Crc(crc),
            small(message.priority),
        ];
        tell(text, "permanent message @: CRC @, priority @\n", &parts)?;
    }
    Ok(())
}

/// What a sign file describes, from the scheme of its sign on.
pub(crate) fn description(alloc: Global, setup: &Setup) -> Result<String, AllocError> {
    let Setup { sign, store } = setup;
    let mut text = String::new(alloc);
    describe_sign(&mut text, sign)?;
    describe_limits(&mut text, store.limits())?;
    describe_permanents(&mut text, store.permanents())?;
    describe_defaults(&mut text, sign)?;
    let mut source = Source::new(b"");
    for number in 1..=255u8 {
        if let Some(font) = sign.font(&mut source, number) {
            describe_font(alloc, &mut text, sign, font)?;
        }
    }
    Ok(text)
}
