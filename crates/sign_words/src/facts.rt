//! What a sign file says, for programs.

ghost use Rattle.std.specs.Prelude.{◌≡◌, ◌++◌, List, ℕ, IfOk, OnOk, string_bytes};
ghost use Rattle.sign_words.specs.Told.{IsDocument, IsOfSign, sign_of};

use crate::cells::{cell_octets, cells_crc};
use crate::describe::Setup;
use crate::findings::{Finding, Findings};
use crate::json::Document;
use crate::members::push_found;
use crate::refusal::PermanentRefusal;
use crate::told::{push_count, push_text};
use message_store::{Permanent, Store, StoreLimits, message_crc};
use multi_token::Source;
use sign_font::{Cell, Defaults, FontInfo, LineFill, Sign};
use std::alloc::{AllocError, Global};
use std::fmt::Write;

/// What is told beside the facts of a sign, and where memory comes from.
#[derive(Clone, Copy)]
pub(crate) struct Facts<'a> {
    pub(crate) alloc: Global,
    pub(crate) found: &'a Findings,
    pub(crate) refusals: &'a [PermanentRefusal],
    pub(crate) explanations: &'a [String],
    /// The font whose cells are told, if one is named.
    pub(crate) font: Option<u8>,
}

/// `true` or `false`.
fn truth(is_so: bool) -> &'static str {
    if is_so { "true" } else { "false" }
}

/// Writes the defaults.
fn push_defaults(document: &mut Document, defaults: Defaults) -> Result<(), AllocError> {
    document.open("defaults", '{')?;
    let facts = [
        ("font", u64::from(defaults.font)),
        ("line", u64::from(defaults.line)),
        ("page", u64::from(defaults.page)),
        ("page_on", u64::from(defaults.page_on)),
        ("page_off", u64::from(defaults.page_off)),
        ("flash_on", u64::from(defaults.flash_on)),
        ("flash_off", u64::from(defaults.flash_off)),
        ("fore", u64::from(defaults.fore)),
        ("back", u64::from(defaults.back)),
    ];
    document.numbers(&facts)?;
    document.close('}')
}

/// Writes a cell, with its pixels as a sign file has them.
fn push_cell(
    alloc: Global,
    document: &mut Document,
    number: u16,
    cell: &Cell<'_>,
) -> Result<(), AllocError> {
    let mut bits = String::new(alloc);
    let octets = cell_octets(alloc, cell)?;
    for octet in octets.iter().copied() {
        write!(bits, "{octet:02x}")?;
    }
    document.open("", '{')?;
    let facts = [
        ("number", u64::from(number)),
        ("width", u64::from(cell.width())),
    ];
    document.numbers(&facts)?;
    document.text("bits", &bits)?;
    document.close('}')
}

/// Writes all cells of a font.
fn push_cells(
    alloc: Global,
    document: &mut Document,
    sign: &Sign,
    font: FontInfo,
) -> Result<(), AllocError> {
    document.open("cells", '[')?;
    let mut source = Source::new(b"");
    for character in 1..=65535u16 {
        if let Some(cell) = sign.cell(&mut source, font.number, character) {
            push_cell(alloc, document, character, &cell)?;
        }
    }
    document.close(']')
}

/// Writes the numbers of a font's characters.
fn push_characters(document: &mut Document, sign: &Sign, font: FontInfo) -> Result<(), AllocError> {
    document.open("characters", '[')?;
    let mut source = Source::new(b"");
    for character in 1..=65535u16 {
        if sign
            .cell_width(&mut source, font.number, character)
            .is_some()
        {
            document.numbers(&[("", u64::from(character))])?;
        }
    }
    document.close(']')
}

/// Writes a font and the numbers of its characters, and its cells if they are asked for.
fn push_font(
    alloc: Global,
    document: &mut Document,
    sign: &Sign,
    font: FontInfo,
    has_cells: bool,
) -> Result<(), AllocError> {
    document.open("", '{')?;
    let facts = [
        ("number", u64::from(font.number)),
        ("version", u64::from(font.version)),
        ("height", u64::from(font.height)),
        ("char_spacing", u64::from(font.char_spacing)),
        ("line_spacing", u64::from(font.line_spacing)),
        ("cells_crc", u64::from(cells_crc(alloc, sign, font)?)),
    ];
    document.numbers(&facts)?;
    push_characters(document, sign, font)?;
    if has_cells {
        push_cells(alloc, document, sign, font)?;
    }
    document.close('}')
}

/// Writes all fonts.
fn push_fonts(document: &mut Document, sign: &Sign, facts: &Facts<'_>) -> Result<(), AllocError> {
    document.open("fonts", '[')?;
    let mut source = Source::new(b"");
    for number in 1..=255u8 {
        if let Some(font) = sign.font(&mut source, number) {
            push_font(
                facts.alloc,
                document,
                sign,
                font,
                facts.font == Some(number),
            )?;
        }
    }
    document.close(']')
}

/// Writes where the first octet of a finding stands.
fn push_position(document: &mut Document, finding: &Finding) -> Result<(), AllocError> {
    let place = [
        ("line", finding.line as u64),
        ("column", finding.column as u64),
    ];
    document.numbers(&place)
}

/// Writes a refusal, which stands at this place among all.
fn push_refusal(
    document: &mut Document,
    facts: &Facts<'_>,
    place: usize,
    refusal: PermanentRefusal,
) -> Result<(), AllocError> {
    document.open("refused", '{')?;
    if let Some(finding) = facts.found.refusals.get(place) {
        push_position(document, finding)?;
    }
    let numbers = [
        ("code", u64::from(refusal.code)),
        ("octet", refusal.at as u64),
    ];
    document.numbers(&numbers)?;
    if let Some(explanation) = facts.explanations.get(place) {
        document.text("explanation", explanation)?;
    }
    document.close('}')
}

/// Writes why the sign refuses the permanent message of a number, or nothing if it doesn't.
fn push_refused(
    document: &mut Document,
    number: usize,
    facts: &Facts<'_>,
) -> Result<(), AllocError> {
    for (place, refusal) in facts.refusals.iter().enumerate() {
        if usize::from(refusal.number) == number {
            return push_refusal(document, facts, place, *refusal);
        }
    }
    document.word("refused", "null")
}

/// Writes a permanent message, up to why it is refused.
fn push_permanent(
    document: &mut Document,
    number: usize,
    message: &Permanent,
) -> Result<(), AllocError> {
    document.open("", '{')?;
    document.numbers(&[("number", number as u64)])?;
    // a text of a sign file is UTF-8
    document.text("multi", str::from_utf8(&message.multi).unwrap_or(""))?;
    let crc = message_crc(&message.multi, message.beacon, message.pixel);
    document.numbers(&[
        ("priority", u64::from(message.priority)),
        ("beacon", u64::from(message.beacon)),
        ("pixel", u64::from(message.pixel)),
        ("crc", u64::from(crc)),
    ])
}

/// Writes all permanent messages.
fn push_permanents(
    document: &mut Document,
    permanents: &[Permanent],
    facts: &Facts<'_>,
) -> Result<(), AllocError> {
    document.open("permanents", '[')?;
    for (place, message) in permanents.iter().enumerate() {
        let number = place.saturating_add(1);
        push_permanent(document, number, message)?;
        push_refused(document, number, facts)?;
        document.close('}')?;
    }
    document.close(']')
}

/// Writes what a sign is, from its height on, and what its message table holds.
fn push_sign(document: &mut Document, sign: &Sign, limits: StoreLimits) -> Result<(), AllocError> {
    let scheme = if sign.classic() {
        "classic"
    } else {
        "monochrome"
    };
    let line_fill = match sign.line_fill() {
        LineFill::Off => "none",
        LineFill::Words => "words",
    };
    document.numbers(&[("height", u64::from(sign.height()))])?;
    document.text("scheme", scheme)?;
    document.numbers(&[("max_pages", u64::from(sign.max_pages()))])?;
    document.word("beacons", truth(sign.beacons()))?;
    document.word("pixel_service", truth(sign.pixel_service()))?;
    document.text("line_fill", line_fill)?;
    document.numbers(&[
        ("slots", u64::from(limits.slots)),
        ("bytes", u64::from(limits.bytes)),
        ("max_string", u64::from(limits.max_string)),
    ])
}

/// The facts of a sign, as the last member of a document.
fn sign_json(sign: &Sign, store: &Store, facts: &Facts<'_>) -> Result<String, AllocError> {
    let mut document = Document::within(facts.alloc);
    push_sign(&mut document, sign, store.limits())?;
    push_defaults(&mut document, sign.defaults())?;
    push_fonts(&mut document, sign, facts)?;
    push_permanents(&mut document, store.permanents(), facts)?;
    document.close('}')?;
    document.close('}')?;
    document.finish()
}

/// Appends what a sign file sets up, or nothing if it isn't taken.
fn push_setup(text: &mut String, setup: Option<&Setup>, facts: &Facts<'_>) -> Result<(), AllocError>
    ensures { OnOk result ((facts : List ℕ) × IsOfSign (sign_of setup.entry) facts
        × (string_bytes text.new ≡ string_bytes text.old ++ facts)) }
{
    let Some(Setup { sign, store }) = setup else {
        return push_text(text, ",\n  \"sign\": null\n}\n");
    };
    let rest = sign_json(sign, store, facts)?;
    push_text(text, ",\n  \"sign\": {\n    \"width\": ")?;
    push_count(text, usize::from(sign.width()))?;
    push_text(text, &rest)
}

/// What a sign file says, in JSON (own). `taken` says whether the program takes it, and `sign` has its facts then.
pub(crate) fn json_of(facts: &Facts<'_>, setup: Option<&Setup>) -> Result<String, AllocError>
    ensures { IfOk result (λ text. IsDocument (sign_of setup.entry) facts.now.found.now (string_bytes text)) }
{
    let mut text = String::new(facts.alloc);
    push_found(facts.alloc, &mut text, setup.is_some(), facts.found)?;
    push_setup(&mut text, setup, facts)?;
    Ok(text)
}
