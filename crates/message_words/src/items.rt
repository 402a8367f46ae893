//! On which items of a message there are warnings.
ghost use Rattle.std.specs.Prelude.{◌≡◌, ◌&&◌, IfOk, not};
ghost use Rattle.message_words.specs.OnItems.{asks_any_version, asks_colour, begins_endless, begins_fast, begins_rapid, chosen_places, flash_period, has_version, is_any_version, is_idle, is_letter, is_on_item, is_page, item_places, one_place, sets_idle_off, sets_long_dark};
ghost use Rattle.message_words.specs.OnPages.{flash_turn};

use crate::code::WarningCode;
use crate::said::Said;
use multi_tag::{FontPick, Tag};
use multi_token::Source;
use sign_font::{Defaults, FontInfo, Sign};
use std::alloc::{AllocError, Global};

/// The number of the space.
const SPACE: u16 = 32;

/// The most time for which the sign is dark between pages without a warning, in tenths of a second (own; two seconds are usual).
const MOST_DARK: u8 = 20;

/// How often a flash lights that is told of, in tenths of a second (own): less is three times a second or more often.
const FAST: u16 = 4;

/// Whether an item begins a page.
pub(crate) fn is_page(tag: Option<Tag>) -> bool
    ensures { result ≡ is_page tag }
{
    match tag {
        Some(Tag::NewPage) => true,
        _ => false,
    }
}

/// Whether an item shows a character that is no space.
pub(crate) fn is_letter(tag: Option<Tag>) -> bool
    ensures { result ≡ is_letter tag }
{
    match tag {
        Some(Tag::HexChar(number)) => number != SPACE,
        _ => false,
    }
}

/// Whether an off time is neither 0 nor the sign's own.
fn is_idle(defaults: Defaults, off: u8) -> bool
    ensures { result ≡ is_idle defaults off }
{
    off != 0 && off != defaults.page_off
}

/// Whether an item sets an off time that does nothing.
fn sets_idle_off(defaults: Defaults, pages: usize, tag: Option<Tag>) -> bool
    ensures { result ≡ sets_idle_off defaults pages tag }
{
    match tag {
        Some(Tag::PageTime { off, .. }) => {
            pages == 1 && is_idle(defaults, off.unwrap_or(defaults.page_off))
        }
        _ => false,
    }
}

/// Whether an item darkens the sign for long between pages.
fn sets_long_dark(defaults: Defaults, pages: usize, tag: Option<Tag>) -> bool
    ensures { result ≡ sets_long_dark defaults pages tag }
{
    match tag {
        Some(Tag::PageTime { off, .. }) => {
            pages > 1 && off.unwrap_or(defaults.page_off) > MOST_DARK
        }
        _ => false,
    }
}

/// Whether an item asks for a colour other than black.
fn asks_colour(tag: Option<Tag>) -> bool
    ensures { result ≡ asks_colour tag }
{
    match tag {
        Some(Tag::Fore(Some(colour))) => colour != 0,
        _ => false,
    }
}

/// After how many tenths of a second a flash that an item begins lights again, if it goes on and off.
pub(crate) fn flash_period(defaults: Defaults, tag: Option<Tag>) -> Option<u16>
    ensures { result ≡ flash_period defaults tag }
{
    match tag {
        Some(Tag::Flash { on, off, .. }) => {
            let on = on.unwrap_or(defaults.flash_on);
            let off = off.unwrap_or(defaults.flash_off);
            if on > 0 && off > 0 {
                Some(u16::from(on) + u16::from(off))
            } else {
                None
            }
        }
        _ => None,
    }
}

/// Whether an item begins a flash that lights more often than twice a second, but not three times.
fn begins_fast(defaults: Defaults, tag: Option<Tag>) -> bool
    ensures { result ≡ begins_fast defaults tag }
{
    match flash_period(defaults, tag) {
        Some(tenths) => tenths == FAST,
        None => false,
    }
}

/// Whether an item begins a flash that lights three times a second or more often.
fn begins_rapid(defaults: Defaults, tag: Option<Tag>) -> bool
    ensures { result ≡ begins_rapid defaults tag }
{
    match flash_period(defaults, tag) {
        Some(tenths) => tenths < FAST,
        None => false,
    }
}

/// Whether an item begins a flash that never goes out.
fn begins_endless(defaults: Defaults, tag: Option<Tag>) -> bool
    ensures { result ≡ begins_endless defaults tag }
{
    match tag {
        Some(Tag::Flash { off, .. }) => off.unwrap_or(defaults.flash_off) == 0,
        _ => false,
    }
}

/// Whether a flash that goes on and off is in force after an item, if the item changes that.
pub(crate) fn flash_turn(defaults: Defaults, tag: Option<Tag>) -> Option<bool>
    ensures { result ≡ flash_turn defaults tag }
{
    match tag {
        Some(Tag::Flash { .. }) => Some(flash_period(defaults, tag).is_some()),
        Some(Tag::FlashEnd) => Some(false),
        _ => None,
    }
}

/// Whether a font has a version.
fn has_version(font: Option<FontInfo>) -> bool
    ensures { result ≡ has_version font }
{
    match font {
        Some(font) => font.version != 0,
        None => false,
    }
}

/// Whether a font is asked for without its version, which it has.
fn is_any_version(sign: &Sign, pick: FontPick) -> bool
    ensures { result ≡ is_any_version sign.now pick }
{
    let mut source = Source::new(b"");
    match pick.version {
        None => has_version(sign.font(&mut source, pick.number)),
        Some(_) => false,
    }
}

/// Whether an item asks for a font without its version, which it has.
fn asks_any_version(sign: &Sign, tag: Option<Tag>) -> bool
    ensures { result ≡ asks_any_version sign.now tag }
{
    match tag {
        Some(Tag::Font(Some(pick))) => is_any_version(sign, pick),
        _ => false,
    }
}

/// Whether a warning with a code is on an item of a message of so many pages.
fn is_on_item(sign: &Sign, pages: usize, code: WarningCode, tag: Option<Tag>) -> bool
    ensures { result ≡ is_on_item sign.now pages code tag }
{
    match code {
        WarningCode::IdleOff => sets_idle_off(sign.defaults(), pages, tag),
        WarningCode::LongDark => sets_long_dark(sign.defaults(), pages, tag),
        WarningCode::NoColours => !sign.classic() && asks_colour(tag),
        WarningCode::FastFlash => begins_fast(sign.defaults(), tag),
        WarningCode::RapidFlash => begins_rapid(sign.defaults(), tag),
        WarningCode::EndlessFlash => begins_endless(sign.defaults(), tag),
        WarningCode::ManyPages => is_page(tag),
        WarningCode::AnyVersion => asks_any_version(sign, tag),
        _ => false,
    }
}

/// Where the items begin on which there are warnings with a code. The error says that memory was refused.
fn item_places(
    alloc: Global,
    sign: &Sign,
    pages: usize,
    code: WarningCode,
    said: &[Said],
) -> Result<Vec<usize>, AllocError>
    ensures { IfOk result (λ places. places.items ≡ item_places sign.now pages code said.now) }
{
    let mut places = Vec::new(alloc);
    for one in said {
        if is_on_item(sign, pages, code, one.tag) {
            places.push(one.at)?;
        }
    }
    Ok(places)
}

/// One place, or none. The error says that memory was refused.
fn one_place(alloc: Global, place: Option<usize>) -> Result<Vec<usize>, AllocError>
    ensures { IfOk result (λ places. places.items ≡ one_place place) }
{
    let mut places = Vec::new(alloc);
    if let Some(at) = place {
        places.push(at)?;
    }
    Ok(places)
}

/// At which of the places of items warnings with a code stand. The error says that memory was refused.
pub(crate) fn chosen_places(
    alloc: Global,
    sign: &Sign,
    pages: usize,
    code: WarningCode,
    said: &[Said],
) -> Result<Vec<usize>, AllocError>
    ensures { IfOk result (λ places. places.items ≡ chosen_places code (item_places sign.now pages code said.now)) }
{
    let places = item_places(alloc, sign, pages, code, said)?;
    match code {
        WarningCode::NoColours | WarningCode::AnyVersion => {
            one_place(alloc, places.first().copied())
        }
        WarningCode::ManyPages => one_place(alloc, places.get(1).copied()),
        _ => Ok(places),
    }
}
