//! After how long a string plays anew.
ghost use Rattle.std.specs.Prelude.{◌≡◌, ◌<◌, ◌≤◌};
ghost use Rattle.multi_meaning.specs.Meaning.{Meaning, said_by};
ghost use Rattle.multi_layout.specs.Items.{IsSaid};
ghost use Rattle.message_film.specs.Period.{IsCommonTime, IsFlashPeriod, IsPeriod, PlaysFor, flash_time};

use multi_layout::{Checked, StringItem, item_at};
use multi_tag::Tag;
use multi_token::Source;
use sign_font::Sign;

/// The time of the flash that a tag gives, on and off together, in tenths of a second; 0 if it gives none.
fn tag_time(sign: &Sign, tag: Tag) -> u16
    ensures time { result ≡ flash_time sign.now.defaults (said_by tag) }
    ensures range { result ≤ 510 }
{
    match tag {
        Tag::Flash { on, off, .. } => {
            let defaults = sign.defaults();
            let on = on.unwrap_or(defaults.flash_on);
            let off = off.unwrap_or(defaults.flash_off);
            u16::from(on) + u16::from(off)
        }
        _ => 0,
    }
}

/// The same of an item.
fn item_time(sign: &Sign, item: &StringItem) -> u16
    ensures time { (means : Meaning) → IsSaid means item.now.tag → result ≡ flash_time sign.now.defaults means }
    ensures range { result ≤ 510 }
{
    match item.tag {
        Some(tag) => tag_time(sign, tag),
        None => 0,
    }
}

/// The least multiple of some tenths of a second in which a flash of this time is over a whole
/// number of times. Where the time is 0 there is no flash, and these are the tenths themselves.
fn common_time(tenths: u32, flash: u16) -> u64
    requires { flash ≤ 510 }
    ensures { IsCommonTime tenths flash result }
{
    let step = u64::from(tenths);
    let time = u64::from(flash);
    if time == 0 {
        return step;
    }
    for times in 1..time {
        if times * step % time == 0 {
            return times * step;
        }
    }
    time * step
}

/// The least time, in tenths of a second, in which each flash of a string is over a whole number of
/// times. `u32::MAX` stands for that long or longer.
fn flash_period(sign: &Sign, octets: &[u8]) -> u32
    ensures { IsFlashPeriod sign.now octets.now result }
{
    let mut source = Source::new(octets);
    let mut at = 0;
    let mut period = 1u32;
    while let Some(item) = item_at(&mut source, at) {
        let flash = item_time(sign, &item);
        let common = common_time(period, flash);
        if common >= u64::from(u32::MAX) {
            return u32::MAX;
        }
        period = common as u32;
        at += item.len;
    }
    period
}

/// After how many tenths of a second a string that this sign accepts plays anew, at least one. Several pages are shown for one cycle. One
/// page, or pages with a cycle of 0, are shown for the least time in which each flash is over a whole number of times, and without flashing
/// that is 1. `u32::MAX` stands for that long or longer. The octets are those of the string.
pub fn playing_time(sign: &Sign, checked: &Checked<'_>, octets: &[u8]) -> u32
    requires sign { checked.now.sign ≡ sign.now }
    requires octets { checked.now.source.octets ≡ octets.now }
    ensures plays { PlaysFor sign.now octets.now result }
    ensures period { result < 4294967295 → IsPeriod sign.now octets.now result }
    ensures some { 1 ≤ result }
{
    if checked.pages() == 1 {
        return flash_period(sign, octets);
    }
    let cycle = checked.cycle();
    if cycle == 0 {
        return flash_period(sign, octets);
    }
    cycle
}
