//! Tags in octets after an opening bracket, in one reading.

ghost use Rattle.std.specs.Prelude.{◌≡◌, ◌≢◌, ◌≤◌, ℕ, List, ◌∷◌, ◌++◌, IfSome, IfNone, Some, None};
ghost use Rattle.std.specs.Str.{str_to_ascii_lowercase};
ghost use Rattle.multi_tag.specs.declared.name.Name.TheVariants as names;
ghost use Rattle.multi_tag.specs.Body.{table};
ghost use Rattle.multi_tag.specs.Closed.{HasNoClosedTag, IsClosedTag};
ghost use Rattle.multi_tag.specs.Form.{d, d?, h};
ghost use Rattle.multi_tag.specs.Number.{IsDigit};
ghost use Rattle.multi_tag.specs.Octet.{comma};
ghost use Rattle.multi_tag.specs.Part.{HasNoPartBefore, IsPartBefore, times};

use crate::just::{LineJust, PageJust};
use crate::name::{Name, read_name};
use crate::number::{in_range, read_numeral};
use crate::tag::{FontPick, Tag};

/// The tag whose body begins the octets, and how many octets that body and its closing bracket have.
#[inline(always)]
pub fn read_closed(octets: &[u8]) -> Option<(Tag, usize)>
    ensures some { IfSome result (λ (tag, len). IsClosedTag octets.now tag len) }
    ensures none { IfNone result (HasNoClosedTag octets.now) }
{
    let (name, rest) = read_name(octets)?;
    read_named(octets, rest, name)
}

/// The same, where these octets begin with this name and go on with this rest.
///
/// It stands in its callers' code, so that one that knows the name reads the forms of that name alone.
#[inline(always)]
pub fn read_named(octets: &[u8], rest: &[u8], name: Name) -> Option<(Tag, usize)>
    requires name { str_to_ascii_lowercase octets.now ≡ (table name).name ++ str_to_ascii_lowercase rest.now }
    ensures some { IfSome result (λ (tag, len). IsClosedTag octets.now tag len) }
    ensures none { IfNone result (HasNoClosedTag octets.now) }
{
    let (tag, behind) = read_rest(rest, name)?;
    Some((tag, octets.len() - behind.len()))
}

/// What stands between a name and a bracket, and the octets after the bracket.
#[inline(always)]
fn read_rest(octets: &[u8], name: Name) -> Option<(Tag, &[u8])>
    ensures some { IfSome result (λ (tag, behind).
        IsPartBefore 93 (table name).rest (str_to_ascii_lowercase octets.now) tag (str_to_ascii_lowercase behind.now)) }
    ensures none { IfNone result (HasNoPartBefore 93 (table name).rest (str_to_ascii_lowercase octets.now)) }
{
    match name {
        Name::NewPage => Some((Tag::NewPage, after_bracket(octets)?)),
        Name::Font => {
            let (pick, behind) = read_font(octets)?;
            Some((Tag::Font(pick), behind))
        }
        Name::CharSpacingEnd => Some((Tag::CharSpacingEnd, after_bracket(octets)?)),
        Name::PageTime => {
            let (on, off, behind) = read_times(octets, b'o')?;
            Some((Tag::PageTime { on, off }, behind))
        }
        Name::Flash => {
            let (off_first, on, off, behind) = read_flash(octets)?;
            Some((Tag::Flash { off_first, on, off }, behind))
        }
        Name::FlashEnd => Some((Tag::FlashEnd, after_bracket(octets)?)),
        Name::Rect => {
            let (x, y, w, h, behind) = read_rect(octets)?;
            Some((Tag::Rect { x, y, w, h }, behind))
        }
        Name::HexChar => {
            let (number, behind) = read_hexadecimal(octets, 1)?;
            Some((Tag::HexChar(number), behind))
        }
        Name::NewLine => {
            let (gap, behind) = read_optional(octets, 0, 255)?;
            Some((Tag::NewLine(gap), behind))
        }
        Name::LineJust => {
            let (just, behind) = read_optional(octets, 2, 5)?;
            Some((Tag::LineJust(just.map(LineJust::of)), behind))
        }
        Name::PageJust => {
            let (just, behind) = read_optional(octets, 2, 4)?;
            Some((Tag::PageJust(just.map(PageJust::of)), behind))
        }
        Name::CharSpacing => {
            let (pixels, behind) = read_optional(octets, 0, 255)?;
            Some((Tag::CharSpacing(pixels?), behind))
        }
        Name::Fore => {
            let (colour, behind) = read_optional(octets, 0, 9)?;
            Some((Tag::Fore(colour), behind))
        }
        Name::Back => {
            let (colour, behind) = read_optional(octets, 0, 9)?;
            Some((Tag::Back(colour), behind))
        }
    }
}

/// The octets after a closing bracket, or `None` where they don't begin with it.
#[inline(always)]
fn after_bracket(octets: &[u8]) -> Option<&[u8]>
    ensures some { IfSome result (λ rest. str_to_ascii_lowercase octets.now ≡ 93 ∷ str_to_ascii_lowercase rest.now) }
    ensures none { IfNone result ((rest : List ℕ) → str_to_ascii_lowercase octets.now ≢ 93 ∷ rest) }
{
    match octets {
        [b']', rest @ ..] => Some(rest),
        _ => None,
    }
}

/// A number from `low` to `high`, or none, before a bracket.
#[inline(always)]
fn read_optional(octets: &[u8], low: u8, high: u8) -> Option<(Option<u8>, &[u8])>
    ensures some { IfSome result (λ (value, behind).
        IsPartBefore 93 (d? low high) (str_to_ascii_lowercase octets.now) value (str_to_ascii_lowercase behind.now)) }
    ensures none { IfNone result (HasNoPartBefore 93 (d? low high) (str_to_ascii_lowercase octets.now)) }
{
    let (value, rest) = read_numeral(octets, 10, 5);
    let value = in_range(value, low, high)?;
    Some((value, after_bracket(rest)?))
}

/// A hexadecimal number of one to four digits, from `low` to 65,535, before a bracket.
#[inline(always)]
fn read_hexadecimal(octets: &[u8], low: u16) -> Option<(u16, &[u8])>
    ensures some { IfSome result (λ (value, behind).
        IsPartBefore 93 (h low 65535) (str_to_ascii_lowercase octets.now) value (str_to_ascii_lowercase behind.now)) }
    ensures none { IfNone result (HasNoPartBefore 93 (h low 65535) (str_to_ascii_lowercase octets.now)) }
{
    let (value, rest) = read_numeral(octets, 16, 4);
    let value = value?;
    let behind = after_bracket(rest)?;
    if value < u32::from(low) {
        return None;
    }
    Some((value as u16, behind))
}

/// A number before a bracket.
#[inline(always)]
fn read_coordinate(octets: &[u8]) -> Option<(u32, &[u8])>
    ensures some { IfSome result (λ (value, behind).
        IsPartBefore 93 (d 0 99999) (str_to_ascii_lowercase octets.now) value (str_to_ascii_lowercase behind.now)) }
    ensures none { IfNone result (HasNoPartBefore 93 (d 0 99999) (str_to_ascii_lowercase octets.now)) }
{
    let (value, rest) = read_numeral(octets, 10, 5);
    let value = value?;
    Some((value, after_bracket(rest)?))
}

/// One time, or two times with this letter between them, before a bracket. The letter is given as a small one.
#[inline(never)]
fn read_times(octets: &[u8], letter: u8) -> Option<(Option<u8>, Option<u8>, &[u8])>
    requires letter { ¬ (IsDigit 10 letter) }
    requires other { letter ≢ 93 }
    ensures some { IfSome result (λ (first, second, behind).
        IsPartBefore 93 (times letter) (str_to_ascii_lowercase octets.now) (first, second) (str_to_ascii_lowercase behind.now)) }
    ensures none { IfNone result (HasNoPartBefore 93 (times letter) (str_to_ascii_lowercase octets.now)) }
{
    let (value, rest) = read_numeral(octets, 10, 5);
    let first = in_range(value, 0, 255)?;
    let [stop, rest @ ..] = rest else {
        return None;
    };
    if *stop == b']' {
        return Some((first, None, rest));
    }
    if stop.to_ascii_lowercase() != letter {
        return None;
    }
    let (second, behind) = read_optional(rest, 0, 255)?;
    Some((first, second, behind))
}

/// The times of a flash before a bracket, first whether it is off first: it is on first if they begin with a 't', and off first if they
/// begin with an 'o'.
#[inline(never)]
fn read_flash(octets: &[u8]) -> Option<(bool, Option<u8>, Option<u8>, &[u8])>
    ensures some { IfSome result (λ (off_first, on, off, behind).
        IsPartBefore 93 (table names.Flash).rest (str_to_ascii_lowercase octets.now) (Tag.Flash off_first on off)
        (str_to_ascii_lowercase behind.now)) }
    ensures none { IfNone result (HasNoPartBefore 93 (table names.Flash).rest (str_to_ascii_lowercase octets.now)) }
{
    let [first, rest @ ..] = octets else {
        return None;
    };
    match *first {
        b']' => Some((false, None, None, rest)),
        b't' | b'T' => {
            let (on, off, behind) = read_times(rest, b'o')?;
            Some((false, on, off, behind))
        }
        b'o' | b'O' => {
            let (off, on, behind) = read_times(rest, b't')?;
            Some((true, on, off, behind))
        }
        _ => None,
    }
}

/// A font, and its version after a comma, before a bracket.
#[inline(never)]
fn read_font(octets: &[u8]) -> Option<(Option<FontPick>, &[u8])>
    ensures some { IfSome result (λ (pick, behind).
        IsPartBefore 93 (table names.Font).rest (str_to_ascii_lowercase octets.now) (Tag.Font pick) (str_to_ascii_lowercase behind.now)) }
    ensures none { IfNone result (HasNoPartBefore 93 (table names.Font).rest (str_to_ascii_lowercase octets.now)) }
{
    let (value, rest) = read_numeral(octets, 10, 5);
    let number = in_range(value, 1, 255)?;
    let [stop, rest @ ..] = rest else {
        return None;
    };
    if *stop == b']' {
        let Some(number) = number else {
            return Some((None, rest));
        };
        let pick = FontPick {
            number,
            version: None,
        };
        return Some((Some(pick), rest));
    }
    if *stop != b',' {
        return None;
    }
    let number = number?;
    let (version, behind) = read_hexadecimal(rest, 0)?;
    let pick = FontPick {
        number,
        version: Some(version),
    };
    Some((Some(pick), behind))
}

/// Four numbers with commas between them, before a bracket.
#[inline(never)]
fn read_rect(octets: &[u8]) -> Option<(u32, u32, u32, u32, &[u8])>
    ensures some { IfSome result (λ (x, y, w, h, behind).
        IsPartBefore 93 (table names.Rect).rest (str_to_ascii_lowercase octets.now) (Tag.Rect x y w h) (str_to_ascii_lowercase behind.now)) }
    ensures none { IfNone result (HasNoPartBefore 93 (table names.Rect).rest (str_to_ascii_lowercase octets.now)) }
{
    let (x, octets) = read_before_comma(octets)?;
    let (y, octets) = read_before_comma(octets)?;
    let (w, octets) = read_before_comma(octets)?;
    let (h, behind) = read_coordinate(octets)?;
    Some((x, y, w, h, behind))
}

/// A number before a comma, and the octets after the comma.
#[inline(always)]
fn read_before_comma(octets: &[u8]) -> Option<(u32, &[u8])>
    ensures some { IfSome result (λ (number, rest).
        IsPartBefore comma (d 0 99999) (str_to_ascii_lowercase octets.now) number (str_to_ascii_lowercase rest.now)) }
    ensures none { IfNone result (HasNoPartBefore comma (d 0 99999) (str_to_ascii_lowercase octets.now)) }
{
    let (value, rest) = read_numeral(octets, 10, 5);
    let [stop, rest @ ..] = rest else {
        return None;
    };
    if *stop == b',' {
        Some((value?, rest))
    } else {
        None
    }
}
