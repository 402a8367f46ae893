//! Fonts that have what another one hasn't.

use crate::edit::{between, body_at, item_end, replaced};
use crate::line::{LineBefore, line_before};
use multi_token::Source;
use octet_text::push_number;
use sign_font::Sign;
use std::alloc::{AllocError, Global};

/// The tag that chooses the font of a number.
pub(crate) fn font_tag(alloc: Global, number: u8) -> Result<Vec<u8>, AllocError> {
    let mut tag = Vec::new(alloc);
    tag.extend_from_slice(b"[fo")?;
    push_number(&mut tag, u64::from(number))?;
    tag.push(b']')?;
    Ok(tag)
}

/// The tag for the font in force after a line.
fn tag_in_force<'a>(text: &'a [u8], line: &LineBefore) -> &'a [u8] {
    match line.font_at {
        Some(at) => between(text, at, item_end(text, at)),
        None => b"[fo]",
    }
}

/// The number of the font in force after a line.
pub(crate) fn font_in_force(sign: &Sign, text: &[u8], line: &LineBefore) -> u8 {
    let default = sign.default_font().number;
    let Some(at) = line.font_at else {
        return default;
    };
    let Some((body, _)) = body_at(text, at) else {
        return default;
    };
    let mut number: Option<u8> = None;
    for octet in between(body, 2, body.len()) {
        if !octet.is_ascii_digit() {
            break;
        }
        let digit = octet.wrapping_sub(b'0');
        number = Some(number.unwrap_or(0).saturating_mul(10).saturating_add(digit));
    }
    number.unwrap_or(default)
}

/// Whether a font of the sign has a character.
pub(crate) fn has_character(sign: &Sign, font: u8, number: u16) -> bool {
    let mut source = Source::new(b"");
    sign.cell_width(&mut source, font, number).is_some()
}

/// The first font of the sign that has a character.
fn font_with(sign: &Sign, number: u16) -> Option<u8> {
    for font in 1..=255u8 {
        if has_character(sign, font, number) {
            return Some(font);
        }
    }
    None
}

/// Octets that show a character, and tags around them for the first font that has it, if one has.
pub(crate) fn in_another(
    alloc: Global,
    sign: &Sign,
    text: &[u8],
    line: &LineBefore,
    octets: &[u8],
    number: u16,
) -> Result<Option<Vec<u8>>, AllocError> {
    let Some(font) = font_with(sign, number) else {
        return Ok(None);
    };
    let mut with = font_tag(alloc, font)?;
    with.extend_from_slice(octets)?;
    with.extend_from_slice(tag_in_force(text, line))?;
    Ok(Some(with))
}

/// A message in which the character at an offset is taken from another font that has it, if one has.
pub(crate) fn take_from_another(
    alloc: Global,
    sign: &Sign,
    text: &[u8],
    at: usize,
    number: u16,
) -> Result<Option<Vec<u8>>, AllocError> {
    let end = item_end(text, at);
    let line = line_before(text, at);
    match in_another(alloc, sign, text, &line, between(text, at, end), number)? {
        Some(with) => replaced(alloc, text, at, end, &with),
        None => Ok(None),
    }
}

/// The width of the characters of a line in a font, up to an offset, without the gaps between them; none where the font lacks one.
fn width_in(sign: &Sign, font: u8, text: &[u8], from: usize, to: usize) -> Option<u32> {
    let mut source = Source::new(b"");
    let mut width: u32 = 0;
    let mut at = from;
    for _octet in text {
        if at >= to {
            break;
        }
        if body_at(text, at).is_none() {
            let octet = *text.get(at)?;
            let more = sign.cell_width(&mut source, font, u16::from(octet))?;
            width = width.saturating_add(u32::from(more));
        }
        at = item_end(text, at);
    }
    Some(width)
}

/// The font in which the characters of a line are narrowest, up to an offset, if it is narrower than the one in force.
pub(crate) fn narrower(sign: &Sign, text: &[u8], line: &LineBefore, to: usize) -> Option<u8> {
    let own = font_in_force(sign, text, line);
    let mut least = width_in(sign, own, text, line.start, to)?;
    let mut found = None;
    for font in 1..=255u8 {
        if let Some(width) = width_in(sign, font, text, line.start, to) {
            if width < least {
                least = width;
                found = Some(font);
            }
        }
    }
    found
}

/// The lowest font of the sign, if it is lower than the one in force.
pub(crate) fn lower(sign: &Sign, text: &[u8], line: &LineBefore) -> Option<u8> {
    let mut source = Source::new(b"");
    let own = font_in_force(sign, text, line);
    let mut least = sign.font(&mut source, own)?.height;
    let mut found = None;
    for number in 1..=255u8 {
        if let Some(font) = sign.font(&mut source, number) {
            if font.height < least {
                least = font.height;
                found = Some(number);
            }
        }
    }
    found
}

/// Whether the font in force after a line has more than one pixel between its characters.
pub(crate) fn is_spaced(sign: &Sign, text: &[u8], line: &LineBefore) -> bool {
    let mut source = Source::new(b"");
    match sign.font(&mut source, font_in_force(sign, text, line)) {
        Some(font) => font.char_spacing > 1,
        None => false,
    }
}
