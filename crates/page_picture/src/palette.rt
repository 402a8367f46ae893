//! The colours of the points of a picture.
ghost use Rattle.std.specs.Prelude.{◌≡◌, length, IfOk};
ghost use Rattle.page_picture.specs.Palette.{palette, shares, shine};

use octet_text::push_octets;
use std::alloc::{AllocError, Global};

/// Red, green and blue between the dots.
const BETWEEN: &[u8] = &[12, 12, 12];

/// Red, green and blue of a colour as it shines.
#[tactic(auto, unfolding(crate::specs::Palette::shine))]
fn shine(classic: bool, colour: u8) -> &'static [u8]
    ensures { result.now ≡ shine classic colour }
{
    if colour == 0 {
        return &[40, 40, 40];
    }
    if colour == 9 || !classic {
        return &[255, 176, 0];
    }
    match colour {
        1 => &[255, 32, 32],
        2 => &[255, 240, 32],
        3 => &[32, 224, 64],
        4 => &[32, 224, 240],
        5 => &[64, 96, 255],
        6 => &[240, 64, 240],
        7 => &[255, 255, 255],
        _ => &[255, 128, 16],
    }
}

/// Red, green and blue of a point by its number in the palette.
#[tactic(auto, unfolding(crate::specs::Palette::shares))]
pub(crate) fn shares(classic: bool, number: u8) -> &'static [u8]
    ensures { result.now ≡ shares classic number }
{
    if number == 0 {
        BETWEEN
    } else {
        shine(classic, number - 1)
    }
}

/// The palette of pictures: red, green and blue, 0 to 255 each, of 16 colours. Number 0 is dark,
/// between the dots, and the numbers from 1 on are the colours from 0 on. With `classic` these are
/// the ten classic colours, and else all but 0 is amber. The error says that memory was refused.
pub fn palette_of(alloc: Global, classic: bool) -> Result<Vec<u8>, AllocError>
    ensures shares { IfOk result (λ octets. octets.items ≡ palette classic) }
    ensures count { IfOk result (λ octets. length octets.items ≡ 48) }
{
    let mut octets = Vec::new(alloc);
    for number in 0..16u8 {
        push_octets(&mut octets, shares(classic, number))?;
    }
    Ok(octets)
}
