//! A font of the sign that is held, in numbers.
ghost use Rattle.std.specs.Prelude.{◌≡◌};
ghost use Rattle.sign_font.specs.Sign.{font_numbered};
ghost use Rattle.latsefur_c.specs.HeldSign.{TellsFont, font_numbers};

use crate::outcome::{DONE, NO_FONT};
use multi_token::Source;
use sign_font::{FontInfo, Sign};

/// A font without its cells (NTCIP 1203 v03, object fontTable).
#[repr(C)]
#[derive(Clone, Copy)]
pub struct LatsefurFont {
    /// The version; 0 if none is known (NTCIP 1203 v03, object fontVersionID).
    pub version: u16,
    /// The number, 1 to 255.
    pub number: u8,
    /// Rows, in pixels: 1 to 64.
    pub height: u8,
    /// Columns between two characters, in pixels.
    pub char_spacing: u8,
    /// Rows between two lines, in pixels.
    pub line_spacing: u8,
}

/// The numbers of a font.
fn numbers(font: FontInfo) -> LatsefurFont
    ensures { result ≡ font_numbers font }
{
    LatsefurFont {
        version: font.version,
        number: font.number,
        height: font.height,
        char_spacing: font.char_spacing,
        line_spacing: font.line_spacing,
    }
}

/// Tells the font of a number.
pub(crate) fn tell_font(sign: &Sign, number: u8, font: &mut LatsefurFont) -> u8
    ensures { TellsFont (font_numbered sign.now number) font.old font.new result }
{
    match sign.font(&mut Source::new(&[]), number) {
        Some(found) => {
            *font = numbers(found);
            DONE
        }
        None => NO_FONT,
    }
}
