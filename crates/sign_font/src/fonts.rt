//! The fonts of a sign.

ghost use Rattle.std.specs.Prelude.{◌≡◌, ℕ, ◌≤◌, ◌==◌, IsTrue, length, map, find};
ghost use Rattle.std.specs.Option.{option_copied};
ghost use Rattle.sign_font.specs.Limits.{is_rising};

use crate::font::Font;
use crate::glyphs::NOWHERE;
use std::marker::Model;

/// The fonts of a sign, with a table by which a number finds its font at once.
#[derive(Drop)]
pub(crate) struct Fonts {
    fonts: Vec<Font>,
    /// By number, the place of its font, or `NOWHERE`.
    places: [u8; 256],
}

impl Model for Fonts {
    ghost use Rattle.std.specs.Prelude.{List};
    ghost use Rattle.sign_font.specs.Sign.{FontData};
    ghost use Rattle.sign_font.specs.internal.Font.{ArePlaces};

    ghost Value = { List FontData };

    ghost view = { λ f. f.fonts.items };

    ghost invariant = { λ f. ArePlaces (λ font. font.number) f.fonts.items f.places };
}

impl Fonts {
    /// Makes the table of these fonts.
    pub(crate) fn new(fonts: Vec<Font>) -> Fonts
        requires count { length fonts.items ≤ 255 }
        requires rising { IsTrue (is_rising (map (λ font. font.number) fonts.items)) }
        ensures { result ≡ fonts.items }
    {
        let mut places = [NOWHERE; 256];
        for (place, font) in fonts.iter().enumerate() {
            places[usize::from(font.number())] = place as u8;
        }
        Fonts { fonts, places }
    }

    /// The fonts in their order.
    pub(crate) fn as_slice(&self) -> &[Font]
        ensures { result.now ≡ self.now }
    {
        &self.fonts
    }

    /// The font of a number.
    pub(crate) fn find(&self, number: u8) -> Option<&Font>
        ensures { option_copied result ≡ find (λ font. font.number == number) self.now }
    {
        let place = self.places[usize::from(number)];
        self.fonts.get(usize::from(place))
    }
}
