//! The cells of a font, as a sign keeps them.

ghost use Rattle.std.specs.Prelude.{◌≡◌, ℕ, ◌==◌, find, option_map, unwrap_or};
ghost use Rattle.std.specs.Option.{option_copied};
ghost use Rattle.sign_font.specs.Advance.{AreAdvances, advance_of};
ghost use Rattle.sign_font.specs.internal.Font.{AreNumbered, width_among};

use crate::cell::Glyph;
use std::marker::Model;

/// The place for a number that nothing has. A list has at most 255 things, so nothing stands there.
pub(crate) const NOWHERE: u8 = 255;

/// What an octet that ends a run has in the table of advances: more than any line has pixels.
pub(crate) const ENDS: u16 = 0x8000;

/// The cells of a font, with tables by which an octet finds its cell at once. A number above 255 stands in no table.
#[derive(Drop)]
pub(crate) struct Glyphs {
    glyphs: Vec<Glyph>,
    /// By octet, the place of its cell, or `NOWHERE`.
    places: [u8; 256],
    /// By octet, the width of its cell in pixels, or 0.
    widths: [u8; 256],
}

impl Model for Glyphs {
    ghost use Rattle.std.specs.Prelude.{List};
    ghost use Rattle.sign_font.specs.Cell.{SizedCell};
    ghost use Rattle.sign_font.specs.internal.Font.{AreTables};

    ghost Value = { List SizedCell };

    ghost view = { λ g. g.glyphs.items };

    ghost invariant = { λ g. AreTables g.glyphs.items g.places g.widths };
}

impl Glyphs {
    /// Makes the tables of these cells.
    pub(crate) fn new(glyphs: Vec<Glyph>) -> Glyphs
        requires { AreNumbered glyphs.items }
        ensures { result ≡ glyphs.items }
    {
        let mut places = [NOWHERE; 256];
        let mut widths = [0; 256];
        for (place, glyph) in glyphs.iter().enumerate() {
            let number = usize::from(glyph.number());
            if number < 256 {
                places[number] = place as u8;
                widths[number] = glyph.width();
            }
        }
        Glyphs {
            glyphs,
            places,
            widths,
        }
    }

    /// The cell of an octet.
    pub(crate) fn find(&self, octet: u8) -> Option<&Glyph>
        ensures { option_copied result ≡ find (λ cell. cell.number == octet) self.now }
    {
        let place = self.places[usize::from(octet)];
        self.glyphs.get(usize::from(place))
    }

    /// The cell of any number, by halves: at most eight cells are compared with it. Whoever calls this counts them.
    pub(crate) fn search(&self, number: u16) -> Option<&Glyph>
        ensures { option_copied result ≡ find (λ cell. cell.number == number) self.now }
    {
        let mut low = 0;
        let mut high = self.glyphs.len();
        for _probe in 0..8u8 {
            if low >= high {
                return None;
            }
            let middle = low + (high - low) / 2;
            let glyph = &self.glyphs[middle];
            let here = glyph.number();
            if here == number {
                return Some(glyph);
            }
            if here < number {
                low = middle + 1;
            } else {
                high = middle;
            }
        }
        None
    }

    /// By octet, the width of its cell, or `ENDS` for a bracket and for an octet without a cell.
    pub(crate) fn advances(&self) -> [u16; 256]
        ensures { AreAdvances (width_among self.now) result }
    {
        let mut advances = [ENDS; 256];
        for octet in 0..256usize {
            advances[octet] = self.advance(octet as u8);
        }
        advances
    }

    /// The width of an octet's cell, or `ENDS` if it is a bracket or has no cell.
    fn advance(&self, octet: u8) -> u16
        ensures { result ≡ advance_of (width_among self.now) octet }
    {
        if octet == b'[' || octet == b']' {
            return ENDS;
        }
        let Some(glyph) = self.find(octet) else {
            return ENDS;
        };
        u16::from(glyph.width())
    }

    /// The width of an octet's cell, or 0 for an octet without a cell.
    pub(crate) fn width(&self, octet: u8) -> u8
        ensures { result ≡ unwrap_or (option_map (λ cell. cell.width) (find (λ cell. cell.number == octet) self.now)) 0 }
    {
        self.widths[usize::from(octet)]
    }
}
