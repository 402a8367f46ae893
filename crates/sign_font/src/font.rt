//! A font, as a sign keeps it and as it is asked for.

ghost use Rattle.std.specs.Prelude.{◌≡◌, ℕ, false, IfOk, IfSome, option_map};
ghost use Rattle.multi_token.specs.Spelling.{is_bracket};
ghost use Rattle.sign_font.specs.Advance.{AreAdvances, advance_of};
ghost use Rattle.sign_font.specs.Sign.{font_of, info_of, cell_numbered, sized};
ghost use Rattle.sign_font.specs.Sound.{IsSoundFont, IsSoundSize, IsWithin};
ghost use Rattle.sign_font.specs.Text.{width_numbered};

use crate::cell::{Cell, Glyph};
use crate::glyphs::Glyphs;
use crate::parts::FontPart;
use multi_token::{Advances, Entry};
use std::alloc::{AllocError, Global};
use std::marker::Model;

/// The values of a font, without its cells (NTCIP 1203 v03, object fontTable).
#[derive(Clone, Copy, Debug, PartialEq, Eq)]
pub struct FontInfo {
    /// The font's number: 1 to 255.
    pub number: u8,
    /// The font's version; 0 if none is known (NTCIP 1203 v03, object fontVersionID).
    pub version: u16,
    /// Rows, in pixels: 1 to 64.
    pub height: u8,
    /// Columns between two characters, in pixels.
    pub char_spacing: u8,
    /// Rows between two lines, in pixels.
    pub line_spacing: u8,
}

/// A font of a sign, in which the cells of octets are looked up (own).
#[derive(Drop)]
pub struct FontCells<'a> {
    font: &'a Font,
}

impl<'a> Model for FontCells<'a> {
    ghost use Rattle.sign_font.specs.Sign.{FontData};
    ghost use Rattle.sign_font.specs.Sound.{IsSoundFont};

    ghost Value = { FontData };

    ghost view = { λ c. c.font.now };

    ghost invariant = { λ c. IsSoundFont c.font.now };
}

impl<'a> FontCells<'a> {
    /// The cells of a font that is kept so.
    pub(crate) fn new(font: &'a Font) -> FontCells<'a>
        requires { IsSoundFont font.now }
        ensures { result ≡ font.now }
    {
        FontCells { font }
    }

    /// The cells of the same font.
    pub fn same(&self) -> FontCells<'a>
        ensures { result ≡ self.now }
    {
        FontCells { font: self.font }
    }

    /// What the font says of itself.
    pub fn info(&self) -> FontInfo
        ensures info { result ≡ info_of self.now }
        ensures height { IsWithin 1 64 result.height }
    {
        let font = self.font;
        font.info()
    }

    /// By octet, what it takes of a line: the width of its cell in pixels, 1 to 64. A bracket and an octet without a cell take more
    /// than any line has, so that they end a run.
    ///
    /// Only a source can read the table, and counts each look.
    pub fn advances(&self) -> &Advances
        ensures table { AreAdvances (width_numbered self.now) result.now }
        ensures sound { IsSoundFont self.now }
    {
        let font = self.font;
        font.advances()
    }

    /// The width in pixels of the cell of an octet that a source looked up in the table: 1 to 64, or `None` if the font lacks it. A
    /// bracket has none there.
    #[inline(always)]
    pub fn width_of(&self, entry: Entry) -> Option<u8>
        ensures width { entry.advance ≡ advance_of (width_numbered self.now) entry.octet → is_bracket entry.octet ≡ false
            → result ≡ width_numbered self.now entry.octet }
    {
        let _ = &self.font;
        u8::try_from(entry.advance).ok()
    }
}

/// A font as a sign keeps it.
#[derive(Drop)]
pub(crate) struct Font {
    info: FontInfo,
    glyphs: Glyphs,
    /// By octet, what it takes of a line.
    advances: Advances,
}

impl Model for Font {
    ghost use Rattle.sign_font.specs.Sign.{FontData};
    ghost use Rattle.sign_font.specs.internal.Font.{font_kept, IsFontKeptWith};

    ghost Value = { FontData };

    ghost view = { λ f. font_kept f.info f.glyphs };

    ghost invariant = { λ f. IsFontKeptWith f.info f.glyphs f.advances };
}

impl Font {
    /// Makes the rows of each cell.
    pub(crate) fn new(alloc: Global, part: FontPart) -> Result<Font, AllocError>
        requires { IsSoundFont (font_of part) }
        ensures { IfOk result (λ font. font ≡ font_of part) }
    {
        let info = FontInfo {
            number: part.number,
            version: part.version,
            height: part.height,
            char_spacing: part.char_spacing,
            line_spacing: part.line_spacing,
        };
        let mut glyphs = Vec::with_capacity(alloc, part.cells.len())?;
        for cell in part.cells {
            glyphs.push(Glyph::new(alloc, cell, info.height)?)?;
        }
        let glyphs = Glyphs::new(glyphs);
        let advances = Advances::new(glyphs.advances());
        Ok(Font {
            info,
            glyphs,
            advances,
        })
    }

    /// By octet, what it takes of a line: the width of its cell, or more than any line has for a bracket and for an octet without a cell.
    pub(crate) fn advances(&self) -> &Advances
        ensures { AreAdvances (width_numbered self.now) result.now }
    {
        &self.advances
    }

    /// The font's number.
    pub(crate) fn number(&self) -> u8
        ensures { result ≡ self.now.number }
    {
        self.info.number
    }

    /// What the font says of itself.
    pub(crate) fn info(&self) -> FontInfo
        ensures { result ≡ info_of self.now }
    {
        self.info
    }

    /// The cell of an octet.
    pub(crate) fn cell(&self, octet: u8) -> Option<Cell<'_>>
        ensures cell { result ≡ option_map (sized self.now) (cell_numbered self.now octet) }
        ensures size { IfSome result IsSoundSize }
    {
        match self.glyphs.find(octet) {
            Some(glyph) => Some(Cell::new(glyph)),
            None => None,
        }
    }

    /// The cell of any number, by halves.
    pub(crate) fn search(&self, number: u16) -> Option<Cell<'_>>
        ensures cell { result ≡ option_map (sized self.now) (cell_numbered self.now number) }
        ensures size { IfSome result IsSoundSize }
    {
        match self.glyphs.search(number) {
            Some(glyph) => Some(Cell::new(glyph)),
            None => None,
        }
    }

    /// The width of the cell of an octet.
    pub(crate) fn cell_width(&self, octet: u8) -> Option<u8>
        ensures width { result ≡ option_map (λ cell. cell.width) (cell_numbered self.now octet) }
        ensures size { IfSome result (IsWithin 1 64) }
    {
        let width = self.glyphs.width(octet);
        if width == 0 { None } else { Some(width) }
    }
}
