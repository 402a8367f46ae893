//! A sign, which is made once and never changes.

ghost use Rattle.std.specs.Prelude.{◌≡◌, ℕ, ◌+◌, ◌<◌, ◌≤◌, All, Any, IfOk, IfErr, IfSome, IfNone, OnOk, None, Some, map, option_map};
ghost use Rattle.std.specs.Option.{option_copied};
ghost use Rattle.multi_token.specs.Counted.{charged};
ghost use Rattle.sign_font.specs.Sign.{sign_of, font_of, font_numbered, info_of, cell_in, cell_steps, tallest};
ghost use Rattle.sign_font.specs.Defaults.{default_fault, under};
ghost use Rattle.sign_font.specs.Limits.{first_fault};
ghost use Rattle.sign_font.specs.Sound.{IsSound, IsSoundFont, IsSoundSize, IsWithin};
ghost use Rattle.sign_font.specs.Text.{AreWidthsOf};

use crate::cell::Cell;
use crate::fault::{DefaultFault, SignFault};
use crate::font::{Font, FontCells, FontInfo};
use crate::fonts::Fonts;
use crate::limits::{are_known, first_fault};
use crate::parts::{Defaults, FontPart, LineFill, SignParts};
use multi_token::Source;
use std::alloc::{AllocError, Global};
use std::marker::Model;

/// A sign within its limits, with its fonts (own).
///
/// Only `font`, `cells`, `cell` and `cell_width` look up its fonts and their cells, and each look counts as one step. `cell` and
/// `cell_width` take eight for a number above 255. All other calls take no step.
#[derive(Drop)]
pub struct Sign {
    width: u16,
    height: u16,
    classic: bool,
    max_pages: u8,
    beacons: bool,
    pixel_service: bool,
    line_fill: LineFill,
    defaults: Defaults,
    fonts: Fonts,
}

impl Model for Sign {
    ghost use Rattle.sign_font.specs.Sign.{SignData};
    ghost use Rattle.sign_font.specs.Sound.{IsSound};

    ghost Value = { SignData };

    ghost view = { λ s. record {
      width = s.width;
      height = s.height;
      classic = s.classic;
      max_pages = s.max_pages;
      beacons = s.beacons;
      pixel_service = s.pixel_service;
      line_fill = s.line_fill;
      defaults = s.defaults;
      fonts = s.fonts;
    } };

    ghost invariant = { λ s. IsSound (view s) };
}

impl Sign {
    /// Makes a sign from its parts. If they are outside a limit, the answer is the fault of the first such limit, in their
    /// order over the whole sign. `Memory` comes only if memory was refused, and only for parts without another fault.
    pub fn new(alloc: Global, parts: SignParts) -> Result<Sign, SignFault>
        ensures accepted { IfOk result (λ sign. sign ≡ sign_of parts) }
        ensures sound { IfOk result IsSound }
        ensures faultless { OnOk result (first_fault (sign_of parts) ≡ None) }
        ensures faulty { IfSome (first_fault (sign_of parts)) (λ fault. result ≡ Err fault) }
        ensures memory { first_fault (sign_of parts) ≡ None → IfErr result (λ fault. fault ≡ SignFault.Memory) }
        // what is within its limits has no fault
        ensures within { IsSound (sign_of parts) → first_fault (sign_of parts) ≡ None }
    {
        if let Some(fault) = first_fault(&parts) {
            return Err(fault);
        }
        let Ok(fonts) = make_fonts(alloc, parts.fonts) else {
            return Err(SignFault::Memory);
        };
        Ok(Sign {
            width: parts.width,
            height: parts.height,
            classic: parts.classic,
            max_pages: parts.max_pages,
            beacons: parts.beacons,
            pixel_service: parts.pixel_service,
            line_fill: parts.line_fill,
            defaults: parts.defaults,
            fonts: Fonts::new(fonts),
        })
    }

    /// Columns, in pixels: 1 to 1,024.
    pub fn width(&self) -> u16
        ensures width { result ≡ self.now.width }
        ensures sound { IsSound self.now }
    {
        self.width
    }

    /// Rows, in pixels: 1 to 128.
    pub fn height(&self) -> u16
        ensures height { result ≡ self.now.height }
        ensures sound { IsSound self.now }
    {
        self.height
    }

    /// Whether the colours are those of the classic scheme. If not, the sign is monochrome.
    pub fn classic(&self) -> bool
        ensures classic { result ≡ self.now.classic }
        ensures sound { IsSound self.now }
    {
        self.classic
    }

    /// The largest number of pages of a message: 1 to 255.
    pub fn max_pages(&self) -> u8
        ensures max_pages { result ≡ self.now.max_pages }
        ensures sound { IsSound self.now }
    {
        self.max_pages
    }

    /// Whether the sign has beacons.
    pub fn beacons(&self) -> bool
        ensures beacons { result ≡ self.now.beacons }
        ensures sound { IsSound self.now }
    {
        self.beacons
    }

    /// Whether the sign has a pixel service.
    pub fn pixel_service(&self) -> bool
        ensures pixel_service { result ≡ self.now.pixel_service }
        ensures sound { IsSound self.now }
    {
        self.pixel_service
    }

    /// Whether the sign breaks lines that no longer fit between words.
    pub fn line_fill(&self) -> LineFill
        ensures line_fill { result ≡ self.now.line_fill }
        ensures sound { IsSound self.now }
    {
        self.line_fill
    }

    /// What holds unless a message says otherwise.
    pub fn defaults(&self) -> Defaults
        ensures defaults { result ≡ self.now.defaults }
        ensures taken { default_fault self.now self.now.defaults ≡ None }
        ensures sound { IsSound self.now }
    {
        self.defaults
    }

    /// The default font.
    pub fn default_font(&self) -> FontInfo
        ensures font { option_map info_of (font_numbered self.now self.now.defaults.font) ≡ Some result }
        ensures height { IsWithin 1 64 result.height }
        ensures sound { IsSound self.now }
    {
        self.font_of(&self.defaults)
    }

    /// Why the sign refuses these defaults in place of its own, or `None` where it takes them: `Value` where one is
    /// outside its values, and else `FontUnknown` where the sign hasn't the font.
    pub fn refuses(&self, defaults: &Defaults) -> Option<DefaultFault>
        ensures fault { result ≡ default_fault self.now defaults.now }
        ensures sound { IfNone result (IsSound (under self.now defaults.now)) }
    {
        if defaults.font == 0 || !are_known(*defaults) {
            Some(DefaultFault::Value)
        } else if self.find_font(defaults.font).is_none() {
            Some(DefaultFault::FontUnknown)
        } else {
            None
        }
    }

    /// The font of defaults that the sign doesn't refuse.
    pub fn font_of(&self, defaults: &Defaults) -> FontInfo
        requires { default_fault self.now defaults.now ≡ None }
        ensures font { option_map info_of (font_numbered self.now defaults.now.font) ≡ Some result }
        ensures height { IsWithin 1 64 result.height }
        ensures sound { IsSound (under self.now defaults.now) }
    {
        self.find_font(defaults.font).unwrap().info()
    }

    /// The same font, in which the cells of octets are looked up.
    pub fn cells_of(&self, defaults: &Defaults) -> FontCells<'_>
        requires { default_fault self.now defaults.now ≡ None }
        ensures cells { Some result ≡ font_numbered self.now defaults.now.font }
        ensures widths { AreWidthsOf self.now defaults.now.font result }
        ensures sound { IsSound (under self.now defaults.now) }
    {
        FontCells::new(self.find_font(defaults.font).unwrap())
    }

    /// The height of the tallest font, in pixels: 1 to 64.
    pub fn tallest(&self) -> u8
        ensures tallest { result ≡ tallest self.now }
        ensures above { All (λ font. font.height ≤ result) self.now.fonts }
        ensures reached { Any (λ font. font.height ≡ result) self.now.fonts }
        ensures sound { IsSound self.now }
    {
        self.fonts
            .as_slice()
            .iter()
            .map(|font| font.info().height)
            .max()
            .unwrap_or(0)
    }

    /// The font of a number, or `None` if the sign has none. Either way this takes one step.
    pub fn font(&self, source: &mut Source<'_>, number: u8) -> Option<FontInfo>
        ensures font { result ≡ option_map info_of (font_numbered self.now number) }
        ensures height { IfSome result (λ info. IsWithin 1 64 info.height) }
        ensures step { source.new ≡ charged source.old 1 }
        ensures sound { IsSound self.now }
    {
        self.probe(source, number).map(|font| font.info())
    }

    /// The cell of a number in the font of a number, or `None` if the sign lacks either.
    ///
    /// A number up to 255 takes one step, found or not. A wider number takes eight: a search by halves compares at most so many of
    /// the font's cells with it.
    pub fn cell(&self, source: &mut Source<'_>, font: u8, number: u16) -> Option<Cell<'_>>
        ensures cell { result ≡ cell_in self.now font number }
        ensures size { IfSome result IsSoundSize }
        ensures steps { source.new ≡ charged source.old (cell_steps number) }
        ensures sound { IsSound self.now }
    {
        if number < 256 {
            self.probe(source, font)?.cell(number as u8)
        } else {
            self.search(source, font, number)
        }
    }

    /// The width in pixels of the cell of a number in the font of a number: 1 to 64, or `None` if the sign lacks either. It takes
    /// the steps that `cell` takes.
    pub fn cell_width(&self, source: &mut Source<'_>, font: u8, number: u16) -> Option<u8>
        ensures width { result ≡ option_map (λ cell. cell.width) (cell_in self.now font number) }
        ensures size { IfSome result (IsWithin 1 64) }
        ensures steps { source.new ≡ charged source.old (cell_steps number) }
        ensures sound { IsSound self.now }
    {
        if number < 256 {
            self.probe(source, font)?.cell_width(number as u8)
        } else {
            self.search(source, font, number).map(|cell| cell.width())
        }
    }

    /// The font of a number, in which the cells of octets are looked up, or `None` if the sign has none. Either way this takes one step.
    pub fn cells(&self, source: &mut Source<'_>, font: u8) -> Option<FontCells<'_>>
        ensures cells { result ≡ font_numbered self.now font }
        ensures widths { IfSome result (AreWidthsOf self.now font) }
        ensures step { source.new ≡ charged source.old 1 }
        ensures sound { IsSound self.now }
    {
        match self.probe(source, font) {
            Some(font) => Some(FontCells::new(font)),
            None => None,
        }
    }

    /// The cell of any number, by halves, for eight steps.
    fn search(&self, source: &mut Source<'_>, font: u8, number: u16) -> Option<Cell<'_>>
        ensures cell { result ≡ cell_in self.now font number }
        ensures size { IfSome result IsSoundSize }
        ensures steps { source.new ≡ charged source.old 8 }
        ensures sound { IsSound self.now }
    {
        source.charge(8);
        self.find_font(font)?.search(number)
    }

    /// The font of a number, for one step.
    fn probe(&self, source: &mut Source<'_>, number: u8) -> Option<&Font>
        ensures font { option_copied result ≡ font_numbered self.now number }
        ensures within { IfSome result (λ font. IsSoundFont font.now) }
        ensures step { source.new ≡ charged source.old 1 }
        ensures sound { IsSound self.now }
    {
        source.charge(1);
        self.find_font(number)
    }

    fn find_font(&self, number: u8) -> Option<&Font>
        ensures font { option_copied result ≡ font_numbered self.now number }
        ensures within { IfSome result (λ font. IsSoundFont font.now) }
        ensures sound { IsSound self.now }
    {
        self.fonts.find(number)
    }
}

/// Makes the fonts, each with the rows of its cells.
fn make_fonts(alloc: Global, parts: Vec<FontPart>) -> Result<Vec<Font>, AllocError>
    requires { All IsSoundFont (map font_of parts.items) }
    ensures { IfOk result (λ fonts. fonts.items ≡ map font_of parts.items) }
{
    let mut fonts = Vec::with_capacity(alloc, parts.len())?;
    for part in parts {
        fonts.push(Font::new(alloc, part)?)?;
    }
    Ok(fonts)
}
