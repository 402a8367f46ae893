//! The sign that a string is for, with the defaults in force for that string.

ghost use Rattle.std.specs.Prelude.{◌≡◌, None, Some, option_map};
ghost use Rattle.multi_judge.specs.Prelude.{default_fault, under, SignData, font_numbered, info_of, AreWidthsOf, IsSmall, IsSound, IsWithin, start_in};

use crate::attributes::{Attributes, whole_sign};
use multi_tag::{LineJust, PageJust};
use sign_font::{Defaults, FontCells, FontInfo, Sign};
use std::marker::Model;

/// A sign, seen with these defaults in place of its own. It doesn't refuse them.
#[derive(Drop)]
pub struct Terms<'a> {
    /// The sign, with defaults of its own.
    pub bare: &'a Sign,
    /// The defaults in force, and their font.
    pub defaults: Defaults,
    pub font: FontInfo,
    /// The attributes before the first item, which a tag without a value sets again.
    pub(crate) start: Attributes,
    /// The same font, in which the cells of octets are looked up.
    pub cells: FontCells<'a>,
}

impl<'a> Model for Terms<'a> {
    ghost Value = { SignData };

    ghost view = { λ t. under t.bare.now t.defaults };

    ghost invariant = { λ t. IsSound (under t.bare.now t.defaults)
        × (option_map info_of (font_numbered t.bare.now t.defaults.font) ≡ Some t.font) × IsWithin 1 64 t.font.height
        × (t.start ≡ start_in (under t.bare.now t.defaults) t.font) × IsSmall t.start.rectangle
        × (t.font.number ≡ t.defaults.font) × AreWidthsOf t.bare.now t.defaults.font t.cells };
}

impl<'a> Terms<'a> {
    /// The sign under defaults that it doesn't refuse.
    pub fn new(sign: &'a Sign, defaults: Defaults) -> Terms<'a>
        requires { default_fault sign.now defaults ≡ None }
        ensures { result ≡ under sign.now defaults }
    {
        let font = sign.font_of(&defaults);
        let start = Attributes {
            font,
            line_just: LineJust::of(defaults.line),
            page_just: PageJust::of(defaults.page),
            spacing: None,
            fore: defaults.fore,
            back: defaults.back,
            on: defaults.page_on,
            off: defaults.page_off,
            flash: None,
            rectangle: whole_sign(sign),
        };
        let cells = sign.cells_of(&defaults);
        Terms {
            bare: sign,
            defaults,
            font,
            start,
            cells,
        }
    }
}
