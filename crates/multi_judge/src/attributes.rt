//! The attributes in force.

ghost use Rattle.std.specs.Prelude.{◌≡◌};
ghost use Rattle.multi_judge.specs.Prelude.{unwrap_or, Standing, whole_sign, Does, standing_behind, IsSimple, IsSmall, attributes_of};

use crate::terms::Terms;
use multi_meaning::{FlashTimes, Rectangle};
use multi_tag::{LineJust, PageJust, Tag};
use sign_font::{FontInfo, Sign};

/// The values in force after the items so far (NTCIP 1203 v03, MULTI).
#[derive(Clone, Copy)]
pub struct Attributes {
    pub font: FontInfo,
    pub line_just: LineJust,
    pub page_just: PageJust,
    /// Pixels between characters, where the text gives them.
    pub spacing: Option<u8>,
    /// The colours of characters and of the page: 0 to 9.
    pub fore: u8,
    pub back: u8,
    /// The page's on time and off time, in tenths of a second.
    pub on: u8,
    pub off: u8,
    pub flash: Option<FlashTimes>,
    pub rectangle: Rectangle,
}

/// The whole sign.
pub(crate) fn whole_sign(sign: &Sign) -> Rectangle
    ensures is { result ≡ whole_sign sign.now }
    ensures small { IsSmall result }
{
    Rectangle {
        left: 0,
        top: 0,
        width: sign.width(),
        height: sign.height(),
    }
}

impl Attributes {
    /// The pixels between two characters with these attributes.
    pub fn gap(&self) -> u8
        ensures { result ≡ unwrap_or self.now.spacing self.now.font.char_spacing }
    {
        self.spacing.unwrap_or(self.font.char_spacing)
    }

    /// Puts the values in force after a tag that begins nothing, places nothing and asks for no font.
    #[inline(always)]
    pub(crate) fn set(&mut self, sign: &Terms<'_>, tag: Tag)
        ensures set { (at : Standing) → self.old ≡ attributes_of at → IsSimple tag
            → self.new ≡ attributes_of (standing_behind sign.now at (Does tag)) }
        ensures rectangle { self.new.rectangle ≡ self.old.rectangle }
        ensures font { self.new.font ≡ self.old.font }
    {
        let start = &sign.start;
        match tag {
            Tag::LineJust(just) => self.line_just = just.unwrap_or(start.line_just),
            Tag::PageJust(just) => self.page_just = just.unwrap_or(start.page_just),
            Tag::CharSpacing(pixels) => self.spacing = Some(pixels),
            Tag::CharSpacingEnd => self.spacing = None,
            Tag::PageTime { on, off } => {
                self.on = on.unwrap_or(start.on);
                self.off = off.unwrap_or(start.off);
            }
            Tag::Fore(colour) => self.fore = colour.unwrap_or(start.fore),
            Tag::Back(colour) => self.back = colour.unwrap_or(start.back),
            Tag::Flash { off_first, on, off } => {
                self.flash = Some(FlashTimes {
                    off_first,
                    on: on.unwrap_or(sign.defaults.flash_on),
                    off: off.unwrap_or(sign.defaults.flash_off),
                });
            }
            Tag::FlashEnd => self.flash = None,
            _ => {}
        }
    }
}
