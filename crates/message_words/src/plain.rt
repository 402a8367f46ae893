//! Whether a message's tags can hide text or darken a page, before its pages are drawn for that.

use multi_tag::Tag;
use sign_font::Sign;
use std::alloc::{AllocError, Global};

/// Pixels of a sign, by columns and rows, which are counted from 0: the first ones, and those after the last.
#[derive(Clone, Copy)]
struct Area {
    left: u32,
    top: u32,
    right: u32,
    bottom: u32,
}

impl Area {
    /// The whole sign.
    fn whole(sign: &Sign) -> Area {
        Area {
            left: 0,
            top: 0,
            right: u32::from(sign.width()),
            bottom: u32::from(sign.height()),
        }
    }

    /// The rectangle of a tag, whose length of 0 is all that remains.
    fn of_tag(sign: &Sign, x: u32, y: u32, w: u32, h: u32) -> Area {
        let whole = Area::whole(sign);
        let (left, top) = (x.saturating_sub(1), y.saturating_sub(1));
        Area {
            left,
            top,
            right: if w == 0 {
                whole.right
            } else {
                left.saturating_add(w)
            },
            bottom: if h == 0 {
                whole.bottom
            } else {
                top.saturating_add(h)
            },
        }
    }

    /// Whether it has a pixel of another one.
    fn meets(self, other: Area) -> bool {
        self.left < other.right
            && other.left < self.right
            && self.top < other.bottom
            && other.top < self.bottom
    }
}

/// A colour as a sign shows it: a monochrome one has no other colour than 1 beside black.
fn shown_as(is_classic: bool, colour: u8) -> u8 {
    if is_classic { colour } else { colour.min(1) }
}

/// What tags and characters tell of hidden text. Colours are bits of a number.
#[derive(Drop)]
pub(crate) struct Plain {
    is_classic: bool,
    /// The areas of the page in which text stands, before the present one, and that one.
    areas: Vec<Area>,
    area: Area,
    /// Whether text stands in the present one.
    is_begun: bool,
    fores: u16,
    backs: u16,
    /// Whether no tag so far can hide text but by its colour.
    is_open: bool,
}

impl Plain {
    /// What a sign tells before the first item.
    pub(crate) fn new(alloc: Global, sign: &Sign) -> Plain {
        let mut plain = Plain {
            is_classic: sign.classic(),
            areas: Vec::new(alloc),
            area: Area::whole(sign),
            is_begun: false,
            fores: 0,
            backs: 0,
            is_open: true,
        };
        plain.backs = plain.bit(sign.defaults().back);
        plain
    }

    /// The bit of a colour as the sign shows it.
    fn bit(&self, colour: u8) -> u16 {
        let shown = shown_as(self.is_classic, colour);
        1u16.checked_shl(u32::from(shown)).unwrap_or(0)
    }

    /// Begins an area after another one on its page.
    fn begin(&mut self, area: Area) -> Result<(), AllocError> {
        if self.is_begun {
            self.areas.push(self.area)?;
        }
        self.area = area;
        self.is_begun = false;
        Ok(())
    }

    /// Begins a page.
    fn begin_page(&mut self, sign: &Sign) {
        self.areas.clear();
        self.area = Area::whole(sign);
        self.is_begun = false;
    }

    /// Sees a tag. A background covers what stands on its page before it.
    pub(crate) fn see(&mut self, sign: &Sign, tag: Tag) -> Result<(), AllocError> {
        let defaults = sign.defaults();
        match tag {
            Tag::NewPage => self.begin_page(sign),
            Tag::Rect { x, y, w, h } => self.begin(Area::of_tag(sign, x, y, w, h))?,
            Tag::Back(colour) => {
                self.backs |= self.bit(colour.unwrap_or(defaults.back));
                self.is_open = self.is_open && !self.is_begun && self.areas.is_empty();
            }
            Tag::Flash { on, off, .. } => {
                let is_dark = on.unwrap_or(defaults.flash_on) == 0
                    && off.unwrap_or(defaults.flash_off) > 0;
                self.is_open = self.is_open && !is_dark;
            }
            _ => {}
        }
        Ok(())
    }

    /// Sees a character that is no space, in this colour.
    pub(crate) fn pass(&mut self, fore: u8) {
        self.fores |= self.bit(fore);
        self.is_open = self.is_open && (self.is_begun || !self.meets_others());
        self.is_begun = true;
    }

    /// Whether the present area has a pixel of another one of its page in which text stands.
    fn meets_others(&self) -> bool {
        for area in &self.areas {
            if area.meets(self.area) {
                return true;
            }
        }
        false
    }

    /// Whether all text of the message is seen.
    pub(crate) fn shows_text(&self) -> bool {
        self.is_open && self.fores & (self.backs | 1) == 0
    }

    /// Whether a page without text is dark.
    pub(crate) fn is_dark_without_text(&self) -> bool {
        self.backs == 1
    }
}

/// Whether text of this colour is seen on a sign, as far as its own background goes.
pub(crate) fn is_seen_in(sign: &Sign, fore: u8) -> bool {
    let fore = shown_as(sign.classic(), fore);
    fore > 0 && fore != shown_as(sign.classic(), sign.defaults().back)
}
