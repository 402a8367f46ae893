//! The colours of the pixels of what is shown of a text.
ghost use Rattle.std.specs.Prelude.{◌≡◌, ℕ, ◌<◌, ◌≤◌, IfOk, length, slice_index};
ghost use Rattle.std.specs.List.{All};
ghost use Rattle.multi_layout.specs.Pages.{page_count};
ghost use Rattle.page_picture.specs.Colours.{IsPage, colour_at, values};
ghost use Rattle.page_picture.specs.Shown.{AreShown, IsThere};

use crate::shown::draw_colours;
use multi_layout::{Checked, Shown};
use sign_font::Sign;
use std::alloc::{AllocError, Global};
use std::marker::Model;

/// What is shown of a string, in all its colours (own).
#[derive(Drop)]
pub struct PageColours {
    width: u16,
    height: u16,
    colours: Vec<u8>,
}

impl Model for PageColours {
    ghost use Rattle.page_picture.specs.Colours.{ColourData, IsWhole};

    ghost Value = { ColourData };

    ghost view = { λ p. record { width = p.width; height = p.height; colours = p.colours.items } };

    ghost invariant = { λ p. IsWhole (record { width = p.width; height = p.height; colours = p.colours.items }) };
}

impl PageColours {
    /// What is shown of a string that this sign accepts, as [`Checked::locate`] tells it of a clock: a page
    /// of the string, or an off time, in which all pixels are black. The error says that memory was refused.
    pub fn of_shown(
        alloc: Global,
        sign: &Sign,
        checked: &mut Checked<'_>,
        shown: Shown,
    ) -> Result<PageColours, AllocError>
        requires sign { checked.old.sign ≡ sign.now }
        requires there { IsThere checked.old.source.octets shown }
        ensures shown { IfOk result (AreShown sign.now checked.old.source.octets shown) }
        ensures kept { (checked.new.sign ≡ checked.old.sign) × (checked.new.source.octets ≡ checked.old.source.octets) }
    {
        let colours = draw_colours(alloc, sign, checked, shown)?;
        Ok(PageColours {
            width: sign.width(),
            height: sign.height(),
            colours,
        })
    }

    /// A page of an accepted string, counted from 0, as it is at a phase, in tenths of a second since the page began. The string must
    /// be one of this sign, and have the page. The error says that memory was refused.
    pub fn new(
        alloc: Global,
        sign: &Sign,
        checked: &mut Checked<'_>,
        page: u8,
        phase: u64,
    ) -> Result<PageColours, AllocError>
        requires sign { checked.old.sign ≡ sign.now }
        requires page { page < page_count checked.old }
        ensures page { IfOk result (IsPage sign.now checked.old.source.octets page phase) }
        ensures kept { (checked.new.sign ≡ checked.old.sign) × (checked.new.source.octets ≡ checked.old.source.octets) }
    {
        PageColours::of_shown(alloc, sign, checked, Shown::Page { page, phase })
    }

    /// The width in pixels, 1 to 1,024.
    pub fn width(&self) -> u16
        ensures value { result ≡ self.now.width }
        ensures range { (1 ≤ result) × (result ≤ 1024) }
    {
        self.width
    }

    /// The height in pixels, 1 to 128.
    pub fn height(&self) -> u16
        ensures value { result ≡ self.now.height }
        ensures range { (1 ≤ result) × (result ≤ 128) }
    {
        self.height
    }

    /// The colour of a pixel, 0 to 9, which must lie on the page: 0 is black.
    pub fn colour(&self, column: u16, row: u16) -> u8
        requires column { column < self.now.width }
        requires row { row < self.now.height }
        ensures colour { result ≡ colour_at self.now column row }
        ensures range { result ≤ 9 }
    {
        self.colours[usize::from(self.width) * usize::from(row) + usize::from(column)]
    }

    /// The colours of the pixels of a row, 0 to 9, from the left. The row must be one of the page.
    pub fn row(&self, row: u16) -> &[u8]
        requires { row < self.now.height }
        ensures count { length result.now ≡ self.now.width }
        ensures colours { (column : ℕ) → column < self.now.width → slice_index result.now column ≡ colour_at self.now column row }
        ensures range { All (λ colour. colour ≤ 9) result.now }
    {
        let width = usize::from(self.width);
        let start = width * usize::from(row);
        &self.colours[start..start + width]
    }

    /// The colours of all pixels, an octet each, row by row from the top, and each row from the left. The error says that memory was
    /// refused.
    pub fn octets(&self, alloc: Global) -> Result<Vec<u8>, AllocError>
        ensures { IfOk result (λ colours. colours.items ≡ values (colour_at self.now) self.now.width self.now.height) }
    {
        let octets = Vec::from_slice(alloc, &self.colours)?;
        Ok(octets)
    }
}
