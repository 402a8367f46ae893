//! The picture of a page, in one of two ways.
ghost use Rattle.std.specs.Prelude.{◌≡◌, ◌++◌, ◌+◌, ◌<◌, false, OnOk};
ghost use Rattle.multi_layout.specs.Pages.{page_count};
ghost use Rattle.message_report.specs.Explanation.{picture_text};
ghost use Rattle.message_report.specs.Pictures.{page_text};

use crate::blocks::push_lines;
use crate::explanation::Explanation;
use crate::marks::{push_lit, push_rows};
use multi_layout::{Checked, Shown};
use page_picture::{PageColours, palette_of, show};
use page_plane::Plane;
use sign_font::Sign;
use std::alloc::{AllocError, Global};

/// What a page is drawn by (own).
#[derive(Clone, Copy)]
pub(crate) enum Picture {
    /// The digit of its colour for each pixel, or a point for black.
    Marks,
    /// Half blocks in the sign's colours, by the escapes of terminals.
    Blocks,
}

/// Appends the picture of a page of a monochrome sign at a phase by marks. A pixel has colour 1 or 0, which one plane tells.
fn push_monochrome(
    text: &mut Explanation,
    alloc: Global,
    sign: &Sign,
    checked: &mut Checked<'_>,
    page: u8,
    phase: u64,
) -> Result<(), AllocError>
    requires sign { checked.old.sign ≡ sign.now }
    requires monochrome { sign.now.classic ≡ false }
    requires page { page < page_count checked.old }
    ensures ok { OnOk result (text.new ≡ text.old ++ page_text sign.now checked.old.source.octets page phase) }
    ensures kept { (checked.new.sign ≡ checked.old.sign) × (checked.new.source.octets ≡ checked.old.source.octets) }
{
    let Ok(mut plane) = Plane::new(alloc, sign.width(), sign.height()) else {
        return Err(AllocError);
    };
    show(checked, Shown::Page { page, phase }, 1, &mut plane);
    push_lit(text, &plane)
}

/// Appends the picture of a page at a phase, in tenths of a second since the page began.
pub(crate) fn push_picture(
    text: &mut Explanation,
    alloc: Global,
    sign: &Sign,
    checked: &mut Checked<'_>,
    picture: Picture,
    page: u8,
    phase: u64,
) -> Result<(), AllocError>
    requires sign { checked.old.sign ≡ sign.now }
    requires page { page < page_count checked.old }
    ensures ok { OnOk result
        (text.new ≡ text.old ++ picture_text picture sign.now checked.old.source.octets phase page) }
    ensures kept { (checked.new.sign ≡ checked.old.sign) × (checked.new.source.octets ≡ checked.old.source.octets) }
{
    if let Picture::Marks = picture {
        if !sign.classic() {
            return push_monochrome(text, alloc, sign, checked, page, phase);
        }
    }
    let colours = PageColours::new(alloc, sign, checked, page, phase)?;
    match picture {
        Picture::Marks => push_rows(text, &colours),
        Picture::Blocks => {
            let shares = palette_of(alloc, sign.classic())?;
            push_lines(text, &shares, &colours)
        }
    }
}
