//! Accepted messages in words and pictures.
ghost use Rattle.std.specs.Prelude.{◌≡◌, ◌∷◌, ◌++◌, ◌<◌, ◌^◌, [], List, ℕ, false, length, IfOk, OnOk};
ghost use Rattle.multi_layout.specs.Pages.{IsSized, page_count};
ghost use Rattle.message_report.specs.Explanation.{HasPages, PassesOver, ShowsPages, TellsAccepted, picture_text};
ghost use Rattle.message_report.specs.Notes.{AreWarned, is_still, legend_text};
ghost use Rattle.message_report.specs.Words.{GrowsBy};
ghost use Rattle.message_report.specs.declared.picture.Picture.TheVariants.{Marks};

use crate::accepted::AcceptedMessage;
use crate::canvas::Canvas;
use crate::explanation::Explanation;
use crate::marks::push_lit;
use crate::picture::{Picture, push_picture};
use crate::text::{push_legend, push_message, push_times, push_warnings, times_of};
use crate::verdict::{push_accepted, push_head, push_line_head};
use message_words::Warning;
use multi_layout::Checked;
use std::alloc::AllocError;

/// A canvas of the sign's size: the one that there is, or a new one. The error says that memory was refused.
#[inline(always)]
fn canvas_of(message: &AcceptedMessage<'_>) -> Result<Box<Canvas>, AllocError>
    ensures { IfOk result (λ canvas. IsSized canvas.value.plane message.now.sign.now) }
{
    let (width, height) = (message.sign.width(), message.sign.height());
    if let Some(canvas) = message.canvas.take() {
        if canvas.plane.width() == width && canvas.plane.height() == height {
            return Ok(canvas);
        }
    }
    Canvas::new(message.alloc, message.sign)
}

/// Appends all pages of a monochrome sign, each with its times and its picture by marks. They are drawn in turn on a canvas, and no page is
/// looked for.
#[inline(never)]
fn push_lit_pages(
    text: &mut Explanation,
    message: &AcceptedMessage<'_>,
    checked: &mut Checked<'_>,
) -> Result<(), AllocError>
    requires sign { checked.old.sign ≡ message.now.sign.now }
    requires monochrome { message.now.sign.now.classic ≡ false }
    requires short { length checked.old.source.octets < 2 ^ 32 }
    ensures { OnOk result (GrowsBy
        (HasPages (picture_text Marks message.now.sign.now checked.old.source.octets message.now.telling.phase)
        (page_count checked.old) (page_count checked.old))
        text.old text.new) }
{
    let mut canvas = canvas_of(message)?;
    let Canvas { plane, lines } = &mut *canvas;
    let pages = checked.pages();
    let times = times_of(message, pages)?;
    let mut next = checked.first_page();
    for page in 0..pages {
        push_head(text, page, pages)?;
        push_times(text, &times, page)?;
        checked.draw_next(&mut next, message.telling.phase, 1, lines, plane);
        push_lit(text, plane)?;
    }
    message.canvas.set(Some(canvas));
    Ok(())
}

/// Appends all pages, each with its times and its picture, as [`push_picture`] draws it.
#[inline(never)]
fn push_drawn_pages(
    text: &mut Explanation,
    message: &AcceptedMessage<'_>,
    checked: &mut Checked<'_>,
    picture: Picture,
) -> Result<(), AllocError>
    requires sign { checked.old.sign ≡ message.now.sign.now }
    requires short { length checked.old.source.octets < 2 ^ 32 }
    ensures { OnOk result (GrowsBy
        (HasPages (picture_text picture message.now.sign.now checked.old.source.octets message.now.telling.phase)
        (page_count checked.old) (page_count checked.old))
        text.old text.new) }
{
    let AcceptedMessage {
        alloc,
        telling,
        sign,
        ..
    } = *message;
    let pages = checked.pages();
    let times = times_of(message, pages)?;
    for page in 0..pages {
        push_head(text, page, pages)?;
        push_times(text, &times, page)?;
        push_picture(text, alloc, sign, checked, picture, page, telling.phase)?;
    }
    Ok(())
}

/// Appends all pages, each with its times and its picture.
#[inline(always)]
fn push_pages(
    text: &mut Explanation,
    message: &AcceptedMessage<'_>,
    checked: &mut Checked<'_>,
    picture: Picture,
) -> Result<(), AllocError>
    requires sign { checked.old.sign ≡ message.now.sign.now }
    requires short { length checked.old.source.octets < 2 ^ 32 }
    ensures { OnOk result (GrowsBy
        (HasPages (picture_text picture message.now.sign.now checked.old.source.octets message.now.telling.phase)
        (page_count checked.old) (page_count checked.old))
        text.old text.new) }
{
    match picture {
        Picture::Marks if !message.sign.classic() => { push_lit_pages(text, message, checked) }
        _ => push_drawn_pages(text, message, checked, picture),
    }
}

/// Whether a message of several pages shows the first one all the time.
#[inline(always)]
fn is_still(checked: &Checked<'_>) -> bool
    requires short { length checked.now.source.octets < 2 ^ 32 }
    ensures { result ≡ is_still checked.now.sign checked.now.source.octets (page_count checked.now) }
{
    let pages = checked.pages();
    let cycle = checked.cycle();
    pages > 1 && cycle == 0
}

/// Appends what stands after the pages: what their marks mean, what pictures don't show, the warnings, and an empty line.
#[inline(always)]
fn push_notes(
    text: &mut Explanation,
    message: &AcceptedMessage<'_>,
    is_still: bool,
    picture: Picture,
) -> Result<(), AllocError>
    ensures { OnOk result ((told : List ℕ) × AreWarned message.now.found.now.warnings.items told × (text.new ≡ text.old
        ++ (legend_text picture message.now.sign.now.classic is_still message.now.found.now.flashes message.now.telling.phase
        ++ told ++ 10 ∷ []))) }
{
    push_legend(text, message, is_still, picture)?;
    push_warnings(text, message)
}

/// Appends the explanation of an accepted message with its pages.
#[inline(always)]
fn push_shown(
    text: &mut Explanation,
    message: &AcceptedMessage<'_>,
    checked: &mut Checked<'_>,
    picture: Picture,
) -> Result<(), AllocError>
    requires sign { checked.old.sign ≡ message.now.sign.now }
    requires short { length checked.old.source.octets < 2 ^ 32 }
    requires octets { checked.old.source.octets ≡ message.now.message.now }
    ensures { OnOk result (GrowsBy
        (ShowsPages picture message.now.sign.now checked.old.source.octets message.now.telling.phase message.now.line
        (page_count checked.old) message.now.found.now.warnings.items)
        text.old text.new) }
{
    let is_still = is_still(checked);
    push_line_head(text, message.line)?;
    push_accepted(text, checked.pages())?;
    push_message(text, message.alloc, message.message)?;
    push_pages(text, message, checked, picture)?;
    push_notes(text, message, is_still, picture)?;
    Ok(())
}

/// Appends the warnings on an accepted message, if there are any.
#[inline(never)]
fn push_warned(
    text: &mut Explanation,
    message: &AcceptedMessage<'_>,
    pages: u8,
) -> Result<(), AllocError>
    ensures { OnOk result (GrowsBy (PassesOver message.now.message.now message.now.line pages message.now.found.now.warnings.items)
        text.old text.new) }
{
    let warnings: &[Warning] = &message.found.warnings;
    if warnings.is_empty() {
        return Ok(());
    }
    push_line_head(text, message.line)?;
    push_accepted(text, pages)?;
    push_message(text, message.alloc, message.message)?;
    push_warnings(text, message)?;
    Ok(())
}

/// Appends the explanation of an accepted message in words and pictures.
#[inline(always)]
pub(crate) fn push_told(
    text: &mut Explanation,
    message: &AcceptedMessage<'_>,
    checked: &mut Checked<'_>,
    picture: Picture,
) -> Result<(), AllocError>
    requires sign { checked.old.sign ≡ message.now.sign.now }
    requires short { length checked.old.source.octets < 2 ^ 32 }
    requires octets { checked.old.source.octets ≡ message.now.message.now }
    ensures { OnOk result (GrowsBy
        (TellsAccepted message.now.telling.refused_only picture message.now.sign.now checked.old.source.octets message.now.telling.phase
        message.now.line (page_count checked.old) message.now.found.now.warnings.items)
        text.old text.new) }
{
    if message.telling.refused_only {
        push_warned(text, message, checked.pages())?;
        Ok(())
    } else {
        push_shown(text, message, checked, picture)
    }
}
